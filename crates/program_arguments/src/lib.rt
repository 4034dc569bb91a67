//! The command line of the IBM 1401's program, and what it asks for as plain data.
//!
//! ```text
//! // a session on a machine of 1,400 places, whose journal isn't kept:
//! // Call::Console(Session { opening: Opening::PowerOn(1400, Features::NONE), journal: None })
//! read_call(alloc, &["ibm1401", "console", "--size", "1400"])?
//! ```
#![tactic(auto)]

// what the program is called for, a reel's file and its ring, and the size of core storage for a source
pub mod call;
pub mod mounted;
pub mod source_size;

// the kinds of arguments, and the texts that their help takes from tables
mod help_texts;
mod options;

// the kinds of subcommands
mod commands;

// what is wrong with the values of a command line
mod faults;

// the words of each subcommand, and the options that several have
mod assembling;
mod features;
mod graphics;
mod journals;
mod languages;
mod mounting;
mod operating;
mod reeling;
mod running;
mod serving;
mod sizes;
mod switches;

// all of them read
pub mod reading;

pub use call::{
    Assembling, Call, DEFAULT_SIZE, Job, MountedReel, NewJournal, Opening, Operating, Operators,
    Parity, PlainService, Product, ReelSource, ReelTask, Reeling, Reported, Resuming, Seating,
    Session, Showing, Start, Tables,
};
pub use reading::read_call;
pub use source_size::{is_refused, size_for};
