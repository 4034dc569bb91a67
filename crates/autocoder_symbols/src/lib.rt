//! A source in Autocoder as its lines, each among its neighbours, and which symbols they declare.
//!
//! ```text
//! let lines = read_lines(alloc, Language::Ibm, source)?;      // what each line says
//! let hashing = SourceHashing::from_source(source);
//! let symbols = declared(alloc, hashing, Language::Ibm, &lines)?;
//! symbols.sites.get(&label)                                   // the line that declares a label
//! symbols.known(label)                                        // from which line on its value is known
//! ```
//!
//! The faults of the lines are found by `autocoder_diagnostics`, and their statements are placed by `autocoder_placing`.
#![tactic(auto)]

pub mod fault; // the kinds of fault
pub mod hashing; // how labels and literals are hashed
pub mod unread; // lines that are read again when they are asked for
pub mod kept_lines; // what is held of the lines
pub mod reading; // a source as its lines, each with its neighbours
pub mod symbols; // which line declares a symbol
pub mod sums; // sums of places and values
pub mod chains; // what a label stands for whose EQU names one without a value so far
pub mod known; // from which line on the value of a symbol is known

pub use chains::{Chains, Link};
pub use fault::{AsmFault, AsmKind};
pub use hashing::SourceHashing;
pub use kept_lines::{KeptLines, Lines};
pub use known::{Known, Symbols, declared, is_known_at_end, is_known_before};
pub use reading::read_lines;
pub use sums::checked_sum;
pub use symbols::{Declaration, Sites, is_before, is_label_before, sites_beyond_end};
