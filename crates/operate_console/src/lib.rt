//! `ibm1401 operate`: the lines of a person. A line looks, stands for commands of the room, or goes back in its journal;
//! there is no fourth way to the machine.
//!
//! ```text
//! let setting = Setting { alloc, program: &program, manner: &manner };
//! let beginning = Beginning { greeting: b"", first: None };
//! let ended = operate(&setting, sitting, beginning, &mut desk, &mut reader, &mut writer);
//! ended.sitting       // its journal has the commands that the lines stood for
//! ended.end           // OperateEnd::Quit
//! ```
#![tactic(auto)]

// what a person types at, and which files they name
pub mod desk;
pub mod manner;
pub mod setting;
pub mod terminal;

// how it begins and ends
pub mod beginning;
pub mod ends;

// lines that are typed, those of files, and those that wait
mod listening;
pub mod script;
mod typed;
mod waiting;

// the answer that is being made, and what else is noted
mod faults;
mod notebook;
mod page;

// runs: how far they go, what ends them, and their rounds
mod extent;
mod rounds;
mod run_stops;
mod running;

// lines that act, those that go back, and all others
mod acting;
mod carrying;
mod going_back;
mod noting;

// a line, and lines one after the other
mod lines;
pub mod operating;

pub use beginning::Beginning;
pub use desk::{Desk, FileFault};
pub use ends::{Failure, OperateEnd, Operated};
pub use manner::Manner;
pub use operating::operate;
pub use script::Script;
pub use setting::Setting;
pub use terminal::Terminal;
