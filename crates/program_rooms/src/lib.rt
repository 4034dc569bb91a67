//! Rooms that are opened to operators: what `serve` does, with or without seats that are taken again, and `resume` with
//! seats.
//!
//! ```text
//! open_room(rt, service)?           // a console for each seat, once, until all have ended
//! let machine = machine_of(rt, opening)?; // at power-on, with an image, or that of a journal
//! open_seats(rt, machine, cards, comers, origin, kept, None)? // consoles and pages, seats taken again, until QUIT
//! open_seats(rt, machine, cards, comers, origin, kept, Some(20))? // the same, and a new room after 20 idle minutes
//! ```
//!
//! Sessions of standard input and output: what `console`, `load` and `resume` do, and `journal`.
//!
//! ```text
//! hold_session(rt, asked)? // at power-on, with an image or after a journal: lines in, replies out, until QUIT
//! journal_file(rt, asked)? // the entries of a file's journal, or how many there are
//! ```
#![tactic(auto)]

// why no room is opened, or what went wrong in it
pub mod fault;

// a console for each seat, once; and how that and the others end
mod ending;
pub mod serving;

// seats that are taken again: where operators come in, what is done before, the room, and those that follow it
mod beginning;
mod entrances;
mod journal_names;
pub mod seating;
mod succession;

// the same if they begin with a journal
mod resuming;

// why no session is held, or how it ended
pub mod session_fault;

// a room with the image of a file
pub mod loading;

// rooms at power-on, those whose journal is kept, and that of a file
pub mod journals;

pub use fault::OpenFault;
pub use journals::{durability_of, hold_session, journal_file, read_chosen, tell_cut};
pub use loading::{load, loaded_room, read_file};
pub use seating::{Machine, machine_of, open_seats};
pub use serving::open_room;
pub use session_fault::{HoldFault, ended};
