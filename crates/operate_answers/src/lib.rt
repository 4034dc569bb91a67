//! What a person reads at the console of `ibm1401 operate`: the answers to lines, as texts. Nothing here changes the
//! machine or is recorded.
//!
//! ```text
//! let number = stops.add_break(&program, &machine, &place, None, None)?   // `break LOOK`: 1
//! put_look(alloc, &mut text, &program, &seen, &look)?                     // `print TOTAL`: its line
//! put_steps(alloc, &mut text, &program, &mut copy, 3)                     // `step 3`: three lines
//! put_ended(alloc, &mut text, &program, &machine, &stops, ended, 16)      // HALT at 0463 (..) after 16 steps
//! ```
#![tactic(auto)]

// why nothing can be shown or set
pub mod fault;

// parts of many answers
mod counted;
pub mod there;
pub mod typed;

// breaks and watches: what they ask, their tests, all of them, and their texts
pub mod asked;
pub mod stop_test;
pub mod stop_text;
pub mod stops;

// runs: the lines of steps, and how a run ended
mod effects;
pub mod endings;
pub mod steps;

// looks
mod entries;
pub mod fields;
mod listing;
pub mod look;
mod source_lines;

// what was done, and the words
pub mod done;
pub mod help;

pub use asked::Asked;
pub use done::{put_deck, put_done, put_dropped, put_fed, put_head, put_saved, put_undone};
pub use endings::{Ended, put_ended, put_why};
pub use fault::{LookFault, put_look_fault};
pub use fields::put_not_so;
pub use help::{put_help, put_order_fault};
pub use look::{Seen, put_look};
pub use steps::{put_lines_from, put_steps};
pub use stop_test::StopTest;
pub use stop_text::put_set;
pub use stops::{NumberedStop, Said, Stops};
pub use there::put_next;
pub use typed::{put_typed_condition, put_typed_place, put_typed_range};
