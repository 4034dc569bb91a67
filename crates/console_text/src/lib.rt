//! What an operator of the IBM 1401 types, and what is printed, both ways.
//!
//! ```text
//! parse_line(b"EXAMINE 0500")              // Line::Command(Command::Examine { address: 500, count: 1 })
//! reply_text(alloc, &Answer::Cells(cells)) // ~0K: cells that are read again after DEPOSIT
//! ```
#![tactic(auto)]

// a line: its words and numbers, a card's text, and what it says
pub mod card_text;
pub mod line;
mod words;

// a reply
pub mod answer_text;

// a command as a journal has it
pub mod command_text;
pub mod fit_text;

pub use answer_text::{fault_text, glance_text, reply_text};
pub use command_text::put_command;
pub use fit_text::parse_fit;
pub use line::{LINE_LIMIT, Line, LineFault, parse_line};
pub use machine_notation::put_characters;
