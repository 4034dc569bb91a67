//! What an operator of the IBM 1401 asks, and what is answered, as plain data: commands and answers, glances, and why
//! one is refused.
//!
//! ```text
//! Command::SetI { address: 500 }          // START 0500
//! Answer::Refused(Refusal::Address)       // if the address isn't in core
//! Refusal::Address.text()                 // "REFUSED 1 ADDRESS"
//! ```
#![tactic(auto)]

// what is asked
pub mod command;

// what is answered
pub mod answer;
pub mod glance;

// why a room can't take a command, and a glance shows nothing
pub mod fault;

pub use answer::{Answer, Refusal};
pub use command::Command;
pub use fault::{GlanceFault, RoomFault};
pub use glance::Glance;
