//! The processor of the IBM 1401: one instruction at a time, and a run of them.
//!
//! ```text
//! let mut machine = Machine::power_on(alloc, 4000)?;
//! machine.put(0, halt);
//! machine.run(1)                          // Ran { steps: 1, stop: Stop::Halt }
//! ```
//!
//! What an operator asks of it is carried out on the machine.
//!
//! ```text
//! let mut machine = Machine::power_on(alloc, 4000)?;
//! carry_out(&mut machine, &Command::SetI { address: 500 })   // Answer::Done
//! carry_out(&mut machine, &Command::SetI { address: 4000 })  // Answer::Refused(Refusal::Address)
//! ```
#![tactic(auto)]

// the machine's parts, and what an operator does at them
mod areas;
pub mod copying;
mod loading;
pub mod machine;

// an instruction: its cells, those that it is decoded from, and the decoded ones that are cached
mod cache_entry;
mod condition;
mod decode_cache;
mod decoded;
mod decoding;
pub mod fetched;
mod instruction;

// what features make of an instruction, and the decoded ones that are cached
mod decoded_fitted;
mod fitted_cache;
mod fitted_entry;
pub mod fitting;

// a step, and a run of them
pub mod frame;
pub mod running;
pub mod stepping;

// what each kind of operation does
mod branch_steps;
// what an operator asks of it
pub mod carrying;
mod device_steps;
mod field_steps;
mod io_request;
mod marking;
mod register_steps;
pub mod tape;

pub use carrying::carry_out;
pub use fetched::{InstructionCells, instruction_cells};
pub use fitting::fitting_law;
pub use frame::step_law;
pub use machine::Machine;
pub use machine_commands::{Answer, Command, Refusal};
pub use machine_tables::{Feature, Features, Regs, Stop, SwitchName};
pub use running::Ran;
pub use tape::{CONTROL_LETTERS, TRANSFER_LETTERS, is_tape_letter, tape_unit_at};
