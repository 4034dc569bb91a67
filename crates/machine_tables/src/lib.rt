//! The tables of the IBM 1401. Its operations have a row each, with its character, its mnemonic, and what
//! its instructions look like.
//!
//! ```text
//! let add = Operation::from_char(char)?;  // of A: Operation::Add
//! add.has_length(7)                       // true: with two addresses
//! add.mnemonic()                          // "A    "
//! ```
//!
//! What the console panel of the IBM 1401 shows: the registers and indicators, the sense switches, and why the machine
//! stopped; and what a machine can be fitted with.
//!
//! ```text
//! Stop::Halt.number()                     // 2
//! Stop::Halt.name()                       // "HALT"
//! SwitchName::G.number()                  // 6: the last of seven
//! Features::NONE.with(Feature::Lengths)   // halts of any length, and chained branches
//! ```
#![tactic(auto)]

// columns of the table: the mnemonics, and the lengths of instructions
mod lengths;
pub mod mnemonics;

// the table, and what is asked of it
pub mod operation;

// the operations of features that a machine hasn't got at power-on, and what features make of instructions
pub mod fitted;
pub mod unfitted;

// the names of tape units in them
pub mod tape_unit;

// what an operator reads, and turns
pub mod regs;
pub mod switch_name;

// why the machine stopped
pub mod stop;

// what the machine has apart from its own operations
pub mod features;

pub use features::{Feature, Features};
pub use fitted::{Fitted, fitted_in, is_fitted_with};
pub use operation::{Operation, is_fitted, longest_at};
pub use regs::Regs;
pub use stop::Stop;
pub use switch_name::SwitchName;
pub use tape_unit::{TAPE_UNITS, TapeUnit, tape_unit_named};
pub use unfitted::{is_unfitted, mnemonic_at};
