//! How numbers, cells, characters and instructions are written, and how the first three are read again.
//!
//! ```text
//! put_digits(&mut text, 5, 42)?       // 00042
//! read_digits(b"00042")               // 42
//! put_cells(&mut text, &cells)?       // ~0K: a zero with a word mark, and K
//! read_cells(b"~0K")                  // those two cells
//! put_characters(&mut text, &chars)?  // AB: A, B and blanks
//! ```
//!
//! Instructions are written as Autocoder has them:
//!
//! ```text
//! put_instruction(&mut text, &cells)?     // of M510509: MCW  510,509
//! put_shown(&mut text, &cells)?           // of M%U1500R: MCW  %U1,500,R
//! put_number(&mut text, 3, 87)?           // 087
//! ```
//!
//! The text of an instruction is a source line from column 16 on. That the assembler makes the same cells of it again
//! is said above the assembler, in `autocoder_deck`.
#![tactic(auto)]

// numbers in decimal digits
pub mod digits;

// characters by their graphics
pub mod characters;

// cells by their graphics, and why a text spells none
pub mod cells;
pub mod fault;

// a mnemonic, addresses in decimal, and the whole instruction
pub mod instruction;
pub mod mnemonic;

// the same as a person is shown it
pub mod shown;

pub use cells::{put_cell, put_cells, read_cells};
pub use characters::put_characters;
pub use digits::{put_digits, put_named_digits, read_digits};
pub use fault::CellsFault;
pub use instruction::{put_instruction, put_number};
pub use mnemonic::Mnemonic;
pub use shown::put_shown;
