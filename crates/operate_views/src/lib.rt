//! What a person sees of the machine: fields as numbers, core under a ruler, registers in words. Nothing here changes
//! the machine or is recorded.
//!
//! ```text
//! let cells = field_cells(alloc, core, 496)?;         // the field with its units at 496, units first
//! put_number(&mut text, &cells);                      // of 0000050!: -500
//! cells_with_number(alloc, &cells, None, b"495")?      // the cells that `set` deposits
//! put_core(alloc, &mut text, core, 201, 241);         // these places under a ruler
//! ```
#![tactic(auto)]

// why nothing can be shown or set
pub mod fault;

// fields: their cells, their numbers, and what is put into them
pub mod field_text;
pub mod fields;
pub mod numbers;
pub mod values;

// registers, indicators and devices
pub mod cards;
pub mod paper;
pub mod registers;

// core as text
pub mod ruler;

// a line of the program, in `list` and after a step, and in a sentence
pub mod lines;
pub mod sentences;

pub use cards::{put_hopper, put_stacker};
pub use fault::{FieldFault, ValueFault};
pub use field_text::{put_change, put_field};
pub use fields::{cells_down, field_cells};
pub use lines::{Statement, cells_to_mark, listed_places, put_listed, put_step};
pub use numbers::{is_digit, is_number, is_plain_digit, put_number};
pub use paper::{put_paper, put_printed};
pub use registers::{put_comparison, put_labelled, put_place, put_registers, put_switches};
pub use ruler::put_core;
pub use sentences::{put_instruction_words, put_statement_words};
pub use values::{cells_with_number, cells_with_text, digit_from_units};
