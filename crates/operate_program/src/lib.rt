//! The program at which a person looks: the addresses that places mean, the line of the source that made cells, and the
//! commands that an act stands for. Nothing here changes the machine.
//!
//! ```text
//! let program = Program::of_source(language, source, made.rows, made.symbols);
//! program.address(&machine, &place)?               // of TOTAL: 496
//! program.line_at(alloc, machine.core(), 420)?     // Some(10): the line of A 6,TOTAL
//! commands_of(alloc, &program, &machine, &act)?    // of `mark 1`: DEPOSIT 0001 ~0
//! ```
#![tactic(auto)]

// why a place means no address, and an act stands for no commands
pub mod fault;

// a source with its labels and the rows of its listing
pub mod program;

// places, ranges, fields and conditions at a program
pub mod comparison;
pub mod field;
pub mod ranges;
pub mod values;

// the lines of the source
pub mod source;

// what the assembler makes of a statement, and the commands of an act
pub mod acts;
pub mod commands;
mod fields;
mod statement_source;
mod statements;

// the texts of faults
pub mod fault_text;

pub use acts::commands_of;
pub use autocoder_listing::Symbol;
pub use commands::read_card;
pub use comparison::Comparison;
pub use fault::{ActFault, PlaceFault};
pub use fault_text::{put_act_fault, put_place_fault};
pub use field::Field;
pub use program::Program;
pub use values::index_name;
