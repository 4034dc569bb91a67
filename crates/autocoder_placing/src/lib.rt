//! Where the statements and the literals of a source are placed, what its symbols and addresses stand for, and the
//! cells that its lines are made into.
//!
//! ```text
//! let all = place_all(alloc, hashing, &chains, lines)?;   // the chains of EQUs, as `autocoder_symbols` follows them
//! all.symbol(label)?                                      // what a label stands for
//! let mut so_far = all.again(alloc);                      // and once more, line by line
//! so_far.is_row_outside(size, &all, &row)?                // whether something of a statement isn't in core
//! ```
//!
//! Each statement is placed, valued and made into cells by its row of the table of kinds of statement,
//! `autocoder_statements::Description`. Faults of other kinds are found before: see `autocoder_diagnostics`.
#![tactic(auto)]

pub mod characters; // the characters of constants
pub mod lengths; // how many places what a statement says takes
pub mod literals; // what makes two literals one
mod kept_literal; // literals in few bytes
mod alike; // whether literals are written alike
mod literal_table; // a table of literals, and the first of one
pub mod used_literals; // the literals that are used so far
pub mod label_values; // the values that labels have so far
pub mod symbol_values; // what symbols and operands stand for, by what is placed so far
pub mod placing; // where statements and literals are placed
pub mod values; // the values of addresses, and what isn't in core: kind 9
pub mod cells; // the cells of a line
pub mod segments; // the cells, cut into segments
pub mod filling; // core storage as the cells of lines fill it

pub use cells::{address_or_zero, put_contents, put_literal};
pub use characters::Characters;
pub use filling::{FilledPlaces, fill};
pub use label_values::LabelValues;
pub use lengths::{chain_length, contents_length, instruction_length};
pub use literals::LiteralKey;
pub use placing::{Placing, place_all};
pub use segments::Builder;
pub use symbol_values::SymbolValue;
pub use used_literals::UsedLiterals;
pub use values::may_name_unit;
