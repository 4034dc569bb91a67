//! The operations of the IBM 1401 on fields of core storage: each is carried out whole, or refused and nothing is
//! changed. What ends in `_within` is for a caller who knows that both addresses are those of places, and doesn't ask
//! for that again.
//!
//! ```text
//! let moved = move_chars(&mut core, 510, 509)?;   // the A field to the B field, right to left
//! moved.b                                         // the B register afterwards
//! let sum = add(&mut core, 709, 720)?;            // the B field is then the sum of both
//! sum.overflow                                    // whether the B field is too short for it
//! ```
//!
//! So are the operations of features that a machine can be fitted with: records moved, addresses modified, fields
//! multiplied and divided.
//!
//! ```text
//! let moved = move_record(&mut core, 700, 710)?;      // from the left, up to and including the record mark
//! moved.b                                             // the B register afterwards
//! let product = multiply(&mut core, 702, 715)?;       // the field that ends at 715 is then the product
//! ```
#![tactic(auto)]

// what an operation leaves, and what it is refused for
pub mod done;
mod lengths;
mod refusals;
pub mod registers;

// moves, loads and word marks
pub mod loads;
pub mod marks;
pub mod moves;
pub mod parts;

// fields compared
pub mod comparison;

// sums: the operands, their signs and digits, then one pass or two over the columns
pub mod arithmetic;
mod columns;
mod digits;
mod like_signs;
mod operands;
pub mod sign;
mod sixteen_columns;
mod unlike_signs;
pub mod zero_sums;

// editing by a control word, and zero suppression
mod across;
pub mod control_word;
pub mod editing;
mod lanes;
mod sixteen_places;
pub mod suppression;

// lengths, signs, digits and numbers of products and quotients
mod numbers;
mod product_digits;
mod product_lengths;
mod product_registers;
mod signs;

// records and addresses
pub mod address_sums;
pub mod records;

// fields multiplied: the places, then as numbers or column by column
mod factors;
pub mod products;

// fields divided: the lengths of both, the places, then as numbers or digit by digit
mod division;
pub mod quotients;
mod subtraction;
pub mod terms;

pub use address_sums::modify_address;
pub use arithmetic::{add, add_within, subtract, subtract_within};
pub use comparison::{compare, compare_within};
pub use control_word::count_replaceable;
pub use division::quotient_len;
pub use done::{Done, FieldStop};
pub use editing::edit;
pub use factors::multiplier_len;
pub use loads::load_chars;
pub use marks::{clear_down, clear_marks, clear_marks_within, set_marks, set_marks_within};
pub use moves::{move_chars, move_chars_within};
pub use parts::{move_digit, move_digit_within, move_zone, move_zone_within};
pub use products::multiply;
pub use quotients::divide;
pub use records::{move_record, record_len};
pub use refusals::share_place;
pub use registers::step_down;
pub use sign::Sign;
pub use suppression::suppress;
pub use terms::{count_figures, dividend_len};
pub use zero_sums::{zero_add, zero_add_within, zero_subtract, zero_subtract_within};
