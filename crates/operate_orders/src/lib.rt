//! What a line of `ibm1401 operate` says, as plain data: no machine, no values of labels, no files.
//!
//! ```text
//! parse_order(b"examine 400..410")   // Ok(Order::Look(Look::Examine(range)))
//! parse_order(b"s 3")                // Ok(Order::Act(Act::Step(3)))
//! parse_order(b"stpe")               // Err(OrderFault::Word(word)): stpe is no word here
//! ```
#![tactic(auto)]

// a text of a line, and the parts of a line
mod parts;
pub mod text;

// the words that a line may begin with: a table
pub mod words;

// places and ranges of them, values and conditions
pub mod places;
pub mod ranges;
pub mod values;

// what a line says, and why a line says nothing
pub mod fault;
pub mod orders;

// operands with their faults
mod lists;
mod operands;

// lines with a grammar of their own, and all lines
mod doing;
pub mod line;
mod noting;

pub use fault::{OrderFault, put_fault};
pub use line::parse_order;
pub use orders::{Act, Deposited, Look, MOST_LISTED, Note, Order, Past, Watched};
pub use places::{Adjustment, Base, IndexRegister, Place, Register};
pub use ranges::{Area, Range};
pub use text::Text;
pub use values::{Condition, Relation, Value};
pub use words::Keyword;
