//! The characters of the IBM 1401: 64 codes of six bits, each with a zone, a digit, a graphic, a column of a
//! card and a place in the collating order, and the cell that holds one of them with its word mark.
//!
//! ```text
//! let five = Char::from_graphic(b'5')?;   // code 5, no zone
//! five.with_zone(2).graphic()             // b'N', minus five
//! five.order()                            // 59: above each letter in the collating order
//! ```
//!
//! The graphics of print chains: a deck that was made for another chain has other bytes for some characters.
//!
//! ```text
//! Graphics::Simh.ours(b'}')       // b'"', the group mark as this machine's chain has it
//! Graphics::Simh.theirs(b'"')     // b'}'
//! in_ours(Some(Graphics::Fortran), text)       // a text for a chain for formulas, in the graphics of this machine
//! ```
#![tactic(auto)]

// a character, and the cell that holds it with its word mark
pub mod cell;
pub mod character;

// its graphic, its column of a card, and its place in the collating order
pub mod collation;
pub mod graphic;
pub mod punch;

// the chains, and a byte of one of them in another
pub mod graphics;

// texts, and what their bytes show of the chain that they were made for
pub mod suggestion;
pub mod texts;

pub use cell::Cell;
pub use character::{CODES, Char};
pub use graphics::Graphics;
pub use suggestion::{Suggestion, suggest, suggest_for_source};
pub use texts::{in_ours, in_theirs};
