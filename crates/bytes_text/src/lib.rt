//! A text that is written piece by piece, and keeps its first failure: so no writer has an early exit.
//!
//! ```text
//! let mut text = Text::new(alloc);
//! text.put(b"hopper ");
//! text.put_number(1, 23);                                             // hopper 23
//! text.put_pieces(&[Piece::Text(b", line "), Piece::Number(4, 7)]);   // , line 0007
//! text.into_bytes()?                                                  // hopper 23, line 0007
//! ```
#![tactic(auto)]

// texts as data
pub mod piece;

// the text that they are added to
pub mod text;

pub use piece::Piece;
pub use text::Text;
