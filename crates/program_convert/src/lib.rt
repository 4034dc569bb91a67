//! What the subcommands `assemble` and `disassemble` write and tell: of a source its image, its listing, its tables and
//! its deck, its faults and its warnings; of an image, or of what a deck loads, its listing.
//!
//! ```text
//! write_assembly(alloc, Language::Plain, source, 4_000, Product::Listing, &mut writer)?  // the listing alone
//! assemble_file(rt, asked)?   // from the source's file to the files that are asked for
//! ```
//!
//! What the subcommand `reel` does: it lists a reel of tape, makes a deck of a reel, and a reel of a deck.
//!
//! ```text
//! write_reel_listing(alloc, text, Parity::Odd, &mut writer)?  // 000001 00080 JONES, and so on
//! reel_deck(alloc, text, None, Parity::Even)?                 // the text of a deck: a card for each record
//! ReelText::new(alloc, &cards, Parity::Even)?                 // the text of a reel: a record for each card,
//!     .write(&mut writer)?                                    // made as it is written
//! ```
#![tactic(auto)]

// why nothing is written of a source or an image, or not all
pub mod fault;

// what is written of a source, and of an image
pub mod assembling;
pub mod disassembling;

// the same from file to file
pub mod image_file;
pub mod source_file;

// why nothing is written of a reel or a deck, or not all
pub mod reel_fault;

// a character on tape, and as a program reads it
mod parity;

// the lines of records, a page after the other, and the listing of a reel
mod counting;
mod lines;
pub mod listing;

// reels made decks, and decks made reels
pub mod decks;
pub mod reels;

// reels and decks from file to file
pub mod reel_file;

pub use assembling::{check_size, write_assembly};
pub use decks::reel_deck;
pub use disassembling::{write_deck_listing, write_disassembly};
pub use fault::AssembleFault;
pub use image_file::{disassemble_deck, disassemble_file};
pub use listing::write_reel_listing;
pub use reel_fault::ReelFault;
pub use reel_file::{check_names, list_reel, write_reel, write_reel_deck};
pub use reels::ReelText;
pub use source_file::assemble_file;
