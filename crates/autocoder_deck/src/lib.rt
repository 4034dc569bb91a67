//! Decks that load themselves: what the load key takes to bring a core image into a machine's storage, and to start it.
//!
//! ```text
//! write_deck(alloc, &image)?    // the text of the deck, a card a line
//! loaded_image(alloc, machine, &cards, LOADING_STEPS)?    // any deck's core storage at its program's entry
//! ```
//!
//! The first card clears storage from its end down to place 100. The second clears the rest above the card, and sets
//! the word marks of the loader, which is on each card that follows: it moves the card's columns to their places, sets
//! their word marks, and reads the next card. The last card clears the places of the card and branches to the entry.
//! So it is proved of the machine's steps, for each image: one at power-on that takes the deck by the load key comes to
//! the entry with the image's cells in core storage.
//!
//! An image has a listing, and the assembler reads the text of its instructions again.
//!
//! ```text
//! put_instruction(&mut text, &cells)?     // MCW  510,509
//! let room = ListingRoom::reserve(alloc)?;
//! write_listing(room, &image, &mut writer)?  // 00600 M510509  MCW  510,509, and so on
//! list_marked(alloc, &image, &carried)?   // 00600*M510509  MCW  510,509, where it was carried out
//! ```
//!
//! The text of an instruction is a source line from column 16 on, as `machine_notation` writes it. If the
//! assembler has a word for the instruction, it makes the same cells of that line again.
#![tactic(auto)]

// the cells that an image has, and why it has no deck
pub mod contents;
pub mod fault;

// a card of cells, and all cards
mod cards;
pub mod deck;

// a deck of unknown making up to its program's entry, and what core storage holds then
pub mod entry;
pub mod loaded_core;

// the listing of an image: its stretches, their instructions, and that they are read again
pub mod image_listing;
pub mod instruction;
mod stretches;
pub mod writing;
mod written_again;

pub use deck::write_deck;
pub use entry::{CarriedOut, LOADING_STEPS, LoadFault, load_deck};
pub use fault::DeckFault;
pub use image_listing::list_marked;
pub use instruction::put_instruction;
pub use loaded_core::{LoadedDeck, core_image, loaded_image};
pub use machine_notation::Mnemonic;
pub use writing::{ListingRoom, write_listing};
