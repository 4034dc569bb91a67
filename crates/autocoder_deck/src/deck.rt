//! All cards of a deck.
ghost use Rattle.std.specs.Prelude.{◌≡◌, ◌<◌, ◌≤◌, ◌+◌, ◌++◌, None, true, length, drop, codes, IfOk, IfErr};
ghost use Rattle.core_1401.specs.Address.{addresses};
ghost use Rattle.core_1401.specs.Storage.{is_core_size};
ghost use Rattle.bytes_text.specs.Written.{Adds};
ghost use Rattle.machine_image.specs.Image.{IsInCore};
ghost use Rattle.autocoder_deck.specs.Card.{HaveChars};
ghost use Rattle.autocoder_deck.specs.Contents.{card_places, first_taken, storage_of};
ghost use Rattle.autocoder_deck.specs.Deck.{AreBrought, IsWhyNoDeck, cards_of, clear_card, deck_text, loader_card};
ghost use Rattle.autocoder_deck.specs.Deck.{start_card};
ghost use Rattle.autocoder_deck.specs.Deck.{storage_deck};
ghost use Rattle.autocoder_deck.specs.Loading.{LoadsItself};

use crate::cards::{put_address, put_cards};
use crate::contents::{CARD_PLACES, first_taken, storage_of};
use crate::fault::DeckFault;
use bcd_1401::Cell;
use bytes_text::Text;
use cpu_1401::fitting_law;
use machine_image::Image;
use std::alloc::{AllocError, Global};

/// Adds the card that clears storage of this size from its end down to place 100, and reads the next card.
#[tactic(auto, unfolding(crate::specs::Deck::clear_card))]
fn put_clear_card(text: &mut Text, size: u16)
    requires { size ≤ addresses }
    ensures { Adds text.old text.new (clear_card size) }
{
    text.put(b",008015,022029,036040,044051,056060/");
    put_address(text, size.saturating_sub(1));
    text.put(b"H039C039062B036/1001099\n");
}

/// Adds the card that begins the program.
#[tactic(auto, unfolding(crate::specs::Deck::start_card))]
fn put_start_card(text: &mut Text, start: u16)
    requires { start < addresses }
    ensures { Adds text.old text.new (start_card start) }
{
    text.put(b"                                       /");
    put_address(text, start);
    text.put(b"080\n");
}

/// The deck for core storage of this size with these cells from 081 on, and this entry.
#[tactic(auto, unfolding(crate::specs::Deck::cards_of, crate::specs::Deck::loader_card))]
fn cards_of(alloc: Global, size: u16, cells: &[Cell], start: u16) -> Result<Vec<u8>, AllocError>
    requires size { size ≤ addresses }
    requires cells { card_places + length cells.now ≤ addresses }
    requires start { start < addresses }
    ensures text { IfOk result (λ text. text.items ≡ cards_of size cells.now start) }
    ensures chars { HaveChars cells.now }
{
    let mut text = Text::new(alloc);
    put_clear_card(&mut text, size);
    text.put(b",047055,059063,067071,075079)044056,181L199099)060)081)181/039,0011040\n");
    put_cards(&mut text, CARD_PLACES as u16, cells);
    put_start_card(&mut text, start);
    text.into_bytes()
}

/// The deck for core storage with these cells, and this entry, if the places under its cards are blank.
#[tactic(auto, using(crate::proofs::BroughtLemmas::are_brought))]
fn checked_deck(alloc: Global, storage: &[Cell], start: u16) -> Result<Vec<u8>, DeckFault>
    requires core { is_core_size (length storage.now) ≡ true }
    requires size { length storage.now ≤ addresses }
    requires places { card_places ≤ length storage.now }
    requires start { start < addresses }
    ensures ok { IfOk result (λ text. text.items ≡ storage_deck storage.now start) }
    ensures blank { IfOk result (λ text. first_taken storage.now ≡ None) }
    ensures brought { IfOk result (λ text. AreBrought storage.now) }
    ensures loads { IfOk result (λ text. LoadsItself text.items (length storage.now) storage.now start) }
    ensures err { IfErr result (IsWhyNoDeck storage.now) }
{
    fitting_law();
    let (card_area, cells) = storage.split_at(CARD_PLACES);
    if let Some(place) = first_taken(card_area) {
        return Err(DeckFault::Place(place));
    }
    match cards_of(alloc, storage.len() as u16, cells, start) {
        Ok(text) => Ok(text),
        Err(_) => Err(DeckFault::Memory),
    }
}

/// The text of the deck that brings an image into a machine's core storage and begins at its entry: a card a line.
///
/// # Errors
///
/// `Place` if the image has something in the places where the cards are read, and `Memory` if the memory for the text
/// is refused.
pub fn write_deck(alloc: Global, image: &Image) -> Result<Vec<u8>, DeckFault>
    requires { IsInCore image.now }
    ensures ok { IfOk result (λ text. text.items ≡ deck_text image.now) }
    ensures blank { IfOk result (λ text. first_taken (storage_of image.now) ≡ None) }

    // Its cards bring all that storage is to hold.
    ensures brought { IfOk result (λ text. AreBrought (storage_of image.now)) }

    // A machine takes it by the load key: it comes to the image's entry with the image's cells in core storage.
    ensures loads { IfOk result (λ text. LoadsItself text.items image.now.size (storage_of image.now) image.now.start) }
    ensures err { IfErr result (IsWhyNoDeck (storage_of image.now)) }
{
    let storage = match storage_of(alloc, image) {
        Ok(storage) => storage,
        Err(_) => return Err(DeckFault::Memory),
    };
    checked_deck(alloc, storage.as_slice(), image.start)
}
