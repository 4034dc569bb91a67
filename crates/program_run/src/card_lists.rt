//! The cards of a deck in memory, as a list of cards that are held by themselves.

use devices_1401::Card;
use job_runner::{CardList, Cards, Deck};
use std::alloc::{AllocError, Global};

/// All cards of a deck, in order.
///
/// # Errors
///
/// If the memory for them is refused.
pub fn list_cards(alloc: Global, cards: &CardList) -> Result<Vec<Card>, AllocError> {
    let mut deck = Deck::new(cards);
    let mut all = Vec::new(alloc);
    for _ in 0..cards.len() {
        // A deck in memory is always read.
        if let Ok(Some(card)) = deck.next_card() {
            all.push(card)?;
        }
    }
    Ok(all)
}
