//! Why an image has no deck.

use thiserror::Error;

/// Why no deck is written.
#[derive(Clone, Copy, Debug, Error)]
pub enum DeckFault {
    /// The image has a character or a word mark at this place, which the loader needs.
    #[error("place {0:03} isn't blank: the deck's cards are read into 001 to 080")]
    Place(u16),
    /// The memory for the deck was refused.
    #[error("memory refused")]
    Memory,
}
