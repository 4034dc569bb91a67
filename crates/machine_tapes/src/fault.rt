//! Why a reel takes no record, and why a text is no reel's.

use thiserror::Error;

/// The record has more characters than the reel has room for.
#[derive(Clone, Copy, Debug, Error)]
#[error("REEL FULL")]
pub struct ReelFull;

/// Why a text isn't read as a reel (own): its first fault, and the number of the byte. The first byte of the text has
/// number 0. Memory comes last.
#[derive(Clone, Copy, Debug, Error)]
pub enum TapFault {
    /// Memory for the reel was refused.
    #[error("MEMORY")]
    Memory,
    /// The text ends within the length that begins at this byte, or within the record of that length.
    #[error("CUT {0}")]
    Cut(usize),
    /// The length that begins at this byte has bit 31: SIMH marks a record with an error, or a gap, like this.
    #[error("FLAG {0}")]
    Flagged(usize),
    /// The length that begins at this byte, after a record, differs from the one before the record.
    #[error("LENGTH {0}")]
    Unequal(usize),
    /// This byte of a record has bit 7, so it is no character.
    #[error("CHARACTER {0}")]
    Character(usize),
    /// The records have more than 2,147,483,647 characters.
    #[error("LONG")]
    Long,
}
