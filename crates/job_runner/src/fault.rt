//! Why a job breaks off.

use thiserror::Error;

/// Why a job breaks off.
#[derive(Clone, Copy, Debug, Error)]
pub enum JobFault {
    /// A read of the deck failed.
    #[error("a card can't be read")]
    Read,
    /// A write of the paper or of the punched cards failed.
    #[error("a line or a card can't be written")]
    Write,
    /// The memory for a line or a card was refused.
    #[error("memory refused")]
    Memory,
}
