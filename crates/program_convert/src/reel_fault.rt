//! Why a reel isn't listed, no deck is made of it, or it isn't made of a deck.

use bytes_descriptors::FileFault;
use machine_tapes::TapFault;
use thiserror::Error;

/// What `reel` may fail by. Each is one line.
#[derive(Debug, Drop, Error)]
pub enum ReelFault {
    /// The reel can't be read from the file of this name.
    #[error("{0}: {1}")]
    File(String, FileFault),
    /// The file has no reel's text.
    #[error("reel refused: {0}")]
    Reel(TapFault),
    /// The record of this number has more characters than a card has columns. The first record has number 1, and tape
    /// marks count.
    #[error("record {0} is longer than a card, which has 80 columns")]
    Record(u64),
    /// The deck has more cards than a reel has room for.
    #[error("the deck is longer than a reel")]
    Full,
    /// Memory was refused for what is read or written.
    #[error("memory refused")]
    Memory,
    /// Standard output didn't take the listing.
    #[error("cannot write")]
    Output,
    /// The file of this name can't be made or written.
    #[error("cannot write {0}")]
    Unwritten(String),
    /// These names lead to one file, and the second is that of the file that is written.
    #[error("{0} and {1} are one file")]
    OneFile(String, String),
}
