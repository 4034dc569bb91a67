//! Why nothing is written of a source or an image, or not all of it.

use autocoder_1401::AsmFault;
use autocoder_deck::{DeckFault, LoadFault};
use bytes_descriptors::FileFault;
use machine_image::ImageFault;
use thiserror::Error;

/// What `assemble` and `disassemble` may fail by. Each but `Faulty`, which has lines of its own, is one line.
#[derive(Debug, Drop, Error)]
pub enum AssembleFault {
    /// No core storage of the size named is made.
    #[error("size refused")]
    Size,
    /// The source of this name can't be read, or is longer than any image.
    #[error("cannot read {0}")]
    Unread(String),
    /// The source can't be assembled.
    #[error("{0}")]
    Source(AsmFault),
    /// The source can't be assembled: a line for each of its faults that isn't printed yet.
    #[error("{0}")]
    Faulty(String),
    /// The image of the source has no deck that loads itself.
    #[error("{0}")]
    Deck(DeckFault),
    /// The deck to be listed doesn't load itself.
    #[error("the deck isn't loaded: {0}")]
    Unloaded(LoadFault),
    /// The image to be listed can't be read from the file of this name.
    #[error("{0}: {1}")]
    File(String, FileFault),
    /// The file has no image's text.
    #[error("image refused: {0}")]
    Image(ImageFault),
    /// Memory was refused for what is read or for a text.
    #[error("memory refused")]
    Memory,
    /// Standard output didn't take what was asked for.
    #[error("cannot write")]
    Output,
    /// The file of this name can't be made or written.
    #[error("cannot write {0}")]
    Unwritten(String),
    /// These names lead to one file, and the second is one of a file that is written.
    #[error("{0} and {1} are one file")]
    OneFile(String, String),
}
