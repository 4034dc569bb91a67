//! Why a text is no image.
ghost use Rattle.std.specs.Prelude.{◌≡◌};
ghost use Rattle.machine_image.specs.Fault.{image_fault_number};

use thiserror::Error;

/// Why a text is read as no image, by number. The first wrong line decides; memory comes last.
#[derive(Clone, Copy, Debug, Error)]
pub enum ImageFault {
    /// 1: the memory for the image was refused.
    #[error("1 MEMORY")]
    Memory = 1,
    /// 2: the first line is no header, or names a size that an image doesn't have.
    #[error("2 HEADER")]
    Header = 2,
    /// 3: a line is neither a segment nor the end, or something follows the end.
    #[error("3 RECORD")]
    BadRecord = 3,
    /// 4: a segment or the entry doesn't lie in core storage of the image's size.
    #[error("4 RANGE")]
    Range = 4,
    /// 5: the text ends before its last line does.
    #[error("5 TRUNCATED")]
    Truncated = 5,
}

impl ImageFault {
    /// The number.
    pub fn number(self) -> u8
        ensures { result ≡ image_fault_number self }
    {
        self as u8
    }
}
