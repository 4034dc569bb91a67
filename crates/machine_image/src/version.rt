//! The versions of the text of an image. All that they differ in is here.
ghost use Rattle.std.specs.Prelude.{◌≡◌, ◌≤◌, Some, None, if◌then◌else◌};
ghost use Rattle.machine_image.specs.Version.{name_of, address_digits, most_places, has_size};

use core_1401::{Core, SIZES};

/// The most places of an image of version 1: the third of the sizes.
const MOST_PLACES: u16 = SIZES[2];

/// A version of the text of an image.
#[derive(Clone, Copy)]
pub enum Version {
    /// 1: four digits, and core storage up to 4,000 places.
    One,
    /// 2: five digits, and core storage of any size.
    Two,
}

impl Version {
    /// What the header begins with.
    pub(crate) fn name(self) -> &'static [u8]
        ensures { result.now ≡ name_of self }
    {
        match self {
            Version::One => b"IMAGE1 ",
            Version::Two => b"IMAGE2 ",
        }
    }

    /// How many digits a size and an address have.
    pub(crate) fn address_digits(self) -> u8
        ensures value { result ≡ address_digits self }
        ensures bound { result ≤ 5 }
    {
        match self {
            Version::One => 4,
            Version::Two => 5,
        }
    }

    /// The size that a number names, if an image with a text of this version can have it.
    pub(crate) fn size(self, number: u32) -> Option<u16>
        ensures { result ≡ (if has_size self number then Some number else None) }
    {
        let size = u16::try_from(number).ok()?;
        if self.has_size(size) {
            Some(size)
        } else {
            None
        }
    }

    /// Whether an image with a text of this version can have this size.
    fn has_size(self, size: u16) -> bool
        ensures value { result ≡ has_size self size }
        ensures most { MOST_PLACES ≡ most_places }
    {
        match self {
            Version::One => Core::is_size(size) && size <= MOST_PLACES,
            Version::Two => Core::is_size(size),
        }
    }
}
