//! What an image holds.
ghost use Rattle.std.specs.Prelude.{◌≡◌};

use core_1401::Cells;
use std::marker::Model;

/// 1 to 40 cells, and the address of the first.
#[derive(Clone, Copy, PartialEq, Eq)]
pub struct Segment {
    /// The place of the first cell; each other goes to the next place.
    pub address: u16,
    /// The cells with their word marks, which take the place of all that stood there.
    pub cells: Cells,
}

/// Segments in order. Contracts see the list of them.
#[derive(Drop)]
pub struct Segments {
    segments: Vec<Segment>,
}

impl Model for Segments {
    ghost use Rattle.std.specs.Prelude.{List};
    ghost use Rattle.machine_image.specs.declared.image.Segment.{Segment};

    ghost Value = { List Segment };

    ghost view = { λ segments. segments.segments.items };
}

impl Segments {
    /// The segments of this list. It takes no memory.
    pub fn from_vec(segments: Vec<Segment>) -> Segments
        ensures { result ≡ segments.items }
    {
        Segments { segments }
    }

    /// The segments.
    pub fn as_slice(&self) -> &[Segment]
        ensures { result.now ≡ self.now }
    {
        self.segments.as_slice()
    }
}

/// The contents of core storage before a program is started: each segment in order, so that a later one overwrites an
/// earlier one, and the address at which the program begins.
#[derive(Drop)]
pub struct Image {
    /// How many places the core storage has.
    pub size: u16,
    /// The segments.
    pub segments: Segments,
    /// The entry: the address of the first instruction.
    pub start: u16,
}
