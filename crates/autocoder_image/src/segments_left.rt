//! The segments of packed cells, one after the other.
ghost use Rattle.std.specs.Prelude.{◌≡◌, ◌∷◌, ◌++◌, ◌+◌, ◌<◌, ◌≤◌, ℕ, List, [], length, take, MatchOption};
ghost use Rattle.bcd_1401.specs.declared.cell.Cell.{Cell as ACell};
ghost use Rattle.core_1401.specs.Address.{addresses};
ghost use Rattle.core_1401.specs.Cells.{most_cells};
ghost use Rattle.autocoder_placing.specs.Segments.{closed, cut, segments_of};
ghost use Rattle.autocoder_image.specs.Left.{cells_left};
ghost use Rattle.autocoder_image.specs.Packed.{cells_in, ArePlaced};

use crate::cells_left::CellsLeft;
use crate::packed_cells::PackedCells;
use bcd_1401::Cell;
use core_1401::{Cells, MOST_CELLS};
use machine_image::Segment;
use std::marker::Model;

/// The segments that are left of packed cells. Contracts see the list of them.
#[derive(Drop)]
pub struct SegmentsLeft<'a> {
    cells: CellsLeft<'a>,
}

impl<'a> Model for SegmentsLeft<'a> {
    ghost use Rattle.std.specs.Prelude.{List};
    ghost use Rattle.machine_image.specs.declared.image.Segment.{Segment};
    ghost use Rattle.autocoder_placing.specs.Segments.{segments_of};
    ghost use Rattle.autocoder_image.specs.Left.{cells_left};
    ghost use Rattle.autocoder_image.specs.Packed.{ArePlaced};

    ghost Value = { List Segment };

    ghost view = { λ left. segments_of (cells_left left.cells) };

    ghost invariant = { λ left. ArePlaced (cells_left left.cells) };
}

/// The first cell, if it is at this address, and those after it.
fn cell_at<'a>(left: &CellsLeft<'a>, address: usize) -> Option<(Cell, CellsLeft<'a>)>
    requires { ArePlaced (cells_left left.now) }
    ensures { MatchOption result
        ((n : ℕ) → (cells : List ACell) → n + length cells ≡ address → 0 < length cells
        → cut n cells (cells_left left.now) ≡ closed n cells ++ segments_of (cells_left left.now))
        (λ found. cells_left left.now ≡ (address, found.0) ∷ cells_left found.1) }
{
    let Some((first, more)) = left.split_first() else {
        return None;
    };
    if usize::from(first.address) == address {
        Some((first.cell, more))
    } else {
        None
    }
}

/// Fills a segment that has its first cell, at this address. Answers how many cells it has, and those after them.
fn fill<'a>(held: &mut [Cell; 40], address: u16, first: &CellsLeft<'a>) -> (usize, CellsLeft<'a>)
    requires { ArePlaced (cells_left first.now) }
    ensures cut { closed address (take result.0 held.new) ++ segments_of (cells_left result.1)
        ≡ cut address (take 1 held.old) (cells_left first.now) }
    ensures some { 1 ≤ result.0 }
    ensures few { result.0 ≤ most_cells }
    ensures placed { ArePlaced (cells_left result.1) }
{
    let mut left = first.again();
    let mut count = 1;
    while count < MOST_CELLS {
        let Some((cell, more)) = cell_at(&left, usize::from(address) + count) else {
            return (count, left);
        };
        held[count] = cell;
        count += 1;
        left = more;
    }
    (count, left)
}

impl<'a> SegmentsLeft<'a> {
    /// All of them.
    pub(crate) fn of(packed: &'a PackedCells) -> SegmentsLeft<'a>
        requires { ArePlaced (cells_in packed.now) }
        ensures { result ≡ segments_of (cells_in packed.now) }
    {
        SegmentsLeft {
            cells: CellsLeft::of(packed),
        }
    }

    /// The first segment, and those after it; `None` if none is left.
    pub fn split_first(&self) -> Option<(Segment, SegmentsLeft<'a>)>
        ensures { MatchOption result (self.now ≡ []) (λ found. self.now ≡ found.0 ∷ found.1) }
    {
        let Some((first, more)) = self.cells.split_first() else {
            return None;
        };
        let mut held = [Cell::BLANK; MOST_CELLS];
        held[0] = first.cell;
        let (count, left) = fill(&mut held, first.address, &more);
        let Some(cells) = Cells::from_slice(&held[..count]) else {
            unreachable!()
        };
        let segment = Segment {
            address: first.address,
            cells,
        };
        Some((segment, SegmentsLeft { cells: left }))
    }
}
