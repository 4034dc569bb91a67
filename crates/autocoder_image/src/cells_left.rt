//! Packed cells, one after the other.
ghost use Rattle.std.specs.Prelude.{◌≡◌, ◌∷◌, ◌<◌, [], length, take, drop, MatchOption};
ghost use Rattle.core_1401.specs.Address.{addresses};
ghost use Rattle.autocoder_image.specs.Left.{cells_left};
ghost use Rattle.autocoder_image.specs.Packed.{cells_in, ArePlaced};

use crate::packed_cells::{Block, PackedCells, Part};
use bcd_1401::Cell;

/// The cells that are left of packed ones.
#[derive(Drop)]
pub(crate) struct CellsLeft<'a> {
    /// The blocks that aren't begun.
    pub blocks: &'a [Block],
    /// Their parts.
    pub parts: &'a [Part],
    /// The parts of the block that is begun.
    pub block: &'a [Part],
    /// How many times more they are repeated.
    pub times: u16,
    /// Of this time, the parts that aren't begun.
    pub rest: &'a [Part],
    /// The cell of the part that is begun.
    pub cell: Cell,
    /// How many of these are left.
    pub count: u16,
    /// The address of the next cell.
    pub address: u16,
}

/// A cell with its address.
#[derive(Clone, Copy)]
pub(crate) struct PlacedCell {
    /// The address.
    pub address: u16,
    /// The cell.
    pub cell: Cell,
}

/// The first parts.
fn front(parts: &[Part], count: u32) -> &[Part]
    ensures { result.now ≡ take count parts.now }
{
    &parts[..(count as usize).min(parts.len())]
}

/// The parts after the first.
fn back(parts: &[Part], count: u32) -> &[Part]
    ensures { result.now ≡ drop count parts.now }
{
    parts.get(count as usize..).unwrap_or(&[])
}

impl<'a> CellsLeft<'a> {
    /// All of them.
    pub(crate) fn of(packed: &'a PackedCells) -> CellsLeft<'a>
        ensures { cells_left result ≡ cells_in packed.now }
    {
        CellsLeft {
            blocks: packed.blocks.as_slice(),
            parts: packed.parts.as_slice(),
            block: &[],
            times: 0,
            rest: &[],
            cell: Cell::BLANK,
            count: 0,
            address: 0,
        }
    }

    /// The same cells once more.
    pub(crate) fn again(&self) -> CellsLeft<'a>
        ensures { cells_left result ≡ cells_left self.now }
    {
        CellsLeft {
            blocks: self.blocks,
            parts: self.parts,
            block: self.block,
            times: self.times,
            rest: self.rest,
            cell: self.cell,
            count: self.count,
            address: self.address,
        }
    }

    /// Begins the next part of this time that has a cell, if there is one.
    fn begin_part(&mut self)
        ensures cells { cells_left self.new ≡ cells_left self.old }
        ensures done { self.new.count ≡ 0 → self.new.rest.now ≡ [] }
        ensures times { self.new.times ≡ self.old.times }
        ensures blocks { self.new.blocks.now ≡ self.old.blocks.now }
    {
        while self.count == 0 {
            let [first, more @ ..] = self.rest else {
                return;
            };
            self.cell = first.cell;
            self.count = first.count;
            self.rest = more;
        }
    }

    /// Begins the next part of the block that has a cell, if there is one.
    fn begin_time(&mut self)
        ensures cells { cells_left self.new ≡ cells_left self.old }
        ensures done { self.new.count ≡ 0 → (self.new.rest.now ≡ []) × (self.new.times ≡ 0) }
        ensures blocks { self.new.blocks.now ≡ self.old.blocks.now }
    {
        self.begin_part();
        while self.count == 0 && self.times > 0 {
            self.times -= 1;
            self.rest = self.block;
            self.begin_part();
        }
    }

    /// Begins the next part that has a cell, if there is one.
    fn begin_block(&mut self)
        ensures cells { cells_left self.new ≡ cells_left self.old }
        ensures done { self.new.count ≡ 0 → cells_left self.new ≡ [] }
    {
        self.begin_time();
        while self.count == 0 {
            let [first, more @ ..] = self.blocks else {
                return;
            };
            self.address = first.address;
            self.times = first.times;
            self.block = front(self.parts, first.parts);
            self.parts = back(self.parts, first.parts);
            self.blocks = more;
            self.begin_time();
        }
    }

    /// The first cell, and those after it.
    pub(crate) fn split_first(&self) -> Option<(PlacedCell, CellsLeft<'a>)>
        requires { ArePlaced (cells_left self.now) }
        ensures first { MatchOption result (cells_left self.now ≡ []) (λ found.
            cells_left self.now ≡ (found.0.address, found.0.cell) ∷ cells_left found.1) }
    {
        let mut left = self.again();
        left.begin_block();
        if left.count == 0 {
            return None;
        }
        let first = PlacedCell {
            address: left.address,
            cell: left.cell,
        };
        left.count -= 1;
        left.address += 1;
        Some((first, left))
    }
}
