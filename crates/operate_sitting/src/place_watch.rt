//! A watch on places of core storage.
ghost use Rattle.std.specs.Prelude.{◌≡◌, ◌<◌, ◌^◌, length, IfOk};
ghost use Rattle.core_1401.specs.Storage.{cell_at};
ghost use Rattle.operate_sitting.specs.PlaceWatch.{cells_in, differs, watched};

use crate::search::Test;
use bcd_1401::Cell;
use core_1401::Core;
use cpu_1401::Machine;
use std::alloc::{AllocError, Global};
use std::marker::Model;
use std::mem::swap;

/// A watch on a place and some above it: it is met by a step that changes a character or a word mark there. A place
/// that isn't in core doesn't change.
#[derive(Drop)]
pub struct PlaceWatch {
    from: u16,
    cells: Vec<Cell>,
    before: Vec<Cell>,
    is_met: bool,
}

impl Model for PlaceWatch {
    ghost use Rattle.std.specs.Prelude.{◌≡◌, ◌<◌, ◌^◌, length};
    ghost use Rattle.operate_sitting.specs.PlaceWatch.{Watched};

    ghost Value = { Watched };

    ghost view = { λ it. record {
      from = it.from;
      cells = it.cells.items;
      before = it.before.items;
      is_met = it.is_met;
    } };

    ghost invariant = { λ it. (length it.before.items ≡ length it.cells.items) × (length it.cells.items < 2 ^ 16) };
}

impl PlaceWatch {
    /// A watch on this many places from one on.
    ///
    /// # Errors
    ///
    /// If the memory for what they hold is refused.
    pub fn new(alloc: Global, from: u16, count: u16) -> Result<PlaceWatch, AllocError>
        ensures { IfOk result (λ watch. watch ≡ watched from count) }
    {
        let cells = vec![in alloc; Cell::BLANK; usize::from(count)]?;
        let before = vec![in alloc; Cell::BLANK; usize::from(count)]?;
        Ok(PlaceWatch {
            from,
            cells,
            before,
            is_met: false,
        })
    }

    /// The place with the lowest address.
    pub fn from(&self) -> u16
        ensures { result ≡ self.now.from }
    {
        self.from
    }

    /// What the places held after the last step.
    pub fn cells(&self) -> &[Cell]
        ensures { result.now ≡ self.now.cells }
    {
        self.cells.as_slice()
    }

    /// What they held before the last step that met the watch.
    pub fn before(&self) -> &[Cell]
        ensures { result.now ≡ self.now.before }
    {
        self.before.as_slice()
    }

    /// Whether the last step met it.
    pub fn is_met(&self) -> bool
        ensures { result ≡ self.now.is_met }
    {
        self.is_met
    }
}

impl Test for PlaceWatch {
    ghost use Rattle.operate_sitting.specs.PlaceWatch.{watch_begun, watch_seen};

    ghost begun = { λ it s. watch_begun it s.storage };

    ghost seen = { λ it s. watch_seen it s.storage };

    ghost is_met = { λ it. it.is_met };

    fn begin(&mut self, machine: &Machine) {
        self.is_met = false;
        look(self.cells.as_mut_slice(), machine.core(), self.from);
    }

    fn see(&mut self, machine: &Machine) -> bool {
        self.is_met = differ(self.cells.as_slice(), machine.core(), self.from);
        if self.is_met {
            swap(&mut self.cells, &mut self.before);
            look(self.cells.as_mut_slice(), machine.core(), self.from);
        }
        self.is_met
    }
}

/// What a place holds; a blank if it isn't in core.
fn cell_in(core: &Core, place: usize) -> Cell
    ensures { result ≡ cell_at core.now place }
{
    if place < usize::from(core.size()) {
        core.get(place as u16)
    } else {
        Cell::BLANK
    }
}

/// Writes down what the places from one on hold.
fn look(cells: &mut [Cell], core: &Core, from: u16)
    requires { length cells.old < 2 ^ 16 }
    ensures { cells.new ≡ cells_in core.now from (length cells.old) }
{
    for (i, cell) in cells.iter_mut().enumerate() {
        *cell = cell_in(core, usize::from(from) + i);
    }
}

/// Whether one of the places from one on holds something else.
fn differ(cells: &[Cell], core: &Core, from: u16) -> bool
    requires { length cells.now < 2 ^ 16 }
    ensures { result ≡ differs core.now from cells.now }
{
    for (i, cell) in cells.iter().enumerate() {
        if cell_in(core, usize::from(from) + i) != *cell {
            return true;
        }
    }
    false
}
