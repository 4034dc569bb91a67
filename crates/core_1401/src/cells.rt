//! A few cells, held in place.
ghost use Rattle.std.specs.Prelude.{◌≡◌, ◌≤◌, length, ◌&&◌, Some, None, nat_le, if◌then◌else◌};
ghost use Rattle.core_1401.specs.Cells.{most_cells};

use bcd_1401::Cell;
use std::marker::Model;

/// How many cells a line or a segment has at most.
pub const MOST_CELLS: usize = 40;

/// From 1 to 40 cells. Contracts see the list of them.
#[derive(Clone, Copy, Debug, PartialEq, Eq)]
pub struct Cells {
    cells: [Cell; MOST_CELLS],
    len: u8,
}

impl Model for Cells {
    ghost use Rattle.std.specs.Prelude.{List};
    ghost use Rattle.bcd_1401.specs.declared.cell.Cell.{Cell};

    ghost Value = { List Cell };

    ghost use Rattle.core_1401.specs.Cells.{held_cells, IsHeld, holding, holding_again};

    ghost view = { held_cells };

    ghost invariant = { IsHeld };

    ghost inverse = { holding };

    ghost inverse_ok = { holding_again };
}

impl Cells {
    /// These cells; none if there is none of them, or more than 40.
    pub fn from_slice(cells: &[Cell]) -> Option<Cells>
        ensures { let n = length cells.now in
            result ≡ (if nat_le 1 n && nat_le n most_cells then Some cells.now else None) }
    {
        let len = cells.len();
        if len < 1 || len > MOST_CELLS {
            return None;
        }
        let mut held = [Cell::BLANK; MOST_CELLS];
        held[..len].copy_from_slice(cells);
        Some(Cells {
            cells: held,
            len: len as u8,
        })
    }

    /// The cells, 1 to 40 of them.
    pub fn as_slice(&self) -> &[Cell]
        ensures value { result.now ≡ self.now }
        ensures some { 1 ≤ length self.now }
        ensures most { length self.now ≤ most_cells }
    {
        &self.cells[..usize::from(self.len)]
    }
}
