//! The cells of an image, cut at word marks.
ghost use Rattle.std.specs.Prelude.{◌≡◌, ◌+◌, ◌∷◌, ◌++◌, ◌<◌, ◌≤◌, ℕ, List, length, vec_capacity, OnOk, OnErr};
ghost use Rattle.bcd_1401.specs.declared.cell.Cell.{Cell as ACell};
ghost use Rattle.core_1401.specs.Cells.{most_cells};
ghost use Rattle.autocoder_placing.specs.Cells.{numbered};
ghost use Rattle.autocoder_deck.specs.Stretches.{built, KeepsCapacity};

use autocoder_placing::Builder;
use bcd_1401::Cell;
use std::alloc::AllocError;

/// Puts a cell at an address. A word mark begins a stretch.
fn put(builder: &mut Builder, address: usize, cell: Cell) -> Result<(), AllocError>
    ensures built { OnOk result
        ((rest : List (ℕ × ACell)) → built builder.new rest ≡ built builder.old ((address, cell) ∷ rest)) }
    ensures few { OnOk result (length builder.new.done.items ≤ length builder.old.done.items + 1) }
    ensures full { OnErr result (length builder.old.done.items < vec_capacity builder.old.done
        → vec_capacity builder.old.cells < most_cells) }
    ensures capacity { KeepsCapacity builder.old builder.new }
{
    if cell.mark || !builder.goes_on(address) {
        builder.close()?;
        builder.address = address;
    }
    builder.cells.push(cell)?;
    Ok(())
}

/// Puts up to 40 cells from an address on.
pub(crate) fn put_all(builder: &mut Builder, address: u16, cells: &[Cell]) -> Result<(), AllocError>
    requires { length cells.now ≤ most_cells }
    ensures built { OnOk result
        ((rest : List (ℕ × ACell)) → built builder.new rest ≡ built builder.old (numbered address cells.now ++ rest)) }

    // It closes a stretch for each cell at most. Memory is refused only where there is no room for them.
    ensures few { OnOk result (length builder.new.done.items ≤ length builder.old.done.items + length cells.now) }
    ensures full { OnErr result (length builder.old.done.items + length cells.now ≤ vec_capacity builder.old.done
        → vec_capacity builder.old.cells < most_cells) }
    ensures capacity { KeepsCapacity builder.old builder.new }
{
    let mut at = usize::from(address);
    for cell in cells {
        put(builder, at, *cell)?;
        at += 1;
    }
    Ok(())
}
