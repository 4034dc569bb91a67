//! The cells of a source, packed line by line once all labels have their values.
ghost use Rattle.std.specs.Prelude.{◌≡◌, ◌++◌, ◌<◌, ◌^◌, ◌⊎◌, length, Some, None, IfOk, IfErr, OnOk};
ghost use Rattle.autocoder_statements.specs.Description.{describe};
ghost use Rattle.autocoder_symbols.specs.Fault.{IsMemory};
ghost use Rattle.autocoder_placing.specs.Cells.{address_or_zero, numbered, statement_cells, cells_from};
ghost use Rattle.autocoder_placing.specs.Placement.{start_of, after_statement, unplaced};
ghost use Rattle.autocoder_placing.specs.Values.{first_outside_from};
ghost use Rattle.autocoder_placing.specs.View.{places_of};
ghost use Rattle.autocoder_image.specs.Packed.{cells_in, ArePlaced, IsWhole};

use crate::packed_cells::PackedCells;
use autocoder_placing::cells::put_row;
use autocoder_placing::{Placing, address_or_zero};
use autocoder_statements::{Contents, Description, Statement};
use autocoder_symbols::{AsmFault, AsmKind, Lines};
use std::alloc::Global;

/// The cells of the lines so far.
#[derive(Drop)]
struct PackedSoFar<'a> {
    /// What is placed so far.
    so_far: Placing<'a>,
    /// The cells.
    packed: PackedCells,
}

/// After how many cells those of these contents may come again: areas are repeated.
fn period_of(contents: &Contents) -> usize {
    match contents {
        Contents::Areas(Some(areas)) => {
            usize::from(areas.length) + usize::from(areas.has_record_marks)
        },
        Contents::Nothing
        | Contents::Instruction(..)
        | Contents::MarkedConstant(_)
        | Contents::Constant(_)
        | Contents::Space(_)
        | Contents::Areas(None)
        | Contents::Chain(_)
        | Contents::AddressConstant(_) => usize::MAX,
    }
}

impl<'a> PackedSoFar<'a> {
    /// Makes the cells of a statement with this row, with these lines after it.
    fn put_cells(
        &mut self,
        alloc: Global,
        all: &Placing<'a>,
        statement: &Statement,
        row: &Description,
        beyond: &Lines<'_>,
    ) -> Result<(), AsmFault>
        requires row { row.now ≡ describe statement.now.body }
        requires whole { IsWhole self.old.packed }
        ensures cells { OnOk result (cells_in self.new.packed ≡ cells_in self.old.packed
            ++ numbered (address_or_zero (start_of (places_of self.old.so_far) (Some statement.now)))
            (statement_cells (places_of all.now) (places_of self.old.so_far) (Some statement.now) beyond.now)) }
        ensures placed { OnOk result (ArePlaced (cells_in self.old.packed) → ArePlaced (cells_in self.new.packed)) }
        ensures whole { OnOk result (IsWhole self.new.packed) }
        ensures same { places_of self.new.so_far ≡ places_of self.old.so_far }
        ensures err { IfErr result IsMemory }
    {
        let mut cells = Vec::new(alloc);
        put_row(alloc, all, &self.so_far, row, beyond, &mut cells)?;
        if cells.is_empty() {
            return Ok(());
        }
        let start = self.so_far.start_by(row)?;
        self.packed
            .put_cells(address_or_zero(start), period_of(&row.contents), &cells)
    }

    /// Makes the cells of a statement with this row, with these lines after it, and places them.
    fn put_row(
        &mut self,
        alloc: Global,
        all: &Placing<'a>,
        statement: &Statement,
        row: &Description,
        beyond: &Lines<'_>,
    ) -> Result<(), AsmFault>
        requires row { row.now ≡ describe statement.now.body }
        requires whole { IsWhole self.old.packed }
        ensures cells { OnOk result (cells_in self.new.packed ≡ cells_in self.old.packed
            ++ numbered (address_or_zero (start_of (places_of self.old.so_far) (Some statement.now)))
            (statement_cells (places_of all.now) (places_of self.old.so_far) (Some statement.now) beyond.now)) }
        ensures placed { OnOk result (ArePlaced (cells_in self.old.packed) → ArePlaced (cells_in self.new.packed)) }
        ensures whole { OnOk result (IsWhole self.new.packed) }
        ensures after { OnOk result
            (places_of self.new.so_far ≡ after_statement (places_of self.old.so_far) statement.now) }
        ensures err { IfErr result IsMemory }
    {
        self.put_cells(alloc, all, statement, row, beyond)?;
        self.so_far.place_row(statement, row)?;
        Ok(())
    }

    /// Makes the cells of lines, up to the first of which something isn't in core.
    fn put_lines(
        &mut self,
        alloc: Global,
        all: &Placing<'a>,
        size: u16,
        lines: &Lines<'_>,
    ) -> Result<(), AsmFault>
        requires few { length lines.now < 2 ^ 32 }
        requires whole { IsWhole self.old.packed }
        requires placed { ArePlaced (cells_in self.old.packed) }
        ensures inside { OnOk result
            (first_outside_from size (places_of all.now) 1 (places_of self.old.so_far) lines.now ≡ None) }
        ensures cells { OnOk result (cells_in self.new.packed ≡ cells_in self.old.packed
            ++ cells_from (places_of all.now) (places_of self.old.so_far) lines.now) }
        ensures placed { OnOk result (ArePlaced (cells_in self.new.packed)) }
        ensures err { IfErr result (λ fault. IsMemory fault
            ⊎ (first_outside_from size (places_of all.now) 1 (places_of self.old.so_far) lines.now ≡ Some fault)) }
    {
        for i in 0..lines.len() {
            let line = lines.line(i);
            let Some(statement) = &line.statement else {
                continue;
            };
            let row = statement.body.describe();
            if self.so_far.is_row_outside(size, all, &row)? {
                return Err(AsmFault {
                    line: i as u64 + 1,
                    kind: AsmKind::OutOfCore,
                });
            }
            self.put_row(alloc, all, statement, &row, &lines.beyond(i))?;
        }
        Ok(())
    }
}

/// The cells of lines, once all is placed.
///
/// # Errors
///
/// `OutOfCore` for the first line with something outside core; `Memory` if there is no room.
pub(crate) fn pack_lines(
    alloc: Global,
    all: &Placing<'_>,
    size: u16,
    lines: &Lines<'_>,
) -> Result<PackedCells, AsmFault>
    requires few { length lines.now < 2 ^ 32 }
    ensures inside { OnOk result
        (first_outside_from size (places_of all.now) 1 (unplaced (places_of all.now)) lines.now ≡ None) }
    ensures cells { IfOk result (λ packed.
        cells_in packed ≡ cells_from (places_of all.now) (unplaced (places_of all.now)) lines.now) }
    ensures placed { IfOk result (λ packed. ArePlaced (cells_in packed)) }
    ensures err { IfErr result (λ fault. IsMemory fault
        ⊎ (first_outside_from size (places_of all.now) 1 (unplaced (places_of all.now)) lines.now ≡ Some fault)) }
{
    let mut made = PackedSoFar {
        so_far: all.again(alloc),
        packed: PackedCells::new(alloc),
    };
    made.put_lines(alloc, all, size, lines)?;
    Ok(made.packed)
}
