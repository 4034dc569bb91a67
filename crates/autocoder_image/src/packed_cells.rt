//! Cells in the order of placing, in few bytes: equal ones are counted, and repeated ones are held once.
ghost use Rattle.std.specs.Prelude.{◌≡◌, ◌+◌, ◌++◌, ◌<◌, ◌≤◌, true, [], length, take, replicate, OnOk, IfErr, IfSome};
ghost use Rattle.std.specs.Prelude.{MatchOption};
ghost use Rattle.std.specs.List.{list_all};
ghost use Rattle.machine_image.specs.ImageText.{is_character};
ghost use Rattle.autocoder_symbols.specs.Fault.{IsMemory};
ghost use Rattle.autocoder_placing.specs.Cells.{numbered, repeated};
ghost use Rattle.autocoder_image.specs.Packed.{cells_in, part_cells, AddsParts, ArePlaced, IsWhole};

use autocoder_symbols::AsmFault;
use bcd_1401::Cell;
use core_1401::ADDRESSES;
use std::alloc::Global;

/// Equal cells, one after the other.
#[derive(Clone, Copy)]
pub(crate) struct Part {
    /// The cell.
    pub cell: Cell,
    /// How many there are.
    pub count: u16,
}

/// Cells from an address on.
#[derive(Clone, Copy)]
pub(crate) struct Block {
    /// The place of the first.
    pub address: u16,
    /// How many times its parts are repeated.
    pub times: u16,
    /// How many parts it has.
    pub parts: u32,
}

/// Cells in the order of placing.
#[derive(Drop)]
pub(crate) struct PackedCells {
    /// The blocks.
    pub blocks: Vec<Block>,
    /// The parts of all blocks, in their order.
    pub parts: Vec<Part>,
}

/// A cell's character has a graphic.
fn character_law(cell: Cell)
    ensures { is_character cell ≡ true }
{
    let _graphic = cell.char.graphic();
}

/// How many cells, from the first on, are equal to this one; fewer than a part can count.
fn equal_cells(cell: Cell, cells: &[Cell]) -> u16
    ensures equal { take result cells.now ≡ replicate result cell }
    ensures few { result ≤ length cells.now }
    ensures less { result < 65535 }
{
    let mut count = 0;
    for next in cells {
        if count + 1 == u16::MAX || *next != cell {
            return count;
        }
        count += 1;
    }
    count
}

/// The part that cells begin with, and the cells after it; `None` if there is no cell.
fn first_part(cells: &[Cell]) -> Option<(Part, &[Cell])>
    ensures cells { MatchOption result (cells.now ≡ []) (λ found. cells.now ≡ part_cells found.0 ++ found.1.now) }
    ensures less { IfSome result (λ found. length found.1.now < length cells.now) }
    ensures character { IfSome result (λ found. is_character found.0.cell ≡ true) }
{
    let Some((cell, beyond)) = cells.split_first() else {
        return None;
    };
    character_law(*cell);
    let count = equal_cells(*cell, beyond);
    let part = Part {
        cell: *cell,
        count: count + 1,
    };
    Some((part, &beyond[usize::from(count)..]))
}

/// Adds the parts of cells.
fn put_parts(parts: &mut Vec<Part>, cells: &[Cell]) -> Result<(), AsmFault>
    ensures parts { OnOk result (AddsParts parts.old.items parts.new.items cells.now) }
    ensures characters { OnOk result (list_all is_character cells.now ≡ true) }
    ensures err { IfErr result IsMemory }
{
    let mut rest = cells;
    while let Some((part, beyond)) = first_part(rest) {
        parts.push(part)?;
        rest = beyond;
    }
    Ok(())
}

/// What follows these cells, if others begin with them.
fn beyond_prefix<'a>(first: &[Cell], cells: &'a [Cell]) -> Option<&'a [Cell]>
    ensures { IfSome result (λ beyond. cells.now ≡ first.now ++ beyond.now) }
{
    let mut left = cells;
    for cell in first {
        let Some((next, beyond)) = left.split_first() else {
            return None;
        };
        if *next != *cell {
            return None;
        }
        left = beyond;
    }
    Some(left)
}

/// How often cells begin with these, and the cells after that.
fn repetitions<'a>(first: &[Cell], cells: &'a [Cell]) -> (u16, &'a [Cell])
    ensures { cells.now ≡ repeated result.0 first.now ++ result.1.now }
{
    let mut times = 0;
    let mut rest = cells;
    while times < u16::MAX {
        let Some(beyond) = beyond_prefix(first, rest) else {
            return (times, rest);
        };
        times += 1;
        rest = beyond;
    }
    (times, rest)
}

impl PackedCells {
    /// No cell.
    pub(crate) fn new(alloc: Global) -> PackedCells
        ensures cells { cells_in result ≡ [] }
        ensures whole { IsWhole result }
    {
        PackedCells {
            blocks: Vec::new(alloc),
            parts: Vec::new(alloc),
        }
    }

    /// Adds cells from an address on, which are repeated.
    fn put_block(&mut self, address: u16, times: u16, cells: &[Cell]) -> Result<(), AsmFault>
        requires { IsWhole self.old }
        ensures cells { OnOk result
            (cells_in self.new ≡ cells_in self.old ++ numbered address (repeated times cells.now)) }
        ensures characters { OnOk result (list_all is_character cells.now ≡ true) }
        ensures whole { OnOk result (IsWhole self.new) }
        ensures err { IfErr result IsMemory }
    {
        let before = self.parts.len();
        put_parts(&mut self.parts, cells)?;
        let Ok(parts) = u32::try_from(self.parts.len() - before) else {
            return Err(AsmFault::MEMORY);
        };
        self.blocks.push(Block {
            address,
            times,
            parts,
        })?;
        Ok(())
    }

    /// Adds cells from an address on, if there are any.
    fn put_rest(&mut self, address: u16, cells: &[Cell]) -> Result<(), AsmFault>
        requires { IsWhole self.old }
        ensures cells { OnOk result (cells_in self.new ≡ cells_in self.old ++ numbered address cells.now) }
        ensures characters { OnOk result (list_all is_character cells.now ≡ true) }
        ensures whole { OnOk result (IsWhole self.new) }
        ensures err { IfErr result IsMemory }
    {
        if cells.is_empty() {
            return Ok(());
        }
        self.put_block(address, 1, cells)
    }

    /// Adds cells from an address on. The first of them, as many as the period says, are looked for in those after them.
    ///
    /// # Errors
    ///
    /// `Memory` if there is no room, or one of the places has no address.
    pub(crate) fn put_cells(
        &mut self,
        address: u16,
        period: usize,
        cells: &[Cell],
    ) -> Result<(), AsmFault>
        requires { IsWhole self.old }
        ensures cells { OnOk result (cells_in self.new ≡ cells_in self.old ++ numbered address cells.now) }
        ensures placed { OnOk result (ArePlaced (numbered address cells.now)) }
        ensures whole { OnOk result (IsWhole self.new) }
        ensures err { IfErr result IsMemory }
    {
        if address > ADDRESSES || cells.len() > usize::from(ADDRESSES - address) {
            return Err(AsmFault::MEMORY);
        }
        let first = &cells[..period.min(cells.len())];
        let (times, rest) = repetitions(first, cells);
        self.put_block(address, times, first)?;
        let beyond = address + (cells.len() - rest.len()) as u16;
        self.put_rest(beyond, rest)
    }
}
