//! The line that placed cells, found again in the lines of a source: no row is held.
ghost use Rattle.std.specs.Prelude.{◌≡◌, ◌<◌, ◌^◌, length, None, IfOk, IfErr, IfSome};
ghost use Rattle.autocoder_symbols.specs.Fault.{IsMemory};
ghost use Rattle.autocoder_placing.specs.Placement.{placed};
ghost use Rattle.autocoder_placing.specs.View.{places_of};
ghost use Rattle.autocoder_listing.specs.Listing.{characters_text};
ghost use Rattle.autocoder_listing.specs.Rows.{last_at, line_of, listed, rows_from, rows_of, IsLastAt};

use crate::printing::{SHOWN_CELLS, characters_of};
use crate::rows::{Row, is_at, row_of};
use autocoder_placing::Placing;
use autocoder_symbols::{AsmFault, Lines};
use bcd_1401::Cell;
use std::alloc::Global;

/// The number of a row, if it shows these characters at a place; else the number found so far.
fn last_of_two(found: Option<u64>, row: Option<Row>, at: u16, characters: &[u8; 8]) -> Option<u64>
    ensures { result ≡ last_at at characters.now found (listed row) }
{
    match row {
        Some(row) => {
            if is_at(&row, at, characters) {
                Some(row.number)
            } else {
                found
            }
        },
        None => found,
    }
}

/// Of these lines, the number of the last that shows these characters at a place. The characters are then placed.
#[tactic(auto, using(crate::proofs::RowsLemmas::last_of_more))]
fn last_of_lines<'a>(
    alloc: Global,
    all: &Placing<'a>,
    so_far: &mut Placing<'a>,
    lines: &Lines<'_>,
    at: u16,
    characters: &[u8; 8],
) -> Result<Option<u64>, AsmFault>
    requires { length lines.now < 2 ^ 32 }
    ensures ok { IfOk result (λ number. number ≡ last_at at characters.now None
        (rows_from (places_of all.now) (places_of so_far.old) 1 lines.now)) }
    ensures err { IfErr result IsMemory }
{
    let mut found = None;
    for i in 0..lines.len() {
        let line = &lines.line(i);
        let row = row_of(alloc, all, so_far, i as u64 + 1, line, &lines.beyond(i))?;
        found = last_of_two(found, row, at, characters);
        so_far.place(line)?;
    }
    Ok(found)
}

/// The number of the last line that placed these cells at a place, if there is one, as `Rows::line_of` finds it in the
/// rows. A line shows eight characters, so there is none for more cells.
///
/// # Errors
///
/// `Memory` if there is no room.
pub fn last_placing(
    alloc: Global,
    all: &Placing<'_>,
    lines: &Lines<'_>,
    at: u16,
    cells: &[Cell],
) -> Result<Option<u64>, AsmFault>
    requires few { length lines.now < 2 ^ 32 }
    requires placed { places_of all.now ≡ placed lines.now }
    ensures ok { IfOk result (λ number. number ≡ line_of (rows_of lines.now) at cells.now) }

    // It is the last line that shows these characters at the place.
    ensures last { IfOk result (λ number. IfSome number (IsLastAt lines.now at (characters_text cells.now))) }
    ensures err { IfErr result IsMemory }
{
    let number = shown_line(alloc, all, lines, at, cells)?;
    Ok(number)
}

/// The same, by its rows alone.
fn shown_line(
    alloc: Global,
    all: &Placing<'_>,
    lines: &Lines<'_>,
    at: u16,
    cells: &[Cell],
) -> Result<Option<u64>, AsmFault>
    requires few { length lines.now < 2 ^ 32 }
    requires placed { places_of all.now ≡ placed lines.now }
    ensures ok { IfOk result (λ number. number ≡ line_of (rows_of lines.now) at cells.now) }
    ensures err { IfErr result IsMemory }
{
    if cells.len() > SHOWN_CELLS {
        return Ok(None);
    }
    let mut so_far = all.again(alloc);
    last_of_lines(alloc, all, &mut so_far, lines, at, &characters_of(cells))
}
