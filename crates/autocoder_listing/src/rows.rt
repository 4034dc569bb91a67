//! The rows of a listing that have an address: the number of the line, the address, and what is placed there.
ghost use Rattle.std.specs.Prelude.{◌≡◌, ◌++◌, ◌<◌, ◌^◌, List, length, None, Some, IfOk, IfErr, IfSome, OnOk};
ghost use Rattle.autocoder_statements.specs.declared.statement.Line.{Line as ALine};
ghost use Rattle.autocoder_symbols.specs.Fault.{IsMemory};
ghost use Rattle.autocoder_placing.specs.Placement.{placed};
ghost use Rattle.autocoder_placing.specs.View.{places_of};
ghost use Rattle.autocoder_listing.specs.Listing.{characters_text};
ghost use Rattle.autocoder_listing.specs.Rows.{row_of, listed, rows_from, rows_of, is_at, last_at, line_of};
ghost use Rattle.autocoder_listing.specs.Rows.{IsLastAt};

use crate::listing::{Shown, shown_by};
use crate::printing::{SHOWN_CELLS, characters_of};
use autocoder_placing::Placing;
use autocoder_statements::Line;
use autocoder_symbols::{AsmFault, Lines};
use bcd_1401::Cell;
use std::alloc::Global;
use std::marker::Model;

/// What the line of a statement shows.
#[derive(Clone, Copy, Debug)]
pub struct Row {
    /// The number of the line, counted from 1.
    pub number: u64,
    /// The address.
    pub address: i64,
    /// The graphics of the first eight cells that the statement places, with blanks after them if there are fewer.
    pub characters: [u8; 8],
}

/// The rows of a listing that have an address, in the order of the lines of the source. Contracts see the list of them.
#[derive(Drop)]
pub struct Rows {
    rows: Vec<Row>,
}

impl Model for Rows {
    ghost use Rattle.std.specs.Prelude.{List};
    ghost use Rattle.autocoder_listing.specs.declared.rows.Row.{Row};

    ghost Value = { List Row };

    ghost view = { λ rows. rows.rows.items };
}

/// The row of a line here of this number, with these lines after it, if it shows an address.
pub(crate) fn row_of<'a>(
    alloc: Global,
    all: &Placing<'a>,
    so_far: &Placing<'a>,
    number: u64,
    line: &Line,
    beyond: &Lines<'_>,
) -> Result<Option<Row>, AsmFault>
    ensures ok { IfOk result (λ row. row
        ≡ row_of (places_of all.now) (places_of so_far.now) number line.now.statement beyond.now) }
    ensures err { IfErr result IsMemory }
{
    let Some(statement) = &line.statement else {
        return Ok(None);
    };
    let Shown {
        address,
        characters,
    } = shown_by(alloc, all, so_far, statement, beyond)?;
    match address {
        Some(address) => Ok(Some(Row {
            number,
            address,
            characters,
        })),
        None => Ok(None),
    }
}

/// Adds a row, if there is one.
fn put_row(rows: &mut Vec<Row>, row: Option<Row>) -> Result<(), AsmFault>
    ensures ok { OnOk result (rows.new.items ≡ rows.old.items ++ listed row) }
    ensures err { IfErr result IsMemory }
{
    if let Some(row) = row {
        rows.push(row)?;
    }
    Ok(())
}

/// Adds the rows of lines here, and places them.
fn put_rows<'a>(
    alloc: Global,
    all: &Placing<'a>,
    so_far: &mut Placing<'a>,
    lines: &Lines<'_>,
    rows: &mut Vec<Row>,
) -> Result<(), AsmFault>
    requires { length lines.now < 2 ^ 32 }
    ensures ok { OnOk result (rows.new.items
        ≡ rows.old.items ++ rows_from (places_of all.now) (places_of so_far.old) 1 lines.now) }
    ensures err { IfErr result IsMemory }
{
    for i in 0..lines.len() {
        let line = &lines.line(i);
        let row = row_of(alloc, all, so_far, i as u64 + 1, line, &lines.beyond(i))?;
        put_row(rows, row)?;
        so_far.place(line)?;
    }
    Ok(())
}

/// The rows of lines that have an address, once all is placed.
///
/// # Errors
///
/// `Memory` if there is no room.
pub fn make_rows(alloc: Global, all: &Placing<'_>, lines: &Lines<'_>) -> Result<Rows, AsmFault>
    requires few { length lines.now < 2 ^ 32 }
    requires placed { places_of all.now ≡ placed lines.now }
    ensures rows { IfOk result (λ rows. rows ≡ rows_of lines.now) }
    ensures err { IfErr result IsMemory }
{
    let mut rows = Vec::new(alloc);
    let mut so_far = all.again(alloc);
    put_rows(alloc, all, &mut so_far, lines, &mut rows)?;
    Ok(Rows { rows })
}

/// Whether a row shows these characters at a place.
pub(crate) fn is_at(row: &Row, at: u16, characters: &[u8; 8]) -> bool
    ensures { result ≡ is_at at characters.now row.now }
{
    row.address == i64::from(at) && row.characters == *characters
}

/// The number of the last row that shows these characters at a place.
fn last_at(rows: &[Row], at: u16, characters: &[u8; 8]) -> Option<u64>
    ensures { result ≡ last_at at characters.now None rows.now }
{
    let mut found = None;
    for row in rows {
        if is_at(row, at, characters) {
            found = Some(row.number);
        }
    }
    found
}

impl Rows {
    /// The rows of this list. It takes no memory.
    pub fn from_vec(rows: Vec<Row>) -> Rows
        ensures { result ≡ rows.items }
    {
        Rows { rows }
    }

    /// The rows.
    pub fn as_slice(&self) -> &[Row]
        ensures { result.now ≡ self.now }
    {
        self.rows.as_slice()
    }

    /// The number of the last line that placed cells with these characters at a place, if there is one. It shows eight
    /// characters, so there is none for more cells.
    ///
    /// # Errors
    ///
    /// None: no memory is asked for.
    pub fn line_of(&self, _alloc: Global, at: u16, cells: &[Cell]) -> Result<Option<u64>, AsmFault>
        ensures ok { IfOk result (λ number. number ≡ line_of self.now at cells.now) }

        // It is the last line that shows these characters at the place, of the lines whose rows these are.
        ensures placed { (lines : List ALine) → self.now ≡ rows_of lines
            → IfOk result (λ number. IfSome number (IsLastAt lines at (characters_text cells.now))) }
        ensures err { IfErr result IsMemory }
    {
        Ok(self.number_of(at, cells))
    }

    /// The number of the last row that shows these cells at a place, if there is one.
    fn number_of(&self, at: u16, cells: &[Cell]) -> Option<u64>
        ensures { result ≡ line_of self.now at cells.now }
    {
        if cells.len() > SHOWN_CELLS {
            return None;
        }
        last_at(self.rows.as_slice(), at, &characters_of(cells))
    }
}
