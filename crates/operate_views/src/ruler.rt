//! Core storage under a ruler.
ghost use Rattle.std.specs.Prelude.{◌≡◌, ◌+◌, ◌-◌, ◌*◌, ◌<◌, ◌≤◌, length, map, IfOk};
ghost use Rattle.std.specs.List.{list_all, suffix_len};
ghost use Rattle.bytes_text.specs.Written.{Adds};
ghost use Rattle.operate_views.specs.Ruler.{chars_columns, chars_of, core_text, is_blank, is_unmarked, mark_column};
ghost use Rattle.operate_views.specs.Ruler.{marks_row, numbered_row, row_cells, shown_at};

use bcd_1401::{Cell, Char};
use bytes_text::Text;
use core_1401::Core;
use std::alloc::{AllocError, Global};

/// How many places a row has.
const ROW_PLACES: u16 = 50;

/// How many digits an address has.
const ADDRESS_DIGITS: u8 = 5;

/// The columns by tens and by fives.
const RULER: &[u8] = b"       0         10        20        30        40
       |....:....|....:....|....:....|....:....|....:....
";

/// What is shown in the column of a place: its cell if it is shown.
fn shown_at(core: &Core, first: u16, end: u16, at: u16) -> Cell
    requires { end ≤ length core.now }
    ensures { result ≡ shown_at core.now first end at }
{
    if first <= at && at < end {
        core.get(at)
    } else {
        Cell::BLANK
    }
}

/// What is shown in the columns of a row, by the place of its first column.
#[tactic(auto, using(crate::proofs::RulerLemmas::cell_more))]
fn row_cells(
    alloc: Global,
    core: &Core,
    first: u16,
    end: u16,
    row: u16,
) -> Result<Vec<Cell>, AllocError>
    requires end { end ≤ length core.now }
    requires row { row < 65000 }
    ensures { IfOk result (λ cells. cells.items ≡ row_cells core.now first end row) }
{
    let mut cells = Vec::new(alloc);
    for at in row..row + ROW_PLACES {
        cells.push(shown_at(core, first, end, at))?;
    }
    Ok(cells)
}

/// The characters of cells.
pub(crate) fn chars_of(alloc: Global, cells: &[Cell]) -> Result<Vec<Char>, AllocError>
    ensures { IfOk result (λ chars. chars.items ≡ chars_of cells.now) }
{
    let mut chars = Vec::new(alloc);
    for cell in cells {
        chars.push(cell.char)?;
    }
    Ok(chars)
}

/// Whether all cells are blank.
fn are_blank(cells: &[Cell]) -> bool
    ensures { result ≡ list_all is_blank cells.now }
{
    cells.iter().all(|cell| cell.char == Char::BLANK)
}

/// How many cells follow the last with a word mark.
fn unmarked_at_end(cells: &[Cell]) -> usize
    ensures value { result ≡ suffix_len is_unmarked cells.now }
    ensures bound { result ≤ length cells.now }
{
    cells.iter().rev().take_while(|cell| !cell.mark).count()
}

/// Adds the characters of a row, after two columns.
fn put_chars(alloc: Global, text: &mut Text, cells: &[Cell])
    ensures { Adds text.old text.new (chars_columns cells.now) }
{
    if are_blank(cells) {
        return;
    }
    text.put(b"  ");
    match chars_of(alloc, cells) {
        Ok(chars) => text.put_characters(chars.as_slice()),
        Err(_) => text.fail(),
    }
}

/// Adds a tilde for each cell with a word mark, and a blank for each other.
fn put_marks(text: &mut Text, cells: &[Cell])
    ensures { Adds text.old text.new (map mark_column cells.now) }
{
    for cell in cells {
        text.put_byte(if cell.mark { b'~' } else { b' ' });
    }
}

/// Adds the row of word marks, if there is one.
#[tactic(auto, unfolding(crate::specs::Ruler::marks_row))]
fn put_marks_row(text: &mut Text, cells: &[Cell])
    ensures { Adds text.old text.new (marks_row cells.now) }
{
    let count = cells.len() - unmarked_at_end(cells);
    if count == 0 {
        return;
    }
    text.put(b"       ");
    put_marks(text, &cells[..count]);
    text.put_byte(b'\n');
}

/// Adds the row of this number.
#[tactic(auto, unfolding(crate::specs::Ruler::row_text))]
fn put_row(alloc: Global, text: &mut Text, core: &Core, first: u16, end: u16, number: u16)
    requires end { end ≤ length core.now }
    requires number { number < 1000 }
    ensures { Adds text.old text.new (numbered_row core.now first end number) }
{
    let row = ROW_PLACES * number;
    let Ok(cells) = row_cells(alloc, core, first, end, row) else {
        return text.fail();
    };
    text.put_number(ADDRESS_DIGITS, u64::from(row));
    put_chars(alloc, text, cells.as_slice());
    text.put_byte(b'\n');
    put_marks_row(text, cells.as_slice());
}

/// Adds the places from the first to before the end, fifty a row under a ruler; a tilde is below each place with a word
/// mark. Each line ends with a line feed.
pub fn put_core(alloc: Global, text: &mut Text, core: &Core, first: u16, end: u16)
    requires end { end ≤ length core.now }
    ensures { Adds text.old text.new (core_text core.now first end) }
{
    // No core storage has more than 16,000 places.
    let _ = core.size();
    text.put(RULER);
    for number in first / ROW_PLACES..end.div_ceil(ROW_PLACES) {
        put_row(alloc, text, core, first, end, number);
    }
}
