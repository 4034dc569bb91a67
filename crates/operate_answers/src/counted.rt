//! Counts, places and cells, as many answers have them.
ghost use Rattle.std.specs.Prelude.{◌≡◌, ◌==◌, ◌≤◌, [], codes, if◌then◌else◌, length};
ghost use Rattle.bytes_text.specs.Written.{Adds};
ghost use Rattle.machine_notation.specs.Cells.{cells_text};
ghost use Rattle.operate_answers.specs.Counted.{after_text, count_text, some_cells_text, span_text};

use bcd_1401::Cell;
use bytes_text::Text;
use operate_program::Program;

/// How many digits an address has in a column.
pub(crate) const ADDRESS_DIGITS: u8 = 5;

/// The most cells that are shown of one watch.
const MOST_SHOWN: usize = 60;

/// How many of the cells of a longer one.
const FIRST_SHOWN: usize = 57;

/// Adds how many there are of something, whose name is in the singular.
#[tactic(auto, unfolding(crate::specs::Counted::count_text))]
pub(crate) fn put_count(text: &mut Text, count: u64, name: &[u8])
    ensures { Adds text.old text.new (count_text count name.now) }
{
    text.put_number(1, count);
    text.put_byte(b' ');
    text.put(name);
    if count != 1 {
        text.put_byte(b's');
    }
}

/// Adds after how many steps.
#[tactic(auto, unfolding(crate::specs::Counted::after_text))]
pub(crate) fn put_after(text: &mut Text, steps: u64)
    ensures { Adds text.old text.new (after_text steps) }
{
    text.put(b" after ");
    put_count(text, steps, b"step");
}

/// Adds the lowest and the highest of some places, or the only one.
#[tactic(auto, unfolding(crate::specs::Counted::span_text))]
pub(crate) fn put_span(text: &mut Text, low: u16, high: u16)
    ensures { Adds text.old text.new (span_text low high) }
{
    text.put_number(ADDRESS_DIGITS, u64::from(low));
    if low != high {
        text.put_byte(b'-');
        text.put_number(ADDRESS_DIGITS, u64::from(high));
    }
}

/// Adds cells, a tilde before each with a word mark.
#[tactic(auto, unfolding(machine_notation::specs::Cells::cells_text))]
fn put_each_cell(text: &mut Text, cells: &[Cell])
    ensures { Adds text.old text.new (cells_text cells.now) }
{
    for cell in cells {
        text.put_cell(*cell);
    }
}

/// Adds cells, a tilde before each with a word mark; of many the first, and how many places they are.
#[tactic(auto, unfolding(crate::specs::Counted::some_cells_text))]
pub(crate) fn put_some_cells(text: &mut Text, cells: &[Cell])
    ensures { Adds text.old text.new (some_cells_text cells.now) }
{
    if cells.len() <= MOST_SHOWN {
        put_each_cell(text, cells);
        return;
    }
    let (first, _) = cells.split_at(FIRST_SHOWN);
    put_each_cell(text, first);
    text.put(b"..  (");
    put_count(text, cells.len() as u64, b"place");
    text.put_byte(b')');
}

/// The label of an address, filled up with blanks; blank if it has none.
pub(crate) fn label_at(program: &Program, at: u16) -> [u8; 6] {
    match program.symbol_at(at) {
        Some(symbol) => symbol.label.text,
        None => [b' '; 6],
    }
}
