//! A field as `print` shows it, and how it changed.
ghost use Rattle.std.specs.Prelude.{◌≡◌, ◌+◌, ◌<◌, ◌≤◌, length, take};
ghost use Rattle.bytes_text.specs.Written.{Adds};
ghost use Rattle.machine_notation.specs.Characters.{graphics_of};
ghost use Rattle.operate_views.specs.FieldText.{change_text, characters_down, characters_text, field_text, name_text};
ghost use Rattle.operate_views.specs.FieldText.{places_text};

use crate::numbers::{is_number, put_number};
use bcd_1401::Cell;
use bytes_text::{Piece, Text};

/// The most places of a field whose characters are all shown.
const MOST_SHOWN: usize = 60;

/// How many characters are shown of a longer one.
const FIRST_SHOWN: usize = 57;

/// How many digits an address has.
const ADDRESS_DIGITS: u8 = 5;

/// Adds a name and two blanks, or nothing for none.
fn put_name(text: &mut Text, name: &[u8])
    ensures { Adds text.old text.new (name_text name.now) }
{
    if !name.is_empty() {
        text.put(name);
        text.put(b"  ");
    }
}

/// Adds the places of a field with its units at an address: the lowest and the highest.
#[tactic(auto, unfolding(crate::specs::FieldText::places_text))]
fn put_places(text: &mut Text, at: u16, len: usize)
    requires some { 0 < len }
    requires len { len ≤ at + 1 }
    ensures { Adds text.old text.new (places_text at len) }
{
    if len != 1 {
        text.put_number(ADDRESS_DIGITS, u64::from(at) + 1 - len as u64);
        text.put_byte(b'-');
    }
    text.put_number(ADDRESS_DIGITS, u64::from(at));
}

/// Adds the first characters of a field, given units first, from its high place on.
#[tactic(auto, using(crate::proofs::FieldTextLemmas::graphic_more))]
fn put_graphics(text: &mut Text, cells: &[Cell], count: usize)
    requires { count ≤ length cells.now }
    ensures { Adds text.old text.new (graphics_of (take count (characters_down cells.now))) }
{
    for i in 0..count {
        text.put_byte(cells[cells.len() - 1 - i].char.graphic());
    }
}

/// Adds the characters of a field, given units first; of a long one the first, and how many places it has.
#[tactic(auto, unfolding(crate::specs::FieldText::characters_text))]
fn put_characters(text: &mut Text, cells: &[Cell])
    ensures { Adds text.old text.new (characters_text cells.now) }
{
    if cells.len() <= MOST_SHOWN {
        return put_graphics(text, cells, cells.len());
    }
    put_graphics(text, cells, FIRST_SHOWN);
    text.put_pieces(&[
        Piece::Text(b"..  ("),
        Piece::Count(cells.len() as u64),
        Piece::Text(b" places)"),
    ]);
}

/// Adds the line of the field with its units at a place, without a line feed. `name` is what it is called, or empty;
/// `cells` are its cells, units first.
#[tactic(auto, unfolding(crate::specs::FieldText::field_text, crate::specs::FieldText::equals_text))]
pub fn put_field(text: &mut Text, name: &[u8], at: u16, cells: &[Cell])
    requires some { 0 < length cells.now }
    requires len { length cells.now ≤ at + 1 }
    ensures { Adds text.old text.new (field_text name.now at cells.now) }
{
    put_name(text, name);
    put_places(text, at, cells.len());
    text.put(b"  ");
    put_characters(text, cells);
    if is_number(cells) {
        text.put(b"  = ");
        put_number(text, cells);
    }
}

/// Adds a field that changed, by its name or its places, with its characters before and after, both given units first.
#[tactic(auto, unfolding(crate::specs::FieldText::change_text))]
pub fn put_change(text: &mut Text, name: &[u8], before: &[Cell], after: &[Cell])
    ensures { Adds text.old text.new (change_text name.now before.now after.now) }
{
    text.put(name);
    text.put_byte(b' ');
    put_graphics(text, before, before.len());
    text.put(b" -> ");
    put_graphics(text, after, after.len());
}
