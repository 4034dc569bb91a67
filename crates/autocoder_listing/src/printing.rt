//! The text of a line of the listing.
ghost use Rattle.std.specs.Prelude.{◌≡◌, ◌<◌, ◌≤◌, ◌-◌, ◌++◌, length, slice_index_or, vec_capacity, codes};
ghost use Rattle.std.specs.List.{suffix_len};
ghost use Rattle.autocoder_statements.specs.SourceLine.{is_blank};
ghost use Rattle.bytes_text.specs.Written.{Adds};
ghost use Rattle.autocoder_listing.specs.Listing.{blank, number_text, address_text, graphic_of, characters_text};
ghost use Rattle.autocoder_listing.specs.Listing.{without_last_blanks, spelling, base_spelling, sign_spelling};
ghost use Rattle.autocoder_listing.specs.Listing.{adjustment_spelling, index_spelling, literal_spelling};

use autocoder_statements::{Base, Constant, Label, Literal};
use bcd_1401::Cell;
use bytes_text::Text;

/// How many digits the number of a line has at the least.
pub(crate) const NUMBER_DIGITS: u8 = 4;

/// How many digits an address has.
pub(crate) const ADDRESS_DIGITS: u8 = 5;

/// The most cells that a line shows.
pub(crate) const SHOWN_CELLS: usize = 8;

/// Adds the number of a line of the source, or blanks for a line that isn't there.
#[tactic(auto, unfolding(crate::specs::Listing::number_text))]
pub(crate) fn put_number(text: &mut Text, number: Option<u64>)
    ensures { Adds text.old text.new (number_text number) }
{
    match number {
        Some(number) => text.put_number(NUMBER_DIGITS, number),
        None => text.put(b"    "),
    }
}

/// Adds an address, or blanks for a line that has none.
#[tactic(auto, unfolding(crate::specs::Listing::address_text))]
pub(crate) fn put_address(text: &mut Text, address: Option<i64>)
    ensures { Adds text.old text.new (address_text address) }
{
    match address {
        Some(address) => text.put_number(ADDRESS_DIGITS, address.unsigned_abs()),
        None => text.put(b"     "),
    }
}

/// The graphic of the cell at a place; a blank if there are fewer.
fn graphic_at(cells: &[Cell], place: usize) -> u8
    ensures { result ≡ graphic_of (slice_index_or cells.now place blank) }
{
    if place < cells.len() {
        cells[place].char.graphic()
    } else {
        Cell::BLANK.char.graphic()
    }
}

/// The first eight cells by their graphics, with blanks after them if there are fewer.
#[tactic(auto, using(crate::proofs::RowsLemmas::first_eight))]
pub(crate) fn characters_of(cells: &[Cell]) -> [u8; 8]
    ensures { result ≡ characters_text cells.now }
{
    [
        graphic_at(cells, 0),
        graphic_at(cells, 1),
        graphic_at(cells, 2),
        graphic_at(cells, 3),
        graphic_at(cells, 4),
        graphic_at(cells, 5),
        graphic_at(cells, 6),
        graphic_at(cells, 7),
    ]
}

/// Cuts off the blanks at the end of a text.
#[tactic(auto, unfolding(crate::specs::Listing::without_last_blanks))]
pub(crate) fn cut_last_blanks(text: &mut Vec<u8>)
    ensures cut { text.new.items ≡ without_last_blanks text.old.items }
    ensures capacity { vec_capacity text.old ≤ vec_capacity text.new }
{
    let count = len_without_last_blanks(text.as_slice());
    text.truncate(count);
}

/// How many bytes a text has without the blanks at its end.
pub(crate) fn len_without_last_blanks(text: &[u8]) -> usize
    ensures value { result ≡ length text.now - suffix_len is_blank text.now }
    ensures bound { result ≤ length text.now }
{
    let mut count = text.len();
    while count > 0 && text[count - 1] == b' ' {
        count -= 1;
    }
    count
}

/// Adds a constant as a source writes it.
#[tactic(auto, unfolding(crate::specs::Listing::spelling))]
fn put_spelling(text: &mut Text, constant: Constant)
    ensures { Adds text.old text.new (spelling constant) }
{
    match constant {
        Constant::Text(letters) => {
            text.put(b"@");
            text.put(letters.as_slice());
            text.put(b"@");
        }
        Constant::Number(digits) => text.put(digits.as_slice()),
        Constant::Plus(digits) => {
            text.put(b"+");
            text.put(digits.as_slice());
        }
        Constant::Minus(digits) => {
            text.put(b"-");
            text.put(digits.as_slice());
        }
        Constant::Blanks(count) => {
            text.put(b"#");
            text.put_number(1, u64::from(count));
        }
    }
}

/// Adds a label without the blanks at its end.
#[tactic(auto, unfolding(crate::specs::Listing::without_last_blanks))]
fn put_label(text: &mut Text, label: Label)
    ensures { Adds text.old text.new (without_last_blanks label.text) }
{
    let count = len_without_last_blanks(&label.text);
    text.put(&label.text[..count]);
}

/// Adds what an address is counted from, as a source writes it.
#[tactic(auto, unfolding(crate::specs::Listing::base_spelling))]
fn put_base(text: &mut Text, base: Base)
    ensures { Adds text.old text.new (base_spelling base) }
{
    match base {
        Base::Number(number) => text.put_number(1, u64::from(number)),
        Base::Symbol(label) => put_label(text, label),
        Base::Here => text.put(b"*"),
        Base::Register(number) => {
            text.put(b"X");
            text.put_number(1, u64::from(number));
        }
        Base::NextHundred => text.put(b"*+X00"),
    }
}

/// Adds a sign.
fn put_sign(text: &mut Text, is_negative: bool)
    ensures { Adds text.old text.new (sign_spelling is_negative) }
{
    text.put(if is_negative { b"-" } else { b"+" });
}

/// Adds an adjustment, but for 0.
#[tactic(auto, unfolding(crate::specs::Listing::adjustment_spelling))]
fn put_adjustment(text: &mut Text, adjustment: i32)
    ensures { Adds text.old text.new (adjustment_spelling adjustment) }
{
    if adjustment != 0 {
        put_sign(text, adjustment < 0);
        text.put_number(1, u64::from(adjustment.unsigned_abs()));
    }
}

/// Adds an index register, or that there is none, if it is named.
#[tactic(auto, unfolding(crate::specs::Listing::index_spelling))]
fn put_index(text: &mut Text, index: Option<u8>)
    ensures { Adds text.old text.new (index_spelling index) }
{
    if let Some(index) = index {
        text.put(b"+X");
        text.put_number(1, u64::from(index));
    }
}

/// Adds a literal as a source writes it.
#[tactic(auto, unfolding(crate::specs::Listing::literal_spelling))]
pub(crate) fn put_literal_spelling(text: &mut Text, literal: Literal)
    ensures { Adds text.old text.new (literal_spelling literal) }
{
    match literal {
        Literal::Constant(constant) => put_spelling(text, constant),
        Literal::Address(literal) => {
            put_sign(text, literal.is_negative);
            put_base(text, literal.address.base);
            put_adjustment(text, literal.address.adjustment);
            put_index(text, literal.address.index);
        }
        Literal::Area(literal) => {
            put_label(text, literal.label);
            text.put(b"#");
            text.put_number(1, u64::from(literal.places));
        }
    }
}
