//! The listing of a source: its lines with the addresses and the cells that they stand for.
ghost use Rattle.std.specs.Prelude.{◌≡◌, ◌∷◌, ◌++◌, ◌<◌, [], length, drop, codes, Some, None, IsTrue, IfOk, IfErr, OnOk};
ghost use Rattle.bytes_text.specs.Written.{Adds};
ghost use Rattle.autocoder_symbols.specs.Fault.{IsMemory};
ghost use Rattle.autocoder_placing.specs.Cells.{literal_cells};
ghost use Rattle.autocoder_placing.specs.Literals.{key_of};
ghost use Rattle.autocoder_placing.specs.Placement.{start_of};
ghost use Rattle.autocoder_placing.specs.View.{places_of};
ghost use Rattle.autocoder_listing.specs.Listing.{listing_line, literal_spelling, literal_lines, literals_by};
ghost use Rattle.autocoder_listing.specs.Listing.{placed_for, number_text, address_text, address_shown, cells_at};
ghost use Rattle.autocoder_listing.specs.Listing.{characters_text, literals_in, line_for, without_last_blanks};

use crate::printing::{
    characters_of, cut_last_blanks, put_address, put_literal_spelling, put_number,
};
use autocoder_placing::{LiteralKey, Placing, put_contents, put_literal};
use autocoder_statements::{Addressing, Line, Literal, Next, Statement};
use autocoder_symbols::{AsmFault, Lines, checked_sum};
use bytes_text::Text;
use std::alloc::Global;
use std::marker::Model;

/// A line of a listing. Contracts see the list of its bytes.
#[derive(Drop)]
pub struct ListingLine {
    text: Vec<u8>,
}

impl Model for ListingLine {
    ghost use Rattle.std.specs.Prelude.{ℕ, List};

    ghost Value = { List ℕ };

    ghost view = { λ line. line.text.items };
}

impl ListingLine {
    /// The bytes of the line, without trailing blanks.
    pub fn as_slice(&self) -> &[u8]
        ensures { result.now ≡ self.now }
    {
        self.text.as_slice()
    }
}

/// The lines of a listing, in their order. Contracts see the list of them.
#[derive(Drop)]
pub struct Listing {
    /// The lines.
    pub(crate) lines: Vec<ListingLine>,
}

impl Model for Listing {
    ghost use Rattle.std.specs.Prelude.{ℕ, List};

    ghost Value = { List (List ℕ) };

    ghost view = { λ listing. listing.lines.items };
}

impl Listing {
    /// The lines.
    pub fn as_slice(&self) -> &[ListingLine]
        ensures { result.now ≡ self.now }
    {
        self.lines.as_slice()
    }
}

/// A line of the source as it is written.
#[derive(Clone, Copy)]
pub(crate) struct WrittenLine<'s> {
    /// Its number, counted from 1.
    pub number: u64,
    /// Its bytes.
    pub text: &'s [u8],
}

/// Adds what precedes the line of the source: a number, an address and characters.
fn put_columns(text: &mut Text, number: Option<u64>, address: Option<i64>, characters: &[u8; 8])
    ensures { Adds text.old text.new
        (number_text number ++ codes " " ++ address_text address ++ codes " " ++ characters.now ++ codes " ") }
{
    put_number(text, number);
    text.put(b" ");
    put_address(text, address);
    text.put(b" ");
    text.put(characters);
    text.put(b" ");
}

/// The line of a text, which has no blanks at its end.
fn line_of(text: Text) -> Result<ListingLine, AsmFault>
    ensures ok { IfOk result (λ line. IsTrue text.is_whole × (line ≡ without_last_blanks text.items)) }
    ensures err { IfErr result IsMemory }
{
    let mut text = text.into_bytes()?;
    cut_last_blanks(&mut text);
    Ok(ListingLine { text })
}

/// The line of a literal that is placed at a place.
#[tactic(auto, unfolding(crate::specs::Listing::listing_line))]
pub(crate) fn literal_line(
    alloc: Global,
    all: &Placing<'_>,
    from: i64,
    literal: Literal,
) -> Result<ListingLine, AsmFault>
    ensures ok { IfOk result (λ line. line ≡ listing_line None (Some from)
        (literal_cells (places_of all.now) (key_of literal)) (literal_spelling literal)) }
    ensures err { IfErr result IsMemory }
{
    let mut cells = Vec::new(alloc);
    put_literal(all, LiteralKey::from_literal(literal), &mut cells)?;
    let mut text = Text::new(alloc);
    put_columns(&mut text, None, Some(from), &characters_of(&cells));
    put_literal_spelling(&mut text, literal);
    line_of(text)
}

/// Adds the lines of the literals that are used here from one on, placed one after the other from a place on.
fn put_literal_lines(
    alloc: Global,
    all: &Placing<'_>,
    from: i64,
    so_far: &Placing<'_>,
    first: usize,
    lines: &mut Vec<ListingLine>,
) -> Result<(), AsmFault>
    ensures ok { OnOk result (lines.new.items ≡ lines.old.items
        ++ literal_lines (places_of all.now) from (drop first (places_of so_far.now).spellings)) }
    ensures err { IfErr result IsMemory }
{
    let mut next = from;
    for i in first..so_far.literals_used() {
        let literal = so_far.literal(i);
        lines.push(literal_line(alloc, all, next, literal)?)?;
        next = checked_sum(next, i64::from(LiteralKey::from_literal(literal).len()))?;
    }
    Ok(())
}

/// The first of the literals that a statement with this effect on the location counter places: they are all that are
/// used here from this one on.
pub(crate) fn first_literal(so_far: &Placing<'_>, next: Next) -> usize
    ensures { drop result (places_of so_far.now).spellings ≡ literals_by (places_of so_far.now) next }
{
    match next {
        Next::Literals | Next::LiteralsAtValue => so_far.literals_placed(),
        Next::Beyond | Next::Value | Next::Elsewhere => so_far.literals_used(),
    }
}

/// What the line of a statement shows besides the source.
#[derive(Clone, Copy)]
pub(crate) struct Shown {
    /// The address, if it shows one.
    pub address: Option<i64>,
    /// The graphics of the first eight cells, with blanks after them if there are fewer.
    pub characters: [u8; 8],
}

/// What is placed by the lines whose labels an operand may name.
fn placed_for<'p, 'a>(
    all: &'p Placing<'a>,
    so_far: &'p Placing<'a>,
    addressing: Addressing,
) -> &'p Placing<'a>
    ensures { places_of result.now ≡ placed_for (places_of all.now) (places_of so_far.now) addressing }
{
    match addressing {
        Addressing::Equal(_) | Addressing::Value(_) | Addressing::Entry(_) => all,
        Addressing::Nothing | Addressing::Addresses(_) | Addressing::EarlierValue(_) => so_far,
    }
}

/// What the line of a statement here shows, with these lines after it.
pub(crate) fn shown_by<'a>(
    alloc: Global,
    all: &Placing<'a>,
    so_far: &Placing<'a>,
    statement: &Statement,
    lines: &Lines<'_>,
) -> Result<Shown, AsmFault>
    ensures address { IfOk result (λ shown.
        shown.address ≡ address_shown (places_of all.now) (places_of so_far.now) statement.now.body) }
    ensures characters { IfOk result (λ shown. shown.characters
        ≡ characters_text (cells_at (places_of all.now) (places_of so_far.now) statement.now.body lines.now)) }
    ensures err { IfErr result IsMemory }
{
    let row = statement.body.describe();
    let mut cells = Vec::new(alloc);
    put_contents(alloc, all, so_far, &row.contents, lines, &mut cells)?;
    let characters = characters_of(&cells);
    if row.is_remark {
        return Ok(Shown {
            address: None,
            characters,
        });
    }
    let by = placed_for(all, so_far, row.addressing);
    let address = so_far.point_value(by, &row, row.shows)?;
    Ok(Shown {
        address: Some(address),
        characters,
    })
}

/// Adds the lines of the literals that a line here places.
fn put_literals_of(
    alloc: Global,
    all: &Placing<'_>,
    so_far: &Placing<'_>,
    line: &Line,
    lines: &mut Vec<ListingLine>,
) -> Result<(), AsmFault>
    ensures ok { OnOk result (lines.new.items ≡ lines.old.items
        ++ literal_lines (places_of all.now) (start_of (places_of so_far.now) line.now.statement)
        (literals_in (places_of so_far.now) line.now.statement)) }
    ensures err { IfErr result IsMemory }
{
    let Some(statement) = &line.statement else {
        return Ok(());
    };
    let row = statement.body.describe();
    let from = so_far.start_by(&row)?;
    let first = first_literal(so_far, row.next);
    put_literal_lines(alloc, all, from, so_far, first, lines)
}

/// The line for a line of the source with an address and characters.
fn source_line(
    alloc: Global,
    source: WrittenLine<'_>,
    address: Option<i64>,
    characters: &[u8; 8],
) -> Result<ListingLine, AsmFault>
    ensures ok { IfOk result (λ line. line ≡ without_last_blanks (number_text (Some source.entry.number) ++ codes " "
        ++ address_text address ++ codes " " ++ characters.now ++ codes " " ++ source.entry.text.now)) }
    ensures err { IfErr result IsMemory }
{
    let mut text = Text::new(alloc);
    put_columns(&mut text, Some(source.number), address, characters);
    text.put(source.text);
    line_of(text)
}

/// The line of the listing for a line of the source here, with these lines after it.
#[tactic(auto, unfolding(crate::specs::Listing::listing_line))]
fn line_for<'a>(
    alloc: Global,
    all: &Placing<'a>,
    so_far: &Placing<'a>,
    source: WrittenLine<'_>,
    line: &Line,
    beyond: &Lines<'_>,
) -> Result<ListingLine, AsmFault>
    ensures ok { IfOk result (λ text. text
        ≡ line_for (places_of all.now) (places_of so_far.now) source.entry.number source.entry.text.now
        line.now.statement beyond.now) }
    ensures err { IfErr result IsMemory }
{
    match &line.statement {
        Some(statement) => {
            let shown = shown_by(alloc, all, so_far, statement, beyond)?;
            source_line(alloc, source, shown.address, &shown.characters)
        }
        None => source_line(alloc, source, None, &characters_of(&[])),
    }
}

/// Adds the lines for a line of the source here, with these lines after it.
pub(crate) fn list_line<'a>(
    alloc: Global,
    all: &Placing<'a>,
    so_far: &Placing<'a>,
    source: WrittenLine<'_>,
    line: &Line,
    beyond: &Lines<'_>,
    lines: &mut Vec<ListingLine>,
) -> Result<(), AsmFault>
    ensures listed { OnOk result (lines.new.items ≡ lines.old.items
        ++ (literal_lines (places_of all.now) (start_of (places_of so_far.now) line.now.statement)
        (literals_in (places_of so_far.now) line.now.statement)
        ++ line_for (places_of all.now) (places_of so_far.now) source.entry.number source.entry.text.now
        line.now.statement beyond.now ∷ [])) }
    ensures err { IfErr result IsMemory }
{
    put_literals_of(alloc, all, so_far, line, lines)?;
    lines.push(line_for(alloc, all, so_far, source, line, beyond)?)?;
    Ok(())
}
