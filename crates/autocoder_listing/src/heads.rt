//! What the lines of a listing have besides the lines of the source. It is made before the first of them is written.
ghost use Rattle.std.specs.Prelude.{◌≡◌, ◌++◌, ◌<◌, ◌^◌, drop, length, IfOk, IfErr, OnOk};
ghost use Rattle.std.specs.List.{flat_map};
ghost use Rattle.autocoder_symbols.specs.Fault.{IsMemory};
ghost use Rattle.autocoder_placing.specs.Placement.{placed_after, unplaced};
ghost use Rattle.autocoder_placing.specs.View.{places_of};
ghost use Rattle.autocoder_listing.specs.Heads.{literals_text, heads_at, heads_from, literals_from};
ghost use Rattle.autocoder_listing.specs.Listing.{literal_lines, line_text};

use crate::listing::{ListingLine, first_literal, literal_line};
use crate::rows::{Row, row_of};
use autocoder_placing::{LiteralKey, Placing};
use autocoder_statements::Line;
use autocoder_symbols::{AsmFault, Lines, checked_sum};
use std::alloc::Global;

/// How many bytes the line of a statement has at least, with its line feed: its operation begins in column 16.
const SHORTEST_STATEMENT: usize = 17;

/// What the line of a statement has besides the line of the source.
#[derive(Clone, Copy)]
pub(crate) struct Head {
    /// The row of the statement.
    pub row: Row,
    /// How many bytes the lines of the literals have that it places: they precede its own.
    pub literals: usize,
}

/// The heads of all statements, but for headings, and the lines of the literals, each with its line feed.
#[derive(Drop)]
pub(crate) struct Heads {
    /// The heads, in the order of the lines.
    pub heads: Vec<Head>,
    /// The lines of the literals.
    pub literals: Vec<u8>,
}

/// Adds a line with its line feed.
fn put_text(text: &mut Vec<u8>, line: &ListingLine) -> Result<(), AsmFault>
    ensures ok { OnOk result (text.new.items ≡ text.old.items ++ line_text line.now) }
    ensures err { IfErr result IsMemory }
{
    text.extend_from_slice(line.as_slice())?;
    text.push(b'\n')?;
    Ok(())
}

/// Adds the lines of the literals that are used here from one on, placed one after the other from a place on.
fn put_literals(
    alloc: Global,
    all: &Placing<'_>,
    from: i64,
    so_far: &Placing<'_>,
    first: usize,
    text: &mut Vec<u8>,
) -> Result<(), AsmFault>
    ensures ok { OnOk result (text.new.items ≡ text.old.items
        ++ flat_map line_text (literal_lines (places_of all.now) from (drop first (places_of so_far.now).spellings))) }
    ensures err { IfErr result IsMemory }
{
    let mut next = from;
    for i in first..so_far.literals_used() {
        let literal = so_far.literal(i);
        put_text(text, &literal_line(alloc, all, next, literal)?)?;
        next = checked_sum(next, i64::from(LiteralKey::from_literal(literal).len()))?;
    }
    Ok(())
}

/// Adds the lines of the literals that a line here places.
fn put_literals_of(
    alloc: Global,
    all: &Placing<'_>,
    so_far: &Placing<'_>,
    line: &Line,
    text: &mut Vec<u8>,
) -> Result<(), AsmFault>
    ensures ok { OnOk result (text.new.items
        ≡ text.old.items ++ literals_text (places_of all.now) (places_of so_far.now) line.now.statement) }
    ensures err { IfErr result IsMemory }
{
    let Some(statement) = &line.statement else {
        return Ok(());
    };
    let row = statement.body.describe();
    let from = so_far.start_by(&row)?;
    let first = first_literal(so_far, row.next);
    put_literals(alloc, all, from, so_far, first, text)
}

impl Heads {
    /// Adds what the line here of this number has, with these lines after it.
    fn put_line<'a>(
        &mut self,
        alloc: Global,
        all: &Placing<'a>,
        so_far: &Placing<'a>,
        number: u64,
        line: &Line,
        beyond: &Lines<'_>,
    ) -> Result<(), AsmFault>
        ensures heads { OnOk result (self.new.heads.items ≡ self.old.heads.items
            ++ heads_at (places_of all.now) (places_of so_far.now) number line.now.statement beyond.now) }
        ensures literals { OnOk result (self.new.literals.items ≡ self.old.literals.items
            ++ literals_text (places_of all.now) (places_of so_far.now) line.now.statement) }
        ensures err { IfErr result IsMemory }
    {
        let before = self.literals.len();
        put_literals_of(alloc, all, so_far, line, &mut self.literals)?;
        let literals = self.literals.len() - before;
        if let Some(row) = row_of(alloc, all, so_far, number, line, beyond)? {
            self.heads.push(Head { row, literals })?;
        }
        Ok(())
    }

    /// Adds what lines have, and places them.
    fn put_lines<'a>(
        &mut self,
        alloc: Global,
        all: &Placing<'a>,
        so_far: &mut Placing<'a>,
        lines: &Lines<'_>,
    ) -> Result<(), AsmFault>
        requires few { length lines.now < 2 ^ 32 }
        ensures heads { OnOk result (self.new.heads.items ≡ self.old.heads.items
            ++ heads_from (places_of all.now) (places_of so_far.old) 1 lines.now) }
        ensures literals { OnOk result (self.new.literals.items ≡ self.old.literals.items
            ++ literals_from (places_of all.now) (places_of so_far.old) lines.now) }
        ensures err { IfErr result IsMemory }
    {
        for i in 0..lines.len() {
            let line = &lines.line(i);
            self.put_line(alloc, all, so_far, i as u64 + 1, line, &lines.beyond(i))?;
            so_far.place(line)?;
        }
        Ok(())
    }
}

/// What the lines of a source of this many bytes have besides the source, once all is placed.
pub(crate) fn make_heads(
    alloc: Global,
    all: &Placing<'_>,
    bytes: usize,
    lines: &Lines<'_>,
) -> Result<Heads, AsmFault>
    requires few { length lines.now < 2 ^ 32 }
    ensures heads { IfOk result (λ made. made.heads.items
        ≡ heads_from (places_of all.now) (unplaced (places_of all.now)) 1 lines.now) }
    ensures literals { IfOk result (λ made. made.literals.items
        ≡ literals_from (places_of all.now) (unplaced (places_of all.now)) lines.now) }
    ensures err { IfErr result IsMemory }
{
    let most = lines.len().min(bytes / SHORTEST_STATEMENT + 1);
    let mut made = Heads {
        heads: Vec::with_capacity(alloc, most)?,
        literals: Vec::new(alloc),
    };
    let mut so_far = all.again(alloc);
    made.put_lines(alloc, all, &mut so_far, lines)?;
    Ok(made)
}
