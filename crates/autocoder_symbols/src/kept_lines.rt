//! The lines of a source, as the assembler keeps them.
ghost use Rattle.std.specs.Prelude.{◌≡◌, ◌⊎◌, ◌∷◌, ◌++◌, ◌+◌, ◌<◌, ◌≤◌, ◌^◌, [], length, take, drop, slice_index_or};
ghost use Rattle.std.specs.Prelude.{IfOk, IfErr, OnOk};
ghost use Rattle.autocoder_symbols.specs.Fault.{IsMemory};
ghost use Rattle.autocoder_symbols.specs.KeptLines.{comment, line_kept, AreHeld, lines_kept, with_line};
ghost use Rattle.autocoder_symbols.specs.Unread.{first_line, line_below, all_again};

use crate::fault::AsmFault;
use crate::unread::{Reading, Unread};
use autocoder_statements::{Context, Line, LineCheck};
use std::alloc::Global;
use std::marker::Model;

/// The most lines that a source may have.
const MOST_LINES: usize = 4_294_967_295;

/// The most lines that are held and not read again.
const MOST_HELD: usize = 32_768;

/// A comment that has no fault.
const COMMENT: Line = Line {
    bytes: LineCheck::Good,
    statement: None,
};

/// The lines of a source that are read so far. A comment without a fault takes four bytes, and another line twelve; the
/// first of these are held too. Contracts see how the source is read, and the list of lines.
#[derive(Drop)]
pub(crate) struct LinesSoFar<'s> {
    /// The source.
    reading: Reading<'s>,
    /// Those that aren't such comments.
    unread: Vec<Unread>,
    /// What the first of these say.
    held: Vec<Line>,
    /// Where among them each line is, counted from 1; 0 for a comment.
    places: Vec<u32>,
    /// How many have a label.
    labelled: usize,
}

impl<'s> Model for LinesSoFar<'s> {
    ghost use Rattle.autocoder_symbols.specs.KeptLines.{AreKept, AreHeld, LinesRead, lines_kept};
    ghost use Rattle.autocoder_symbols.specs.Unread.{all_again};

    ghost Value = { LinesRead };

    ghost view = { λ so_far. record {
      language = so_far.reading.language;
      registers = so_far.reading.registers;
      source = so_far.reading.source.now;
      lines = lines_kept so_far.reading.language so_far.reading.registers so_far.reading.source.now
          so_far.unread.items so_far.places.items;
    } };

    ghost invariant = { λ so_far.
        AreKept (all_again so_far.reading.language so_far.reading.registers so_far.reading.source.now
        so_far.unread.items) so_far.places.items
        × AreHeld so_far.held.items (all_again so_far.reading.language so_far.reading.registers
        so_far.reading.source.now so_far.unread.items) };
}

/// The lines of a source. Contracts see the list of lines.
#[derive(Drop)]
pub struct KeptLines<'s> {
    /// All of them.
    all: LinesSoFar<'s>,
}

impl<'s> Model for KeptLines<'s> {
    ghost use Rattle.std.specs.Prelude.{List};
    ghost use Rattle.autocoder_statements.specs.declared.statement.Line.{Line};

    ghost Value = { List Line };

    ghost view = { λ kept. kept.all.lines };
}

/// Lines of a source, lent one after the other. Contracts see the list of them.
#[derive(Drop)]
pub struct Lines<'a> {
    reading: Reading<'a>,
    unread: &'a [Unread],
    held: &'a [Line],
    places: &'a [u32],
    labelled: usize,
}

impl<'a> Model for Lines<'a> {
    ghost use Rattle.std.specs.Prelude.{List};
    ghost use Rattle.autocoder_statements.specs.declared.statement.Line.{Line};
    ghost use Rattle.autocoder_symbols.specs.KeptLines.{AreHeld, lines_kept};
    ghost use Rattle.autocoder_symbols.specs.Unread.{all_again};

    ghost Value = { List Line };

    ghost view = { λ lines. lines_kept lines.reading.language lines.reading.registers lines.reading.source.now
        lines.unread.now lines.places.now };

    ghost invariant = { λ lines. AreHeld lines.held.now
        (all_again lines.reading.language lines.reading.registers lines.reading.source.now lines.unread.now) };
}

/// Holds a line after this many, if those that are held are as many, and few.
fn hold(held: &mut Vec<Line>, count: usize, line: Line) -> Result<(), AsmFault>
    ensures held { (held.new.items ≡ held.old.items)
        ⊎ ((length held.old.items ≡ count) × (held.new.items ≡ held.old.items ++ line ∷ [])) }
    ensures err { IfErr result IsMemory }
{
    if held.len() == count && count < MOST_HELD {
        held.push(line)?;
    }
    Ok(())
}

impl<'s> LinesSoFar<'s> {
    /// No line, with room for this many.
    pub(crate) fn new(
        alloc: Global,
        reading: Reading<'s>,
        most: usize,
    ) -> Result<LinesSoFar<'s>, AsmFault>
        ensures language { IfOk result (λ so_far. so_far.language ≡ reading.entry.language) }
        ensures registers { IfOk result (λ so_far. so_far.registers ≡ reading.entry.registers) }
        ensures source { IfOk result (λ so_far. so_far.source ≡ reading.entry.source.now) }
        ensures lines { IfOk result (λ so_far. so_far.lines ≡ []) }
        ensures err { IfErr result IsMemory }
    {
        Ok(LinesSoFar {
            reading,
            unread: Vec::new(alloc),
            held: Vec::new(alloc),
            places: Vec::with_capacity(alloc, most)?,
            labelled: 0,
        })
    }

    /// Adds a line that says something, which begins after this many bytes, below others.
    fn push_said(&mut self, start: usize, context: Context, line: Line) -> Result<(), AsmFault>
        requires { line ≡ line_below self.old.language self.old.registers context
            (first_line (drop start self.old.source)) }
        ensures ok { OnOk result (self.new ≡ with_line self.old line) }
        ensures err { IfErr result IsMemory }
    {
        let Some(unread) = Unread::new(start, context) else {
            return Err(AsmFault::MEMORY);
        };
        let count = self.unread.len();
        if count >= MOST_LINES {
            return Err(AsmFault::MEMORY);
        }
        self.unread.push(unread)?;
        self.places.push(count as u32 + 1)?;
        self.labelled = self
            .labelled
            .saturating_add(usize::from(line.label().is_some()));
        hold(&mut self.held, count, line)
    }

    /// Adds a comment without a fault.
    #[tactic(auto, using(crate::proofs::KeptLinesLemmas::more_kept))]
    fn push_comment(&mut self) -> Result<(), AsmFault>
        ensures ok { OnOk result (self.new ≡ with_line self.old comment) }
        ensures err { IfErr result IsMemory }
    {
        self.places.push(0)?;
        Ok(())
    }

    /// Adds a line, which begins after this many bytes, below others.
    pub(crate) fn push(
        &mut self,
        start: usize,
        context: Context,
        line: Line,
    ) -> Result<(), AsmFault>
        requires few { length self.old.lines < 2 ^ 32 }
        requires line { line ≡ line_below self.old.language self.old.registers context
            (first_line (drop start self.old.source)) }
        ensures ok { OnOk result (self.new ≡ with_line self.old line) }
        ensures few { OnOk result (length self.new.lines < 2 ^ 32) }
        ensures err { IfErr result IsMemory }
    {
        if self.places.len() >= MOST_LINES {
            return Err(AsmFault::MEMORY);
        }
        match (line.bytes, line.statement) {
            (LineCheck::Good, None) => self.push_comment(),
            (LineCheck::Good, Some(_)) | (LineCheck::Long | LineCheck::Foreign, _) => {
                self.push_said(start, context, line)
            },
        }
    }

    /// All lines.
    pub(crate) fn finish(self) -> KeptLines<'s>
        ensures { result ≡ self.entry.lines }
    {
        KeptLines { all: self }
    }
}

impl KeptLines<'_> {
    /// The lines, lent.
    pub fn lend(&self) -> Lines<'_>
        ensures { result ≡ self.now }
    {
        self.all.lend()
    }
}

impl LinesSoFar<'_> {
    /// The lines, lent.
    fn lend(&self) -> Lines<'_>
        ensures { result ≡ self.now.lines }
    {
        Lines {
            reading: self.reading,
            unread: self.unread.as_slice(),
            held: self.held.as_slice(),
            places: self.places.as_slice(),
            labelled: self.labelled,
        }
    }
}

/// The line at a place among those that say something, of which the first are held.
fn line_at(reading: &Reading<'_>, unread: &[Unread], held: &[Line], place: u32) -> Line
    requires { AreHeld held.now
        (all_again reading.now.language reading.now.registers reading.now.source.now unread.now) }
    ensures { result ≡ line_kept
        (all_again reading.now.language reading.now.registers reading.now.source.now unread.now) place }
{
    if place == 0 {
        return COMMENT;
    }
    let i = place as usize - 1;
    if let Some(line) = held.get(i) {
        return *line;
    }
    match unread.get(i) {
        Some(unread) => reading.line(*unread),
        None => COMMENT,
    }
}

/// The places from an index on.
fn places_from(places: &[u32], i: usize) -> &[u32]
    ensures { result.now ≡ drop i places.now }
{
    places.get(i..).unwrap_or(&[])
}

impl<'a> Lines<'a> {
    /// How many there are.
    pub fn len(&self) -> usize
        ensures { result ≡ length self.now }
    {
        self.places.len()
    }

    /// How many lines of the source have a label: what a table of its symbols has room for at once. A table that grows
    /// leaves pieces of memory that nothing else fits.
    pub fn labelled(&self) -> usize {
        self.labelled
    }

    /// The line with this index.
    #[tactic(auto, using(crate::proofs::KeptLinesLemmas::one_line, crate::proofs::KeptLinesLemmas::line_with_index))]
    pub fn line(&self, i: usize) -> Line
        requires { i < length self.now }
        ensures is { result ≡ slice_index_or self.now i result }
        ensures rest { drop i self.now ≡ result ∷ drop (i + 1) self.now }
    {
        line_at(&self.reading, self.unread, self.held, self.places[i])
    }

    /// Those after the one with this index.
    pub fn beyond(&self, i: usize) -> Lines<'a>
        requires { i < length self.now }
        ensures { result ≡ drop (i + 1) self.now }
    {
        Lines {
            reading: self.reading,
            unread: self.unread,
            held: self.held,
            places: self.places.split_at(i + 1).1,
            labelled: self.labelled,
        }
    }

    /// Those from an index on.
    pub fn from(&self, i: usize) -> Lines<'a>
        ensures { result ≡ drop i self.now }
    {
        Lines {
            reading: self.reading,
            unread: self.unread,
            held: self.held,
            places: places_from(self.places, i),
            labelled: self.labelled,
        }
    }

    /// The first of them, this many.
    pub fn above(&self, n: usize) -> Lines<'a>
        requires { n ≤ length self.now }
        ensures { result ≡ take n self.now }
    {
        Lines {
            reading: self.reading,
            unread: self.unread,
            held: self.held,
            places: self.places.split_at(n).0,
            labelled: self.labelled,
        }
    }
}
