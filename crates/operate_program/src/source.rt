//! The lines of the source, and which of them made the cells at a place.
ghost use Rattle.std.specs.Prelude.{◌≡◌, ◌⊎◌, ◌+◌, ◌-◌, ◌<◌, ◌≤◌, ◌||◌, true, false, length, drop, take, IfOk, IfSome, option_map};
ghost use Rattle.std.specs.List.{position_or_len};
ghost use Rattle.autocoder_listing.specs.Listing.{characters_text};
ghost use Rattle.autocoder_listing.specs.Rows.{IsLastAt};
ghost use Rattle.autocoder_statements.specs.SourceLine.{lines_of};
ghost use Rattle.autocoder_symbols.specs.Reading.{lines_in};
ghost use Rattle.operate_program.specs.Source.{IsDataOf, IsStatementOf, columns, data_at, has_cell, is_data_at};
ghost use Rattle.operate_program.specs.Source.{is_data_operation, label_in, line_at, line_numbered, listed_at};
ghost use Rattle.operate_program.specs.Source.{operands_in, operands_len};
ghost use Rattle.operate_views.specs.Lines.{cells_to_mark};

use crate::program::Program;
use autocoder_listing::Row;
use autocoder_statements::{split_line, word_in};
use core_1401::Core;
use operate_views::{Statement, cells_to_mark};
use std::alloc::{AllocError, Global};

/// What the line of a constant or an area says whose cells are others now.
const DATA: &[u8] = b"DATA";

/// Whether a place holds anything: a word mark, or a character that is no blank.
#[tactic(auto, unfolding(crate::specs::Source::has_cell))]
fn has_cell(core: &Core, at: u16) -> bool
    ensures value { result ≡ has_cell core.now at }
    ensures inside { result ≡ true → at < length core.now }
{
    if !core.in_core(at) {
        return false;
    }
    let cell = core.get(at);
    cell.mark || cell.char.code() != 0
}

/// Columns of a line, counted from 1; a line may end before the last of them, or before the first.
#[tactic(auto, using(crate::proofs::SourceLemmas::part), unfolding(crate::specs::Source::columns))]
fn columns(line: &[u8], first: usize, last: usize) -> &[u8]
    requires order { first ≤ last + 1 }
    requires some { 0 < first }
    ensures { result.now ≡ columns first last line.now }
{
    let (_, beyond) = line.split_at((first - 1).min(line.len()));
    let (columns, _) = beyond.split_at((last - (first - 1)).min(beyond.len()));
    columns
}

/// How many bytes operands have: up to the first blank that no two at signs enclose.
fn operands_len(text: &[u8]) -> usize
    ensures value { result ≡ operands_len false text.now }
    ensures bound { result ≤ length text.now }
{
    let mut is_quoted = false;
    for (i, byte) in text.iter().enumerate() {
        if !is_quoted && *byte == b' ' {
            return i;
        }
        is_quoted ^= *byte == b'@';
    }
    text.len()
}

/// The operands of a line, without the remark after them.
#[tactic(auto, unfolding(crate::specs::Source::operands_in))]
fn operands_in(line: &[u8]) -> &[u8]
    ensures { result.now ≡ operands_in line.now }
{
    let text = columns(line, 21, 72);
    let (operands, _) = text.split_at(operands_len(text));
    operands
}

/// The label of a line.
fn label_in(line: &[u8]) -> &[u8]
    ensures { result.now ≡ label_in line.now }
{
    word_in(columns(line, 6, 15))
}

/// What the line of this number says, in its columns.
fn statement_of(number: u64, line: &[u8]) -> Statement<'_>
    ensures number { result.line ≡ number }
    ensures fields { IsStatementOf line.now result }
{
    Statement {
        line: number,
        label: label_in(line),
        operation: word_in(columns(line, 16, 20)),
        operands: operands_in(line),
    }
}

/// Whether an operation is that of a constant or an area.
fn is_data_operation(operation: &[u8]) -> bool
    ensures { result ≡ is_data_operation operation.now }
{
    operation == b"DCW".as_slice()
        || operation == b"DC".as_slice()
        || operation == b"DS".as_slice()
        || operation == b"DSA".as_slice()
        || operation == b"DA".as_slice()
}

/// Whether a row is that of a constant or an area which begins at a place.
fn is_data_at(source: &[u8], at: u16, row: &Row) -> bool
    ensures { result ≡ is_data_at source.now at row.now }
{
    row.address == i64::from(at)
        && is_data_operation(word_in(columns(line_numbered(source, row.number), 16, 20)))
}

/// The last row of a constant or an area that begins at a place.
#[tactic(auto, unfolding(crate::specs::Source::data_at))]
fn data_at(source: &[u8], rows: &[Row], at: u16) -> Option<Row>
    ensures { result ≡ data_at source.now rows.now at }
{
    rows.iter()
        .rev()
        .copied()
        .find(|row| is_data_at(source, at, row))
}

/// What follows so many lines of a source.
#[tactic(auto, using(crate::proofs::SourceLemmas::line_passed, crate::proofs::SourceLemmas::none_left))]
fn beyond_lines(source: &[u8], count: u64) -> &[u8]
    ensures { lines_of result.now ≡ drop count (lines_of source.now) }
{
    let mut rest = source;
    for i in 0..count {
        match split_line(rest) {
            Some((_, beyond)) => rest = beyond,
            None => return &[],
        }
    }
    rest
}

/// The line of this number, counted from 1; empty if there is none.
#[tactic(auto, unfolding(crate::specs::Source::line_numbered))]
fn line_numbered(source: &[u8], number: u64) -> &[u8]
    ensures { result.now ≡ line_numbered source.now number }
{
    if number == 0 {
        return &[];
    }
    match split_line(beyond_lines(source, number - 1)) {
        Some((line, _)) => line,
        None => &[],
    }
}

/// How many lines a source has.
fn count_lines(source: &[u8]) -> u64
    ensures { result ≡ length (lines_of source.now) }
{
    let mut rest = source;
    let mut count = 0;
    while let Some((_, beyond)) = split_line(rest) {
        rest = beyond;
        count += 1;
    }
    count
}

impl Program {
    /// How many lines the source has.
    pub fn lines(&self) -> u64
        ensures { result ≡ length (lines_of self.now.text) }
    {
        count_lines(self.text.as_slice())
    }

    /// The line of this number, counted from 1, as the source has it; empty if there is none.
    pub fn source_line(&self, number: u64) -> &[u8]
        ensures { result.now ≡ line_numbered self.now.text number }
    {
        line_numbered(self.text.as_slice(), number)
    }

    /// The number of the line that made the cells at a place: the last that shows the characters which are there now
    /// up to the next word mark, eight at most. There is none for a blank without a word mark.
    ///
    /// # Errors
    ///
    /// If memory is refused.
    pub fn line_at(&self, alloc: Global, core: &Core, at: u16) -> Result<Option<u64>, AllocError>
        ensures value { IfOk result (λ number. number ≡ line_at self.now.rows core.now at) }

        // It is the last line of the source that shows these characters at the place.
        ensures last { IfOk result (λ number. IfSome number (IsLastAt (lines_in self.now.language self.now.text) at
            (characters_text (cells_to_mark core.now at)))) }
    {
        if !has_cell(core, at) {
            return Ok(None);
        }
        let cells = cells_to_mark(alloc, core, at)?;
        match self.rows.line_of(alloc, at, cells.as_slice()) {
            Ok(number) => Ok(number),
            Err(_) => Err(AllocError),
        }
    }

    /// What the line says that made the cells at a place.
    ///
    /// # Errors
    ///
    /// If memory is refused.
    pub fn statement_at(
        &self,
        alloc: Global,
        core: &Core,
        at: u16,
    ) -> Result<Option<Statement<'_>>, AllocError>
        ensures value { IfOk result (λ found.
            option_map (λ statement. statement.line) found ≡ line_at self.now.rows core.now at) }
        ensures fields { IfOk result (λ found. IfSome found (λ statement.
            IsStatementOf (line_numbered self.now.text statement.line) statement)) }
    {
        match self.line_at(alloc, core, at)? {
            Some(number) => Ok(Some(statement_of(number, self.source_line(number)))),
            None => Ok(None),
        }
    }

    /// The line of a constant or an area that begins at a place, as data: with DATA for its operation, and no operands.
    fn data_at(&self, at: u16) -> Option<Statement<'_>>
        ensures value { option_map (λ statement. statement.line) result
            ≡ option_map (λ row. row.number) (data_at self.now.text self.now.rows at) }
        ensures fields { IfSome result (λ statement.
            IsDataOf (line_numbered self.now.text statement.line) statement) }
    {
        match data_at(self.text.as_slice(), self.rows.as_slice(), at) {
            Some(row) => Some(Statement {
                line: row.number,
                label: label_in(self.source_line(row.number)),
                operation: DATA,
                operands: &[],
            }),
            None => None,
        }
    }

    /// What the line says that made the cells at a place. If no line did, and a constant or an area of the source begins
    /// there with a word mark, that is data whose cells are others now: DATA is its operation, and it has no operands.
    ///
    /// # Errors
    ///
    /// If memory is refused.
    #[tactic(auto, unfolding(crate::specs::Source::listed_at))]
    pub fn listed_at(
        &self,
        alloc: Global,
        core: &Core,
        at: u16,
    ) -> Result<Option<Statement<'_>>, AllocError>
        ensures value { IfOk result (λ found. option_map (λ statement. statement.line) found
            ≡ listed_at self.now.text self.now.rows core.now at) }
        ensures fields { IfOk result (λ found. IfSome found (λ statement.
            IsStatementOf (line_numbered self.now.text statement.line) statement
            ⊎ IsDataOf (line_numbered self.now.text statement.line) statement)) }
    {
        match self.statement_at(alloc, core, at) {
            Err(fault) => Err(fault),
            Ok(Some(statement)) => Ok(Some(statement)),
            Ok(None) => {
                if core.in_core(at) && core.get(at).mark {
                    Ok(self.data_at(at))
                } else {
                    Ok(None)
                }
            }
        }
    }
}
