//! The source by which the assembler reads a statement: the labels with their values, and where the statement is placed.
ghost use Rattle.std.specs.Prelude.{◌≡◌, IfOk};
ghost use Rattle.std.specs.List.{flat_map};
ghost use Rattle.autocoder_statements.specs.Language.{line_in};
ghost use Rattle.bytes_text.specs.Written.{Adds};
ghost use Rattle.operate_program.specs.Statement.{declares, equate, equate_line, statement_line, statement_source};
ghost use Rattle.operate_program.specs.Statement.{without_front};

use crate::program::Program;
use crate::values::place_of;
use autocoder_listing::Symbol;
use autocoder_statements::{Language, Line, word_in};
use bytes_text::{Piece, Text};
use std::alloc::{AllocError, Global};

/// The blanks in front of an operation.
const FRONT: &[u8] = b"               ";

/// How many columns an operation has.
const OPERATION_COLUMNS: u8 = 5;

/// Whether a line declares the label of a symbol in a language.
fn declares(language: Language, line: &[u8], symbol: &Symbol) -> bool
    ensures { result ≡ declares language line.now symbol.now }
{
    match Line::in_language(language, line).label() {
        Some(label) => label.text.as_slice() == symbol.label.text.as_slice(),
        None => false,
    }
}

/// The line that gives a label a value.
#[tactic(auto, unfolding(crate::specs::Statement::equate_line))]
fn equate_line(alloc: Global, symbol: &Symbol, value: u32) -> Result<Vec<u8>, AllocError>
    ensures { IfOk result (λ line. line.items ≡ equate_line symbol.now value) }
{
    let mut line = Text::new(alloc);
    line.put_pieces(&[
        Piece::Text(b"     "),
        Piece::Text(symbol.label.text.as_slice()),
        Piece::Text(b"    EQU  "),
        Piece::Count(value as u64),
    ]);
    line.into_bytes()
}

/// Adds the line that gives a label its value, if it is a place and the language can declare the label so.
fn put_equate(alloc: Global, text: &mut Text, language: Language, symbol: &Symbol)
    ensures { Adds text.old text.new (equate language symbol.now) }
{
    let Some(value) = place_of(symbol.value) else {
        return;
    };
    match equate_line(alloc, symbol, value) {
        Ok(line) => {
            if declares(language, line.as_slice(), symbol) {
                text.put(line.as_slice());
                text.put_byte(b'\n');
            }
        }
        Err(_) => text.fail(),
    }
}

/// Adds the lines that give the labels their values.
fn put_equates(alloc: Global, text: &mut Text, language: Language, symbols: &[Symbol])
    ensures { Adds text.old text.new (flat_map (equate language) symbols.now) }
{
    for symbol in symbols {
        put_equate(alloc, text, language, symbol);
    }
}

/// A text without the blanks in front.
fn without_front(text: &[u8]) -> &[u8]
    ensures { result.now ≡ without_front text.now }
{
    text.trim_ascii_start()
}

/// The line of a statement: its first word in the columns of the operation, and what follows in those of operands.
#[tactic(auto, unfolding(crate::specs::Statement::statement_line))]
pub(crate) fn statement_line(alloc: Global, statement: &[u8]) -> Result<Vec<u8>, AllocError>
    ensures { IfOk result (λ line. line.items ≡ statement_line statement.now) }
{
    let operation = word_in(statement);
    let beyond = &statement[operation.len()..];
    let mut line = Text::new(alloc);
    line.put_pieces(&[
        Piece::Text(FRONT),
        Piece::Padded(OPERATION_COLUMNS, operation),
        Piece::Text(without_front(beyond)),
    ]);
    line.into_bytes()
}

/// The source by which the line of a statement is read that begins at an address.
#[tactic(auto, unfolding(crate::specs::Statement::statement_source))]
pub(crate) fn statement_source(
    alloc: Global,
    program: &Program,
    at: u16,
    line: &[u8],
) -> Result<Vec<u8>, AllocError>
    ensures { IfOk result (λ text. text.items ≡ statement_source program.now at line.now) }
{
    let mut text = Text::new(alloc);
    put_equates(alloc, &mut text, program.language(), program.symbols());
    text.put_pieces(&[
        Piece::Text(b"               ORG  "),
        Piece::Number(1, at),
        Piece::Text(b"\n"),
        Piece::Text(line),
        Piece::Text(b"\n               END  "),
        Piece::Number(1, at),
        Piece::Text(b"\n"),
    ]);
    text.into_bytes()
}

/// The source by which a statement is read that begins at an address.
pub(crate) fn source_of(
    alloc: Global,
    program: &Program,
    at: u16,
    statement: &[u8],
) -> Result<Vec<u8>, AllocError> {
    let line = statement_line(alloc, statement)?;
    statement_source(alloc, program, at, line.as_slice())
}
