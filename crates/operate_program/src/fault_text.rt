//! The texts of faults, as they follow a question mark.

use crate::fault::{ActFault, PlaceFault};
use crate::program::Program;
use crate::statement_source::source_of;
use autocoder_1401::{explained_faults, fault_help};
use autocoder_diagnostics::{Cause, source_explanations};
use autocoder_statements::{Label, word_in};
use bytes_text::{Piece, Text};
use std::alloc::Global;
use std::fmt::Display;

/// Adds a fault as it describes itself.
fn put_described<F: Display>(alloc: Global, text: &mut Text, fault: &F) {
    match format!(in alloc; "{fault}") {
        Ok(words) => text.put(words.as_bytes()),
        Err(_) => text.fail(),
    }
}

/// The label that a word nearly is, as the assembler finds it for the operand of a branch: the first that it takes a
/// symbol for which no line declares. None either if there is no room to look for it.
fn nearest(alloc: Global, program: &Program, word: &[u8]) -> Option<Label> {
    let mut branch = Text::new(alloc);
    branch.put(b"B ");
    branch.put(word);
    if !branch.is_whole() {
        return None;
    }
    let Ok(source) = source_of(alloc, program, 0, branch.as_slice()) else {
        return None;
    };
    let Ok(faults) = source_explanations(alloc, program.language(), source.as_slice()) else {
        return None;
    };
    for explanation in faults.as_slice() {
        if let Cause::Undeclared(label) = explanation.cause {
            return label;
        }
    }
    None
}

/// Adds the text of a fault of a place at a program.
pub fn put_place_fault(alloc: Global, text: &mut Text, program: &Program, fault: &PlaceFault) {
    match fault {
        PlaceFault::Label(word) => {
            text.put(word.as_slice());
            text.put(b" is the label of no line");
            if let Some(label) = nearest(alloc, program, word.as_slice()) {
                text.put_pieces(&[
                    Piece::Text(b"; did you mean "),
                    Piece::Text(word_in(label.text.as_slice())),
                    Piece::Text(b"?"),
                ]);
            }
        }
        PlaceFault::NoPlace(label) => {
            text.put(label.as_slice());
            text.put(b" is the name of no place");
        }
        PlaceFault::Line(number) => {
            text.put_pieces(&[
                Piece::Text(b"line "),
                Piece::Count(*number as u64),
                Piece::Text(b" of the source fills no place"),
            ]);
        }
        PlaceFault::BelowZero => text.put(b"the address is below 0"),
        PlaceFault::NotInCore { at, size } => {
            text.put_pieces(&[
                Piece::Text(b"place "),
                Piece::Count(*at),
                Piece::Text(b" isn't in core, which has "),
                Piece::Number(1, *size),
                Piece::Text(b" places"),
            ]);
        }
        PlaceFault::Backwards { first, last } => {
            text.put_pieces(&[
                Piece::Text(b"place "),
                Piece::Number(1, *last),
                Piece::Text(b" comes before place "),
                Piece::Number(1, *first),
            ]);
        }
    }
}

/// Adds a statement, and what the assembler says of it: of the first fault of the source by which it is read.
fn put_refused(
    alloc: Global,
    text: &mut Text,
    program: &Program,
    statement: &[u8],
    at: u16,
    size: u16,
) {
    text.put(statement);
    let Ok(source) = source_of(alloc, program, at, statement) else {
        return text.fail();
    };
    let language = program.language();
    let Ok(faults) = explained_faults(alloc, language, source.as_slice(), size) else {
        return text.fail();
    };
    if let Some(first) = faults.first() {
        match fault_help(alloc, language, source.as_slice(), size, *first) {
            Ok(help) => {
                text.put(b": ");
                text.put(help.as_bytes());
            }
            Err(_) => text.fail(),
        }
    }
}

/// Adds the text of a fault of an act at a program.
pub fn put_act_fault(alloc: Global, text: &mut Text, program: &Program, fault: &ActFault) {
    match fault {
        ActFault::Place(fault) => put_place_fault(alloc, text, program, fault),
        ActFault::Field(why) => put_described(alloc, text, why),
        ActFault::Value(why) => put_described(alloc, text, why),
        ActFault::Memory => text.put(b"out of memory"),
        ActFault::Card => text.put(b"a card has 80 columns"),
        ActFault::NoValue => text.put(b"the value is neither a number nor a text"),
        ActFault::Literal => {
            text.put(b"a literal has no place here: deposit the constant first, and name its place")
        }
        ActFault::NoCells(statement) => {
            text.put(statement.as_slice());
            text.put(b": it makes no cells");
        }
        ActFault::Statement {
            statement,
            at,
            size,
        } => put_refused(alloc, text, program, statement.as_slice(), *at, *size),
    }
}
