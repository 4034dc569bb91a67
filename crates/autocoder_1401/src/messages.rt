//! What is wrong at a fault in a few words, and the warnings of a source, as editors read them.

use crate::outside::{Outside, OutsidePart, outside_of};
use autocoder_diagnostics::{Cause, Explanation};
use autocoder_statements::{LABEL_LENGTH, Language, OperandFlaw, Stretch};
use autocoder_warnings::{Loss, Warning, WarningKind};
use bytes_text::{Piece, Text};
use std::alloc::{AllocError, Global};
use std::str;

/// How many digits a number has at most that should be where something else is wrong, in this language: a constant has
/// more in the wider one.
fn most_digits(language: Language, flaw: OperandFlaw) -> u8 {
    match (language, flaw) {
        (Language::Ibm, OperandFlaw::NoConstant) => 50,
        _ => 20,
    }
}

/// The column in which a label begins.
const LABEL_COLUMN: u8 = 6;

/// How many digits an address has in a warning.
const ADDRESS_DIGITS: u8 = 5;

/// What is in some columns of a line; nothing if the line ends before them, or if it isn't text.
fn word_in(line: &[u8], columns: Stretch) -> &[u8] {
    let first = usize::from(columns.column).saturating_sub(1);
    let word = line.get(first..).unwrap_or(&[]);
    let word = &word[..word.len().min(usize::from(columns.length))];
    if str::from_utf8(word).is_ok() {
        word
    } else {
        &[]
    }
}

/// Whether a word is a number but for its length, which is more than this.
fn is_long(word: &[u8], most: u8) -> bool {
    let digits = match word {
        [b'+' | b'-', digits @ ..] => digits,
        digits => digits,
    };
    for digit in digits {
        if !digit.is_ascii_digit() {
            return false;
        }
    }
    digits.len() > usize::from(most)
}

/// Whether a word is a text without a second at sign.
fn is_open(word: &[u8]) -> bool {
    match word {
        [b'@', text @ ..] => !text.contains(&b'@'),
        _ => false,
    }
}

/// What is wrong with an operand, which is this word: a number has at most this many digits.
fn operand_words(flaw: OperandFlaw, word: &[u8], most: u8) -> &'static [u8] {
    match flaw {
        OperandFlaw::AddressMissing => b"an address is missing",
        OperandFlaw::CharacterMissing => b"the d-character is missing",
        OperandFlaw::NoAssembler => b"ENT takes only AUTOCODER",
        OperandFlaw::NoSize => b"CTL needs the size of core storage, 1 to 6, in column 22",
        OperandFlaw::NoSuffix => b"SFX takes one letter or digit",
        OperandFlaw::TooMuch => b"~ is more than the operation takes",
        _ if word.is_empty() => b"an operand is missing",
        OperandFlaw::NoAddress | OperandFlaw::NoConstant if is_long(word, most) => {
            b"~ is longer than a number of ^ digits"
        }
        OperandFlaw::NoAddress | OperandFlaw::NoConstant if is_open(word) => {
            b"~ has no second at sign up to column 72; a text has at most 50"
        }
        OperandFlaw::NoAddress => b"~ is neither an address nor a literal",
        OperandFlaw::NoConstant => b"~ isn't a constant",
        OperandFlaw::NoCount => b"~ isn't a number of places from 1 to 15999",
        OperandFlaw::NoAreas => b"~ isn't a number of areas and their length, such as 2X80",
        OperandFlaw::NoSpan => b"~ isn't a valid place for a field",
        OperandFlaw::NoValue => b"~ has no value; a number or a label has one",
        OperandFlaw::NoUnit => b"~ isn't a unit, such as %U1",
        OperandFlaw::NoTape => b"~ isn't a tape, such as 1 or %U1",
        OperandFlaw::NoTimes => b"~ isn't a number from 1 to 99",
        OperandFlaw::NoOptions => {
            b"~ isn't G, C, 0, ' or one of X1 to X3, each once, after the areas"
        }
        OperandFlaw::Literal => b"~ is a literal, but an address is needed here",
    }
}

/// What is wrong with a label, which is this word and begins in this column.
fn label_words(first: u8, word: &[u8]) -> &'static [u8] {
    if first > LABEL_COLUMN {
        b"a label begins in column 6, and an operation in column 16"
    } else if word.contains(&b' ') {
        b"columns 6 to 15 hold more than a label, and an operation begins in column 16"
    } else if word.len() > LABEL_LENGTH {
        b"~ is longer than a label, which has at most six characters"
    } else {
        b"~ isn't a label"
    }
}

/// Adds what is wrong with a byte that isn't allowed in its column.
fn put_foreign(text: &mut Text, byte: Option<u8>) {
    match byte {
        Some(b'\t') => text.put(b"a tab"),
        Some(letter @ b'a'..=b'z') => {
            text.put_pieces(&[Piece::Text(b"the small letter "), Piece::Byte(letter)]);
        }
        Some(byte @ b' '..=b'~') => {
            text.put_pieces(&[Piece::Text(b"the byte "), Piece::Byte(byte)]);
        }
        Some(byte) => text.put_pieces(&[Piece::Text(b"the byte "), Piece::Small(byte)]),
        None => text.put(b"a byte"),
    }
    text.put(b" isn't allowed in this column");
}

/// Whether operands end at a blank after a comma, in front of these columns.
fn is_after_comma(line: &[u8], columns: Stretch) -> bool {
    let first = usize::from(columns.column).saturating_sub(1);
    let comma = first.saturating_sub(1);
    line.get(comma).copied() == Some(b',') && line.get(first).copied() == Some(b' ')
}

/// The suffix that the operand of SFX says; this one if it says none as it should.
fn suffix_of(operand: &[u8], suffix: Option<u8>) -> Option<u8> {
    match operand {
        [] | [b' ', ..] => None,
        [graphic @ (b'A'..=b'Z' | b'0'..=b'9')]
        | [graphic @ (b'A'..=b'Z' | b'0'..=b'9'), b' ', ..] => { Some(*graphic) }
        [letter @ b'a'..=b'z'] | [letter @ b'a'..=b'z', b' ', ..] => Some(*letter - 32),
        _ => suffix,
    }
}

/// The suffix of the symbols below a line, if those of the line have this one.
fn suffix_below(line: &[u8], suffix: Option<u8>) -> Option<u8> {
    match line.get(15..).unwrap_or(&[]) {
        [b'S' | b's', b'F' | b'f', b'X' | b'x'] => None,
        [b'S' | b's', b'F' | b'f', b'X' | b'x', b' '] => None,
        [
            b'S' | b's',
            b'F' | b'f',
            b'X' | b'x',
            b' ',
            b' ',
            operand @ ..,
        ] => {
            if line.get(5).copied() == Some(b'*') {
                suffix
            } else {
                suffix_of(operand, suffix)
            }
        }
        _ => suffix,
    }
}

/// The same in this language: the plain one has no SFX.
pub(crate) fn suffix_in(language: Language, line: &[u8], suffix: Option<u8>) -> Option<u8> {
    match language {
        Language::Plain => None,
        Language::Ibm => suffix_below(line, suffix),
    }
}

/// What isn't in core of this size, and by how much.
fn put_outside(text: &mut Text, size: u16, outside: Outside) {
    let name: &[u8] = match outside.part {
        OutsidePart::FirstPlace => b"its first place",
        OutsidePart::LastPlace => b"its last place",
        OutsidePart::LastLiteral => b"the last place of its literals",
        OutsidePart::FirstOperand => b"the first operand",
        OutsidePart::SecondOperand => b"the second operand",
        OutsidePart::OnlyOperand => b"its value",
        OutsidePart::UnitName => {
            return text.put(
                b"the name of a unit is no place: it may be the first operand of an instruction for units, alone",
            );
        }
    };
    let place = outside.place.unsigned_abs();
    let last = u64::from(size.saturating_sub(1));
    text.put(name);
    if outside.place < 0 {
        text.put_pieces(&[
            Piece::Text(b" is -"),
            Piece::Count(place),
            Piece::Text(b", which is below 0"),
        ]);
    } else {
        text.put_pieces(&[
            Piece::Text(b" is "),
            Piece::Count(place),
            Piece::Text(b", "),
            Piece::Count(place.saturating_sub(last)),
            Piece::Text(b" past the last place in core, "),
            Piece::Count(last),
            Piece::Text(b", which --size sets"),
        ]);
    }
}

/// Adds what isn't in core of this size in a source of this language.
pub(crate) fn put_outside_help(
    alloc: Global,
    text: &mut Text,
    language: Language,
    source: &[u8],
    size: u16,
) {
    match outside_of(alloc, language, source, size) {
        Ok(Some(outside)) => put_outside(text, size, outside),
        Ok(None) | Err(_) => text.put(SOMETHING_OUTSIDE),
    }
}

/// What is said if nothing is known of what isn't in core.
const SOMETHING_OUTSIDE: &[u8] = b"a place or an address isn't in core, whose size --size names";

/// The number that a fault is about: that of a line, or how many digits a number has at most.
fn number_in(language: Language, cause: Cause) -> u64 {
    match cause {
        Cause::DeclaredBefore(line)
        | Cause::AnotherArea(line)
        | Cause::DeclaredLate(line)
        | Cause::KnownLate(line) => line,
        Cause::BadOperand(flaw) => u64::from(most_digits(language, flaw)),
        _ => 0,
    }
}

/// What may be meant at a fault, as a source writes it.
fn near_in(cause: &Cause) -> &[u8] {
    match cause {
        Cause::OperationUnknown(Some(near)) => near.trim_ascii_end(),
        Cause::Undeclared(Some(near)) => near.text.trim_ascii_end(),
        _ => &[],
    }
}

/// Adds what a symbol is with this suffix, as in `LOOP with its suffix, LOOP A,`.
fn put_with_suffix(text: &mut Text, word: &[u8], suffix: Option<u8>) {
    match suffix {
        Some(suffix) if word.len() < LABEL_LENGTH => text.put_pieces(&[
            Piece::Text(b" with its suffix, "),
            Piece::Padded(5, word),
            Piece::Byte(suffix),
            Piece::Text(b","),
        ]),
        _ => (),
    }
}

/// Adds what is wrong at a fault of this line, in a few words. In the words `~` is what is in the columns of the fault,
/// `$` the symbol that this is with its suffix, `^` a number, and `|` what may be meant.
pub(crate) fn put_help(
    text: &mut Text,
    language: Language,
    explanation: &Explanation,
    line: &[u8],
    suffix: Option<u8>,
) {
    let columns = explanation.columns;
    let word = word_in(line, columns);
    let words: &[u8] = match explanation.cause {
        Cause::Memory => b"memory was refused",
        Cause::LongLine => b"a line has at most 80 columns",
        Cause::ForeignByte(byte) => return put_foreign(text, byte),
        Cause::LabelMissing => b"the operation needs a label",
        Cause::NoLabel => label_words(columns.column, word),
        Cause::LabelUnwanted => b"the operation takes no label",
        Cause::DeclaredBefore(_) => b"line ^ has the label ~ already",
        Cause::AnotherArea(_) => b"line ^ has ~ already, as an area of another length",
        Cause::OperationDisplaced => b"the operation begins after column 16",
        Cause::OperationUnknown(None) => b"~ isn't an operation",
        Cause::OperationUnknown(Some(_)) => b"~ isn't an operation; did you mean |?",
        Cause::ControlledBefore => b"there is already a CTL",
        Cause::NothingAbove => b"CHAIN must come directly after an instruction or another CHAIN",
        Cause::NoAreas => b"a line without an operation is a field, but no areas are above it",
        Cause::Undeclared(None) => b"~$ isn't the label of any line",
        Cause::Undeclared(Some(_)) => b"~$ isn't the label of any line; did you mean |?",
        Cause::DeclaredLate(_) => {
            b"~ is the label of line ^, but this operation takes only labels of earlier lines"
        }
        Cause::KnownLate(_) => {
            b"~ has its value from line ^ on, but ORG and LTORG need it on an earlier line"
        }
        Cause::OfLiteral => {
            b"~ is an area literal, which isn't placed yet when ORG and LTORG need its address"
        }
        Cause::EndlessChain => b"from ~ on, EQU refers to EQU without end",
        Cause::BadOperand(_) if is_after_comma(line, columns) => {
            b"a blank after the comma ends the operands"
        }
        Cause::BadOperand(flaw) => operand_words(flaw, word, most_digits(language, flaw)),
        Cause::PastArea => b"the field ends after its area",
        Cause::OutOfCore => SOMETHING_OUTSIDE,
        Cause::NoEnd => b"the source ends without END",
        Cause::AfterEnd => b"only comments may follow END",
    };
    for byte in words {
        match *byte {
            b'~' => text.put(word),
            b'$' => put_with_suffix(text, word, suffix),
            b'^' => text.put_number(1, number_in(language, explanation.cause)),
            b'|' => text.put(near_in(&explanation.cause)),
            letter => text.put_byte(letter),
        }
    }
}

/// The column of a line at which a warning of the kind is reported: the first of the field that it is about.
pub fn warning_column(kind: WarningKind) -> u8 {
    match kind {
        WarningKind::UnusedLabel => 6,
        WarningKind::NotFitted
        | WarningKind::Loses(Loss::Card)
        | WarningKind::UnsetIndicator
        | WarningKind::NeverBranches
        | WarningKind::StartsNothing
        | WarningKind::ReadOn(_)
        | WarningKind::Overlaps(_) => 16,
        WarningKind::UnlikeSigns | WarningKind::Loses(Loss::Text) => 21,
        WarningKind::Loses(Loss::Column73) => 73,
    }
}

/// Adds what a warning of the kind means, in a few words. Of places that are filled already it says by which line, and
/// which would have entered its phase before.
fn put_warning_help(text: &mut Text, kind: WarningKind) {
    let words: &[u8] = match kind {
        WarningKind::UnusedLabel => b"no operand names the label",
        WarningKind::NotFitted => b"this machine has no instruction of this operation and length",
        WarningKind::UnsetIndicator => {
            b"no instruction sets the indicator that the branch tests"
        }
        WarningKind::UnlikeSigns => b"a signed literal never equals a number without a sign",
        WarningKind::NeverBranches => b"with this d-character the machine never branches",
        WarningKind::StartsNothing => {
            b"nothing is started here: all is loaded before the program runs"
        }
        WarningKind::ReadOn(place) => {
            text.put(b"no word mark is at ");
            text.put_number(ADDRESS_DIGITS, u64::from(place));
            b": the instruction runs on"
        }
        WarningKind::Overlaps(overlap) => {
            text.put(b"line ");
            text.put_number(1, u64::from(overlap.line));
            text.put(b" fills ");
            text.put_number(ADDRESS_DIGITS, overlap.place as u64);
            text.put(b" already");
            match overlap.entered {
                Some(entry) => {
                    text.put(b": the phase that line ");
                    text.put_number(1, entry);
                    b" should start is overwritten"
                }
                None => b"",
            }
        }
        WarningKind::Loses(Loss::Card) => {
            b"a card for the system that assembled the source is read as a comment"
        }
        WarningKind::Loses(Loss::Text) => {
            b"the text ends at its second at sign: the at sign after a blank is in the remark"
        }
        WarningKind::Loses(Loss::Column73) => {
            b"the operands end with column 72: what follows isn't read"
        }
    };
    text.put(words);
}

/// A text as a string, if it is whole: all pieces of messages are UTF-8.
pub(crate) fn string_of(text: Text) -> Result<String, AllocError> {
    match String::from_utf8(text.into_bytes()?) {
        Ok(string) => Ok(string),
        Err(_) => Err(AllocError),
    }
}

/// Adds the name of a file, and the line and the column of a fault or a warning in it.
pub(crate) fn put_position(text: &mut Text, file: &str, line: u64, column: u8) {
    text.put_pieces(&[
        Piece::Text(file.as_bytes()),
        Piece::Text(b":"),
        Piece::Count(line),
        Piece::Text(b":"),
        Piece::Small(column),
        Piece::Text(b": "),
    ]);
}

/// A line for each warning of the source of this file: `sales.source:4:6: WARNING: ..`.
pub fn warning_lines(
    alloc: Global,
    file: &str,
    warnings: &[Warning],
) -> Result<String, AllocError> {
    let mut lines = Text::new(alloc);
    for warning in warnings {
        put_position(&mut lines, file, warning.line, warning_column(warning.kind));
        lines.put(b"WARNING: ");
        put_warning_help(&mut lines, warning.kind);
        lines.put(b"\n");
    }
    string_of(lines)
}
