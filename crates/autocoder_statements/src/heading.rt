//! JOB and ENT, by which a source in the wider language is headed, and cards for the system that assembled it.
ghost use Rattle.std.specs.Prelude.{◌≡◌};
ghost use Rattle.std.specs.List.{list_any};
ghost use Rattle.std.specs.Str.{str_eq_ignore_ascii_case};
ghost use Rattle.autocoder_statements.specs.Heading.{is_job, names_autocoder, is_job_line, has_wide_foreign_bytes};
ghost use Rattle.autocoder_statements.specs.Heading.{wide_bytes_with};
ghost use Rattle.autocoder_statements.specs.Heading.{system_cards, is_system_card, is_wide_comment, is_system_line};

use crate::columns::{
    COLUMNS, are_graphics, are_printable, columns_in, columns_of, has_foreign_bytes, is_comment,
};
use crate::nearness::word_in;
use crate::statement::LineCheck;

/// Whether the columns for an operation ask for a heading.
fn is_job(operation: &[u8]) -> bool
    ensures { result ≡ is_job operation.now }
{
    operation == b"JOB  ".as_slice()
}

/// Whether the operand of ENT names the assembler that there is.
pub(crate) fn names_autocoder(operands: &[u8]) -> bool
    ensures { result ≡ names_autocoder operands.now }
{
    word_in(operands) == b"AUTOCODER".as_slice()
}

/// Whether a line is a heading.
pub(crate) fn is_job_line(columns: &[u8; COLUMNS]) -> bool
    ensures { result ≡ is_job_line columns.now }
{
    !is_comment(columns) && is_job(columns_in(columns, 16, 20))
}

/// Whether a column holds a byte that can't stand there in the wider language.
fn has_wide_foreign_bytes(columns: &[u8; COLUMNS]) -> bool
    ensures { result ≡ has_wide_foreign_bytes columns.now }
{
    if is_job_line(columns) {
        !are_printable(columns_in(columns, 1, 5))
            || !are_graphics(columns_in(columns, 6, 20))
            || !are_printable(columns_in(columns, 21, 80))
    } else {
        has_foreign_bytes(columns)
    }
}

/// Columns 16 to 20 of cards for the system: AUTOCODER RUN, the assignment of units, remarks for the operator, and the
/// librarian's.
static SYSTEM_CARDS: [[u8; 5]; 7] = [
    *b"RUN  ", *b"ASGN ", *b"LOG  ", *b"NOTE ", *b"HEADR", *b"INSER", *b"DELET",
];

/// The cards for the system.
#[tactic(auto, unfolding(crate::specs::Heading::system_cards))]
fn system_cards() -> &'static [[u8; 5]]
    ensures { result.now ≡ system_cards }
{
    &SYSTEM_CARDS
}

/// Whether the columns for an operation are those of a card for the system.
fn is_system_card(operation: &[u8]) -> bool
    ensures { result ≡ is_system_card operation.now }
{
    system_cards()
        .iter()
        .any(|card| card.as_slice() == operation)
}

/// The same with small letters or capitals.
fn is_card_in_any_case(operation: &[u8]) -> bool
    ensures { result ≡ list_any (λ card. str_eq_ignore_ascii_case operation.now card) system_cards }
{
    system_cards()
        .iter()
        .any(|card| operation.eq_ignore_ascii_case(card))
}

/// Whether columns, which have capitals already, are read as a comment in the wider language.
pub(crate) fn is_wide_comment(columns: &[u8; COLUMNS]) -> bool
    ensures { result ≡ is_wide_comment columns.now }
{
    is_comment(columns) || is_system_card(columns_in(columns, 16, 20))
}

/// Whether a line, which is no comment, is a card for the system that assembled a source, and is read as a comment in
/// the wider language: AUTOCODER RUN, ASGN, LOG, NOTE, HEADR, INSER or DELET.
pub fn is_system_line(line: &[u8]) -> bool
    ensures { result ≡ is_system_line line.now }
{
    let columns = columns_of(line);
    !is_comment(&columns) && is_card_in_any_case(columns_in(&columns, 16, 20))
}

impl LineCheck {
    /// Whether a line of this length with these columns can be a line of the wider language.
    pub(crate) fn of_wide(len: usize, columns: &[u8; COLUMNS]) -> LineCheck
        ensures { result ≡ wide_bytes_with len columns.now }
    {
        if len > COLUMNS {
            LineCheck::Long
        } else if has_wide_foreign_bytes(columns) {
            LineCheck::Foreign
        } else {
            LineCheck::Good
        }
    }
}
