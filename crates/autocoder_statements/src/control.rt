//! The operands of CTL, SFX and CHAIN.
ghost use Rattle.std.specs.Prelude.{◌≡◌};
ghost use Rattle.autocoder_statements.specs.Numbers.{number_between};
ghost use Rattle.autocoder_statements.specs.Description.{is_malformed_size, is_malformed_suffix};
ghost use Rattle.autocoder_statements.specs.Control.{size_by, size_in, suffix_of, suffix_in, chain_in};

use crate::label::is_letter_or_digit;
use crate::numbers::number_between;
use crate::operands::{is_ended, lone_operand};
use crate::statement::{Chain, SizeField, SuffixField};

impl SizeField {
    /// What a column of CTL says.
    fn from_column(column: u8) -> SizeField
        ensures { result ≡ size_by column }
    {
        match column {
            b' ' => SizeField::Absent,
            b'1' => SizeField::Size(1_400),
            b'2' => SizeField::Size(2_000),
            b'3' => SizeField::Size(4_000),
            b'4' => SizeField::Size(8_000),
            b'5' => SizeField::Size(12_000),
            b'6' => SizeField::Size(16_000),
            _ => SizeField::Malformed,
        }
    }

    /// Whether it is no size, and yet not nothing.
    pub(crate) fn is_malformed(self) -> bool
        ensures { result ≡ is_malformed_size self }
    {
        matches!(self, SizeField::Malformed)
    }

    /// What the columns for operands say.
    pub(crate) fn from_columns(columns: &[u8]) -> SizeField
        ensures { result ≡ size_in columns.now }
    {
        match columns {
            [_, column, ..] => SizeField::from_column(*column),
            _ => SizeField::Malformed,
        }
    }
}

impl SuffixField {
    /// The suffix that a word is.
    fn from_word(word: &[u8]) -> SuffixField
        ensures { result ≡ suffix_of word.now }
    {
        match word {
            [graphic] if is_letter_or_digit(*graphic) => SuffixField::Suffix(*graphic),
            _ => SuffixField::Malformed,
        }
    }

    /// Whether it is no suffix, and yet not nothing.
    pub(crate) fn is_malformed(self) -> bool
        ensures { result ≡ is_malformed_suffix self }
    {
        matches!(self, SuffixField::Malformed)
    }

    /// What the columns for operands say.
    pub(crate) fn from_columns(columns: &[u8]) -> SuffixField
        ensures { result ≡ suffix_in columns.now }
    {
        if is_ended(columns) {
            SuffixField::Absent
        } else {
            SuffixField::from_word(lone_operand(columns))
        }
    }
}

/// How many times an operand says that an operation is repeated.
fn times_of(word: &[u8]) -> Option<u8>
    ensures { result ≡ number_between 1 99 word.now }
{
    match number_between(1, 99, word) {
        Some(count) => Some(count as u8),
        None => None,
    }
}

impl Chain {
    /// What the columns for operands say.
    pub(crate) fn from_columns(columns: &[u8]) -> Chain
        ensures { result ≡ chain_in columns.now }
    {
        Chain {
            operation: None,
            count: times_of(lone_operand(columns)),
        }
    }
}
