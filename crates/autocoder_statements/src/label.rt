//! Labels.
ghost use Rattle.std.specs.Prelude.{◌≡◌, ◌≤◌, length, slice_index};
ghost use Rattle.std.specs.List.{prefix_len, list_all};
ghost use Rattle.bcd_1401.specs.Digits.{is_digit};
ghost use Rattle.autocoder_statements.specs.Label.{is_letter, is_letter_or_digit, register_of, may_be_label, is_label};
ghost use Rattle.autocoder_statements.specs.Label.{label_of, label_in, place_in};

use crate::columns::{are_blank, bytes_before, padded};
use crate::language::Language;
use crate::numbers::short_number;

/// The most letters and digits that a label may have.
pub const LABEL_LENGTH: usize = 6;

/// A label: a letter and up to five letters or digits; in the plain language not the name of an index register.
#[derive(Clone, Copy, PartialEq, Eq, Hash)]
pub struct Label {
    /// The letters and digits, filled up with blanks.
    pub text: [u8; 6],
}

/// What columns 6 to 15 of a line say.
#[derive(Clone, Copy)]
pub enum LabelField {
    /// They are blank.
    Absent,
    /// They hold something that is no label.
    Malformed,
    /// They hold a label.
    Label(Label),
}

/// Whether a byte is a letter.
pub(crate) fn is_letter(byte: u8) -> bool
    ensures { result ≡ is_letter byte }
{
    byte >= b'A' && byte <= b'Z'
}

/// Whether a byte is a digit.
pub(crate) fn is_digit(byte: u8) -> bool
    ensures { result ≡ is_digit byte }
{
    byte >= b'0' && byte <= b'9'
}

/// Whether a byte is a letter or a digit.
pub(crate) fn is_letter_or_digit(byte: u8) -> bool
    ensures { result ≡ is_letter_or_digit byte }
{
    is_letter(byte) || is_digit(byte)
}

/// The number of the index register that a word names, if it names one.
pub(crate) fn register_of(word: &[u8]) -> Option<u8>
    ensures { result ≡ register_of word.now }
{
    if word == b"X1".as_slice() {
        Some(1)
    } else if word == b"X2".as_slice() {
        Some(2)
    } else if word == b"X3".as_slice() {
        Some(3)
    } else {
        None
    }
}

/// Whether a language lets a word be a label that has the form of one.
fn may_be_label(language: Language, word: &[u8]) -> bool
    ensures { result ≡ may_be_label language word.now }
{
    match language {
        Language::Plain => register_of(word).is_none(),
        Language::Ibm => true,
    }
}

/// Whether a text begins with a letter.
pub(crate) fn begins_with_letter(text: &[u8]) -> bool
    ensures { result ≡ is_letter (slice_index text.now 0) }
{
    match text {
        [first, ..] => is_letter(*first),
        [] => false,
    }
}

/// How many letters and digits a text begins with.
pub(crate) fn letters_and_digits_in_front(text: &[u8]) -> usize
    ensures value { result ≡ prefix_len is_letter_or_digit text.now }
    ensures bound { result ≤ length text.now }
{
    let mut count = 0;
    while count < text.len() && is_letter_or_digit(text[count]) {
        count += 1;
    }
    count
}

/// How many digits a text begins with.
pub(crate) fn digits_in_front(text: &[u8]) -> usize
    ensures value { result ≡ prefix_len is_digit text.now }
    ensures bound { result ≤ length text.now }
{
    let mut count = 0;
    while count < text.len() && is_digit(text[count]) {
        count += 1;
    }
    count
}

/// Whether the bytes are letters and digits.
fn are_letters_and_digits(text: &[u8]) -> bool
    ensures { result ≡ list_all is_letter_or_digit text.now }
{
    letters_and_digits_in_front(text) == text.len()
}

/// Whether the bytes are digits.
pub(crate) fn are_digits(text: &[u8]) -> bool
    ensures { result ≡ list_all is_digit text.now }
{
    digits_in_front(text) == text.len()
}

/// Whether a word is a label.
fn is_label(language: Language, word: &[u8]) -> bool
    ensures { result ≡ is_label language word.now }
{
    if word.len() > LABEL_LENGTH || !may_be_label(language, word) {
        return false;
    }
    begins_with_letter(word) && are_letters_and_digits(word)
}

impl Label {
    /// The label that a word is, if it is one.
    pub(crate) fn from_word(language: Language, word: &[u8]) -> Option<Label>
        ensures { result ≡ label_of language word.now }
    {
        if is_label(language, word) {
            Some(Label { text: padded(word) })
        } else {
            None
        }
    }
}

impl LabelField {
    /// What the columns for a label say.
    pub(crate) fn from_columns(language: Language, columns: &[u8]) -> LabelField
        ensures { result ≡ label_in language columns.now }
    {
        let (word, beyond) = columns.split_at(bytes_before(b' ', columns));
        if !are_blank(beyond) {
            return LabelField::Malformed;
        }
        if word.is_empty() {
            return LabelField::Absent;
        }
        match Label::from_word(language, word) {
            Some(label) => LabelField::Label(label),
            None => LabelField::Malformed,
        }
    }
}

/// The place that the columns for a label say, if they hold a number of one to five digits from the first of them on.
pub(crate) fn place_in(columns: &[u8]) -> Option<u32>
    ensures { result ≡ place_in columns.now }
{
    let (word, beyond) = columns.split_at(bytes_before(b' ', columns));
    if are_blank(beyond) {
        short_number(word)
    } else {
        None
    }
}
