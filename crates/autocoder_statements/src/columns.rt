//! The columns of a line.
ghost use Rattle.std.specs.Prelude.{◌≡◌, ◌+◌, ◌-◌, ◌<◌, ◌≤◌, ◌==◌, length, drop, slice_range};
ghost use Rattle.std.specs.List.{list_all, position_or_len, prefix_len};
ghost use Rattle.autocoder_statements.specs.SourceLine.{padded, columns_of, columns_in, is_blank, is_printable};
ghost use Rattle.autocoder_statements.specs.SourceLine.{is_graphic};
ghost use Rattle.autocoder_statements.specs.SourceLine.{is_comment, has_foreign_bytes};

use memchr::memchr;

/// How many columns a line has.
pub const COLUMNS: usize = 80;

/// A text, filled up with blanks.
pub(crate) fn padded<const N: usize>(text: &[u8]) -> [u8; N]
    requires { length text.now ≤ N }
    ensures { result ≡ padded N text.now }
{
    let mut padded = [b' '; N];
    padded[..text.len()].copy_from_slice(text);
    padded
}

/// The columns of a line. A shorter line goes on in blanks; of a longer one these are the first 80.
#[tactic(auto, unfolding(crate::specs::SourceLine::columns_of))]
pub(crate) fn columns_of(line: &[u8]) -> [u8; COLUMNS]
    ensures { result ≡ columns_of line.now }
{
    padded(&line[..line.len().min(COLUMNS)])
}

/// The columns from one to another, counted from 1.
pub(crate) fn columns_in(columns: &[u8; COLUMNS], first: usize, last: usize) -> &[u8]
    requires first { 1 ≤ first }
    requires order { first ≤ last }
    requires last { last ≤ 80 }
    ensures value { result.now ≡ columns_in first last columns.now }
    ensures count { length result.now ≡ last + 1 - first }
{
    &columns[first - 1..last]
}

/// How many bytes of a text come before the first of this value.
#[tactic(auto, using(crate::proofs::SourceLineLemmas::before_byte))]
pub(crate) fn bytes_before(byte: u8, text: &[u8]) -> usize
    ensures value { result ≡ position_or_len (λ each. each == byte) text.now }
    ensures bound { result ≤ length text.now }
{
    memchr(byte, text).unwrap_or(text.len())
}

/// How many blanks a text begins with.
pub(crate) fn blanks_in_front(text: &[u8]) -> usize
    ensures value { result ≡ prefix_len is_blank text.now }
    ensures bound { result ≤ length text.now }
{
    let mut count = 0;
    while count < text.len() && text[count] == b' ' {
        count += 1;
    }
    count
}

/// A text without its first byte.
pub(crate) fn without_first(text: &[u8]) -> &[u8]
    ensures value { result.now ≡ drop 1 text.now }
    ensures bound { length result.now ≤ length text.now }
{
    match text {
        [_, more @ ..] => more,
        [] => &[],
    }
}

/// Whether the bytes are blanks.
pub(crate) fn are_blank(text: &[u8]) -> bool
    ensures { result ≡ list_all is_blank text.now }
{
    blanks_in_front(text) == text.len()
}

/// Whether a byte can be printed: 32 to 126.
pub(crate) fn is_printable(byte: u8) -> bool
    ensures { result ≡ is_printable byte }
{
    byte >= b' ' && byte <= b'~'
}

/// Whether the bytes can be printed. None of them ends the loop, so that it takes sixteen at a time.
#[tactic(auto, using(std::proofs::lemmas::List::Folds::list_all_more))]
pub(crate) fn are_printable(text: &[u8]) -> bool
    ensures { result ≡ list_all is_printable text.now }
{
    let mut all = true;
    for byte in text {
        all &= is_printable(*byte);
    }
    all
}

/// Whether a byte is the graphic of a character: those are the bytes 32 to 95.
#[tactic(auto, using(crate::proofs::GraphicLemmas::graphic_by_range))]
pub(crate) fn is_graphic(byte: u8) -> bool
    ensures { result ≡ is_graphic byte }
{
    byte >= b' ' && byte <= b'_'
}

/// Whether the bytes are graphics of characters. None of them ends the loop, so that it takes sixteen at a time.
pub(crate) fn are_graphics(text: &[u8]) -> bool
    ensures { result ≡ list_all is_graphic text.now }
{
    let mut all = true;
    for byte in text {
        all &= is_graphic(*byte);
    }
    all
}

/// Whether a line is a comment: it has an asterisk in column 6, or blanks alone.
pub(crate) fn is_comment(columns: &[u8; COLUMNS]) -> bool
    ensures { result ≡ is_comment columns.now }
{
    columns[5] == b'*' || are_blank(columns)
}

/// Whether a column holds a byte that can't stand there.
pub(crate) fn has_foreign_bytes(columns: &[u8; COLUMNS]) -> bool
    ensures { result ≡ has_foreign_bytes columns.now }
{
    if is_comment(columns) {
        !are_printable(columns)
    } else {
        !are_printable(columns_in(columns, 1, 5))
            || !are_graphics(columns_in(columns, 6, 72))
            || !are_printable(columns_in(columns, 73, 80))
    }
}
