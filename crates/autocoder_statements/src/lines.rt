//! The lines of a source.
ghost use Rattle.std.specs.Prelude.{◌≡◌, ◌<◌, [], ◌∷◌, length, MatchOption};
ghost use Rattle.autocoder_statements.specs.SourceLine.{without_return, lines_of};

use crate::columns::bytes_before;

/// A line without the carriage return at its end, if it has one.
fn without_return(line: &[u8]) -> &[u8]
    ensures { result.now ≡ without_return line.now }
{
    match line.last() {
        Some(b'\r') => &line[..line.len() - 1],
        _ => line,
    }
}

/// The first line of a source and what follows it; none if the source is empty. A line ends before a line feed, and a
/// carriage return there isn't part of it. Bytes after the last line feed are a line too.
pub fn split_line(source: &[u8]) -> Option<(&[u8], &[u8])>
    ensures { MatchOption result (source.now ≡ []) (λ first.
        (lines_of source.now ≡ first.0.now ∷ lines_of first.1.now) × (length first.1.now < length source.now)) }
{
    if source.is_empty() {
        return None;
    }
    let count = bytes_before(b'\n', source);
    if count == source.len() {
        return Some((source, &[]));
    }
    Some((without_return(&source[..count]), &source[count + 1..]))
}
