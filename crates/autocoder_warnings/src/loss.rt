//! What a line loses: all of it, or operands after a text, or after the last column for them.
ghost use Rattle.std.specs.Prelude.{◌≡◌, ◌≤◌, false, drop, length, take};
ghost use Rattle.std.specs.List.{list_any};
ghost use Rattle.autocoder_statements.specs.Constant.{is_at_sign};
ghost use Rattle.autocoder_warnings.specs.Loss.{operand_columns, operands_len, is_cut, goes_on, loss_of};

use autocoder_statements::is_system_line;

/// What a line loses.
#[derive(Clone, Copy, Debug)]
pub enum Loss {
    /// All that it holds: it is a card for the system that assembled a source, and is read as a comment.
    Card,
    /// What follows a text that ends before another at sign of the line: it is a remark.
    Text,
    /// What is in column 73, after operands that go on up to column 72.
    Column73,
}

/// The width of the operand columns, 21 to 72.
const OPERAND_COLUMNS: usize = 52;

/// What a line has from column 21 on.
fn from_column_21(line: &[u8]) -> &[u8]
    ensures { result.now ≡ drop 20 line.now }
{
    line.get(20..).unwrap_or(&[])
}

/// As much of a text as there are columns for operands.
fn cut_to_operands(text: &[u8]) -> &[u8]
    ensures { result.now ≡ take 52 text.now }
{
    &text[..OPERAND_COLUMNS.min(text.len())]
}

/// What a line has in columns 21 to 72.
fn operand_columns(line: &[u8]) -> &[u8]
    ensures { result.now ≡ operand_columns line.now }
{
    cut_to_operands(from_column_21(line))
}

/// How many columns the operands take: up to the first blank that no two at signs enclose.
fn operands_len(columns: &[u8]) -> usize
    ensures value { result ≡ operands_len false columns.now }
    ensures bound { result ≤ length columns.now }
{
    let mut is_quoted = false;
    for (i, byte) in columns.iter().enumerate() {
        if !is_quoted && *byte == b' ' {
            return i;
        }
        is_quoted ^= *byte == b'@';
    }
    columns.len()
}

/// Whether there is an at sign.
pub(crate) fn has_at_sign(text: &[u8]) -> bool
    ensures { result ≡ list_any is_at_sign text.now }
{
    text.iter().any(|byte| *byte == b'@')
}

/// Whether a text is among the operands, and an at sign in the remark after them.
fn is_cut(columns: &[u8]) -> bool
    ensures { result ≡ is_cut columns.now }
{
    let (operands, remark) = columns.split_at(operands_len(columns));
    has_at_sign(operands) && has_at_sign(remark)
}

/// Whether the operands go on up to column 72, and something is in column 73.
fn goes_on(line: &[u8]) -> bool
    ensures { result ≡ goes_on line.now }
{
    operands_len(operand_columns(line)) == OPERAND_COLUMNS
        && line.get(71).copied().unwrap_or(b' ') != b' '
        && line.get(72).copied().unwrap_or(b' ') != b' '
}

/// What a line loses.
pub(crate) fn loss_of(line: &[u8]) -> Option<Loss>
    ensures { result ≡ loss_of line.now }
{
    if is_system_line(line) {
        Some(Loss::Card)
    } else if goes_on(line) {
        Some(Loss::Column73)
    } else if is_cut(operand_columns(line)) {
        Some(Loss::Text)
    } else {
        None
    }
}
