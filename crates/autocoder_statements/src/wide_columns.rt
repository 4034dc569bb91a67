//! The columns of a line as the wider language reads them.
ghost use Rattle.std.specs.Prelude.{◌≡◌, ◌==◌, false, true};
ghost use Rattle.autocoder_statements.specs.WideColumns.{is_word_end, is_separator, capitals, plus_signs_from};
ghost use Rattle.autocoder_statements.specs.WideColumns.{plus_signs};
ghost use Rattle.autocoder_statements.specs.WideColumns.{is_constant_operation, begins_text, is_text_constant, signed};

use crate::columns::{COLUMNS, columns_in, is_comment};

/// Puts capitals for the small letters of columns 6 to 72; a comment stays as it is.
pub(crate) fn put_capitals(columns: &mut [u8; COLUMNS])
    ensures { columns.new ≡ capitals columns.old }
{
    if !is_comment(columns) {
        columns[5..72].make_ascii_uppercase();
    }
}

/// The columns with capitals for the small letters of columns 6 to 72; a comment stays as it is.
pub(crate) fn capitals(columns: &[u8; COLUMNS]) -> [u8; COLUMNS]
    ensures { result ≡ capitals columns.now }
{
    let mut read = *columns;
    put_capitals(&mut read);
    read
}

/// Whether a byte parts two words.
fn is_separator(byte: u8) -> bool
    ensures { result ≡ is_separator byte }
{
    byte == b',' || byte == b' '
}

/// Whether a word ends before this text.
fn is_word_end(text: &[u8]) -> bool
    ensures { result ≡ is_word_end text.now }
{
    match text {
        [first, ..] => is_separator(*first),
        [] => true,
    }
}

/// Puts a plus sign for each `&` that no two at signs enclose and that isn't a word by itself.
fn put_plus_signs(operands: &mut [u8])
    ensures { operands.new ≡ plus_signs_from false true operands.old }
{
    let mut is_quoted = false;
    let mut begins_word = true;
    for i in 0..operands.len() {
        let byte = operands[i];
        if byte == b'&' && !is_quoted && !(begins_word && is_word_end(&operands[i + 1..])) {
            operands[i] = b'+';
        }
        begins_word = !is_quoted && is_separator(byte);
        is_quoted ^= byte == b'@';
    }
}

/// Whether columns 16 to 20 ask for a constant.
pub(crate) fn is_constant_operation(operation: &[u8]) -> bool
    ensures { result ≡ is_constant_operation operation.now }
{
    operation == b"DCW  ".as_slice() || operation == b"DC   ".as_slice()
}

/// Whether columns for operands begin with a text.
pub(crate) fn begins_text(columns: &[u8]) -> bool
    ensures { result ≡ begins_text columns.now }
{
    match columns {
        [first, ..] => *first == b'@',
        [] => false,
    }
}

/// Whether the columns hold a constant that begins as a text does.
fn is_text_constant(columns: &[u8; COLUMNS]) -> bool
    ensures { result ≡ is_text_constant columns.now }
{
    is_constant_operation(columns_in(columns, 16, 20)) && begins_text(columns_in(columns, 21, 72))
}

/// Puts plus signs into operands, unless they are a constant's text.
fn put_signs(is_text: bool, operands: &mut [u8])
    ensures { operands.new ≡ signed is_text operands.old }
{
    if !is_text {
        put_plus_signs(operands);
    }
}

/// The columns with a plus sign for each `&` of columns 21 to 72 that stands for one.
pub(crate) fn plus_signs(columns: &[u8; COLUMNS]) -> [u8; COLUMNS]
    ensures { result ≡ plus_signs columns.now }
{
    let mut read = *columns;
    put_signs(is_text_constant(columns), &mut read[20..72]);
    read
}
