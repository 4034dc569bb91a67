//! What characters and word marks are on tape.
ghost use Rattle.std.specs.Prelude.{◌≡◌, ◌<◌, length};
ghost use Rattle.machine_tapes.specs.TapeText.{ends_file, has_marks, is_separator, read_char, written_char};
ghost use Rattle.machine_tapes.specs.Transfer.{ends_record};

use crate::TapeRecord;
use crate::work::TapeMode;
use bcd_1401::{Cell, Char};

/// The code of the A bit alone, which is a blank in even parity.
const EVEN_BLANK: u8 = 16;

/// The code of the word separator, A-8-5.
const SEPARATOR: u8 = 29;

/// The code of the group mark, BA-8-7.
pub(crate) const GROUP_MARK: u8 = 63;

/// The code of the character that a tape mark is, 8-4-2-1.
const MARK: u8 = 15;

impl TapeMode {
    /// Whether word marks are written and read.
    pub(crate) fn has_marks(self) -> bool
        ensures { result ≡ has_marks self }
    {
        match self {
            TapeMode::Move => false,
            TapeMode::Load => true,
        }
    }

    /// Whether a character that is read is a word separator: it is none after another.
    pub(crate) fn is_separator(self, is_marked: bool, char: Char) -> bool
        ensures { result ≡ is_separator self is_marked char }
    {
        self.has_marks() && !is_marked && char.code() == SEPARATOR
    }
}

/// The character of a code.
pub(crate) fn char_of(code: u8) -> Char
    requires { code < 64 }
    ensures { result ≡ code }
{
    Char::from_code(code).unwrap_or(Char::BLANK)
}

/// The word separator.
pub(crate) fn separator() -> Char
    ensures { result ≡ 29 }
{
    char_of(SEPARATOR)
}

/// A character as it is written, in odd parity or in even.
pub(crate) fn written_char(is_odd: bool, char: Char) -> Char
    ensures { result ≡ written_char is_odd char }
{
    if !is_odd && char.code() == 0 {
        char_of(EVEN_BLANK)
    } else {
        char
    }
}

/// A character as it is read.
pub(crate) fn read_char(is_odd: bool, char: Char) -> Char
    ensures { result ≡ read_char is_odd char }
{
    if !is_odd && char.code() == EVEN_BLANK {
        Char::BLANK
    } else {
        char
    }
}

/// Whether a cell ends a record in core: it is a group mark with a word mark.
pub(crate) fn ends_record(cell: Cell) -> bool
    ensures { result ≡ ends_record cell }
{
    cell.char.code() == GROUP_MARK && cell.mark
}

/// Whether a record ends a file: it is a tape mark, or in even parity it begins with the character of one.
pub(crate) fn ends_file(is_odd: bool, tape: &TapeRecord<'_>) -> bool
    requires { 0 < length tape.now }
    ensures { result ≡ ends_file is_odd tape.now }
{
    tape.is_mark() || !is_odd && tape.char(0).code() == MARK
}
