//! Characters on tapes of either parity.
ghost use Rattle.std.specs.Prelude.{◌≡◌};
ghost use Rattle.program_convert.specs.Parity.{read_as, taped};

use bcd_1401::Char;
use program_arguments::Parity;

/// The character that stands for a blank on a tape of even parity: bit A alone.
const A_ALONE: u8 = 16;

/// The character that is on tape for this one.
pub(crate) fn taped(parity: Parity, char: Char) -> Char
    ensures { result ≡ taped parity char }
{
    if parity == Parity::Even && char.code() == 0 {
        return Char::from_code(A_ALONE).unwrap_or(Char::BLANK);
    }
    char
}

/// The character as which this one is read from tape.
pub(crate) fn read_as(parity: Parity, char: Char) -> Char
    ensures { result ≡ read_as parity char }
{
    if parity == Parity::Even && char.code() == A_ALONE {
        return Char::BLANK;
    }
    char
}
