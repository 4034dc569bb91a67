//! Numbers in decimal digits.
ghost use Rattle.std.specs.Prelude.{◌≡◌, ◌≤◌, ◌++◌, length, vec_capacity, OnOk, OnErr};
ghost use Rattle.machine_notation.specs.Digits.{digits_in, most_read, number_in};
ghost use Rattle.machine_notation.specs.Room.{LacksRoomFor};

use std::alloc::AllocError;

/// Adds a number, with leading zeros up to the width (own).
///
/// # Errors
///
/// If the memory for the text is refused. Some of the digits may have been added by then.
pub fn put_digits(text: &mut Vec<u8>, width: u8, number: u64) -> Result<(), AllocError>
    ensures text { OnOk result (text.new.items ≡ text.old.items ++ digits_in width number) }

    // Memory is refused only where there is no room.
    ensures full { OnErr result (LacksRoomFor text.old (digits_in width number)) }
    ensures capacity { vec_capacity text.old ≤ vec_capacity text.new }
{
    if width > 1 || number > 9 {
        put_digits(text, width.saturating_sub(1), number / 10)?;
    }
    text.push(b'0' + (number % 10) as u8)?;
    Ok(())
}

/// Adds words, and then a number with leading zeros up to the width (own).
///
/// # Errors
///
/// If the memory for the text is refused. Some of it may have been added by then.
pub fn put_named_digits(
    text: &mut Vec<u8>,
    words: &[u8],
    width: u8,
    number: u64,
) -> Result<(), AllocError>
    ensures text { OnOk result (text.new.items ≡ text.old.items ++ words.now ++ digits_in width number) }
    ensures full { OnErr result (LacksRoomFor text.old (words.now ++ digits_in width number)) }
    ensures capacity { vec_capacity text.old ≤ vec_capacity text.new }
{
    text.extend_from_slice(words)?;
    put_digits(text, width, number)
}

/// The value of up to nine digits, if all of the bytes are digits. Without a digit it is 0.
#[tactic(auto, unfolding(crate::specs::Digits::number_in))]
pub fn read_digits(digits: &[u8]) -> Option<u32>
    requires { length digits.now ≤ most_read }
    ensures { result ≡ number_in digits.now }
{
    let mut number = 0;
    for digit in digits {
        if !digit.is_ascii_digit() {
            return None;
        }
        number = 10 * number + u32::from(*digit - b'0');
    }
    Some(number)
}
