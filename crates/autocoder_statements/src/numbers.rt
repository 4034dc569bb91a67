//! The numbers of operands.
ghost use Rattle.std.specs.Prelude.{◌≡◌, ◌-◌, ◌<◌, ◌≤◌, IfSome, if◌then◌else◌};
ghost use Rattle.bcd_1401.specs.Digits.{is_digit};
ghost use Rattle.autocoder_statements.specs.Numbers.{number_between, greatest_number, short_number};

/// The most digits that a number of an address may have.
const ADDRESS_DIGITS: usize = 5;

/// The greatest number of five digits.
const GREATEST_NUMBER: u32 = 99_999;

/// The value of a digit, if the byte is one.
fn digit(byte: u8) -> Option<u8>
    ensures value { result ≡ (if is_digit byte then Some (byte - 48) else None) }
    ensures range { IfSome result (λ digit. digit < 10) }
{
    match byte {
        b'0'..=b'9' => Some(byte - b'0'),
        _ => None,
    }
}

/// The number that a word of digits, as many as there are, writes, if it is between the two bounds.
pub(crate) fn number_between(least: u32, most: u32, word: &[u8]) -> Option<u32>
    requires { most ≤ greatest_number }
    ensures value { result ≡ number_between least most word.now }
    ensures bound { IfSome result (λ number. number ≤ most) }
{
    if word.is_empty() {
        return None;
    }
    let mut number = 0;
    for byte in word {
        let digit = digit(*byte)?;
        number = 10 * number + u32::from(digit);
        if number > most {
            return None;
        }
    }
    if number < least { None } else { Some(number) }
}

/// The number of an address that a word is: one to five digits.
pub(crate) fn short_number(word: &[u8]) -> Option<u32>
    ensures value { result ≡ short_number word.now }
    ensures bound { IfSome result (λ number. number ≤ greatest_number) }
{
    if word.len() > ADDRESS_DIGITS {
        return None;
    }
    number_between(0, GREATEST_NUMBER, word)
}
