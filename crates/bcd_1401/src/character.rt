//! A character by its code, its zone and its digit.
ghost use Rattle.std.specs.Prelude.{◌≡◌, ◌<◌, ◌≤◌, nat_lt, if◌then◌else◌};
ghost use Rattle.bcd_1401.specs.Character.{zone_of, digit_of, with_zone_of, digit_under};

use std::marker::Model;

/// How many characters there are.
pub const CODES: u8 = 64;

/// One of the 64 characters. Contracts see it as its code, 0 to 63: 32 for bit B, 16 for bit A, and 8, 4, 2, 1.
#[derive(Clone, Copy, Debug, PartialEq, Eq, Hash)]
pub struct Char {
    code: u8,
}

impl Model for Char {
    ghost use Rattle.std.specs.Prelude.{ℕ, ◌<◌};

    ghost Value = { ℕ };

    ghost view = { λ char. char.code };

    ghost invariant = { λ char. char.code < 64 };

    ghost inverse = { λ code. record { code = code } };
}

impl Char {
    /// The blank, code 0.
    pub const BLANK: Char = Char { code: 0 };

    /// The character with this code; none if the code takes more than six bits.
    pub fn from_code(code: u8) -> Option<Char>
        ensures { result ≡ (if nat_lt code 64 then Some code else None) }
    {
        if code < CODES {
            Some(Char { code })
        } else {
            None
        }
    }

    /// The character of a digit under a zone: zero is 8-2.
    pub fn of_digit(digit: u8, zone: u8) -> Char
        requires digit { digit ≤ 9 }
        requires zone { zone < 4 }
        ensures value { result ≡ digit_under zone digit }
        ensures digit { digit_of result ≡ digit }
        ensures zone { zone_of result ≡ zone }
    {
        let low = if digit == 0 { 10 } else { digit };
        Char {
            code: 16 * zone + low,
        }
    }

    /// The code.
    pub fn code(self) -> u8
        ensures value { result ≡ self }
        ensures range { result < 64 }
    {
        self.code
    }

    /// What the character counts as in arithmetic and in an address.
    pub fn digit_value(self) -> u8
        ensures value { result ≡ digit_of self }
        ensures range { result ≤ 9 }
    {
        match self.code % 16 {
            low @ 0..=9 => low,
            10 => 0,
            low => low - 8,
        }
    }

    /// The zone: 0 for none, 1 for A, 2 for B and 3 for both.
    pub fn zone(self) -> u8
        ensures value { result ≡ zone_of self }
        ensures range { result < 4 }
    {
        self.code / 16
    }

    /// The character with the same low bits under another zone.
    pub fn with_zone(self, zone: u8) -> Char
        requires { zone < 4 }
        ensures { result ≡ with_zone_of self zone }
    {
        Char {
            code: 16 * zone + self.code % 16,
        }
    }
}
