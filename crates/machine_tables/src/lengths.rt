//! The lengths of instructions, and how many characters of one are looked at.
ghost use Rattle.std.specs.Prelude.{◌≡◌, ◌==◌, ◌<◌, ◌≤◌};
ghost use Rattle.std.specs.List.{list_any};
ghost use Rattle.machine_tables.specs.Row.{lengths_in, looked_at};

use bcd_1401::Char;

/// The lengths that instructions have. An address takes three characters.
#[derive(Clone, Copy, PartialEq, Eq)]
pub(crate) enum Lengths {
    /// None at all.
    NoLength,
    /// 1 and 4: no address, or one.
    ToOne,
    /// 1, 4 and 7: no address, one or two.
    ToTwo,
    /// 4: one address.
    One,
    /// 4, 5 and 8: one address; one or two and a d-character.
    OneOrD,
    /// 2 and 5: a d-character, and no address or one.
    WithD,
    /// 1, 2, 4 and 5: no address or one, and a d-character or none.
    MayHaveD,
    /// 8: two addresses and a d-character.
    TwoAndD,
    /// 1 to 8.
    ToEight,
}

impl Lengths {
    /// Whether this is one of them.
    pub(crate) fn has(self, len: u32) -> bool
        ensures { result ≡ list_any (λ each. each == len) (lengths_in self) }
    {
        match self {
            Lengths::NoLength => false,
            Lengths::ToOne => len == 1 || len == 4,
            Lengths::ToTwo => len == 1 || len == 4 || len == 7,
            Lengths::One => len == 4,
            Lengths::OneOrD => len == 4 || len == 5 || len == 8,
            Lengths::WithD => len == 2 || len == 5,
            Lengths::MayHaveD => len == 1 || len == 2 || len == 4 || len == 5,
            Lengths::TwoAndD => len == 8,
            Lengths::ToEight => 1 <= len && len <= 8,
        }
    }
}

/// How many characters of an instruction are looked at.
#[derive(Clone, Copy, PartialEq, Eq)]
pub(crate) enum Looked {
    /// Up to eight.
    Eight,
    /// Up to seven.
    Seven,
    /// Four before a blank, and else up to eight.
    ByFifth,
}

impl Looked {
    /// How many characters are looked at, by the fifth of them.
    pub(crate) fn up_to(self, fifth: Char) -> u16
        ensures value { result ≡ looked_at self fifth }
        ensures some { 0 < result }
        ensures most { result ≤ 8 }
    {
        match self {
            Looked::Eight => 8,
            Looked::Seven => 7,
            Looked::ByFifth => { if fifth == Char::BLANK { 4 } else { 8 } }
        }
    }
}
