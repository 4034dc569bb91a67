//! What each character adds to the value of an address, by its place there.
ghost use Rattle.std.specs.Prelude.{◌≡◌, ◌<◌, length};
ghost use Rattle.core_1401.specs.AddressTables.{hundreds_part, tens_part, units_part, hundreds_table, tens_table};
ghost use Rattle.core_1401.specs.AddressTables.{units_table};

use bcd_1401::Char;

/// What the first character adds, by its code: hundreds, and a thousand for each zone.
static HUNDREDS: [u16; 64] = [
    0, 100, 200, 300, 400, 500, 600, 700, 800, 900, 0, 300, 400, 500, 600, 700, 1000, 1100, 1200,
    1300, 1400, 1500, 1600, 1700, 1800, 1900, 1000, 1300, 1400, 1500, 1600, 1700, 2000, 2100, 2200,
    2300, 2400, 2500, 2600, 2700, 2800, 2900, 2000, 2300, 2400, 2500, 2600, 2700, 3000, 3100, 3200,
    3300, 3400, 3500, 3600, 3700, 3800, 3900, 3000, 3300, 3400, 3500, 3600, 3700,
];

/// What the second adds: tens.
static TENS: [u16; 64] = [
    0, 10, 20, 30, 40, 50, 60, 70, 80, 90, 0, 30, 40, 50, 60, 70, 0, 10, 20, 30, 40, 50, 60, 70,
    80, 90, 0, 30, 40, 50, 60, 70, 0, 10, 20, 30, 40, 50, 60, 70, 80, 90, 0, 30, 40, 50, 60, 70, 0,
    10, 20, 30, 40, 50, 60, 70, 80, 90, 0, 30, 40, 50, 60, 70,
];

/// What the third adds: units, and four thousand for each zone.
static UNITS: [u16; 64] = [
    0, 1, 2, 3, 4, 5, 6, 7, 8, 9, 0, 3, 4, 5, 6, 7, 4000, 4001, 4002, 4003, 4004, 4005, 4006, 4007,
    4008, 4009, 4000, 4003, 4004, 4005, 4006, 4007, 8000, 8001, 8002, 8003, 8004, 8005, 8006, 8007,
    8008, 8009, 8000, 8003, 8004, 8005, 8006, 8007, 12000, 12001, 12002, 12003, 12004, 12005,
    12006, 12007, 12008, 12009, 12000, 12003, 12004, 12005, 12006, 12007,
];

/// The table of the hundreds.
#[inline(always)]
#[tactic(auto, unfolding(crate::specs::AddressTables::hundreds_table))]
fn hundreds_by_code() -> &'static [u16]
    ensures table { result.now ≡ hundreds_table }
    ensures len { length hundreds_table ≡ 64 }
{
    &HUNDREDS
}

/// What a character adds as the first character of an address.
#[inline(always)]
#[tactic(auto, using(crate::proofs::AddressTableLemmas::hundreds_entry))]
pub(crate) fn hundreds(char: Char) -> u16
    ensures entry { result ≡ hundreds_part char }
    ensures code { char < 64 }
{
    hundreds_by_code()[usize::from(char.code())]
}

/// The table of the tens.
#[inline(always)]
#[tactic(auto, unfolding(crate::specs::AddressTables::tens_table))]
fn tens_by_code() -> &'static [u16]
    ensures table { result.now ≡ tens_table }
    ensures len { length tens_table ≡ 64 }
{
    &TENS
}

/// What a character adds as the second of an address.
#[inline(always)]
#[tactic(auto, using(crate::proofs::AddressTableLemmas::tens_entry))]
pub(crate) fn tens(char: Char) -> u16
    ensures entry { result ≡ tens_part char }
    ensures code { char < 64 }
{
    tens_by_code()[usize::from(char.code())]
}

/// The table of the units.
#[inline(always)]
#[tactic(auto, unfolding(crate::specs::AddressTables::units_table))]
fn units_by_code() -> &'static [u16]
    ensures table { result.now ≡ units_table }
    ensures len { length units_table ≡ 64 }
{
    &UNITS
}

/// What a character adds as the third of an address.
#[inline(always)]
#[tactic(auto, using(crate::proofs::AddressTableLemmas::units_entry))]
pub(crate) fn units(char: Char) -> u16
    ensures entry { result ≡ units_part char }
    ensures code { char < 64 }
{
    units_by_code()[usize::from(char.code())]
}
