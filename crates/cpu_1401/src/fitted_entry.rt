//! An entry of the cache of instructions that features claim.
ghost use Rattle.std.specs.Prelude.{◌≡◌, ◌≢◌, ◌-◌, ◌^◌};
ghost use Rattle.machine_tables.specs.declared.fitted.Fitted.{Fitted};

use crate::decoded::Address;
use crate::decoded_fitted::DecodedFitted;
use bcd_1401::Char;
use machine_tables::Fitted;

/// The codes and the word marks of eight cells, and what features make of the instruction that they are.
#[derive(Clone, Copy)]
pub(crate) struct FittedEntry {
    pub(crate) codes: u64,
    pub(crate) marks: u8,
    pub(crate) decoded: DecodedFitted,
    ghost own: { decoded.fitted ≢ Fitted.OnCell },
}

impl FittedEntry {
    /// The entry that keeps nothing. Its codes are those of no eight characters.
    pub(crate) fn empty() -> FittedEntry
        ensures { result.codes ≡ 2 ^ 64 - 1 }
    {
        let none = Address {
            value: 0,
            register: 0,
        };
        FittedEntry {
            codes: u64::MAX,
            marks: 0,
            decoded: DecodedFitted {
                fitted: Fitted::NoLength,
                len: 1,
                d: Char::BLANK,
                a: none,
                b: none,
                is_ready: false,
            },
        }
    }
}
