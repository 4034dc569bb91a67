//! An entry of the decode cache.
ghost use Rattle.std.specs.Prelude.{◌≡◌, ◌≢◌, ◌-◌, ◌^◌, true};
ghost use Rattle.cpu_1401.specs.Decoded.{AlwaysSay};

use crate::decoded::{Address, Addressing, Decoded};
use bcd_1401::Char;
use machine_tables::Operation;

/// The place of an entry that keeps nothing: no address has it.
pub(crate) const NO_PLACE: u16 = u16::MAX;

/// The codes and the word marks of eight cells, the instruction that they are, and the place at which it was decoded,
/// once more if its addresses are ready: 32 bytes.
#[derive(Clone, Copy)]
pub(crate) struct CacheEntry {
    pub(crate) codes: u64,
    pub(crate) decoded: Decoded,
    pub(crate) at: u16,
    /// The same place if the addresses are ready, so that one comparison tells both.
    pub(crate) ready_at: u16,
    pub(crate) marks: u8,
    ghost says: { AlwaysSay codes marks decoded },
    ghost ready_place: { ready_at ≢ 2 ^ 16 - 1 → ready_at ≡ at },
    ghost ready: { ready_at ≢ 2 ^ 16 - 1 → decoded.is_ready ≡ true },
}

impl CacheEntry {
    /// The entry that keeps nothing. Its codes are those of no eight characters.
    pub(crate) fn empty() -> CacheEntry
        ensures { result.at ≡ 2 ^ 16 - 1 }
    {
        let none = Address {
            value: 0,
            register: 0,
        };
        CacheEntry {
            codes: u64::MAX,
            decoded: Decoded {
                operation: Operation::NoOperation,
                len: 1,
                d: Char::BLANK,
                a: none,
                b: none,
                source: Addressing::Unasked,
                is_ready: true,
            },
            at: NO_PLACE,
            ready_at: NO_PLACE,
            marks: 0,
        }
    }
}
