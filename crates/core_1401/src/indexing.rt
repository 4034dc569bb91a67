//! Addresses in core storage, with index registers.
ghost use Rattle.std.specs.Prelude.{◌≡◌, ◌+◌, ◌*◌, ◌<◌, length};
ghost use Rattle.bcd_1401.specs.Character.{zone_of};
ghost use Rattle.core_1401.specs.Address.{addresses, value_at, effective_at, indexed_by};
ghost use Rattle.core_1401.specs.Storage.{cell_at};

use crate::address::{ADDRESSES, decode};
use crate::storage::Core;

impl Core {
    /// The address that the three characters from this place on stand for, below 16,000: their value, and with a zone
    /// over the tens the value of that index register added, modulo 16,000. The zone over the register's own tens
    /// counts for nothing.
    #[inline]
    pub fn effective(&self, at: u16) -> u16
        requires { at + 2 < length self.now }
        ensures value { result ≡ effective_at self.now at }
        ensures range { result < addresses }
    {
        let (value, number) = self.decode_at(at);
        self.indexed(value, number)
    }

    /// The address of this value, and with the number of an index register, 1 to 3, that register's value added, modulo
    /// 16,000. The number 0 is for none.
    #[inline]
    pub fn indexed(&self, value: u16, number: u8) -> u16
        requires value { value < addresses }
        requires number { number < 4 }
        ensures value { result ≡ indexed_by self.now value number }
        ensures range { result < addresses }
    {
        if number == 0 {
            return value;
        }
        // Core storage of any size has the index registers.
        let _ = self.size();
        let (index, _) = self.decode_at(index_register(number));
        let sum = value + index;
        if sum < ADDRESSES {
            sum
        } else {
            sum - ADDRESSES
        }
    }

    /// The value and the index register of the three characters from a place on.
    #[inline]
    pub fn decode_at(&self, at: u16) -> (u16, u8)
        requires { at + 2 < length self.now }
        ensures value { result.0 ≡ value_at self.now at }
        ensures index { result.1 ≡ zone_of (cell_at self.now (at + 1)).char }
        ensures range { result.0 < addresses }
        ensures registers { result.1 < 4 }
    {
        // No core storage is so large that a place above another has no address.
        let _ = self.size();
        decode([
            self.get(at).char,
            self.get(at + 1).char,
            self.get(at + 2).char,
        ])
    }
}

/// The first place of index register 1, 2 or 3: 087, 092 or 097.
fn index_register(number: u8) -> u16
    ensures { result ≡ 5 * number + 82 }
{
    5 * u16::from(number) + 82
}
