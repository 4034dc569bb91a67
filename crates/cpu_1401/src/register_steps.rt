//! Address registers stored.
ghost use Rattle.std.specs.Prelude.{◌≡◌, ◌+◌, ◌-◌, ◌<◌, ◌≤◌, length};
ghost use Rattle.core_1401.specs.Address.{addresses, value_at};
ghost use Rattle.cpu_1401.specs.RegisterStep.{after_store, stored};
ghost use Rattle.fields_1401.specs.Places.{marks_of};

use crate::instruction::Instruction;
use crate::machine::Machine;
use core_1401::{Core, encode};
use fields_1401::step_down;
use machine_tables::Stop;

impl Machine {
    /// Stores an address in the three places that end at the A address. The word marks there stay, and so does the zone
    /// over the tens.
    #[inline(always)]
    pub(crate) fn store(&mut self, this: Instruction, address: u16) -> Option<Stop>
        requires a { this.a < addresses }
        requires next { this.next < addresses }
        requires address { address < addresses }
        ensures stop { result ≡ (after_store address this self.old).stop }
        ensures state { self.new ≡ (after_store address this self.old).state }
        ensures size { length self.new.storage ≡ length self.old.storage }
    {
        if !self.core.in_core(this.a) || this.a < 2 {
            return Some(Stop::Address);
        }
        put_address(&mut self.core, this.a, address);
        self.i = this.next;
        self.a = step_down(this.a, 3);
        None
    }
}

/// Puts the spelling of an address in the three places that end at one.
pub(crate) fn put_address(core: &mut Core, at: u16, address: u16)
    requires inside { at < length core.old }
    requires three { 2 ≤ at }
    requires address { address < addresses }
    ensures value { core.new ≡ stored core.old at address }
    ensures marks { marks_of core.new ≡ marks_of core.old }
    ensures size { length core.new ≡ length core.old }

    // What is stored is read again as this address.
    ensures again { value_at core.new (at - 2) ≡ address }
{
    let [hundreds, tens, units] = encode(address);
    let zone = core.get(at - 1).char.zone();
    core.put_char(at - 2, hundreds);
    core.put_char(at - 1, tens.with_zone(zone));
    core.put_char(at, units);
}
