//! The whole machine copied: what one machine did, another needn't do again.
ghost use Rattle.std.specs.Prelude.{◌≡◌, length, IfOk};

use crate::machine::Machine;
use std::alloc::{AllocError, Global};

impl Machine {
    /// Copies all of another machine whose core storage has the same size: storage, registers, indicators, sense
    /// switches, devices and features. It takes no memory.
    pub fn copy_from(&mut self, other: &Machine)
        requires { length self.old.storage ≡ length other.now.storage }
        ensures { self.new ≡ other.now }
    {
        self.core.copy_from(&other.core);
        self.cache.copy_from(&other.cache);
        self.i = other.i;
        self.a = other.a;
        self.b = other.b;
        self.unequal = other.unequal;
        self.low = other.low;
        self.high = other.high;
        self.overflow = other.overflow;
        self.switches = other.switches;
        self.devices.copy_from(&other.devices);
        self.fitted.copy_from(&other.fitted);
        self.chained = other.chained;
    }

    /// Another machine, alike in all that `copy_from` copies.
    ///
    /// # Errors
    ///
    /// If there is no memory for it.
    pub fn copy(&self, alloc: Global) -> Result<Machine, AllocError>
        ensures { IfOk result (λ machine. machine ≡ self.now) }
    {
        let Ok(mut machine) = Machine::power_on(alloc, self.core.size()) else {
            return Err(AllocError);
        };
        machine.copy_from(self);
        Ok(machine)
    }
}
