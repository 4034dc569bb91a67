//! What ends a run at a step.
ghost use Rattle.std.specs.Prelude.{◌≡◌, false};
ghost use Rattle.operate_console.specs.Run.{IsUntil};

use cpu_1401::Machine;
use operate_answers::Stops;
use operate_sitting::{Always, Break, Test};

/// An address at which no instruction is.
const NOWHERE: u16 = u16::MAX;

/// What ends a run at a step: it comes to the address up to which the run goes, or it meets a break or a watch.
#[derive(Drop)]
pub struct RunStops {
    /// The address, if there is one.
    pub until: Break<Always>,
    /// The breaks and watches.
    pub stops: Stops,
    /// Whether the last step did so.
    pub is_met: bool,
}

impl RunStops {
    /// Up to this address, if there is one, or to one of these.
    pub(crate) fn new(until: Option<u16>, stops: Stops) -> RunStops
        ensures until { IsUntil until result.until }
        ensures stops { result.stops ≡ stops }
    {
        let address = match until {
            Some(address) => address,
            None => NOWHERE,
        };
        RunStops {
            until: Break::new(address, Always),
            stops,
            is_met: false,
        }
    }
}

impl Test for RunStops {
    ghost use Rattle.operate_console.specs.Run.{ends_begun, ends_seen};

    ghost begun = { λ it s. ends_begun it s };

    ghost seen = { λ it s. ends_seen it s };

    ghost is_met = { λ it. it.is_met };

    fn begin(&mut self, machine: &Machine) {
        self.until.begin(machine);
        self.stops.begin(machine);
        self.is_met = false;
    }

    fn see(&mut self, machine: &Machine) -> bool {
        let has_come = self.until.see(machine);
        let meets = self.stops.see(machine);
        self.is_met = has_come || meets;
        self.is_met
    }
}
