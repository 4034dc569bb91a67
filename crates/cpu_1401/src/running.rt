//! Steps until the machine stops.
ghost use Rattle.std.specs.Prelude.{◌≡◌, ◌<◌, ◌≤◌, length};
ghost use Rattle.cpu_1401.specs.Run.{carried_out_by, most_steps, run_for};

use crate::machine::Machine;
use machine_tables::Stop;

/// How a run ended.
#[derive(Clone, Copy, Debug, PartialEq, Eq)]
pub struct Ran {
    /// How many instructions were carried out, a halt included.
    pub steps: u32,
    /// Why it ended.
    pub stop: Stop,
}

impl Machine {
    /// Carries out instructions until one stops the machine, or until this many were carried out, from 1 to 1,000,000.
    /// That is the stop LIMIT, unless the last one was a halt.
    #[inline(never)]
    pub fn run(&mut self, limit: u32) -> Ran
        requires some { 0 < limit }
        requires most { limit ≤ most_steps }
        ensures run { run_for limit self.old ≡ record { state = self.new; steps = result.steps; stop = result.stop } }

        ensures size { length self.new.storage ≡ length self.old.storage }

        // The limit is met exactly.
        ensures most { result.steps ≤ limit }
        ensures limit { result.stop ≡ Stop.Limit → result.steps ≡ limit }
    {
        // Counted down, which takes the host less than up.
        let mut left = limit;
        while left > 0 {
            if let Some(stop) = self.step() {
                return Ran {
                    steps: limit - left + carried_out(stop),
                    stop,
                };
            }
            left -= 1;
        }
        Ran {
            steps: limit,
            stop: Stop::Limit,
        }
    }
}

/// How many instructions a step that stops the machine has carried out: a halt is carried out, and nothing else is.
fn carried_out(stop: Stop) -> u32
    ensures value { result ≡ carried_out_by stop }
    ensures most { result ≤ 1 }
{
    match stop {
        Stop::Halt => 1,
        Stop::Limit
        | Stop::Reader
        | Stop::Forms
        | Stop::Stacker
        | Stop::NoMark
        | Stop::OpCode
        | Stop::Length
        | Stop::Address
        | Stop::Overlap
        | Stop::Carriage
        | Stop::NotFitted
        | Stop::DChar
        | Stop::Tape => 0,
    }
}
