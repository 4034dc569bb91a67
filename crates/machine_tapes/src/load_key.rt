//! The key that loads from tape.
ghost use Rattle.std.specs.Prelude.{◌≡◌, IfSome, length};
ghost use Rattle.machine_tapes.specs.TapeLoading.{loaded_from, loading};

use crate::taped_machine::TapedMachine;
use crate::work::{TapeInstruction, TapeMode, TapeWork};
use cpu_1401::Stop;
use machine_tables::TapeUnit;

/// Where a record is loaded, and where the next instruction is then.
const LOADED_AT: u16 = 1;

impl TapedMachine {
    /// Presses the key that loads from tape, for a unit of 1 to 6: its next record is read in even parity to the places
    /// from 001 up, with word marks, and the next instruction is at 001. Or says why it can't be read: then all is as it
    /// was. A number that no unit has is a unit without a reel.
    #[tactic(auto, using(crate::proofs::LoadLemmas::bare_load, crate::proofs::LoadLemmas::refused_stays))]
    pub fn load_from_tape(&mut self, number: u8) -> Option<Stop>
        ensures stop { result ≡ (loaded_from number self.old).stop }
        ensures taped { self.new ≡ (loaded_from number self.old).taped }
        ensures unchanged { IfSome result (λ why. self.new ≡ self.old) }
        ensures size { length self.new.machine.storage ≡ length self.old.machine.storage }
    {
        if !self.tapes.has_unit(number) {
            return Some(Stop::Tape);
        }
        self.tapes.work(&mut self.machine, loading(number))
    }
}

/// What the key asks of a unit.
pub fn loading(number: u8) -> TapeInstruction
    ensures { result ≡ loading number }
{
    TapeInstruction {
        unit: TapeUnit {
            number,
            is_odd: false,
        },
        work: TapeWork::Read(TapeMode::Load),
        b: LOADED_AT,
        next: LOADED_AT,
    }
}
