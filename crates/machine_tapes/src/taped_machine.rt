//! A machine and its tape units.
ghost use Rattle.std.specs.Prelude.{◌≡◌, IfOk};
ghost use Rattle.machine_tapes.specs.TapedStep.{without_reels};

use crate::tapes::Tapes;
use cpu_1401::Machine;
use std::alloc::{AllocError, Global};

/// A machine and its tape units.
#[derive(Drop)]
pub struct TapedMachine {
    /// The machine.
    pub machine: Machine,
    /// Its tape units.
    pub tapes: Tapes,
}

impl TapedMachine {
    /// A machine whose units have no reels.
    ///
    /// # Errors
    ///
    /// If memory is refused.
    pub fn without_reels(alloc: Global, machine: Machine) -> Result<TapedMachine, AllocError>
        ensures { IfOk result (λ taped. taped ≡ without_reels machine) }
    {
        match Tapes::none(alloc) {
            Ok(tapes) => Ok(TapedMachine { machine, tapes }),
            Err(refused) => Err(refused),
        }
    }
}
