//! The tape units of a machine.
ghost use Rattle.std.specs.Prelude.{◌≡◌, ◌≢◌, ◌<◌, ◌≤◌, IfOk, IfSome, false, length, true};
ghost use Rattle.core_1401.specs.Address.{addresses};
ghost use Rattle.cpu_1401.specs.Run.{carried_out_by};
ghost use Rattle.machine_tables.specs.TapeUnit.{tape_units};
ghost use Rattle.machine_tapes.specs.Drive.{mounted_on, no_reel};
ghost use Rattle.machine_tapes.specs.TapedStep.{after_work};
ghost use Rattle.machine_tapes.specs.Tapes.{is_latched, no_tapes, unit_of, with_unit, without_latch};
ghost use Rattle.machine_tapes.specs.Transfer.{work_at};
ghost use Rattle.machine_tapes.specs.declared.taped_machine.TapedMachine.{TapedMachine};

use crate::Reel;
use crate::drive::Drive;
use crate::work::TapeInstruction;
use crate::working::work_at;
use cpu_1401::{Machine, Stop};
use machine_tables::TAPE_UNITS;
use std::alloc::{AllocError, Global};
use std::marker::Model;

/// The six tape units of a machine, and which of them was selected last.
#[derive(Drop)]
pub struct Tapes {
    units: Vec<Drive>,
    selected: u8,
}

impl Model for Tapes {
    ghost use Rattle.std.specs.Prelude.{◌≡◌, ◌≤◌, length};
    ghost use Rattle.machine_tables.specs.TapeUnit.{tape_units};
    ghost use Rattle.machine_tapes.specs.Tapes.{Tapes};

    ghost Value = { Tapes };

    ghost view = { λ tapes. record { units = tapes.units.items; selected = tapes.selected } };

    ghost invariant = { λ tapes. (length tapes.units.items ≡ tape_units) × (tapes.selected ≤ tape_units) };
}

impl Tapes {
    /// Six units without a reel. A reel brings its own memory, and no other call takes any.
    ///
    /// # Errors
    ///
    /// If memory is refused.
    pub fn none(alloc: Global) -> Result<Tapes, AllocError>
        ensures { IfOk result (λ tapes. tapes ≡ no_tapes) }
    {
        let units = units_without_reels(alloc)?;
        Ok(Tapes { units, selected: 0 })
    }

    /// Mounts a reel on a unit, 1 to 6, with the ring that allows writing or without it. The unit is ready then, and a
    /// reel that was on it is gone.
    pub fn mount(&mut self, number: u8, reel: Reel, has_ring: bool)
        requires least { 1 ≤ number }
        requires most { number ≤ tape_units }
        ensures { self.new ≡ with_unit number (mounted_on reel has_ring) self.old }
    {
        self.units[usize::from(number) - 1] = Drive {
            reel,
            has_ring,
            is_ready: true,
            latch: false,
        };
    }

    /// A unit, 1 to 6.
    pub fn unit(&self, number: u8) -> &Drive
        requires least { 1 ≤ number }
        requires most { number ≤ tape_units }
        ensures { result.now ≡ unit_of self.now number }
    {
        &self.units[usize::from(number) - 1]
    }

    /// The number of the unit that was selected last; 0 if none was.
    pub fn selected(&self) -> u8
        ensures value { result ≡ self.now.selected }
        ensures most { result ≤ tape_units }
    {
        self.selected
    }

    /// Whether there is a unit of this number: 1 to 6.
    #[tactic(auto, using(crate::proofs::UnitLemmas::no_unit))]
    pub fn has_unit(&self, number: u8) -> bool
        ensures none { result ≡ false → unit_of self.now number ≡ no_reel }
        ensures least { result ≡ true → 1 ≤ number }
        ensures most { result ≡ true → number ≤ tape_units }
    {
        let _ = &self.units;
        1 <= number && number <= TAPE_UNITS
    }

    /// Whether the selected unit is ready, and met the end of a file since a branch asked for it.
    pub(crate) fn is_latched(&self) -> bool
        ensures { result ≡ is_latched self.now }
    {
        if self.selected == 0 {
            return false;
        }
        let drive = self.unit(self.selected);
        drive.is_ready && drive.latch
    }

    /// Turns the latch of the selected unit off.
    pub(crate) fn unlatch(&mut self)
        requires { is_latched self.old ≡ true }
        ensures { self.new ≡ without_latch self.old }
    {
        let drive = &mut self.units[usize::from(self.selected) - 1];
        drive.latch = false;
    }

    /// Carries out a tape instruction, which selects its unit, or says why it can't: then all is as it was.
    pub(crate) fn work(&mut self, machine: &mut Machine, this: TapeInstruction) -> Option<Stop>
        requires least { 1 ≤ this.unit.number }
        requires most { this.unit.number ≤ tape_units }
        requires b { this.b < addresses }
        requires next { this.next < addresses }
        ensures stop { let t : TapedMachine = record { machine = machine.old; tapes = self.old } in
            result ≡ (after_work this t (work_at this machine.old (unit_of self.old this.unit.number))).stop }
        ensures taped { let t : TapedMachine = record { machine = machine.old; tapes = self.old } in
            let u : TapedMachine = record { machine = machine.new; tapes = self.new } in
            u ≡ (after_work this t (work_at this machine.old (unit_of self.old this.unit.number))).taped }
        ensures refused { IfSome result (λ why. carried_out_by why ≡ 0) }
        ensures no_limit { IfSome result (λ why. why ≢ Stop.Limit) }
        ensures size { length machine.new.storage ≡ length machine.old.storage }
    {
        let drive = &mut self.units[usize::from(this.unit.number) - 1];
        match work_at(machine, drive, this) {
            Some(why) => Some(why),
            None => {
                self.selected = this.unit.number;
                None
            }
        }
    }
}

/// Six units without a reel.
fn units_without_reels(alloc: Global) -> Result<Vec<Drive>, AllocError>
    ensures { IfOk result (λ units. units.items ≡ no_tapes.units) }
{
    let mut units = Vec::new(alloc);
    for i in 0..TAPE_UNITS {
        units.push(Drive::without_reel(alloc)?)?;
    }
    Ok(units)
}
