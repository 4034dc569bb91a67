//! Operations on fields, and clearing storage.
ghost use Rattle.std.specs.Prelude.{◌≡◌, ◌<◌, ◌||◌, Some, None, IfOk, IfErr, length};
ghost use Rattle.core_1401.specs.Address.{addresses};
ghost use Rattle.std.specs.Result.{ForOk};
ghost use Rattle.fields_1401.specs.Outcome.{stop_of};
ghost use Rattle.cpu_1401.specs.FieldStep.{after_clear, after_comparison};
ghost use Rattle.fields_1401.specs.Compare.{comparison_at};
ghost use Rattle.fields_1401.specs.Marks.{clear_down_at};

use crate::instruction::Instruction;
use crate::machine::Machine;
use crate::marking::clear_down_there;
use fields_1401::{Done, FieldStop, compare_within};
use machine_tables::Stop;

impl Machine {
    /// Takes the registers that an operation on fields left, turns the overflow indicator on if a sum was too large,
    /// and goes on to the next instruction.
    #[inline(always)]
    pub(crate) fn after_field(
        &mut self,
        this: Instruction,
        outcome: Result<Done, FieldStop>,
    ) -> Option<Stop>
        requires next { this.next < addresses }
        requires registers { ForOk outcome (λ done. (done.a < addresses) × (done.b < addresses)) }
        ensures none { IfOk outcome (λ done. result ≡ None) }
        ensures done { IfOk outcome (λ done. self.new ≡ record self.old {
          i = this.next;
          a = done.a;
          b = done.b;
          overflow = self.old.overflow || done.overflow;
        }) }
        ensures stop { IfErr outcome (λ stop. (result ≡ Some (stop_of stop)) × (self.new ≡ self.old)) }
    {
        match outcome {
            Ok(done) => {
                self.i = this.next;
                self.a = done.a;
                self.b = done.b;
                if done.overflow {
                    self.overflow = true;
                }
                None
            }
            Err(stop) => Some(Stop::from(stop)),
        }
    }

    /// Compares the fields and sets the unequal, low and high indicators. An equal result of a compare without an
    /// address leaves them as they are.
    #[inline(always)]
    pub(crate) fn compare(&mut self, this: Instruction) -> Option<Stop>
        requires a { this.a < addresses }
        requires b { this.b < addresses }
        requires next { this.next < addresses }
        requires places { (this.a < length self.old.storage) × (this.b < length self.old.storage) }
        ensures stop { let outcome = comparison_at self.old.storage this.a this.b in
            result ≡ (after_comparison this self.old outcome).stop }
        ensures state { let outcome = comparison_at self.old.storage this.a this.b in
            self.new ≡ (after_comparison this self.old outcome).state }
        ensures size { length self.new.storage ≡ length self.old.storage }
    {
        let done = match compare_within(&self.core, this.a, this.b) {
            Ok(done) => done,
            Err(stop) => return Some(Stop::from(stop)),
        };
        self.i = this.next;
        self.a = done.a;
        self.b = done.b;
        if done.unequal || this.len != 1 {
            self.unequal = done.unequal;
            self.low = done.low;
            self.high = done.high;
        }
        None
    }

    /// Clears storage from the B address down to its hundred. With two addresses it branches to the first, and else the
    /// A register stays.
    #[inline(always)]
    pub(crate) fn clear_storage(&mut self, this: Instruction) -> Option<Stop>
        requires a { this.a < addresses }
        requires b { this.b < addresses }
        requires next { this.next < addresses }
        ensures stop { result ≡ (after_clear this self.old (clear_down_at self.old.storage this.b)).stop }
        ensures state { self.new ≡ (after_clear this self.old (clear_down_at self.old.storage this.b)).state }
        ensures size { length self.new.storage ≡ length self.old.storage }
    {
        let done = match clear_down_there(&mut self.core, &mut self.cache, this.b) {
            Ok(done) => done,
            Err(stop) => return Some(Stop::from(stop)),
        };
        self.branch_if(this.len == 7, done.b, this);
        None
    }
}
