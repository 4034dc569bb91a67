//! Branches, and what goes on at an address.
ghost use Rattle.std.specs.Prelude.{◌≡◌, ◌==◌, ◌<◌, None, Some, length};
ghost use Rattle.core_1401.specs.Address.{addresses};
ghost use Rattle.cpu_1401.specs.Branch.{after_look, branch_if, branch_on, condition_of, go_on, is_so};
ghost use Rattle.cpu_1401.specs.Chaining.{keeping_d, kept_branch, on_bits, on_cell, on_character};
ghost use Rattle.fields_1401.specs.Outcome.{below_by};

use crate::condition::{Condition, passes};
use crate::instruction::Instruction;
use crate::machine::Machine;
use fields_1401::step_down;
use machine_tables::Stop;

impl Machine {
    /// Carries out a `B`: of four characters it branches always, of five on a condition, and of eight if the character
    /// at the B address is the d-character.
    #[inline(always)]
    pub(crate) fn branch(&mut self, this: Instruction) -> Option<Stop>
        requires a { this.a < addresses }
        requires b { this.b < addresses }
        requires next { this.next < addresses }
        ensures stop { result ≡ (kept_branch this self.old).stop }
        ensures state { self.new ≡ (kept_branch this self.old).state }
        ensures size { length self.new.storage ≡ length self.old.storage }
    {
        if this.len == 4 {
            self.branch_if(true, this.b, this);
            return None;
        }
        if this.len == 5 {
            self.branch_on(this);
            return None;
        }
        self.branch_on_character(this)
    }

    /// Branches if the character at the B address is the d-character, word mark or not.
    #[inline(always)]
    pub(crate) fn branch_on_character(&mut self, this: Instruction) -> Option<Stop>
        requires a { this.a < addresses }
        requires b { this.b < addresses }
        requires next { this.next < addresses }
        ensures stop { result ≡ (on_character this self.old).stop }
        ensures state { self.new ≡ (on_character this self.old).state }
        ensures size { length self.new.storage ≡ length self.old.storage }
    {
        if !self.core.in_core(this.b) {
            return Some(Stop::Address);
        }
        let is_equal = self.core.get(this.b).char == this.d;
        self.branch_by_cell(is_equal, this);
        None
    }

    /// Carries out a `V`: it branches if the cell at the B address has the word mark or the zone that the
    /// d-character looks for.
    #[inline(always)]
    pub(crate) fn branch_on_cell(&mut self, this: Instruction) -> Option<Stop>
        requires a { this.a < addresses }
        requires b { this.b < addresses }
        requires next { this.next < addresses }
        ensures stop { result ≡ (on_cell this self.old).stop }
        ensures state { self.new ≡ (on_cell this self.old).state }
        ensures size { length self.new.storage ≡ length self.old.storage }
    {
        if !self.core.in_core(this.b) {
            return Some(Stop::Address);
        }
        let is_met = passes(this.d, self.core.get(this.b));
        self.branch_by_cell(is_met, this);
        None
    }

    /// Branches if the character at the B address and the d-character have a bit in common; the word mark is none.
    pub(crate) fn branch_on_bits(&mut self, this: Instruction) -> Option<Stop>
        requires a { this.a < addresses }
        requires b { this.b < addresses }
        requires next { this.next < addresses }
        ensures stop { result ≡ (on_bits this self.old).stop }
        ensures state { self.new ≡ (on_bits this self.old).state }
        ensures size { length self.new.storage ≡ length self.old.storage }
    {
        if !self.core.in_core(this.b) {
            return Some(Stop::Address);
        }
        let common = self.core.get(this.b).char.code() & this.d.code();
        self.branch_by_cell(common != 0, this);
        None
    }

    /// Takes a branch by a cell or passes it by, and keeps its d-character for a branch of one character.
    #[inline(always)]
    #[tactic(auto, using(crate::proofs::ChainingLemmas::kept_before))]
    fn branch_by_cell(&mut self, taken: bool, this: Instruction)
        requires a { this.a < addresses }
        requires b { this.b < addresses }
        requires next { this.next < addresses }
        ensures { self.new ≡ keeping_d this.d (branch_if taken (below_by this.b 1) this self.old) }
    {
        let d = this.d;
        self.chained = d;
        self.branch_if(taken, step_down(this.b, 1), this);
    }

    /// Branches on the condition that the d-character stands for. The overflow indicator is turned off by its test.
    #[inline(always)]
    fn branch_on(&mut self, this: Instruction)
        requires a { this.a < addresses }
        requires b { this.b < addresses }
        requires next { this.next < addresses }
        ensures { self.new ≡ branch_on (condition_of this.d) this self.old }
    {
        let Some(condition) = Condition::from_char(this.d) else {
            self.branch_if(false, this.b, this);
            return;
        };
        let is_so = self.is_so(condition);
        self.look_at(condition);
        self.branch_if(is_so, this.b, this);
    }

    /// Leaves the machine as it is after a look at a condition: the overflow indicator is turned off by its test.
    #[inline(always)]
    fn look_at(&mut self, condition: Condition)
        ensures { self.new ≡ after_look self.old condition }
    {
        match condition {
            Condition::Overflow => self.overflow = false,
            Condition::Unequal => {}
            Condition::Equal => {}
            Condition::Low => {}
            Condition::High => {}
            Condition::LastCard => {}
            Condition::SwitchOn(_) => {}
            Condition::ChannelNine => {}
            Condition::ChannelTwelve => {}
        }
    }

    /// Whether the condition of a branch is so.
    #[inline(always)]
    fn is_so(&self, condition: Condition) -> bool
        ensures { result ≡ is_so self.now condition }
    {
        match condition {
            Condition::Unequal => self.unequal,
            Condition::Equal => !self.unequal,
            Condition::Low => self.low,
            Condition::High => self.high,
            Condition::Overflow => self.overflow,
            Condition::LastCard => self.switches[0] && self.devices.hopper() == 0,
            Condition::SwitchOn(name) => self.switches[usize::from(name.number())],
            Condition::ChannelNine => self.devices.at_channel(9),
            Condition::ChannelTwelve => self.devices.at_channel(12),
        }
    }

    /// Takes the branch to the A address, with the next instruction's place in the B register; or passes it by, with
    /// this in the B register. The A register holds the branch address in either case.
    #[inline(always)]
    pub(crate) fn branch_if(&mut self, taken: bool, b: u16, this: Instruction)
        requires a { this.a < addresses }
        requires b { b < addresses }
        requires next { this.next < addresses }
        ensures { self.new ≡ branch_if taken b this self.old }
    {
        self.a = this.a;
        if taken {
            self.i = this.a;
            self.b = this.next;
        } else {
            self.i = this.next;
            self.b = b;
        }
    }

    /// Goes on at the address, as a branch does, or at the next instruction with the registers as they stand.
    #[inline(always)]
    pub(crate) fn go_on(&mut self, has_address: bool, this: Instruction) -> Option<Stop>
        requires a { this.a < addresses }
        requires next { this.next < addresses }
        ensures stop { result ≡ None }
        ensures state { self.new ≡ go_on has_address this self.old }
    {
        if has_address {
            self.branch_if(true, this.next, this);
        } else {
            self.i = this.next;
        }
        None
    }

    /// Halts, and goes on at the address or at the next instruction.
    #[inline(always)]
    pub(crate) fn halt(&mut self, this: Instruction) -> Option<Stop>
        requires a { this.a < addresses }
        requires next { this.next < addresses }
        ensures stop { result ≡ Some Stop.Halt }
        ensures state { self.new ≡ go_on (this.len == 4) this self.old }
    {
        self.go_on(this.len == 4, this);
        Some(Stop::Halt)
    }
}
