//! What features make of an instruction that the machine wouldn't carry out without them.
ghost use Rattle.std.specs.Prelude.{◌≡◌, ◌≢◌, ◌+◌, ◌%◌, ◌<◌, ◌≤◌, false, true, length, None, Some, IfSome};
ghost use Rattle.core_1401.specs.Address.{addresses};
ghost use Rattle.cpu_1401.specs.Branch.{go_on};
ghost use Rattle.cpu_1401.specs.Chaining.{again};
ghost use Rattle.cpu_1401.specs.Decoded.{IsAddress};
ghost use Rattle.cpu_1401.specs.DecodedFitted.{SaysFitted};
ghost use Rattle.cpu_1401.specs.Fitting.{after_second, fitted_at, fitted_instruction, fitted_step, perform_fitted};
ghost use Rattle.cpu_1401.specs.FittingLaw.{FittingLaw};
ghost use Rattle.cpu_1401.specs.Step.{step};
ghost use Rattle.cpu_1401.specs.Stepped.{stopped};
ghost use Rattle.machine_tables.specs.declared.fitted.Fitted.{Fitted};

use crate::decoded::Address;
use crate::decoded_fitted::{DecodedFitted, are_plain};
use crate::fetched::count_at;
use crate::instruction::Instruction;
use crate::machine::Machine;
use crate::marking::{divide_there, multiply_there};
use crate::register_steps::put_address;
use crate::tape::{CONTROL_LETTERS, TRANSFER_LETTERS};
use bcd_1401::Char;
use core_1401::ADDRESSES;
use fields_1401::{modify_address, move_record, step_down};
use machine_tables::{Fitted, Stop, fitted_in};

impl Machine {
    /// Carries out the instruction at the I register, which a feature claims.
    #[inline(always)]
    #[tactic(auto, using(crate::proofs::DecodedFittedLemmas::says_fitted_step))]
    pub(crate) fn step_by_feature(&mut self, said: &DecodedFitted) -> Option<Stop>
        requires says { SaysFitted self.old.storage self.old.i self.old.features said.now }
        requires own { said.now.fitted ≢ Fitted.OnCell }
        ensures stop { result ≡ (fitted_step self.old).stop }
        ensures state { self.new ≡ (fitted_step self.old).state }
        ensures size { length self.new.storage ≡ length self.old.storage }
    {
        let this = self.fitted_instruction(said);
        self.perform_fitted(said.fitted, this)
    }

    /// Decodes the instruction at the I register if a feature claims it, and keeps it; `None` if none does, or if it
    /// leaves it as it is. A machine without features refuses the instruction with this stop.
    #[inline(never)]
    pub(crate) fn decode_claimed(&mut self, stop: Stop) -> Option<DecodedFitted>
        requires refused { step self.old ≡ stopped stop self.old }
        ensures says { IfSome result (λ said. SaysFitted self.old.storage self.old.i self.old.features said) }
        ensures own { IfSome result (λ said. said.fitted ≢ Fitted.OnCell) }
        ensures none { result ≡ None → fitted_step self.old ≡ stopped stop self.old }
        ensures same { self.new ≡ self.old }
    {
        let Some(said) = self.decode_fitted() else {
            return None;
        };
        if said.fitted == Fitted::OnCell {
            return None;
        }
        self.fitted.keep(&self.core, self.i, &said);
        Some(said)
    }

    /// What the instruction at the I register says, if one begins there and a feature claims it.
    fn decode_fitted(&self) -> Option<DecodedFitted>
        ensures some { IfSome result (λ said. SaysFitted self.now.storage self.now.i self.now.features said) }
        ensures none { result ≡ None → fitted_at self.now ≡ None }
    {
        if !self.begins() {
            return None;
        }
        let graphic = self.core.get(self.i).char.graphic();
        let len = count_at(&self.core, self.i);
        match fitted_in(self.fitted.features(), graphic, u32::from(len)) {
            Some(fitted) => {
                let (a, b) = self.spelled(len);
                Some(DecodedFitted {
                    fitted,
                    len,
                    d: self.core.get(self.i + len - 1).char,
                    a,
                    b,
                    is_ready: are_plain(len, a, b),
                })
            }
            None => None,
        }
    }

    /// The addresses that an instruction of this length spells: two, or one for both.
    fn spelled(&self, len: u16) -> (Address, Address)
        requires { self.now.i + len ≤ length self.now.storage }
        ensures a { 4 ≤ len → IsAddress self.now.storage (self.now.i + 1) result.0 }
        ensures b { 7 ≤ len → IsAddress self.now.storage (self.now.i + 4) result.1 }
        ensures only { 4 ≤ len → len < 7 → IsAddress self.now.storage (self.now.i + 1) result.1 }
    {
        let a = self.address(self.i + 1, len >= 4);
        if len >= 7 {
            (a, self.address(self.i + 4, true))
        } else {
            (a, a)
        }
    }

    /// The instruction at the I register, which takes its addresses as an addition does.
    #[inline(always)]
    pub(crate) fn fitted_instruction(&self, said: &DecodedFitted) -> Instruction
        requires says { SaysFitted self.now.storage self.now.i self.now.features said.now }
        ensures value { result ≡ fitted_instruction self.now }
        ensures a { result.a < addresses }
        ensures b { result.b < addresses }
        ensures next { result.next < addresses }
    {
        let (a, b) = self.fitted_addresses(said);
        let beyond = self.i + said.len;
        let next = if beyond < ADDRESSES {
            beyond
        } else {
            beyond - ADDRESSES
        };
        Instruction {
            len: said.len,
            a,
            b,
            next,
            d: said.d,
        }
    }

    /// The addresses of an instruction: those that it spells, or the registers as they stand.
    #[inline(always)]
    fn fitted_addresses(&self, said: &DecodedFitted) -> (u16, u16)
        requires says { SaysFitted self.now.storage self.now.i self.now.features said.now }
        ensures a { result.0 ≡ (fitted_instruction self.now).a }
        ensures b { result.1 ≡ (fitted_instruction self.now).b }
        ensures range { (result.0 < addresses) × (result.1 < addresses) }
    {
        if said.is_ready {
            return self.ready_fitted_addresses(said);
        }
        if said.len < 4 {
            return (self.a, self.b);
        }
        let a = self.core.indexed(said.a.value, said.a.register);
        let b = self.core.indexed(said.b.value, said.b.register);
        (a, b)
    }

    /// The same, if its addresses are ready.
    #[inline(always)]
    pub(crate) fn ready_fitted(&self, said: &DecodedFitted, next: u16) -> Instruction
        requires says { SaysFitted self.now.storage self.now.i self.now.features said.now }
        requires ready { said.now.is_ready ≡ true }
        requires next { next ≡ (self.now.i + said.now.len) % addresses }
        ensures value { result ≡ fitted_instruction self.now }
        ensures a { result.a < addresses }
        ensures b { result.b < addresses }
        ensures next { result.next < addresses }
    {
        let (a, b) = self.ready_fitted_addresses(said);
        Instruction {
            len: said.len,
            a,
            b,
            next,
            d: said.d,
        }
    }

    /// The addresses that are ready, as they are spelled.
    #[inline(always)]
    fn ready_fitted_addresses(&self, said: &DecodedFitted) -> (u16, u16)
        requires says { SaysFitted self.now.storage self.now.i self.now.features said.now }
        requires ready { said.now.is_ready ≡ true }
        ensures a { result.0 ≡ (fitted_instruction self.now).a }
        ensures b { result.1 ≡ (fitted_instruction self.now).b }
        ensures range { (result.0 < addresses) × (result.1 < addresses) }
    {
        (said.a.value, said.b.value)
    }

    /// Does what a feature makes of an instruction that it doesn't leave as it is.
    #[inline(always)]
    pub(crate) fn perform_fitted(&mut self, fitted: Fitted, this: Instruction) -> Option<Stop>
        requires own { fitted ≢ Fitted.OnCell }
        requires a { this.a < addresses }
        requires b { this.b < addresses }
        requires next { this.next < addresses }
        ensures stop { result ≡ (perform_fitted fitted this self.old).stop }
        ensures state { self.new ≡ (perform_fitted fitted this self.old).state }
        ensures size { length self.new.storage ≡ length self.old.storage }
    {
        match fitted {
            Fitted::OnCell => unreachable!(),
            Fitted::OnBits => self.branch_on_bits(this),
            Fitted::CharacterAgain => self.branch_on_character(self.again(this)),
            Fitted::CellAgain => self.branch_on_cell(self.again(this)),
            Fitted::BitsAgain => self.bits_again(this),
            Fitted::StoreA => self.store(this, self.a),
            Fitted::StoreB => self.store(this, self.b),
            Fitted::StoreSecond => self.store_second(this),
            Fitted::Halt => self.halt_at_next(this),
            Fitted::Feed => self.go_on(false, this),
            Fitted::Multiply => {
                let outcome = multiply_there(&mut self.core, &mut self.cache, this.a, this.b);
                self.after_field(this, outcome)
            }
            Fitted::Divide => {
                let outcome = divide_there(&mut self.core, &mut self.cache, this.a, this.b);
                self.after_field(this, outcome)
            }
            Fitted::MoveRecord => {
                let outcome = move_record(&mut self.core, this.a, this.b);
                self.after_field(this, outcome)
            }
            Fitted::ModifyAddress => self.modify_address(this),
            Fitted::MoveTape | Fitted::LoadTape => Some(self.tape_stop(TRANSFER_LETTERS, this)),
            Fitted::ControlTape => Some(self.tape_stop(CONTROL_LETTERS, this)),
            Fitted::NoLength => Some(Stop::Length),
        }
    }

    /// Modifies an address.
    #[inline(always)]
    pub(crate) fn modify_address(&mut self, this: Instruction) -> Option<Stop>
        requires a { this.a < addresses }
        requires b { this.b < addresses }
        requires next { this.next < addresses }
        ensures stop { result ≡ (perform_fitted Fitted.ModifyAddress this self.old).stop }
        ensures state { self.new ≡ (perform_fitted Fitted.ModifyAddress this self.old).state }
        ensures unchanged { IfSome result (λ why. self.new ≡ self.old) }
        ensures size { length self.new.storage ≡ length self.old.storage }
    {
        let outcome = modify_address(&mut self.core, this.a, this.b);
        self.after_field(this, outcome)
    }

    /// An instruction with the d-character that was kept.
    fn again(&self, this: Instruction) -> Instruction
        ensures { result ≡ again this self.now }
    {
        let d = if self.fitted.features().lengths {
            self.chained
        } else {
            Char::BLANK
        };
        Instruction { d, ..this }
    }

    /// Carries out a `W` of one character, which a machine without the lengths doesn't have.
    fn bits_again(&mut self, this: Instruction) -> Option<Stop>
        requires a { this.a < addresses }
        requires b { this.b < addresses }
        requires next { this.next < addresses }
        ensures stop { result ≡ (perform_fitted Fitted.BitsAgain this self.old).stop }
        ensures state { self.new ≡ (perform_fitted Fitted.BitsAgain this self.old).state }
        ensures size { length self.new.storage ≡ length self.old.storage }
    {
        if !self.fitted.features().lengths {
            return Some(Stop::Length);
        }
        self.branch_on_bits(self.again(this))
    }

    /// Stores the second address at the first, and leaves it in the B register.
    fn store_second(&mut self, this: Instruction) -> Option<Stop>
        requires a { this.a < addresses }
        requires b { this.b < addresses }
        requires next { this.next < addresses }
        ensures stop { result ≡ (after_second this self.old).stop }
        ensures state { self.new ≡ (after_second this self.old).state }
        ensures size { length self.new.storage ≡ length self.old.storage }
    {
        if !self.core.in_core(this.a) || this.a < 2 {
            return Some(Stop::Address);
        }
        put_address(&mut self.core, this.a, this.b);
        self.i = this.next;
        self.a = step_down(this.a, 3);
        self.b = this.b;
        None
    }

    /// Halts, and goes on at the next instruction.
    fn halt_at_next(&mut self, this: Instruction) -> Option<Stop>
        requires a { this.a < addresses }
        requires next { this.next < addresses }
        ensures stop { result ≡ Some Stop.Halt }
        ensures state { self.new ≡ go_on false this self.old }
    {
        self.go_on(false, this);
        Some(Stop::Halt)
    }
}

/// Does nothing: its contract says what features leave as it was, whatever the machine is fitted with.
#[tactic(auto, using(crate::proofs::FittingLemmas::fitting_laws))]
pub fn fitting_law()
    ensures { FittingLaw }
{}
