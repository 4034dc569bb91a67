//! One step of the machine: the instruction, cached or decoded, then what the operation does.
ghost use Rattle.std.specs.Prelude.{◌≡◌, ◌≢◌, ◌+◌, ◌%◌, ◌<◌, ◌&&◌, false, true, length, None, Some, IfSome, IfOk, IfErr};
ghost use Rattle.core_1401.specs.Storage.{is_in_core};
ghost use Rattle.core_1401.specs.Address.{addresses};
ghost use Rattle.cpu_1401.specs.Chaining.{perform_keeping};
ghost use Rattle.cpu_1401.specs.Fitting.{fitted_step};
ghost use Rattle.cpu_1401.specs.Instruction.{instruction_of};
ghost use Rattle.cpu_1401.specs.NeededPlaces.{HasPlaces};
ghost use Rattle.cpu_1401.specs.Step.{perform, step};
ghost use Rattle.cpu_1401.specs.Decoded.{Says, Serve};
ghost use Rattle.cpu_1401.specs.Stepped.{stopped};
ghost use Rattle.machine_tables.specs.Features.{no_features};

use crate::decoded::{Addressing, Decoded, has_b};
use crate::instruction::Instruction;
use crate::io_request::CardWork;
use crate::machine::Machine;
use crate::marking::{clear_marks_there, edit_there, load_there, set_marks_there, suppress_there};
use core_1401::ADDRESSES;
use fields_1401::{
    add_within, move_chars_within, move_digit_within, move_zone_within, subtract_within,
    zero_add_within, zero_subtract_within,
};
use machine_tables::{Fitted, Operation, Stop};

impl Machine {
    /// Carries out the instruction at the I register, as far as the machine is fitted for it, or says why it can't. A
    /// halt is carried out; any other stop leaves the machine as it was.
    #[inline(always)]
    pub fn step(&mut self) -> Option<Stop>
        ensures stop { result ≡ (fitted_step self.old).stop }
        ensures state { self.new ≡ (fitted_step self.old).state }

        // With nothing fitted it is the step of a machine without features.
        ensures plain_stop { self.old.features ≡ no_features → result ≡ (step self.old).stop }
        ensures plain_state { self.old.features ≡ no_features → self.new ≡ (step self.old).state }

        // A stop that is no halt leaves the machine as it was.
        ensures unchanged { IfSome result (λ why. why ≢ Stop.Halt → self.new ≡ self.old) }

        // The limit is that of a run, and no step's.
        ensures limit { result ≢ Some Stop.Limit }
        ensures size { length self.new.storage ≡ length self.old.storage }
    {
        let machine = &*self;
        let fetched = match machine.cache.find_ready(&machine.core, machine.i) {
            Some(said) => {
                let next = machine.i + said.len;
                (said.operation, machine.ready_instruction(said, next))
            }
            None => match self.fetch() {
                Ok(fetched) => fetched,
                Err(outcome) => return outcome,
            },
        };
        self.perform_fetched(fetched)
    }

    /// The operation and the instruction at the I register, cached or decoded: what is asked if no addresses are ready.
    /// If it can't be carried out, or a feature has carried it out, it is what the step comes to. Features are asked
    /// only if no plain instruction is cached, so a step by a cached one costs no more with features than without.
    #[inline(always)]
    fn fetch(&mut self) -> Result<(Operation, Instruction), Option<Stop>>
        ensures ok { IfOk result (λ fetched. fitted_step self.old ≡ perform_keeping fetched.0 fetched.1 self.old) }
        ensures a { IfOk result (λ fetched. fetched.1.a < addresses) }
        ensures b { IfOk result (λ fetched. fetched.1.b < addresses) }
        ensures next { IfOk result (λ fetched. fetched.1.next < addresses) }
        ensures places { IfOk result (λ fetched.
            HasPlaces fetched.0 fetched.1.a fetched.1.b (length self.old.storage)) }
        ensures same { IfOk result (λ fetched. self.new ≡ self.old) }
        ensures stop { IfErr result (λ stop. stop ≡ (fitted_step self.old).stop) }
        ensures state { IfErr result (λ stop. self.new ≡ (fitted_step self.old).state) }
        ensures size { length self.new.storage ≡ length self.old.storage }
    {
        let machine = &*self;
        match machine.cache.find(&machine.core, machine.i) {
            Some(said) => {
                let next = machine.i + said.len;
                match machine.with_places(said.operation, machine.instruction(said, next)) {
                    Ok(fetched) => Ok(fetched),
                    Err(stop) => Err(Some(stop)),
                }
            }
            None => self.fetch_anew(),
        }
    }

    /// The same, if no plain instruction is cached. It stands between a step and the decoding so that a step makes room
    /// for the result only if it decodes.
    #[inline(always)]
    fn fetch_anew(&mut self) -> Result<(Operation, Instruction), Option<Stop>>
        ensures ok { IfOk result (λ fetched. fitted_step self.old ≡ perform_keeping fetched.0 fetched.1 self.old) }
        ensures a { IfOk result (λ fetched. fetched.1.a < addresses) }
        ensures b { IfOk result (λ fetched. fetched.1.b < addresses) }
        ensures next { IfOk result (λ fetched. fetched.1.next < addresses) }
        ensures places { IfOk result (λ fetched.
            HasPlaces fetched.0 fetched.1.a fetched.1.b (length self.old.storage)) }
        ensures same { IfOk result (λ fetched. self.new ≡ self.old) }
        ensures stop { IfErr result (λ stop. stop ≡ (fitted_step self.old).stop) }
        ensures state { IfErr result (λ stop. self.new ≡ (fitted_step self.old).state) }
        ensures size { length self.new.storage ≡ length self.old.storage }
    {
        if self.modify_ready() {
            return Err(None);
        }
        match self.instruction_anew() {
            Ok(fetched) => Ok(fetched),
            Err(stop) => Err(stop),
        }
    }

    /// Carries out the instruction at the I register, and says so, if it is cached as one that modifies an address, its
    /// own addresses are ready and all of its places are in core. A function of its own, so that the host saves few
    /// registers for it.
    #[inline(never)]
    fn modify_ready(&mut self) -> bool
        ensures stop { result ≡ true → (fitted_step self.old).stop ≡ None }
        ensures state { result ≡ true → self.new ≡ (fitted_step self.old).state }
        ensures same { result ≡ false → self.new ≡ self.old }
        ensures size { length self.new.storage ≡ length self.old.storage }
    {
        let machine = &*self;
        let Some(said) = machine.fitted.find(&machine.core, machine.i) else {
            return false;
        };
        if !said.is_ready || said.fitted != Fitted::ModifyAddress {
            return false;
        }
        let next = machine.i + said.len;
        let this = machine.ready_fitted(said, next);
        self.modify_address(this).is_none()
    }

    /// The same, apart from a step.
    #[cold]
    #[inline(never)]
    fn instruction_anew(&mut self) -> Result<(Operation, Instruction), Option<Stop>>
        ensures ok { IfOk result (λ fetched. fitted_step self.old ≡ perform_keeping fetched.0 fetched.1 self.old) }
        ensures a { IfOk result (λ fetched. fetched.1.a < addresses) }
        ensures b { IfOk result (λ fetched. fetched.1.b < addresses) }
        ensures next { IfOk result (λ fetched. fetched.1.next < addresses) }
        ensures places { IfOk result (λ fetched.
            HasPlaces fetched.0 fetched.1.a fetched.1.b (length self.old.storage)) }
        ensures same { IfOk result (λ fetched. self.new ≡ self.old) }
        ensures stop { IfErr result (λ stop. stop ≡ (fitted_step self.old).stop) }
        ensures state { IfErr result (λ stop. self.new ≡ (fitted_step self.old).state) }
        ensures size { length self.new.storage ≡ length self.old.storage }
    {
        let machine = &*self;
        let said = match machine.fitted.find(&machine.core, machine.i) {
            Some(said) => *said,
            None => match self.decoded_instruction() {
                Ok(fetched) => return Ok(fetched),
                Err(stop) => match self.decode_claimed(stop) {
                    Some(said) => said,
                    None => return Err(Some(stop)),
                },
            },
        };
        Err(self.step_by_feature(&said))
    }

    /// The operation and the instruction at the I register, decoded anew, or why a machine without features can't carry
    /// it out.
    #[inline(never)]
    fn decoded_instruction(&mut self) -> Result<(Operation, Instruction), Stop>
        ensures ok { IfOk result (λ fetched. fitted_step self.old ≡ perform_keeping fetched.0 fetched.1 self.old) }
        ensures a { IfOk result (λ fetched. fetched.1.a < addresses) }
        ensures b { IfOk result (λ fetched. fetched.1.b < addresses) }
        ensures next { IfOk result (λ fetched. fetched.1.next < addresses) }
        ensures places { IfOk result (λ fetched.
            HasPlaces fetched.0 fetched.1.a fetched.1.b (length self.old.storage)) }
        ensures err { IfErr result (λ stop. step self.old ≡ stopped stop self.old) }
        ensures same { self.new ≡ self.old }
    {
        let said = self.decode_anew()?;
        let beyond = self.i + said.len;
        let next = if beyond < ADDRESSES {
            beyond
        } else {
            beyond - ADDRESSES
        };
        self.with_places(said.operation, self.instruction(&said, next))
    }

    /// Decodes the instruction at the I register and keeps it, or says why it can't be carried out.
    fn decode_anew(&mut self) -> Result<Decoded, Stop>
        ensures ok { IfOk result (λ said. Says self.old.storage self.old.i said) }
        ensures err { IfErr result (λ stop. step self.old ≡ stopped stop self.old) }
        ensures same { self.new ≡ self.old }
    {
        let said = self.decode()?;
        self.cache.keep(&self.core, self.i, &said);
        Ok(said)
    }

    /// What is carried out, unless the operation needs both addresses to be those of places, and one isn't.
    #[inline(always)]
    #[tactic(auto, using(crate::proofs::NeededPlacesLemmas::refused_outside))]
    fn with_places(
        &self,
        operation: Operation,
        this: Instruction,
    ) -> Result<(Operation, Instruction), Stop>
        ensures ok { IfOk result (λ fetched. (fetched.0 ≡ operation) × (fetched.1 ≡ this)) }
        ensures places { IfOk result (λ fetched.
            HasPlaces fetched.0 fetched.1.a fetched.1.b (length self.now.storage)) }
        ensures err { IfErr result (λ stop. perform operation this self.now ≡ stopped stop self.now) }
    {
        if !self.are_places(this.a, this.b) && operation.needs_places() {
            return Err(Stop::Address);
        }
        Ok((operation, this))
    }

    /// Whether both addresses are those of places.
    #[inline(always)]
    fn are_places(&self, a: u16, b: u16) -> bool
        ensures { result ≡ is_in_core self.now.storage a && is_in_core self.now.storage b }
    {
        self.core.in_core(a) && self.core.in_core(b)
    }

    /// What is carried out for the instruction at the I register if its addresses are ready.
    #[inline(always)]
    fn ready_instruction(&self, said: &Decoded, next: u16) -> Instruction
        requires says { Says self.now.storage self.now.i said.now }
        requires ready { said.now.is_ready ≡ true }
        requires next { next ≡ (self.now.i + said.now.len) % addresses }
        ensures serves { perform said.now.operation result self.now ≡ perform said.now.operation
            (instruction_of said.now.operation said.now.len self.now) self.now }
        ensures fitted { fitted_step self.now ≡ perform_keeping said.now.operation result self.now }
        ensures a { result.a < addresses }
        ensures b { result.b < addresses }
        ensures next { result.next < addresses }
        ensures ready { (result.a ≡ said.now.a.value) × (result.b ≡ said.now.b.value) }
    {
        let (a, b) = self.ready_addresses(said);
        Instruction {
            len: said.len,
            a,
            b,
            next,
            d: said.d,
        }
    }

    /// What is carried out for the instruction at the I register, by what it says itself, by the registers and by index
    /// registers.
    #[inline(always)]
    fn instruction(&self, said: &Decoded, next: u16) -> Instruction
        requires says { Says self.now.storage self.now.i said.now }
        requires next { next ≡ (self.now.i + said.now.len) % addresses }
        ensures serves { perform said.now.operation result self.now ≡ perform said.now.operation
            (instruction_of said.now.operation said.now.len self.now) self.now }
        ensures fitted { fitted_step self.now ≡ perform_keeping said.now.operation result self.now }
        ensures a { result.a < addresses }
        ensures b { result.b < addresses }
        ensures next { result.next < addresses }
    {
        let (a, b) = if said.source == Addressing::OnlyA {
            self.only_a_address(said)
        } else {
            self.addresses(said)
        };
        Instruction {
            len: said.len,
            a,
            b,
            next,
            d: said.d,
        }
    }

    /// The addresses that are ready: both as they are spelled, or at least those that are asked for.
    #[inline(always)]
    #[tactic(auto, using(crate::proofs::DecodedLemmas::ready_serve))]
    fn ready_addresses(&self, said: &Decoded) -> (u16, u16)
        requires says { Says self.now.storage self.now.i said.now }
        requires ready { said.now.is_ready ≡ true }
        ensures serve { Serve self.now said.now result.0 result.1 }
        ensures range { (result.0 < addresses) × (result.1 < addresses) }
        ensures ready { (result.0 ≡ said.now.a.value) × (result.1 ≡ said.now.b.value) }
    {
        (said.a.value, said.b.value)
    }

    /// An only address for the A register, and the B register as it stands.
    #[inline(always)]
    #[tactic(auto, using(crate::proofs::DecodedLemmas::only_a_serves))]
    fn only_a_address(&self, said: &Decoded) -> (u16, u16)
        requires says { Says self.now.storage self.now.i said.now }
        requires only { said.now.source ≡ Addressing.OnlyA }
        ensures serve { Serve self.now said.now result.0 result.1 }
        ensures range { (result.0 < addresses) × (result.1 < addresses) }
    {
        (said.a.value, self.b)
    }

    /// The addresses by index registers or none, and the registers as they are if it has none.
    #[inline(always)]
    #[tactic(auto, using(crate::proofs::DecodedLemmas::own_serve))]
    fn addresses(&self, said: &Decoded) -> (u16, u16)
        requires says { Says self.now.storage self.now.i said.now }
        ensures serve { Serve self.now said.now result.0 result.1 }
        ensures range { (result.0 < addresses) × (result.1 < addresses) }
    {
        (self.a_address(said), self.b_address(said))
    }

    /// What the instruction has for its A address: its own, or the A register as it stands.
    #[inline(always)]
    #[tactic(auto, using(crate::proofs::DecodedLemmas::effective_is))]
    fn a_address(&self, said: &Decoded) -> u16
        requires { Says self.now.storage self.now.i said.now }
        ensures value { result ≡ (instruction_of said.now.operation said.now.len self.now).a }
        ensures range { result < addresses }
    {
        if said.len >= 4 {
            self.core.indexed(said.a.value, said.a.register)
        } else {
            self.a
        }
    }

    /// What it has for its B address: its own, or its only one if that is for both registers, or the B register as it
    /// stands.
    #[inline(always)]
    #[tactic(auto, using(crate::proofs::DecodedLemmas::effective_is))]
    fn b_address(&self, said: &Decoded) -> u16
        requires { Says self.now.storage self.now.i said.now }
        ensures value { result ≡ (instruction_of said.now.operation said.now.len self.now).b }
        ensures range { result < addresses }
    {
        if has_b(said.operation, said.len) {
            self.core.indexed(said.b.value, said.b.register)
        } else {
            self.b
        }
    }

    /// Does what was fetched. The instruction is made anew of its parts, so that these alone are carried along, and no
    /// gap between them.
    #[inline(always)]
    fn perform_fetched(&mut self, fetched: (Operation, Instruction)) -> Option<Stop>
        requires a { fetched.1.a < addresses }
        requires b { fetched.1.b < addresses }
        requires next { fetched.1.next < addresses }
        requires places { HasPlaces fetched.0 fetched.1.a fetched.1.b (length self.old.storage) }
        ensures stop { result ≡ (perform_keeping fetched.0 fetched.1 self.old).stop }
        ensures state { self.new ≡ (perform_keeping fetched.0 fetched.1 self.old).state }
        ensures size { length self.new.storage ≡ length self.old.storage }
    {
        let (operation, Instruction { len, a, b, next, d }) = fetched;
        self.perform(operation, Instruction { len, a, b, next, d })
    }

    /// Does what the operation does, with both addresses those of places if it needs that.
    #[inline(always)]
    fn perform(&mut self, operation: Operation, this: Instruction) -> Option<Stop>
        requires a { this.a < addresses }
        requires b { this.b < addresses }
        requires next { this.next < addresses }
        requires places { HasPlaces operation this.a this.b (length self.old.storage) }
        ensures stop { result ≡ (perform_keeping operation this self.old).stop }
        ensures state { self.new ≡ (perform_keeping operation this self.old).state }
        ensures size { length self.new.storage ≡ length self.old.storage }
    {
        let Instruction { a, b, .. } = this;
        match operation {
            Operation::Add => {
                let outcome = add_within(&mut self.core, a, b);
                self.after_field(this, outcome)
            }
            Operation::Subtract => {
                let outcome = subtract_within(&mut self.core, a, b);
                self.after_field(this, outcome)
            }
            Operation::ZeroAdd => {
                let outcome = zero_add_within(&mut self.core, a, b);
                self.after_field(this, outcome)
            }
            Operation::ZeroSubtract => {
                let outcome = zero_subtract_within(&mut self.core, a, b);
                self.after_field(this, outcome)
            }
            Operation::Move => {
                let outcome = move_chars_within(&mut self.core, a, b);
                self.after_field(this, outcome)
            }
            Operation::Load => {
                let outcome = load_there(&mut self.core, &mut self.cache, a, b);
                self.after_field(this, outcome)
            }
            Operation::MoveDigit => {
                let done = move_digit_within(&mut self.core, a, b);
                self.after_field(this, Ok(done))
            }
            Operation::MoveZone => {
                let done = move_zone_within(&mut self.core, a, b);
                self.after_field(this, Ok(done))
            }
            Operation::SetWordMark => {
                let done = set_marks_there(&mut self.core, &mut self.cache, a, b);
                self.after_field(this, Ok(done))
            }
            Operation::ClearWordMark => {
                let done = clear_marks_there(&mut self.core, &mut self.cache, a, b);
                self.after_field(this, Ok(done))
            }
            Operation::ZeroSuppress => {
                let outcome = suppress_there(&mut self.core, &mut self.cache, a, b);
                self.after_field(this, outcome)
            }
            Operation::Edit => {
                let outcome = edit_there(&mut self.core, &mut self.cache, a, b);
                self.after_field(this, outcome)
            }
            Operation::ClearStorage => self.clear_storage(this),
            Operation::Compare => self.compare(this),
            Operation::Branch => self.branch(this),
            Operation::BranchOnCell => self.branch_on_cell(this),
            Operation::StoreA => self.store(this, self.a),
            Operation::StoreB => self.store(this, self.b),
            Operation::NoOperation => self.go_on(false, this),
            Operation::SelectStacker => self.go_on(this.len == 5, this),
            Operation::Halt => self.halt(this),
            Operation::ReadCard => self.use_cards(this, CardWork::READING),
            Operation::WriteLine => self.write_line(this),
            Operation::WriteAndRead => self.use_cards(this, CardWork::WRITING_AND_READING),
            Operation::PunchCard => self.use_cards(this, CardWork::PUNCHING),
            Operation::ReadAndPunch => self.use_cards(this, CardWork::READING_AND_PUNCHING),
            Operation::WriteAndPunch => self.use_cards(this, CardWork::WRITING_AND_PUNCHING),
            Operation::WriteReadAndPunch => self.use_cards(this, CardWork::ALL_THREE),
            Operation::ControlCarriage => self.control_carriage(this),
        }
    }
}
