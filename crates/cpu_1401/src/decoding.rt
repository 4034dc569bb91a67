//! An instruction decoded: the checks in their order, and what it says itself.
ghost use Rattle.std.specs.Prelude.{◌≡◌, ◌+◌, ◌<◌, ◌≤◌, length, IfOk, IfErr, true};
ghost use Rattle.core_1401.specs.Storage.{cell_at};
ghost use Rattle.cpu_1401.specs.Decoded.{IsAddress, Says};
ghost use Rattle.cpu_1401.specs.Instruction.{begins_at, length_at, longest_at};
ghost use Rattle.cpu_1401.specs.Step.{step};
ghost use Rattle.cpu_1401.specs.Stepped.{stopped};

use crate::decoded::{Address, Decoded, is_ready, source_of};
use crate::machine::Machine;
use bcd_1401::Char;
use machine_tables::{Operation, Stop, is_unfitted};

impl Machine {
    /// Decodes the instruction at the I register, or says why it can't be carried out.
    #[tactic(auto, unfolding(crate::specs::Step::step))]
    pub(crate) fn decode(&self) -> Result<Decoded, Stop>
        ensures ok { IfOk result (λ said. Says self.now.storage self.now.i said) }
        ensures err { IfErr result (λ stop. step self.now ≡ stopped stop self.now) }
    {
        if !self.begins() {
            return Err(Stop::NoMark);
        }
        let char = self.core.get(self.i).char;
        let Some(operation) = Operation::from_char(char) else {
            return Err(if is_unfitted(char) {
                Stop::NotFitted
            } else {
                Stop::OpCode
            });
        };
        let len = self.len(operation);
        if operation.is_unfitted_length(len) {
            return Err(Stop::NotFitted);
        }
        if !operation.has_length(len) {
            return Err(Stop::Length);
        }
        let a = self.address(self.i + 1, len >= 4);
        let b = if len >= 7 {
            self.address(self.i + 4, true)
        } else {
            a
        };
        let source = source_of(operation, len, a, b);
        Ok(Decoded {
            operation,
            len,
            d: self.core.get(self.i + len - 1).char,
            a,
            b,
            source,
            is_ready: is_ready(source),
        })
    }

    /// The address that the three characters from this place on spell, if there are such.
    pub(crate) fn address(&self, at: u16, is_there: bool) -> Address
        requires { is_there ≡ true → at + 2 < length self.now.storage }
        ensures { is_there ≡ true → IsAddress self.now.storage at result }
    {
        if is_there {
            let (value, register) = self.core.decode_at(at);
            Address { value, register }
        } else {
            Address {
                value: 0,
                register: 0,
            }
        }
    }

    /// Whether an instruction begins at the I register.
    pub(crate) fn begins(&self) -> bool
        ensures { result ≡ begins_at self.now.storage self.now.i }
    {
        self.core.in_core(self.i) && self.core.get(self.i).mark
    }

    /// How many characters the instruction at the I register has, if it is one of this operation.
    fn len(&self, operation: Operation) -> u16
        requires { self.now.i < length self.now.storage }
        ensures value { result ≡ length_at self.now.storage operation self.now.i }
        ensures some { 0 < result }
        ensures most { result ≤ 8 }
        ensures near { longest_at self.now.storage operation self.now.i ≤ 8 }
        ensures inside { self.now.i + result ≤ length self.now.storage }
    {
        let fifth = self.char_at(self.i + 4);
        self.core.next_mark(self.i, operation.longest(fifth))
    }

    /// The character at a place, and a blank past the end of core.
    fn char_at(&self, at: u16) -> Char
        ensures { result ≡ (cell_at self.now.storage at).char }
    {
        if self.core.in_core(at) {
            self.core.get(at).char
        } else {
            Char::BLANK
        }
    }
}
