//! What an instruction says by itself, whatever the registers hold.
ghost use Rattle.std.specs.Prelude.{◌≡◌, ◌≢◌, ◌<◌, ◌≤◌, false, true};
ghost use Rattle.core_1401.specs.Address.{addresses};
ghost use Rattle.cpu_1401.specs.Addressing.{has_b};
ghost use Rattle.cpu_1401.specs.declared.decoded.Addressing.{Addressing};
ghost use Rattle.machine_tables.specs.declared.operation.Operation.{Operation};

use bcd_1401::Char;
use machine_tables::Operation;

/// An address as it is spelled.
#[derive(Clone, Copy)]
pub(crate) struct Address {
    /// Its value before indexing.
    pub(crate) value: u16,
    /// The number of its index register, 0 for none.
    pub(crate) register: u8,
    ghost value_range: { value < addresses },
    ghost register_range: { register < 4 },
}

/// How an instruction comes by its addresses.
#[derive(Clone, Copy, PartialEq, Eq)]
pub(crate) enum Addressing {
    /// It spells both: two, or one for both registers.
    Both,
    /// It spells its A address, and asks for no other: a branch of four characters.
    Target,
    /// It asks for none: no operation.
    Unasked,
    /// It spells its A address; its B address is the B register as it stands.
    OnlyA,
    /// By the registers as they stand, or by index registers.
    Registers,
}

/// What an instruction says by itself.
#[derive(Clone, Copy)]
pub(crate) struct Decoded {
    /// What it does.
    pub(crate) operation: Operation,
    /// How many characters it has.
    pub(crate) len: u16,
    /// The last of them.
    pub(crate) d: Char,
    /// The A address, if it has one.
    pub(crate) a: Address,
    /// The B address, if it has two, or its only one, if that is for both registers.
    pub(crate) b: Address,
    /// How it comes by its addresses.
    pub(crate) source: Addressing,
    /// Whether the addresses are ready: as they are spelled, or not asked for.
    pub(crate) is_ready: bool,
    ghost some: { 0 < len },
    ghost most: { len ≤ 8 },
    ghost both_len: { source ≡ Addressing.Both → 4 ≤ len },
    ghost both_a: { source ≡ Addressing.Both → a.register ≡ 0 },
    ghost both_own: { source ≡ Addressing.Both → has_b operation len ≡ true },
    ghost both_b: { source ≡ Addressing.Both → b.register ≡ 0 },
    ghost target_branch: { source ≡ Addressing.Target → operation ≡ Operation.Branch },
    ghost target_len: { source ≡ Addressing.Target → len ≡ 4 },
    ghost target_a: { source ≡ Addressing.Target → a.register ≡ 0 },
    ghost unasked: { source ≡ Addressing.Unasked → operation ≡ Operation.NoOperation },
    ghost only_len: { source ≡ Addressing.OnlyA → 4 ≤ len },
    ghost only_a: { source ≡ Addressing.OnlyA → a.register ≡ 0 },
    ghost only_alone: { source ≡ Addressing.OnlyA → has_b operation len ≡ false },
    ghost ready: { is_ready ≡ true → source ≢ Addressing.OnlyA },
    ghost ready_alone: { is_ready ≡ true → source ≢ Addressing.Registers },
}

/// Whether an instruction of this length has an address for the B register.
pub(crate) fn has_b(operation: Operation, len: u16) -> bool
    ensures { result ≡ has_b operation len }
{
    len >= 7 || (len >= 4 && operation.loads_both())
}

/// How an instruction of this length comes by its addresses.
pub(crate) fn source_of(operation: Operation, len: u16, a: Address, b: Address) -> Addressing
    ensures both_len { result ≡ Addressing.Both → 4 ≤ len }
    ensures both_a { result ≡ Addressing.Both → a.register ≡ 0 }
    ensures both_own { result ≡ Addressing.Both → has_b operation len ≡ true }
    ensures both_b { result ≡ Addressing.Both → b.register ≡ 0 }
    ensures target_branch { result ≡ Addressing.Target → operation ≡ Operation.Branch }
    ensures target_len { result ≡ Addressing.Target → len ≡ 4 }
    ensures target_a { result ≡ Addressing.Target → a.register ≡ 0 }
    ensures unasked { result ≡ Addressing.Unasked → operation ≡ Operation.NoOperation }
    ensures only_len { result ≡ Addressing.OnlyA → 4 ≤ len }
    ensures only_a { result ≡ Addressing.OnlyA → a.register ≡ 0 }
    ensures only_alone { result ≡ Addressing.OnlyA → has_b operation len ≡ false }
{
    if operation == Operation::NoOperation {
        return Addressing::Unasked;
    }
    if len < 4 || a.register != 0 {
        return Addressing::Registers;
    }
    if len == 4 && operation == Operation::Branch {
        return Addressing::Target;
    }
    if !has_b(operation, len) {
        return Addressing::OnlyA;
    }
    if b.register == 0 {
        Addressing::Both
    } else {
        Addressing::Registers
    }
}

/// Whether such addresses are ready before the registers are known.
pub(crate) fn is_ready(source: Addressing) -> bool
    ensures ready { result ≡ true → source ≢ Addressing.OnlyA }
    ensures alone { result ≡ true → source ≢ Addressing.Registers }
{
    match source {
        Addressing::Both | Addressing::Target | Addressing::Unasked => true,
        Addressing::OnlyA | Addressing::Registers => false,
    }
}
