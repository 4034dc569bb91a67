//! The places that an operation of arithmetic takes.
ghost use Rattle.std.specs.Prelude.{◌≡◌, ◌+◌, ◌<◌, ◌≤◌, false, length, Some, Ok, Err, IfOk, IfErr, IfSome};
ghost use Rattle.core_1401.specs.Address.{addresses};
ghost use Rattle.core_1401.specs.Field.{field_len_of};
ghost use Rattle.fields_1401.specs.Number.{places_down, sign_of};
ghost use Rattle.fields_1401.specs.Refusal.{used_len_of, needed_at, is_overlap, lengths_at};

use crate::done::FieldStop;
use crate::refusals::is_overlap;
use crate::sign::Sign;
use core_1401::Core;

/// The places of an operation that isn't refused.
#[derive(Clone, Copy)]
pub(crate) struct Operands {
    /// The units place of the A field.
    pub(crate) a: u16,
    /// How many places of the A field are used: no more than the B field has.
    pub(crate) used: u16,
    /// The units place of the B field.
    pub(crate) b: u16,
    /// The length of the B field.
    pub(crate) len: u16,
    ghost a_range: { a < addresses },
    ghost b_range: { b < addresses },
    ghost some: { 0 < used },
    ghost fewer: { used ≤ len },
    ghost a_above: { used ≤ a + 1 },
    ghost b_above: { len ≤ b + 1 },
    ghost apart: { is_overlap a used b len ≡ false },
}

impl Operands {
    /// The places that an operation with these addresses takes, both of which are those of places.
    ///
    /// # Errors
    ///
    /// `Address` if there is no B field, or a place of A that is needed isn't in core; else `Overlap` if the
    /// addresses differ and a place of A that is used is one of the B field.
    #[inline(always)]
    #[tactic(auto, unfolding(crate::specs::Refusal::lengths_at))]
    pub(crate) fn within(core: &Core, a: u16, b: u16) -> Result<Operands, FieldStop>
        requires a { a < addresses }
        requires b { b < addresses }
        requires places { (a < length core.now) × (b < length core.now) }
        ensures ok { IfOk result (λ taken. lengths_at core.now a b ≡ Ok (taken.used, taken.len)) }
        ensures err { IfErr result (λ stop. lengths_at core.now a b ≡ Err stop) }
        ensures needed { IfOk result (λ taken. needed_at core.now a b ≡ Some (taken.used, taken.len)) }
        ensures field { IfOk result (λ taken. field_len_of core.now b ≡ Some taken.len) }
        ensures at_a { IfOk result (λ taken. (taken.a ≡ a) × (a < length core.now)) }
        ensures at_b { IfOk result (λ taken. (taken.b ≡ b) × (b < length core.now)) }
    {
        let Some((used, len)) = needed(core, a, b) else {
            return Err(FieldStop::Address);
        };
        if is_overlap(a, used, b, len) {
            return Err(FieldStop::Overlap);
        }
        Ok(Operands { a, used, b, len })
    }

    /// The sign of the used part of A.
    #[tactic(auto, using(crate::proofs::FieldLemmas::char_down))]
    pub(crate) fn a_sign(self, core: &Core) -> Sign
        requires { self.a < length core.now }
        ensures { result ≡ sign_of (places_down core.now self.a self.used) }
    {
        Sign::of_units(core.get(self.a).char)
    }

    /// The sign of the B field.
    #[tactic(auto, using(crate::proofs::FieldLemmas::char_down))]
    pub(crate) fn b_sign(self, core: &Core) -> Sign
        requires { self.b < length core.now }
        ensures { result ≡ sign_of (places_down core.now self.b self.len) }
    {
        Sign::of_units(core.get(self.b).char)
    }
}

/// How many places of A are used, and how many the B field has; none if one of them isn't in core.
#[inline(always)]
fn needed(core: &Core, a: u16, b: u16) -> Option<(u16, u16)>
    requires range { a < addresses }
    requires a { a < length core.now }
    requires b { b < length core.now }
    ensures value { result ≡ needed_at core.now a b }
    ensures used { IfSome result (λ taken. (0 < taken.0) × (taken.0 ≤ taken.1) × (taken.0 ≤ a + 1)) }
    ensures len { IfSome result (λ taken. taken.1 ≤ b + 1) }
    ensures field { IfSome result (λ taken. field_len_of core.now b ≡ Some taken.1) }
{
    let len = core.field_len(b)?;
    let used = used_within(core, a, len)?;
    Some((used, len))
}

/// How many places of A are used beside a B field of this length: down to its first word mark, but no more than that;
/// none if one of them isn't in core.
#[inline(always)]
pub(crate) fn used_len(core: &Core, a: u16, len: u16) -> Option<u16>
    requires a { a < addresses }
    requires len { 0 < len }
    ensures value { result ≡ used_len_of core.now a len }
    ensures bounds { IfSome result (λ u. (0 < u) × (u ≤ len) × (u ≤ a + 1)) }
    ensures in_core { IfSome result (λ u. a < length core.now) }
{
    if !core.in_core(a) {
        return None;
    }
    used_within(core, a, len)
}

/// The same of an A address that is known to be that of a place.
#[inline(always)]
fn used_within(core: &Core, a: u16, len: u16) -> Option<u16>
    requires range { a < addresses }
    requires a { a < length core.now }
    requires len { 0 < len }
    ensures value { result ≡ used_len_of core.now a len }
    ensures bounds { IfSome result (λ u. (0 < u) × (u ≤ len) × (u ≤ a + 1)) }
{
    match core.field_len(a) {
        Some(n) => Some(n.min(len)),
        None if len <= a + 1 => Some(len),
        None => None,
    }
}
