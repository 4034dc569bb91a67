//! What an operation is refused for: places that aren't in core, and fields that overlap. All of it is asked before
//! anything is written.
ghost use Rattle.std.specs.Prelude.{◌≡◌, ◌≢◌, ◌+◌, ◌<◌, ◌≤◌, ◌&&◌, ◌↔◌, nat_lt, IsTrue};
ghost use Rattle.core_1401.specs.Address.{addresses};
ghost use Rattle.core_1401.specs.Storage.{is_in_core};
ghost use Rattle.fields_1401.specs.Load.{has_places, is_overwritten};
ghost use Rattle.fields_1401.specs.Refusal.{is_overlap, SharePlace};

use core_1401::Core;

/// Whether two addresses are both those of places.
pub(crate) fn are_in_core(core: &Core, a: u16, b: u16) -> bool
    ensures { result ≡ is_in_core core.now a && is_in_core core.now b }
{
    core.in_core(a) && core.in_core(b)
}

/// Whether n places from an address down are all in core.
pub(crate) fn has_places(core: &Core, at: u16, n: u16) -> bool
    requires { at < addresses }
    ensures { result ≡ has_places core.now at n }
{
    core.in_core(at) && n <= at + 1
}

/// Whether a field of n places at a is written over from b down before its word mark is met.
pub(crate) fn is_overwritten(a: u16, b: u16, n: u16) -> bool
    ensures { result ≡ is_overwritten a b n }
{
    b < a && a - b < n
}

/// Whether two fields that begin at different addresses share a place: this many from a down are used of the one, and
/// the other has this many from b down.
pub(crate) fn is_overlap(a: u16, used: u16, b: u16, len: u16) -> bool
    requires a { a < addresses }
    requires b { b < addresses }
    requires used { (0 < used) × (used ≤ a + 1) }
    requires len { (0 < len) × (len ≤ b + 1) }
    ensures value { result ≡ is_overlap a used b len }
    ensures shared { IsTrue result ↔ ((a ≢ b) × SharePlace a used b len) }
{
    a != b && share_place(a, used, b, len)
}

/// Whether one of this many places from a down is one of this many from b down.
#[tactic(auto, using(crate::proofs::RefusalLemmas::places))]
pub fn share_place(a: u16, used: u16, b: u16, len: u16) -> bool
    requires a { a < addresses }
    requires b { b < addresses }
    requires used { (0 < used) × (used ≤ a + 1) }
    requires len { (0 < len) × (len ≤ b + 1) }
    ensures value { result ≡ (nat_lt a (b + used) && nat_lt b (a + len)) }
    ensures shared { IsTrue result ↔ SharePlace a used b len }
{
    a < b + used && b < a + len
}
