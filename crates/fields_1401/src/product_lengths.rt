//! Lengths of fields at any address.
ghost use Rattle.std.specs.Prelude.{◌≡◌, ◌+◌, ◌<◌, ◌≤◌, IfSome, length};
ghost use Rattle.core_1401.specs.Field.{field_len_of};

use core_1401::Core;

/// How many places a field has; none if it isn't in core, or comes to address 0 before a word mark.
pub(crate) fn field_len(core: &Core, at: u16) -> Option<u16>
    ensures value { result ≡ field_len_of core.now at }
    ensures in_core { IfSome result (λ n. at < length core.now) }
    ensures some { IfSome result (λ n. 0 < n) }
    ensures places { IfSome result (λ n. n ≤ at + 1) }
{
    if !core.in_core(at) {
        return None;
    }
    core.field_len(at)
}
