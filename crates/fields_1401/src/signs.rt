//! The signs of fields, of products and of quotients.
ghost use Rattle.std.specs.Prelude.{◌≡◌, ◌+◌, ◌<◌, ◌≤◌, length};
ghost use Rattle.fields_1401.specs.Number.{places_down, sign_of, over_units};
ghost use Rattle.fields_1401.specs.Products.{product_sign};

use crate::Sign;
use core_1401::Core;

/// The sign of a field of this length: minus if the zone over its units is B alone.
#[tactic(auto, using(crate::proofs::FieldLemmas::char_down))]
pub(crate) fn sign_at(core: &Core, at: u16, len: u16) -> Sign
    requires at { at < length core.now }
    requires some { 0 < len }
    requires len { len ≤ at + 1 }
    ensures { result ≡ sign_of (places_down core.now at len) }
{
    Sign::of_units(core.get(at).char)
}

/// The sign of a product, and that of a quotient.
pub(crate) fn product_sign(p: Sign, q: Sign) -> Sign
    ensures { result ≡ product_sign p q }
{
    if p == q { Sign::Plus } else { Sign::Minus }
}

/// The zone over the i-th place, counted from the units: this one over the units, and else none.
pub(crate) fn over_units(zone: u8, i: u16) -> u8
    requires { zone < 4 }
    ensures value { result ≡ over_units zone i }
    ensures range { result < 4 }
{
    if i == 0 { zone } else { 0 }
}
