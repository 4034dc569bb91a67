//! Whether literals are written alike.
ghost use Rattle.std.specs.Prelude.{◌≡◌, IsTrue};

use autocoder_statements::{Address, Base, Constant, Literal};

/// Whether two constants are written alike.
fn are_one_constant(one: Constant, other: Constant) -> bool
    ensures { IsTrue result → one ≡ other }
{
    match (one, other) {
        (Constant::Text(one), Constant::Text(other))
        | (Constant::Number(one), Constant::Number(other))
        | (Constant::Plus(one), Constant::Plus(other))
        | (Constant::Minus(one), Constant::Minus(other)) => one == other,
        (Constant::Blanks(one), Constant::Blanks(other)) => one == other,
        (_, _) => false,
    }
}

/// Whether what two addresses are counted from is written alike.
fn are_one_base(one: Base, other: Base) -> bool
    ensures { IsTrue result → one ≡ other }
{
    match (one, other) {
        (Base::Number(one), Base::Number(other)) => one == other,
        (Base::Symbol(one), Base::Symbol(other)) => one == other,
        (Base::Here, Base::Here) | (Base::NextHundred, Base::NextHundred) => true,
        (Base::Register(one), Base::Register(other)) => one == other,
        (_, _) => false,
    }
}

/// Whether two addresses are written alike.
fn are_one_address(one: Address, other: Address) -> bool
    ensures { IsTrue result → one ≡ other }
{
    are_one_base(one.base, other.base)
        && one.adjustment == other.adjustment
        && one.index == other.index
}

/// Whether two literals are written alike.
pub(crate) fn are_alike(one: Literal, other: Literal) -> bool
    ensures { IsTrue result → one ≡ other }
{
    match (one, other) {
        (Literal::Constant(one), Literal::Constant(other)) => are_one_constant(one, other),
        (Literal::Address(one), Literal::Address(other)) => {
            one.is_negative == other.is_negative && are_one_address(one.address, other.address)
        },
        (Literal::Area(one), Literal::Area(other)) => one == other,
        (_, _) => false,
    }
}
