//! How a sitting ends.

use operate_sitting::Sitting;
use room_alone::Keeper;
use std::alloc::AllocError;

/// What failed. No other line is done then.
#[derive(Clone, Copy)]
pub enum Failure {
    /// A read failed.
    Read,
    /// A write failed, or took nothing.
    Write,
    /// As many lines were done as a sitting has at most, or as many bytes were read as a line has.
    Bound,
    /// Memory was refused: for a text, or for what is noted. All that was recorded stays.
    Memory,
    /// An entry wasn't kept outside of the room, or its file couldn't be cut.
    Unkept,
}

/// Why no other line is done.
#[derive(Clone, Copy)]
pub enum OperateEnd {
    /// The line `quit`.
    Quit,
    /// The end of the input.
    EndOfInput,
    /// Something failed.
    Failed(Failure),
}

impl From<AllocError> for Failure {
    ghost use Rattle.std.specs.Prelude.{◌≡◌};
    ghost use Rattle.operate_console.specs.declared.ends.Failure.TheVariants.{Memory};

    ghost from_gives = { λ _ e. e ≡ Memory };

    fn from(_: AllocError) -> Failure {
        Failure::Memory
    }
}

/// A sitting that ended.
#[derive(Drop)]
pub struct Operated<K: Keeper + Drop> {
    /// The sitting; none if what keeps its journal couldn't be cut.
    pub sitting: Option<Sitting<K>>,
    /// Why it ended.
    pub end: OperateEnd,
    /// How many lines had a fault. An `assert` that fails is one.
    pub faults: u32,
}
