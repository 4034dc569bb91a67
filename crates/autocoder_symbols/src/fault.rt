//! Why a source is refused.
ghost use Rattle.std.specs.Prelude.{◌≡◌};
ghost use Rattle.autocoder_symbols.specs.Fault.{rank};
ghost use Rattle.autocoder_symbols.specs.declared.fault.AsmKind.TheVariants.{Memory};

use std::alloc::{AllocError, AllocFailed};
use std::fmt;
use thiserror::Error;

/// The kinds of fault, the lowest first. The whole source is searched for kinds 2 to 8, 10 and 11; only a source
/// without any of them is placed, and then searched for kind 9.
#[derive(Clone, Copy, Debug, Error)]
pub enum AsmKind {
    /// 1: memory was refused, or the source has more than 4,294,967,295 bytes.
    Memory = 1,
    /// 2: a line has more than 80 bytes.
    LongLine = 2,
    /// 3: a byte can't stand in its column.
    Graphic = 3,
    /// 4: columns 6 to 15 hold no label, or lack one, or hold one that may not be there.
    Label = 4,
    /// 5: a label, or the symbol of an area literal, is declared already.
    DoubleLabel = 5,
    /// 6: columns 16 to 20 hold no operation, or a field has no areas above it.
    Operation = 6,
    /// 7: a symbol is the label of no line; or its value isn't known where it has to be, as for ORG.
    Undefined = 7,
    /// 8: the operands aren't as the operation asks.
    Operand = 8,
    /// 9: a place or an address isn't in core.
    OutOfCore = 9,
    /// 10: there is no END.
    NoEnd = 10,
    /// 11: a line after END is no comment.
    AfterEnd = 11,
}

impl AsmKind {
    /// The number.
    pub fn number(self) -> u8
        ensures { result ≡ rank self }
    {
        self as u8
    }

    /// The number and the name, as they are printed.
    fn text(self) -> &'static str {
        match self {
            AsmKind::Memory => "1 MEMORY",
            AsmKind::LongLine => "2 LONG LINE",
            AsmKind::Graphic => "3 GRAPHIC",
            AsmKind::Label => "4 LABEL",
            AsmKind::DoubleLabel => "5 DOUBLE LABEL",
            AsmKind::Operation => "6 OPERATION",
            AsmKind::Undefined => "7 UNDEFINED",
            AsmKind::Operand => "8 OPERAND",
            AsmKind::OutOfCore => "9 OUT OF CORE",
            AsmKind::NoEnd => "10 NO END",
            AsmKind::AfterEnd => "11 AFTER END",
        }
    }
}

impl fmt::Display for AsmKind {
    fn fmt<W: fmt::Write>(&self, f: &mut fmt::Formatter<W>) -> fmt::Result {
        f.write_str(self.text())
    }
}

/// The first line with a fault, counted from 1, and its lowest kind. With Memory the line is 0.
#[derive(Clone, Copy, Debug, Error)]
#[error("line {line}: {kind}")]
pub struct AsmFault {
    /// The line.
    pub line: u64,
    /// What is wrong with it.
    pub kind: AsmKind,
}

impl AsmFault {
    /// Memory was refused.
    pub const MEMORY: AsmFault = AsmFault {
        line: 0,
        kind: AsmKind::Memory,
    };
}

impl From<AllocError> for AsmFault {
    ghost from_gives = { λ _ e. (e.line ≡ 0) × (e.kind ≡ Memory) };

    fn from(_: AllocError) -> AsmFault {
        AsmFault::MEMORY
    }
}

impl<T: Drop> From<AllocFailed<T>> for AsmFault {
    ghost from_gives = { λ _ e. (e.line ≡ 0) × (e.kind ≡ Memory) };

    fn from(_: AllocFailed<T>) -> AsmFault {
        AsmFault::MEMORY
    }
}
