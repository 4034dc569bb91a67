//! Why a place means no address, and why an act stands for no commands.

use operate_orders::Text;
use operate_views::{FieldFault, ValueFault};
use std::alloc::AllocError;

/// Why a place means no address.
#[derive(Clone, Copy)]
pub enum PlaceFault {
    /// A word is the label of no line.
    Label(Text),
    /// A label has a value that is no place: that of a unit's name.
    NoPlace(Text),
    /// A line of the source fills no place.
    Line(u32),
    /// More is taken from an address than it has.
    BelowZero,
    /// The address isn't that of a place.
    NotInCore {
        /// The address.
        at: u64,
        /// How many places core storage has.
        size: u16,
    },
    /// The last place of a range comes before the first.
    Backwards {
        /// The first place.
        first: u16,
        /// The last place.
        last: u16,
    },
}

/// Why an act stands for no commands.
#[derive(Clone, Copy)]
pub enum ActFault {
    /// Memory was refused.
    Memory,
    /// A place means no address.
    Place(PlaceFault),
    /// No field ends at an address.
    Field(FieldFault),
    /// A value can't be put into a field.
    Value(ValueFault),
    /// A value is neither a number nor a text of characters.
    NoValue,
    /// A text is none of a card.
    Card,
    /// A statement uses a literal.
    Literal,
    /// A statement makes no cells.
    NoCells(Text),
    /// The assembler refuses a statement.
    Statement {
        /// The statement.
        statement: Text,
        /// The address of its first place.
        at: u16,
        /// How many places core storage has.
        size: u16,
    },
}

impl From<AllocError> for ActFault {
    ghost use Rattle.std.specs.Prelude.{◌≡◌};
    ghost use Rattle.operate_program.specs.declared.fault.ActFault.TheVariants.{Memory};

    ghost from_gives = { λ _ e. e ≡ Memory };

    fn from(_: AllocError) -> ActFault {
        ActFault::Memory
    }
}
