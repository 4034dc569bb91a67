//! What features make of instructions: the table, and what is asked of it.
ghost use Rattle.std.specs.Prelude.{◌≡◌, ◌==◌, ◌<◌, ◌≤◌, find};
ghost use Rattle.std.specs.List.{list_any};
ghost use Rattle.machine_tables.specs.Fitted.{claims, fitted_in, fitted_lengths, fitted_rows, is_fitted_with};
ghost use Rattle.machine_tables.specs.Fitted.{is_for_tape, is_operation};

use crate::operation::is_fitted;
use crate::{Feature, Features};

/// What a feature makes of an instruction.
#[derive(Clone, Copy, PartialEq, Eq)]
pub enum Fitted {
    /// `B` or `V` of eight characters: as ever, and its d-character stays.
    OnCell,
    /// `W` of eight: branches if the character at b and the d-character share a bit.
    OnBits,
    /// `B` of one: goes on with the d-character that was kept.
    CharacterAgain,
    /// `V` of one: the same.
    CellAgain,
    /// `W` of one: the same.
    BitsAgain,
    /// `Q` of one: stores the A register at the A register.
    StoreA,
    /// `H` of one: stores the B register at the A register.
    StoreB,
    /// `H` of seven: stores its second address at its first.
    StoreSecond,
    /// `.` of more lengths: halts.
    Halt,
    /// `8` or `9`: starts a feed, which takes no time here.
    Feed,
    /// `@`: multiplies.
    Multiply,
    /// `%`: divides.
    Divide,
    /// `P`: moves a record.
    MoveRecord,
    /// `#`: adds to an address.
    ModifyAddress,
    /// `M` of eight: reads or writes a record of tape.
    MoveTape,
    /// `L` of eight: the same, with word marks.
    LoadTape,
    /// `U`: controls a tape unit.
    ControlTape,
    /// The operation has no such length.
    NoLength,
}

/// The lengths of a row.
#[derive(Clone, Copy, PartialEq, Eq)]
pub enum FittedLengths {
    /// 1.
    One,
    /// 1, 4 or 7: no address, one or two.
    OneFourSeven,
    /// 5: a unit and a d-character.
    Five,
    /// 7: two addresses.
    Seven,
    /// 8: two addresses, or a unit and an address, and a d-character.
    Eight,
    /// 2, 3, and 5 to 8.
    NotOneOrFour,
    /// 1 to 8.
    Any,
}

impl Fitted {
    /// Whether a machine with these features carries out an instruction that one of them claims so.
    fn is_operation(self, features: Features) -> bool
        ensures { result ≡ is_operation features self }
    {
        match self {
            Fitted::NoLength => false,
            Fitted::BitsAgain => features.lengths,
            _ => true,
        }
    }

    /// Whether it is for a tape unit.
    pub fn is_for_tape(self) -> bool
        ensures { result ≡ is_for_tape self }
    {
        matches!(
            self,
            Fitted::MoveTape | Fitted::LoadTape | Fitted::ControlTape
        )
    }
}

impl FittedLengths {
    /// Whether this is one of them.
    fn has(self, len: u32) -> bool
        ensures { result ≡ list_any (λ each. each == len) (fitted_lengths self) }
    {
        match self {
            FittedLengths::One => len == 1,
            FittedLengths::OneFourSeven => len == 1 || len == 4 || len == 7,
            FittedLengths::Five => len == 5,
            FittedLengths::Seven => len == 7,
            FittedLengths::Eight => len == 8,
            FittedLengths::NotOneOrFour => len == 2 || len == 3 || 5 <= len && len <= 8,
            FittedLengths::Any => 1 <= len && len <= 8,
        }
    }
}

/// A row of the table: the graphic of the operation's character, the lengths, the feature that they belong to, and what
/// it makes of them.
type FittedRow = (u8, FittedLengths, Feature, Fitted);

/// The table. The first row that claims an instruction says what is made of it, so a row of any length, the last of its
/// graphic, refuses the others.
static ROWS: [FittedRow; 27] = [
    (b'B', FittedLengths::Eight, Feature::Lengths, Fitted::OnCell),
    (
        b'B',
        FittedLengths::One,
        Feature::Lengths,
        Fitted::CharacterAgain,
    ),
    (b'V', FittedLengths::Eight, Feature::Lengths, Fitted::OnCell),
    (
        b'V',
        FittedLengths::One,
        Feature::Lengths,
        Fitted::CellAgain,
    ),
    (b'W', FittedLengths::Eight, Feature::BitTest, Fitted::OnBits),
    (
        b'W',
        FittedLengths::One,
        Feature::BitTest,
        Fitted::BitsAgain,
    ),
    (b'W', FittedLengths::Any, Feature::BitTest, Fitted::NoLength),
    (b'Q', FittedLengths::One, Feature::Lengths, Fitted::StoreA),
    (b'H', FittedLengths::One, Feature::Lengths, Fitted::StoreB),
    (
        b'H',
        FittedLengths::Seven,
        Feature::Lengths,
        Fitted::StoreSecond,
    ),
    (
        b'.',
        FittedLengths::NotOneOrFour,
        Feature::Lengths,
        Fitted::Halt,
    ),
    (
        b'8',
        FittedLengths::One,
        Feature::ReadPunchRelease,
        Fitted::Feed,
    ),
    (
        b'8',
        FittedLengths::Any,
        Feature::ReadPunchRelease,
        Fitted::NoLength,
    ),
    (
        b'9',
        FittedLengths::One,
        Feature::ReadPunchRelease,
        Fitted::Feed,
    ),
    (
        b'9',
        FittedLengths::Any,
        Feature::ReadPunchRelease,
        Fitted::NoLength,
    ),
    (
        b'@',
        FittedLengths::OneFourSeven,
        Feature::Multiply,
        Fitted::Multiply,
    ),
    (
        b'@',
        FittedLengths::Any,
        Feature::Multiply,
        Fitted::NoLength,
    ),
    (
        b'%',
        FittedLengths::OneFourSeven,
        Feature::Multiply,
        Fitted::Divide,
    ),
    (
        b'%',
        FittedLengths::Any,
        Feature::Multiply,
        Fitted::NoLength,
    ),
    (
        b'P',
        FittedLengths::OneFourSeven,
        Feature::MoveRecord,
        Fitted::MoveRecord,
    ),
    (
        b'P',
        FittedLengths::Any,
        Feature::MoveRecord,
        Fitted::NoLength,
    ),
    (
        b'#',
        FittedLengths::OneFourSeven,
        Feature::ModifyAddress,
        Fitted::ModifyAddress,
    ),
    (
        b'#',
        FittedLengths::Any,
        Feature::ModifyAddress,
        Fitted::NoLength,
    ),
    (b'M', FittedLengths::Eight, Feature::Tapes, Fitted::MoveTape),
    (b'L', FittedLengths::Eight, Feature::Tapes, Fitted::LoadTape),
    (
        b'U',
        FittedLengths::Five,
        Feature::Tapes,
        Fitted::ControlTape,
    ),
    (b'U', FittedLengths::Any, Feature::Tapes, Fitted::NoLength),
];

/// The table.
fn table() -> &'static [FittedRow]
    ensures { result.now ≡ fitted_rows }
{
    &ROWS
}

/// Whether a row claims an instruction with this graphic and this length, on a machine with these features.
fn claims(features: Features, graphic: u8, len: u32, row: &FittedRow) -> bool
    ensures { result ≡ claims features graphic len row.now }
{
    row.0 == graphic && row.1.has(len) && features.has(row.2)
}

/// The first row that claims it.
fn row_in(rows: &[FittedRow], features: Features, graphic: u8, len: u32) -> Option<FittedRow>
    ensures { result ≡ find (claims features graphic len) rows.now }
{
    rows.iter()
        .copied()
        .find(|row| claims(features, graphic, len, row))
}

/// What these features make of an instruction with this graphic and this length; `None` if none claims it.
pub fn fitted_in(features: Features, graphic: u8, len: u32) -> Option<Fitted>
    ensures { result ≡ fitted_in features graphic len }
{
    match row_in(table(), features, graphic, len) {
        Some(row) => Some(row.3),
        None => None,
    }
}

/// Whether a machine with these features carries out an instruction of the operation with this graphic and this length.
pub fn is_fitted_with(features: Features, graphic: u8, len: u32) -> bool
    ensures { result ≡ is_fitted_with features graphic len }
{
    match fitted_in(features, graphic, len) {
        Some(fitted) => fitted.is_operation(features),
        None => is_fitted(graphic, len),
    }
}
