//! The operations, and the table of what their instructions look like.
ghost use Rattle.std.specs.Prelude.{◌≡◌, ◌<◌, ◌≤◌, Some};
ghost use Rattle.machine_tables.specs.Operation.{form_of, has_length, is_fitted, is_unfitted_length};
ghost use Rattle.machine_tables.specs.Operation.{longest_at, meaning_of, mnemonic_of, needs_places};
ghost use Rattle.machine_tables.specs.Operation.{operation_of, place_of};
ghost use Rattle.machine_tables.specs.Row.{form_in};

use crate::lengths::Lengths::{
    self, MayHaveD, NoLength, One, OneOrD, ToEight, ToOne, ToTwo, TwoAndD, WithD,
};
use crate::lengths::Looked::{self, ByFifth, Eight, Seven};
use crate::mnemonics::{
    ADD, BRANCH, BRANCH_ON_CELL, CLEAR_STORAGE, CLEAR_WORD_MARK, COMPARE, CONTROL_CARRIAGE, EDIT,
    HALT, LOAD, MOVE, MOVE_DIGIT, MOVE_ZONE, NO_OPERATION, PUNCH_CARD, READ_AND_PUNCH, READ_CARD,
    SELECT_STACKER, SET_WORD_MARK, STORE_A, STORE_B, SUBTRACT, WRITE_AND_PUNCH, WRITE_AND_READ,
    WRITE_LINE, WRITE_READ_AND_PUNCH, ZERO_ADD, ZERO_SUBTRACT, ZERO_SUPPRESS,
};
use bcd_1401::Char;

/// What an instruction does.
#[derive(Clone, Copy, PartialEq, Eq)]
pub enum Operation {
    /// `A`: adds the A field to the B field.
    Add,
    /// `S`: subtracts the A field from the B field.
    Subtract,
    /// `?`: puts the A field's number in place of the B field's.
    ZeroAdd,
    /// `!`: puts the A field's number in place of the B field's, under the other sign.
    ZeroSubtract,
    /// `M`: moves the characters of the A field to the B field.
    Move,
    /// `L`: loads the A field, with its word mark, to the B field.
    Load,
    /// `D`: moves the low bits of one character.
    MoveDigit,
    /// `Y`: moves the zone of one character.
    MoveZone,
    /// `,`: sets word marks at both addresses.
    SetWordMark,
    /// `)`: clears word marks at both addresses.
    ClearWordMark,
    /// `/`: clears storage down to a hundred, and with two addresses branches.
    ClearStorage,
    /// `C`: compares the A field with the B field.
    Compare,
    /// `Z`: moves the A field with blanks for the zeros on its left.
    ZeroSuppress,
    /// `E`: moves the A field into the control word in the B field.
    Edit,
    /// `B`: branches always, on a condition, or if a character is the d-character.
    Branch,
    /// `V`: branches by the word mark and the zone of a cell.
    BranchOnCell,
    /// `Q`: stores the A register.
    StoreA,
    /// `H`: stores the B register.
    StoreB,
    /// `N`: does nothing.
    NoOperation,
    /// `.`: halts, and with an address goes on there.
    Halt,
    /// `K`: selects a stacker, which moves nothing here; with an address branches.
    SelectStacker,
    /// `1`: reads a card.
    ReadCard,
    /// `2`: writes a line, and with the lozenge the word marks.
    WriteLine,
    /// `3`: writes a line and reads a card.
    WriteAndRead,
    /// `4`: punches a card.
    PunchCard,
    /// `5`: reads a card and punches one.
    ReadAndPunch,
    /// `6`: writes a line and punches a card.
    WriteAndPunch,
    /// `7`: writes a line, reads a card and punches one.
    WriteReadAndPunch,
    /// `F`: spaces or skips the carriage.
    ControlCarriage,
}

/// One address goes into both registers.
const BOTH: bool = true;

/// One address goes into the A register alone.
const A_ONLY: bool = false;

/// Both addresses have to be those of places.
const PLACES: bool = true;

/// No address is looked at first of all.
const ANY: bool = false;

/// A row of the table: the graphic of the operation's character; its mnemonic, as columns 16 to 20 of a source line
/// have it; the lengths that its instructions may have; the lengths that belong to features that this machine hasn't
/// got; how many characters are looked at; whether one address goes into both registers; and whether both addresses
/// have to be those of places.
pub(crate) type Row = (u8, [u8; 5], Lengths, Lengths, Looked, bool, bool);

/// The table, in the order of `Operation`.
static ROWS: [Row; 29] = [
    (b'A', ADD, ToTwo, NoLength, Eight, BOTH, PLACES),
    (b'S', SUBTRACT, ToTwo, NoLength, Eight, BOTH, PLACES),
    (b'?', ZERO_ADD, ToTwo, NoLength, Eight, BOTH, PLACES),
    (b'!', ZERO_SUBTRACT, ToTwo, NoLength, Eight, BOTH, PLACES),
    (b'M', MOVE, ToTwo, TwoAndD, Eight, A_ONLY, PLACES),
    (b'L', LOAD, ToTwo, TwoAndD, Eight, A_ONLY, ANY),
    (b'D', MOVE_DIGIT, ToTwo, NoLength, Eight, BOTH, PLACES),
    (b'Y', MOVE_ZONE, ToTwo, NoLength, Eight, BOTH, PLACES),
    (b',', SET_WORD_MARK, ToTwo, NoLength, Seven, BOTH, PLACES),
    (b')', CLEAR_WORD_MARK, ToTwo, NoLength, Eight, BOTH, PLACES),
    (b'/', CLEAR_STORAGE, ToTwo, NoLength, Seven, BOTH, ANY),
    (b'C', COMPARE, ToTwo, NoLength, Eight, BOTH, PLACES),
    (b'Z', ZERO_SUPPRESS, ToTwo, NoLength, Eight, BOTH, ANY),
    (b'E', EDIT, ToTwo, NoLength, Eight, BOTH, ANY),
    (b'B', BRANCH, OneOrD, NoLength, ByFifth, A_ONLY, ANY),
    (b'V', BRANCH_ON_CELL, TwoAndD, NoLength, Eight, A_ONLY, ANY),
    (b'Q', STORE_A, One, NoLength, Eight, A_ONLY, ANY),
    (b'H', STORE_B, One, NoLength, Eight, A_ONLY, ANY),
    (b'N', NO_OPERATION, ToEight, NoLength, Eight, A_ONLY, ANY),
    (b'.', HALT, ToOne, NoLength, Eight, A_ONLY, ANY),
    (b'K', SELECT_STACKER, WithD, NoLength, Eight, A_ONLY, ANY),
    (b'1', READ_CARD, ToOne, WithD, Eight, A_ONLY, ANY),
    (b'2', WRITE_LINE, MayHaveD, NoLength, Eight, A_ONLY, ANY),
    (b'3', WRITE_AND_READ, ToOne, WithD, Eight, A_ONLY, ANY),
    (b'4', PUNCH_CARD, ToOne, WithD, Eight, A_ONLY, ANY),
    (b'5', READ_AND_PUNCH, ToOne, WithD, Eight, A_ONLY, ANY),
    (b'6', WRITE_AND_PUNCH, ToOne, WithD, Eight, A_ONLY, ANY),
    (b'7', WRITE_READ_AND_PUNCH, ToOne, WithD, Eight, A_ONLY, ANY),
    (b'F', CONTROL_CARRIAGE, WithD, NoLength, Eight, A_ONLY, ANY),
];

impl Operation {
    /// The operation of the character with this graphic; none if that is no operation of this machine.
    pub fn from_graphic(graphic: u8) -> Option<Operation>
        ensures { result ≡ meaning_of graphic }
    {
        match graphic {
            b'A' => Some(Operation::Add),
            b'S' => Some(Operation::Subtract),
            b'?' => Some(Operation::ZeroAdd),
            b'!' => Some(Operation::ZeroSubtract),
            b'M' => Some(Operation::Move),
            b'L' => Some(Operation::Load),
            b'D' => Some(Operation::MoveDigit),
            b'Y' => Some(Operation::MoveZone),
            b',' => Some(Operation::SetWordMark),
            b')' => Some(Operation::ClearWordMark),
            b'/' => Some(Operation::ClearStorage),
            b'C' => Some(Operation::Compare),
            b'Z' => Some(Operation::ZeroSuppress),
            b'E' => Some(Operation::Edit),
            b'B' => Some(Operation::Branch),
            b'V' => Some(Operation::BranchOnCell),
            b'Q' => Some(Operation::StoreA),
            b'H' => Some(Operation::StoreB),
            b'N' => Some(Operation::NoOperation),
            b'.' => Some(Operation::Halt),
            b'K' => Some(Operation::SelectStacker),
            b'1' => Some(Operation::ReadCard),
            b'2' => Some(Operation::WriteLine),
            b'3' => Some(Operation::WriteAndRead),
            b'4' => Some(Operation::PunchCard),
            b'5' => Some(Operation::ReadAndPunch),
            b'6' => Some(Operation::WriteAndPunch),
            b'7' => Some(Operation::WriteReadAndPunch),
            b'F' => Some(Operation::ControlCarriage),
            _ => None,
        }
    }

    /// The operation of this character; none if the character is no operation of this machine.
    pub fn from_char(char: Char) -> Option<Operation>
        ensures { result ≡ operation_of char }
    {
        Operation::from_graphic(char.graphic())
    }

    /// The place of its row.
    fn place(self) -> usize
        ensures value { result ≡ place_of self }
        ensures range { result < 29 }
    {
        self as usize
    }

    /// Its row.
    fn row(self) -> &'static Row
        ensures graphic { meaning_of result.now.0 ≡ Some self }
        ensures mnemonic { result.now.1 ≡ mnemonic_of self }
        ensures form { form_in result.now ≡ form_of self }
        ensures places { result.now.6 ≡ needs_places self }
    {
        &ROWS[self.place()]
    }

    /// The graphic of its character.
    pub fn graphic(self) -> u8
        ensures { meaning_of result ≡ Some self }
    {
        self.row().0
    }

    /// Its mnemonic: columns 16 to 20 of a source line.
    pub fn mnemonic(self) -> [u8; 5]
        ensures { result ≡ mnemonic_of self }
    {
        self.row().1
    }

    /// How many characters of its instructions are looked at, by the fifth of them: a branch with a blank there has
    /// four.
    pub fn longest(self, fifth: Char) -> u16
        ensures value { result ≡ (form_of self).longest fifth }
        ensures some { 0 < result }
        ensures most { result ≤ 8 }
    {
        self.row().4.up_to(fifth)
    }

    /// Whether the one address of an instruction goes into the B register too, or into the A register alone.
    pub fn loads_both(self) -> bool
        ensures { result ≡ (form_of self).loads_both }
    {
        self.row().5
    }

    /// Whether it looks first of all whether both addresses are those of places, and stops as `ADDRESS` if one isn't.
    pub fn needs_places(self) -> bool
        ensures { result ≡ needs_places self }
    {
        self.row().6
    }

    /// Whether this length belongs to a feature that this machine hasn't got: a move or a load of eight characters is
    /// one of tapes.
    pub fn is_unfitted_length(self, len: u16) -> bool
        ensures { result ≡ is_unfitted_length self len }
    {
        self.row().3.has(u32::from(len))
    }

    /// Whether an instruction of this operation may have this length.
    pub fn has_length(self, len: u16) -> bool
        ensures { result ≡ has_length self len }
    {
        self.row().2.has(u32::from(len))
    }
}

/// Whether the machine carries out an instruction of the operation with this graphic and this length; an operation of a
/// feature that it hasn't got has none.
pub fn is_fitted(graphic: u8, len: u32) -> bool
    ensures { result ≡ is_fitted graphic len }
{
    match Operation::from_graphic(graphic) {
        Some(operation) => operation.row().2.has(len),
        None => false,
    }
}

/// How many characters of an instruction of the operation with this graphic are looked at, by the fifth of them; eight
/// if there is no such operation.
pub fn longest_at(graphic: u8, fifth: Char) -> u16
    ensures value { result ≡ longest_at graphic fifth }
    ensures some { 0 < result }
    ensures most { result ≤ 8 }
{
    match Operation::from_graphic(graphic) {
        Some(operation) => operation.longest(fifth),
        None => 8,
    }
}
