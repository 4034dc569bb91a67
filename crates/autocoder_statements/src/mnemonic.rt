//! The mnemonics: the words of columns 16 to 20.
ghost use Rattle.std.specs.Prelude.{◌≡◌, ℕ, List, find};
ghost use Rattle.std.specs.Str.{bytes_eq};
ghost use Rattle.autocoder_statements.specs.Mnemonic.{instructions, instruction_of};
ghost use Rattle.autocoder_statements.specs.Mnemonic.{assembler_operations};
ghost use Rattle.autocoder_statements.specs.Mnemonic.{assembler_operation_of, operation_of};

use machine_tables::mnemonics::{
    ADD, BRANCH, BRANCH_CHANNEL_NINE, BRANCH_CHANNEL_TWELVE, BRANCH_EQUAL, BRANCH_HIGH,
    BRANCH_LAST_CARD, BRANCH_LOW, BRANCH_ON_CELL, BRANCH_ON_CHARACTER, BRANCH_ON_SWITCH,
    BRANCH_ON_WORD_MARK, BRANCH_OVERFLOW, BRANCH_UNEQUAL, CLEAR_STORAGE, CLEAR_WORD_MARK, COMPARE,
    CONTROL_CARRIAGE, EDIT, HALT, LOAD, MOVE, MOVE_DIGIT, MOVE_ZONE, NO_OPERATION, PUNCH_CARD,
    READ_AND_PUNCH, READ_CARD, SELECT_STACKER, SET_WORD_MARK, STORE_A, STORE_B, SUBTRACT,
    WRITE_AND_PUNCH, WRITE_AND_READ, WRITE_LINE, WRITE_READ_AND_PUNCH, WRITE_WORD_MARKS, ZERO_ADD,
    ZERO_SUBTRACT, ZERO_SUPPRESS,
};

/// Whether an instruction has a d-character, and which.
#[derive(Clone, Copy)]
pub enum DCharacter {
    /// It has none.
    Never,
    /// It has this graphic, which the source doesn't write.
    Fixed(u8),
    /// It has one if the source writes one.
    Optional,
    /// The source writes one.
    Required,
}

/// The form of an instruction's operands.
#[derive(Clone, Copy)]
pub struct Form {
    /// How many addresses the source writes at the least.
    pub least: u8,
    /// The most addresses that the source writes.
    pub most: u8,
    /// The d-character after them.
    pub d: DCharacter,
}

/// An instruction of the machine as the source names it.
#[derive(Clone, Copy)]
pub struct Instruction {
    /// The graphic of the operation character.
    pub operation: u8,
    /// The form of the operands.
    pub form: Form,
}

/// What columns 16 to 20 of a line ask for.
#[derive(Clone, Copy)]
pub enum Operation {
    /// An instruction.
    Instruction(Instruction),
    /// DCW: a constant with a word mark.
    MarkedConstant,
    /// DC: a constant without one.
    Constant,
    /// DS: places.
    Space,
    /// DA: areas.
    Areas,
    /// Columns that are blank: a field of the areas above it.
    Field,
    /// EQU: a value for a label.
    Equate,
    /// ORG: the next place.
    Origin,
    /// EX: literals are placed, and a program that is loaded would be started.
    Execute,
    /// END: literals are placed, and the program begins at this address.
    End,
}

/// A row of the table of instructions.
pub(crate) type Row = ([u8; 5], u8, u8, u8, DCharacter);

/// A row of the table of the assembler's own operations.
pub(crate) type OwnRow = ([u8; 5], Operation);

/// The mnemonics of instructions in the manual's order: the columns 16 to 20, the graphic of the operation character,
/// how many addresses the source writes at least and at most, and the d-character.
static INSTRUCTIONS: [Row; 42] = [
    (ADD, b'A', 0, 2, DCharacter::Never),
    (SUBTRACT, b'S', 0, 2, DCharacter::Never),
    (ZERO_ADD, b'?', 0, 2, DCharacter::Never),
    (ZERO_SUBTRACT, b'!', 0, 2, DCharacter::Never),
    (*b"MLC  ", b'M', 0, 2, DCharacter::Never),
    (MOVE, b'M', 0, 2, DCharacter::Never),
    (LOAD, b'L', 0, 2, DCharacter::Never),
    (MOVE_DIGIT, b'D', 0, 2, DCharacter::Never),
    (MOVE_ZONE, b'Y', 0, 2, DCharacter::Never),
    (SET_WORD_MARK, b',', 0, 2, DCharacter::Never),
    (CLEAR_WORD_MARK, b')', 0, 2, DCharacter::Never),
    (CLEAR_STORAGE, b'/', 0, 2, DCharacter::Never),
    (COMPARE, b'C', 0, 2, DCharacter::Never),
    (ZERO_SUPPRESS, b'Z', 0, 2, DCharacter::Never),
    (EDIT, b'E', 0, 2, DCharacter::Never),
    (BRANCH, b'B', 1, 1, DCharacter::Optional),
    (BRANCH_ON_CHARACTER, b'B', 2, 2, DCharacter::Required),
    (BRANCH_ON_CELL, b'V', 2, 2, DCharacter::Required),
    (BRANCH_ON_WORD_MARK, b'V', 2, 2, DCharacter::Fixed(b'1')),
    (BRANCH_UNEQUAL, b'B', 1, 1, DCharacter::Fixed(b'/')),
    (BRANCH_OVERFLOW, b'B', 1, 1, DCharacter::Fixed(b'Z')),
    (BRANCH_LAST_CARD, b'B', 1, 1, DCharacter::Fixed(b'A')),
    (BRANCH_CHANNEL_NINE, b'B', 1, 1, DCharacter::Fixed(b'9')),
    (BRANCH_CHANNEL_TWELVE, b'B', 1, 1, DCharacter::Fixed(b'@')),
    (BRANCH_EQUAL, b'B', 1, 1, DCharacter::Fixed(b'S')),
    (BRANCH_LOW, b'B', 1, 1, DCharacter::Fixed(b'T')),
    (BRANCH_HIGH, b'B', 1, 1, DCharacter::Fixed(b'U')),
    (BRANCH_ON_SWITCH, b'B', 1, 1, DCharacter::Required),
    (STORE_A, b'Q', 1, 1, DCharacter::Never),
    (STORE_B, b'H', 1, 1, DCharacter::Never),
    (READ_CARD, b'1', 0, 1, DCharacter::Never),
    (WRITE_LINE, b'2', 0, 1, DCharacter::Never),
    (WRITE_AND_READ, b'3', 0, 1, DCharacter::Never),
    (PUNCH_CARD, b'4', 0, 1, DCharacter::Never),
    (READ_AND_PUNCH, b'5', 0, 1, DCharacter::Never),
    (WRITE_AND_PUNCH, b'6', 0, 1, DCharacter::Never),
    (WRITE_READ_AND_PUNCH, b'7', 0, 1, DCharacter::Never),
    (WRITE_WORD_MARKS, b'2', 0, 1, DCharacter::Fixed(b')')),
    (CONTROL_CARRIAGE, b'F', 0, 0, DCharacter::Required),
    (SELECT_STACKER, b'K', 0, 0, DCharacter::Required),
    (NO_OPERATION, b'N', 0, 0, DCharacter::Never),
    (HALT, b'.', 0, 1, DCharacter::Never),
];

/// The mnemonics of the assembler's own operations.
static ASSEMBLER_OPERATIONS: [OwnRow; 9] = [
    (*b"DCW  ", Operation::MarkedConstant),
    (*b"DC   ", Operation::Constant),
    (*b"DS   ", Operation::Space),
    (*b"DA   ", Operation::Areas),
    (*b"EQU  ", Operation::Equate),
    (*b"ORG  ", Operation::Origin),
    (*b"EX   ", Operation::Execute),
    (*b"END  ", Operation::End),
    (*b"     ", Operation::Field),
];

/// The table of instructions.
#[tactic(auto, unfolding(crate::specs::Mnemonic::instructions))]
pub(crate) fn instructions() -> &'static [Row]
    ensures { result.now ≡ instructions }
{
    &INSTRUCTIONS
}

/// The table of the assembler's own operations.
#[tactic(auto, unfolding(crate::specs::Mnemonic::assembler_operations))]
pub(crate) fn assembler_operations() -> &'static [OwnRow]
    ensures { result.now ≡ assembler_operations }
{
    &ASSEMBLER_OPERATIONS
}

/// A row of a table of mnemonics.
pub(crate) trait Named: Copy {
    ghost word: { Self → List ℕ };

    /// The columns 16 to 20.
    fn name(&self) -> [u8; 5]
        ensures { result ≡ word self.now };
}

impl Named for Row {
    ghost word = { λ row. row.0 };

    fn name(&self) -> [u8; 5] {
        self.0
    }
}

impl Named for OwnRow {
    ghost word = { λ row. row.0 };

    fn name(&self) -> [u8; 5] {
        self.0
    }
}

/// The first row of these columns.
pub(crate) fn row_of<R: Named>(rows: &[R], columns: &[u8]) -> Option<R>
    ensures { result ≡ find (λ (row : R). bytes_eq (R.word row) columns.now) rows.now }
{
    for row in rows {
        if row.name().as_slice() == columns {
            return Some(*row);
        }
    }
    None
}

/// The instruction that the columns ask for, if they ask for one.
fn instruction_of(columns: &[u8]) -> Option<Instruction>
    ensures { result ≡ instruction_of columns.now }
{
    match row_of(instructions(), columns) {
        Some((_, operation, least, most, d)) => Some(Instruction {
            operation,
            form: Form { least, most, d },
        }),
        None => None,
    }
}

/// What the columns ask for of the assembler itself, if they do.
fn assembler_operation_of(columns: &[u8]) -> Option<Operation>
    ensures { result ≡ assembler_operation_of columns.now }
{
    match row_of(assembler_operations(), columns) {
        Some((_, operation)) => Some(operation),
        None => None,
    }
}

impl Operation {
    /// What the columns 16 to 20 ask for, if they ask for anything that is known.
    pub(crate) fn from_columns(columns: &[u8]) -> Option<Operation>
        ensures { result ≡ operation_of columns.now }
    {
        match instruction_of(columns) {
            Some(instruction) => Some(Operation::Instruction(instruction)),
            None => assembler_operation_of(columns),
        }
    }
}
