//! What a line says, without its neighbours.
ghost use Rattle.std.specs.Prelude.{◌≡◌, ◌≤◌, length};
ghost use Rattle.autocoder_statements.specs.Description.{describe, is_entry};
ghost use Rattle.autocoder_statements.specs.Numbers.{number_between};
ghost use Rattle.autocoder_statements.specs.Operands.{operands_of};
ghost use Rattle.autocoder_statements.specs.Statement.{most_places, one_address};
ghost use Rattle.autocoder_statements.specs.Statement.{areas_of, span_of, body_with, body_of, statement_of};
ghost use Rattle.autocoder_statements.specs.Statement.{bytes_with};
ghost use Rattle.autocoder_statements.specs.Statement.{line_with, line_of, has_bad_operands, has_bad_label};
ghost use Rattle.autocoder_statements.specs.Statement.{lacks_field_label};
ghost use Rattle.autocoder_statements.specs.Statement.{label_of_line, is_end};

use crate::columns::{
    COLUMNS, bytes_before, columns_in, columns_of, has_foreign_bytes, is_comment, without_first,
};
use crate::constant::Constant;
use crate::description::{Addressing, Description, LabelRule};
use crate::label::{Label, LabelField};
use crate::language::Language;
use crate::mnemonic::{DCharacter, Form, Instruction, Operation};
use crate::numbers::number_between;
use crate::operands::{Operands, lone_operand, two_operands};

/// Areas of blanks: DA.
#[derive(Clone, Copy)]
pub struct Areas {
    /// How many there are, 1 to 99.
    pub count: u8,
    /// How many places each has, 1 to 999; up to 9,999 for the blanks of a DCW in the wider language.
    pub length: u16,
    /// Whether a group mark with a word mark follows the last, in the wider language.
    pub has_group_mark: bool,
    /// Whether a record mark without a word mark follows each, in the wider language.
    pub has_record_marks: bool,
    /// The index register that the symbols of their fields have, 0 for none; one in the wider language alone.
    pub index: u8,
    /// Whether the symbols of their fields count from 000, in the wider language.
    pub counts_from_zero: bool,
}

/// The places of a field in each area.
#[derive(Clone, Copy)]
pub struct Span {
    /// The first, counted from 1.
    pub first: u16,
    /// The last, no less than the first, and at most 999.
    pub last: u16,
    /// Whether the first has a word mark.
    pub is_marked: bool,
}

/// DSA, or DCW or DC of an address, in the wider language: a constant of three places.
#[derive(Clone, Copy)]
pub struct AddressConstant {
    /// Whether there is a word mark at its high place.
    pub is_marked: bool,
    /// Whether the address has a minus sign in front.
    pub is_negative: bool,
    /// The address, as the only operand.
    pub operands: Operands,
}

/// DCW or DC with a place in the columns for a label, in the wider language.
#[derive(Clone, Copy)]
pub struct PlacedConstant {
    /// The last of its places, in core or not.
    pub last: u32,
    /// Whether there is a word mark at its high place.
    pub is_marked: bool,
    /// The constant, if its operand says one.
    pub constant: Option<Constant>,
}

/// What CTL says of the machine that a program is for.
#[derive(Clone, Copy)]
pub enum SizeField {
    /// Nothing.
    Absent,
    /// Something that is no size.
    Malformed,
    /// The size of its core storage, one of 1,400 to 16,000 places.
    Size(u16),
}

/// What SFX makes of the symbols below it.
#[derive(Clone, Copy)]
pub enum SuffixField {
    /// They have no suffix.
    Absent,
    /// Something that is no suffix: they go on as above it.
    Malformed,
    /// Those of fewer than six characters have this one, a letter or a digit.
    Suffix(u8),
}

/// CHAIN: an operation, time and again.
#[derive(Clone, Copy)]
pub struct Chain {
    /// The graphic of the operation character of the instruction above it, if there is one.
    pub operation: Option<u8>,
    /// How many times, 1 to 99, if its operand says it.
    pub count: Option<u8>,
}

/// What a line asks for; without a value if its operands don't say one.
#[derive(Clone, Copy)]
pub enum Body {
    /// An operation that isn't known.
    Unknown,
    /// An instruction.
    Instruction(Instruction, Operands),
    /// DCW: a constant with a word mark at its high place.
    MarkedConstant(Option<Constant>),
    /// DC: a constant without a word mark.
    Constant(Option<Constant>),
    /// DS: this many places, 1 to 15,999.
    Space(Option<u16>),
    /// DA: areas of blanks.
    Areas(Option<Areas>),
    /// A field of areas.
    Field(Option<Span>),
    /// EQU: the value of the label.
    Equate(Operands),
    /// ORG: the next place.
    Origin(Operands),
    /// EX: literals are placed.
    Execute(Operands),
    /// END: the first instruction of the program.
    End(Operands),
    /// JOB, or ENT with the assembler's name, in the wider language: it is listed, and does nothing. Whether its
    /// operand is as it asks.
    Heading(bool),
    /// CTL, in the wider language: the size of core storage.
    Control(SizeField),
    /// A second CTL, which isn't known as an operation.
    SecondControl,
    /// SFX, in the wider language: the suffix of the symbols below it.
    Suffix(SuffixField),
    /// XFR, in the wider language: the program that was loaded so far would be entered here, and nothing is placed.
    Transfer(Operands),
    /// CHAIN, in the wider language: the operation above it, time and again.
    Chain(Chain),
    /// DSA, DCW and DC of an address, in the wider language.
    AddressConstant(AddressConstant),
    /// DCW of 51 to 9,999 blanks, in the wider language, with a word mark at the high place.
    Blanks(u16),
    /// DCW or DC of a constant at a place of its own, in the wider language.
    PlacedConstant(PlacedConstant),
    /// ORG, in the wider language: the next place, which it may give a label before. Without an address it is the one
    /// after the highest that was taken.
    LabelledOrigin(Operands),
    /// LTORG, in the wider language: the next place, likewise, from which literals are placed.
    LiteralOrigin(Operands),
    /// A field of areas, in the wider language: with a label or without.
    WideField(Option<Span>),
    /// EQU, in the wider language: the value may be counted from an asterisk, or be a unit.
    WideEquate(Operands),
    /// EX, in the wider language, likewise.
    WideExecute(Operands),
    /// END, in the wider language, likewise, or without an address: the program begins at its first instruction.
    WideEnd(Operands),
}

/// A label, and what a line asks for.
#[derive(Clone, Copy)]
pub struct Statement {
    /// What columns 6 to 15 say.
    pub label: LabelField,
    /// What columns 16 to 72 say.
    pub body: Body,
}

/// Whether a line's bytes can be those of a line.
#[derive(Clone, Copy)]
pub enum LineCheck {
    /// They can.
    Good,
    /// There are more than 80.
    Long,
    /// One of them can't stand in its column.
    Foreign,
}

/// What a line says by itself.
#[derive(Clone, Copy)]
pub struct Line {
    /// Whether its bytes can be those of a line.
    pub bytes: LineCheck,
    /// What it says; nothing if it is a comment.
    pub statement: Option<Statement>,
}

/// One address, without a d-character.
pub(crate) const ONE_ADDRESS: Form = Form {
    least: 1,
    most: 1,
    d: DCharacter::Never,
};

/// How many places there can be in an area.
pub(crate) const AREA_LENGTH: u32 = 999;

/// The areas that a word asks for: their number, an X, and their length.
pub(crate) fn areas_of(word: &[u8]) -> Option<Areas>
    ensures { result ≡ areas_of word.now }
{
    let (count, beyond) = word.split_at(bytes_before(b'X', word));
    let count = number_between(1, 99, count)?;
    let length = number_between(1, AREA_LENGTH, without_first(beyond))?;
    Some(Areas {
        count: count as u8,
        length: length as u16,
        has_group_mark: false,
        has_record_marks: false,
        index: 0,
        counts_from_zero: false,
    })
}

/// The span that two operands ask for: its first place, and its last.
pub(crate) fn span_of(columns: &[u8]) -> Option<Span>
    ensures { result ≡ span_of columns.now }
{
    let (first, last) = two_operands(columns);
    let first = number_between(1, AREA_LENGTH, first)?;
    let last = number_between(first, AREA_LENGTH, last)?;
    Some(Span {
        first: first as u16,
        last: last as u16,
        is_marked: true,
    })
}

/// How many places a word asks for.
pub(crate) fn space_of(word: &[u8]) -> Option<u16>
    ensures { result ≡ number_between 1 most_places word.now }
{
    match number_between(1, 15_999, word) {
        Some(places) => Some(places as u16),
        None => None,
    }
}

impl Operands {
    /// One address, without a d-character.
    pub(crate) fn one_address(language: Language, columns: &[u8]) -> Operands
        ensures { result ≡ operands_of language one_address columns.now }
    {
        Operands::from_columns(language, ONE_ADDRESS, columns)
    }
}

impl Body {
    /// What an operation with these columns for its operands asks for in the plain language.
    fn with_operation(operation: Operation, columns: &[u8]) -> Body
        ensures { result ≡ body_with operation columns.now }
    {
        match operation {
            Operation::Instruction(instruction) => Body::Instruction(
                instruction,
                Operands::from_columns(Language::Plain, instruction.form, columns),
            ),
            Operation::MarkedConstant => {
                Body::MarkedConstant(Constant::from_word(lone_operand(columns)))
            },
            Operation::Constant => Body::Constant(Constant::from_word(lone_operand(columns))),
            Operation::Space => Body::Space(space_of(lone_operand(columns))),
            Operation::Areas => Body::Areas(areas_of(lone_operand(columns))),
            Operation::Field => Body::Field(span_of(columns)),
            Operation::Equate => Body::Equate(Operands::one_address(Language::Plain, columns)),
            Operation::Origin => Body::Origin(Operands::one_address(Language::Plain, columns)),
            Operation::Execute => Body::Execute(Operands::one_address(Language::Plain, columns)),
            Operation::End => Body::End(Operands::one_address(Language::Plain, columns)),
        }
    }

    /// What the columns for an operation and those for its operands ask for in the plain language.
    fn from_columns(operation: &[u8], operands: &[u8]) -> Body
        ensures { result ≡ body_of operation.now operands.now }
    {
        match Operation::from_columns(operation) {
            Some(operation) => Body::with_operation(operation, operands),
            None => Body::Unknown,
        }
    }
}

impl Statement {
    /// What the columns of a line of the plain language say that is no comment.
    fn from_columns(columns: &[u8; COLUMNS]) -> Statement
        ensures { result ≡ statement_of columns.now }
    {
        Statement {
            label: LabelField::from_columns(Language::Plain, columns_in(columns, 6, 15)),
            body: Body::from_columns(columns_in(columns, 16, 20), columns_in(columns, 21, 72)),
        }
    }

    /// Whether the columns for a label hold something else, or EQU has no label, or a statement that takes none, as EX,
    /// has one. Whether a field of areas has a label is checked once it is known to be one.
    pub fn has_bad_label(self) -> bool
        ensures { result ≡ has_bad_label self }
    {
        self.body.describe().has_bad_label(&self)
    }

    /// Whether the operands aren't as the operation asks. Whether a field lies in its area is checked once the area
    /// is known.
    pub fn has_bad_operands(self) -> bool
        ensures { result ≡ has_bad_operands self.body }
    {
        !self.body.describe().is_well_formed
    }
}

impl Description {
    /// Whether the statement, which has this row, has a bad label, as `Statement::has_bad_label` says.
    pub fn has_bad_label(&self, statement: &Statement) -> bool
        requires { self.now ≡ describe statement.now.body }
        ensures { result ≡ has_bad_label statement.now }
    {
        match (statement.label, self.label) {
            (LabelField::Malformed, _)
            | (LabelField::Absent, LabelRule::Required)
            | (LabelField::Label(_), LabelRule::Forbidden) => true,
            (LabelField::Absent, LabelRule::Optional | LabelRule::Forbidden | LabelRule::OfField)
            | (
                LabelField::Label(_),
                LabelRule::Optional | LabelRule::Required | LabelRule::OfField,
            ) => false,
        }
    }

    /// Whether the statement, which has this row, has no label, and yet needs one if it is a field of areas.
    pub fn lacks_field_label(&self, statement: &Statement) -> bool
        requires { self.now ≡ describe statement.now.body }
        ensures { result ≡ lacks_field_label statement.now }
    {
        matches!(
            (statement.label, self.label),
            (LabelField::Absent, LabelRule::OfField)
        )
    }

    /// Whether it is the row of END.
    pub fn is_end(&self) -> bool
        ensures { result ≡ is_entry self.now.addressing }
    {
        matches!(self.addressing, Addressing::Entry(_))
    }
}

impl Line {
    /// What these columns say, of a line of this length.
    pub(crate) fn with_columns(len: usize, columns: &[u8; COLUMNS]) -> Line
        ensures { result ≡ line_with len columns.now }
    {
        Line {
            bytes: LineCheck::of(len, columns),
            statement: if is_comment(columns) {
                None
            } else {
                Some(Statement::from_columns(columns))
            },
        }
    }

    /// What a line says by itself: its bytes, without the line feed that ends it.
    pub fn from_bytes(line: &[u8]) -> Line
        ensures { result ≡ line_of line.now }
    {
        Line::with_columns(line.len(), &columns_of(line))
    }

    /// The label of the line, if it has a well-formed one, whatever else is wrong with it.
    pub fn label(&self) -> Option<Label>
        ensures { result ≡ label_of_line self.now }
    {
        match self.statement {
            Some(
                Statement {
                    label: LabelField::Label(label),
                    ..
                },
            ) => Some(label),
            Some(
                Statement {
                    label: LabelField::Absent | LabelField::Malformed,
                    ..
                },
            )
            | None => None,
        }
    }

    /// Whether the operation is END, whatever else is wrong with the line.
    pub fn is_end(&self) -> bool
        ensures { result ≡ is_end self.now }
    {
        match self.statement {
            Some(statement) => statement.body.describe().is_end(),
            None => false,
        }
    }
}

impl LineCheck {
    /// Whether a line of this length with these columns can be a line.
    fn of(len: usize, columns: &[u8; COLUMNS]) -> LineCheck
        ensures { result ≡ bytes_with len columns.now }
    {
        if len > COLUMNS {
            LineCheck::Long
        } else if has_foreign_bytes(columns) {
            LineCheck::Foreign
        } else {
            LineCheck::Good
        }
    }
}
