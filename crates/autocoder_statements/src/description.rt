//! The table of the kinds of statement: a row for each kind, a column for each thing that the assembler asks of one.
//!
//! A new kind of statement is a new row. What the assembler does with a statement, it does by the columns.
ghost use Rattle.std.specs.Prelude.{◌≡◌};
ghost use Rattle.autocoder_statements.specs.Description.{field_row, equate_row, origin_row, execute_row, end_row};
ghost use Rattle.autocoder_statements.specs.Description.{places_of_constant, first_place, placed_row, remark};
ghost use Rattle.autocoder_statements.specs.Description.{describe, operands_in, body_under};
ghost use Rattle.autocoder_statements.specs.AreaLiterals.{areas_of_body};
ghost use Rattle.autocoder_statements.specs.declared.statement.Body.TheVariants as bodies;

use crate::address::{Address, Base};
use crate::area_literals::{DeclaredAreas, NO_AREAS};
use crate::constant::Constant;
use crate::mnemonic::Instruction;
use crate::operands::{Operand, OperandField, Operands};
use crate::statement::{
    AddressConstant, Areas, Body, Chain, PlacedConstant, SizeField, Span, SuffixField,
};
use crate::symbols::SymbolRule;

/// Whether a statement has a label.
#[derive(Clone, Copy)]
pub enum LabelRule {
    /// It may have one.
    Optional,
    /// It must have one.
    Required,
    /// It must not.
    Forbidden,
    /// It must have one if it is a field of areas, which the lines above it say.
    OfField,
}

/// A place or a value that a statement has.
#[derive(Clone, Copy)]
pub enum Point {
    /// Its first place: the next one, if it takes none.
    First,
    /// Its last place.
    Last,
    /// This place, counted from 1, of the first of the areas above it.
    InArea(u16),
    /// This place, counted from 1, as the symbols of the fields of the areas above it count.
    Counted(u16),
    /// The value of its operand.
    Value,
}

/// The operands in which a label may stand, and which labels that may be.
#[derive(Clone, Copy)]
pub enum Addressing {
    /// There are none.
    Nothing,
    /// Addresses and literals of an instruction, with the label of any line.
    Addresses(Operands),
    /// A value, with the label of an earlier line.
    EarlierValue(Operands),
    /// The value of a label, with the label of an earlier line, or in the wider language of any line.
    Equal(Operands),
    /// A value, with the label of any line.
    Value(Operands),
    /// The same, and it is the address at which the program begins: the source ends here.
    Entry(Operands),
}

/// What becomes of the next place.
#[derive(Clone, Copy)]
pub enum Next {
    /// It is the one after the statement's places.
    Beyond,
    /// The literals used so far are placed, and it is the one after them.
    Literals,
    /// It is the value of the operand.
    Value,
    /// The literals used so far are placed from the value of the operand on, and it is the one after them.
    LiteralsAtValue,
    /// It stays: the statement's places are from the value of its operand on.
    Elsewhere,
}

/// What a statement is to areas (DA).
#[derive(Clone, Copy)]
pub enum AreaRole {
    /// Below it there are no fields of areas.
    Ends,
    /// It is as a comment is: below it there are fields of areas if there are above it.
    Keeps,
    /// It makes areas. Without a value its operands don't say them.
    Makes(Option<Areas>),
    /// It is a field of the areas above it. Without a value its operands don't say its places.
    Divides(Option<Span>),
}

/// What fills a statement's places.
#[derive(Clone, Copy)]
pub enum Contents {
    /// It has no places.
    Nothing,
    /// An instruction.
    Instruction(Instruction, Operands),
    /// A constant, with a word mark at its high place.
    MarkedConstant(Option<Constant>),
    /// A constant without a word mark.
    Constant(Option<Constant>),
    /// What stood there before.
    Space(Option<u16>),
    /// Blanks, with the word marks of areas and their fields.
    Areas(Option<Areas>),
    /// Instructions of one character each, which are all the same one.
    Chain(Chain),
    /// An address, as an instruction has it.
    AddressConstant(AddressConstant),
}

/// What a statement has to do with the lines around it.
#[derive(Clone, Copy)]
pub enum Relation {
    /// Nothing: a chain doesn't go on below it.
    Apart,
    /// It is an instruction with this operation, a graphic, which CHAIN may repeat below it.
    Repeated(u8),
    /// It repeats the operation above it, as CHAIN does.
    Repeats(Chain),
    /// It is a CTL, which says this of the size of core storage.
    Control(SizeField),
    /// It is a CTL below another.
    SecondControl,
    /// It says this of the suffix of the symbols below it.
    Suffix(SuffixField),
}

/// What the assembler asks of a statement: a row of the table.
#[derive(Clone, Copy)]
pub struct Description {
    /// Whether the operation is known.
    pub is_known: bool,
    /// Whether the operands are as the operation asks, whatever the other lines are.
    pub is_well_formed: bool,
    /// Whether it has a label.
    pub label: LabelRule,
    /// The place that its label names.
    pub names: Point,
    /// The address that the listing shows.
    pub shows: Point,
    /// The operands in which a label may stand.
    pub addressing: Addressing,
    /// What becomes of the next place.
    pub next: Next,
    /// What it is to areas.
    pub areas: AreaRole,
    /// What fills its places.
    pub contents: Contents,
    /// What it has to do with the lines around it.
    pub relation: Relation,
    /// Whether it is listed as a comment is, without an address and cells.
    pub is_remark: bool,
}

/// What a row says in the columns that it doesn't name.
const PLAIN: Description = Description {
    is_known: true,
    is_well_formed: true,
    label: LabelRule::Optional,
    names: Point::First,
    shows: Point::First,
    addressing: Addressing::Nothing,
    next: Next::Beyond,
    areas: AreaRole::Ends,
    contents: Contents::Nothing,
    relation: Relation::Apart,
    is_remark: false,
};

/// The row of a field of areas with this rule of its label.
fn field_row(label: LabelRule, span: &Option<Span>) -> Description
    ensures { result ≡ field_row label span.now }
{
    match *span {
        None => Description {
            is_well_formed: false,
            label,
            areas: AreaRole::Divides(None),
            ..PLAIN
        },
        Some(span) => Description {
            label,
            names: Point::Counted(span.last),
            shows: Point::InArea(span.first),
            areas: AreaRole::Divides(Some(span)),
            ..PLAIN
        },
    }
}

/// The row of an operation that isn't known.
fn unknown_row() -> Description
    ensures { result ≡ describe bodies.Unknown }
{
    Description {
        is_known: false,
        ..PLAIN
    }
}

/// The row of an instruction.
fn instruction_row(instruction: &Instruction, operands: &Operands) -> Description
    ensures { result ≡ describe (bodies.Instruction instruction.now operands.now) }
{
    Description {
        is_well_formed: !operands.are_malformed(),
        addressing: Addressing::Addresses(*operands),
        contents: Contents::Instruction(*instruction, *operands),
        relation: Relation::Repeated(instruction.operation),
        ..PLAIN
    }
}

/// The row of DCW.
fn marked_constant_row(constant: &Option<Constant>) -> Description
    ensures { result ≡ describe (bodies.MarkedConstant constant.now) }
{
    Description {
        is_well_formed: constant.is_some(),
        names: Point::Last,
        contents: Contents::MarkedConstant(*constant),
        ..PLAIN
    }
}

/// The row of DC.
fn constant_row(constant: &Option<Constant>) -> Description
    ensures { result ≡ describe (bodies.Constant constant.now) }
{
    Description {
        is_well_formed: constant.is_some(),
        names: Point::Last,
        contents: Contents::Constant(*constant),
        ..PLAIN
    }
}

/// The row of DS.
fn space_row(places: Option<u16>) -> Description
    ensures { result ≡ describe (bodies.Space places) }
{
    Description {
        is_well_formed: places.is_some(),
        names: Point::Last,
        contents: Contents::Space(places),
        ..PLAIN
    }
}

/// The row of DA.
fn areas_row(areas: &Option<Areas>) -> Description
    ensures { result ≡ describe (bodies.Areas areas.now) }
{
    Description {
        is_well_formed: areas.is_some(),
        areas: AreaRole::Makes(*areas),
        contents: Contents::Areas(*areas),
        ..PLAIN
    }
}

/// The row of DCW of many blanks: they are placed as one area is, which has no fields.
fn blanks_row(places: u16) -> Description
    ensures { result ≡ describe (bodies.Blanks places) }
{
    Description {
        names: Point::Last,
        contents: Contents::Areas(Some(Areas {
            count: 1,
            length: places,
            has_group_mark: false,
            has_record_marks: false,
            index: 0,
            counts_from_zero: false,
        })),
        ..PLAIN
    }
}

/// The first place of a constant of this length that ends at a place, as the only operand.
fn first_place(last: u32, length: u8) -> Operands
    ensures { result ≡ first_place last length }
{
    Operands {
        a: OperandField::Operand(Operand::Address(Address {
            base: Base::Number(last),
            adjustment: -i32::from(length.saturating_sub(1)),
            index: None,
        })),
        b: OperandField::Absent,
        d: None,
        is_whole: true,
    }
}

/// How many places a constant takes; none if there is none.
fn places_of_constant(constant: &Option<Constant>) -> u8
    ensures { result ≡ places_of_constant constant.now }
{
    match constant {
        Some(constant) => constant.graphics(),
        None => 0,
    }
}

/// The row of DCW and DC at a place of its own.
fn placed_row(placed: &PlacedConstant) -> Description
    ensures { result ≡ placed_row placed.now }
{
    Description {
        is_well_formed: placed.constant.is_some(),
        label: LabelRule::Forbidden,
        names: Point::Value,
        shows: Point::Value,
        addressing: Addressing::EarlierValue(first_place(
            placed.last,
            places_of_constant(&placed.constant),
        )),
        next: Next::Elsewhere,
        contents: if placed.is_marked {
            Contents::MarkedConstant(placed.constant)
        } else {
            Contents::Constant(placed.constant)
        },
        ..PLAIN
    }
}

/// The row of EQU, whose operands are as it asks or not; one of a unit is listed as a comment is.
fn equate_row(operands: &Operands, is_well_formed: bool, is_remark: bool) -> Description
    ensures { result ≡ record (equate_row operands.now) {
      is_well_formed = is_well_formed;
      is_remark = is_remark;
    } }
{
    Description {
        is_well_formed,
        label: LabelRule::Required,
        names: Point::Value,
        shows: Point::Value,
        addressing: Addressing::Equal(*operands),
        is_remark,
        ..PLAIN
    }
}

/// The row of ORG and LTORG, whose operands are as it asks or not, with this rule of its label.
fn origin_row(
    operands: &Operands,
    is_well_formed: bool,
    label: LabelRule,
    next: Next,
) -> Description
    ensures { result ≡ record (origin_row operands.now) {
      is_well_formed = is_well_formed;
      label = label;
      next = next;
    } }
{
    Description {
        is_well_formed,
        label,
        shows: Point::Value,
        addressing: Addressing::EarlierValue(*operands),
        next,
        ..PLAIN
    }
}

/// The row of EX and XFR, whose operands are as it asks or not.
fn execute_row(operands: &Operands, is_well_formed: bool, next: Next) -> Description
    ensures { result ≡ record (execute_row operands.now) {
      is_well_formed = is_well_formed;
      next = next;
    } }
{
    Description {
        is_well_formed,
        label: LabelRule::Forbidden,
        shows: Point::Value,
        addressing: Addressing::Value(*operands),
        next,
        ..PLAIN
    }
}

/// The row of END, whose operands are as it asks or not.
fn end_row(operands: &Operands, is_well_formed: bool) -> Description
    ensures { result ≡ record (end_row operands.now) { is_well_formed = is_well_formed } }
{
    Description {
        is_well_formed,
        label: LabelRule::Forbidden,
        shows: Point::Value,
        addressing: Addressing::Entry(*operands),
        next: Next::Literals,
        ..PLAIN
    }
}

/// The row of a remark, whose operation is known or not, and whose operands are as it asks or not, with this relation to
/// the lines around it.
fn remark_row(is_known: bool, is_well_formed: bool, relation: Relation) -> Description
    ensures { result ≡ record remark {
      is_known = is_known;
      is_well_formed = is_well_formed;
      relation = relation;
    } }
{
    Description {
        is_known,
        is_well_formed,
        label: LabelRule::Forbidden,
        areas: AreaRole::Keeps,
        relation,
        is_remark: true,
        ..PLAIN
    }
}

/// The row of CHAIN.
fn chain_row(chain: Chain) -> Description
    ensures { result ≡ describe (bodies.Chain chain) }
{
    Description {
        is_known: chain.operation.is_some(),
        is_well_formed: chain.count.is_some(),
        contents: Contents::Chain(chain),
        relation: Relation::Repeats(chain),
        ..PLAIN
    }
}

/// The row of DSA, and of DCW and DC of an address.
fn address_constant_row(constant: &AddressConstant) -> Description
    ensures { result ≡ describe (bodies.AddressConstant constant.now) }
{
    Description {
        is_well_formed: constant.operands.are_one_address(),
        names: Point::Last,
        addressing: Addressing::Addresses(constant.operands),
        contents: Contents::AddressConstant(*constant),
        ..PLAIN
    }
}

impl Body {
    /// The row of the statement.
    pub fn describe(self) -> Description
        ensures { result ≡ describe self }
    {
        self.row()
    }

    /// The row of the statement, which is read in place. Each kind has a function of its own, since a function has to
    /// make room at its entry for the values of all of its arms.
    #[inline(never)]
    pub(crate) fn row(&self) -> Description
        ensures { result ≡ describe self.now }
    {
        match self {
            Body::Unknown => unknown_row(),
            Body::Instruction(instruction, operands) => instruction_row(instruction, operands),
            Body::MarkedConstant(constant) => marked_constant_row(constant),
            Body::Constant(constant) => constant_row(constant),
            Body::Space(places) => space_row(*places),
            Body::Areas(areas) => areas_row(areas),
            Body::Field(span) => field_row(LabelRule::OfField, span),
            Body::WideField(span) => field_row(LabelRule::Optional, span),
            Body::Equate(operands) => equate_row(operands, operands.are_value(), false),
            Body::WideEquate(operands) => {
                equate_row(operands, operands.are_wide_equal(), operands.a.is_unit())
            },
            Body::Origin(operands) => {
                origin_row(
                    operands,
                    operands.are_value(),
                    LabelRule::Forbidden,
                    Next::Value,
                )
            },
            Body::LabelledOrigin(operands) => origin_row(
                operands,
                operands.are_open_origin(),
                LabelRule::Optional,
                Next::Value,
            ),
            Body::LiteralOrigin(operands) => origin_row(
                operands,
                operands.are_wide_origin(),
                LabelRule::Optional,
                Next::LiteralsAtValue,
            ),
            Body::Execute(operands) => execute_row(operands, operands.are_value(), Next::Literals),
            Body::WideExecute(operands) => execute_row(
                operands,
                operands.are_wide_value(),
                Next::Literals,
            ),
            Body::End(operands) => end_row(operands, operands.are_value()),
            Body::WideEnd(operands) => end_row(operands, operands.are_wide_entry()),
            Body::Heading(is_well_formed) => remark_row(true, *is_well_formed, Relation::Apart),
            Body::Control(size) => remark_row(true, !size.is_malformed(), Relation::Control(*size)),
            Body::SecondControl => remark_row(false, true, Relation::SecondControl),
            Body::Suffix(suffix) => remark_row(
                true,
                !suffix.is_malformed(),
                Relation::Suffix(*suffix),
            ),
            Body::Transfer(operands) => execute_row(
                operands,
                operands.are_wide_value(),
                Next::Beyond,
            ),
            Body::Chain(chain) => chain_row(*chain),
            Body::AddressConstant(constant) => address_constant_row(constant),
            Body::Blanks(places) => blanks_row(*places),
            Body::PlacedConstant(placed) => placed_row(placed),
        }
    }
}

impl Body {
    /// The relation of the statement's row, without the other columns: far less to write than a row.
    pub fn relation(&self) -> Relation
        ensures { result ≡ (describe self.now).relation }
    {
        match *self {
            Body::Instruction(instruction, _) => Relation::Repeated(instruction.operation),
            Body::Control(size) => Relation::Control(size),
            Body::SecondControl => Relation::SecondControl,
            Body::Suffix(suffix) => Relation::Suffix(suffix),
            Body::Chain(chain) => Relation::Repeats(chain),
            Body::Unknown
            | Body::MarkedConstant(_)
            | Body::Constant(_)
            | Body::Space(_)
            | Body::Areas(_)
            | Body::Field(_)
            | Body::WideField(_)
            | Body::Equate(_)
            | Body::WideEquate(_)
            | Body::Origin(_)
            | Body::LabelledOrigin(_)
            | Body::LiteralOrigin(_)
            | Body::Execute(_)
            | Body::WideExecute(_)
            | Body::End(_)
            | Body::WideEnd(_)
            | Body::Heading(_)
            | Body::Transfer(_)
            | Body::AddressConstant(_)
            | Body::Blanks(_)
            | Body::PlacedConstant(_) => Relation::Apart,
        }
    }
}

impl Addressing {
    /// The operands; none if the statement has none.
    pub fn operands(self) -> Operands
        ensures { result ≡ operands_in self }
    {
        match self {
            Addressing::Nothing => Operands {
                a: OperandField::Absent,
                b: OperandField::Absent,
                d: None,
                is_whole: true,
            },
            Addressing::Addresses(operands)
            | Addressing::EarlierValue(operands)
            | Addressing::Equal(operands)
            | Addressing::Value(operands)
            | Addressing::Entry(operands) => operands,
        }
    }
}

impl Body {
    /// The area literals of the contents of the statement's row, without the row: far less to write than a row.
    pub(crate) fn areas(&self) -> DeclaredAreas
        ensures { result ≡ areas_of_body self.now }
    {
        match *self {
            Body::Instruction(_, operands) => operands.areas(),
            Body::Unknown
            | Body::MarkedConstant(_)
            | Body::Constant(_)
            | Body::Space(_)
            | Body::Areas(_)
            | Body::Field(_)
            | Body::Equate(_)
            | Body::Origin(_)
            | Body::Execute(_)
            | Body::End(_)
            | Body::Heading(_)
            | Body::Control(_)
            | Body::SecondControl
            | Body::Suffix(_)
            | Body::Transfer(_)
            | Body::Chain(_)
            | Body::AddressConstant(_)
            | Body::Blanks(_)
            | Body::PlacedConstant(_)
            | Body::LabelledOrigin(_)
            | Body::LiteralOrigin(_)
            | Body::WideField(_)
            | Body::WideEquate(_)
            | Body::WideExecute(_)
            | Body::WideEnd(_) => NO_AREAS,
        }
    }
}

impl Body {
    /// What the line asks for, with its symbols as the rule reads them.
    pub(crate) fn under(self, rule: SymbolRule) -> Body
        ensures { result ≡ body_under rule self }
    {
        match self {
            Body::Instruction(instruction, operands) => {
                Body::Instruction(instruction, operands.under(rule))
            },
            Body::Equate(operands) => Body::Equate(operands.under(rule)),
            Body::Origin(operands) => Body::Origin(operands.under(rule)),
            Body::Execute(operands) => Body::Execute(operands.under(rule)),
            Body::End(operands) => Body::End(operands.under(rule)),
            Body::Transfer(operands) => Body::Transfer(operands.under(rule)),
            Body::AddressConstant(constant) => Body::AddressConstant(AddressConstant {
                operands: constant.operands.under(rule),
                ..constant
            }),
            Body::LabelledOrigin(operands) => Body::LabelledOrigin(operands.under(rule)),
            Body::LiteralOrigin(operands) => Body::LiteralOrigin(operands.under(rule)),
            Body::WideEquate(operands) => Body::WideEquate(operands.under(rule)),
            Body::WideExecute(operands) => Body::WideExecute(operands.under(rule)),
            Body::WideEnd(operands) => Body::WideEnd(operands.under(rule)),
            Body::Unknown
            | Body::MarkedConstant(_)
            | Body::Constant(_)
            | Body::Space(_)
            | Body::Areas(_)
            | Body::Field(_)
            | Body::WideField(_)
            | Body::Heading(_)
            | Body::Control(_)
            | Body::SecondControl
            | Body::Suffix(_)
            | Body::Chain(_)
            | Body::Blanks(_)
            | Body::PlacedConstant(_) => self,
        }
    }
}
