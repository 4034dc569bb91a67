//! Where statements and literals are placed.
ghost use Rattle.std.specs.Prelude.{◌≡◌, ◌+◌, ◌∷◌, ◌<◌, [], Some, drop, fold, length, IfOk, IfErr, OnOk};
ghost use Rattle.std.specs.List.{list_any};
ghost use Rattle.autocoder_statements.specs.Description.{describe};
ghost use Rattle.autocoder_statements.specs.Statement.{well_formed};
ghost use Rattle.autocoder_symbols.specs.Chains.{chains_of};
ghost use Rattle.autocoder_symbols.specs.Fault.{IsMemory};
ghost use Rattle.autocoder_symbols.specs.Symbols.{sites_of};
ghost use Rattle.autocoder_symbols.specs.View.{chains_view};
ghost use Rattle.autocoder_placing.specs.Placement.{nothing_placed, with_operand, with_pending};
ghost use Rattle.autocoder_placing.specs.Placement.{with_uses};
ghost use Rattle.autocoder_placing.specs.Literals.{key_of, same_key};
ghost use Rattle.autocoder_placing.specs.Placement.{pending, beyond_literals, unplaced, with_area, with_area_labels};
ghost use Rattle.autocoder_placing.specs.Placement.{contents_length, value_so_far, index_so_far, asked_value};
ghost use Rattle.autocoder_placing.specs.Placement.{first_of_two};
ghost use Rattle.autocoder_placing.specs.Placement.{end_of_two, with_areas, own_value};
ghost use Rattle.autocoder_placing.specs.Placement.{start_by, with_ends, point_value, point_index, label_value};
ghost use Rattle.autocoder_placing.specs.Placement.{next_moved};
ghost use Rattle.autocoder_placing.specs.Placement.{highest_with, taken_up_to, label_unit};
ghost use Rattle.autocoder_placing.specs.Placement.{gone_on, beyond_row, with_label, placed_after, after_statement};
ghost use Rattle.autocoder_placing.specs.Placement.{placed};
ghost use Rattle.autocoder_placing.specs.UsedLiterals.{all_placed, none_used, pending_of};
ghost use Rattle.autocoder_placing.specs.Values.{last_place};
ghost use Rattle.autocoder_placing.specs.View.{places_of};

use crate::label_values::LabelValues;
use crate::lengths::{contents_length, last_place};
use crate::literals::LiteralKey;
use crate::symbol_values::SymbolValue;
use crate::used_literals::UsedLiterals;
use autocoder_statements::{
    Addressing, AreaRole, Body, Contents, Description, Label, LabelField, Line, Literal, Next,
    Operand, OperandField, Point, Statement, Unit,
};
use autocoder_symbols::{AsmFault, Chains, Lines, SourceHashing, checked_sum};
use std::alloc::Global;

/// Where a program is placed without ORG.
pub(crate) const USUAL_PLACE: i64 = 333;

/// What is placed so far.
#[derive(Drop)]
pub struct Placing<'a> {
    /// The chains of EQUs of all lines.
    pub chains: &'a Chains,
    /// The next place.
    pub next: i64,
    /// The place after the highest that is taken, if one is.
    pub highest: Option<i64>,
    /// The first place of the last areas.
    pub areas: i64,
    /// The place that the labels of their fields are counted from.
    pub fields_from: i64,
    /// The index that the labels of their fields have.
    pub fields_index: u8,
    /// The place of the first instruction.
    pub first_instruction: Option<i64>,
    /// The next place as it was before END.
    pub before_end: i64,
    /// The values of labels.
    pub values: LabelValues<'a>,
    /// The literals in the order of their first use, and the units places of those that are placed.
    pub literals: UsedLiterals<'a>,
    /// How labels and literals are hashed.
    pub hashing: SourceHashing,
}

/// The place of the first instruction, once contents begin at a place.
fn first_of_two(first: Option<i64>, place: i64, contents: &Contents) -> Option<i64>
    ensures { result ≡ first_of_two first place contents.now }
{
    match contents {
        Contents::Instruction(..) => Some(first.unwrap_or(place)),
        Contents::Nothing
        | Contents::MarkedConstant(_)
        | Contents::Constant(_)
        | Contents::Space(_)
        | Contents::Areas(_)
        | Contents::Chain(_)
        | Contents::AddressConstant(_) => first,
    }
}

/// The next place as it was before END, once a statement is at a place.
fn end_of_two(before: i64, place: i64, addressing: &Addressing) -> i64
    ensures { result ≡ end_of_two before place addressing.now }
{
    match addressing {
        Addressing::Entry(_) => place,
        Addressing::Nothing
        | Addressing::Addresses(_)
        | Addressing::EarlierValue(_)
        | Addressing::Equal(_)
        | Addressing::Value(_) => before,
    }
}

/// The unit that EQU gives its label, if it gives it one.
fn label_unit(addressing: &Addressing) -> Option<Unit>
    ensures { result ≡ label_unit addressing.now }
{
    match addressing {
        Addressing::Equal(operands) => match operands.a {
            OperandField::Operand(Operand::Unit(unit)) => Some(unit),
            OperandField::Operand(Operand::Address(_) | Operand::Literal(_))
            | OperandField::Absent
            | OperandField::Malformed => None,
        },
        Addressing::Nothing
        | Addressing::Addresses(_)
        | Addressing::EarlierValue(_)
        | Addressing::Value(_)
        | Addressing::Entry(_) => None,
    }
}

/// The place after the highest that is taken, once all from a first place up to the one before another are.
fn highest_with(highest: Option<i64>, first: i64, beyond: i64) -> Option<i64>
    ensures { result ≡ highest_with highest first beyond }
{
    if first >= beyond {
        return highest;
    }
    match highest {
        Some(highest) if highest >= beyond => Some(highest),
        Some(_) | None => Some(beyond),
    }
}

/// Gives the label of an area literal its units place.
fn give_area(values: &mut LabelValues<'_>, units: i64, literal: LiteralKey) -> Result<(), AsmFault>
    ensures ok { OnOk result (values.new ≡ with_area values.old units literal) }
    ensures err { IfErr result IsMemory }
{
    match literal {
        LiteralKey::Area(area) => {
            let value = SymbolValue {
                value: units,
                index: 0,
                unit: None,
            };
            values.insert(area.label, value)?;
        },
        LiteralKey::Characters(_) | LiteralKey::Address(_) => {},
    }
    Ok(())
}

/// Places the literals that are used and not placed from a place on, gives the labels of the area literals among them
/// their units places, and says which place is next.
fn place_literals(
    from: i64,
    values: &mut LabelValues<'_>,
    literals: &mut UsedLiterals<'_>,
) -> Result<i64, AsmFault>
    ensures next { IfOk result (λ next. next ≡ beyond_literals from (pending_of literals.old)) }
    ensures values { OnOk result (values.new ≡ with_area_labels values.old from (pending_of literals.old)) }
    ensures literals { OnOk result (literals.new ≡ all_placed literals.old from) }
    ensures err { IfErr result IsMemory }
{
    let first = literals.placed();
    let mut next = from;
    for i in first..literals.len() {
        let literal = LiteralKey::from_literal(literals.literal(i));
        let beyond = checked_sum(next, i64::from(literal.len()))?;
        let units = checked_sum(beyond, -1)?;
        give_area(values, units, literal)?;
        literals.place(units)?;
        next = beyond;
    }
    Ok(next)
}

impl<'a> Placing<'a> {
    /// Before the first line, with these chains of EQUs.
    pub fn new(alloc: Global, hashing: SourceHashing, chains: &'a Chains) -> Placing<'a>
        ensures { places_of result ≡ nothing_placed (chains_view chains.now) }
    {
        let values = LabelValues::new(alloc, hashing);
        let literals = UsedLiterals::new(alloc, hashing);
        Placing::before_lines(hashing, chains, values, literals)
    }

    /// Before the first line, where the lines that are placed here are expected to be placed again: what they give then
    /// takes no memory.
    pub fn again(&self, alloc: Global) -> Placing<'_>
        ensures { places_of result ≡ unplaced (places_of self.now) }
    {
        let values = self.values.again(alloc, self.hashing);
        let literals = self.literals.again(self.hashing);
        Placing::before_lines(self.hashing, self.chains, values, literals)
    }

    /// Before the first line, with these chains of EQUs.
    fn before_lines(
        hashing: SourceHashing,
        chains: &'a Chains,
        values: LabelValues<'a>,
        literals: UsedLiterals<'a>,
    ) -> Placing<'a>
        ensures { values.entry ≡ [] → literals.entry ≡ none_used
            → places_of result ≡ nothing_placed (chains_view chains.now) }
    {
        Placing {
            chains,
            next: USUAL_PLACE,
            highest: None,
            areas: USUAL_PLACE,
            fields_from: USUAL_PLACE,
            fields_index: 0,
            first_instruction: None,
            before_end: USUAL_PLACE,
            values,
            literals,
            hashing,
        }
    }

    /// How many literals are used.
    pub fn literals_used(&self) -> usize
        ensures { result ≡ length (places_of self.now).spellings }
    {
        self.literals.len()
    }

    /// How many literals are placed.
    pub fn literals_placed(&self) -> usize
        ensures { result ≡ length (places_of self.now).addresses }
    {
        self.literals.placed()
    }

    /// The literal with this index in the order of first use, as it was first written.
    pub fn literal(&self, i: usize) -> Literal
        requires { i < length (places_of self.now).spellings }
        ensures spelling { drop i (places_of self.now).spellings
            ≡ result ∷ drop (i + 1) (places_of self.now).spellings }
        ensures key { drop i (places_of self.now).literals
            ≡ key_of result ∷ drop (i + 1) (places_of self.now).literals }
    {
        self.literals.literal(i)
    }

    /// Whether a literal is used.
    ///
    /// # Errors
    ///
    /// `Memory` if there is no room for a long one.
    pub fn is_used(&self, literal: Literal) -> Result<bool, AsmFault>
        ensures ok { IfOk result
            (λ used. used ≡ list_any (same_key (key_of literal)) (places_of self.now).literals) }
        ensures err { IfErr result IsMemory }
    {
        self.literals.contains(literal)
    }

    /// The place after the literals that are used and not placed, if they begin at a place.
    pub(crate) fn beyond_pending(&self, from: i64) -> Result<i64, AsmFault>
        ensures value { IfOk result (λ beyond. beyond ≡ beyond_literals from (pending (places_of self.now))) }
        ensures err { IfErr result IsMemory }
    {
        let mut next = from;
        for i in self.literals.placed()..self.literals.len() {
            let literal = LiteralKey::from_literal(self.literals.literal(i));
            next = checked_sum(next, i64::from(literal.len()))?;
        }
        Ok(next)
    }

    /// The place that a statement's point names, with its operand by the labels of what is placed by others.
    pub fn point_value(
        &self,
        by: &Placing<'a>,
        row: &Description,
        point: Point,
    ) -> Result<i64, AsmFault>
        ensures value { IfOk result
            (λ value. value ≡ point_value (places_of by.now) (places_of self.now) row.now point) }
        ensures err { IfErr result IsMemory }
    {
        match point {
            Point::First => Ok(self.next),
            Point::Last => last_place(self.next, contents_length(&row.contents)),
            Point::InArea(place) => last_place(self.areas, u32::from(place)),
            Point::Counted(place) => last_place(self.fields_from, u32::from(place)),
            Point::Value => self.asked_value(by, row),
        }
    }

    /// The index of what a statement's point names.
    fn point_index(&self, row: &Description, point: Point) -> u8
        ensures { result ≡ point_index (places_of self.now) row.now point }
    {
        match point {
            Point::First | Point::Last | Point::InArea(_) => 0,
            Point::Counted(_) => self.fields_index,
            Point::Value => self.index_so_far(row.addressing.operands().a),
        }
    }

    /// The value of the label of a statement with this row, and its index.
    fn label_value(&self, body: &Body, row: &Description) -> Result<SymbolValue, AsmFault>
        requires { row.now ≡ describe body.now }
        ensures value { IfOk result (λ value. value ≡ label_value (places_of self.now) body.now) }
        ensures err { IfErr result IsMemory }
    {
        let value = self.point_value(self, row, row.names)?;
        let index = self.point_index(row, row.names);
        let unit = label_unit(&row.addressing);
        Ok(SymbolValue::of_unit_or_value(unit, value, index))
    }

    /// Gives a label its value.
    fn give(&mut self, field: LabelField, value: SymbolValue) -> Result<(), AsmFault>
        ensures ok { OnOk result (places_of self.new ≡ with_label (places_of self.old) (well_formed field) value) }
        ensures err { IfErr result IsMemory }
    {
        if let LabelField::Label(label) = field {
            self.values.insert(label, value)?;
        }
        Ok(())
    }

    /// Notes the literal that an operand is, if it is one.
    #[tactic(auto, using(crate::proofs::UsedLemmas::literal_noted))]
    fn note_operand(&mut self, field: OperandField) -> Result<(), AsmFault>
        ensures ok { OnOk result (places_of self.new ≡ with_operand (places_of self.old) field) }
        ensures err { IfErr result IsMemory }
    {
        match field {
            OperandField::Operand(Operand::Literal(literal)) => self.literals.note(literal),
            OperandField::Operand(Operand::Address(_) | Operand::Unit(_))
            | OperandField::Absent
            | OperandField::Malformed => Ok(()),
        }
    }

    /// Takes the places up to the one before this, which is next.
    fn take_up_to(&mut self, beyond: i64)
        ensures { places_of self.new ≡ taken_up_to (places_of self.old) beyond }
    {
        self.highest = highest_with(self.highest, self.next, beyond);
        self.next = beyond;
    }

    /// Places the literals that are used and not placed.
    fn place_pending(&mut self) -> Result<(), AsmFault>
        ensures ok { OnOk result (places_of self.new ≡ with_pending (places_of self.old)) }
        ensures err { IfErr result IsMemory }
    {
        let beyond = place_literals(self.next, &mut self.values, &mut self.literals)?;
        self.take_up_to(beyond);
        Ok(())
    }

    /// The value of ORG and of LTORG, by the values so far, or the first place of a constant elsewhere.
    fn own_value(&self, addressing: Addressing) -> Result<i64, AsmFault>
        ensures value { IfOk result (λ value. value ≡ own_value (places_of self.now) addressing) }
        ensures err { IfErr result IsMemory }
    {
        self.origin_value(self, Next::Value, addressing.operands().a)
    }

    /// Where a statement of this row places its cells.
    pub fn start_by(&self, row: &Description) -> Result<i64, AsmFault>
        ensures value { IfOk result (λ start. start ≡ start_by (places_of self.now) row.now row.now.next) }
        ensures err { IfErr result IsMemory }
    {
        match row.next {
            Next::Beyond | Next::Literals | Next::Value => Ok(self.next),
            Next::LiteralsAtValue | Next::Elsewhere => self.own_value(row.addressing),
        }
    }

    /// Moves the next place on, and places the literals used so far if the statement does.
    fn move_on(&mut self, row: &Description) -> Result<(), AsmFault>
        ensures ok { OnOk result (places_of self.new ≡ next_moved (places_of self.old) row.now row.now.next) }
        ensures err { IfErr result IsMemory }
    {
        match row.next {
            Next::Beyond => {
                let length = i64::from(contents_length(&row.contents));
                self.take_up_to(checked_sum(self.next, length)?);
                Ok(())
            },
            Next::Literals => self.place_pending(),
            Next::Value => {
                self.next = self.own_value(row.addressing)?;
                Ok(())
            },
            Next::LiteralsAtValue => {
                self.next = self.own_value(row.addressing)?;
                self.place_pending()
            },
            Next::Elsewhere => Ok(()),
        }
    }

    /// Notes the literals that addresses are.
    fn note_uses(&mut self, addressing: Addressing) -> Result<(), AsmFault>
        ensures ok { OnOk result (places_of self.new ≡ with_uses (places_of self.old) addressing) }
        ensures err { IfErr result IsMemory }
    {
        match addressing {
            Addressing::Addresses(operands) => {
                self.note_operand(operands.a)?;
                self.note_operand(operands.b)
            },
            Addressing::Nothing
            | Addressing::EarlierValue(_)
            | Addressing::Equal(_)
            | Addressing::Value(_)
            | Addressing::Entry(_) => Ok(()),
        }
    }

    /// Notes that areas begin at a place, if the statement makes them.
    fn note_areas(&mut self, first: i64, role: AreaRole)
        ensures { places_of self.new ≡ with_areas (places_of self.old) first role }
    {
        match role {
            AreaRole::Makes(Some(areas)) => {
                self.areas = first;
                self.fields_from = if areas.counts_from_zero { 0 } else { first };
                self.fields_index = areas.index;
            },
            AreaRole::Makes(None) => {
                self.areas = first;
                self.fields_from = first;
                self.fields_index = 0;
            },
            AreaRole::Ends | AreaRole::Keeps | AreaRole::Divides(_) => {},
        }
    }

    /// Goes on after a statement, and notes and places its literals.
    fn go_on(&mut self, row: &Description) -> Result<(), AsmFault>
        ensures ok { OnOk result (places_of self.new ≡ gone_on (places_of self.old) row.now) }
        ensures err { IfErr result IsMemory }
    {
        let first = self.next;
        self.move_on(row)?;
        self.note_areas(first, row.areas);
        self.note_uses(row.addressing)
    }

    /// Goes on after a statement, notes and places its literals, and notes where the program begins.
    #[tactic(auto, using(crate::proofs::PlacingLemmas::passed))]
    fn pass(&mut self, row: &Description) -> Result<(), AsmFault>
        ensures ok { OnOk result (places_of self.new ≡ beyond_row (places_of self.old) row.now) }
        ensures err { IfErr result IsMemory }
    {
        let first = first_of_two(self.first_instruction, self.next, &row.contents);
        let before_end = end_of_two(self.before_end, self.next, &row.addressing);
        self.go_on(row)?;
        self.first_instruction = first;
        self.before_end = before_end;
        Ok(())
    }

    /// Places a statement with this row.
    pub fn place_row(&mut self, statement: &Statement, row: &Description) -> Result<(), AsmFault>
        requires { row.now ≡ describe statement.now.body }
        ensures ok { OnOk result (places_of self.new ≡ after_statement (places_of self.old) statement.now) }
        ensures err { IfErr result IsMemory }
    {
        let value = self.label_value(&statement.body, row)?;
        self.pass(row)?;
        self.give(statement.label, value)
    }

    /// Places a line.
    pub fn place(&mut self, line: &Line) -> Result<(), AsmFault>
        ensures ok { OnOk result (places_of self.new ≡ placed_after (places_of self.old) line.now) }
        ensures err { IfErr result IsMemory }
    {
        match &line.statement {
            Some(statement) => self.place_row(statement, &statement.body.describe()),
            None => Ok(()),
        }
    }

    /// Places lines. There is room for the values of all their labels at once.
    fn place_each(&mut self, lines: &Lines<'_>) -> Result<(), AsmFault>
        ensures ok { OnOk result (places_of self.new ≡ fold placed_after (places_of self.old) lines.now) }
        ensures err { IfErr result IsMemory }
    {
        self.values.make_room(lines.labelled())?;
        for i in 0..lines.len() {
            self.place(&lines.line(i))?;
        }
        Ok(())
    }
}

/// What is placed by all lines, whose chains of EQUs these are.
///
/// # Errors
///
/// `Memory` if there is no room for labels and literals.
pub fn place_all<'a>(
    alloc: Global,
    hashing: SourceHashing,
    chains: &'a Chains,
    lines: &Lines<'_>,
) -> Result<Placing<'a>, AsmFault>
    requires { chains_view chains.now ≡ chains_of (sites_of lines.now) lines.now }
    ensures ok { IfOk result (λ placing. places_of placing ≡ placed lines.now) }
    ensures err { IfErr result IsMemory }
{
    let mut placing = Placing::new(alloc, hashing, chains);
    placing.place_each(lines)?;
    Ok(placing)
}
