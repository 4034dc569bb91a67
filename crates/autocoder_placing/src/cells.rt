//! The cells that a line places.
ghost use Rattle.std.specs.Prelude.{◌≡◌, ◌++◌, ◌<◌, map, fold, IfOk, IfErr, OnOk};
ghost use Rattle.std.specs.List.{flat_map};
ghost use Rattle.core_1401.specs.Address.{addresses};
ghost use Rattle.autocoder_symbols.specs.Fault.{IsMemory};
ghost use Rattle.autocoder_placing.specs.Characters.{char_with};
ghost use Rattle.autocoder_placing.specs.Cells.{address_or_zero, plain, with_word_mark, indexed, literal_value};
ghost use Rattle.autocoder_placing.specs.Cells.{operand_codes, d_codes, operands_cells, instruction_cells};
ghost use Rattle.autocoder_placing.specs.Cells.{constant_cells};
ghost use Rattle.autocoder_placing.specs.Cells.{literal_cells, fields_beyond, with_mark_at, with_field, repeated};
ghost use Rattle.autocoder_placing.specs.Cells.{areas_cells, unit_codes, chain_cells, contents_cells, row_cells};
ghost use Rattle.autocoder_placing.specs.Cells.{signed_place, signed_address, field_cells, address_constant_cells};
ghost use Rattle.autocoder_placing.specs.Cells.{group_mark, record_mark};
ghost use Rattle.autocoder_placing.specs.Cells.{unit_or_address_codes};
ghost use Rattle.autocoder_placing.specs.Literals.{key_of};
ghost use Rattle.autocoder_placing.specs.Placement.{address_unit, pending, start_by, symbols_of};
ghost use Rattle.autocoder_placing.specs.View.{places_of};

use crate::characters::{Characters, char_of, char_with};
use crate::lengths::{contents_length, last_place};
use crate::literals::LiteralKey;
use crate::placing::Placing;
use autocoder_statements::{
    Address, AddressConstant, AreaRole, Areas, Chain, Constant, Contents, Description, Instruction,
    Literal, Next, Operand, OperandField, Operands, Span, Unit,
};
use autocoder_symbols::{AsmFault, Lines};
use bcd_1401::{Cell, Char};
use core_1401::{ADDRESSES, encode};
use std::alloc::Global;

/// The place that a value is the address of; 0 if it is none.
pub fn address_or_zero(value: i64) -> u16
    ensures value { result ≡ address_or_zero value }
    ensures range { result < addresses }
{
    if value >= 0 && value < i64::from(ADDRESSES) {
        value as u16
    } else {
        0
    }
}

/// Puts characters without a word mark.
fn put_chars(out: &mut Vec<Cell>, chars: &[Char]) -> Result<(), AsmFault>
    ensures ok { OnOk result (out.new.items ≡ out.old.items ++ map plain chars.now) }
    ensures err { IfErr result IsMemory }
{
    for char in chars {
        out.push(Cell {
            char: *char,
            mark: false,
        })?;
    }
    Ok(())
}

/// Puts the characters with these codes, without a word mark.
fn put_codes(out: &mut Vec<Cell>, codes: &[u8]) -> Result<(), AsmFault>
    ensures ok { OnOk result (out.new.items ≡ out.old.items ++ map plain (map char_with codes.now)) }
    ensures err { IfErr result IsMemory }
{
    for code in codes {
        out.push(Cell {
            char: char_with(*code),
            mark: false,
        })?;
    }
    Ok(())
}

/// Puts the characters with these codes, with a word mark at the first.
fn put_marked(out: &mut Vec<Cell>, codes: &[u8]) -> Result<(), AsmFault>
    ensures ok { OnOk result (out.new.items ≡ out.old.items ++ with_word_mark (map char_with codes.now)) }
    ensures err { IfErr result IsMemory }
{
    let [first, more @ ..] = codes else {
        return Ok(());
    };
    out.push(Cell {
        char: char_with(*first),
        mark: true,
    })?;
    put_codes(out, more)
}

/// The characters of an input-output unit.
fn unit_chars(unit: Unit) -> [Char; 3]
    ensures { result ≡ unit_codes unit.graphics }
{
    let [sign, letter, digit] = unit.graphics;
    [char_of(sign), char_of(letter), char_of(digit)]
}

/// The place whose address a constant of this place has, with a minus sign or without.
fn signed_place(is_negative: bool, place: u16) -> u16
    requires { place < addresses }
    ensures value { result ≡ signed_place is_negative place }
    ensures range { result < addresses }
{
    if is_negative {
        (ADDRESSES - place) % ADDRESSES
    } else {
        place
    }
}

/// The characters of an address, with the number of an index register as the zone over its tens.
fn address_chars(address: u16, index: u8) -> [Char; 3]
    requires { address < addresses }
    ensures { result ≡ indexed index address }
{
    let [hundreds, tens, units] = encode(address);
    [hundreds, tens.with_zone(index % 4), units]
}

impl Placing<'_> {
    /// The units place of a literal, once all is placed.
    fn literal_value(&self, literal: Literal) -> Result<i64, AsmFault>
        ensures value { IfOk result (λ value. value ≡ literal_value (places_of self.now) (key_of literal)) }
        ensures err { IfErr result IsMemory }
    {
        let units = self.literals.units_of(literal)?;
        Ok(units.unwrap_or(0))
    }

    /// Puts an address of an instruction, or the unit that it names.
    fn put_address(&self, here: i64, address: Address, out: &mut Vec<Cell>) -> Result<(), AsmFault>
        ensures ok { OnOk result (out.new.items ≡ out.old.items
            ++ map plain (unit_or_address_codes (places_of self.now) here
            (address_unit (symbols_of (places_of self.now)) address) address)) }
        ensures err { IfErr result IsMemory }
    {
        match self.address_unit(address) {
            Some(unit) => put_chars(out, &unit_chars(unit)),
            None => {
                let chars = self.signed_address(here, false, address)?;
                put_chars(out, &chars)
            },
        }
    }

    /// Puts an operand.
    fn put_operand(
        &self,
        here: i64,
        field: OperandField,
        out: &mut Vec<Cell>,
    ) -> Result<(), AsmFault>
        ensures ok { OnOk result
            (out.new.items ≡ out.old.items ++ map plain (operand_codes (places_of self.now) here field)) }
        ensures err { IfErr result IsMemory }
    {
        match field {
            OperandField::Operand(Operand::Address(address)) => self.put_address(
                here, address, out,
            ),
            OperandField::Operand(Operand::Literal(literal)) => {
                let value = self.literal_value(literal)?;
                put_chars(out, &encode(address_or_zero(value)))
            },
            OperandField::Operand(Operand::Unit(unit)) => put_chars(out, &unit_chars(unit)),
            OperandField::Absent | OperandField::Malformed => Ok(()),
        }
    }

    /// Puts the addresses of an instruction.
    fn put_operands(
        &self,
        here: i64,
        operands: Operands,
        out: &mut Vec<Cell>,
    ) -> Result<(), AsmFault>
        ensures ok { OnOk result (out.new.items ≡ out.old.items ++ operands_cells (places_of self.now) here operands) }
        ensures err { IfErr result IsMemory }
    {
        self.put_operand(here, operands.a, out)?;
        self.put_operand(here, operands.b, out)
    }

    /// The address of the next place; 0 if it is none.
    pub fn address(&self) -> u16
        ensures { result ≡ address_or_zero (places_of self.now).next }
    {
        address_or_zero(self.next)
    }

    /// The address from which a statement with this row places its cells; 0 if it is none.
    pub(crate) fn start_address(&self, row: &Description) -> Result<u16, AsmFault>
        ensures value { IfOk result
            (λ at. at ≡ address_or_zero (start_by (places_of self.now) row.now row.now.next)) }
        ensures range { IfOk result (λ at. at < addresses) }
        ensures err { IfErr result IsMemory }
    {
        let start = self.start_by(row)?;
        Ok(address_or_zero(start))
    }

    /// Puts an instruction.
    fn put_instruction(
        &self,
        here: i64,
        instruction: Instruction,
        operands: Operands,
        out: &mut Vec<Cell>,
    ) -> Result<(), AsmFault>
        ensures ok { OnOk result
            (out.new.items ≡ out.old.items ++ instruction_cells (places_of self.now) here instruction operands) }
        ensures err { IfErr result IsMemory }
    {
        out.push(Cell {
            char: char_of(instruction.operation),
            mark: true,
        })?;
        self.put_operands(here, operands, out)?;
        put_d(operands.d, out)
    }

    /// The characters of an address with a sign, once all is placed, with this place for an asterisk.
    fn signed_address(
        &self,
        here: i64,
        is_negative: bool,
        address: Address,
    ) -> Result<[Char; 3], AsmFault>
        ensures value { IfOk result
            (λ chars. chars ≡ signed_address (places_of self.now) here is_negative address) }
        ensures err { IfErr result IsMemory }
    {
        let value = self.address_value(here, address)?;
        let place = signed_place(is_negative, address_or_zero(value));
        Ok(address_chars(place, self.address_index(address)))
    }

    /// Puts an address constant of which this is the last place.
    fn put_address_constant(
        &self,
        here: i64,
        constant: AddressConstant,
        out: &mut Vec<Cell>,
    ) -> Result<(), AsmFault>
        ensures ok { OnOk result
            (out.new.items ≡ out.old.items ++ address_constant_cells (places_of self.now) here constant) }
        ensures err { IfErr result IsMemory }
    {
        match constant.operands.a {
            OperandField::Operand(Operand::Address(address)) => {
                let chars = self.signed_address(here, constant.is_negative, address)?;
                put_field(out, &chars, constant.is_marked)
            },
            OperandField::Operand(Operand::Literal(_) | Operand::Unit(_))
            | OperandField::Absent
            | OperandField::Malformed => put_field(out, &[], constant.is_marked),
        }
    }
}

/// Puts a d-character.
fn put_d(d: Option<u8>, out: &mut Vec<Cell>) -> Result<(), AsmFault>
    ensures ok { OnOk result (out.new.items ≡ out.old.items ++ map plain (d_codes d)) }
    ensures err { IfErr result IsMemory }
{
    match d {
        Some(d) => put_chars(out, &[char_of(d)]),
        None => Ok(()),
    }
}

/// Puts a constant.
fn put_constant(
    constant: Option<Constant>,
    marked: bool,
    out: &mut Vec<Cell>,
) -> Result<(), AsmFault>
    ensures ok { OnOk result (out.new.items ≡ out.old.items ++ constant_cells marked constant) }
    ensures err { IfErr result IsMemory }
{
    let Some(constant) = constant else {
        return Ok(());
    };
    let characters = Characters::from_constant(constant);
    if marked {
        put_marked(out, characters.as_slice())
    } else {
        put_codes(out, characters.as_slice())
    }
}

/// Puts characters, with a word mark at the first or without one.
fn put_field(out: &mut Vec<Cell>, chars: &[Char], is_marked: bool) -> Result<(), AsmFault>
    ensures ok { OnOk result (out.new.items ≡ out.old.items ++ field_cells is_marked chars.now) }
    ensures err { IfErr result IsMemory }
{
    match chars {
        [first, more @ ..] if is_marked => {
            out.push(Cell {
                char: *first,
                mark: true,
            })?;
            put_chars(out, more)
        },
        _ => put_chars(out, chars),
    }
}

/// Puts a literal, once all is placed.
pub fn put_literal(
    all: &Placing<'_>,
    literal: LiteralKey,
    out: &mut Vec<Cell>,
) -> Result<(), AsmFault>
    ensures ok { OnOk result (out.new.items ≡ out.old.items ++ literal_cells (places_of all.now) literal) }
    ensures err { IfErr result IsMemory }
{
    match literal {
        LiteralKey::Characters(characters) => put_marked(out, characters.as_slice()),
        LiteralKey::Address(literal) => {
            let chars = all.signed_address(0, literal.is_negative, literal.address)?;
            put_field(out, &chars, true)
        },
        LiteralKey::Area(literal) => {
            let blanks = Characters::from_constant(Constant::Blanks(literal.places));
            put_marked(out, blanks.as_slice())
        },
    }
}

/// Puts the literals that are used here and not placed, once all is placed.
fn put_literals(
    all: &Placing<'_>,
    so_far: &Placing<'_>,
    out: &mut Vec<Cell>,
) -> Result<(), AsmFault>
    ensures ok { OnOk result (out.new.items ≡ out.old.items
        ++ flat_map (literal_cells (places_of all.now)) (pending (places_of so_far.now))) }
    ensures err { IfErr result IsMemory }
{
    for i in so_far.literals_placed()..so_far.literals_used() {
        put_literal(all, LiteralKey::from_literal(so_far.literal(i)), out)?;
    }
    Ok(())
}

/// Sets the word mark of a place of an area of blanks.
fn mark(area: &mut [Cell], place: usize)
    ensures { area.new ≡ with_mark_at area.old place }
{
    if place < area.len() {
        area[place] = Cell {
            char: Char::BLANK,
            mark: true,
        };
    }
}

/// Sets the word mark of a field of an area, if it has one.
fn mark_field(area: &mut [Cell], span: Span)
    ensures { area.new ≡ with_field area.old span }
{
    if span.is_marked {
        mark(area, usize::from(span.first).saturating_sub(1));
    }
}

/// Sets the word marks of the fields directly after areas, comments and headings aside.
fn mark_fields(area: &mut [Cell], lines: &Lines<'_>)
    ensures { area.new ≡ fold with_field area.old (fields_beyond lines.now) }
{
    for i in 0..lines.len() {
        let line = &lines.line(i);
        let Some(statement) = &line.statement else {
            continue;
        };
        match statement.body.describe().areas {
            AreaRole::Divides(Some(span)) => mark_field(area, span),
            AreaRole::Divides(None) | AreaRole::Keeps => {},
            AreaRole::Ends | AreaRole::Makes(_) => return,
        }
    }
}

/// Puts a group mark, if it is asked for.
fn put_group_mark(is_asked: bool, out: &mut Vec<Cell>) -> Result<(), AsmFault>
    ensures ok { OnOk result (out.new.items ≡ out.old.items ++ group_mark is_asked) }
    ensures err { IfErr result IsMemory }
{
    if is_asked {
        out.push(Cell {
            char: char_of(b'"'),
            mark: true,
        })?;
    }
    Ok(())
}

/// Puts a record mark, if it is asked for.
fn put_record_mark(is_asked: bool, out: &mut Vec<Cell>) -> Result<(), AsmFault>
    ensures ok { OnOk result (out.new.items ≡ out.old.items ++ record_mark is_asked) }
    ensures err { IfErr result IsMemory }
{
    if is_asked {
        out.push(Cell {
            char: char_of(b'\''),
            mark: false,
        })?;
    }
    Ok(())
}

/// Puts areas, with the word marks of the fields after them.
fn put_areas(
    alloc: Global,
    areas: Option<Areas>,
    lines: &Lines<'_>,
    out: &mut Vec<Cell>,
) -> Result<(), AsmFault>
    ensures ok { OnOk result (out.new.items ≡ out.old.items ++ areas_cells areas lines.now) }
    ensures err { IfErr result IsMemory }
{
    let Some(areas) = areas else {
        return Ok(());
    };
    let mut area = vec![in alloc; Cell::BLANK; usize::from(areas.length)]?;
    mark(&mut area, 0);
    mark_fields(&mut area, lines);
    put_record_mark(areas.has_record_marks, &mut area)?;
    put_repeated(areas.count, &area, out)?;
    put_group_mark(areas.has_group_mark, out)
}

/// Puts an area, as many times as there are areas.
#[tactic(auto, using(crate::proofs::CellsLemmas::one_area))]
fn put_repeated(count: u8, area: &[Cell], out: &mut Vec<Cell>) -> Result<(), AsmFault>
    ensures ok { OnOk result (out.new.items ≡ out.old.items ++ repeated count area.now) }
    ensures err { IfErr result IsMemory }
{
    let mut left = count;
    while left > 0 {
        out.extend_from_slice(area)?;
        left -= 1;
    }
    Ok(())
}

/// Puts the instructions of a chain.
fn put_chain(chain: Chain, out: &mut Vec<Cell>) -> Result<(), AsmFault>
    ensures ok { OnOk result (out.new.items ≡ out.old.items ++ chain_cells chain) }
    ensures err { IfErr result IsMemory }
{
    let (Some(operation), Some(count)) = (chain.operation, chain.count) else {
        return Ok(());
    };
    let instruction = Cell {
        char: char_of(operation),
        mark: true,
    };
    put_repeated(count, &[instruction], out)
}

/// Puts the cells of contents that begin at the next place, with these lines after them.
pub fn put_contents(
    alloc: Global,
    all: &Placing<'_>,
    so_far: &Placing<'_>,
    contents: &Contents,
    lines: &Lines<'_>,
    out: &mut Vec<Cell>,
) -> Result<(), AsmFault>
    ensures ok { OnOk result (out.new.items
        ≡ out.old.items ++ contents_cells (places_of all.now) (places_of so_far.now) contents.now lines.now) }
    ensures err { IfErr result IsMemory }
{
    let last = last_place(so_far.next, contents_length(contents))?;
    match *contents {
        Contents::Instruction(instruction, operands) => {
            all.put_instruction(last, instruction, operands, out)
        },
        Contents::MarkedConstant(constant) => put_constant(constant, true, out),
        Contents::Constant(constant) => put_constant(constant, false, out),
        Contents::Areas(areas) => put_areas(alloc, areas, lines, out),
        Contents::Chain(chain) => put_chain(chain, out),
        Contents::AddressConstant(constant) => all.put_address_constant(last, constant, out),
        Contents::Nothing | Contents::Space(_) => Ok(()),
    }
}

/// Puts the cells of a statement for which this is placed so far, with these lines after it.
pub fn put_row(
    alloc: Global,
    all: &Placing<'_>,
    so_far: &Placing<'_>,
    row: &Description,
    lines: &Lines<'_>,
    out: &mut Vec<Cell>,
) -> Result<(), AsmFault>
    ensures ok { OnOk result (out.new.items
        ≡ out.old.items ++ row_cells (places_of all.now) (places_of so_far.now) row.now row.now.next lines.now) }
    ensures err { IfErr result IsMemory }
{
    match row.next {
        Next::Beyond | Next::Elsewhere => {
            put_contents(alloc, all, so_far, &row.contents, lines, out)
        },
        Next::Literals | Next::LiteralsAtValue => put_literals(all, so_far, out),
        Next::Value => Ok(()),
    }
}

/// The cells that a statement with this row places for which this is placed so far, with these lines after it.
pub(crate) fn cells_of(
    alloc: Global,
    all: &Placing<'_>,
    so_far: &Placing<'_>,
    row: &Description,
    lines: &Lines<'_>,
) -> Result<Vec<Cell>, AsmFault>
    ensures ok { IfOk result (λ cells. cells.items
        ≡ row_cells (places_of all.now) (places_of so_far.now) row.now row.now.next lines.now) }
    ensures err { IfErr result IsMemory }
{
    let mut out = Vec::new(alloc);
    put_row(alloc, all, so_far, row, lines, &mut out)?;
    Ok(out)
}
