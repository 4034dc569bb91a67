//! The first line with a fault, and its lowest kind.
ghost use Rattle.std.specs.Prelude.{◌≡◌, ◌+◌, ◌<◌, ◌^◌, ◌&&◌, ◌||◌, not, is_none, length, IfNone, IfSome};
ghost use Rattle.indexmap.specs.IndexMap.{get};
ghost use Rattle.autocoder_statements.specs.Description.{describe};
ghost use Rattle.autocoder_symbols.specs.Symbols.{same_label};
ghost use Rattle.autocoder_symbols.specs.View.{symbols_view};
ghost use Rattle.autocoder_diagnostics.specs.FirstFault.{first_place, place_beyond, areas_by, bad_label, is_field};
ghost use Rattle.autocoder_diagnostics.specs.FirstFault.{double_label};
ghost use Rattle.autocoder_diagnostics.specs.FirstFault.{is_area, double_area, is_double, symbol_in_base, symbol_in_literal};
ghost use Rattle.autocoder_diagnostics.specs.FirstFault.{symbol_in, is_undefined, is_unknown_before, may_equal, is_unequal};
ghost use Rattle.autocoder_diagnostics.specs.FirstFault.{undefined_in, is_past_by, lowest_in, lowest, first_fault_from};
ghost use Rattle.autocoder_diagnostics.specs.FirstFault.{IsClean};
ghost use Rattle.autocoder_diagnostics.specs.FirstFault.{IsLowest, IsFaultless, IsFirstFault};

use autocoder_statements::{
    Addressing, AreaLiteral, AreaRole, Base, DeclaredAreas, Description, Label, LabelField,
    Language, Line, LineCheck, Literal, Operand, OperandField, Statement,
};
use autocoder_symbols::{
    AsmFault, AsmKind, Declaration, Lines, Sites, Symbols, is_before, is_known_at_end,
    is_known_before, is_label_before,
};

/// What the lines before a line tell of it.
#[derive(Clone, Copy)]
pub struct LineContext {
    /// The line's number.
    pub number: u64,
    /// Whether there is an END before it.
    pub is_ended: bool,
    /// The length of the areas that a field here would divide.
    pub areas: Option<u16>,
}

impl LineContext {
    /// The place of the first line.
    pub const FIRST: LineContext = LineContext {
        number: 1,
        is_ended: false,
        areas: None,
    };

    /// The place after a line.
    pub fn beyond(self, line: &Line) -> LineContext
        requires { self.number < 2 ^ 33 }
        ensures { result ≡ place_beyond self line.now }
    {
        let same = LineContext {
            number: self.number + 1,
            ..self
        };
        match &line.statement {
            Some(statement) => {
                let row = statement.body.describe();
                LineContext {
                    is_ended: self.is_ended || row.is_end(),
                    areas: self.areas_beyond(row.areas),
                    ..same
                }
            },
            None => same,
        }
    }

    /// The length of the areas that a field after a statement would divide, which is this to areas.
    fn areas_beyond(self, role: AreaRole) -> Option<u16>
        ensures { result ≡ areas_by self.areas role }
    {
        match role {
            AreaRole::Makes(Some(areas)) => Some(areas.length),
            AreaRole::Makes(None) | AreaRole::Ends => None,
            AreaRole::Keeps | AreaRole::Divides(_) => self.areas,
        }
    }

    /// Whether the label is bad, or a field of areas lacks one, of a statement with this row.
    pub fn has_bad_label(self, statement: &Statement, row: &Description) -> bool
        requires { row.now ≡ describe statement.now.body }
        ensures { result ≡ bad_label self.areas statement.now }
    {
        row.has_bad_label(statement) || (row.lacks_field_label(statement) && self.areas.is_some())
    }

    /// Whether the operation isn't known, or is a field under no areas, of a statement with this row.
    pub fn has_bad_operation(self, row: &Description) -> bool
        ensures { result ≡ (not row.now.is_known || (is_field row.now.areas && is_none self.areas)) }
    {
        !row.is_known || (matches!(row.areas, AreaRole::Divides(_)) && self.areas.is_none())
    }

    /// Whether a statement that is this to areas is a field that ends beyond its area.
    fn is_past_areas(self, role: AreaRole) -> bool
        ensures { result ≡ is_past_by self.areas role }
    {
        match (self.areas, role) {
            (Some(length), AreaRole::Divides(Some(span))) => span.last > length,
            (
                Some(_),
                AreaRole::Divides(None) | AreaRole::Ends | AreaRole::Keeps | AreaRole::Makes(_),
            )
            | (None, _) => false,
        }
    }

    /// Whether the operands aren't as the operation asks, of a statement with this row.
    pub fn has_bad_operands(self, row: &Description) -> bool
        ensures { result ≡ (not row.now.is_well_formed || is_past_by self.areas row.now.areas) }
    {
        !row.is_well_formed || self.is_past_areas(row.areas)
    }
}

/// Whether an earlier line declares the label.
pub fn has_double_label(sites: &Sites, number: u64, field: LabelField) -> bool
    ensures { result ≡ double_label (get same_label sites.now) number field }
{
    match field {
        LabelField::Label(label) => is_before(number, sites.get(&label).copied()),
        LabelField::Absent | LabelField::Malformed => false,
    }
}

/// Whether a declaration is an area literal with this many places.
fn is_area(places: u8, declared: Option<Declaration>) -> bool
    ensures { result ≡ is_area places declared }
{
    match declared {
        Some(
            Declaration {
                area: Some(other),
                ..
            },
        ) => other == places,
        Some(Declaration { area: None, .. }) | None => false,
    }
}

/// Whether an area literal's symbol is declared already, and not as the same area.
pub fn is_double_area(sites: &Sites, area: Option<AreaLiteral>) -> bool
    ensures { result ≡ double_area (get same_label sites.now) area }
{
    match area {
        Some(area) => !is_area(area.places, sites.get(&area.label).copied()),
        None => false,
    }
}

/// Whether a label or an area literal of a line has a symbol that is declared already.
pub fn has_double(sites: &Sites, number: u64, areas: DeclaredAreas, field: LabelField) -> bool
    ensures { result ≡ is_double (get same_label sites.now) number areas field }
{
    has_double_label(sites, number, field)
        || is_double_area(sites, areas.0)
        || is_double_area(sites, areas.1)
}

/// The symbol that an address is counted from.
fn symbol_in_base(base: Base) -> Option<Label>
    ensures { result ≡ symbol_in_base base }
{
    match base {
        Base::Symbol(label) => Some(label),
        Base::Number(_) | Base::Here | Base::Register(_) | Base::NextHundred => None,
    }
}

/// The symbol in a literal.
fn symbol_in_literal(literal: Literal) -> Option<Label>
    ensures { result ≡ symbol_in_literal literal }
{
    match literal {
        Literal::Constant(_) => None,
        Literal::Address(literal) => symbol_in_base(literal.address.base),
        Literal::Area(literal) => Some(literal.label),
    }
}

/// The symbol that an operand names, as an address or in a literal.
pub fn symbol_in(field: OperandField) -> Option<Label>
    ensures { result ≡ symbol_in field }
{
    match field {
        OperandField::Operand(Operand::Address(address)) => symbol_in_base(address.base),
        OperandField::Operand(Operand::Literal(literal)) => symbol_in_literal(literal),
        OperandField::Operand(Operand::Unit(_)) | OperandField::Absent | OperandField::Malformed =>
            None,
    }
}

/// Whether an operand's symbol is declared by no line.
pub fn is_undefined(sites: &Sites, field: OperandField) -> bool
    ensures { result ≡ is_undefined (get same_label sites.now) field }
{
    match symbol_in(field) {
        Some(label) => sites.get(&label).is_none(),
        None => false,
    }
}

/// Whether ORG or LTORG on the line of this number can't name an operand's symbol.
fn is_unknown_before(symbols: &Symbols, number: u64, field: OperandField) -> bool
    ensures { result ≡ is_unknown_before (symbols_view symbols.now) number field }
{
    match symbol_in(field) {
        Some(label) => !is_known_before(number, symbols.known(label)),
        None => false,
    }
}

/// Whether EQU on the line of this number may name a symbol.
fn may_equal(symbols: &Symbols, number: u64, label: Label) -> bool
    ensures { result ≡ may_equal (symbols_view symbols.now).language (symbols_view symbols.now) number label }
{
    match symbols.language {
        Language::Plain => is_label_before(number, symbols.sites.get(&label).copied()),
        Language::Ibm => is_known_at_end(symbols.known(label)),
    }
}

/// Whether EQU on the line of this number can't name an operand's symbol.
fn is_unequal(symbols: &Symbols, number: u64, field: OperandField) -> bool
    ensures { result ≡ is_unequal (symbols_view symbols.now) number field }
{
    match symbol_in(field) {
        Some(label) => !may_equal(symbols, number, label),
        None => false,
    }
}

/// Whether a line here with these operands names a symbol that it can't.
pub fn has_undefined(symbols: &Symbols, number: u64, addressing: &Addressing) -> bool
    ensures { result ≡ undefined_in (symbols_view symbols.now) number addressing.now }
{
    let sites = &symbols.sites;
    match *addressing {
        Addressing::Nothing => false,
        Addressing::Addresses(operands) => {
            is_undefined(sites, operands.a) || is_undefined(sites, operands.b)
        },
        Addressing::EarlierValue(operands) => is_unknown_before(symbols, number, operands.a),
        Addressing::Equal(operands) => is_unequal(symbols, number, operands.a),
        Addressing::Value(operands) | Addressing::Entry(operands) => {
            is_undefined(sites, operands.a)
        },
    }
}

/// The lowest kind of fault of a statement up to END, of a line with these area literals.
fn lowest_in_statement(
    symbols: &Symbols,
    at: LineContext,
    areas: DeclaredAreas,
    statement: &Statement,
) -> Option<AsmKind>
    ensures { result ≡ lowest_in (symbols_view symbols.now) at areas statement.now }
{
    let row = statement.body.describe();
    if at.has_bad_label(statement, &row) {
        return Some(AsmKind::Label);
    }
    if has_double(&symbols.sites, at.number, areas, statement.label) {
        return Some(AsmKind::DoubleLabel);
    }
    if at.has_bad_operation(&row) {
        return Some(AsmKind::Operation);
    }
    if has_undefined(symbols, at.number, &row.addressing) {
        return Some(AsmKind::Undefined);
    }
    if at.has_bad_operands(&row) {
        return Some(AsmKind::Operand);
    }
    None
}

/// The first kind that a line is found to have.
fn lowest_of(symbols: &Symbols, at: LineContext, line: &Line) -> Option<AsmKind>
    ensures { result ≡ lowest (symbols_view symbols.now) at line.now }
{
    match (line.bytes, &line.statement) {
        (LineCheck::Long, _) => Some(AsmKind::LongLine),
        (LineCheck::Foreign, _) => Some(AsmKind::Graphic),
        (LineCheck::Good, None) => None,
        (LineCheck::Good, Some(_)) if at.is_ended => Some(AsmKind::AfterEnd),
        (LineCheck::Good, Some(statement)) => {
            lowest_in_statement(symbols, at, line.areas(), statement)
        },
    }
}

/// The lowest kind of a line's faults.
pub fn lowest_kind(symbols: &Symbols, at: LineContext, line: &Line) -> Option<AsmKind>
    ensures value { result ≡ lowest (symbols_view symbols.now) at line.now }
    ensures clean { IfNone result (IsClean (symbols_view symbols.now) at line.now) }
    ensures lowest { IfSome result (λ kind. IsLowest (symbols_view symbols.now) at line.now kind) }
{
    let kind = lowest_of(symbols, at, line);
    kind
}

/// The first line with a fault, and its lowest kind.
pub fn first_fault(symbols: &Symbols, lines: &Lines<'_>) -> Option<AsmFault>
    requires { length lines.now < 2 ^ 32 }
    ensures value { result ≡ first_fault_from (symbols_view symbols.now) first_place lines.now }
    ensures faultless { IfNone result (IsFaultless (symbols_view symbols.now) lines.now) }
    ensures first { IfSome result (λ fault. IsFirstFault (symbols_view symbols.now) lines.now fault) }
{
    let mut at = LineContext::FIRST;
    for i in 0..lines.len() {
        let line = &lines.line(i);
        if let Some(kind) = lowest_kind(symbols, at, line) {
            return Some(AsmFault {
                line: at.number,
                kind,
            });
        }
        at = at.beyond(line);
    }
    if at.is_ended {
        None
    } else {
        Some(AsmFault {
            line: at.number,
            kind: AsmKind::NoEnd,
        })
    }
}
