//! The faults of a line that don't only follow from one told before.
ghost use Rattle.std.specs.Prelude.{◌≡◌, ◌<◌, ◌^◌, ◌&&◌, ◌||◌, not, is_none};
ghost use Rattle.autocoder_symbols.specs.View.{symbols_view};
ghost use Rattle.autocoder_diagnostics.specs.FirstFault.{is_field, undefined_in};
ghost use Rattle.autocoder_diagnostics.specs.Declarations.{anywhere_of};
ghost use Rattle.autocoder_diagnostics.specs.OwnFault.{loses_areas, before_next, is_late, undefined_anywhere, own_in};
ghost use Rattle.autocoder_diagnostics.specs.OwnFault.{told};

use crate::declarations::Declarations;
use crate::first_fault::{LineContext, has_double, has_undefined, is_undefined, lowest_kind};
use autocoder_statements::{
    Addressing, AreaRole, DeclaredAreas, Description, Line, LineCheck, OperandField, Statement,
};
use autocoder_symbols::{AsmKind, Symbols};

/// What the lines before a line tell of its faults.
#[derive(Clone, Copy)]
pub(crate) struct Before {
    /// What they tell of it anyway.
    pub at: LineContext,
    /// Whether none of them has a fault.
    pub is_clean: bool,
    /// Whether a fault has lost the areas that a field here would divide.
    pub lost_areas: bool,
    /// Whether there is a statement between END and the line.
    pub is_past_end: bool,
    /// Whether the last statement has an operation that isn't known, and so may have been END.
    pub lost_end: bool,
}

impl Before {
    /// Before the first line.
    pub(crate) const NOTHING: Before = Before {
        at: LineContext::FIRST,
        is_clean: true,
        lost_areas: false,
        is_past_end: false,
        lost_end: false,
    };

    /// Whether a fault has lost the areas that a field after a statement with this row would divide.
    fn loses_areas(self, row: &Description) -> bool
        ensures { result ≡ loses_areas self.lost_areas self.at.areas row.now row.now.areas }
    {
        match row.areas {
            AreaRole::Ends => !row.is_known && (self.lost_areas || self.at.areas.is_some()),
            AreaRole::Makes(None) => true,
            AreaRole::Makes(Some(_)) => false,
            AreaRole::Keeps | AreaRole::Divides(_) => self.lost_areas,
        }
    }

    /// What is before the line after this one.
    pub(crate) fn next(self, symbols: &Symbols, line: &Line) -> Before
        requires { self.at.number < 2 ^ 33 }
        ensures { result ≡ before_next (symbols_view symbols.now) self line.now }
    {
        let at = self.at.beyond(line);
        let is_clean = self.is_clean && lowest_kind(symbols, self.at, line).is_none();
        match &line.statement {
            Some(statement) => {
                let row = statement.body.describe();
                Before {
                    at,
                    is_clean,
                    lost_areas: self.loses_areas(&row),
                    is_past_end: self.is_past_end || self.at.is_ended,
                    lost_end: !row.is_known,
                }
            },
            None => Before {
                at,
                is_clean,
                ..self
            },
        }
    }

    /// Whether the operation isn't known, or is a field under no areas that no fault has lost, of a statement with this
    /// row.
    fn has_own_bad_operation(self, row: &Description) -> bool
        ensures { result ≡ ((not row.now.is_known || (is_field row.now.areas && is_none self.at.areas))
            && not (self.lost_areas && is_field row.now.areas)) }
    {
        let is_field = matches!(row.areas, AreaRole::Divides(_));
        self.at.has_bad_operation(row) && !(self.lost_areas && is_field)
    }
}

/// Whether an operand's symbol is the label of lines after END alone.
fn is_late(this: &Declarations, field: OperandField) -> bool
    ensures { result ≡ is_late (symbols_view this.now.symbols) (anywhere_of this.now) field }
{
    is_undefined(&this.symbols.sites, field) && !this.is_undefined_anywhere(field)
}

/// Whether a symbol here is the label of no line, those after END included.
fn is_undefined_anywhere(this: &Declarations, addressing: &Addressing) -> bool
    ensures { result ≡ undefined_anywhere (symbols_view this.now.symbols) (anywhere_of this.now) addressing.now }
{
    match *addressing {
        Addressing::Nothing => false,
        Addressing::Addresses(operands) => {
            this.is_undefined_anywhere(operands.a) || this.is_undefined_anywhere(operands.b)
        },
        Addressing::EarlierValue(operands) | Addressing::Equal(operands) => {
            !is_late(this, operands.a)
        },
        Addressing::Value(operands) | Addressing::Entry(operands) => {
            this.is_undefined_anywhere(operands.a)
        },
    }
}

/// Whether a line here with these operands names a symbol that it can't, and not because END is too early.
fn has_own_undefined(this: &Declarations, number: u64, addressing: &Addressing) -> bool
    ensures { result ≡ (undefined_in (symbols_view this.now.symbols) number addressing.now
        && undefined_anywhere (symbols_view this.now.symbols) (anywhere_of this.now) addressing.now) }
{
    has_undefined(&this.symbols, number, addressing) && is_undefined_anywhere(this, addressing)
}

/// The lowest kind of a line's own faults, of a statement up to END with these area literals.
fn own_in_statement(
    this: &Declarations,
    before: Before,
    areas: DeclaredAreas,
    statement: &Statement,
) -> Option<AsmKind>
    ensures { result ≡ own_in (symbols_view this.now.symbols) (anywhere_of this.now) before areas statement.now }
{
    let row = statement.body.describe();
    if before.at.has_bad_label(statement, &row) {
        return Some(AsmKind::Label);
    }
    if has_double(
        &this.symbols.sites,
        before.at.number,
        areas,
        statement.label,
    ) {
        return Some(AsmKind::DoubleLabel);
    }
    if before.has_own_bad_operation(&row) {
        return Some(AsmKind::Operation);
    }
    if has_own_undefined(this, before.at.number, &row.addressing) {
        return Some(AsmKind::Undefined);
    }
    if before.at.has_bad_operands(&row) {
        return Some(AsmKind::Operand);
    }
    None
}

/// What is told of a line.
pub(crate) fn told_of(this: &Declarations, before: Before, line: &Line) -> Option<AsmKind>
    ensures { result ≡ told (symbols_view this.now.symbols) (anywhere_of this.now) before line.now }
{
    if before.is_clean {
        return lowest_kind(&this.symbols, before.at, line);
    }
    match (line.bytes, &line.statement) {
        (LineCheck::Long, _) => Some(AsmKind::LongLine),
        (LineCheck::Foreign, _) => Some(AsmKind::Graphic),
        (LineCheck::Good, None) => None,
        (LineCheck::Good, Some(_)) if before.at.is_ended => {
            if before.is_past_end {
                None
            } else {
                Some(AsmKind::AfterEnd)
            }
        },
        (LineCheck::Good, Some(statement)) => {
            own_in_statement(this, before, line.areas(), statement)
        },
    }
}
