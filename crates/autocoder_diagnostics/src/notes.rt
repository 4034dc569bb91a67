//! What the lines of a source say of its labels, and which of the machine's indicators they can set.
ghost use Rattle.std.specs.Prelude.{◌≡◌, ◌||◌, false, IfOk, IfErr, OnOk};
ghost use Rattle.std.specs.List.{list_any};
ghost use Rattle.indexmap.specs.IndexSet.{contains};
ghost use Rattle.autocoder_statements.specs.declared.label.Label.{Label as ALabel};
ghost use Rattle.autocoder_symbols.specs.Fault.{IsMemory};
ghost use Rattle.autocoder_symbols.specs.Symbols.{has_label, same_label};
ghost use Rattle.autocoder_diagnostics.specs.Notes.{is_named_in, is_unsigned, is_number, number_label, is_number_in};
ghost use Rattle.autocoder_diagnostics.specs.Notes.{is_plus_literal, brings_no_sign, last_field, signed_label};
ghost use Rattle.autocoder_diagnostics.specs.Notes.{addressed_in};
ghost use Rattle.autocoder_diagnostics.specs.Notes.{is_addressed, is_signed_in, is_chain_of, has_operation, is_named};
ghost use Rattle.autocoder_diagnostics.specs.Notes.{is_number_of, is_signed, known_in};
ghost use Rattle.autocoder_diagnostics.specs.Noted.{known_of};

use crate::symbol_in;
use autocoder_statements::{
    Chain, Constant, Contents, Description, Instruction, Label, LabelField, Line, Literal, Operand,
    OperandField, Operands, Statement,
};
use autocoder_symbols::{AsmFault, Lines, SourceHashing};
use indexmap::IndexSet;
use std::alloc::Global;

/// Labels.
pub type LabelSet = IndexSet<Label, SourceHashing>;

/// What the lines of a source say of its labels, and which indicators they can set.
#[derive(Drop)]
pub struct Notes {
    /// The labels that an operand names.
    pub named: LabelSet,
    /// The labels of numbers without a sign.
    pub numbers: LabelSet,
    /// The labels of fields into which a line may bring a sign.
    pub signed: LabelSet,
    /// Whether an instruction compares.
    pub compares: bool,
    /// Whether an instruction adds or subtracts.
    pub adds: bool,
}

/// Adds a label, if there is one.
fn note(labels: &mut LabelSet, label: Option<Label>) -> Result<(), AsmFault>
    ensures noted { OnOk result ((other : ALabel) → contains same_label labels.new other
        ≡ (contains same_label labels.old other || has_label other label)) }
    ensures err { IfErr result IsMemory }
{
    if let Some(label) = label {
        labels.insert(label)?;
    }
    Ok(())
}

/// Adds the labels that a line names.
fn note_named(labels: &mut LabelSet, line: &Line) -> Result<(), AsmFault>
    ensures noted { OnOk result ((other : ALabel) → contains same_label labels.new other
        ≡ (contains same_label labels.old other || is_named_in other line.now)) }
    ensures err { IfErr result IsMemory }
{
    let Some(Statement { body, .. }) = line.statement else {
        return Ok(());
    };
    let operands = body.describe().addressing.operands();
    note(labels, symbol_in(operands.a))?;
    note(labels, symbol_in(operands.b))
}

/// Whether a constant is digits without a sign.
fn is_unsigned(constant: Option<Constant>) -> bool
    ensures { result ≡ is_unsigned constant }
{
    match constant {
        Some(Constant::Number(_)) => true,
        Some(Constant::Text(_) | Constant::Plus(_) | Constant::Minus(_) | Constant::Blanks(_))
        | None => false,
    }
}

/// Whether a statement's places are a number without a sign, and have a word mark.
fn is_number(contents: Contents) -> bool
    ensures { result ≡ is_number contents }
{
    match contents {
        Contents::MarkedConstant(constant) => is_unsigned(constant),
        Contents::Nothing
        | Contents::Instruction(..)
        | Contents::Constant(_)
        | Contents::Space(_)
        | Contents::Areas(_)
        | Contents::Chain(_)
        | Contents::AddressConstant(_) => false,
    }
}

/// The label of a number without a sign.
fn number_label(statement: Statement) -> Option<Label>
    ensures { result ≡ number_label statement }
{
    if !is_number(statement.body.describe().contents) {
        return None;
    }
    match statement.label {
        LabelField::Label(label) => Some(label),
        LabelField::Absent | LabelField::Malformed => None,
    }
}

/// Adds the label of a number without a sign.
fn note_number(labels: &mut LabelSet, line: &Line) -> Result<(), AsmFault>
    ensures noted { OnOk result ((other : ALabel) → contains same_label labels.new other
        ≡ (contains same_label labels.old other || is_number_in other line.now)) }
    ensures err { IfErr result IsMemory }
{
    let Some(statement) = line.statement else {
        return Ok(());
    };
    note(labels, number_label(statement))
}

/// Whether an operand is a literal with a plus sign.
fn is_plus_literal(field: OperandField) -> bool
    ensures { result ≡ is_plus_literal field }
{
    matches!(
        field,
        OperandField::Operand(Operand::Literal(Literal::Constant(Constant::Plus(_))))
    )
}

/// Whether an instruction brings no sign into its fields.
fn brings_no_sign(instruction: Instruction, operands: Operands) -> bool
    ensures { result ≡ brings_no_sign instruction operands }
{
    match instruction.operation {
        b'C' | b'B' | b'V' => true,
        b'A' => is_plus_literal(operands.a),
        _ => false,
    }
}

/// The last field that an instruction names.
fn last_field(operands: Operands) -> OperandField
    ensures { result ≡ last_field operands }
{
    match operands.b {
        OperandField::Absent => operands.a,
        OperandField::Malformed | OperandField::Operand(_) => operands.b,
    }
}

/// The symbol of a field into which a statement may bring a sign.
fn signed_label(row: Description) -> Option<Label>
    ensures { result ≡ signed_label row }
{
    match row.contents {
        Contents::Nothing | Contents::AddressConstant(_) => {
            symbol_in(row.addressing.operands().a)
        },
        Contents::Instruction(instruction, operands) => {
            if brings_no_sign(instruction, operands) {
                None
            } else {
                symbol_in(last_field(operands))
            }
        },
        Contents::MarkedConstant(_)
        | Contents::Constant(_)
        | Contents::Space(_)
        | Contents::Areas(_)
        | Contents::Chain(_) => None,
    }
}

/// The symbol of an address that an instruction may take from a literal.
fn addressed_in(field: OperandField) -> Option<Label>
    ensures { result ≡ addressed_in field }
{
    match field {
        OperandField::Operand(Operand::Literal(Literal::Address(_))) => symbol_in(field),
        OperandField::Operand(
            Operand::Literal(Literal::Constant(_) | Literal::Area(_))
            | Operand::Address(_)
            | Operand::Unit(_),
        )
        | OperandField::Absent
        | OperandField::Malformed => None,
    }
}

/// Adds the labels whose addresses are literals among these operands.
fn note_addressed(labels: &mut LabelSet, operands: Operands) -> Result<(), AsmFault>
    ensures noted { OnOk result ((other : ALabel) → contains same_label labels.new other
        ≡ (contains same_label labels.old other || is_addressed other operands)) }
    ensures err { IfErr result IsMemory }
{
    note(labels, addressed_in(operands.a))?;
    note(labels, addressed_in(operands.b))
}

/// Adds a label, if there is one, and those whose addresses are literals among these operands.
fn note_with_addressed(
    labels: &mut LabelSet,
    label: Option<Label>,
    operands: Operands,
) -> Result<(), AsmFault>
    ensures noted { OnOk result ((other : ALabel) → contains same_label labels.new other
        ≡ (contains same_label labels.old other || (has_label other label || is_addressed other operands))) }
    ensures err { IfErr result IsMemory }
{
    note(labels, label)?;
    note_addressed(labels, operands)
}

/// Adds the labels of fields into which a line may bring a sign.
fn note_signed(labels: &mut LabelSet, line: &Line) -> Result<(), AsmFault>
    ensures noted { OnOk result ((other : ALabel) → contains same_label labels.new other
        ≡ (contains same_label labels.old other || is_signed_in other line.now)) }
    ensures err { IfErr result IsMemory }
{
    let Some(Statement { body, .. }) = line.statement else {
        return Ok(());
    };
    let row = body.describe();
    note_with_addressed(labels, signed_label(row), row.addressing.operands())
}

/// Whether a chain is of instructions of this operation.
fn is_chain_of(operation: u8, chain: Chain) -> bool
    ensures { result ≡ is_chain_of operation chain }
{
    match chain.operation {
        Some(each) => each == operation,
        None => false,
    }
}

/// Whether a line has an instruction of this operation, or a chain of such.
fn has_operation(operation: u8, line: &Line) -> bool
    ensures { result ≡ has_operation operation line.now }
{
    match line.statement {
        Some(Statement { body, .. }) => match body.describe().contents {
            Contents::Instruction(instruction, _) => instruction.operation == operation,
            Contents::Chain(chain) => is_chain_of(operation, chain),
            Contents::Nothing
            | Contents::MarkedConstant(_)
            | Contents::Constant(_)
            | Contents::Space(_)
            | Contents::Areas(_)
            | Contents::AddressConstant(_) => false,
        },
        None => false,
    }
}

/// Whether one of these lines has an instruction of this operation.
fn have_operation(operation: u8, lines: &Lines<'_>) -> bool
    ensures { result ≡ list_any (has_operation operation) lines.now }
{
    for i in 0..lines.len() {
        if has_operation(operation, &lines.line(i)) {
            return true;
        }
    }
    false
}

/// Puts into three empty sets the labels that these lines name, those of their numbers without a sign, and those of fields
/// into which they may bring a sign.
fn note_lines(
    named: &mut LabelSet,
    numbers: &mut LabelSet,
    signed: &mut LabelSet,
    lines: &Lines<'_>,
) -> Result<(), AsmFault>
    requires none_named { (label : ALabel) → contains same_label named.old label ≡ false }
    requires none_numbers { (label : ALabel) → contains same_label numbers.old label ≡ false }
    requires none_signed { (label : ALabel) → contains same_label signed.old label ≡ false }
    ensures named { OnOk result ((label : ALabel) → contains same_label named.new label ≡ is_named lines.now label) }
    ensures numbers { OnOk result ((label : ALabel) → contains same_label numbers.new label ≡ is_number_of lines.now label) }
    ensures signed { OnOk result ((label : ALabel) → contains same_label signed.new label ≡ is_signed lines.now label) }
    ensures err { IfErr result IsMemory }
{
    for i in 0..lines.len() {
        let line = lines.line(i);
        note_named(named, &line)?;
        note_number(numbers, &line)?;
        note_signed(signed, &line)?;
    }
    Ok(())
}

impl Notes {
    /// What these lines say.
    ///
    /// # Errors
    ///
    /// `Memory` if there is no room for the labels.
    pub fn new(alloc: Global, hashing: SourceHashing, lines: &Lines<'_>) -> Result<Notes, AsmFault>
        ensures ok { IfOk result (λ notes. known_of notes ≡ known_in lines.now) }
        ensures err { IfErr result IsMemory }
    {
        let mut named = IndexSet::with_hasher(alloc, hashing);
        let mut numbers = IndexSet::with_hasher(alloc, hashing);
        let mut signed = IndexSet::with_hasher(alloc, hashing);
        note_lines(&mut named, &mut numbers, &mut signed, lines)?;
        Ok(Notes {
            named,
            numbers,
            signed,
            compares: have_operation(b'C', lines),
            adds: have_operation(b'A', lines) || have_operation(b'S', lines),
        })
    }
}
