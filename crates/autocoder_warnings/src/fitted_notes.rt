//! What the lines of a source say on a machine with features.
ghost use Rattle.std.specs.Prelude.{◌≡◌, ◌||◌, IfOk, IfErr, OnOk};
ghost use Rattle.std.specs.List.{list_any};
ghost use Rattle.std.specs.Str.{byte};
ghost use Rattle.indexmap.specs.IndexSet.{contains};
ghost use Rattle.autocoder_statements.specs.declared.label.Label.{Label as ALabel};
ghost use Rattle.autocoder_symbols.specs.Fault.{IsMemory};
ghost use Rattle.autocoder_symbols.specs.Symbols.{same_label};
ghost use Rattle.autocoder_diagnostics.specs.Noted.{known_of};
ghost use Rattle.autocoder_diagnostics.specs.Notes.{has_operation};
ghost use Rattle.autocoder_warnings.specs.FittedNotes.{stored_by, stored_symbol, is_stored_in, known_with};
ghost use Rattle.autocoder_warnings.specs.FittedNotes.{with_divisions, with_stores};

use autocoder_diagnostics::{LabelSet, Notes, symbol_in};
use autocoder_statements::{Contents, Instruction, Label, Line, OperandField, Operands, Statement};
use autocoder_symbols::{AsmFault, Lines, SourceHashing};
use machine_tables::Features;
use std::alloc::Global;

/// Whether a line divides, or is a chain of divisions.
fn divides(line: &Line) -> bool
    ensures { result ≡ has_operation (byte "%") line.now }
{
    match line.statement {
        Some(Statement { body, .. }) => match body.describe().contents {
            Contents::Instruction(instruction, _) => instruction.operation == b'%',
            Contents::Chain(chain) => matches!(chain.operation, Some(b'%')),
            Contents::Nothing
            | Contents::MarkedConstant(_)
            | Contents::Constant(_)
            | Contents::Space(_)
            | Contents::Areas(_)
            | Contents::AddressConstant(_) => false,
        },
        None => false,
    }
}

/// Whether one of these lines divides.
fn divide(lines: &Lines<'_>) -> bool
    ensures { result ≡ list_any (has_operation (byte "%")) lines.now }
{
    for i in 0..lines.len() {
        if divides(&lines.line(i)) {
            return true;
        }
    }
    false
}

/// The symbol at which an instruction stores its second address.
fn stored_by(instruction: Instruction, operands: Operands) -> Option<Label>
    ensures { result ≡ stored_by instruction operands }
{
    match (instruction.operation, operands.b) {
        (b'H', OperandField::Malformed | OperandField::Operand(_)) => symbol_in(operands.a),
        _ => None,
    }
}

/// The symbol at which a statement stores its second address.
fn stored_symbol(contents: Contents) -> Option<Label>
    ensures { result ≡ stored_symbol contents }
{
    match contents {
        Contents::Instruction(instruction, operands) => stored_by(instruction, operands),
        Contents::Nothing
        | Contents::MarkedConstant(_)
        | Contents::Constant(_)
        | Contents::Space(_)
        | Contents::Areas(_)
        | Contents::Chain(_)
        | Contents::AddressConstant(_) => None,
    }
}

/// Adds the label at which a line stores its second address.
fn note_stored(labels: &mut LabelSet, line: &Line) -> Result<(), AsmFault>
    ensures noted { OnOk result ((other : ALabel) → contains same_label labels.new other
        ≡ (contains same_label labels.old other || is_stored_in other line.now)) }
    ensures err { IfErr result IsMemory }
{
    let Some(Statement { body, .. }) = line.statement else {
        return Ok(());
    };
    if let Some(label) = stored_symbol(body.describe().contents) {
        labels.insert(label)?;
    }
    Ok(())
}

/// Adds the labels at which these lines store second addresses.
fn note_all_stored(labels: &mut LabelSet, lines: &Lines<'_>) -> Result<(), AsmFault>
    ensures noted { OnOk result ((other : ALabel) → contains same_label labels.new other
        ≡ (contains same_label labels.old other || list_any (is_stored_in other) lines.now)) }
    ensures err { IfErr result IsMemory }
{
    for i in 0..lines.len() {
        note_stored(labels, &lines.line(i))?;
    }
    Ok(())
}

/// Notes whether an instruction divides, on a machine that can.
fn note_divisions(notes: &mut Notes, features: Features, lines: &Lines<'_>)
    ensures { known_of notes.new ≡ with_divisions features lines.now (known_of notes.old) }
{
    if features.multiply {
        notes.adds = notes.adds || divide(lines);
    }
}

/// Notes the labels at which instructions store second addresses, on a machine that does so.
fn note_stores(notes: &mut Notes, features: Features, lines: &Lines<'_>) -> Result<(), AsmFault>
    ensures ok { OnOk result (known_of notes.new ≡ with_stores features lines.now (known_of notes.old)) }
    ensures err { IfErr result IsMemory }
{
    if features.lengths {
        note_all_stored(&mut notes.signed, lines)?;
    }
    Ok(())
}

/// What these lines say on a machine with these features.
pub(crate) fn notes_with(
    alloc: Global,
    hashing: SourceHashing,
    features: Features,
    lines: &Lines<'_>,
) -> Result<Notes, AsmFault>
    ensures ok { IfOk result (λ notes. known_of notes ≡ known_with features lines.now) }
    ensures err { IfErr result IsMemory }
{
    let mut notes = Notes::new(alloc, hashing, lines)?;
    note_divisions(&mut notes, features, lines);
    note_stores(&mut notes, features, lines)?;
    Ok(notes)
}
