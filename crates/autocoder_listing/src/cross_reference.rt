//! The cross-reference of a source: each label with the lines that name it.
ghost use Rattle.std.specs.Prelude.{◌≡◌, ◌<◌, ◌^◌, ◌++◌, ◌||◌, length, IfOk, IfErr, OnOk};
ghost use Rattle.std.specs.List.{flat_map};
ghost use Rattle.bytes_text.specs.Written.{Adds};
ghost use Rattle.autocoder_statements.specs.declared.label.Label.{Label as ALabel};
ghost use Rattle.autocoder_symbols.specs.Fault.{IsMemory};
ghost use Rattle.autocoder_symbols.specs.Symbols.{has_label, same_label};
ghost use Rattle.autocoder_diagnostics.specs.Notes.{is_named_in};
ghost use Rattle.autocoder_listing.specs.CrossReference.{number_if, uses_of, use_text, reference_line};
ghost use Rattle.autocoder_listing.specs.View.{lines_naming};

use crate::symbol_table::{LINE_DIGITS, Symbol};
use autocoder_diagnostics::symbol_in;
use autocoder_statements::{Label, Line, Statement};
use autocoder_symbols::{AsmFault, Lines, SourceHashing};
use bytes_text::Text;
use indexmap::IndexMap;
use std::alloc::Global;

/// For each label that is named the numbers of the lines that name it.
pub(crate) type Uses = IndexMap<Label, Vec<u64>, SourceHashing>;

/// Notes that the line of this number names a label.
fn note_use(alloc: Global, uses: &mut Uses, label: Label, number: u64) -> Result<(), AsmFault>
    ensures noted { OnOk result ((other : ALabel) → lines_naming uses.new other
        ≡ lines_naming uses.old other ++ number_if (same_label label other) number) }
    ensures err { IfErr result IsMemory }
{
    if let Some(lines) = uses.get_mut(&label) {
        lines.push(number)?;
        return Ok(());
    }
    let mut lines = Vec::new(alloc);
    lines.push(number)?;
    uses.insert(label, lines)?;
    Ok(())
}

/// Notes that the line of this number names one label or two, each once.
fn note_both(
    alloc: Global,
    uses: &mut Uses,
    first: Option<Label>,
    second: Option<Label>,
    number: u64,
) -> Result<(), AsmFault>
    ensures noted { OnOk result ((label : ALabel) → lines_naming uses.new label
        ≡ lines_naming uses.old label ++ number_if (has_label label first || has_label label second) number) }
    ensures err { IfErr result IsMemory }
{
    if let Some(label) = first {
        note_use(alloc, uses, label, number)?;
    }
    match second {
        Some(label) if first != second => note_use(alloc, uses, label, number),
        Some(_) | None => Ok(()),
    }
}

/// Notes the labels that the line of this number names.
fn note_line(alloc: Global, uses: &mut Uses, line: &Line, number: u64) -> Result<(), AsmFault>
    ensures noted { OnOk result ((label : ALabel) → lines_naming uses.new label
        ≡ lines_naming uses.old label ++ number_if (is_named_in label line.now) number) }
    ensures err { IfErr result IsMemory }
{
    let Some(Statement { body, .. }) = line.statement else {
        return Ok(());
    };
    let operands = body.describe().addressing.operands();
    let first = symbol_in(operands.a);
    let second = symbol_in(operands.b);
    note_both(alloc, uses, first, second, number)
}

/// For each label the lines that name it.
///
/// # Errors
///
/// `Memory` if there is no room for them.
pub(crate) fn uses_of(
    alloc: Global,
    hashing: SourceHashing,
    lines: &Lines<'_>,
) -> Result<Uses, AsmFault>
    requires { length lines.now < 2 ^ 32 }
    ensures ok { IfOk result (λ uses. (label : ALabel) → lines_naming uses label ≡ uses_of lines.now label) }
    ensures err { IfErr result IsMemory }
{
    let mut uses = IndexMap::with_hasher(alloc, hashing);
    for i in 0..lines.len() {
        note_line(alloc, &mut uses, &lines.line(i), i as u64 + 1)?;
    }
    Ok(uses)
}

/// Adds the numbers of lines.
fn put_uses(text: &mut Text, numbers: &[u64])
    ensures { Adds text.old text.new (flat_map use_text numbers.now) }
{
    for number in numbers {
        text.put(b" ");
        text.put_number(LINE_DIGITS, *number);
    }
}

/// Adds the line of a symbol.
#[tactic(auto, unfolding(crate::specs::CrossReference::reference_line))]
fn put_reference_line(text: &mut Text, uses: &Uses, symbol: &Symbol)
    ensures { Adds text.old text.new (reference_line (lines_naming uses.now) symbol.now) }
{
    text.put(symbol.label.text.as_slice());
    text.put(b" ");
    text.put_number(LINE_DIGITS, symbol.line);
    if let Some(numbers) = uses.get(&symbol.label) {
        put_uses(text, numbers.as_slice());
    }
    text.put(b"\n");
}

/// Adds the cross-reference: the lines of these symbols.
pub(crate) fn put_references(text: &mut Text, uses: &Uses, symbols: &[Symbol])
    ensures { Adds text.old text.new (flat_map (reference_line (lines_naming uses.now)) symbols.now) }
{
    for symbol in symbols {
        put_reference_line(text, uses, symbol);
    }
}
