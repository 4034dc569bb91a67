//! The faults of lines, but for those that only follow from one told before.
ghost use Rattle.std.specs.Prelude.{◌≡◌, ◌++◌, ◌<◌, ◌^◌, length, IfOk, IfErr, OnOk};
ghost use Rattle.autocoder_symbols.specs.Fault.{IsMemory};
ghost use Rattle.autocoder_symbols.specs.Reading.{lines_in};
ghost use Rattle.autocoder_symbols.specs.View.{symbols_view};
ghost use Rattle.autocoder_diagnostics.specs.Declarations.{anywhere_of};
ghost use Rattle.autocoder_diagnostics.specs.OwnFault.{nothing_before};
ghost use Rattle.autocoder_diagnostics.specs.ToldFaults.{told_faults, told_end, faults_from, line_faults};

use crate::declarations::Declarations;
use crate::own_fault::{Before, told_of};
use autocoder_statements::Language;
use autocoder_symbols::{AsmFault, AsmKind, Lines, SourceHashing, read_lines};
use std::alloc::Global;

/// Adds what is told of a line.
fn put_told(faults: &mut Vec<AsmFault>, line: u64, kind: Option<AsmKind>) -> Result<(), AsmFault>
    ensures ok { OnOk result (faults.new.items ≡ faults.old.items ++ told_faults line kind) }
    ensures err { IfErr result IsMemory }
{
    if let Some(kind) = kind {
        faults.push(AsmFault { line, kind })?;
    }
    Ok(())
}

/// Adds that there is no END, if that is told.
fn put_end(faults: &mut Vec<AsmFault>, before: Before) -> Result<(), AsmFault>
    ensures ok { OnOk result (faults.new.items ≡ faults.old.items ++ told_end before) }
    ensures err { IfErr result IsMemory }
{
    let is_told = !before.at.is_ended && (before.is_clean || !before.lost_end);
    if is_told {
        put_told(faults, before.at.number, Some(AsmKind::NoEnd))?;
    }
    Ok(())
}

/// Adds the faults of lines that these declare.
fn put_faults(
    this: &Declarations,
    lines: &Lines<'_>,
    faults: &mut Vec<AsmFault>,
) -> Result<(), AsmFault>
    requires { length lines.now < 2 ^ 32 }
    ensures ok { OnOk result (faults.new.items ≡ faults.old.items
        ++ faults_from (symbols_view this.now.symbols) (anywhere_of this.now) nothing_before lines.now) }
    ensures err { IfErr result IsMemory }
{
    let mut before = Before::NOTHING;
    for i in 0..lines.len() {
        let line = &lines.line(i);
        put_told(faults, before.at.number, told_of(this, before, line))?;
        before = before.next(&this.symbols, line);
    }
    put_end(faults, before)
}

/// The faults of lines that declare this.
fn faults_by(
    alloc: Global,
    this: &Declarations,
    lines: &Lines<'_>,
) -> Result<Vec<AsmFault>, AsmFault>
    requires { length lines.now < 2 ^ 32 }
    ensures ok { IfOk result (λ faults. faults.items
        ≡ faults_from (symbols_view this.now.symbols) (anywhere_of this.now) nothing_before lines.now) }
    ensures err { IfErr result IsMemory }
{
    let mut faults = Vec::new(alloc);
    put_faults(this, lines, &mut faults)?;
    Ok(faults)
}

/// The faults of lines, but for what isn't in core.
fn line_faults(
    alloc: Global,
    hashing: SourceHashing,
    language: Language,
    lines: &Lines<'_>,
) -> Result<Vec<AsmFault>, AsmFault>
    requires { length lines.now < 2 ^ 32 }
    ensures ok { IfOk result (λ faults. faults.items ≡ line_faults language lines.now) }
    ensures err { IfErr result IsMemory }
{
    let this = Declarations::new(alloc, hashing, language, lines)?;
    faults_by(alloc, &this, lines)
}

/// The faults of a source, but for what isn't in core.
///
/// # Errors
///
/// `Memory` if memory is refused or the source is too long.
pub fn source_faults(
    alloc: Global,
    language: Language,
    source: &[u8],
) -> Result<Vec<AsmFault>, AsmFault>
    ensures ok { IfOk result (λ faults. faults.items ≡ line_faults language (lines_in language source.now)) }
    ensures err { IfErr result IsMemory }
{
    let lines = read_lines(alloc, language, source)?;
    line_faults(
        alloc,
        SourceHashing::from_source(source),
        language,
        &lines.lend(),
    )
}
