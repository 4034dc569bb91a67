//! A source as its lines, each with what it says among its neighbours.
ghost use Rattle.std.specs.Prelude.{◌≡◌, ◌<◌, ◌^◌, length, map, IfOk, IfErr};
ghost use Rattle.autocoder_statements.specs.Context.{nothing_above, with_context, registers_of, with_registers};
ghost use Rattle.autocoder_statements.specs.Context.{settled};
ghost use Rattle.autocoder_statements.specs.Context.{lines_said};
ghost use Rattle.autocoder_statements.specs.Language.{line_in};
ghost use Rattle.autocoder_statements.specs.SourceLine.{lines_of};
ghost use Rattle.autocoder_statements.specs.Statement.{line_of};
ghost use Rattle.autocoder_statements.specs.declared.language.Language.TheVariants.{Ibm};
ghost use Rattle.autocoder_symbols.specs.Fault.{IsMemory};

use crate::fault::AsmFault;
use crate::kept_lines::{KeptLines, LinesSoFar};
use crate::unread::{Reading, bytes_from, bytes_to_next, first_line, with_registers};
use autocoder_statements::{Context, Language, Line, Registers};
use std::alloc::Global;

/// The lines of a source in the wider language, with what the lines above each say of it.
#[derive(Drop)]
struct LinesInContext<'s> {
    /// The lines.
    lines: KeptLines<'s>,
    /// Which of X1 to X3 some line has as its label.
    registers: Registers,
}

/// How many lines a source has at the most.
fn most_lines(source: &[u8]) -> usize {
    let feeds = source.iter().filter(|byte| **byte == b'\n').count();
    feeds.saturating_add(1)
}

/// What the lines of a source in the plain language say.
fn read_plain_lines(alloc: Global, source: &[u8]) -> Result<KeptLines<'_>, AsmFault>
    ensures lines { IfOk result (λ v. v ≡ map line_of (lines_of source.now)) }
    ensures few { IfOk result (λ v. length v < 2 ^ 32) }
    ensures err { IfErr result IsMemory }
{
    let reading = Reading {
        source,
        language: Language::Plain,
        registers: Registers::NONE,
    };
    let mut lines = LinesSoFar::new(alloc, reading, most_lines(source))?;
    let mut start = 0;
    while start < source.len() {
        let rest = bytes_from(source, start);
        let line = Line::from_bytes(first_line(rest));
        lines.push(start, Context::NOTHING, line)?;
        start += bytes_to_next(rest);
    }
    Ok(lines.finish())
}

/// What the lines of a source in the wider language say below the lines above them, with these as labels.
fn read_in_context(
    alloc: Global,
    registers: Registers,
    source: &[u8],
) -> Result<LinesInContext<'_>, AsmFault>
    ensures lines { IfOk result (λ read. read.lines
        ≡ map (with_registers registers) (with_context nothing_above (map (line_in Ibm) (lines_of source.now)))) }
    ensures registers { IfOk result (λ read. read.registers
        ≡ registers_of (with_context nothing_above (map (line_in Ibm) (lines_of source.now)))) }
    ensures few { IfOk result (λ read. length read.lines < 2 ^ 32) }
    ensures err { IfErr result IsMemory }
{
    let reading = Reading {
        source,
        language: Language::Ibm,
        registers,
    };
    let mut lines = LinesSoFar::new(alloc, reading, most_lines(source))?;
    let mut found = Registers::NONE;
    let mut context = Context::NOTHING;
    let mut start = 0;
    while start < source.len() {
        let rest = bytes_from(source, start);
        let mut line = Line::in_language(Language::Ibm, first_line(rest));
        let below = context.below(&line);
        context.settle(&mut line);
        found = found.and(&line);
        lines.push(start, context, with_registers(registers, line))?;
        context = below;
        start += bytes_to_next(rest);
    }
    Ok(LinesInContext {
        lines: lines.finish(),
        registers: found,
    })
}

/// What the lines of a source in the wider language say. If X1 to X3 are labels, they are read once more.
fn read_wide_lines(alloc: Global, source: &[u8]) -> Result<KeptLines<'_>, AsmFault>
    ensures lines { IfOk result (λ v. v ≡ settled (map (line_in Ibm) (lines_of source.now))) }
    ensures few { IfOk result (λ v. length v < 2 ^ 32) }
    ensures err { IfErr result IsMemory }
{
    let LinesInContext { lines, registers } = read_in_context(alloc, Registers::NONE, source)?;
    if !registers.any() {
        return Ok(lines);
    }
    drop(lines);
    let again = read_in_context(alloc, registers, source)?;
    Ok(again.lines)
}

/// What the lines of a source in this language say, each with its neighbours.
///
/// # Errors
///
/// `Memory` if there is no room for them, or the source has more than 4,294,967,295 bytes.
pub fn read_lines(
    alloc: Global,
    language: Language,
    source: &[u8],
) -> Result<KeptLines<'_>, AsmFault>
    ensures lines { IfOk result (λ v. v ≡ lines_said language (lines_of source.now)) }
    ensures as_many { IfOk result (λ v. length v ≡ length (lines_of source.now)) }
    ensures few { IfOk result (λ v. length v < 2 ^ 32) }
    ensures err { IfErr result IsMemory }
{
    let lines = match language {
        Language::Plain => read_plain_lines(alloc, source)?,
        Language::Ibm => read_wide_lines(alloc, source)?,
    };
    Ok(lines)
}
