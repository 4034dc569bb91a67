//! The commands that deposit what the assembler makes of a statement.
ghost use Rattle.std.specs.Prelude.{◌≡◌, ◌⊎◌};
ghost use Rattle.autocoder_symbols.specs.Fault.{IsMemory};
ghost use Rattle.autocoder_statements.specs.Language.{line_in};
ghost use Rattle.operate_program.specs.Act.{Gives};
ghost use Rattle.operate_program.specs.declared.fault.ActFault.TheVariants as ActFault;
ghost use Rattle.operate_program.specs.Statement.{assembled_commands, image_commands, is_literal, placed_commands};
ghost use Rattle.operate_program.specs.Statement.{statement_commands, statement_line};
ghost use Rattle.operate_program.specs.Statement.{uses_literal};

use crate::commands::deposits;
use crate::fault::ActFault;
use crate::program::Program;
use crate::statement_source::{statement_line, statement_source};
use autocoder_1401::{AsmFault, AsmKind, Image, assemble_image};
use autocoder_statements::{Addressing, Language, Line, Operand, OperandField, Operands};
use machine_commands::Command;
use operate_orders::Text;
use std::alloc::Global;

/// Whether an operand is a literal.
fn is_literal(field: OperandField) -> bool
    ensures { result ≡ is_literal field }
{
    match field {
        OperandField::Operand(Operand::Literal(_)) => true,
        OperandField::Operand(Operand::Address(_) | Operand::Unit(_))
        | OperandField::Malformed
        | OperandField::Absent => false,
    }
}

/// Whether a line uses a literal, which would need a place of its own.
fn uses_literal(language: Language, line: &[u8]) -> bool
    ensures { result ≡ uses_literal language line.now }
{
    match Line::in_language(language, line).statement {
        Some(statement) => match statement.body.describe().addressing {
            Addressing::Addresses(Operands { a, b, .. }) => is_literal(a) || is_literal(b),
            Addressing::Nothing
            | Addressing::EarlierValue(_)
            | Addressing::Equal(_)
            | Addressing::Value(_)
            | Addressing::Entry(_) => false,
        },
        None => false,
    }
}

/// The commands that deposit an image, which isn't empty.
fn image_commands(alloc: Global, image: &Image, statement: &Text) -> Result<Vec<Command>, ActFault>
    ensures { Gives (λ commands. commands.items) result (image_commands statement.now image.now) }
{
    if image.segments.as_slice().is_empty() {
        return Err(ActFault::NoCells(*statement));
    }
    Ok(deposits(alloc, image)?)
}

/// What a statement is refused for: memory, or the assembler refuses it.
fn statement_fault(fault: AsmFault, statement: &Text, at: u16, size: u16) -> ActFault
    ensures memory { IsMemory fault → result ≡ ActFault.Memory }
    ensures either { (result ≡ ActFault.Memory) ⊎ (result ≡ ActFault.Statement statement.now at size) }
{
    if fault.kind == AsmKind::Memory {
        return ActFault::Memory;
    }
    ActFault::Statement {
        statement: *statement,
        at,
        size,
    }
}

/// What the assembler makes of the line of a statement, with the labels of the program, at an address of core storage
/// of this size.
fn assembled_commands(
    alloc: Global,
    program: &Program,
    size: u16,
    at: u16,
    statement: &Text,
    line: &[u8],
) -> Result<Vec<Command>, ActFault>
    ensures { Gives (λ commands. commands.items) result
        (assembled_commands program.now size at statement.now line.now) }
{
    let source = statement_source(alloc, program, at, line)?;
    match assemble_image(alloc, program.language(), source.as_slice(), size) {
        Ok(image) => image_commands(alloc, &image, statement),
        Err(fault) => Err(statement_fault(fault, statement, at, size)),
    }
}

/// The commands that deposit what the assembler makes of the line of a statement at an address.
fn placed_commands(
    alloc: Global,
    program: &Program,
    size: u16,
    at: u16,
    statement: &Text,
    line: &[u8],
) -> Result<Vec<Command>, ActFault>
    ensures { Gives (λ commands. commands.items) result
        (placed_commands program.now size at statement.now line.now) }
{
    if uses_literal(program.language(), line) {
        return Err(ActFault::Literal);
    }
    assembled_commands(alloc, program, size, at, statement, line)
}

/// The commands that deposit what the assembler makes of a statement at an address.
pub(crate) fn statement_commands(
    alloc: Global,
    program: &Program,
    size: u16,
    at: u16,
    statement: &Text,
) -> Result<Vec<Command>, ActFault>
    ensures { Gives (λ commands. commands.items) result (statement_commands program.now size at statement.now) }
{
    let line = statement_line(alloc, statement.as_slice())?;
    placed_commands(alloc, program, size, at, statement, line.as_slice())
}
