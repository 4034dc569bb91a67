//! How many places what a statement says takes.
ghost use Rattle.std.specs.Prelude.{◌≡◌, ◌*◌, ◌<◌, ◌≤◌, Some, IfOk, IfErr};
ghost use Rattle.autocoder_statements.specs.Operands.{count_of};
ghost use Rattle.autocoder_symbols.specs.Fault.{IsMemory};
ghost use Rattle.autocoder_placing.specs.Placement.{instruction_length, constant_length, area_stride, areas_length};
ghost use Rattle.autocoder_placing.specs.Placement.{chain_length};
ghost use Rattle.autocoder_placing.specs.Placement.{contents_length};
ghost use Rattle.autocoder_placing.specs.Values.{last_place};

use crate::characters::Characters;
use autocoder_statements::{Areas, Chain, Constant, Contents, OperandField, Operands};
use autocoder_symbols::{AsmFault, checked_sum};

/// The last of the places of a length from the first on.
pub(crate) fn last_place(first: i64, length: u32) -> Result<i64, AsmFault>
    ensures value { IfOk result (λ last. last ≡ last_place first length) }
    ensures err { IfErr result IsMemory }
{
    let beyond = checked_sum(first, i64::from(length))?;
    checked_sum(beyond, -1)
}

/// How many places an operand takes.
fn operand_length(field: OperandField) -> u32
    ensures { result ≡ 3 * count_of field }
{
    match field {
        OperandField::Absent => 0,
        OperandField::Malformed | OperandField::Operand(_) => 3,
    }
}

/// How many places an instruction takes.
pub fn instruction_length(operands: Operands) -> u32
    ensures value { result ≡ instruction_length operands }
    ensures bound { result ≤ 8 }
{
    let d = if operands.d.is_some() { 1 } else { 0 };
    1 + operand_length(operands.a) + operand_length(operands.b) + d
}

/// How many places a constant takes.
fn constant_length(constant: Option<Constant>) -> u32
    ensures { result ≡ constant_length constant }
{
    match constant {
        Some(constant) => u32::from(Characters::from_constant(constant).len),
        None => 0,
    }
}

/// How many places an area takes, with the record mark after it.
fn area_stride(areas: Areas) -> u32
    ensures value { result ≡ area_stride areas }
    ensures bound { result ≤ 65536 }
{
    let mark = if areas.has_record_marks { 1 } else { 0 };
    u32::from(areas.length) + mark
}

/// How many places areas take, with the record mark after each and the group mark after them.
fn areas_length(areas: Areas) -> u32
    ensures { result ≡ areas_length (Some areas) }
{
    let beyond = if areas.has_group_mark { 1 } else { 0 };
    u32::from(areas.count) * area_stride(areas) + beyond
}

/// How many places the instructions of a chain take.
pub fn chain_length(chain: Chain) -> u32
    ensures value { result ≡ chain_length chain }
    ensures bound { result < 256 }
{
    match chain.count {
        Some(count) => u32::from(count),
        None => 0,
    }
}

/// How many places contents fill.
pub fn contents_length(contents: &Contents) -> u32
    ensures { result ≡ contents_length contents.now }
{
    match *contents {
        Contents::Nothing | Contents::Space(None) | Contents::Areas(None) => 0,
        Contents::Instruction(_, operands) => instruction_length(operands),
        Contents::MarkedConstant(constant) | Contents::Constant(constant) => {
            constant_length(constant)
        },
        Contents::Space(Some(places)) => u32::from(places),
        Contents::Areas(Some(areas)) => areas_length(areas),
        Contents::Chain(chain) => chain_length(chain),
        Contents::AddressConstant(_) => 3,
    }
}
