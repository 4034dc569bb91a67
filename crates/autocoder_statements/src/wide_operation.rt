//! The assembler's own operations that the plain language hasn't: the mnemonic of each, what it asks for, and what is
//! wrong with its operands.
//!
//! A new one is a row of the table here, a case of `with_wide_operation` and one of `wide_flaw_with`.
ghost use Rattle.std.specs.Prelude.{◌≡◌, ◌≤◌, length};
ghost use Rattle.autocoder_statements.specs.WideOperation.{wide_operations, wide_operation_of};
ghost use Rattle.autocoder_statements.specs.WideOperation.{wide_body_with};
ghost use Rattle.autocoder_statements.specs.WideOperation.{wide_flaw_with};

use crate::columns::bytes_before;
use crate::flaw::{Flaw, OperandFlaw};
use crate::heading::names_autocoder;
use crate::language::Language;
use crate::mnemonic::{Named, row_of};
use crate::operands::Operands;
use crate::operands_at_fault::{address_flaw, flaw_after, lone_flaw, origin_flaw, value_flaw};
use crate::statement::{AddressConstant, Body, Chain, SizeField, SuffixField};

/// What columns 16 to 20 of a line ask for of the assembler itself, beside what they ask for in the plain language.
#[derive(Clone, Copy)]
pub enum WideOperation {
    /// JOB: a heading.
    Heading,
    /// ENT: the name of an assembler.
    Assembler,
    /// CTL: the size of core storage.
    Control,
    /// SFX: the suffix of symbols.
    Suffix,
    /// XFR: a program that was loaded so far would be entered.
    Transfer,
    /// CHAIN: an operation, time and again.
    Chain,
    /// DSA: an address as a constant.
    Address,
    /// LTORG: the next place, at which the literals so far are placed.
    LiteralOrigin,
}

/// A row of the table of the assembler's own operations.
pub(crate) type WideOwnRow = ([u8; 5], WideOperation);

/// The mnemonics of the assembler's own operations that the plain language hasn't.
static WIDE_OPERATIONS: [WideOwnRow; 8] = [
    (*b"JOB  ", WideOperation::Heading),
    (*b"ENT  ", WideOperation::Assembler),
    (*b"CTL  ", WideOperation::Control),
    (*b"SFX  ", WideOperation::Suffix),
    (*b"XFR  ", WideOperation::Transfer),
    (*b"CHAIN", WideOperation::Chain),
    (*b"DSA  ", WideOperation::Address),
    (*b"LTORG", WideOperation::LiteralOrigin),
];

/// The table of the assembler's own operations that the plain language hasn't.
#[tactic(auto, unfolding(crate::specs::WideOperation::wide_operations))]
pub(crate) fn wide_operations() -> &'static [WideOwnRow]
    ensures { result.now ≡ wide_operations }
{
    &WIDE_OPERATIONS
}

impl Named for WideOwnRow {
    ghost word = { λ row. row.0 };

    fn name(&self) -> [u8; 5] {
        self.0
    }
}

/// What the columns ask for of the assembler itself, beside what they ask for in the plain language.
pub(crate) fn wide_operation_of(columns: &[u8]) -> Option<WideOperation>
    ensures { result ≡ wide_operation_of columns.now }
{
    match row_of(wide_operations(), columns) {
        Some((_, operation)) => Some(operation),
        None => None,
    }
}

impl Body {
    /// What an operation of the assembler itself with these columns for its operands asks for.
    pub(crate) fn with_wide_operation(operation: WideOperation, columns: &[u8]) -> Body
        ensures { result ≡ wide_body_with operation columns.now }
    {
        match operation {
            WideOperation::Heading => Body::Heading(true),
            WideOperation::Assembler => Body::Heading(names_autocoder(columns)),
            WideOperation::Control => Body::Control(SizeField::from_columns(columns)),
            WideOperation::Suffix => Body::Suffix(SuffixField::from_columns(columns)),
            WideOperation::Transfer => Body::Transfer(Operands::one_address(
                Language::Ibm,
                columns,
            )),
            WideOperation::Chain => Body::Chain(Chain::from_columns(columns)),
            WideOperation::Address => Body::AddressConstant(AddressConstant::from_columns(columns)),
            WideOperation::LiteralOrigin => Body::LiteralOrigin(Operands::literal_origin(columns)),
        }
    }
}

/// What is wrong with the operands of an operation of the assembler itself, if something is.
pub(crate) fn wide_flaw_with(operation: WideOperation, columns: &[u8]) -> Option<Flaw>
    requires { length columns.now ≤ 52 }
    ensures { result ≡ wide_flaw_with operation columns.now }
{
    let flaw = match operation {
        WideOperation::Heading => return None,
        WideOperation::Assembler => {
            flaw_after(0, bytes_before(b' ', columns), OperandFlaw::NoAssembler)
        },
        WideOperation::Control => flaw_after(1, 1, OperandFlaw::NoSize),
        WideOperation::Suffix => lone_flaw(OperandFlaw::NoSuffix, 0, columns),
        WideOperation::Transfer => value_flaw(Language::Ibm, columns),
        WideOperation::Chain => lone_flaw(OperandFlaw::NoTimes, 0, columns),
        WideOperation::Address => address_flaw(columns),
        WideOperation::LiteralOrigin => origin_flaw(Language::Ibm, columns),
    };
    Some(flaw)
}
