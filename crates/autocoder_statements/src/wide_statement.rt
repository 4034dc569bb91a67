//! What the columns of a line say in the wider language.
ghost use Rattle.std.specs.Prelude.{◌≡◌};
ghost use Rattle.autocoder_statements.specs.WideStatement.{wide_instruction, wide_body_of, constant_place};
ghost use Rattle.autocoder_statements.specs.WideStatement.{wide_statement_of};
ghost use Rattle.autocoder_statements.specs.WideStatement.{wide_line_with};

use crate::columns::{COLUMNS, columns_in};
use crate::constant::Constant;
use crate::heading::is_wide_comment;
use crate::label::{LabelField, place_in};
use crate::language::Language;
use crate::mnemonic::Instruction;
use crate::operands::Operands;
use crate::statement::{Body, Line, LineCheck, PlacedConstant, Statement};
use crate::wide_columns::is_constant_operation;
use crate::wide_mnemonic::{WideRow, form_by, wide_row_of};
use crate::wide_operation::wide_operation_of;

impl Body {
    /// The instruction of a row of the wider table.
    fn wide_instruction(row: WideRow, columns: &[u8]) -> Body
        ensures { result ≡ wide_instruction row columns.now }
    {
        let form = form_by(row, columns);
        Body::Instruction(
            Instruction {
                operation: row.1,
                form,
            },
            Operands::from_wide_columns(row.2, form, columns),
        )
    }

    /// What the columns for an operation and those for its operands ask for.
    fn from_wide_columns(operation: &[u8], operands: &[u8]) -> Body
        ensures { result ≡ wide_body_of operation.now operands.now }
    {
        if let Some(known) = wide_operation_of(operation) {
            return Body::with_wide_operation(known, operands);
        }
        match wide_row_of(operation) {
            Some(row) => Body::wide_instruction(row, operands),
            None => Body::from_shared_columns(operation, operands),
        }
    }
}

/// The place that a DCW or DC has in the columns for a label, if it has one.
fn constant_place(columns: &[u8; COLUMNS]) -> Option<u32>
    ensures { result ≡ constant_place columns.now }
{
    if is_constant_operation(columns_in(columns, 16, 20)) {
        place_in(columns_in(columns, 6, 15))
    } else {
        None
    }
}

impl Statement {
    /// What the columns of a line say that is no comment.
    fn from_wide_columns(columns: &[u8; COLUMNS]) -> Statement
        ensures { result ≡ wide_statement_of columns.now }
    {
        let operation = columns_in(columns, 16, 20);
        match constant_place(columns) {
            Some(last) => Statement {
                label: LabelField::Absent,
                body: Body::PlacedConstant(PlacedConstant {
                    last,
                    is_marked: operation == b"DCW  ".as_slice(),
                    constant: Constant::from_wide_columns(columns_in(columns, 21, 72)),
                }),
            },
            None => Statement {
                label: LabelField::from_columns(Language::Ibm, columns_in(columns, 6, 15)),
                body: Body::from_wide_columns(operation, columns_in(columns, 21, 72)),
            },
        }
    }
}

impl Line {
    /// What these columns say, of a line of this length.
    // Never inlined, since its caller, which reads most lines without it, would make room for its locals at each entry.
    #[inline(never)]
    #[tactic(auto, unfolding(crate::specs::WideStatement::wide_line_with))]
    pub(crate) fn with_wide_columns(len: usize, columns: &[u8; COLUMNS]) -> Line
        ensures { result ≡ wide_line_with len columns.now }
    {
        Line {
            bytes: LineCheck::of_wide(len, columns),
            statement: if is_wide_comment(columns) {
                None
            } else {
                Some(Statement::from_wide_columns(columns))
            },
        }
    }
}
