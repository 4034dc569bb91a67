//! What the operations that both languages have ask for in the wider one.
ghost use Rattle.std.specs.Prelude.{◌≡◌};
ghost use Rattle.autocoder_statements.specs.WideBody.{shared_body_with, shared_body_of};

use crate::language::Language;
use crate::mnemonic::Operation;
use crate::operands::{Operands, lone_operand};
use crate::statement::{Body, space_of};
use crate::units::FirstOperand;
use crate::wide_areas::{wide_areas_of, wide_span_of};

impl Body {
    /// What an operation with these columns for its operands asks for in the wider language.
    fn with_shared_operation(operation: Operation, columns: &[u8]) -> Body
        ensures { result ≡ shared_body_with operation columns.now }
    {
        match operation {
            Operation::Instruction(instruction) => Body::Instruction(
                instruction,
                Operands::from_wide_columns(FirstOperand::Address, instruction.form, columns),
            ),
            Operation::MarkedConstant => Body::wide_constant(true, columns),
            Operation::Constant => Body::wide_constant(false, columns),
            Operation::Space => Body::Space(space_of(lone_operand(columns))),
            Operation::Areas => Body::Areas(wide_areas_of(columns)),
            Operation::Field => Body::WideField(wide_span_of(columns)),
            Operation::Equate => Body::WideEquate(Operands::equal(columns)),
            Operation::Origin => Body::LabelledOrigin(Operands::origin(columns)),
            Operation::Execute => Body::WideExecute(Operands::one_address(Language::Ibm, columns)),
            Operation::End => Body::WideEnd(Operands::entry(columns)),
        }
    }

    /// What the columns for an operation that both languages have and those for its operands ask for in the wider one.
    pub(crate) fn from_shared_columns(operation: &[u8], operands: &[u8]) -> Body
        ensures { result ≡ shared_body_of operation.now operands.now }
    {
        match Operation::from_columns(operation) {
            Some(operation) => Body::with_shared_operation(operation, operands),
            None => Body::Unknown,
        }
    }
}
