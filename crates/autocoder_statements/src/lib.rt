//! A source line of Autocoder by itself: its columns, its label, its operation and its operands, and the faults that it
//! has whatever the other lines are.
//!
//! ```text
//! let (line, rest) = split_line(source)?;      // the first line, and what follows its line feed
//! let line = Line::from_bytes(line);           // what it says
//! line.statement                               // its label and its body; none for a comment
//! ```
//!
//! In the wider language a line may also say what its neighbours make of it: see `context`.
//!
//! What a line says is plain data. An address is what the source writes: no symbol is looked up here, and nothing is
//! placed. What each kind of statement asks of the assembler is a row of the table in `description`.
#![tactic(auto)]

pub mod lines; // a source as its lines
pub mod columns; // a line as its 80 columns
pub mod numbers; // numbers within bounds
pub mod label; // columns 6 to 15
pub mod mnemonic; // columns 16 to 20
pub mod nearness; // words that are nearly alike
pub mod address; // addresses, as they are written
pub mod constant; // constants
pub mod literal; // literals, and how those of addresses and areas are written
pub mod operands; // columns 21 to 72
pub mod lone_address; // operands that are one address
pub mod statement; // what a line says
pub mod wide_columns; // columns as the wider language reads them
pub mod heading; // JOB and ENT
pub mod control; // the operands of CTL, SFX and CHAIN
pub mod units; // units and tapes in the place of an address
pub mod wide_mnemonic; // the mnemonics of instructions in the wider language
pub mod wide_constant; // constants of addresses
pub mod wide_areas; // options of DA, and fields without a mark
pub mod wide_origin; // the operands of EQU, ORG and END in the wider language
pub mod wide_body; // what the operations of both languages ask for in the wider one
pub mod wide_operation; // the assembler's own operations that the plain language hasn't
pub mod wide_statement; // what a line says in the wider language
pub mod language; // what a line says in each language
pub mod symbols; // symbols below SFX, and X1 to X3
pub mod area_literals; // the area literals that a line declares
pub mod context; // what lines say with their neighbours
pub mod description; // what each kind of statement asks of the assembler
pub mod flaw; // which columns of a line are at fault
pub mod operands_at_fault; // what is wrong with operands, and in which columns
pub mod language_flaw; // the same in each language

pub use address::{Address, Base};
pub use area_literals::DeclaredAreas;
pub use columns::COLUMNS;
pub use constant::{Constant, TEXT_LENGTH, Text};
pub use context::{Context, size_asked};
pub use description::{
    Addressing, AreaRole, Contents, Description, LabelRule, Next, Point, Relation,
};
pub use flaw::{
    Flaw, OperandFlaw, OperationFlaw, Stretch, first_base, foreign_column, label_stretch,
    operation_flaw, operation_stretch, second_base, statement_stretch,
};
pub use heading::is_system_line;
pub use label::{LABEL_LENGTH, Label, LabelField};
pub use language::Language;
pub use language_flaw::{
    columns_in_language, foreign_column_in, operand_flaw_in, operation_flaw_in,
};
pub use lines::split_line;
pub use literal::{AddressLiteral, AreaLiteral, Literal};
pub use mnemonic::{DCharacter, Form, Instruction, Operation};
pub use nearness::{is_near, nearest_mnemonic, word_in};
pub use operands::{Operand, OperandField, Operands, Unit};
pub use operands_at_fault::operand_flaw;
pub use statement::{
    AddressConstant, Areas, Body, Chain, Line, LineCheck, PlacedConstant, SizeField, Span,
    Statement, SuffixField,
};
pub use symbols::Registers;
