//! The area literals that a line declares.
ghost use Rattle.std.specs.Prelude.{◌≡◌};
ghost use Rattle.autocoder_statements.specs.AreaLiterals.{area_of_literal, area_of_operand, area_at, areas_in};
ghost use Rattle.autocoder_statements.specs.AreaLiterals.{areas_of_statement, areas_of_line};

use crate::literal::{AreaLiteral, Literal};
use crate::operands::{Operand, OperandField, Operands};
use crate::statement::{Line, LineCheck};

/// The area literals of an instruction: that of its first address, and that of its second.
pub type DeclaredAreas = (Option<AreaLiteral>, Option<AreaLiteral>);

/// No area literals.
pub(crate) const NO_AREAS: DeclaredAreas = (None, None);

impl Literal {
    /// The area, if it is one.
    fn area(self) -> Option<AreaLiteral>
        ensures { result ≡ area_of_literal self }
    {
        match self {
            Literal::Area(area) => Some(area),
            Literal::Constant(_) | Literal::Address(_) => None,
        }
    }
}

impl Operand {
    /// The area literal, if it is one.
    fn area(self) -> Option<AreaLiteral>
        ensures { result ≡ area_of_operand self }
    {
        match self {
            Operand::Literal(literal) => literal.area(),
            Operand::Address(_) | Operand::Unit(_) => None,
        }
    }
}

impl OperandField {
    /// The area literal that stands here, if there is one.
    fn area(self) -> Option<AreaLiteral>
        ensures { result ≡ area_at self }
    {
        match self {
            OperandField::Operand(operand) => operand.area(),
            OperandField::Absent | OperandField::Malformed => None,
        }
    }
}

impl Operands {
    /// Their area literals.
    pub(crate) fn areas(self) -> DeclaredAreas
        ensures { result ≡ areas_in self }
    {
        (self.a.area(), self.b.area())
    }
}

impl Line {
    /// The area literals of the statement, if there is one.
    fn statement_areas(&self) -> DeclaredAreas
        ensures { result ≡ areas_of_statement self.now.statement }
    {
        match &self.statement {
            Some(statement) => statement.body.areas(),
            None => NO_AREAS,
        }
    }

    /// The area literals that the line declares: those of its instruction's addresses, whatever else is wrong with it;
    /// none if one of its bytes can't stand in its column.
    pub fn areas(&self) -> DeclaredAreas
        ensures { result ≡ areas_of_line self.now }
    {
        match self.bytes {
            LineCheck::Foreign => NO_AREAS,
            LineCheck::Good | LineCheck::Long => self.statement_areas(),
        }
    }
}
