//! What lines say with their neighbours: below SFX, below CTL, below the operation that CHAIN repeats, and in a source
//! whose lines have X1 to X3 as labels or not.
//!
//! ```text
//! let mut context = Context::NOTHING;
//! let mut registers = Registers::NONE;
//! for line in &mut lines {               // what a line says by itself in the wider language
//!     let below = context.below(line);
//!     context.settle(line);              // what it says below the lines above it
//!     registers = registers.and(line);
//!     context = below;
//! }
//! for line in &mut lines {
//!     *line = registers.line(*line);     // what it says among all lines
//! }
//! ```
ghost use Rattle.std.specs.Prelude.{◌≡◌, true, map, IfSome};
ghost use Rattle.autocoder_statements.specs.Context.{nothing_above, body_below, rule_in, statement_in, in_context};
ghost use Rattle.autocoder_statements.specs.Context.{suffix_by};
ghost use Rattle.autocoder_statements.specs.Context.{below_related};
ghost use Rattle.autocoder_statements.specs.AreaLiterals.{label_of_area};
ghost use Rattle.autocoder_statements.specs.Context.{below, registers_with, registers_with_areas, registers_and};
ghost use Rattle.autocoder_statements.specs.Context.{with_registers};
ghost use Rattle.autocoder_statements.specs.Context.{size_of, control_by, control_in, may_be_control, first_size};
ghost use Rattle.autocoder_statements.specs.Context.{size_asked};
ghost use Rattle.autocoder_statements.specs.Control.{is_control_size};
ghost use Rattle.autocoder_statements.specs.Language.{line_in};
ghost use Rattle.autocoder_statements.specs.SourceLine.{lines_of};
ghost use Rattle.autocoder_statements.specs.LineSymbols.{statement_under};
ghost use Rattle.autocoder_statements.specs.declared.language.Language.TheVariants as languages;

use crate::area_literals::DeclaredAreas;
use crate::description::Relation;
use crate::label::Label;
use crate::language::Language;
use crate::lines::split_line;
use crate::literal::AreaLiteral;
use crate::statement::{Body, Chain, Line, SizeField, Statement, SuffixField};
use crate::symbols::{Registers, SymbolRule};

/// What the lines above say of a line.
#[derive(Clone, Copy, PartialEq, Eq)]
pub struct Context {
    /// The suffix of its symbols, a letter or a digit, if they get one.
    pub suffix: Option<u8>,
    /// Whether there is a CTL.
    pub is_controlled: bool,
    /// The graphic of the operation character of the instruction directly above, which CHAIN repeats, if there is one.
    pub above: Option<u8>,
}

impl Context {
    /// What is said of the first line.
    pub const NOTHING: Context = Context {
        suffix: None,
        is_controlled: false,
        above: None,
    };

    /// Makes of a body what it says here, but for its symbols.
    fn settle_body(self, body: &mut Body)
        ensures { body.new ≡ body_below self body.old }
    {
        match body.relation() {
            Relation::Control(_) if self.is_controlled => *body = Body::SecondControl,
            Relation::Repeats(chain) => *body = Body::Chain(Chain {
                operation: self.above,
                ..chain
            }),
            Relation::Apart
            | Relation::Repeated(_)
            | Relation::Control(_)
            | Relation::SecondControl
            | Relation::Suffix(_) => {},
        }
    }

    /// The rule that the suffix is for symbols.
    fn rule(self) -> SymbolRule
        ensures { result ≡ rule_in self }
    {
        SymbolRule {
            suffix: self.suffix,
            registers: Registers::NONE,
        }
    }

    /// Puts the suffix after the symbols of a statement, if they get one.
    #[tactic(auto, using(crate::proofs::ContextLemmas::without_suffix))]
    fn put_suffix(self, statement: &mut Statement)
        ensures { statement.new ≡ statement_under (rule_in self) statement.old }
    {
        if self.suffix.is_some() {
            *statement = statement.under(self.rule());
        }
    }

    /// Makes of a statement what it says here.
    fn settle_statement(self, statement: &mut Statement)
        ensures { statement.new ≡ statement_in self statement.old }
    {
        self.put_suffix(statement);
        self.settle_body(&mut statement.body);
    }

    /// Makes of a line, which says this by itself, what it says here.
    pub fn settle(self, line: &mut Line)
        ensures { line.new ≡ in_context self line.old }
    {
        if let Some(statement) = &mut line.statement {
            self.settle_statement(statement);
        }
    }

    /// What is said of the line below one with this relation.
    fn below_related(self, relation: Relation) -> Context
        ensures { result ≡ below_related self relation }
    {
        let apart = Context {
            above: None,
            ..self
        };
        match relation {
            Relation::Apart => apart,
            Relation::Repeated(operation) => Context {
                above: Some(operation),
                ..self
            },
            Relation::Repeats(_) => self,
            Relation::Control(_) | Relation::SecondControl => Context {
                is_controlled: true,
                ..apart
            },
            Relation::Suffix(suffix) => Context {
                suffix: suffix.below(self.suffix),
                ..apart
            },
        }
    }

    /// What is said of the line below this one, which stands here. It may be the line by itself, or what it says here.
    pub fn below(self, line: &Line) -> Context
        ensures { result ≡ below self line.now }
    {
        match &line.statement {
            Some(statement) => self.below_related(statement.body.relation()),
            None => self,
        }
    }
}

impl SuffixField {
    /// The suffix below SFX, if there was this one above it.
    fn below(self, above: Option<u8>) -> Option<u8>
        ensures { result ≡ suffix_by self above }
    {
        match self {
            SuffixField::Absent => None,
            SuffixField::Malformed => above,
            SuffixField::Suffix(graphic) => Some(graphic),
        }
    }
}

/// The symbol that an area literal declares, if there is one.
fn label_of(area: Option<AreaLiteral>) -> Option<Label>
    ensures { result ≡ label_of_area area }
{
    match area {
        Some(area) => Some(area.label),
        None => None,
    }
}

impl Registers {
    /// These, and the one that a label names.
    fn and_label(self, label: Label) -> Registers
        ensures { result ≡ registers_with self (Some label) }
    {
        Registers {
            one: self.one || label.names_register(1),
            two: self.two || label.names_register(2),
            three: self.three || label.names_register(3),
        }
    }

    /// These, and the one that a label names, if there is one.
    fn and_label_of(self, label: Option<Label>) -> Registers
        ensures { result ≡ registers_with self label }
    {
        match label {
            Some(label) => self.and_label(label),
            None => self,
        }
    }

    /// These, and those that area literals declare.
    fn and_areas(self, areas: DeclaredAreas) -> Registers
        ensures { result ≡ registers_with_areas self areas }
    {
        self.and_label_of(label_of(areas.0))
            .and_label_of(label_of(areas.1))
    }

    /// These, and those that a line has as its label, and declares by its area literals.
    pub fn and(self, line: &Line) -> Registers
        ensures { result ≡ registers_and self line.now }
    {
        self.and_label_of(line.label()).and_areas(line.areas())
    }

    /// What a line says, which has its suffix already, if these are labels.
    pub fn line(self, line: Line) -> Line
        ensures { result ≡ with_registers self line }
    {
        line.under(SymbolRule {
            suffix: None,
            registers: self,
        })
    }
}

impl SizeField {
    /// The size, if it is one.
    fn size(self) -> Option<u16>
        ensures { result ≡ size_of self }
    {
        match self {
            SizeField::Absent | SizeField::Malformed => None,
            SizeField::Size(size) => Some(size),
        }
    }
}

impl Relation {
    /// What CTL says of the size of core storage.
    fn control(self) -> Option<SizeField>
        ensures { result ≡ control_by self }
    {
        match self {
            Relation::Control(size) => Some(size),
            Relation::Apart
            | Relation::Repeated(_)
            | Relation::Repeats(_)
            | Relation::SecondControl
            | Relation::Suffix(_) => None,
        }
    }
}

impl Line {
    /// What CTL says of the size of core storage.
    fn control(&self) -> Option<SizeField>
        ensures { result ≡ control_in self.now.statement }
    {
        match &self.statement {
            Some(statement) => statement.body.relation().control(),
            None => None,
        }
    }
}

/// Whether the letters of CTL stand where an operation begins, small ones too.
fn may_be_control(line: &[u8]) -> bool
    ensures { result ≡ may_be_control line.now }
{
    line.len() >= 18 && line[15..18].eq_ignore_ascii_case(b"CTL")
}

/// What CTL says of the size of core storage on a line in the wider language. Of other lines three bytes alone are
/// looked at.
#[tactic(auto, using(crate::proofs::SizeLemmas::no_control))]
fn control_on(line: &[u8]) -> Option<SizeField>
    ensures { result ≡ control_in (line_in languages.Ibm line.now).statement }
{
    if may_be_control(line) {
        Line::in_language(Language::Ibm, line).control()
    } else {
        None
    }
}

/// The size that the first CTL of a source in the wider language asks for.
fn first_size(source: &[u8]) -> Option<u16>
    ensures { result ≡ first_size (map (line_in languages.Ibm) (lines_of source.now)) }
{
    let mut rest = source;
    while let Some((line, beyond)) = split_line(rest) {
        if let Some(size) = control_on(line) {
            return size.size();
        }
        rest = beyond;
    }
    None
}

/// The size of core storage that the first CTL of a source asks for, in places, whatever is wrong with the line; none
/// if it asks for none, if there is no CTL, and in the plain language.
pub fn size_asked(language: Language, source: &[u8]) -> Option<u16>
    ensures value { result ≡ size_asked language source.now }
    ensures size { IfSome result (λ size. is_control_size size ≡ true) }
{
    match language {
        Language::Plain => None,
        Language::Ibm => first_size(source),
    }
}
