//! What the lines of a source declare: those up to END, and those after it.
ghost use Rattle.std.specs.Prelude.{◌≡◌, ◌<◌, ◌^◌, length, IfOk, IfErr};
ghost use Rattle.autocoder_symbols.specs.Fault.{IsMemory};
ghost use Rattle.autocoder_symbols.specs.Known.{declared_at};
ghost use Rattle.autocoder_symbols.specs.Symbols.{sites_anywhere};
ghost use Rattle.autocoder_symbols.specs.View.{symbols_view};
ghost use Rattle.autocoder_diagnostics.specs.FirstFault.{is_undefined};
ghost use Rattle.autocoder_diagnostics.specs.Declarations.{anywhere_of};

use crate::first_fault::symbol_in;
use autocoder_statements::{Label, Language, OperandField};
use autocoder_symbols::{
    AsmFault, Declaration, Lines, Sites, SourceHashing, Symbols, declared, sites_beyond_end,
};
use std::alloc::Global;

/// What is declared.
#[derive(Drop)]
pub(crate) struct Declarations {
    /// What the lines up to END declare.
    pub symbols: Symbols,
    /// Where the lines after END declare symbols.
    pub beyond_end: Sites,
}

impl Declarations {
    /// What these lines declare.
    pub(crate) fn new(
        alloc: Global,
        hashing: SourceHashing,
        language: Language,
        lines: &Lines<'_>,
    ) -> Result<Declarations, AsmFault>
        requires { length lines.now < 2 ^ 32 }
        ensures symbols { IfOk result (λ this. symbols_view this.symbols ≡ declared_at language lines.now) }
        ensures anywhere { IfOk result (λ this. anywhere_of this ≡ sites_anywhere lines.now) }
        ensures err { IfErr result IsMemory }
    {
        let beyond_end = sites_beyond_end(alloc, hashing, lines)?;
        let symbols = declared(alloc, hashing, language, lines)?;
        Ok(Declarations {
            symbols,
            beyond_end,
        })
    }

    /// Where a symbol is declared, by the lines after END too.
    pub(crate) fn anywhere(&self, label: Label) -> Option<Declaration>
        ensures { result ≡ anywhere_of self.now label }
    {
        match self.symbols.sites.get(&label).copied() {
            Some(declaration) => Some(declaration),
            None => self.beyond_end.get(&label).copied(),
        }
    }

    /// Whether an operand's symbol is declared by no line, one after END included.
    pub(crate) fn is_undefined_anywhere(&self, field: OperandField) -> bool
        ensures { result ≡ is_undefined (anywhere_of self.now) field }
    {
        match symbol_in(field) {
            Some(label) => self.anywhere(label).is_none(),
            None => false,
        }
    }
}
