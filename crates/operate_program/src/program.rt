//! A source with its labels and the rows of its listing.
ghost use Rattle.std.specs.Prelude.{◌≡◌, [], ◌==◌, ◌&&◌};
ghost use Rattle.autocoder_listing.specs.Rows.{rows_of};
ghost use Rattle.autocoder_listing.specs.SymbolTable.{symbols_in};
ghost use Rattle.autocoder_symbols.specs.Reading.{lines_in};
ghost use Rattle.operate_program.specs.Known.{Known, is_named, names_place, symbol_at, symbol_named};

use autocoder_listing::{Rows, Symbol};
use autocoder_statements::{Language, word_in};
use std::alloc::Global;
use std::marker::Model;

/// A source, the rows of its listing and its symbols; or none of them. Contracts see them.
#[derive(Drop)]
pub struct Program {
    pub(crate) language: Language,
    pub(crate) text: Vec<u8>,
    pub(crate) rows: Rows,
    pub(crate) symbols: Vec<Symbol>,
}

impl Model for Program {
    ghost use Rattle.operate_program.specs.Known.{IsOfSource, Known};

    ghost Value = { Known };

    ghost view = { λ it. record {
      language = it.language;
      text = it.text.items;
      rows = it.rows;
      symbols = it.symbols.items;
    } };

    ghost invariant = { λ it. IsOfSource it.language it.text.items it.rows it.symbols.items };
}

/// Whether a symbol has this label.
fn is_named(symbol: &Symbol, label: &[u8]) -> bool
    ensures { result ≡ is_named label.now symbol.now }
{
    word_in(symbol.label.text.as_slice()) == label
}

/// Whether a symbol has this address as its value.
fn names_place(symbol: &Symbol, at: u16) -> bool
    ensures { result ≡ names_place at symbol.now }
{
    symbol.value == i64::from(at)
}

impl Program {
    /// No source: there are no labels, and no line made any cells. A statement is read in this language.
    pub fn without_source(alloc: Global, language: Language) -> Program
        ensures { result ≡ record { language = language; text = []; rows = []; symbols = [] } }
    {
        Program {
            language,
            text: Vec::new(alloc),
            rows: Rows::from_vec(Vec::new(alloc)),
            symbols: Vec::new(alloc),
        }
    }

    /// A source in a language, with the rows and the symbols that `assemble_program` makes of it.
    pub fn of_source(language: Language, text: Vec<u8>, rows: Rows, symbols: Vec<Symbol>) -> Program
        requires rows { rows ≡ rows_of (lines_in language text.items) }
        requires symbols { symbols.items ≡ symbols_in (lines_in language text.items) }
        ensures { result ≡ record { language = language; text = text.items; rows = rows; symbols = symbols.items } }
    {
        Program {
            language,
            text,
            rows,
            symbols,
        }
    }

    /// The language of the source, and of statements.
    pub fn language(&self) -> Language
        ensures { result ≡ self.now.language }
    {
        self.language
    }

    /// The text of the source.
    pub fn text(&self) -> &[u8]
        ensures { result.now ≡ self.now.text }
    {
        self.text.as_slice()
    }

    /// The symbols, in the order of the lines that declare them.
    pub fn symbols(&self) -> &[Symbol]
        ensures { result.now ≡ self.now.symbols }
    {
        self.symbols.as_slice()
    }

    /// The first symbol with this label.
    pub fn symbol(&self, label: &[u8]) -> Option<Symbol>
        ensures { result ≡ symbol_named self.now.symbols label.now }
    {
        self.symbols
            .iter()
            .copied()
            .find(|symbol| is_named(symbol, label))
    }

    /// The first symbol whose value is this address.
    pub fn symbol_at(&self, at: u16) -> Option<Symbol>
        ensures { result ≡ symbol_at self.now.symbols at }
    {
        self.symbols
            .iter()
            .copied()
            .find(|symbol| names_place(symbol, at))
    }
}
