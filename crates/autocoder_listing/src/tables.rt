//! The symbol table and the cross-reference of a source.
ghost use Rattle.std.specs.Prelude.{◌≡◌, ◌<◌, ◌^◌, length, IfOk, IfErr};
ghost use Rattle.std.specs.List.{flat_map};
ghost use Rattle.autocoder_symbols.specs.Fault.{IsMemory};
ghost use Rattle.autocoder_placing.specs.Placement.{placed};
ghost use Rattle.autocoder_placing.specs.View.{places_of};
ghost use Rattle.autocoder_listing.specs.CrossReference.{uses_of, reference_line, references_text};
ghost use Rattle.autocoder_listing.specs.SymbolTable.{symbols_text};

use crate::cross_reference::{put_references, uses_of};
use crate::symbol_table::{Symbol, make_symbols, put_symbol_lines};
use autocoder_placing::Placing;
use autocoder_symbols::{AsmFault, Lines, SourceHashing};
use bytes_text::Text;
use std::alloc::Global;

/// The tables that a listing may end with, as texts.
#[derive(Drop)]
pub struct Tables {
    /// The symbol table: a line for each label.
    pub symbols: Vec<u8>,
    /// The cross-reference: a line for each label.
    pub references: Vec<u8>,
}

/// The cross-reference of lines with these symbols.
fn references_of(
    alloc: Global,
    hashing: SourceHashing,
    lines: &Lines<'_>,
    symbols: &[Symbol],
) -> Result<Vec<u8>, AsmFault>
    requires { length lines.now < 2 ^ 32 }
    ensures ok { IfOk result (λ text. text.items ≡ flat_map (reference_line (uses_of lines.now)) symbols.now) }
    ensures err { IfErr result IsMemory }
{
    let uses = uses_of(alloc, hashing, lines)?;
    let mut text = Text::new(alloc);
    put_references(&mut text, &uses, symbols);
    Ok(text.into_bytes()?)
}

/// The symbol table and the cross-reference of lines, once all is placed.
///
/// # Errors
///
/// `Memory` if there is no room for them.
pub fn make_tables(
    alloc: Global,
    hashing: SourceHashing,
    all: &Placing<'_>,
    lines: &Lines<'_>,
) -> Result<Tables, AsmFault>
    requires few { length lines.now < 2 ^ 32 }
    requires placed { places_of all.now ≡ placed lines.now }
    ensures symbols { IfOk result (λ made. made.symbols.items ≡ symbols_text lines.now) }
    ensures references { IfOk result (λ made. made.references.items ≡ references_text lines.now) }
    ensures err { IfErr result IsMemory }
{
    let symbols = make_symbols(alloc, all, lines)?;
    let references = references_of(alloc, hashing, lines, &symbols)?;
    let mut text = Text::new(alloc);
    put_symbol_lines(&mut text, &symbols);
    Ok(Tables {
        symbols: text.into_bytes()?,
        references,
    })
}
