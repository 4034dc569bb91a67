//! The symbol table of a source: each label with its address, the length of what it names, and its line.
ghost use Rattle.std.specs.Prelude.{◌≡◌, ◌<◌, ◌^◌, ◌++◌, length, IfOk, IfErr, OnOk};
ghost use Rattle.std.specs.List.{flat_map};
ghost use Rattle.bytes_text.specs.Written.{Adds};
ghost use Rattle.autocoder_symbols.specs.Fault.{IsMemory};
ghost use Rattle.autocoder_placing.specs.Placement.{placed};
ghost use Rattle.autocoder_placing.specs.View.{places_of};
ghost use Rattle.autocoder_listing.specs.SymbolTable.{span_length, length_named, symbol_at, listed};
ghost use Rattle.autocoder_listing.specs.SymbolTable.{second_area, area_symbols, symbols_at, symbols_from, symbols_in};
ghost use Rattle.autocoder_listing.specs.SymbolTable.{length_text};
ghost use Rattle.autocoder_listing.specs.SymbolTable.{shown_value, symbol_line};

use crate::printing::put_address;
use autocoder_placing::{LiteralKey, Placing, contents_length};
use autocoder_statements::{
    AreaLiteral, AreaRole, Description, Label, LabelField, Line, Literal, Point, Span,
};
use autocoder_symbols::{AsmFault, Lines};
use bytes_text::Text;
use std::alloc::Global;

/// How many digits a length has.
const LENGTH_DIGITS: u8 = 5;

/// How many digits the number of a line has at least.
pub(crate) const LINE_DIGITS: u8 = 4;

/// A label that a line declares.
#[derive(Clone, Copy)]
pub struct Symbol {
    /// The label.
    pub label: Label,
    /// The value that operands take for it.
    pub value: i64,
    /// How many places it names; none for EQU, which names a value.
    pub length: Option<u32>,
    /// The number of the line that declares it.
    pub line: u64,
}

/// How many places a field of an area has.
fn span_length(span: Span) -> u32
    ensures { result ≡ span_length span }
{
    (u32::from(span.last) + 1).saturating_sub(u32::from(span.first))
}

/// How many places the label of a statement names.
fn length_named(row: &Description) -> Option<u32>
    ensures { result ≡ length_named row.now }
{
    match row.names {
        Point::First | Point::Last => Some(contents_length(&row.contents)),
        Point::InArea(_) | Point::Counted(_) => match row.areas {
            AreaRole::Divides(Some(span)) => Some(span_length(span)),
            AreaRole::Divides(None) | AreaRole::Ends | AreaRole::Keeps | AreaRole::Makes(_) => None,
        },
        Point::Value => None,
    }
}

/// Adds the symbol that the line of this number declares, if it declares one, once all is placed.
fn put_symbol(
    all: &Placing<'_>,
    number: u64,
    line: &Line,
    symbols: &mut Vec<Symbol>,
) -> Result<(), AsmFault>
    ensures ok { OnOk result (symbols.new.items
        ≡ symbols.old.items ++ listed (symbol_at (places_of all.now) number line.now.statement)) }
    ensures err { IfErr result IsMemory }
{
    let Some(statement) = &line.statement else {
        return Ok(());
    };
    match statement.label {
        LabelField::Label(label) => {
            let value = all.symbol(label)?.value;
            symbols.push(Symbol {
                label,
                value,
                length: length_named(&statement.body.describe()),
                line: number,
            })?;
            Ok(())
        }
        LabelField::Absent | LabelField::Malformed => Ok(()),
    }
}

/// The area literal that the second of two operands is, unless the first is the same.
fn second_area(first: Option<AreaLiteral>, second: Option<AreaLiteral>) -> Option<AreaLiteral>
    ensures { result ≡ second_area first second }
{
    match (first, second) {
        (Some(first), Some(second)) => {
            if LiteralKey::Area(first) == LiteralKey::Area(second) {
                None
            } else {
                Some(second)
            }
        },
        (None, _) => second,
        (Some(_), None) => None,
    }
}

/// Adds the symbol of an area literal on the line of this number, if there is one and it isn't used before.
fn put_area(
    all: &Placing<'_>,
    so_far: &Placing<'_>,
    number: u64,
    literal: Option<AreaLiteral>,
    symbols: &mut Vec<Symbol>,
) -> Result<(), AsmFault>
    ensures ok { OnOk result (symbols.new.items ≡ symbols.old.items
        ++ area_symbols (places_of all.now) (places_of so_far.now) number literal) }
    ensures err { IfErr result IsMemory }
{
    let Some(literal) = literal else {
        return Ok(());
    };
    let is_used = so_far.is_used(Literal::Area(literal))?;
    if !is_used {
        let value = all.symbol(literal.label)?.value;
        symbols.push(Symbol {
            label: literal.label,
            value,
            length: Some(u32::from(literal.places)),
            line: number,
        })?;
    }
    Ok(())
}

/// Adds the symbols that the line of this number declares: its label, and those of the area literals that it uses
/// first.
fn put_symbols(
    all: &Placing<'_>,
    so_far: &Placing<'_>,
    number: u64,
    line: &Line,
    symbols: &mut Vec<Symbol>,
) -> Result<(), AsmFault>
    ensures ok { OnOk result (symbols.new.items ≡ symbols.old.items
        ++ symbols_at (places_of all.now) (places_of so_far.now) number line.now) }
    ensures err { IfErr result IsMemory }
{
    let (first, second) = line.areas();
    put_symbol(all, number, line, symbols)?;
    put_area(all, so_far, number, first, symbols)?;
    put_area(all, so_far, number, second_area(first, second), symbols)
}

/// Adds the symbols that lines here declare, in their order, and places them.
fn put_all_symbols<'a>(
    all: &Placing<'a>,
    so_far: &mut Placing<'a>,
    lines: &Lines<'_>,
    symbols: &mut Vec<Symbol>,
) -> Result<(), AsmFault>
    requires { length lines.now < 2 ^ 32 }
    ensures ok { OnOk result (symbols.new.items
        ≡ symbols.old.items ++ symbols_from (places_of all.now) (places_of so_far.old) 1 lines.now) }
    ensures err { IfErr result IsMemory }
{
    for i in 0..lines.len() {
        let line = &lines.line(i);
        put_symbols(all, so_far, i as u64 + 1, line, symbols)?;
        so_far.place(line)?;
    }
    Ok(())
}

/// The symbols of lines, in the order of the lines that declare them, once all is placed.
///
/// # Errors
///
/// `Memory` if there is no room for them.
pub fn make_symbols(
    alloc: Global,
    all: &Placing<'_>,
    lines: &Lines<'_>,
) -> Result<Vec<Symbol>, AsmFault>
    requires few { length lines.now < 2 ^ 32 }
    requires placed { places_of all.now ≡ placed lines.now }
    ensures symbols { IfOk result (λ symbols. symbols.items ≡ symbols_in lines.now) }
    ensures err { IfErr result IsMemory }
{
    let mut symbols = Vec::new(alloc);
    let mut so_far = all.again(alloc);
    put_all_symbols(all, &mut so_far, lines, &mut symbols)?;
    Ok(symbols)
}

/// Adds a length, or blanks if there is none.
#[tactic(auto, unfolding(crate::specs::SymbolTable::length_text))]
fn put_length(text: &mut Text, length: Option<u32>)
    ensures { Adds text.old text.new (length_text length) }
{
    match length {
        Some(length) => text.put_number(LENGTH_DIGITS, u64::from(length)),
        None => text.put(b"     "),
    }
}

/// The address that a symbol's line shows, if its value is a place; that of a unit's name isn't.
fn shown_value(symbol: &Symbol) -> Option<i64>
    ensures { result ≡ shown_value symbol.now.value }
{
    if symbol.value < 0 {
        None
    } else {
        Some(symbol.value)
    }
}

/// Adds the line of a symbol.
#[tactic(auto, unfolding(crate::specs::SymbolTable::symbol_line))]
fn put_symbol_line(text: &mut Text, symbol: &Symbol)
    ensures { Adds text.old text.new (symbol_line symbol.now) }
{
    text.put(&symbol.label.text);
    text.put(b" ");
    put_address(text, shown_value(symbol));
    text.put(b" ");
    put_length(text, symbol.length);
    text.put(b" ");
    text.put_number(LINE_DIGITS, symbol.line);
    text.put(b"\n");
}

/// Adds the symbol table: the lines of these symbols.
pub(crate) fn put_symbol_lines(text: &mut Text, symbols: &[Symbol])
    ensures { Adds text.old text.new (flat_map symbol_line symbols.now) }
{
    for symbol in symbols {
        put_symbol_line(text, symbol);
    }
}
