//! Which line declares a symbol.
ghost use Rattle.std.specs.Prelude.{◌≡◌, ◌+◌, ◌<◌, ◌^◌, ◌||◌, if◌then◌else◌, length, IfOk, IfErr, OnOk};
ghost use Rattle.std.specs.Option.{option_or};
ghost use Rattle.indexmap.specs.IndexMap.{get};
ghost use Rattle.autocoder_statements.specs.Statement.{is_end};
ghost use Rattle.autocoder_statements.specs.declared.label.Label.{Label as ALabel};
ghost use Rattle.autocoder_symbols.specs.Fault.{IsMemory};
ghost use Rattle.autocoder_symbols.specs.Symbols.{same_label, has_label, as_label, declared_if, declared_as_area};
ghost use Rattle.autocoder_symbols.specs.Symbols.{declared_by_areas, declared_by, sites_of, sites_beyond_end};
ghost use Rattle.autocoder_symbols.specs.Symbols.{is_before};
ghost use Rattle.autocoder_symbols.specs.Symbols.{is_label_before};

use crate::fault::AsmFault;
use crate::hashing::SourceHashing;
use crate::kept_lines::Lines;
use autocoder_statements::{AreaLiteral, DeclaredAreas, Label, Line};
use indexmap::IndexMap;
use std::alloc::Global;

/// Where a symbol is declared.
#[derive(Clone, Copy)]
pub struct Declaration {
    /// The line's number.
    pub line: u32,
    /// How many places the area literal has that declares it there; nothing if it is the line's label.
    pub area: Option<u8>,
}

/// For each symbol where it is declared.
pub type Sites = IndexMap<Label, Declaration, SourceHashing>;

/// Whether an earlier line declares a symbol.
pub fn is_before(number: u64, declared: Option<Declaration>) -> bool
    ensures { result ≡ is_before number declared }
{
    match declared {
        Some(declaration) => u64::from(declaration.line) < number,
        None => false,
    }
}

/// Whether an earlier line has a symbol as its label.
pub fn is_label_before(number: u64, declared: Option<Declaration>) -> bool
    ensures { result ≡ is_label_before number declared }
{
    match declared {
        Some(declaration) => u64::from(declaration.line) < number && declaration.area.is_none(),
        None => false,
    }
}

/// Notes where a symbol is declared, unless it is declared before.
fn note(sites: &mut Sites, symbol: Label, declaration: Declaration) -> Result<(), AsmFault>
    ensures noted { OnOk result ((label : ALabel) → get same_label sites.new label
        ≡ option_or (get same_label sites.old label) (declared_if (same_label label symbol) declaration)) }
    ensures err { IfErr result IsMemory }
{
    if !sites.contains_key(&symbol) {
        sites.insert(symbol, declaration)?;
    }
    Ok(())
}

/// Notes the label of a line with this number, if it has one.
fn note_label(sites: &mut Sites, label: Option<Label>, number: u32) -> Result<(), AsmFault>
    ensures noted { OnOk result ((other : ALabel) → get same_label sites.new other
        ≡ option_or (get same_label sites.old other) (declared_if (has_label other label) (as_label number))) }
    ensures err { IfErr result IsMemory }
{
    if let Some(symbol) = label {
        let declaration = Declaration {
            line: number,
            area: None,
        };
        note(sites, symbol, declaration)?;
    }
    Ok(())
}

/// Notes the symbol of an area literal on a line with this number, if it is one.
fn note_area(sites: &mut Sites, area: Option<AreaLiteral>, number: u32) -> Result<(), AsmFault>
    ensures noted { OnOk result ((label : ALabel) → get same_label sites.new label
        ≡ option_or (get same_label sites.old label) (declared_as_area number area label)) }
    ensures err { IfErr result IsMemory }
{
    if let Some(area) = area {
        let declaration = Declaration {
            line: number,
            area: Some(area.places),
        };
        note(sites, area.label, declaration)?;
    }
    Ok(())
}

/// Notes the symbols of the area literals of a line with this number.
fn note_areas(sites: &mut Sites, areas: DeclaredAreas, number: u32) -> Result<(), AsmFault>
    ensures noted { OnOk result ((label : ALabel) → get same_label sites.new label
        ≡ option_or (get same_label sites.old label) (declared_by_areas number areas label)) }
    ensures err { IfErr result IsMemory }
{
    note_area(sites, areas.0, number)?;
    note_area(sites, areas.1, number)?;
    Ok(())
}

/// Notes the symbols that a line with this number declares.
fn note_line(sites: &mut Sites, line: &Line, number: u32) -> Result<(), AsmFault>
    ensures noted { OnOk result ((label : ALabel) → get same_label sites.new label
        ≡ option_or (get same_label sites.old label) (declared_by number line.now label)) }
    ensures err { IfErr result IsMemory }
{
    note_label(sites, line.label(), number)?;
    note_areas(sites, line.areas(), number)?;
    Ok(())
}

/// Notes the symbols that a line with this number declares, if it is after END.
fn note_beyond(sites: &mut Sites, is_ended: bool, line: &Line, number: u32) -> Result<(), AsmFault>
    ensures noted { OnOk result ((label : ALabel) → get same_label sites.new label
        ≡ (if is_ended then option_or (get same_label sites.old label) (declared_by number line.now label)
        else get same_label sites.old label)) }
    ensures err { IfErr result IsMemory }
{
    if is_ended {
        note_line(sites, line, number)
    } else {
        Ok(())
    }
}

/// Whether the lines below a line are after END.
fn is_ended_by(is_ended: bool, line: &Line) -> bool
    ensures { result ≡ (is_ended || is_end line.now) }
{
    is_ended || line.is_end()
}

/// For each symbol where the lines after END first declare it.
///
/// # Errors
///
/// `Memory` if there is no room for them.
pub fn sites_beyond_end(
    alloc: Global,
    hashing: SourceHashing,
    lines: &Lines<'_>,
) -> Result<Sites, AsmFault>
    requires { length lines.now < 2 ^ 32 }
    ensures lines { IfOk result
        (λ sites. (label : ALabel) → get same_label sites label ≡ sites_beyond_end lines.now label) }
    ensures err { IfErr result IsMemory }
{
    let mut sites = IndexMap::with_hasher(alloc, hashing);
    let mut is_ended = false;
    for i in 0..lines.len() {
        let line = lines.line(i);
        note_beyond(&mut sites, is_ended, &line, i as u32 + 1)?;
        is_ended = is_ended_by(is_ended, &line);
    }
    Ok(sites)
}

/// For each symbol where lines first declare it, up to END.
///
/// # Errors
///
/// `Memory` if there is no room for them.
pub(crate) fn sites_of(
    alloc: Global,
    hashing: SourceHashing,
    lines: &Lines<'_>,
) -> Result<Sites, AsmFault>
    requires { length lines.now < 2 ^ 32 }
    ensures lines { IfOk result
        (λ sites. (label : ALabel) → get same_label sites label ≡ sites_of lines.now label) }
    ensures err { IfErr result IsMemory }
{
    let mut sites = IndexMap::with_capacity_and_hasher(alloc, lines.labelled(), hashing)?;
    for i in 0..lines.len() {
        let line = lines.line(i);
        note_line(&mut sites, &line, i as u32 + 1)?;
        if line.is_end() {
            return Ok(sites);
        }
    }
    Ok(sites)
}
