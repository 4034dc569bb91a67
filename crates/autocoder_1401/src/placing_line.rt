//! The line of a source that placed cells.
ghost use Rattle.std.specs.Prelude.{◌≡◌, ◌<◌, ◌^◌, ◌⊎◌, length, Some, IfOk, IfErr, IfSome};
ghost use Rattle.autocoder_symbols.specs.Chains.{chains_of};
ghost use Rattle.autocoder_symbols.specs.Fault.{IsMemory};
ghost use Rattle.autocoder_symbols.specs.Reading.{lines_in};
ghost use Rattle.autocoder_symbols.specs.Symbols.{sites_of};
ghost use Rattle.autocoder_symbols.specs.View.{chains_view};
ghost use Rattle.autocoder_diagnostics.specs.FirstFault.{first_fault};
ghost use Rattle.autocoder_listing.specs.Listing.{characters_text};
ghost use Rattle.autocoder_listing.specs.Rows.{line_of, rows_of, IsLastAt};

use autocoder_diagnostics::FaultlessLines;
use autocoder_listing::last_placing;
use autocoder_placing::place_all;
use autocoder_statements::Language;
use autocoder_symbols::{AsmFault, Chains, Lines, SourceHashing};
use bcd_1401::Cell;
use std::alloc::Global;

/// The number of the last of lines without a fault that placed these cells at a place, if there is one.
fn faultless_line(
    alloc: Global,
    hashing: SourceHashing,
    chains: &Chains,
    lines: &Lines<'_>,
    at: u16,
    cells: &[Cell],
) -> Result<Option<u64>, AsmFault>
    requires few { length lines.now < 2 ^ 32 }
    requires chains { chains_view chains.now ≡ chains_of (sites_of lines.now) lines.now }
    ensures ok { IfOk result (λ number. number ≡ line_of (rows_of lines.now) at cells.now) }
    ensures last { IfOk result (λ number. IfSome number (IsLastAt lines.now at (characters_text cells.now))) }
    ensures err { IfErr result IsMemory }
{
    let all = place_all(alloc, hashing, chains, lines)?;
    last_placing(alloc, &all, lines, at, cells)
}

/// The number of the last line of a source in this language that placed these cells at a place, if there is one: the
/// answer of `Rows::line_of` for the rows of `assemble_program`. No row is held, so it takes no more memory than the image.
///
/// # Errors
///
/// The first fault of the lines, if one has a fault, or `Memory`.
pub fn line_placing(
    alloc: Global,
    language: Language,
    source: &[u8],
    at: u16,
    cells: &[Cell],
) -> Result<Option<u64>, AsmFault>
    ensures ok { IfOk result (λ number. number ≡ line_of (rows_of (lines_in language source.now)) at cells.now) }

    // It is the last line that shows these characters at the place.
    ensures last { IfOk result
        (λ number. IfSome number (IsLastAt (lines_in language source.now) at (characters_text cells.now))) }
    ensures fault { IfErr result
        (λ fault. IsMemory fault ⊎ (first_fault language (lines_in language source.now) ≡ Some fault)) }
{
    let read = FaultlessLines::read(alloc, language, source)?;
    let lines = read.lines.lend();
    let number = faultless_line(alloc, read.hashing, &read.chains, &lines, at, cells)?;
    Ok(number)
}
