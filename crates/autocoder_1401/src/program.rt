//! The image of a source with the rows of its listing and its symbols.
ghost use Rattle.std.specs.Prelude.{◌≡◌, ◌<◌, ◌^◌, ◌⊎◌, length, None, Some, true, IfOk, IfErr, OnOk};
ghost use Rattle.core_1401.specs.Storage.{is_core_size};
ghost use Rattle.machine_image.specs.Image.{IsInCore};
ghost use Rattle.autocoder_symbols.specs.Chains.{chains_of};
ghost use Rattle.autocoder_symbols.specs.Fault.{IsMemory, Gives};
ghost use Rattle.autocoder_symbols.specs.Reading.{lines_in};
ghost use Rattle.autocoder_symbols.specs.Symbols.{sites_of};
ghost use Rattle.autocoder_symbols.specs.View.{chains_view};
ghost use Rattle.autocoder_placing.specs.Laws.{IsFirstOutside};
ghost use Rattle.autocoder_placing.specs.PlacedImage.{image_of};
ghost use Rattle.autocoder_placing.specs.Values.{first_outside};
ghost use Rattle.autocoder_listing.specs.Rows.{rows_of};
ghost use Rattle.autocoder_listing.specs.SymbolTable.{symbols_in};
ghost use Rattle.autocoder_1401.specs.Assembly.{assembly_in, with_listing};
ghost use Rattle.autocoder_1401.specs.Languages.{AgreesWithPlain};
ghost use Rattle.autocoder_1401.specs.declared.program.AssemblyProgram.{AssemblyProgram as Made};

use autocoder_diagnostics::FaultlessLines;
use autocoder_image::{PackedImage, pack_image};
use autocoder_listing::{Rows, Symbol, make_rows, make_symbols};
use autocoder_placing::place_all;
use autocoder_statements::Language;
use autocoder_symbols::{AsmFault, Chains, Lines, SourceHashing};
use std::alloc::Global;

/// The image of a source, the rows of its listing that have an address, and its symbols.
#[derive(Drop)]
pub struct AssemblyProgram {
    /// The core image, in few bytes for each of the source's, however many cells its lines place.
    pub image: PackedImage,
    /// The rows.
    pub rows: Rows,
    /// The labels, each with its address, in the order of the lines that declare them.
    pub symbols: Vec<Symbol>,
}

/// The image, the rows and the symbols of lines without a fault.
fn faultless_program(
    alloc: Global,
    hashing: SourceHashing,
    chains: &Chains,
    lines: &Lines<'_>,
    size: u16,
) -> Result<AssemblyProgram, AsmFault>
    requires few { length lines.now < 2 ^ 32 }
    requires chains { chains_view chains.now ≡ chains_of (sites_of lines.now) lines.now }
    ensures image { IfOk result (λ made. made.image ≡ image_of size lines.now) }
    ensures rows { IfOk result (λ made. made.rows ≡ rows_of lines.now) }
    ensures symbols { IfOk result (λ made. made.symbols.items ≡ symbols_in lines.now) }
    ensures inside { OnOk result (first_outside size lines.now ≡ None) }
    ensures outside { IfErr result (λ fault. IsMemory fault
        ⊎ ((first_outside size lines.now ≡ Some fault) × IsFirstOutside size lines.now fault)) }
{
    let all = place_all(alloc, hashing, chains, lines)?;
    let image = pack_image(alloc, &all, lines, size)?;
    let rows = make_rows(alloc, &all, lines)?;
    let symbols = make_symbols(alloc, &all, lines)?;
    Ok(AssemblyProgram {
        image,
        rows,
        symbols,
    })
}

/// The core image of a source in this language, as `assemble_image` answers it, with the rows of its listing that have
/// an address and with its symbols: what a person names places of the program by.
///
/// # Errors
///
/// As `assemble_in`.
pub fn assemble_program(
    alloc: Global,
    language: Language,
    source: &[u8],
    size: u16,
) -> Result<AssemblyProgram, AsmFault>
    // With the listing of the source it is what `assemble_in` makes, or the first fault, unless memory is refused.
    ensures exact { Gives (λ (made : Made). with_listing language source.now made.image) result
        (assembly_in language size source.now) }

    // What the plain language takes means the same in each language.
    ensures plain { AgreesWithPlain language size source.now }

    // The rows of the lines.
    ensures rows { IfOk result (λ made. made.rows ≡ rows_of (lines_in language source.now)) }

    // The symbols of the lines.
    ensures symbols { IfOk result (λ made. made.symbols.items ≡ symbols_in (lines_in language source.now)) }

    // All of the image is in core.
    ensures in_core { is_core_size size ≡ true → IfOk result (λ made. IsInCore made.image) }
{
    let read = FaultlessLines::read(alloc, language, source)?;
    let lines = read.lines.lend();
    faultless_program(alloc, read.hashing, &read.chains, &lines, size)
}
