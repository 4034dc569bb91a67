//! The image of a source with its listing, ready to be written, and its tables as texts.
ghost use Rattle.std.specs.Prelude.{◌≡◌, ◌<◌, ◌^◌, ◌⊎◌, length, None, Some, IfOk, IfErr, OnOk};
ghost use Rattle.autocoder_statements.specs.SourceLine.{lines_of};
ghost use Rattle.autocoder_symbols.specs.Chains.{chains_of};
ghost use Rattle.autocoder_symbols.specs.Fault.{IsMemory, Gives};
ghost use Rattle.autocoder_symbols.specs.Reading.{lines_in};
ghost use Rattle.autocoder_symbols.specs.Symbols.{sites_of};
ghost use Rattle.autocoder_symbols.specs.View.{chains_view};
ghost use Rattle.autocoder_placing.specs.Laws.{IsFirstOutside};
ghost use Rattle.autocoder_placing.specs.PlacedImage.{image_of};
ghost use Rattle.autocoder_placing.specs.Values.{first_outside};
ghost use Rattle.autocoder_listing.specs.CrossReference.{references_text};
ghost use Rattle.autocoder_listing.specs.Listing.{listing_of, listing_text, listing_with};
ghost use Rattle.autocoder_listing.specs.SymbolTable.{symbols_text};
ghost use Rattle.autocoder_listing.specs.Writing.{IsReadyFor, text_for};
ghost use Rattle.autocoder_1401.specs.Assembly.{assembly_in, with_listing};
ghost use Rattle.autocoder_1401.specs.Languages.{AgreesWithPlain};
ghost use Rattle.autocoder_1401.specs.declared.tables.AssemblyTables.{AssemblyTables as Made};

use autocoder_diagnostics::FaultlessLines;
use autocoder_image::make_image;
use autocoder_listing::{ReadyListing, Tables, make_tables, ready_listing};
use autocoder_placing::place_all;
use autocoder_statements::Language;
use autocoder_symbols::{AsmFault, Chains, Lines, SourceHashing};
use machine_image::Image;
use std::alloc::Global;

/// The image of a source, with its listing, its symbol table and its cross-reference.
#[derive(Drop)]
pub struct AssemblyTables {
    /// The core image.
    pub image: Image,
    /// The listing, ready to be written: its lines, each with its line feed.
    pub listing: ReadyListing,
    /// The symbol table: a line for each label.
    pub symbols: Vec<u8>,
    /// The cross-reference: a line for each label.
    pub references: Vec<u8>,
}

/// The image, the listing and the tables of lines without a fault, of which this is the source.
fn faultless_tables(
    alloc: Global,
    hashing: SourceHashing,
    chains: &Chains,
    source: &[u8],
    lines: &Lines<'_>,
    size: u16,
) -> Result<AssemblyTables, AsmFault>
    requires as_many { length lines.now ≡ length (lines_of source.now) }
    requires few { length lines.now < 2 ^ 32 }
    requires chains { chains_view chains.now ≡ chains_of (sites_of lines.now) lines.now }
    ensures image { IfOk result (λ made. made.image ≡ image_of size lines.now) }
    ensures listing { IfOk result (λ made. text_for source.now made.listing
        ≡ listing_text (listing_with lines.now (lines_of source.now))) }
    ensures ready { IfOk result (λ made. IsReadyFor source.now made.listing) }
    ensures symbols { IfOk result (λ made. made.symbols.items ≡ symbols_text lines.now) }
    ensures references { IfOk result (λ made. made.references.items ≡ references_text lines.now) }
    ensures inside { OnOk result (first_outside size lines.now ≡ None) }
    ensures outside { IfErr result (λ fault. IsMemory fault
        ⊎ ((first_outside size lines.now ≡ Some fault) × IsFirstOutside size lines.now fault)) }
{
    let all = place_all(alloc, hashing, chains, lines)?;
    let image = make_image(alloc, &all, lines, size)?;
    let listing = ready_listing(alloc, &all, source, lines)?;
    let Tables {
        symbols,
        references,
    } = make_tables(alloc, hashing, &all, lines)?;
    Ok(AssemblyTables {
        image,
        listing,
        symbols,
        references,
    })
}

/// The core image and the listing of a source in this language, ready to be written, with its symbol table and its
/// cross-reference. Each has a line for each label, in the order of the lines that declare them: the symbol table
/// with its address, how many places it names, and the number of its line; the cross-reference with the number of its
/// line and of each line that names it.
///
/// # Errors
///
/// `Memory` if memory is refused or the source is too long; otherwise the fault that `assemble_in` tells.
pub fn assemble_with_tables(
    alloc: Global,
    language: Language,
    source: &[u8],
    size: u16,
) -> Result<AssemblyTables, AsmFault>
    // With the listing of the source the image is what `assemble_in` makes, or the first fault, unless memory is refused.
    ensures exact { Gives (λ (made : Made). with_listing language source.now made.image) result
        (assembly_in language size source.now) }

    // What will be written is the listing of the lines.
    ensures listing { IfOk result (λ made. text_for source.now made.listing
        ≡ listing_text (listing_of language (lines_of source.now))) }
    ensures ready { IfOk result (λ made. IsReadyFor source.now made.listing) }

    // What the plain language takes means the same in each language.
    ensures plain { AgreesWithPlain language size source.now }

    // The tables of the lines.
    ensures symbols { IfOk result (λ made. made.symbols.items ≡ symbols_text (lines_in language source.now)) }
    ensures references { IfOk result (λ made. made.references.items ≡ references_text (lines_in language source.now)) }
{
    let read = FaultlessLines::read(alloc, language, source)?;
    let lines = read.lines.lend();
    faultless_tables(alloc, read.hashing, &read.chains, source, &lines, size)
}
