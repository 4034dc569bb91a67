//! A source's listing, ready to be written.
ghost use Rattle.std.specs.Prelude.{◌≡◌, ◌<◌, ◌^◌, ◌⊎◌, length, None, Some, Ok, Err, IfOk, IfErr, OnOk};
ghost use Rattle.autocoder_statements.specs.SourceLine.{lines_of};
ghost use Rattle.autocoder_symbols.specs.Chains.{chains_of};
ghost use Rattle.autocoder_symbols.specs.Fault.{IsMemory};
ghost use Rattle.autocoder_symbols.specs.Symbols.{sites_of};
ghost use Rattle.autocoder_symbols.specs.View.{chains_view};
ghost use Rattle.autocoder_placing.specs.Laws.{IsFirstOutside};
ghost use Rattle.autocoder_placing.specs.Values.{first_outside};
ghost use Rattle.autocoder_listing.specs.Listing.{listing_of, listing_text, listing_with};
ghost use Rattle.autocoder_listing.specs.Writing.{IsReadyFor, text_for};
ghost use Rattle.autocoder_1401.specs.Assembly.{assembly_in, assembly_of};
ghost use Rattle.autocoder_1401.specs.Languages.{AgreesWithPlain};

use autocoder_diagnostics::FaultlessLines;
use autocoder_image::check_places;
use autocoder_listing::{ReadyListing, ready_listing};
use autocoder_placing::place_all;
use autocoder_statements::Language;
use autocoder_symbols::{AsmFault, Chains, Lines, SourceHashing};
use std::alloc::Global;

/// The listing of the lines of this source, which have no fault.
fn faultless_listing(
    alloc: Global,
    hashing: SourceHashing,
    chains: &Chains,
    source: &[u8],
    lines: &Lines<'_>,
    size: u16,
) -> Result<ReadyListing, AsmFault>
    requires as_many { length lines.now ≡ length (lines_of source.now) }
    requires few { length lines.now < 2 ^ 32 }
    requires chains { chains_view chains.now ≡ chains_of (sites_of lines.now) lines.now }
    ensures text { IfOk result (λ ready. text_for source.now ready
        ≡ listing_text (listing_with lines.now (lines_of source.now))) }
    ensures ready { IfOk result (IsReadyFor source.now) }
    ensures inside { OnOk result (first_outside size lines.now ≡ None) }
    ensures outside { IfErr result (λ fault. IsMemory fault
        ⊎ ((first_outside size lines.now ≡ Some fault) × IsFirstOutside size lines.now fault)) }
{
    let all = place_all(alloc, hashing, chains, lines)?;
    check_places(alloc, &all, lines, size)?;
    let ready = ready_listing(alloc, &all, source, lines)?;
    Ok(ready)
}

/// The listing of a source in this language, ready to be written: the lines of that of `assemble_in`, each with its line
/// feed. Of its text one page is held, however long it is.
///
/// # Errors
///
/// As `assemble_in`.
pub fn assemble_listing(
    alloc: Global,
    language: Language,
    source: &[u8],
    size: u16,
) -> Result<ReadyListing, AsmFault>
    // What will be written is the listing of a source that assembles.
    ensures text { IfOk result (λ ready. text_for source.now ready
        ≡ listing_text (listing_of language (lines_of source.now))) }
    ensures ready { IfOk result (IsReadyFor source.now) }
    ensures assembled { OnOk result (assembly_in language size source.now ≡ Ok (assembly_of language size source.now)) }

    // What the plain language takes means the same in each language.
    ensures plain { AgreesWithPlain language size source.now }

    // Or its first fault, unless memory is refused.
    ensures fault { IfErr result (λ fault. IsMemory fault ⊎ (assembly_in language size source.now ≡ Err fault)) }
{
    let read = FaultlessLines::read(alloc, language, source)?;
    let lines = read.lines.lend();
    faultless_listing(alloc, read.hashing, &read.chains, source, &lines, size)
}
