//! The passes of the assembler, in their order.
ghost use Rattle.std.specs.Prelude.{◌≡◌, ◌<◌, ◌^◌, ◌⊎◌, length, None, Some, true, IfOk, IfErr, OnOk};
ghost use Rattle.core_1401.specs.Storage.{is_core_size};
ghost use Rattle.machine_image.specs.Image.{IsInCore};
ghost use Rattle.autocoder_statements.specs.SourceLine.{lines_of};
ghost use Rattle.autocoder_symbols.specs.Chains.{chains_of};
ghost use Rattle.autocoder_symbols.specs.Fault.{IsMemory, Gives};
ghost use Rattle.autocoder_symbols.specs.Known.{declared_at};
ghost use Rattle.autocoder_symbols.specs.Reading.{lines_in};
ghost use Rattle.autocoder_symbols.specs.Symbols.{sites_of};
ghost use Rattle.autocoder_symbols.specs.View.{chains_view};
ghost use Rattle.autocoder_diagnostics.specs.FirstFault.{IsFaultless};
ghost use Rattle.autocoder_placing.specs.Values.{first_outside};
ghost use Rattle.autocoder_placing.specs.PlacedImage.{image_of, placed_cells};
ghost use Rattle.autocoder_placing.specs.Laws.{IsFirstOutside, IsCutOf};
ghost use Rattle.autocoder_placing.specs.PlacementLaws.{IsPlacedInTurn};
ghost use Rattle.autocoder_1401.specs.Assembly.{assembly_with, assembly_in, with_listing, IsFaultOf};
ghost use Rattle.autocoder_1401.specs.Languages.{AgreesWithPlain};

use autocoder_diagnostics::FaultlessLines;
use autocoder_image::make_image;
use autocoder_listing::{Listing, make_listing};
use autocoder_placing::place_all;
use autocoder_statements::Language;
use autocoder_symbols::{AsmFault, Chains, Lines, SourceHashing};
use machine_image::Image;
use std::alloc::Global;

/// The image and the listing of a source.
#[derive(Drop)]
pub struct Assembly {
    /// The core image.
    pub image: Image,
    /// The source with the addresses and the cells that its lines stand for.
    pub listing: Listing,
}

/// The image and the listing of lines without a fault, of which this is the source.
fn faultless_assembly(
    alloc: Global,
    hashing: SourceHashing,
    chains: &Chains,
    source: &[u8],
    lines: &Lines<'_>,
    size: u16,
) -> Result<Assembly, AsmFault>
    requires as_many { length lines.now ≡ length (lines_of source.now) }
    requires few { length lines.now < 2 ^ 32 }
    requires chains { chains_view chains.now ≡ chains_of (sites_of lines.now) lines.now }
    ensures ok { IfOk result (λ assembly. assembly ≡ assembly_with size lines.now source.now) }
    ensures inside { OnOk result (first_outside size lines.now ≡ None) }
    ensures outside { IfErr result (λ fault. IsMemory fault
        ⊎ ((first_outside size lines.now ≡ Some fault) × IsFirstOutside size lines.now fault)) }
{
    let all = place_all(alloc, hashing, chains, lines)?;
    let image = make_image(alloc, &all, lines, size)?;
    let listing = make_listing(alloc, &all, source, lines)?;
    Ok(Assembly { image, listing })
}

/// The core image and the listing of a source in the plain language, in core storage of this size.
///
/// # Errors
///
/// As `assemble_in`.
pub fn assemble(alloc: Global, source: &[u8], size: u16) -> Result<Assembly, AsmFault>
    // The image and the listing of the lines, or their first fault, unless memory is refused.
    ensures exact { Gives (λ assembly. assembly) result (assembly_in Language.Plain size source.now) }

    // Only a source without a fault has them.
    ensures faultless { let lines = lines_in Language.Plain source.now in
        OnOk result (IsFaultless (declared_at Language.Plain lines) lines) }

    // All of the image is in core.
    ensures in_core { is_core_size size ≡ true → IfOk result (λ assembly. IsInCore assembly.image) }

    // The segments have the cells that the lines place, in their order: 1 to 40 each, and fewer than fit only before a
    // gap.
    ensures segments { is_core_size size ≡ true → IfOk result (λ assembly.
        IsCutOf (placed_cells (lines_in Language.Plain source.now)) assembly.image.segments) }

    // All is placed in turn.
    ensures placement { OnOk result (IsPlacedInTurn (lines_in Language.Plain source.now)) }

    // A fault is the lowest of the first line that has one, or that something of a faultless source isn't in core.
    ensures first { IfErr result
        (λ fault. IsMemory fault ⊎ IsFaultOf Language.Plain size (lines_in Language.Plain source.now) fault) }
{
    assemble_in(alloc, Language::Plain, source, size)
}

/// The same of a source in this language: the plain one, or the wider Autocoder, in which a source that the plain one
/// takes means the same.
///
/// # Errors
///
/// `Memory` if memory is refused or the source is too long. Otherwise the lowest fault of the first line that
/// has one of kinds 2 to 8, 10 and 11; if no line has one, `OutOfCore` for the first line of which something isn't in
/// core.
pub fn assemble_in(
    alloc: Global,
    language: Language,
    source: &[u8],
    size: u16,
) -> Result<Assembly, AsmFault>
    // The image and the listing of the lines, or their first fault, unless memory is refused.
    ensures exact { Gives (λ assembly. assembly) result (assembly_in language size source.now) }

    // What the plain language takes means the same in each language.
    ensures plain { AgreesWithPlain language size source.now }

    // Only a source without a fault has them.
    ensures faultless { OnOk result
        (IsFaultless (declared_at language (lines_in language source.now)) (lines_in language source.now)) }

    // All of the image is in core.
    ensures in_core { is_core_size size ≡ true → IfOk result (λ assembly. IsInCore assembly.image) }

    // The segments have the cells that the lines place, in their order: 1 to 40 each, and fewer than fit only before a
    // gap.
    ensures segments { is_core_size size ≡ true → IfOk result (λ assembly.
        IsCutOf (placed_cells (lines_in language source.now)) assembly.image.segments) }

    // Places advance by the lengths of the lines, and from the value of an origin after one; literals are kept once
    // each in the order of their first use, and EX, END and LTORG place them one after the other.
    ensures placement { OnOk result (IsPlacedInTurn (lines_in language source.now)) }

    // A fault is the lowest of the first line that has one, or that something of a faultless source isn't in core.
    ensures first { IfErr result
        (λ fault. IsMemory fault ⊎ IsFaultOf language size (lines_in language source.now) fault) }
{
    let read = FaultlessLines::read(alloc, language, source)?;
    let lines = read.lines.lend();
    faultless_assembly(alloc, read.hashing, &read.chains, source, &lines, size)
}

/// The image of lines without a fault.
fn faultless_image(
    alloc: Global,
    hashing: SourceHashing,
    chains: &Chains,
    lines: &Lines<'_>,
    size: u16,
) -> Result<Image, AsmFault>
    requires few { length lines.now < 2 ^ 32 }
    requires chains { chains_view chains.now ≡ chains_of (sites_of lines.now) lines.now }
    ensures ok { IfOk result (λ image. image ≡ image_of size lines.now) }
    ensures inside { OnOk result (first_outside size lines.now ≡ None) }
    ensures outside { IfErr result (λ fault. IsMemory fault
        ⊎ ((first_outside size lines.now ≡ Some fault) × IsFirstOutside size lines.now fault)) }
{
    let all = place_all(alloc, hashing, chains, lines)?;
    make_image(alloc, &all, lines, size)
}

/// The core image of a source in this language, in core storage of this size: that of `assemble_in`, in less time and
/// memory, since no listing is made.
///
/// # Errors
///
/// As `assemble_in`.
pub fn assemble_image(
    alloc: Global,
    language: Language,
    source: &[u8],
    size: u16,
) -> Result<Image, AsmFault>
    // With the listing of the source it is what `assemble_in` makes, or the first fault, unless memory is refused.
    ensures exact { Gives (with_listing language source.now) result (assembly_in language size source.now) }

    // What the plain language takes means the same in each language.
    ensures plain { AgreesWithPlain language size source.now }

    // Only a source without a fault has one.
    ensures faultless { OnOk result
        (IsFaultless (declared_at language (lines_in language source.now)) (lines_in language source.now)) }

    // All of it is in core.
    ensures in_core { is_core_size size ≡ true → IfOk result IsInCore }

    // The segments are cut as those of `assemble_in`.
    ensures segments { is_core_size size ≡ true → IfOk result (λ image.
        IsCutOf (placed_cells (lines_in language source.now)) image.segments) }

    // All is placed as by `assemble_in`.
    ensures placement { OnOk result (IsPlacedInTurn (lines_in language source.now)) }

    // A fault is the lowest of the first line that has one, or that something of a faultless source isn't in core.
    ensures first { IfErr result
        (λ fault. IsMemory fault ⊎ IsFaultOf language size (lines_in language source.now) fault) }
{
    let read = FaultlessLines::read(alloc, language, source)?;
    let lines = read.lines.lend();
    faultless_image(alloc, read.hashing, &read.chains, &lines, size)
}
