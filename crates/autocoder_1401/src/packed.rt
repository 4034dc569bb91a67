//! The image of a source in few bytes.
ghost use Rattle.std.specs.Prelude.{◌≡◌, ◌<◌, ◌^◌, ◌⊎◌, length, None, Some, true, IfOk, IfErr, OnOk};
ghost use Rattle.std.specs.List.{list_all};
ghost use Rattle.core_1401.specs.Storage.{is_core_size};
ghost use Rattle.machine_image.specs.Image.{IsInCore};
ghost use Rattle.machine_image.specs.ImageText.{written_text, is_segment, IsTextOf};
ghost use Rattle.autocoder_symbols.specs.Chains.{chains_of};
ghost use Rattle.autocoder_symbols.specs.Fault.{IsMemory, Gives};
ghost use Rattle.autocoder_symbols.specs.Symbols.{sites_of};
ghost use Rattle.autocoder_symbols.specs.View.{chains_view};
ghost use Rattle.autocoder_placing.specs.Laws.{IsFirstOutside};
ghost use Rattle.autocoder_placing.specs.PlacedImage.{image_of};
ghost use Rattle.autocoder_placing.specs.Values.{first_outside};
ghost use Rattle.autocoder_1401.specs.Assembly.{assembly_in, with_listing};
ghost use Rattle.autocoder_1401.specs.Languages.{AgreesWithPlain};

use autocoder_diagnostics::FaultlessLines;
use autocoder_image::{PackedImage, pack_image};
use autocoder_placing::place_all;
use autocoder_statements::Language;
use autocoder_symbols::{AsmFault, Chains, Lines, SourceHashing};
use std::alloc::Global;

/// The image of lines without a fault.
fn faultless_packed(
    alloc: Global,
    hashing: SourceHashing,
    chains: &Chains,
    lines: &Lines<'_>,
    size: u16,
) -> Result<PackedImage, AsmFault>
    requires few { length lines.now < 2 ^ 32 }
    requires chains { chains_view chains.now ≡ chains_of (sites_of lines.now) lines.now }
    ensures ok { IfOk result (λ image. image ≡ image_of size lines.now) }
    ensures segments { IfOk result (λ image. list_all is_segment image.segments ≡ true) }
    ensures inside { OnOk result (first_outside size lines.now ≡ None) }
    ensures outside { IfErr result (λ fault. IsMemory fault
        ⊎ ((first_outside size lines.now ≡ Some fault) × IsFirstOutside size lines.now fault)) }
{
    let all = place_all(alloc, hashing, chains, lines)?;
    pack_image(alloc, &all, lines, size)
}

/// The core image of a source in this language, as `assemble_image` answers it, in few bytes for each of the source's,
/// however many cells its lines place.
///
/// # Errors
///
/// As `assemble_in`.
pub fn assemble_packed(
    alloc: Global,
    language: Language,
    source: &[u8],
    size: u16,
) -> Result<PackedImage, AsmFault>
    // With the listing of the source it is what `assemble_in` makes, or the first fault, unless memory is refused.
    ensures exact { Gives (with_listing language source.now) result (assembly_in language size source.now) }

    // What the plain language takes means the same in each language.
    ensures plain { AgreesWithPlain language size source.now }

    // All of it is in core.
    ensures in_core { is_core_size size ≡ true → IfOk result IsInCore }

    // Its text is read as it.
    ensures again { is_core_size size ≡ true → IfOk result (λ image. IsTextOf (written_text image) image) }
{
    let read = FaultlessLines::read(alloc, language, source)?;
    let lines = read.lines.lend();
    faultless_packed(alloc, read.hashing, &read.chains, &lines, size)
}
