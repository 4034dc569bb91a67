//! The image of lines, once all is placed.
ghost use Rattle.std.specs.Prelude.{◌≡◌, ◌<◌, ◌^◌, ◌⊎◌, length, None, Some, IfOk, IfErr, OnOk};
ghost use Rattle.autocoder_symbols.specs.Fault.{IsMemory};
ghost use Rattle.autocoder_placing.specs.Laws.{IsFirstOutside};
ghost use Rattle.autocoder_placing.specs.PlacedImage.{image_of};
ghost use Rattle.autocoder_placing.specs.Placement.{placed};
ghost use Rattle.autocoder_placing.specs.Values.{first_outside};
ghost use Rattle.autocoder_placing.specs.View.{places_of};

use crate::packed_image::{PackedImage, pack_image};
use autocoder_placing::Placing;
use autocoder_symbols::{AsmFault, Lines};
use machine_image::{Image, Segment, Segments};
use std::alloc::Global;

/// The segments of a packed image.
fn kept_segments(alloc: Global, packed: &PackedImage) -> Result<Vec<Segment>, AsmFault>
    ensures ok { IfOk result (λ segments. segments.items ≡ packed.now.segments) }
    ensures err { IfErr result IsMemory }
{
    let mut segments = Vec::new(alloc);
    let mut rest = packed.segments();
    while let Some((segment, beyond)) = rest.split_first() {
        segments.push(segment)?;
        rest = beyond;
    }
    Ok(segments)
}

/// A packed image with its segments.
fn kept(alloc: Global, packed: &PackedImage) -> Result<Image, AsmFault>
    ensures ok { IfOk result (λ image. image ≡ packed.now) }
    ensures err { IfErr result IsMemory }
{
    let segments = kept_segments(alloc, packed)?;
    Ok(Image {
        size: packed.size(),
        segments: Segments::from_vec(segments),
        start: packed.start(),
    })
}

/// The image of lines, once all is placed.
///
/// # Errors
///
/// `OutOfCore` for the first line of which something isn't in core; `Memory` if there is no room.
pub fn make_image(
    alloc: Global,
    all: &Placing<'_>,
    lines: &Lines<'_>,
    size: u16,
) -> Result<Image, AsmFault>
    requires few { length lines.now < 2 ^ 32 }
    requires placed { places_of all.now ≡ placed lines.now }
    ensures ok { IfOk result (λ image. image ≡ image_of size lines.now) }
    ensures inside { OnOk result (first_outside size lines.now ≡ None) }
    ensures outside { IfErr result (λ fault. IsMemory fault
        ⊎ ((first_outside size lines.now ≡ Some fault) × IsFirstOutside size lines.now fault)) }
{
    let packed = pack_image(alloc, all, lines, size)?;
    let image = kept(alloc, &packed)?;
    Ok(image)
}
