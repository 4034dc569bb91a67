//! The image of lines in few bytes, once all is placed.
ghost use Rattle.std.specs.Prelude.{◌≡◌, ◌<◌, ◌^◌, ◌⊎◌, true, length, None, Some, IfOk, IfErr, OnOk};
ghost use Rattle.std.specs.List.{list_all};
ghost use Rattle.machine_image.specs.ImageText.{is_segment};
ghost use Rattle.autocoder_symbols.specs.Fault.{IsMemory};
ghost use Rattle.autocoder_placing.specs.Laws.{IsFirstOutside};
ghost use Rattle.autocoder_placing.specs.PlacedImage.{entry_in, image_of};
ghost use Rattle.autocoder_placing.specs.Placement.{placed};
ghost use Rattle.autocoder_placing.specs.Values.{first_outside};
ghost use Rattle.autocoder_placing.specs.View.{places_of};

use crate::packed_cells::PackedCells;
use crate::segments_left::SegmentsLeft;
use crate::source_packing::pack_lines;
use autocoder_placing::{Placing, address_or_zero};
use autocoder_statements::{Addressing, Statement};
use autocoder_symbols::{AsmFault, Lines};
use std::alloc::Global;
use std::marker::Model;

/// A core image in few bytes for each line that it is made of, however many cells that places. Contracts see the image.
#[derive(Drop)]
pub struct PackedImage {
    size: u16,
    cells: PackedCells,
    start: u16,
}

impl Model for PackedImage {
    ghost use Rattle.machine_image.specs.declared.image.Image.{Image};
    ghost use Rattle.autocoder_image.specs.Packed.{cells_in, image_in, ArePlaced};

    ghost Value = { Image };

    ghost view = { λ packed. image_in packed.size packed.cells packed.start };

    ghost invariant = { λ packed. ArePlaced (cells_in packed.cells) };
}

impl PackedImage {
    /// How many places the core storage has.
    pub fn size(&self) -> u16
        ensures { result ≡ self.now.size }
    {
        self.size
    }

    /// The entry: the address of the first instruction.
    pub fn start(&self) -> u16
        ensures { result ≡ self.now.start }
    {
        self.start
    }

    /// The segments.
    pub fn segments(&self) -> SegmentsLeft<'_>
        ensures { result ≡ self.now.segments }
    {
        SegmentsLeft::of(&self.cells)
    }
}

/// Where the first END lets the program begin.
fn entry(all: &Placing<'_>, lines: &Lines<'_>) -> Result<i64, AsmFault>
    ensures value { IfOk result (λ value. value ≡ entry_in (places_of all.now) lines.now) }
    ensures err { IfErr result IsMemory }
{
    for i in 0..lines.len() {
        let line = lines.line(i);
        let Some(Statement { body, .. }) = line.statement else {
            continue;
        };
        match body.describe().addressing {
            Addressing::Entry(operands) => return all.entry_value(operands.a),
            Addressing::Nothing
            | Addressing::Addresses(_)
            | Addressing::EarlierValue(_)
            | Addressing::Equal(_)
            | Addressing::Value(_) => {},
        }
    }
    Ok(0)
}

/// The image of lines in few bytes, once all is placed.
///
/// # Errors
///
/// `OutOfCore` for the first line with something outside core; `Memory` if there is no room.
pub fn pack_image(
    alloc: Global,
    all: &Placing<'_>,
    lines: &Lines<'_>,
    size: u16,
) -> Result<PackedImage, AsmFault>
    requires few { length lines.now < 2 ^ 32 }
    requires placed { places_of all.now ≡ placed lines.now }
    ensures ok { IfOk result (λ image. image ≡ image_of size lines.now) }

    // Each segment is one of the machine's.
    ensures segments { IfOk result (λ image. list_all is_segment image.segments ≡ true) }
    ensures inside { OnOk result (first_outside size lines.now ≡ None) }
    ensures outside { IfErr result (λ fault. IsMemory fault
        ⊎ ((first_outside size lines.now ≡ Some fault) × IsFirstOutside size lines.now fault)) }
{
    let start = address_or_zero(entry(all, lines)?);
    let cells = pack_lines(alloc, all, size, lines)?;
    Ok(PackedImage { size, cells, start })
}
