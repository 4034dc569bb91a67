//! What core storage holds once it has an image's cells.
ghost use Rattle.std.specs.Prelude.{◌≡◌, ◌<◌, ◌≤◌, true, length, IfOk};
ghost use Rattle.std.specs.List.{list_all};
ghost use Rattle.core_1401.specs.Address.{addresses};
ghost use Rattle.core_1401.specs.Storage.{least_core_size};
ghost use Rattle.machine_image.specs.Image.{IsInCore, is_inside};
ghost use Rattle.cpu_1401.specs.CarryOut.{deposited};
ghost use Rattle.autocoder_deck.specs.Contents.{card_places, first_from, is_blank, storage_of, with_segments};

use bcd_1401::Cell;
use machine_image::{Image, Segment};
use std::alloc::{AllocError, Global};

/// How many places there are up to the last column of a card, with 000.
pub(crate) const CARD_PLACES: usize = 81;

/// Whether a cell is a blank without a word mark.
pub(crate) fn is_blank(cell: Cell) -> bool
    ensures value { result ≡ is_blank cell }
    ensures char { cell.char < 64 }
{
    cell.char.code() == 0 && !cell.mark
}

/// Puts the cells of a segment at their places.
fn put_segment(storage: &mut [Cell], segment: &Segment)
    requires { is_inside (length storage.old) segment.now ≡ true }
    ensures { storage.new ≡ deposited storage.old segment.now.address segment.now.cells }
{
    let from = usize::from(segment.address);
    let cells = segment.cells.as_slice();
    storage[from..from + cells.len()].copy_from_slice(cells);
}

/// Puts the cells of segments at their places, in order.
fn put_segments(storage: &mut [Cell], segments: &[Segment])
    requires { list_all (is_inside (length storage.old)) segments.now ≡ true }
    ensures { storage.new ≡ with_segments storage.old segments.now }
{
    for segment in segments {
        put_segment(storage, segment);
    }
}

/// What core storage of the image's size holds, once its cells are in it, by address.
///
/// # Errors
///
/// If the memory for it is refused.
pub(crate) fn storage_of(alloc: Global, image: &Image) -> Result<Vec<Cell>, AllocError>
    requires { IsInCore image.now }
    ensures ok { IfOk result (λ cells. cells.items ≡ storage_of image.now) }
    ensures size { IfOk result (λ cells. length cells.items ≡ image.now.size) }
    ensures least { IfOk result (λ cells. least_core_size ≤ length cells.items) }
    ensures most { IfOk result (λ cells. length cells.items ≤ addresses) }
{
    let mut storage = vec![in alloc; Cell::BLANK; usize::from(image.size)]?;
    put_segments(&mut storage, image.segments.as_slice());
    Ok(storage)
}

/// The address of the first cell that isn't blank, of those from 000 on.
pub(crate) fn first_taken(cells: &[Cell]) -> Option<u16>
    requires { length cells.now ≤ card_places }
    ensures { result ≡ first_from 0 cells.now }
{
    let mut at = 0;
    for cell in cells {
        if !is_blank(*cell) {
            return Some(at);
        }
        at += 1;
    }
    None
}
