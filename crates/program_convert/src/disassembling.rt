//! What the subcommand `disassemble` does.
ghost use Rattle.std.specs.Prelude.{◌≡◌, true, IfOk, IfErr};
ghost use Rattle.core_1401.specs.Storage.{is_core_size};
ghost use Rattle.machine_image.specs.ImageText.{IsTextOf};
ghost use Rattle.autocoder_deck.specs.ImageListing.{listing_text};
ghost use Rattle.autocoder_deck.specs.Writing.{HasRoom};
ghost use Rattle.program_convert.specs.Assemble.{Wrote};
ghost use Rattle.program_convert.specs.Disassemble.{DisassembleDid, DisassembledDeck, IsListingOfDeck};
ghost use Rattle.program_convert.specs.Disassemble.{IsWhyNotListed, IsWhyUnlisted};

use crate::assembling::write_text;
use crate::fault::AssembleFault;
use autocoder_deck::{
    LOADING_STEPS, ListingRoom, LoadFault, list_marked, loaded_image, write_listing,
};
use bytes_streams::Sink;
use core_1401::CoreFault;
use cpu_1401::Machine;
use job_runner::CardList;
use machine_image::{LentImage, lend_image};
use std::alloc::Global;

/// Writes the listing of the image of a text: its instructions and its data, with their addresses.
///
/// # Errors
///
/// `Image` if the text is no image's, and `Memory` if there is no room for a page of the listing; nothing is written
/// then. `Output` if the listing isn't written, or a part of it alone.
pub fn write_disassembly<W: Sink>(
    alloc: Global,
    text: &[u8],
    writer: &mut W,
) -> Result<(), AssembleFault>
    ensures { DisassembleDid text.now (W.received writer.old) (W.received writer.new)
        (W.has_failed writer.new) result }
{
    match image_in_room(alloc, text) {
        Ok((image, room)) => write_image(room, &image, writer),
        Err(fault) => Err(fault),
    }
}

/// The image of a text, lent, and the room in which it is listed.
fn image_in_room(alloc: Global, text: &[u8]) -> Result<(LentImage<'_>, ListingRoom), AssembleFault>
    ensures image { IfOk result (λ found. IsTextOf text.now found.0) }
    ensures room { IfOk result (λ found. HasRoom found.1) }
    ensures err { IfErr result (IsWhyNotListed text.now) }
{
    let image = match lend_image(text) {
        Ok(image) => image,
        Err(fault) => return Err(AssembleFault::Image(fault)),
    };
    match ListingRoom::reserve(alloc) {
        Ok(room) => Ok((image, room)),
        Err(_) => Err(AssembleFault::Memory),
    }
}

/// Writes the listing of an image.
fn write_image<W: Sink>(
    room: ListingRoom,
    image: &LentImage<'_>,
    writer: &mut W,
) -> Result<(), AssembleFault>
    requires { HasRoom room }
    ensures { Wrote (listing_text image.now) (W.received writer.old) (W.received writer.new)
        (W.has_failed writer.new) result }
{
    match write_listing(room, image, writer) {
        Ok(()) => Ok(()),
        Err(_) => Err(AssembleFault::Output),
    }
}

/// Writes the listing of what a deck loads: the cells of core storage when its program begins, on a machine of this size
/// that takes it by the load key, with an asterisk for each instruction that was carried out.
///
/// # Errors
///
/// `Unloaded` if the machine stops before, has no card, or is still loading after 1,000,000 instructions, and `Memory`
/// if there is no room for it; nothing is written then. `Output` if the listing isn't written, or a part of it alone.
pub fn write_deck_listing<W: Sink>(
    alloc: Global,
    cards: &CardList,
    size: u16,
    writer: &mut W,
) -> Result<(), AssembleFault>
    requires { is_core_size size ≡ true }
    ensures { DisassembledDeck size cards.now (W.received writer.old) (W.received writer.new)
        (W.has_failed writer.new) result }
{
    match deck_listing(alloc, cards, size) {
        Ok(lines) => write_text(lines.as_slice(), writer),
        Err(fault) => Err(fault),
    }
}

/// The listing of what a deck loads.
fn deck_listing(alloc: Global, cards: &CardList, size: u16) -> Result<Vec<u8>, AssembleFault>
    requires { is_core_size size ≡ true }
    ensures ok { IfOk result (λ listing. IsListingOfDeck size cards.now listing.items) }
    ensures err { IfErr result (IsWhyUnlisted size cards.now) }
{
    let machine = match Machine::power_on(alloc, size) {
        Ok(machine) => machine,
        Err(CoreFault::Memory) => return Err(AssembleFault::Memory),
        Err(CoreFault::Size) => unreachable!(),
    };
    let loaded = match loaded_image(alloc, machine, cards, LOADING_STEPS) {
        Ok(loaded) => loaded,
        Err(LoadFault::Memory) => return Err(AssembleFault::Memory),
        Err(fault) => return Err(AssembleFault::Unloaded(fault)),
    };
    match list_marked(alloc, &loaded.image, &loaded.carried) {
        Ok(listing) => Ok(listing),
        Err(_) => Err(AssembleFault::Memory),
    }
}
