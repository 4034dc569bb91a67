//! The subcommand `disassemble`, from a file's image or the cards of a deck to standard output.

use crate::assembling::check_size;
use crate::disassembling::{write_deck_listing, write_disassembly};
use crate::fault::AssembleFault;
use bytes_descriptors::{FileFault, read_whole};
use bytes_streams::ToWriter;
use job_runner::CardList;
use std::io;
use std::rt::Files;

/// The bytes of an image's file.
///
/// # Errors
///
/// `File`, with the name as it was given; else `Memory`.
fn read_image_file(
    rt: &(impl Files + AllocGlobal),
    name: String,
) -> Result<Vec<u8>, AssembleFault> {
    match read_whole(rt, name.as_str()) {
        Ok(bytes) => Ok(bytes),
        Err(FileFault::Memory) => Err(AssembleFault::Memory),
        Err(fault) => Err(AssembleFault::File(name, fault)),
    }
}

/// Writes the listing of the image of a file to standard output.
///
/// # Errors
///
/// `File` if the file can't be read, `Image` if it has no image's text, and `Memory`; nothing is written then. `Output`
/// if the listing isn't written, or a part of it alone.
pub fn disassemble_file<R: Files + Print + AllocGlobal>(
    rt: &R,
    file: String,
) -> Result<(), AssembleFault> {
    match read_image_file(rt, file) {
        Ok(text) => {
            let mut writer = ToWriter::new(io::writer(rt));
            write_disassembly(rt.alloc(), text.as_slice(), &mut writer)
        }
        Err(fault) => Err(fault),
    }
}

/// Writes the listing of what a deck loads into core storage of this size to standard output.
///
/// # Errors
///
/// `Size` if none of that size is made; `Unloaded` if the machine isn't brought to the entry of a program; or `Memory`;
/// nothing is written then. `Output` if the listing isn't written, or a part of it alone.
pub fn disassemble_deck<R: Print + AllocGlobal>(
    rt: &R,
    cards: &CardList,
    size: u16,
) -> Result<(), AssembleFault> {
    match check_size(size) {
        Ok(()) => {
            let mut writer = ToWriter::new(io::writer(rt));
            write_deck_listing(rt.alloc(), cards, size, &mut writer)
        }
        Err(fault) => Err(fault),
    }
}
