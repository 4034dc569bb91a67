//! The subcommand `reel`, from file to file.
ghost use Rattle.std.specs.Prelude.{◌≡◌, false, Ok, IfErr, IsOk, OnOk};
ghost use Rattle.program_convert.specs.Did.{IsOneFileFault};

use crate::decks::reel_deck;
use crate::listing::write_reel_listing;
use crate::reel_fault::ReelFault;
use crate::reels::ReelText;
use bcd_1401::Graphics;
use bytes_descriptors::{
    FileFault, WriteFault, begin_whole, end_whole, is_one_file, put_whole, read_whole_reel,
};
use bytes_streams::ToWriter;
use job_runner::CardList;
use program_arguments::Parity;
use std::alloc::Global;
use std::io;
use std::rt::Files;

/// The bytes of a reel's file.
///
/// # Errors
///
/// `File`, with the name as it was given; else `Memory`.
fn read_reel_file(rt: &(impl Files + AllocGlobal), name: String) -> Result<Vec<u8>, ReelFault> {
    match read_whole_reel(rt, name.as_str()) {
        Ok(read) => Ok(read.bytes),
        Err(FileFault::Memory) => Err(ReelFault::Memory),
        Err(fault) => Err(ReelFault::File(name, fault)),
    }
}

/// What two names are refused for, if it is found that they lead to one file.
fn unless_one(
    alloc: Global,
    first: &str,
    second: &str,
    found: Result<bool, WriteFault>,
) -> Result<(), ReelFault>
    ensures two { found ≡ Ok false → IsOk result }
    ensures one { OnOk result (found ≡ Ok false) }
    ensures names { IfErr result (IsOneFileFault first.now second.now) }
{
    match found {
        Ok(false) => return Ok(()),
        Ok(true) => {}
        Err(_) => return Err(ReelFault::Memory),
    }
    match (
        String::from_str(alloc, first),
        String::from_str(alloc, second),
    ) {
        (Ok(first), Ok(second)) => Err(ReelFault::OneFile(first, second)),
        _ => Err(ReelFault::Memory),
    }
}

/// Looks at the names of the file that is read and of the file that is written.
///
/// # Errors
///
/// `OneFile` if they lead to one file, or `Memory`.
pub fn check_names<R: Files + AllocGlobal>(rt: &R, file: &str, out: &str) -> Result<(), ReelFault> {
    unless_one(rt.alloc(), file, out, is_one_file(rt, file, out))
}

/// What a file of this name that isn't written is reported as.
fn unwritten(name: String, fault: WriteFault) -> ReelFault {
    match fault {
        WriteFault::Memory => ReelFault::Memory,
        WriteFault::Unwritten => ReelFault::Unwritten(name),
    }
}

/// Writes the listing of the reel of a file to standard output.
///
/// # Errors
///
/// `File` if the file can't be read, `Reel` if it has no reel's text, and `Memory`; nothing is written then. `Output`
/// if the listing isn't written, or a part of it alone.
pub fn list_reel<R: Files + Print + AllocGlobal>(
    rt: &R,
    file: String,
    parity: Parity,
) -> Result<(), ReelFault> {
    match read_reel_file(rt, file) {
        Ok(text) => {
            let mut writer = ToWriter::new(io::writer(rt));
            write_reel_listing(rt.alloc(), text.as_slice(), parity, &mut writer)
        }
        Err(fault) => Err(fault),
    }
}

/// Writes the deck of the reel of a file, in the graphics of the chain that is asked for, to the file named `out`.
///
/// # Errors
///
/// `OneFile` if both names lead to one file; `File` if the reel can't be read, `Reel` if the file has no reel's text,
/// and `Record` if a record is longer than a card; `Unwritten` if the deck isn't written; or `Memory`.
pub fn write_reel_deck<R: Files + Print + AllocGlobal>(
    rt: &R,
    file: String,
    out: String,
    asked: Option<Graphics>,
    parity: Parity,
) -> Result<(), ReelFault> {
    match check_names(rt, file.as_str(), out.as_str()) {
        Ok(()) => {}
        Err(fault) => return Err(fault),
    }
    let text = match read_reel_file(rt, file) {
        Ok(text) => text,
        Err(fault) => return Err(fault),
    };
    match reel_deck(rt.alloc(), text.as_slice(), asked, parity) {
        Ok(deck) => match put_whole(rt, out.as_str(), deck.as_slice()) {
            Ok(()) => Ok(()),
            Err(fault) => Err(unwritten(out, fault)),
        },
        Err(fault) => Err(fault),
    }
}

/// Writes the reel of a deck to the file of this name.
///
/// # Errors
///
/// `Full` if the deck is longer than a reel, `Unwritten` if the reel isn't written, or `Memory`.
pub fn write_reel<R: Files + Print + AllocGlobal>(
    rt: &R,
    cards: &CardList,
    out: String,
    parity: Parity,
) -> Result<(), ReelFault> {
    match ReelText::new(rt.alloc(), cards, parity) {
        Ok(text) => {
            let file = match begin_whole(rt, out.as_str()) {
                Ok(file) => file,
                Err(fault) => return Err(unwritten(out, fault)),
            };
            // The text is written as it is made.
            let mut writer = ToWriter::new(file);
            let written = text.write(&mut writer);
            match end_whole(rt, writer.into_inner(), written.is_ok()) {
                Ok(()) => Ok(()),
                Err(fault) => Err(unwritten(out, fault)),
            }
        }
        Err(fault) => Err(fault),
    }
}
