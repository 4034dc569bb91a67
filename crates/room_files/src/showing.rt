//! A journal's text, shown or checked.
ghost use Rattle.std.specs.Prelude.{◌≡◌, ℕ, List, Err, IsTrue, IfOk, IfErr, OnOk};
ghost use Rattle.room_files.specs.Reading.{IsRefused, IsTextOf};
ghost use Rattle.std.specs.Io.KnownBytes.{Appends};
ghost use Rattle.room_files.specs.Listing.{listing_text};
ghost use Rattle.room_files.specs.Showing.{IsNotShown, IsOfEntries, IsShown, IsUnput, unfinished};

use crate::{JournalFault, View, Wrong, list_journal, read_journal, recover_journal};
use bytes_streams::{Sink, put_all};
use room_alone::{Entry, Room};
use std::alloc::Global;
use thiserror::Error;

/// Why a journal isn't shown.
#[derive(Clone, Copy, Debug, Error)]
pub enum ShowFault {
    /// Memory was refused for the listing.
    #[error("memory refused")]
    Memory,
    /// The text isn't a journal's. If its last line is unfinished, the entries before it are written.
    #[error("{0}")]
    Journal(JournalFault),
    /// The listing wasn't written, or only a part of it.
    #[error("cannot write")]
    Output,
}

/// Writes the entries of a journal that are asked for, in columns.
fn put_listing<W: Sink>(
    alloc: Global,
    journal: &[Entry],
    view: View,
    writer: &mut W,
) -> Result<(), ShowFault>
    ensures shown { OnOk result (Appends (W.received writer.old) (W.received writer.new)
        (listing_text view journal.now)) }
    ensures fault { IfErr result (IsUnput view journal.now (W.received writer.old) (W.received writer.new)) }
    ensures failed { result ≡ Err ShowFault.Output → IsTrue (W.has_failed writer.new) }
{
    let Ok(listing) = list_journal(alloc, journal, view) else {
        return Err(ShowFault::Memory);
    };
    put_all(writer, listing.as_slice()).map_err(|_| ShowFault::Output)
}

/// The fault of a text that goes on after the entries of a room, if there is more.
fn unfinished(room: &Room, rest: &[u8]) -> Result<(), ShowFault>
    ensures { result ≡ unfinished room.now.journal rest.now }
{
    if rest.is_empty() {
        return Ok(());
    }
    Err(ShowFault::Journal(JournalFault {
        line: room.journal().len() as u32 + 2,
        why: Wrong::Unfinished,
    }))
}

/// Writes the entries of the room of a text that are asked for, and looks whether the text goes on after them.
fn show_found<W: Sink>(
    alloc: Global,
    room: &Room,
    rest: &[u8],
    view: View,
    writer: &mut W,
) -> Result<(), ShowFault>
    ensures shown { (text : List ℕ) → IsTextOf text room.now.size room.now.journal rest.now
        → OnOk result (IsShown text view (W.received writer.old) (W.received writer.new)) }
    ensures fault { (text : List ℕ) → IsTextOf text room.now.size room.now.journal rest.now
        → IfErr result (IsNotShown text view (W.received writer.old) (W.received writer.new)) }
    ensures failed { result ≡ Err ShowFault.Output → IsTrue (W.has_failed writer.new) }
{
    put_listing(alloc, room.journal(), view, writer)?;
    unfinished(room, rest)
}

/// Writes the entries of a journal's text that are asked for, in columns.
///
/// # Errors
///
/// `Journal` if the text isn't a journal's: then nothing is written, but for the entries before an unfinished line.
/// `Memory` if memory is refused for the listing of a journal, or `Output` if the listing isn't written.
pub fn show_journal<W: Sink>(
    alloc: Global,
    text: &[u8],
    view: View,
    writer: &mut W,
) -> Result<(), ShowFault>
    ensures shown { OnOk result (IsShown text.now view (W.received writer.old) (W.received writer.new)) }
    ensures fault { IfErr result (IsNotShown text.now view (W.received writer.old) (W.received writer.new)) }
    ensures failed { result ≡ Err ShowFault.Output → IsTrue (W.has_failed writer.new) }
{
    match recover_journal(alloc, text) {
        Ok((room, rest)) => show_found(alloc, &room, rest, view, writer),
        Err(fault) => Err(ShowFault::Journal(fault)),
    }
}

/// How many entries the journal of a text has, each of which is answered as the machine answers it.
///
/// # Errors
///
/// What is wrong with a text that isn't a journal's, or `Memory`, and the line at which that was found.
pub fn check_journal(alloc: Global, text: &[u8]) -> Result<usize, JournalFault>
    ensures ok { IfOk result (IsOfEntries text.now) }
    ensures fault { IfErr result (IsRefused text.now) }
{
    match read_journal(alloc, text) {
        Ok(room) => Ok(room.journal().len()),
        Err(fault) => Err(fault),
    }
}
