//! A room whose journal is kept as a text.
ghost use Rattle.std.specs.Prelude.{◌≡◌, [], false, length, Err, IsTrue, IfOk, OnOk};
ghost use Rattle.std.specs.Io.KnownBytes.{Appends};
ghost use Rattle.std.specs.Option.{ForSome};
ghost use Rattle.room_files.specs.JournalText.{journal_text};
ghost use Rattle.room_alone.specs.Kept.{BeginsWith};
ghost use Rattle.room_files.specs.Verifying.{emptied, verified};

use crate::fault::TextFault;
use crate::text_keeper::{Beginning, TextKeeper};
use crate::verifier::Verifier;
use crate::write_journal;
use bytes_streams::{Sink, put_all};
use room_alone::{Entry, Keeper, KeptRoom, Room};
use std::alloc::{AllocError, Global};

/// Writes the first line of the journal of a machine of this size.
///
/// # Errors
///
/// `Memory`, and nothing is written; or `Unwritten` if the line isn't written, or only a part of it.
pub fn begin_text<S: Sink>(alloc: Global, size: u16, sink: &mut S) -> Result<(), TextFault>
    ensures text { OnOk result (Appends (S.received sink.old) (S.received sink.new) (journal_text size [])) }
    ensures good { OnOk result (S.has_failed sink.new ≡ false) }
    ensures memory { result ≡ Err TextFault.Memory → S.received sink.new ≡ S.received sink.old }
    ensures failed { result ≡ Err TextFault.Unwritten → IsTrue (S.has_failed sink.new) }
{
    write_so_far(alloc, size, &[], sink)
}

/// Writes the text of a journal so far.
fn write_so_far<S: Sink>(
    alloc: Global,
    size: u16,
    journal: &[Entry],
    sink: &mut S,
) -> Result<(), TextFault>
    ensures text { OnOk result (Appends (S.received sink.old) (S.received sink.new) (journal_text size journal.now)) }
    ensures good { OnOk result (S.has_failed sink.new ≡ false) }
    ensures memory { result ≡ Err TextFault.Memory → S.received sink.new ≡ S.received sink.old }
    ensures failed { result ≡ Err TextFault.Unwritten → IsTrue (S.has_failed sink.new) }
{
    let Ok(text) = write_journal(alloc, size, journal) else {
        return Err(TextFault::Memory);
    };
    if put_all(sink, text.as_slice()).is_err() || sink.has_failed() {
        return Err(TextFault::Unwritten);
    }
    Ok(())
}

/// A room that is kept from here on, after the text of what its journal has so far is written.
///
/// # Errors
///
/// `Memory`, or `Unwritten` if the text isn't written, or only a part of it.
pub fn keep_room<J: Beginning, S: Sink + Drop>(
    alloc: Global,
    room: Room,
    sink: S,
) -> Result<KeptRoom<TextKeeper<J, S>>, TextFault>
    // The call picks `J`.
    requires { J.first ≡ S.received sink }
    ensures room { IfOk result (λ kept. kept.room ≡ room) }
    ensures good { IfOk result (λ kept. kept.failed ≡ false) }
{
    let size = room.machine().core().size();
    let mut sink = sink;
    write_so_far(alloc, size, room.journal(), &mut sink)?;
    Ok(take_up_room(alloc, room, sink))
}

/// A room that is kept from here on, by a sink that has the text of its journal.
pub fn take_up_room<J: Beginning, S: Sink + Drop>(
    alloc: Global,
    room: Room,
    sink: S,
) -> KeptRoom<TextKeeper<J, S>>
    requires good { S.has_failed sink ≡ false }
    requires text { Appends J.first (S.received sink) (journal_text room.size room.journal) }
    ensures room { result.room ≡ room }
    ensures good { result.failed ≡ false }
    ensures kept { result.kept ≡ S.received sink }
{
    KeptRoom::new(room, TextKeeper::new(alloc, sink))
}

/// A keeper for a machine at power-on whose seats give the commands of a journal again, by a sink that has the
/// journal's text: each line is compared with that text, and the lines after it are added. If a line differs, its
/// entry isn't kept.
///
/// # Errors
///
/// If memory is refused.
pub fn verify_journal<J: Beginning, S: Sink + Drop>(
    alloc: Global,
    sink: S,
    text: Vec<u8>,
    size: u16,
) -> Result<TextKeeper<J, Verifier<S>>, AllocError>
    requires text { ForSome (S.received sink) (λ held. held ≡ text.items) }
    requires head { BeginsWith text.items (journal_text size []) }
    // The call picks `J`: what comes back from the sink is the text alone.
    requires first { J.first ≡ emptied (S.received sink) }
    ensures good { IfOk result (λ keeper. ⟦<TextKeeper<J, Verifier<S>> as Keeper>⟧.has_failed keeper
        ≡ S.has_failed sink) }
    ensures kept { IfOk result (λ keeper. Appends J.first (⟦<TextKeeper<J, Verifier<S>> as Keeper>⟧.kept keeper)
        (journal_text size [])) }
    ensures due { IfOk result (λ keeper. ⟦<TextKeeper<J, Verifier<S>> as Keeper>⟧.kept keeper
        ≡ verified text.items (length (journal_text size [])) (S.received sink)) }
{
    let head = write_journal(alloc, size, &[])?;
    let at = head.len();
    Ok(TextKeeper::new(alloc, Verifier::new(sink, text, at)))
}
