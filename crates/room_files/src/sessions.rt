//! A session at the console of a room whose journal is kept as a text.
ghost use Rattle.std.specs.Prelude.{◌≡◌, false, Ok, IsTrue, IfOk, OnErr};
ghost use Rattle.std.specs.Io.KnownBytes.{Appends};
ghost use Rattle.room_files.specs.JournalText.{journal_text};
ghost use Rattle.room_files.specs.Sessions.{IsHeld};

use crate::fault::TextFault;
use crate::keeping::{keep_room, take_up_room};
use crate::text_keeper::Beginning;
use bytes_streams::{Sink, Source};
use room_alone::{Room, SessionEnd, session_kept};
use std::alloc::Global;

/// Keeps a room by a sink from here on, and holds a session at its console.
///
/// # Errors
///
/// If what the room has done so far isn't kept: `Memory`, or `Unwritten`. Then no session is held.
pub fn keep_session<J: Beginning, S: Sink + Drop, R: Source, W: Sink>(
    alloc: Global,
    room: Room,
    sink: S,
    reader: &mut R,
    writer: &mut W,
) -> Result<SessionEnd, TextFault>
    // The call picks `J`.
    requires { J.first ≡ S.received sink }
    ensures held { IfOk result (λ end. IsHeld end room J.first (R.left reader.old) (R.left reader.new)
        (W.received writer.old) (W.received writer.new)) }
    ensures read { result ≡ Ok SessionEnd.Read → IsTrue (R.has_failed reader.new) }
    ensures write { result ≡ Ok SessionEnd.Write → IsTrue (W.has_failed writer.new) }

    // Without a session nothing is read and nothing is answered.
    ensures unread { OnErr result (R.left reader.new ≡ R.left reader.old) }
    ensures unanswered { OnErr result (W.received writer.new ≡ W.received writer.old) }
{
    let mut kept = match keep_room::<J, S>(alloc, room, sink) {
        Ok(kept) => kept,
        Err(fault) => return Err(fault),
    };
    Ok(session_kept(alloc, &mut kept, reader, writer))
}

/// Holds a session at the console of a room by a sink that has the text of its journal.
pub fn resume_session<J: Beginning, S: Sink + Drop, R: Source, W: Sink>(
    alloc: Global,
    room: Room,
    sink: S,
    reader: &mut R,
    writer: &mut W,
) -> SessionEnd
    // The call picks `J`.
    requires good { S.has_failed sink ≡ false }
    requires text { Appends J.first (S.received sink) (journal_text room.size room.journal) }
    ensures held { IsHeld result room J.first (R.left reader.old) (R.left reader.new)
        (W.received writer.old) (W.received writer.new) }
    ensures read { result ≡ SessionEnd.Read → IsTrue (R.has_failed reader.new) }
    ensures write { result ≡ SessionEnd.Write → IsTrue (W.has_failed writer.new) }
{
    let mut kept = take_up_room::<J, S>(alloc, room, sink);
    session_kept(alloc, &mut kept, reader, writer)
}
