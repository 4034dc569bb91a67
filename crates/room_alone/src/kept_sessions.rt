//! A session at the console of a room whose journal is kept.
ghost use Rattle.std.specs.Prelude.{◌≡◌, ◌≢◌, true, false, IsTrue};
ghost use Rattle.room_alone.specs.Kept.{IsKeptAs};
ghost use Rattle.room_alone.specs.Turns.{AnsweredKept, KeptResponds};
ghost use Rattle.room_alone.specs.Session.{SessionDid};

use crate::keeper::Keeper;
use crate::kept_room::KeptRoom;
use crate::sessions::{OWN_SEAT, glance_at};
use crate::{Reply, Responder, SessionEnd, answer_lines};
use bytes_streams::{Sink, Source};
use console_text::{Line, LineFault};
use std::alloc::Global;

impl<K: Keeper + Drop> Responder for KeptRoom<K> {
    ghost responds = { KeptResponds };

    ghost is_good = { λ room. room.failed ≡ false };

    ghost is_unkept = { λ room. room.failed ≡ true };

    fn before(&mut self, _line: u64) {}

    fn respond(&mut self, said: Result<Line, LineFault>) -> Option<Reply> {
        match said {
            Ok(Line::Empty) => None,
            Ok(Line::Command(command)) => match self.carry(OWN_SEAT, command) {
                Ok(carried) => Some(Reply::Answer(carried.answer)),
                Err(fault) => Some(Reply::RoomFault(fault)),
            },
            Ok(Line::Glance(address)) => Some(glance_at(self.room(), address)),
            Ok(Line::Quit) => Some(Reply::Bye),
            Err(fault) => Some(Reply::LineFault(fault)),
        }
    }

    fn is_kept(&self) -> bool {
        !self.has_failed()
    }

    fn after(&mut self, _line: u64) {}
}

/// As `session`, at the console of a room whose journal is kept outside of it: each command is kept before its reply is
/// written. If it couldn't be kept it has no reply, and the session ends.
pub fn session_kept<K: Keeper + Drop, R: Source, W: Sink>(
    alloc: Global,
    room: &mut KeptRoom<K>,
    reader: &mut R,
    writer: &mut W,
) -> SessionEnd
    requires { room.old.failed ≡ false }
    ensures session { SessionDid AnsweredKept result (R.left reader.old) (R.left reader.new)
        (W.received writer.old) (W.received writer.new) room.old room.new }
    ensures read { result ≡ SessionEnd.Read → IsTrue (R.has_failed reader.new) }
    ensures write { result ≡ SessionEnd.Write → IsTrue (W.has_failed writer.new) }
    ensures good_read { result ≢ SessionEnd.Read → R.has_failed reader.new ≡ false }
    ensures good_write { result ≢ SessionEnd.Write → W.has_failed writer.new ≡ W.has_failed writer.old }

    // What is kept is the text of the journal; or it breaks off in the last line, if and only if that ended the
    // session.
    ensures kept { IsKeptAs K.form room.new.room.size room.new.room.journal room.new.failed K.first room.new.kept }
    ensures good { result ≢ SessionEnd.Unkept → room.new.failed ≡ false }
    ensures unkept { result ≡ SessionEnd.Unkept → room.new.failed ≡ true }
    ensures size { room.new.room.size ≡ room.old.room.size }
{
    let end = answer_lines(alloc, room, reader, writer);
    let _failed = room.has_failed();
    end
}
