//! A session at the console of a room.
ghost use Rattle.std.specs.Prelude.{◌≡◌, ◌≢◌, false, IsTrue};
ghost use Rattle.room_alone.specs.Turns.{Answered, RoomResponds, glance_reply};
ghost use Rattle.room_alone.specs.Session.{SessionDid};

use crate::room::Room;
use crate::{Reply, Responder, SessionEnd, answer_lines};
use bytes_streams::{Sink, Source};
use console_text::{Line, LineFault};
use machine_commands::{Glance, GlanceFault};
use std::alloc::Global;

/// The seat of a console that shares its room with nobody.
pub const OWN_SEAT: u8 = 0;

impl Responder for Room {
    ghost responds = { RoomResponds };

    ghost is_good = { λ _. Unit {0} };

    ghost is_unkept = { λ _. ⊥ };

    fn before(&mut self, _line: u64) {}

    fn respond(&mut self, said: Result<Line, LineFault>) -> Option<Reply> {
        match said {
            Ok(Line::Empty) => None,
            Ok(Line::Command(command)) => match self.carry(OWN_SEAT, command) {
                Ok(answer) => Some(Reply::Answer(answer)),
                Err(fault) => Some(Reply::RoomFault(fault)),
            },
            Ok(Line::Glance(address)) => Some(glance_at(self, address)),
            Ok(Line::Quit) => Some(Reply::Bye),
            Err(fault) => Some(Reply::LineFault(fault)),
        }
    }

    fn is_kept(&self) -> bool {
        true
    }

    fn after(&mut self, _line: u64) {}
}

/// What a glance at the room itself is answered: all its commands count.
pub(crate) fn glance_at(room: &Room, address: u16) -> Reply
    ensures { result ≡ glance_reply room.now.size room.now.journal address }
{
    let core = room.machine().core();
    if !core.in_core(address) {
        return Reply::GlanceFault(GlanceFault::Range);
    }
    Reply::Glance(Glance {
        after: room.journal().len() as u64,
        cell: core.get(address),
    })
}

/// Answers lines at the console of a room, as seat 0, until QUIT, the end of input, a failure or the bound. A byte is
/// read only when the reply to the line before it is written.
pub fn session<R: Source, W: Sink>(
    alloc: Global,
    room: &mut Room,
    reader: &mut R,
    writer: &mut W,
) -> SessionEnd
    ensures session { SessionDid Answered result (R.left reader.old) (R.left reader.new)
        (W.received writer.old) (W.received writer.new) room.old room.new }

    // A session reports a failed read or write only if one failed.
    ensures read { result ≡ SessionEnd.Read → IsTrue (R.has_failed reader.new) }
    ensures write { result ≡ SessionEnd.Write → IsTrue (W.has_failed writer.new) }

    // Any other end means that no read and no write failed, and that the source hadn't failed before.
    ensures good_read { result ≢ SessionEnd.Read → R.has_failed reader.new ≡ false }
    ensures good_write { result ≢ SessionEnd.Write → W.has_failed writer.new ≡ W.has_failed writer.old }

    ensures size { room.new.size ≡ room.old.size }

    // Nothing is kept outside of the room, so that nothing is unkept.
    ensures kept { result ≢ SessionEnd.Unkept }
{
    answer_lines(alloc, room, reader, writer)
}
