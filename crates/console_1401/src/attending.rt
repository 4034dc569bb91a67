//! A console at a seat of a shared room.
ghost use Rattle.std.specs.Prelude.{◌≡◌, ◌≢◌, true, false, IsTrue, IfOk, OnErr, None, Some};
ghost use mathlib.Core.List.{IsPrefix};
ghost use Rattle.console_text.specs.ConsoleLine.{said_by};
ghost use Rattle.room_alone.specs.Answering.{AnsweredAll};
ghost use Rattle.room_alone.specs.Session.{SessionDid};
ghost use Rattle.room_1401.specs.Keeping.{HasFailed, HasKept};
ghost use Rattle.console_1401.specs.Attended.{Attended};
ghost use Rattle.console_1401.specs.SeatTurns.{AnswersAtSeat, IsUnanswered, KeptResponds, unkept_reply};

use crate::door::Door;
use bytes_streams::{Sink, Source};
use console_text::{Line, LineFault, parse_line};
use room_1401::{Carried, Keeper, RoomFault, RoomId, Seat, SharedRoom};
use room_alone::{Reply, Responder, SessionEnd, answer_lines, reply_bytes};
use std::alloc::Global;
use std::marker::Model;
use std::sync::Wait;
use thiserror::Error;

/// Why a line that was carried out has no reply.
#[derive(Clone, Copy, Debug, PartialEq, Eq, Error)]
pub enum Unanswered {
    /// 1: the memory for the reply was refused; the command is in the journal.
    #[error("no memory for the reply")]
    Memory,
    /// 2: the command's entry wasn't kept outside of the room; the command is in the room's journal.
    #[error("the entry wasn't kept")]
    Unkept,
}

/// Carries out at a seat what a line says. Gives its reply, which an empty line hasn't, and whether what it did is
/// kept. If the entry of its command isn't kept, the reply is that of each later command, and must not go out.
fn respond_at<J: RoomId, R: Wait + Drop, P: Keeper + Drop, W: Wait>(
    wait: &W,
    room: &SharedRoom<J, R, P>,
    seat: &mut Seat<J>,
    said: Result<Line, LineFault>,
) -> (Option<Reply>, bool)
    ensures line { KeptResponds J.size (HasKept P.has_failed P.kept P.first P.form J.size)
        (HasFailed P.has_failed P.kept P.first P.form J.size) seat.old said result.0 seat.new }

    // It isn't kept only if a keeper that had kept all that the seat has seen has failed at the line's command.
    ensures kept { result.0 ≡ None → result.1 ≡ true }
    ensures unkept { result.1 ≡ false → HasFailed P.has_failed P.kept P.first P.form J.size seat.new.list
        × HasKept P.has_failed P.kept P.first P.form J.size seat.new.list × (result.0 ≡ unkept_reply) }
{
    let mut kept = true;
    let reply = match said {
        Ok(Line::Empty) => None,
        Ok(Line::Command(command)) => match room.command_kept(wait, seat, command) {
            Ok(Carried { answer, kept: true }) => Some(Reply::Answer(answer)),
            Ok(Carried { kept: false, .. }) => {
                kept = false;
                Some(Reply::RoomFault(RoomFault::Unkept))
            }
            Err(fault) => Some(Reply::RoomFault(fault)),
        },
        Ok(Line::Glance(address)) => match seat.glance(address) {
            Ok(glance) => Some(Reply::Glance(glance)),
            Err(fault) => Some(Reply::GlanceFault(fault)),
        },
        Ok(Line::Quit) => Some(Reply::Bye),
        Err(fault) => Some(Reply::LineFault(fault)),
    };
    let _made = seat.made();
    (reply, kept)
}

/// Answers one line, given without its line feed, as `attend` answers each of its lines: the reply and a line feed, or
/// nothing for an empty line. QUIT is answered `BYE`, and the seat goes on.
///
/// # Errors
///
/// `Unkept` if the entry of the line's command wasn't kept, else `Memory` if there is no room for the reply. The line
/// was carried out.
#[tactic(auto, using(crate::proofs::SeatTurnsLemmas::kept_grows))]
pub fn answer_line<J: RoomId, R: Wait + Drop, P: Keeper + Drop, W: Wait>(
    alloc: Global,
    wait: &W,
    room: &SharedRoom<J, R, P>,
    seat: &mut Seat<J>,
    line: &[u8],
) -> Result<Vec<u8>, Unanswered>
    ensures ok { IfOk result (λ reply. AnswersAtSeat J.size seat.old (said_by line.now) reply.items seat.new) }
    ensures err { OnErr result (IsUnanswered J.size seat.old (said_by line.now) seat.new) }

    // Its entry isn't kept only if a keeper has failed, one that had kept all that the seat has then seen.
    ensures unkept { result ≡ Err Unanswered.Unkept → HasFailed P.has_failed P.kept P.first P.form J.size seat.new.list
        × HasKept P.has_failed P.kept P.first P.form J.size seat.new.list }

    // Whatever it said, the seat has seen no less.
    ensures grows { IsPrefix seat.old.list seat.new.list }
{
    let (reply, kept) = respond_at(wait, room, seat, parse_line(line));
    let Some(reply) = reply else {
        return Ok(Vec::new(alloc));
    };
    if !kept {
        return Err(Unanswered::Unkept);
    }
    reply_bytes(alloc, reply).map_err(|_| Unanswered::Memory)
}

/// What answers at a console of a shared room: the seat, its room, and the door. Contracts see what the seat knows.
struct Attendant<'a, J: RoomId, R: Wait + Drop, P: Keeper + Drop, W: Wait, D: Door> {
    wait: &'a W,
    room: &'a SharedRoom<J, R, P>,
    seat: Seat<J>,
    door: &'a D,
    // What the last line did is kept.
    kept: bool,
}

impl<'a, J: RoomId, R: Wait + Drop, P: Keeper + Drop, W: Wait, D: Door> Model
    for Attendant<'a, J, R, P, W, D> {
    ghost use Rattle.std.specs.Prelude.{◌≡◌, false};
    ghost use Rattle.room_1401.specs.Keeping.{HasFailed};
    ghost use Rattle.room_1401.specs.Seen.{SeatView};

    ghost Value = { SeatView };

    ghost view = { λ attendant. attendant.seat };

    ghost invariant = { λ attendant.
        attendant.kept ≡ false → HasFailed P.has_failed P.kept P.first P.form J.size attendant.seat.list };
}

impl<J: RoomId, R: Wait + Drop, P: Keeper + Drop, W: Wait, D: Door> Attendant<'_, J, R, P, W, D> {
    /// The seat.
    fn into_seat(self) -> Seat<J>
        ensures { result ≡ self.entry }
    {
        let Attendant {
            wait: _,
            room: _,
            seat,
            door: _,
            kept: _,
        } = self;
        seat
    }
}

impl<J: RoomId, R: Wait + Drop, P: Keeper + Drop, W: Wait, D: Door> Responder
    for Attendant<'_, J, R, P, W, D> {
    ghost responds = { KeptResponds J.size (HasKept P.has_failed P.kept P.first P.form J.size)
        (HasFailed P.has_failed P.kept P.first P.form J.size) };

    ghost is_good = { λ _. Unit {0} };

    ghost is_unkept = { λ seat. HasFailed P.has_failed P.kept P.first P.form J.size seat.list };

    fn before(&mut self, line: u64) {
        self.door.before(self.seat.number(), line);
    }

    fn respond(&mut self, said: Result<Line, LineFault>) -> Option<Reply> {
        let (reply, kept) = respond_at(self.wait, self.room, &mut self.seat, said);
        self.kept = kept;
        reply
    }

    fn is_kept(&self) -> bool {
        self.kept
    }

    fn after(&mut self, line: u64) {
        self.door.after(self.seat.number(), line);
    }
}

/// Answers lines at the console of a seat, until QUIT, the end of input, a failure or the bound, and gives the seat
/// back. A byte is read only when the reply to the line before it is written. The door is told of each line, before it
/// is carried out and after its reply is written. A glance is the seat's own, and waits for no other seat's command. A
/// command whose entry wasn't kept has no reply, and ends the console.
pub fn attend<J: RoomId, R: Wait + Drop, P: Keeper + Drop, W: Wait, S: Source, K: Sink, D: Door>(
    alloc: Global,
    wait: &W,
    room: &SharedRoom<J, R, P>,
    seat: Seat<J>,
    reader: &mut S,
    writer: &mut K,
    door: &D,
) -> (Seat<J>, SessionEnd)
    ensures session { SessionDid (Attended J.size) result.1 (S.left reader.old) (S.left reader.new)
        (K.received writer.old) (K.received writer.new) seat result.0 }

    // The same, line by line. Each answer that goes out is of a command whose entry is kept.
    ensures lines { SessionDid (AnsweredAll
        (KeptResponds J.size (HasKept P.has_failed P.kept P.first P.form J.size)
        (HasFailed P.has_failed P.kept P.first P.form J.size)))
        result.1 (S.left reader.old) (S.left reader.new) (K.received writer.old) (K.received writer.new) seat result.0 }
    ensures number { result.0.number ≡ seat.number }

    // It says that a read or a write failed only if it did.
    ensures read { result.1 ≡ SessionEnd.Read → IsTrue (S.has_failed reader.new) }
    ensures write { result.1 ≡ SessionEnd.Write → IsTrue (K.has_failed writer.new) }

    // It ends as unkept only if a keeper has failed after all that the seat has seen; one that keeps nothing never has.
    ensures unkept { result.1 ≡ SessionEnd.Unkept
        → HasFailed P.has_failed P.kept P.first P.form J.size result.0.list }

    // Any other end means that no read and no write failed, and that the source hadn't failed before.
    ensures good_read { result.1 ≢ SessionEnd.Read → S.has_failed reader.new ≡ false }
    ensures good_write { result.1 ≢ SessionEnd.Write → K.has_failed writer.new ≡ K.has_failed writer.old }
{
    let mut attendant = Attendant {
        wait,
        room,
        seat,
        door,
        kept: true,
    };
    let end = answer_lines(alloc, &mut attendant, reader, writer);
    (attendant.into_seat(), end)
}
