//! Console lines that one request brings, carried out one after the other.
ghost use Rattle.std.specs.Prelude.{◌≡◌, IfOk, IfErr};
ghost use mathlib.Core.List.{IsPrefix};
ghost use Rattle.serving_page.specs.ManyLines.{LinesUnanswered, goes_on, lines_of};
ghost use Rattle.serving_page.specs.Taking.{AreReplied, HasLost};

use crate::gate::Gate;
use crate::pieces::cut_piece;
use crate::taking::Replied;
use console_1401::{Unanswered, answer_line};
use room_1401::{Keeper, RoomId, Seat, SharedRoom};
use std::alloc::Global;
use std::sync::Wait;

/// Whether the line after a reply is carried out.
fn goes_on(reply: &[u8]) -> bool
    ensures { result ≡ goes_on reply.now }
{
    reply == b"OK\n".as_slice() || reply.starts_with(b"LINE ") || reply.starts_with(b"CARD ")
}

/// Carries out the lines of a body one after the other, up to the first whose reply doesn't go on, and gives their
/// replies; or up to the first that is held off, and then says why too.
///
/// # Errors
///
/// Why the last line that was carried out has no reply, or `Memory` if there is no room for it.
pub(crate) fn answer_lines<J: RoomId, R: Wait + Drop, P: Keeper + Drop, W: Wait, G: Gate>(
    alloc: Global,
    wait: &W,
    room: &SharedRoom<J, R, P>,
    gate: &G,
    seat: &mut Seat<J>,
    body: &[u8],
) -> Result<Replied, Unanswered>
    ensures ok { IfOk result (λ replied.
        AreReplied J.size G.says seat.old (lines_of body.now) replied seat.new) }
    ensures err { IfErr result (λ why.
        LinesUnanswered J.size G.says (HasLost P.has_failed P.kept P.first P.form J.size) seat.old (lines_of body.now)
        why seat.new) }
    ensures number { seat.new.number ≡ seat.old.number }
    ensures grows { IsPrefix seat.old.list seat.new.list }
{
    let mut text = Vec::new(alloc);
    let mut rest = Some(body);
    while let Some(lines) = rest {
        let (line, more) = cut_piece(b'\n', lines);
        if let Some(why) = gate.keeps_off(lines) {
            // If memory is refused, the text doesn't say it.
            let _said = text.extend_from_slice(why.as_slice());
            return Ok(Replied::KeptOff(text));
        }
        let reply = answer_line(alloc, wait, room, seat, line)?;
        if text.extend_from_slice(reply.as_slice()).is_err() {
            return Err(Unanswered::Memory);
        }
        if !goes_on(reply.as_slice()) {
            return Ok(Replied::Whole(text));
        }
        rest = more;
    }
    Ok(Replied::Whole(text))
}
