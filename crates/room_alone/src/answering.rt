//! Lines received from a source and answered into a sink, one after the other, at any console.
ghost use Rattle.std.specs.Prelude.{◌≡◌, ◌≢◌, ◌==◌, false, IsTrue, Some};
ghost use Rattle.room_alone.specs.Session.{SessionDid};
ghost use Rattle.room_alone.specs.Answering.{AnsweredAll, AnswersLine, AnswersLast, EntersByte};
ghost use Rattle.room_alone.specs.Text.{without_return};
ghost use Rattle.machine_notation.specs.Bytes.{line_feed};

use crate::line_buffer::LineBuffer;
use crate::reply::reply_bytes;
use crate::responder::Responder;
use crate::session_end::SessionEnd;
use bytes_streams::{Sink, Source, put_all};
use console_text::{Line, LineFault, parse_line};
use std::alloc::Global;

/// The most bytes that a session reads.
const MOST_BYTES: u32 = 16_777_216;

/// The line without one carriage return at its end.
#[tactic(auto, unfolding(crate::specs::Text::without_return))]
fn without_carriage_return(line: &[u8]) -> &[u8]
    ensures { result.now ≡ without_return line.now }
{
    let len = line.len();
    if len > 0 && line[len - 1] == b'\r' {
        &line[..len - 1]
    } else {
        line
    }
}

/// Answers one line, of this number: it is carried out, and then its reply is written, if what it did is kept. Gives
/// the session's end, if that was it.
fn answer_line<T: Responder, W: Sink>(
    alloc: Global,
    responder: &mut T,
    writer: &mut W,
    number: u64,
    said: Result<Line, LineFault>,
) -> Option<SessionEnd>
    requires { T.is_good responder.old }
    ensures line { AnswersLine T.responds result said responder.old responder.new
        (W.received writer.old) (W.received writer.new) }
    ensures write { result ≡ Some SessionEnd.Write → IsTrue (W.has_failed writer.new) }
    ensures good { result ≢ Some SessionEnd.Write → W.has_failed writer.new ≡ W.has_failed writer.old }
    ensures kept { result ≢ Some SessionEnd.Unkept → T.is_good responder.new }
    ensures unkept { result ≡ Some SessionEnd.Unkept → T.is_unkept responder.new }
{
    let quits = matches!(said, Ok(Line::Quit));
    responder.before(number);
    if let Some(reply) = responder.respond(said) {
        if !responder.is_kept() {
            return Some(SessionEnd::Unkept);
        }
        let Ok(bytes) = reply_bytes(alloc, reply) else {
            return Some(SessionEnd::Memory);
        };
        if put_all(writer, bytes.as_slice()).is_err() {
            return Some(SessionEnd::Write);
        }
    }
    responder.after(number);
    if quits { Some(SessionEnd::Quit) } else { None }
}

/// At the end of input, answers what came after the last line feed, if that is a byte at least.
fn answer_last<T: Responder, W: Sink>(
    alloc: Global,
    responder: &mut T,
    writer: &mut W,
    line: &LineBuffer,
) -> SessionEnd
    requires { T.is_good responder.old }
    ensures line { AnswersLast T.responds result line.now responder.old responder.new
        (W.received writer.old) (W.received writer.new) }
    ensures write { result ≡ SessionEnd.Write → IsTrue (W.has_failed writer.new) }
    ensures good { result ≢ SessionEnd.Write → W.has_failed writer.new ≡ W.has_failed writer.old }
    ensures kept { result ≢ SessionEnd.Unkept → T.is_good responder.new }
    ensures unkept { result ≡ SessionEnd.Unkept → T.is_unkept responder.new }
{
    let bytes = line.as_slice();
    if bytes.is_empty() {
        return SessionEnd::EndOfInput;
    }
    match answer_line(alloc, responder, writer, line.number(), parse_line(bytes)) {
        Some(end) => end,
        None => SessionEnd::EndOfInput,
    }
}

/// Enters one byte: a line feed ends a line, which is answered; any other byte is kept. Gives the session's end, if
/// that was it.
fn enter_byte<T: Responder, W: Sink>(
    alloc: Global,
    responder: &mut T,
    writer: &mut W,
    line: &mut LineBuffer,
    byte: u8,
) -> Option<SessionEnd>
    requires { T.is_good responder.old }
    ensures byte { EntersByte T.responds (byte == line_feed) byte result line.old line.new responder.old responder.new
        (W.received writer.old) (W.received writer.new) }
    ensures write { result ≡ Some SessionEnd.Write → IsTrue (W.has_failed writer.new) }
    ensures good { result ≢ Some SessionEnd.Write → W.has_failed writer.new ≡ W.has_failed writer.old }
    ensures kept { result ≢ Some SessionEnd.Unkept → T.is_good responder.new }
    ensures unkept { result ≡ Some SessionEnd.Unkept → T.is_unkept responder.new }
{
    if byte != b'\n' {
        line.push(byte);
        return None;
    }
    let said = parse_line(without_carriage_return(line.as_slice()));
    let number = line.number();
    line.begin_next();
    answer_line(alloc, responder, writer, number, said)
}

/// Answers lines until QUIT, the end of input, a failure or the bound. A byte is read only when the reply to the line
/// before it is written.
pub fn answer_lines<R: Source, T: Responder, W: Sink>(
    alloc: Global,
    responder: &mut T,
    reader: &mut R,
    writer: &mut W,
) -> SessionEnd
    requires { T.is_good responder.old }
    ensures session { SessionDid (AnsweredAll T.responds) result (R.left reader.old) (R.left reader.new)
        (W.received writer.old) (W.received writer.new) responder.old responder.new }
    ensures read { result ≡ SessionEnd.Read → IsTrue (R.has_failed reader.new) }
    ensures write { result ≡ SessionEnd.Write → IsTrue (W.has_failed writer.new) }

    // Any other end means that no read and no write failed, and that the source hadn't failed before.
    ensures good_read { result ≢ SessionEnd.Read → R.has_failed reader.new ≡ false }
    ensures good_write { result ≢ SessionEnd.Write → W.has_failed writer.new ≡ W.has_failed writer.old }

    // A console ends as unkept exactly after a line that wasn't kept.
    ensures kept { result ≢ SessionEnd.Unkept → T.is_good responder.new }
    ensures unkept { result ≡ SessionEnd.Unkept → T.is_unkept responder.new }
{
    if reader.has_failed() {
        return SessionEnd::Read;
    }
    let mut line = LineBuffer::new();
    for _read in 0..MOST_BYTES {
        match reader.next_byte() {
            Ok(Some(byte)) => {
                if let Some(end) = enter_byte(alloc, responder, writer, &mut line, byte) {
                    return end;
                }
            }
            Ok(None) => return answer_last(alloc, responder, writer, &line),
            Err(_) => return SessionEnd::Read,
        }
    }
    SessionEnd::Bound
}
