//! The input by which a served room is closed.
ghost use Rattle.std.specs.Prelude.{◌≡◌, ◌≢◌, ◌↔◌, IsTrue};
ghost use Rattle.std.specs.Io.KnownBytes.{IsAtEnd};
ghost use Rattle.serving_room.specs.Input.{SaysNoQuit, SaysQuit, has_quit, match_more as matched_after};

use bytes_streams::Source;
use std::sync::Wait;

/// The line that closes the room, and the carriage return that it may end with.
const QUIT_RETURN: [u8; 5] = *b"QUIT\r";

/// How many bytes QUIT has.
const QUIT_LEN: u8 = 4;

/// How the input ended.
#[derive(Clone, Copy)]
pub(crate) enum InputEnd {
    /// A line said QUIT.
    Quit,
    /// There is no more input.
    End,
    /// A read failed.
    Failed,
}

/// Reads the input until a line says QUIT and nothing else, or to its end. A line may end with a carriage return too,
/// as at the console. Every other line is passed over, an empty one too.
pub(crate) fn read_to_quit<R: Wait, S: Source>(wait: &R, input: &mut S) -> InputEnd
    ensures quit { result ≡ InputEnd.Quit → SaysQuit (S.left input.old) (S.left input.new) }

    // If it ends otherwise, no line of what was read said QUIT.
    ensures other { result ≢ InputEnd.Quit → SaysNoQuit (S.left input.old) (S.left input.new) }
    ensures end { result ≡ InputEnd.End → IsAtEnd (S.left input.new) }
    ensures failed { (result ≡ InputEnd.Failed) ↔ IsTrue (S.has_failed input.new) }
{
    if input.has_failed() {
        return InputEnd::Failed;
    }
    let mut matched = Some(0);
    for _ in wait.forever() {
        match input.next_byte() {
            Ok(Some(b'\n')) => {
                if is_quit(matched) {
                    return InputEnd::Quit;
                }
                matched = Some(0);
            }
            Ok(Some(byte)) => matched = match_more(matched, byte),
            Ok(None) => return InputEnd::End,
            Err(_) => return InputEnd::Failed,
        }
    }
    unreachable!()
}

/// Whether a line of which this much is matched is QUIT, with a carriage return or without one.
fn is_quit(matched: Option<u8>) -> bool
    ensures { result ≡ has_quit matched }
{
    match matched {
        Some(count) => count >= QUIT_LEN,
        None => false,
    }
}

/// How many bytes of QUIT and a carriage return have matched after this byte, if all of the line has.
fn match_more(matched: Option<u8>, byte: u8) -> Option<u8>
    ensures { result ≡ matched_after matched byte }
{
    let count = matched?;
    if count < 5 && QUIT_RETURN[usize::from(count)] == byte {
        Some(count + 1)
    } else {
        None
    }
}
