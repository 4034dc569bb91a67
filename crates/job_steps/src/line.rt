//! What a line of the trace tells of registers, devices and stops.
ghost use Rattle.std.specs.Prelude.{◌≡◌, ◌++◌, codes};
ghost use Rattle.bytes_text.specs.Written.{Adds};
ghost use Rattle.devices_1401.specs.Movement.{control_of};
ghost use Rattle.job_steps.specs.TraceLine.{is_same_movement, position_text, stop_text, tape_text, text_if};
ghost use Rattle.job_steps.specs.TraceLine.{waiting_text};

use crate::work::TapeMark;
use bytes_text::{Piece, Text};
use cpu_1401::Stop;
use devices_1401::Movement;

/// Adds words, a form and a line of it.
#[tactic(auto, unfolding(crate::specs::TraceLine::position_text))]
pub(crate) fn put_position(text: &mut Text, words: &[u8], form: u16, line: u8)
    ensures { Adds text.old text.new (words.now ++ position_text form line) }
{
    text.put_pieces(&[
        Piece::Text(words),
        Piece::Number(4, form),
        Piece::Text(b"/"),
        Piece::Number(2, line as u16),
    ]);
}

/// Adds a tape unit and how far its reel is, if there is one.
#[tactic(auto, unfolding(crate::specs::TraceLine::tape_text))]
pub(crate) fn put_tape(text: &mut Text, tape: Option<TapeMark>)
    ensures { Adds text.old text.new (tape_text tape) }
{
    match tape {
        Some(mark) => text.put_pieces(&[
            Piece::Text(b"\tTAPE "),
            Piece::Small(mark.unit),
            Piece::Text(b" RECORD "),
            Piece::Count(mark.passed),
        ]),
        None => (),
    }
}

/// Whether two movements of the carriage are the same.
pub(crate) fn is_same_movement(one: Movement, other: Movement) -> bool
    ensures { result ≡ is_same_movement (control_of one) (control_of other) }
{
    match (one, other) {
        (Movement::SpaceBy(spaces), Movement::SpaceBy(others)) => spaces.count() == others.count(),
        (Movement::SpaceBy(_), Movement::SkipTo(_)) => false,
        (Movement::SkipTo(_), Movement::SpaceBy(_)) => false,
        (Movement::SkipTo(hole), Movement::SkipTo(other)) => hole.line() == other.line(),
    }
}

/// Adds a movement that waits for the next print, by the number of lines or by the line of the form.
#[tactic(auto, unfolding(crate::specs::TraceLine::movement_text, crate::specs::TraceLine::waiting_text))]
pub(crate) fn put_waiting(text: &mut Text, movement: Movement)
    ensures { Adds text.old text.new (waiting_text (control_of movement)) }
{
    match movement {
        Movement::SpaceBy(spaces) => {
            text.put(b"\tPENDING SPACE ");
            text.put_number(1, u64::from(spaces.count()));
        }
        Movement::SkipTo(hole) => {
            text.put(b"\tPENDING SKIP ");
            text.put_number(2, u64::from(hole.line()));
        }
    }
}

/// Adds words, if there is cause for them.
pub(crate) fn put_if(text: &mut Text, holds: bool, words: &[u8])
    ensures { Adds text.old text.new (text_if holds words.now) }
{
    if holds {
        text.put(words);
    }
}

/// Adds the name of a stop, if there is one, and ends the line.
pub(crate) fn put_end(text: &mut Text, stop: Option<Stop>)
    ensures { Adds text.old text.new (stop_text stop ++ codes "\n") }
{
    if let Some(why) = stop {
        text.put_byte(b'\t');
        text.put(why.name().as_bytes());
    }
    text.put_byte(b'\n');
}
