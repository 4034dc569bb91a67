//! The movement of the carriage: forms of 66 lines, spaces and skips.
ghost use Rattle.std.specs.Prelude.{◌≡◌, ◌+◌, ◌<◌, ◌≤◌};
ghost use Rattle.devices_1401.specs.Carriage.{lines_of_form, positions, lines_to, position_after, IsMovedOn};
ghost use Rattle.devices_1401.specs.Movement.{control_of};

use crate::control::Movement;

/// How many lines a form has.
pub(crate) const LINES_OF_FORM: u32 = 66;

/// How many positions the carriage has: the lines of 10,000 forms.
pub(crate) const POSITIONS: u32 = 660_000;

/// How many lines a skip moves from a position to a line, 1 to 66: to the line of this form if it is greater than the
/// present one, else to the line of the next form.
fn lines_to(position: u32, line: u32) -> u32
    requires position { position < positions }
    requires least { 1 ≤ line }
    requires most { line ≤ lines_of_form }
    ensures value { result ≡ lines_to position line }
    ensures least { 1 ≤ result }
    ensures most { result ≤ lines_of_form }
{
    let present = position % LINES_OF_FORM + 1;
    if line > present {
        line - present
    } else {
        line + LINES_OF_FORM - present
    }
}

/// How far a movement brings the carriage: 1 to 66 lines.
#[tactic(auto, unfolding(crate::specs::Carriage::position_after))]
pub(crate) fn position_after(position: u32, movement: Movement) -> u32
    requires { position < positions }
    ensures value { result ≡ position_after (control_of movement) position }
    ensures range { result < positions }
    ensures on { IsMovedOn position result }
{
    let lines = match movement {
        Movement::SpaceBy(spaces) => spaces.count(),
        Movement::SkipTo(hole) => lines_to(position, hole.line()),
    };
    (position + lines) % POSITIONS
}
