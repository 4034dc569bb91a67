//! What the d-character of a carriage control asks for, and the tape.
ghost use Rattle.std.specs.Prelude.{◌≡◌, ◌≤◌, Ok, Err, IfOk, IfErr, option_map};
ghost use Rattle.devices_1401.specs.Control.{line_of_channel, is_immediate, skip_by, space_by, movement_of};
ghost use Rattle.devices_1401.specs.Movement.{count_of, line_of_hole, control_of};

use crate::fault::ControlFault;
use bcd_1401::Char;

/// How many lines a space moves the carriage.
#[derive(Clone, Copy, Debug, PartialEq, Eq)]
pub enum Spaces {
    /// One line.
    One,
    /// Two lines.
    Two,
    /// Three lines.
    Three,
}

/// A hole of the tape, by its channel.
#[derive(Clone, Copy, Debug, PartialEq, Eq)]
pub enum Hole {
    /// The hole of channel 1.
    First,
    /// The hole of channel 9.
    Ninth,
    /// The hole of channel 12.
    Twelfth,
}

/// A movement of the carriage.
#[derive(Clone, Copy, Debug, PartialEq, Eq)]
pub enum Movement {
    /// A number of lines on.
    SpaceBy(Spaces),
    /// To the line of a hole.
    SkipTo(Hole),
}

/// What a d-character asks for.
#[derive(Clone, Copy)]
pub(crate) struct Control {
    /// The movement.
    pub(crate) movement: Movement,
    /// Whether it is done now, and not after the next print.
    pub(crate) immediate: bool,
}

impl Spaces {
    /// How many lines, 1 to 3.
    pub fn count(self) -> u32
        ensures value { result ≡ count_of self }
        ensures least { 1 ≤ result }
        ensures most { result ≤ 3 }
    {
        match self {
            Spaces::One => 1,
            Spaces::Two => 2,
            Spaces::Three => 3,
        }
    }
}

impl Hole {
    /// The hole of a channel; `None` if the tape has no hole for it.
    pub(crate) fn of_channel(channel: u8) -> Option<Hole>
        ensures { line_of_channel channel ≡ option_map line_of_hole result }
    {
        match channel {
            1 => Some(Hole::First),
            9 => Some(Hole::Ninth),
            12 => Some(Hole::Twelfth),
            _ => None,
        }
    }

    /// The line of the hole, 1 to 66.
    pub fn line(self) -> u32
        ensures value { result ≡ line_of_hole self }
        ensures least { 1 ≤ result }
        ensures most { result ≤ 66 }
    {
        match self {
            Hole::First => 4,
            Hole::Ninth => 60,
            Hole::Twelfth => 63,
        }
    }
}

impl Control {
    /// What a d-character asks for.
    ///
    /// # Errors
    ///
    /// `DChar` if it asks for nothing; `Carriage` if it asks for a skip to a channel without a hole.
    pub(crate) fn of(char: Char) -> Result<Control, ControlFault>
        ensures ok { IfOk result (λ control. movement_of char ≡ Ok (control_of control.movement)) }
        ensures immediate { IfOk result (λ control. control.immediate ≡ is_immediate char) }
        ensures err { IfErr result (λ fault. movement_of char ≡ Err fault) }
    {
        let low = char.code() % 16;
        match char.zone() {
            0 => Ok(Control {
                movement: skip(low)?,
                immediate: true,
            }),
            1 => Ok(Control {
                movement: space(low)?,
                immediate: false,
            }),
            2 => Ok(Control {
                movement: space(low)?,
                immediate: true,
            }),
            _ => Ok(Control {
                movement: skip(low)?,
                immediate: false,
            }),
        }
    }
}

/// A skip to the channel of these low bits, 1 to 12.
fn skip(low: u8) -> Result<Movement, ControlFault>
    ensures ok { IfOk result (λ movement. skip_by low ≡ Ok (control_of movement)) }
    ensures err { IfErr result (λ fault. skip_by low ≡ Err fault) }
{
    if low < 1 || low > 12 {
        return Err(ControlFault::DChar);
    }
    match Hole::of_channel(low) {
        Some(hole) => Ok(Movement::SkipTo(hole)),
        None => Err(ControlFault::Carriage),
    }
}

/// As many spaces as these low bits say, 1 to 3.
fn space(low: u8) -> Result<Movement, ControlFault>
    ensures ok { IfOk result (λ movement. space_by low ≡ Ok (control_of movement)) }
    ensures err { IfErr result (λ fault. space_by low ≡ Err fault) }
{
    match low {
        1 => Ok(Movement::SpaceBy(Spaces::One)),
        2 => Ok(Movement::SpaceBy(Spaces::Two)),
        3 => Ok(Movement::SpaceBy(Spaces::Three)),
        _ => Err(ControlFault::DChar),
    }
}
