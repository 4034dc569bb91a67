//! Why no session is held, or how it ended.
ghost use Rattle.std.specs.Prelude.{◌≡◌};
ghost use Rattle.room_alone.specs.Console.{outcome_of};
ghost use Rattle.program_rooms.specs.Ended.{console_fault, session_outcome};

use machine_image::ImageFault;
use room_alone::{ConsoleFault, SessionEnd, SessionFault};
use room_files::KeepFault;
use thiserror::Error;

/// What a session may fail by.
#[derive(Debug, Drop, Error)]
pub enum HoldFault {
    /// No core storage of the size named is made.
    #[error("size refused")]
    Size,
    /// The file of this name can't be read, or is longer than any image.
    #[error("cannot read {0}")]
    Unread(String),
    /// The file has no image's text.
    #[error("image refused: {0}")]
    Image(ImageFault),
    /// The journal has no place for all commands that load the image.
    #[error("journal full")]
    JournalFull,
    /// Memory was refused before the session.
    #[error("memory refused")]
    Memory,
    /// Standard output didn't take the report of a journal.
    #[error("cannot write")]
    Output,
    /// A session ended so.
    #[error("{0}")]
    Session(SessionFault),
    /// A journal isn't kept, or isn't taken up.
    #[error("{0}")]
    Kept(KeepFault),
}

/// What the fault of a session on a new machine means for a program.
pub(crate) fn console_fault(fault: ConsoleFault) -> HoldFault
    ensures { result ≡ console_fault fault }
{
    match fault {
        ConsoleFault::Size => HoldFault::Size,
        ConsoleFault::Memory => HoldFault::Memory,
        ConsoleFault::Ended(fault) => HoldFault::Session(fault),
    }
}

/// What a session's end means for a program.
///
/// # Errors
///
/// `Session` with any end but QUIT and the end of the input.
pub fn ended(end: SessionEnd) -> Result<(), HoldFault>
    ensures { result ≡ session_outcome (outcome_of end) }
{
    room_alone::ended(end).map_err(HoldFault::Session)
}
