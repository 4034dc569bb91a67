//! What a session's end is for a program, and why there was none.
ghost use Rattle.std.specs.Prelude.{◌≡◌};
ghost use Rattle.room_alone.specs.Console.{outcome_of};

use crate::SessionEnd;
use thiserror::Error;

/// How a session ended, if neither by QUIT nor by the end of its input.
#[derive(Clone, Copy, Debug, Error)]
pub enum SessionFault {
    /// A read failed.
    #[error("session ended: READ")]
    Read,
    /// A write failed, or took nothing.
    #[error("session ended: WRITE")]
    Write,
    /// As many bytes were read as a session may read.
    #[error("session ended: BOUND")]
    Bound,
    /// The memory for a reply was refused.
    #[error("session ended: MEMORY")]
    Memory,
    /// An entry of the journal wasn't kept.
    #[error("session ended: UNKEPT")]
    Unkept,
}

/// Why no session was held on a new machine, or how it ended.
#[derive(Clone, Copy, Debug, Error)]
pub enum ConsoleFault {
    /// No core storage of the size named is made.
    #[error("size refused")]
    Size,
    /// Memory was refused before the session.
    #[error("memory refused")]
    Memory,
    /// The session ended so.
    #[error("{0}")]
    Ended(SessionFault),
}

/// What a session's end is for a program: QUIT and the end of the input are good.
///
/// # Errors
///
/// That of the same name as any other end.
pub fn ended(end: SessionEnd) -> Result<(), SessionFault>
    ensures { result ≡ outcome_of end }
{
    match end {
        SessionEnd::Quit | SessionEnd::EndOfInput => Ok(()),
        SessionEnd::Read => Err(SessionFault::Read),
        SessionEnd::Write => Err(SessionFault::Write),
        SessionEnd::Bound => Err(SessionFault::Bound),
        SessionEnd::Memory => Err(SessionFault::Memory),
        SessionEnd::Unkept => Err(SessionFault::Unkept),
    }
}
