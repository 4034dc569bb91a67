//! Why a person's console isn't begun, or how it ended.
ghost use Rattle.std.specs.Prelude.{◌≡◌, ◌≢◌};
ghost use Rattle.program_operate.specs.Outcome.{failed_by, outcome};

use operate_console::{Failure, OperateEnd};
use program_rooms::HoldFault;
use program_run::RunFault;
use room_alone::{RoomFault, SessionFault};
use thiserror::Error;

/// What a person's console may fail by.
#[derive(Debug, Drop, Error)]
pub enum OperateFault {
    /// No core storage of the size named is made.
    #[error("size refused: core storage has 1400, 2000, 4000, 8000, 12000 or 16000 places")]
    Size,
    /// The program or a deck isn't read, as `run` reports it.
    #[error("{0}")]
    Run(RunFault),
    /// There is no room, its journal isn't kept, or the console ended so, as `console` reports it.
    #[error("{0}")]
    Hold(HoldFault),
    /// The file of this name, which was to have labels, has an image.
    #[error("{0}: an image has no labels")]
    NoLabels(String),
    /// The file of this name, which was to have the first lines, is a pipe or a device: reading it might never end.
    #[error("{0}: is not a regular file")]
    Irregular(String),
    /// A write of a transcript failed. That was reported at once.
    #[error("a transcript is not whole")]
    Transcript,
    /// A line had a fault, or what it asserted isn't so. Its answer says which.
    #[error("a line had a fault")]
    Faulty,
}

/// Why a command that makes a room ready isn't carried out.
pub(crate) fn unready(fault: RoomFault) -> OperateFault
    ensures { result ≢ OperateFault.Faulty }
{
    match fault {
        RoomFault::JournalFull => OperateFault::Hold(HoldFault::JournalFull),
        RoomFault::Memory | RoomFault::NoReading | RoomFault::Unkept => OperateFault::Hold(
            HoldFault::Memory,
        ),
    }
}

/// How a console ended by a failure is reported.
fn ended_by(failure: Failure) -> HoldFault
    ensures { result ≡ failed_by failure }
{
    match failure {
        Failure::Write => HoldFault::Output,
        Failure::Read => HoldFault::Session(SessionFault::Read),
        Failure::Bound => HoldFault::Session(SessionFault::Bound),
        Failure::Memory => HoldFault::Session(SessionFault::Memory),
        Failure::Unkept => HoldFault::Session(SessionFault::Unkept),
    }
}

/// What the end of a console means for the program, if the faults of its lines count or don't.
///
/// # Errors
///
/// `Faulty` for faults that count, or what the console ended with but `quit` and the end of the input.
pub(crate) fn ended(end: OperateEnd, counts: bool) -> Result<(), OperateFault>
    ensures { result ≡ outcome counts end }
{
    match end {
        OperateEnd::Quit | OperateEnd::EndOfInput => {
            if counts {
                Err(OperateFault::Faulty)
            } else {
                Ok(())
            }
        }
        OperateEnd::Failed(failure) => Err(OperateFault::Hold(ended_by(failure))),
    }
}
