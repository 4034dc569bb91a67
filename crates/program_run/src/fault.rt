//! Why a run is refused, or ends otherwise than by a halt.
ghost use Rattle.std.specs.Prelude.{◌≡◌};
ghost use Rattle.program_run.specs.Run.{job_outcome};

use crate::ending::Ending;
use autocoder_1401::AsmFault;
use autocoder_deck::LoadFault;
use bytes_descriptors::FileFault;
use cpu_1401::Stop;
use job_runner::DeckTextFault;
use machine_image::ImageFault;
use machine_tapes::TapFault;
use thiserror::Error;

/// What a run may fail by.
#[derive(Debug, Drop, Error)]
pub enum RunFault {
    /// Standard output didn't take the paper.
    #[error("cannot write")]
    Output,
    /// No core storage of the size named is made.
    #[error("size refused")]
    Size,
    /// The program or the deck can't be read from the file of this name.
    #[error("{0}: {1}")]
    File(String, FileFault),
    /// The file of this name can't be made or written.
    #[error("cannot write {0}")]
    Unwritten(String),
    /// These names lead to one file, and the second is one of a file that is written.
    #[error("{0} and {1} are one file")]
    OneFile(String, String),
    /// The file of this name is no deck.
    #[error("{0}: {1}")]
    Deck(String, DeckTextFault),
    /// The deck whose image is asked for doesn't load itself.
    #[error("the deck isn't loaded: {0}")]
    Unloaded(LoadFault),
    /// The machine stopped otherwise than by a halt.
    #[error("{0}")]
    Stopped(Ending),
    /// The file has no source that can be assembled.
    #[error("{0}")]
    Source(AsmFault),
    /// The file has no image's text.
    #[error("image refused: {0}")]
    Image(ImageFault),
    /// The file of this name has no reel's text.
    #[error("{0}: reel refused: {1}")]
    Reel(String, TapFault),
    /// There is a file of this name already, which a new reel would overwrite.
    #[error("{0}: already exists")]
    Exists(String),
    /// The name of a reel's file has become another file's, or nothing's, since it was read; the reel was written to the
    /// file of the second name.
    #[error("{0} is no longer the file that was read: its reel is in {1}")]
    Replaced(String, String),
    /// Memory was refused.
    #[error("memory refused")]
    Memory,
}

/// What a job's end means for its run.
///
/// # Errors
///
/// Any stop but a halt.
pub fn job_outcome(ending: Ending) -> Result<(), RunFault>
    ensures { result ≡ job_outcome ending }
{
    match ending.report.stop {
        Stop::Halt => Ok(()),
        Stop::Limit | Stop::Reader | Stop::Forms | Stop::Stacker => Err(RunFault::Stopped(ending)),
        Stop::NoMark | Stop::OpCode | Stop::Length => Err(RunFault::Stopped(ending)),
        Stop::Address | Stop::Overlap | Stop::Carriage => Err(RunFault::Stopped(ending)),
        Stop::NotFitted | Stop::DChar | Stop::Tape => Err(RunFault::Stopped(ending)),
    }
}
