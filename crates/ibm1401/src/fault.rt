//! What a run of the program may fail by, and the status that it ends with.
ghost use Rattle.std.specs.Prelude.{◌≡◌};
ghost use Rattle.ibm1401.specs.Status.{run_status, status_of};

use clap::Error as Refusal;
use program_convert::{AssembleFault, ReelFault};
use program_operate::OperateFault;
use program_rooms::{HoldFault, OpenFault};
use program_run::RunFault;
use thiserror::Error;

/// The status of a command line that can't be read, or that names one file twice.
const MISUSED: u8 = 2;

/// The status of a run that failed.
const FAILED: u8 = 1;

/// What a run of the program may fail by. Each is one line on standard error, but for `Usage`, the faults of a source,
/// which have texts of their own, and those of a person's lines, which standard output has.
#[derive(Debug, Drop, Error)]
pub enum Fault {
    /// A word of the command line isn't UTF-8.
    #[error("command line refused: it isn't UTF-8")]
    Text,
    /// The command line asks for nothing that the program does.
    #[error("{0}")]
    Usage(Refusal),
    /// Standard output didn't take the help that was asked for.
    #[error("cannot write")]
    Output,
    /// Memory was refused for what the command line says.
    #[error("memory refused")]
    Memory,
    /// A source isn't assembled, or an image isn't listed, or what is made of it isn't written.
    #[error("{0}")]
    Assemble(AssembleFault),
    /// A reel isn't listed, or what is made of it, or what it is made of, isn't read or written.
    #[error("{0}")]
    Reel(ReelFault),
    /// A run of a program with its deck was refused, broke off, or ended otherwise than by a halt.
    #[error("{0}")]
    Run(RunFault),
    /// A person's console isn't begun, or ended so.
    #[error("{0}")]
    Operate(OperateFault),
    /// The deck of this file has this many cards.
    #[error("{0}: {1} cards are more than the hopper holds")]
    Hopper(String, u64),
    /// No session was held, or it ended so; or a journal isn't shown.
    #[error("{0}")]
    Hold(HoldFault),
    /// No room was opened to operators, or this went wrong in it.
    #[error("{0}")]
    Open(OpenFault),
}

impl Fault {
    /// The exit status.
    pub fn status(&self) -> u8
        ensures { result ≡ status_of self.now }
    {
        match self {
            Fault::Text | Fault::Usage(_) => MISUSED,
            Fault::Assemble(AssembleFault::OneFile(..)) | Fault::Run(RunFault::OneFile(..)) => {
                MISUSED
            }
            Fault::Reel(ReelFault::OneFile(..)) => MISUSED,
            Fault::Output | Fault::Memory => FAILED,
            Fault::Assemble(_) | Fault::Run(_) | Fault::Hopper(..) => FAILED,
            Fault::Reel(_) => FAILED,
            Fault::Hold(_) | Fault::Open(_) | Fault::Operate(_) => FAILED,
        }
    }
}

/// Tells on standard error what a run failed by, and gives the exit status, which is the same if standard error
/// doesn't take the text.
pub fn report(rt: &impl Eprint, outcome: Result<(), Fault>) -> u8
    ensures { result ≡ run_status outcome }
{
    let Err(fault) = outcome else {
        return 0;
    };
    let status = fault.status();
    let _ = match &fault {
        Fault::Usage(refusal) => rt.eprint(refusal),
        Fault::Assemble(AssembleFault::Faulty(lines)) => rt.eprint(lines),
        // Its line was answered with it.
        Fault::Operate(OperateFault::Faulty) => Ok(()),
        fault => eprintln!(rt; "ibm1401: {fault}"),
    };
    status
}
