//! What the program tells of a command line that names no subcommand.
ghost use Rattle.std.specs.Prelude.{◌≡◌, ◌≢◌, OnErr};
ghost use Rattle.clap.specs.Values.{kind_of};

use crate::fault::Fault;
use crate::version::print_version;
use clap::Error;
use clap::error::ErrorKind;
use std::rt::Files;

/// Prints what a parse of the command line answers if it asks for no subcommand: the text of the help, or the version.
///
/// # Errors
///
/// `Output` if standard output doesn't take the text; `Usage` if the parse asks for none, or `Memory`.
pub fn tell(rt: &(impl Print + Files + AllocGlobal), error: Error) -> Result<(), Fault>
    ensures help { kind_of error ≡ ErrorKind.DisplayHelp → OnErr result (result ≡ Err Fault.Output) }
    ensures memory { kind_of error ≡ ErrorKind.OutOfMemory → result ≡ Err Fault.Memory }
    ensures usage { kind_of error ≢ ErrorKind.DisplayHelp → kind_of error ≢ ErrorKind.DisplayVersion
        → kind_of error ≢ ErrorKind.OutOfMemory → result ≡ Err (Fault.Usage error) }
{
    match error.kind() {
        ErrorKind::OutOfMemory => Err(Fault::Memory),
        ErrorKind::DisplayHelp => rt.print(error).map_err(|_| Fault::Output),
        ErrorKind::DisplayVersion => print_version(rt, error),
        _ => Err(Fault::Usage(error)),
    }
}
