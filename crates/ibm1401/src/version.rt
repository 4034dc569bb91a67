//! Name, version, and the record of the build.
ghost use Rattle.std.specs.Prelude.{◌≡◌, ◌⊎◌, OnErr};

use crate::fault::Fault;
use bytes_descriptors::{FileFault, read_whole};
use clap::Error;
use std::rt::Files;
use std::str;

/// The program's own file. A build writes its record after the program, where nothing is loaded from.
const OWN_FILE: &str = "/proc/self/exe";

/// What a record begins with.
const RECORD: &str = "commit ";

/// What a program without a record says.
const NO_RECORD: &str = "built without a record of its commit\n";

/// What it says if its file can't be read.
const UNREAD: &str = "the record of its commit cannot be read\n";

/// The record at the end of a program's file: the text after the last zero byte, with which a program ends.
fn record_in(file: &[u8]) -> &str {
    let last = file.rsplit(|byte| *byte == 0).next();
    match str::from_utf8(last.unwrap_or(file)) {
        Ok(text) if text.starts_with(RECORD) => text,
        _ => NO_RECORD,
    }
}

/// Prints name and version, and then what the build has recorded: the commit, and the toolchain that proved it.
///
/// # Errors
///
/// `Output` if standard output doesn't take the text, or `Memory`.
pub fn print_version(rt: &(impl Print + Files + AllocGlobal), version: Error) -> Result<(), Fault>
    ensures { OnErr result ((result ≡ Err Fault.Output) ⊎ (result ≡ Err Fault.Memory)) }
{
    let file = read_whole(rt, OWN_FILE);
    let record = match &file {
        Ok(bytes) => record_in(bytes.as_slice()),
        Err(FileFault::Memory) => return Err(Fault::Memory),
        Err(_) => UNREAD,
    };
    rt.print(version).map_err(|_| Fault::Output)?;
    rt.print(record).map_err(|_| Fault::Output)
}
