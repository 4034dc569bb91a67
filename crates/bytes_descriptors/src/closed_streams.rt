//! Standard streams that are closed.

use std::fs;
use std::fs::File;
use std::os::fd::AsRawFd;
use std::rt::Files;

/// How many standard streams there are; they have the first places of the files that are open.
const STREAMS: i32 = 3;

/// Keeps the places of standard streams that are closed: no file that is opened takes one. Reads and writes of such a
/// stream fail.
#[derive(Drop)]
pub struct HeldStreams {
    _first: Option<File>,
    _second: Option<File>,
    _third: Option<File>,
}

/// Takes the places of standard streams that are closed, and no others.
pub fn hold_closed_streams(rt: &impl Files<File = File>) -> HeldStreams {
    // The system gives an opened file the lowest place that is free.
    HeldStreams {
        _first: hold_one(rt),
        _second: hold_one(rt),
        _third: hold_one(rt),
    }
}

/// Takes the lowest place that is free, if it is that of a standard stream. A folder takes no bytes and gives none.
fn hold_one(rt: &impl Files<File = File>) -> Option<File> {
    match fs::open(rt, "/") {
        Ok(file) if file.as_raw_fd() < STREAMS => Some(file),
        _ => None,
    }
}
