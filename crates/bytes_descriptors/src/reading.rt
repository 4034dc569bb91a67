//! A file that is read whole.
ghost use Rattle.std.specs.Prelude.{◌≤◌, length, IfOk};
ghost use Rattle.bytes_descriptors.specs.FileSize.{most_bytes, most_reel_bytes};

use crate::fault::FileFault;
use std::fs::{Metadata, OpenFile};
use std::io::{ErrorKind, Read};
use std::rt::Files;
use std::{fs, io};

/// The most bytes that a file may have.
const MOST_BYTES: u64 = 16_777_216;

/// The most bytes that the file of a reel may have.
const MOST_REEL_BYTES: u64 = 268_435_456;

/// What was read of a file, and which file that was.
#[derive(Drop)]
pub struct ReadFile {
    /// Its bytes.
    pub bytes: Vec<u8>,
    /// What the system says of it; `put_back` replaces this file and no other.
    pub metadata: Metadata,
}

/// The bytes of the file of this name. Of a file that is too long, one byte more than it may have is read, and no
/// other.
///
/// # Errors
///
/// Why it can't be read; `Memory` if there is no room for it.
pub fn read_whole(rt: &(impl Files + AllocGlobal), name: &str) -> Result<Vec<u8>, FileFault>
    ensures most { IfOk result (λ bytes. length bytes.items ≤ most_bytes) }
{
    match read_up_to(rt, name, MOST_BYTES) {
        Ok(read) => Ok(read.bytes),
        Err(fault) => Err(fault),
    }
}

/// The file of a reel of this name, which may have 268,435,456 bytes: as `read_whole`.
///
/// # Errors
///
/// As of `read_whole`.
pub fn read_whole_reel(rt: &(impl Files + AllocGlobal), name: &str) -> Result<ReadFile, FileFault>
    ensures most { IfOk result (λ read. length read.bytes.items ≤ most_reel_bytes) }
{
    read_up_to(rt, name, MOST_REEL_BYTES)
}

/// A file that may have this many bytes.
fn read_up_to(rt: &(impl Files + AllocGlobal), name: &str, most: u64) -> Result<ReadFile, FileFault>
    ensures { IfOk result (λ read. length read.bytes.items ≤ most) }
{
    match read_from(rt, name, most) {
        Ok(read) if read.bytes.len() as u64 <= most => Ok(read),
        Ok(_) => Err(FileFault::TooLong(most)),
        Err(error) => Err(read_fault(error.kind())),
    }
}

/// Why a file can't be read, by what the system says.
fn read_fault(kind: ErrorKind) -> FileFault {
    match kind {
        ErrorKind::NotFound | ErrorKind::NotADirectory => FileFault::NotThere,
        ErrorKind::IsADirectory => FileFault::Folder,
        ErrorKind::PermissionDenied => FileFault::Denied,
        ErrorKind::OutOfMemory => FileFault::Memory,
        _ => FileFault::Unreadable,
    }
}

/// The first bytes of a file: one more than it may have, if it has as many.
fn read_from(rt: &(impl Files + AllocGlobal), name: &str, most: u64) -> io::Result<ReadFile> {
    let mut bytes = Vec::new(rt.alloc());
    let file = fs::open(rt, name)?;
    let metadata = file.metadata()?;
    file.take(most.saturating_add(1)).read_to_end(&mut bytes)?;
    Ok(ReadFile { bytes, metadata })
}
