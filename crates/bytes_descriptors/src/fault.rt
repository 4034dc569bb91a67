//! Why a file can't be read or written.

use std::io::ErrorKind;
use thiserror::Error;

/// Why a file can't be read.
#[derive(Clone, Copy, Debug, Error)]
pub enum FileFault {
    /// There is no file of this name.
    #[error("no such file")]
    NotThere,
    /// The name is that of a folder.
    #[error("is a folder")]
    Folder,
    /// The file may not be read.
    #[error("permission denied")]
    Denied,
    /// The file is larger than any program or deck may be, or any reel: it has more bytes than this.
    #[error("is larger than {0} bytes")]
    TooLong(u64),
    /// The system can't read the file.
    #[error("cannot be read")]
    Unreadable,
    /// The memory for the bytes of the file was refused.
    #[error("memory refused")]
    Memory,
}

/// Why a file isn't written that takes no other file's place.
#[derive(Clone, Copy, Debug, Error)]
pub enum NewFault {
    /// Another file has this name already, which would be overwritten.
    #[error("already exists")]
    Exists,
    /// The file can't be made or written.
    #[error("cannot be written")]
    Unwritten,
    /// The memory for a file's name was refused.
    #[error("memory refused")]
    Memory,
}

/// Why a file isn't written.
#[derive(Clone, Copy, Debug, Error)]
pub enum WriteFault {
    /// The file can't be made or written.
    #[error("cannot be written")]
    Unwritten,
    /// The memory for a file's name was refused.
    #[error("memory refused")]
    Memory,
}

/// Why a file that takes no other file's place isn't written, by what the system says.
pub(crate) fn new_fault(kind: ErrorKind) -> NewFault {
    match kind {
        ErrorKind::AlreadyExists => NewFault::Exists,
        ErrorKind::OutOfMemory => NewFault::Memory,
        _ => NewFault::Unwritten,
    }
}

/// Why a file isn't written, by what the system says.
pub(crate) fn write_fault(kind: ErrorKind) -> WriteFault {
    match kind {
        ErrorKind::OutOfMemory => WriteFault::Memory,
        _ => WriteFault::Unwritten,
    }
}
