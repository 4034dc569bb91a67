//! Why a journal isn't kept, or isn't taken up.
ghost use Rattle.std.specs.Prelude.{◌≡◌, ◌≢◌};

use crate::{JournalFault, Wrong};
use thiserror::Error;

/// Why the file of a journal can't be had.
#[derive(Clone, Copy, Debug, Error)]
pub enum JournalFileFault {
    /// There is a file of this name already, which a new journal would overwrite.
    #[error("already exists")]
    Exists,
    /// Another process keeps a journal in it.
    #[error("is in use")]
    InUse,
    /// There is no file of this name, or no folder for it.
    #[error("no such file")]
    NotThere,
    /// The name is that of a folder.
    #[error("is a folder")]
    Folder,
    /// The name is that of a pipe, a device or a socket, to which no line can be added.
    #[error("is not a regular file")]
    NoFile,
    /// The file may not be read or written.
    #[error("permission denied")]
    Denied,
    /// The file is larger than any journal.
    #[error("is larger than any journal")]
    TooLong,
    /// The system can't read the file.
    #[error("cannot be read")]
    Unreadable,
    /// The system can't write the file.
    #[error("cannot be written")]
    Unwritten,
    /// Memory was refused for the bytes of the file, or for a name.
    #[error("memory refused")]
    Memory,
}

/// Why the text of a journal so far isn't written.
#[derive(Clone, Copy, Debug, Error)]
pub enum TextFault {
    /// Memory was refused for the text.
    #[error("memory refused")]
    Memory,
    /// A write failed, or took nothing.
    #[error("cannot be written")]
    Unwritten,
}

/// Why a journal isn't kept, or isn't taken up.
#[derive(Debug, Drop, Error)]
pub enum KeepFault {
    /// Memory was refused.
    #[error("memory refused")]
    Memory,
    /// The file of this name can't be had.
    #[error("{0}: {1}")]
    File(String, JournalFileFault),
    /// The file of this name has no journal's text.
    #[error("{0}: {1}")]
    Journal(String, JournalFault),
    /// The journal has no entry of this number.
    #[error("there is no entry {0}")]
    NoEntry(u64),
}

impl KeepFault {
    /// Why the file of this name can't be had; want of memory is no fault of the file.
    pub fn of_file(name: String, fault: JournalFileFault) -> KeepFault
        ensures memory { fault ≡ JournalFileFault.Memory → result ≡ KeepFault.Memory }
        ensures file { fault ≢ JournalFileFault.Memory → result ≡ KeepFault.File name fault }
    {
        match fault {
            JournalFileFault::Memory => KeepFault::Memory,
            JournalFileFault::Exists | JournalFileFault::InUse | JournalFileFault::NotThere => {
                KeepFault::File(name, fault)
            }
            JournalFileFault::Folder | JournalFileFault::NoFile | JournalFileFault::Denied => {
                KeepFault::File(name, fault)
            }
            JournalFileFault::TooLong
            | JournalFileFault::Unreadable
            | JournalFileFault::Unwritten => { KeepFault::File(name, fault) }
        }
    }

    /// Why the text of a journal so far isn't in the new file of this name.
    pub fn of_text(name: String, fault: TextFault) -> KeepFault
        ensures memory { fault ≡ TextFault.Memory → result ≡ KeepFault.Memory }
        ensures unwritten { fault ≡ TextFault.Unwritten → result ≡ KeepFault.File name JournalFileFault.Unwritten }
    {
        match fault {
            TextFault::Memory => KeepFault::Memory,
            TextFault::Unwritten => KeepFault::File(name, JournalFileFault::Unwritten),
        }
    }

    /// Why the file of this name has no journal; want of memory is no fault of its text.
    pub fn of_journal(name: String, fault: JournalFault) -> KeepFault
        ensures memory { fault.why ≡ Wrong.Memory → result ≡ KeepFault.Memory }
        ensures journal { fault.why ≢ Wrong.Memory → result ≡ KeepFault.Journal name fault }
    {
        match fault.why {
            Wrong::Memory => KeepFault::Memory,
            Wrong::Header | Wrong::Number | Wrong::Seat | Wrong::Command => {
                KeepFault::Journal(name, fault)
            }
            Wrong::Answer | Wrong::Full | Wrong::Unfinished => KeepFault::Journal(name, fault),
        }
    }
}
