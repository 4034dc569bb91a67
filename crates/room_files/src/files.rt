//! The files of journals.
ghost use Rattle.std.specs.Prelude.{◌≡◌, false, IfOk};
ghost use Rattle.room_files.specs.JournalText.{journal_text};

use crate::fault::{JournalFileFault, KeepFault};
use crate::journal_file::{Durability, JournalFile};
use crate::recover_journal;
use bytes_streams::Sink;
use room_alone::{Entry, Room};
use std::alloc::Global;
use std::fs::{File, OpenFile, OpenOptions};
use std::io::{ErrorKind, Read};
use std::path::Path;
use std::rt::Files;

/// How many bytes of a file are read at most, which is more than the text of a full journal has.
const MOST_BYTES: u64 = 67_108_864;

/// Why a file can't be had, by what the system says; the last is for what it doesn't say.
pub(crate) fn file_fault(kind: ErrorKind, otherwise: JournalFileFault) -> JournalFileFault {
    match kind {
        ErrorKind::AlreadyExists => JournalFileFault::Exists,
        ErrorKind::NotFound | ErrorKind::NotADirectory => JournalFileFault::NotThere,
        ErrorKind::IsADirectory => JournalFileFault::Folder,
        ErrorKind::PermissionDenied | ErrorKind::ReadOnlyFilesystem => JournalFileFault::Denied,
        ErrorKind::OutOfMemory => JournalFileFault::Memory,
        _ => otherwise,
    }
}

/// Keeps other processes from keeping a journal in this file, as long as it is open.
pub(crate) fn lock(file: &File) -> Result<(), JournalFileFault> {
    match file.try_lock() {
        Ok(()) => Ok(()),
        Err(_) => Err(JournalFileFault::InUse),
    }
}

/// The folder that a file of this name is in.
fn folder_of(name: &str) -> &str {
    match Path::new(name).parent() {
        Some(folder) if !folder.as_str().is_empty() => folder.as_str(),
        _ => ".",
    }
}

/// Forces the name of a file onto the disk if that is asked for: the file's own bytes may be there without it.
pub(crate) fn keep_name(
    rt: &impl Files<File = File>,
    name: &str,
    durability: Durability,
) -> Result<(), JournalFileFault> {
    let synced = match durability {
        Durability::System => Ok(()),
        Durability::Disk => match File::open(rt, folder_of(name)) {
            Ok(folder) => folder.sync_all(),
            Err(error) => Err(error),
        },
    };
    synced.map_err(|error| file_fault(error.kind(), JournalFileFault::Unwritten))
}

/// All bytes of a file, if there are no more than a journal may have.
pub(crate) fn bytes_of(alloc: Global, file: &File) -> Result<Vec<u8>, JournalFileFault> {
    let mut bytes = Vec::new(alloc);
    match file.take(MOST_BYTES + 1).read_to_end(&mut bytes) {
        Ok(_) if bytes.len() as u64 > MOST_BYTES => Err(JournalFileFault::TooLong),
        Ok(_) => Ok(bytes),
        Err(error) => Err(file_fault(error.kind(), JournalFileFault::Unreadable)),
    }
}

/// The bytes of a journal's file, as they are now.
///
/// # Errors
///
/// Why the file can't be read.
pub fn read_journal_file(
    rt: &(impl Files<File = File> + AllocGlobal),
    name: &str,
) -> Result<Vec<u8>, JournalFileFault> {
    match OpenOptions::new().read(true).open(rt, name) {
        Ok(file) => bytes_of(rt.alloc(), &file),
        Err(error) => Err(file_fault(error.kind(), JournalFileFault::Unreadable)),
    }
}

/// The room that the journal of a file explains, as it is now. An unfinished last line is left out.
///
/// # Errors
///
/// `File` if the file can't be read; `Journal` if it has no journal; or `Memory`.
pub fn read_room(
    rt: &(impl Files<File = File> + AllocGlobal),
    name: String,
) -> Result<Room, KeepFault> {
    let text = match read_journal_file(rt, name.as_str()) {
        Ok(text) => text,
        Err(fault) => return Err(KeepFault::of_file(name, fault)),
    };
    match recover_journal(rt.alloc(), text.as_slice()) {
        Ok((room, _)) => Ok(room),
        Err(fault) => Err(KeepFault::of_journal(name, fault)),
    }
}

/// A journal that can be taken up: its file is open and locked, and as it was found.
#[derive(Drop)]
pub struct FoundJournal {
    name: String,
    file: File,
    durability: Durability,
    // The lines of the file, and how many bytes of an unfinished line follow them.
    text: Vec<u8>,
    rest: usize,
    room: Room,
    ghost text_is: { text.items ≡ journal_text room.size room.journal },
}

/// A journal that is taken up.
#[derive(Drop)]
pub struct TakenUp {
    /// The room that the journal explains.
    pub room: Room,
    /// Its file, locked, to which lines are added.
    pub file: JournalFile,
    /// The text that the file has.
    pub text: Vec<u8>,
    /// The line that was unfinished, if one was: it is cut off.
    pub cut: Option<u32>,
}

/// Refuses what isn't a regular file: a pipe has no end, and a device has nothing to add lines to.
fn expect_file(file: &File) -> Result<(), JournalFileFault> {
    match file.metadata() {
        Ok(metadata) if metadata.is_file() => Ok(()),
        Ok(_) => Err(JournalFileFault::NoFile),
        Err(error) => Err(file_fault(error.kind(), JournalFileFault::Unreadable)),
    }
}

/// Opens a file, locked, and reads it.
fn open(
    rt: &(impl Files<File = File> + AllocGlobal),
    name: &str,
    durability: Durability,
) -> Result<(File, Vec<u8>), JournalFileFault> {
    let file = match OpenOptions::new().read(true).append(true).open(rt, name) {
        Ok(file) => file,
        Err(error) => return Err(file_fault(error.kind(), JournalFileFault::Unreadable)),
    };
    expect_file(&file)?;
    lock(&file)?;
    keep_name(rt, name, durability)?;
    let text = bytes_of(rt.alloc(), &file)?;
    Ok((file, text))
}

/// Opens the file of a journal, and locks it: its commands are carried out again, and their answers compared. The file
/// stays as it is.
///
/// # Errors
///
/// `File` if the file can't be read or written, or is in use; `Journal` if it has no journal; or `Memory`.
pub fn find_journal(
    rt: &(impl Files<File = File> + AllocGlobal),
    name: String,
    durability: Durability,
) -> Result<FoundJournal, KeepFault> {
    let (file, mut text) = match open(rt, name.as_str(), durability) {
        Ok(opened) => opened,
        Err(fault) => return Err(KeepFault::of_file(name, fault)),
    };
    let (room, rest) = match recover_journal(rt.alloc(), text.as_slice()) {
        Ok((room, rest)) => (room, rest.len()),
        Err(fault) => return Err(KeepFault::of_journal(name, fault)),
    };
    text.truncate(text.len() - rest);
    Ok(FoundJournal {
        name,
        file,
        durability,
        text,
        rest,
        room,
    })
}

impl FoundJournal {
    /// The entries of the journal.
    pub fn entries(&self) -> &[Entry] {
        self.room.journal()
    }

    /// The room that the journal explains.
    pub fn room(&self) -> &Room {
        &self.room
    }

    /// Takes the journal up: an unfinished last line is cut off.
    ///
    /// # Errors
    ///
    /// `File` if the line can't be cut off; the file is as it was.
    pub fn take_up(self) -> Result<TakenUp, KeepFault>
        ensures good { IfOk result (λ taken. ⟦<JournalFile as Sink>⟧.has_failed taken.file ≡ false) }
        ensures text { IfOk result (λ taken. taken.text.items ≡ journal_text taken.room.size taken.room.journal) }
    {
        let FoundJournal {
            name,
            file,
            durability,
            text,
            rest,
            room,
        } = self;
        let cut = if rest == 0 {
            None
        } else {
            if file.set_len(text.len() as u64).is_err() {
                return Err(KeepFault::File(name, JournalFileFault::Unwritten));
            }
            Some(room.journal().len() as u32 + 2)
        };
        let file = JournalFile::new(file, text.len() as u64, durability);
        Ok(TakenUp {
            room,
            file,
            text,
            cut,
        })
    }
}

/// Takes up the journal of a file: its commands are carried out again, and their answers compared. An unfinished last
/// line is cut off.
///
/// # Errors
///
/// Those of `find_journal`, and `File` if the line can't be cut off. The file is as it was.
pub fn take_up_journal(
    rt: &(impl Files<File = File> + AllocGlobal),
    name: String,
    durability: Durability,
) -> Result<TakenUp, KeepFault>
    ensures good { IfOk result (λ taken. ⟦<JournalFile as Sink>⟧.has_failed taken.file ≡ false) }
    ensures text { IfOk result (λ taken. taken.text.items ≡ journal_text taken.room.size taken.room.journal) }
{
    match find_journal(rt, name, durability) {
        Ok(found) => found.take_up(),
        Err(fault) => Err(fault),
    }
}
