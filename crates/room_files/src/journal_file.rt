//! The file of a journal, as a sink of its lines.
ghost use Rattle.std.specs.Prelude.{◌≡◌, ◌<◌, ◌≤◌, false, length, IfOk, None};

use crate::fault::JournalFileFault;
use crate::files::{bytes_of, file_fault};
use bytes_descriptors::size_limit;
use bytes_streams::{Failed, Sink, ToWriter};
use std::alloc::Global;
use std::fs::{File, OpenFile};
use std::io::{Seek, SeekFrom};
use std::os::unix::fs::MetadataExt;

/// What a line of a journal outlasts, once it counts as written.
#[derive(Clone, Copy)]
pub enum Durability {
    /// It outlasts the program: the system has it.
    System,
    /// It outlasts a loss of power too: the disk has it.
    Disk,
}

/// Hands lines to a file, with one write each time, and forces each onto the disk if that is asked for. If that
/// fails, so has the write, though the line may be in the file. If another process has cut the file, added to it or
/// taken it away, the write fails before a byte is written.
#[derive(Drop)]
pub struct JournalFile {
    file: File,
    // How many bytes the file has.
    len: u64,
    // How many it may have.
    most: u64,
    durability: Durability,
    failed: bool,
}

impl JournalFile {
    /// A sink that adds lines to this file of this many bytes, which was opened so that each write adds to its end.
    pub fn new(file: File, len: u64, durability: Durability) -> JournalFile
        ensures received { ⟦<JournalFile as Sink>⟧.received result ≡ None }
        ensures failed { ⟦<JournalFile as Sink>⟧.has_failed result ≡ false }
    {
        JournalFile {
            file,
            len,
            most: size_limit(),
            durability,
            failed: false,
        }
    }

    /// Whether the file is as this sink left it, with a name.
    fn is_whole(&self) -> bool {
        match self.file.metadata() {
            Ok(now) => now.len() == self.len && now.nlink() > 0,
            Err(_) => false,
        }
    }

    /// The file.
    pub(crate) fn file(&self) -> &File {
        &self.file
    }

    /// What lines of it outlast.
    pub(crate) fn durability(&self) -> Durability {
        self.durability
    }

    /// The bytes that the file has.
    ///
    /// # Errors
    ///
    /// `Unwritten` if another process has changed the file; else why it can't be read.
    pub(crate) fn text(&self, alloc: Global) -> Result<Vec<u8>, JournalFileFault> {
        if !self.is_whole() {
            return Err(JournalFileFault::Unwritten);
        }
        match (&self.file).seek(SeekFrom::Start(0)) {
            Ok(_) => bytes_of(alloc, &self.file),
            Err(error) => Err(file_fault(error.kind(), JournalFileFault::Unreadable)),
        }
    }

    /// The file with no more than its first bytes.
    ///
    /// # Errors
    ///
    /// `Unwritten` if it isn't cut, or if that isn't forced onto the disk where it should be.
    pub(crate) fn cut(self, len: u64) -> Result<JournalFile, JournalFileFault>
        ensures received { IfOk result (λ file. ⟦<JournalFile as Sink>⟧.received file ≡ None) }
        ensures failed { IfOk result (λ file. ⟦<JournalFile as Sink>⟧.has_failed file ≡ false) }
    {
        let JournalFile {
            file,
            durability,
            ..
        } = self;
        let cut = match (file.set_len(len), durability) {
            (Ok(()), Durability::Disk) => file.sync_data(),
            (cut, _) => cut,
        };
        match cut {
            Ok(()) => Ok(JournalFile::new(file, len, durability)),
            Err(_) => Err(JournalFileFault::Unwritten),
        }
    }

    /// Writes these bytes by one write, and forces what was written onto the disk if that is asked for.
    fn write(&self, bytes: &[u8]) -> Result<usize, Failed>
        ensures most { IfOk result (λ n. n ≤ length bytes.now) }
        ensures some { IfOk result (λ n. 0 < length bytes.now → 0 < n) }
    {
        // It may have a byte more.
        if !self.is_whole() || self.len >= self.most {
            return Err(Failed);
        }
        let written = ToWriter::new(&self.file).put(bytes)?;
        match self.durability {
            Durability::System => Ok(written),
            Durability::Disk => match self.file.sync_data() {
                Ok(()) => Ok(written),
                Err(_) => Err(Failed),
            },
        }
    }
}

impl Sink for JournalFile {
    // No contract says what a file of std has.
    ghost received = { λ _. None };

    ghost has_failed = { λ journal. journal.failed };

    fn has_failed(&self) -> bool {
        self.failed
    }

    fn put(&mut self, bytes: &[u8]) -> Result<usize, Failed> {
        let written = self.write(bytes);
        match written {
            Ok(count) => self.len = self.len.saturating_add(count as u64),
            Err(_) => self.failed = true,
        }
        written
    }
}
