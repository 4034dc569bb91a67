//! The files that a person names.
ghost use Rattle.std.specs.Prelude.{◌≡◌};
ghost use Rattle.room_files.specs.JournalText.{journal_text};

use bytes_text::Text;
use job_runner::CardList;
use room_alone::Room;
use thiserror::Error;

/// Why a file can't be used.
#[derive(Clone, Copy, Debug, Error)]
pub enum FileFault {
    /// It isn't there, or can't be read.
    #[error("can't be read")]
    Unreadable,
    /// It is a folder, a pipe or a device: reading it might never end.
    #[error("isn't a regular file")]
    Irregular,
    /// It is there already, and isn't written over.
    #[error("is there already")]
    Exists,
    /// It can't be made or written.
    #[error("can't be written")]
    Unwritable,
    /// A line isn't one of a deck, or of a journal.
    #[error("line {line} is wrong")]
    Wrong {
        /// The number of the line, from 1 on.
        line: u64,
    },
    /// Memory was refused.
    #[error("out of memory")]
    Memory,
}

/// The files of a person, by the names that are typed.
pub trait Desk {
    /// The lines of `do`: a text.
    ///
    /// # Errors
    ///
    /// If it can't be read.
    fn lines(&mut self, name: &[u8]) -> Result<Vec<u8>, FileFault>;

    /// The cards of `deck`.
    ///
    /// # Errors
    ///
    /// If it can't be read, or is no deck.
    fn cards(&mut self, name: &[u8]) -> Result<CardList, FileFault>;

    /// The room of the journal of `restore`.
    ///
    /// # Errors
    ///
    /// If it can't be read, or is no journal.
    fn journal(&mut self, name: &[u8]) -> Result<Room, FileFault>;

    /// Writes the text of `save`, which is that of this room's journal, to a new file, all of it or nothing.
    ///
    /// # Errors
    ///
    /// If the file is there already, or can't be written.
    fn save(&mut self, name: &[u8], room: &Room, text: &[u8]) -> Result<(), FileFault>
        requires { text.now ≡ journal_text room.now.size room.now.journal };

    /// Begins a transcript, in a new file. An earlier transcript ends.
    ///
    /// # Errors
    ///
    /// If the file is there already, or can't be made.
    fn begin_transcript(&mut self, name: &[u8]) -> Result<(), FileFault>;

    /// Ends the transcript, if there is one.
    fn end_transcript(&mut self);

    /// Adds what is typed or shown to the transcript, if there is one.
    fn transcribe(&mut self, text: &[u8]);

    /// Whether the file of a transcript lacks some of it.
    fn has_lost_transcript(&self) -> bool;

    /// The name of the file that keeps the journal; empty if there is none.
    fn kept_name(&self) -> &[u8];
}

/// Adds why a file can't be used, after its name.
pub fn put_file_fault(text: &mut Text, name: &[u8], fault: FileFault) {
    text.put(name);
    match fault {
        FileFault::Unreadable => text.put(b" can't be read"),
        FileFault::Irregular => text.put(b" isn't a regular file"),
        FileFault::Exists => text.put(b" is there already, and isn't written over"),
        FileFault::Unwritable => text.put(b" can't be written"),
        FileFault::Wrong { line } => {
            text.put(b": line ");
            text.put_number(1, line);
            text.put(b" is wrong");
        }
        FileFault::Memory => text.put(b" can't be read: there is no memory for it"),
    }
}
