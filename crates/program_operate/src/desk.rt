//! The files that a person names, and that of the journal.

use bcd_1401::Graphics;
use bytes_descriptors::read_whole;
use bytes_streams::put_all;
use job_runner::{CardList, DeckTextFault};
use operate_console::{Desk, FileFault};
use operate_sitting::Cutter;
use program_run::{RunFault, read_cards};
use room_alone::{NoKeeper, Room, Unkept};
use room_files::{
    Durability, JournalFile, JournalFileFault, KeepFault, MadeJournal, TextKeeper, create_journal,
    read_room, rewrite_journal, write_journal,
};
use std::fs::File;
use std::marker::Brand;
use std::rt::Files;
use std::{fs, str};

/// The keeper of a file's journal.
pub(crate) type FileKeeper = TextKeeper<Brand, JournalFile>;

/// The files of a person, whose decks have the graphics of a chain, and the file that keeps the journal.
#[derive(Drop)]
pub(crate) struct FileDesk<'a, R> {
    rt: &'a R,
    graphics: Option<Graphics>,
    // The name of the journal's file; empty if it has none.
    kept: &'a str,
    transcript: Option<JournalFile>,
    has_lost_transcript: bool,
}

impl<'a, R: Files<File = File> + Eprint + AllocGlobal> FileDesk<'a, R> {
    /// The files of the system. The journal's has this name, which is empty if it has none.
    pub(crate) fn new(rt: &'a R, graphics: Option<Graphics>, kept: &'a str) -> FileDesk<'a, R> {
        FileDesk {
            rt,
            graphics,
            kept,
            transcript: None,
            has_lost_transcript: false,
        }
    }

    /// A name that was typed.
    fn name_of(&self, name: &[u8]) -> Result<String, FileFault> {
        let Ok(name) = str::from_utf8(name) else {
            return Err(FileFault::Unreadable);
        };
        match String::from_str(self.rt.alloc(), name) {
            Ok(name) => Ok(name),
            Err(_) => Err(FileFault::Memory),
        }
    }

    /// A name that was typed, of a file that can be read to its end: neither a pipe nor a device, at which a read may
    /// wait for ever.
    fn name_to_read(&self, name: &[u8]) -> Result<String, FileFault> {
        let name = self.name_of(name)?;
        match fs::metadata(self.rt, name.as_str()) {
            Ok(metadata) if metadata.is_file() => Ok(name),
            Ok(_) => Err(FileFault::Irregular),
            Err(_) => Err(FileFault::Unreadable),
        }
    }

    /// A new file of this name.
    fn make(&self, name: &[u8]) -> Result<MadeJournal, FileFault> {
        match create_journal(self.rt, self.name_of(name)?, Durability::System) {
            Ok(made) => Ok(made),
            Err(fault) => Err(unmade(fault)),
        }
    }
}

/// Why a new file isn't made.
fn unmade(fault: KeepFault) -> FileFault {
    match fault {
        KeepFault::File(_, JournalFileFault::Exists) => FileFault::Exists,
        KeepFault::Memory => FileFault::Memory,
        KeepFault::File(..) | KeepFault::Journal(..) | KeepFault::NoEntry(_) => {
            FileFault::Unwritable
        },
    }
}

/// Why the cards of a file aren't read.
fn no_deck(fault: RunFault) -> FileFault {
    match fault {
        RunFault::Deck(_, DeckTextFault::Graphic { line, .. })
        | RunFault::Deck(_, DeckTextFault::Length { line }) => FileFault::Wrong { line },
        RunFault::Memory => FileFault::Memory,
        _ => FileFault::Unreadable,
    }
}

/// Why the journal of a file isn't read.
fn no_journal(fault: KeepFault) -> FileFault {
    match fault {
        KeepFault::Journal(_, fault) => FileFault::Wrong {
            line: u64::from(fault.line),
        },
        KeepFault::Memory => FileFault::Memory,
        KeepFault::File(..) | KeepFault::NoEntry(_) => FileFault::Unreadable,
    }
}

impl<'a, R: Files<File = File> + Eprint + AllocGlobal> Desk for FileDesk<'a, R> {
    fn lines(&mut self, name: &[u8]) -> Result<Vec<u8>, FileFault> {
        let name = self.name_to_read(name)?;
        match read_whole(self.rt, name.as_str()) {
            Ok(lines) => Ok(lines),
            Err(bytes_descriptors::FileFault::Memory) => Err(FileFault::Memory),
            Err(_) => Err(FileFault::Unreadable),
        }
    }

    fn cards(&mut self, name: &[u8]) -> Result<CardList, FileFault> {
        let name = self.name_to_read(name)?;
        match read_cards(self.rt, name, self.graphics) {
            Ok(cards) => Ok(cards),
            Err(fault) => Err(no_deck(fault)),
        }
    }

    fn journal(&mut self, name: &[u8]) -> Result<Room, FileFault> {
        match read_room(self.rt, self.name_to_read(name)?) {
            Ok(room) => Ok(room),
            Err(fault) => Err(no_journal(fault)),
        }
    }

    fn save(&mut self, name: &[u8], _room: &Room, text: &[u8]) -> Result<(), FileFault> {
        let MadeJournal { mut file, name } = self.make(name)?;
        match put_all(&mut file, text) {
            Ok(()) => Ok(()),
            Err(_) => {
                let _ = name.remove(self.rt);
                Err(FileFault::Unwritable)
            }
        }
    }

    fn begin_transcript(&mut self, name: &[u8]) -> Result<(), FileFault> {
        let made = self.make(name)?;
        self.transcript = Some(made.file);
        Ok(())
    }

    fn end_transcript(&mut self) {
        self.transcript = None;
    }

    fn transcribe(&mut self, text: &[u8]) {
        let Some(file) = &mut self.transcript else {
            return;
        };
        if put_all(file, text).is_err() {
            let _ = eprintln!(self.rt; "ibm1401: the transcript cannot be written, and ends here");
            self.transcript = None;
            self.has_lost_transcript = true;
        }
    }

    fn has_lost_transcript(&self) -> bool {
        self.has_lost_transcript
    }

    fn kept_name(&self) -> &[u8] {
        self.kept.as_bytes()
    }
}

/// The journal's file gets the text of the other journal.
impl<'a, R: Files<File = File> + AllocGlobal> Cutter<FileKeeper> for FileDesk<'a, R> {
    fn cut(&mut self, keeper: FileKeeper, room: &Room) -> Result<FileKeeper, Unkept> {
        let alloc = self.rt.alloc();
        let Ok(text) = write_journal(alloc, room.machine().core().size(), room.journal()) else {
            return Err(Unkept);
        };
        match rewrite_journal(self.rt, self.kept, keeper.into_sink(), text.as_slice()) {
            Ok(file) => Ok(TextKeeper::new(alloc, file)),
            Err(_) => Err(Unkept),
        }
    }
}

/// A journal that no file keeps has no text to cut.
impl<'a, R> Cutter<NoKeeper> for FileDesk<'a, R> {
    fn cut(&mut self, keeper: NoKeeper, _room: &Room) -> Result<NoKeeper, Unkept> {
        Ok(keeper)
    }
}
