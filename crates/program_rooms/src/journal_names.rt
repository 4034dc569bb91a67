//! The names of the journals of rooms that follow each other.
ghost use Rattle.std.specs.Prelude.{◌≡◌, ◌≢◌, ◌≤◌, false, string_bytes, IfOk, IfSome};
ghost use Rattle.std.specs.Fmt.{decimal};
ghost use Rattle.program_rooms.specs.Named.{IsTaken, name_at};

use crate::durability_of;
use crate::fault::{OpenFault, not_kept};
use crate::succession::Journals;
use program_arguments::{NewJournal, Resuming};
use room_1401::Keeper;
use room_files::{
    JournalFile, JournalFileFault, KeepFault, MadeJournal, MadeName, TextKeeper, begin_journal,
};
use std::alloc::{AllocError, Global};
use std::fs::{File, read_dir};
use std::io::ErrorKind;
use std::marker::Brand;
use std::rt::Files;

/// The highest number that a name has.
const MOST: u32 = 1_000_000;

/// The number in a name that ends with these digits, if another name's has it.
fn number_of(digits: &str) -> Option<u32>
    ensures { IfSome result (λ number. (digits.now ≡ decimal number) × (number ≢ 1)) }
{
    let is_written_so = !digits.starts_with('0') && !digits.starts_with('+');
    match digits.parse::<u32>() {
        Ok(number) if is_written_so && 1 < number && number < MOST => Some(number),
        _ => None,
    }
}

/// NAME and the number in the name of a file: day.journal and 3 in day.journal.3, and itself and 1 in any other.
fn parts_of(file: &str) -> (&str, u32)
    ensures { file.now ≡ name_at result.0.now result.1 }
{
    let Some((name, digits)) = file.rsplit_once('.') else {
        return (file, 1);
    };
    match number_of(digits) {
        Some(number) => (name, number),
        None => (file, 1),
    }
}

/// The name with this number: NAME itself is the first.
fn numbered(alloc: Global, name: &str, number: u32) -> Result<String, AllocError>
    ensures { IfOk result (λ numbered. string_bytes numbered ≡ name_at name.now number) }
{
    if number == 1 {
        String::from_str(alloc, name)
    } else {
        format!(in alloc; "{name}.{number}")
    }
}

/// The highest number of a journal in the same folder that has this name, if it is higher than the first; the first
/// where a journal with that isn't there.
///
/// # Errors
///
/// Why the folder can't be read.
fn last_number(
    rt: &(impl Files<File = File> + AllocGlobal),
    name: &str,
    first: u32,
) -> Result<u32, JournalFileFault>
    ensures { IfOk result (λ last. first ≤ last) }
{
    let (folder, own) = match name.rsplit_once('/') {
        Some(("", own)) => ("/", own),
        Some(parts) => parts,
        None => (".", name),
    };
    let listing = match read_dir(&rt, folder) {
        Ok(listing) => listing,
        Err(error) if error.kind() == ErrorKind::NotFound => return Err(JournalFileFault::NotThere),
        Err(_) => return Err(JournalFileFault::Unreadable),
    };
    let mut last = first;
    let mut is_there = false;
    for entry in listing {
        match entry {
            Ok(entry) => {
                let (other, number) = parts_of(entry.file_name());
                if other == own {
                    is_there = is_there || number == first;
                    last = last.max(number);
                }
            }
            // The name isn't UTF-8, so it is no journal's.
            Err(error) if error.kind() == ErrorKind::InvalidFilename => {}
            Err(_) => return Err(JournalFileFault::Unreadable),
        }
    }
    Ok(if is_there { last } else { first })
}

/// What is resumed: the journal that is named, or with `--last` the last of those that follow it. One that isn't there
/// is followed by none.
///
/// # Errors
///
/// `File` if its folder can't be read, or `Memory`.
pub(crate) fn last_of(
    rt: &(impl Files<File = File> + AllocGlobal),
    asked: Resuming,
) -> Result<Resuming, KeepFault>
    ensures { IfOk result (IsTaken asked) }
{
    if !asked.last {
        return Ok(asked);
    }
    let (name, first) = parts_of(asked.file.as_str());
    let file = match last_number(rt, name, first) {
        Ok(number) => numbered(rt.alloc(), name, number),
        Err(fault) => return Err(KeepFault::of_file(asked.file, fault)),
    };
    match file {
        Ok(file) => Ok(Resuming { file, ..asked }),
        Err(_) => Err(KeepFault::Memory),
    }
}

/// What keeps the journal of a room in a file of its own.
pub(crate) type FileKeeper = TextKeeper<Brand, JournalFile>;

/// Journals in files of their own, whose names follow each other: NAME, NAME.2, NAME.3 and so on.
#[derive(Drop)]
pub(crate) struct NamedJournals<'a, R> {
    rt: &'a R,
    // NAME, and whether each entry is forced onto the disk.
    journal: NewJournal,
    // The number in the first room's name, 1 where there is none.
    first: u32,
}

impl<'a, R: Files<File = File> + AllocGlobal> NamedJournals<'a, R> {
    /// Those whose names go on from this new journal's.
    pub(crate) fn new(rt: &'a R, journal: NewJournal) -> NamedJournals<'a, R> {
        NamedJournals {
            rt,
            journal,
            first: 1,
        }
    }

    /// Those whose names go on from the one of this file, whose own name may have a number already.
    pub(crate) fn from_file(
        rt: &'a R,
        file: &str,
        sync: bool,
    ) -> Result<NamedJournals<'a, R>, AllocError> {
        let (name, first) = parts_of(file);
        match String::from_str(rt.alloc(), name) {
            Ok(file) => Ok(NamedJournals {
                rt,
                journal: NewJournal { file, sync },
                first,
            }),
            Err(error) => Err(error),
        }
    }

    /// The keeper of a new journal, and the name of its file, which has this number.
    fn begin_as(&self, size: u16, number: u32) -> Result<(FileKeeper, MadeName), KeepFault>
        ensures { IfOk result (λ begun. ⟦<FileKeeper as Keeper>⟧.has_failed begun.0 ≡ false) }
    {
        let alloc = self.rt.alloc();
        let file = self.journal.file.as_str();
        let Ok(name) = numbered(alloc, file, number) else {
            return Err(KeepFault::Memory);
        };
        match begin_journal(self.rt, name, size, durability_of(self.journal.sync)) {
            Ok(MadeJournal { file, name }) => Ok((TextKeeper::new(alloc, file), name)),
            Err(fault) => Err(fault),
        }
    }
}

impl<R: Files<File = File> + AllocGlobal> Journals<FileKeeper> for NamedJournals<'_, R> {
    fn begin(&self, size: u16, number: u32) -> Result<(FileKeeper, MadeName), OpenFault> {
        let first = self.first.saturating_add(number.saturating_sub(1));
        let last = if number == 1 { first } else { MOST };
        for named in first..last {
            match self.begin_as(size, named) {
                Err(KeepFault::File(_, JournalFileFault::Exists)) => {}
                Err(fault) => return Err(not_kept(fault)),
                Ok(begun) => return Ok(begun),
            }
        }
        match self.begin_as(size, last) {
            Ok(begun) => Ok(begun),
            Err(fault) => Err(not_kept(fault)),
        }
    }
}
