//! A new file for a journal, which is locked before it has its name.
ghost use Rattle.std.specs.Prelude.{◌≡◌, false, IfOk};

use crate::fault::{JournalFileFault, KeepFault};
use crate::files::{file_fault, keep_name, lock};
use crate::journal_file::{Durability, JournalFile};
use crate::keeping::begin_text;
use bytes_descriptors::{
    create_beside, create_new, end_of_links, is_named, keep_rights, remove_own,
};
use bytes_streams::{Sink, put_all};
use std::fs;
use std::fs::File;
use std::rt::Files;

/// A new file next to the one of this name, to which lines are added, and its own name.
fn make_beside(
    rt: &(impl Files<File = File> + AllocGlobal),
    name: &str,
) -> Result<(File, String), JournalFileFault> {
    create_beside(rt, name).map_err(|error| file_fault(error.kind(), JournalFileFault::Unwritten))
}

/// Locks a file, and then gives it this name too, if there is no file of that name.
fn link_locked(
    rt: &impl Files<File = File>,
    file: &File,
    beside: &str,
    name: &str,
) -> Result<(), JournalFileFault> {
    lock(file)?;
    match fs::hard_link(rt, beside, name) {
        Ok(()) if is_named(rt, name, file) => Ok(()),
        Ok(()) => Err(JournalFileFault::Unwritten),
        Err(error) => Err(file_fault(error.kind(), JournalFileFault::Unwritten)),
    }
}

/// A new file that was made and locked under another name, and then got this one.
fn make_linked(
    rt: &(impl Files<File = File> + AllocGlobal),
    name: &str,
) -> Result<File, JournalFileFault> {
    let (file, beside) = make_beside(rt, name)?;
    let linked = link_locked(rt, &file, beside.as_str(), name);
    remove_own(rt, beside.as_str(), &file);
    match linked {
        Ok(()) => Ok(file),
        Err(fault) => Err(fault),
    }
}

/// A new file that was made under its name, and then locked.
fn make_in_place(rt: &impl Files<File = File>, name: &str) -> Result<File, JournalFileFault> {
    let file = match create_new(rt, name) {
        Ok(file) => file,
        Err(error) => return Err(file_fault(error.kind(), JournalFileFault::Unwritten)),
    };
    if let Err(fault) = lock(&file) {
        remove_own(rt, name, &file);
        return Err(fault);
    }
    Ok(file)
}

/// A new file of this name, locked, to which lines are added.
fn make(
    rt: &(impl Files<File = File> + AllocGlobal),
    name: &str,
    durability: Durability,
) -> Result<File, JournalFileFault> {
    let file = match make_linked(rt, name) {
        Ok(file) => file,
        Err(JournalFileFault::Exists) => return Err(JournalFileFault::Exists),
        Err(JournalFileFault::Memory) => return Err(JournalFileFault::Memory),
        // A file system may have no links, or no names that long. If no file can be made at all, this says why.
        Err(_) => make_in_place(rt, name)?,
    };
    if let Err(fault) = keep_name(rt, name, durability) {
        remove_own(rt, name, &file);
        return Err(fault);
    }
    Ok(file)
}

/// The name of a file that was made for a journal, and a handle that shows which file that is.
#[derive(Drop)]
pub struct MadeName {
    name: String,
    file: File,
}

impl MadeName {
    /// Takes the file away again, if its name is still its own: a file that another process put there stays. Gives the
    /// name.
    pub fn remove(self, rt: &impl Files<File = File>) -> String {
        let MadeName { name, file } = self;
        remove_own(rt, name.as_str(), &file);
        name
    }
}

/// A new journal's file, locked, and its name.
#[derive(Drop)]
pub struct MadeJournal {
    /// The file, to which lines are added.
    pub file: JournalFile,
    /// Its name, for as long as the file may have to be taken away again.
    pub name: MadeName,
}

/// A new file of this name for a journal, locked before it has that name. A file that is there stays as it is.
///
/// # Errors
///
/// `File`, with the name as it was given, or `Memory`; then no new file is left.
pub fn create_journal(
    rt: &(impl Files<File = File> + AllocGlobal),
    name: String,
    durability: Durability,
) -> Result<MadeJournal, KeepFault>
    ensures good { IfOk result (λ made. ⟦<JournalFile as Sink>⟧.has_failed made.file ≡ false) }
{
    let file = match make(rt, name.as_str(), durability) {
        Ok(file) => file,
        Err(fault) => return Err(KeepFault::of_file(name, fault)),
    };
    let Ok(same) = file.try_clone() else {
        remove_own(rt, name.as_str(), &file);
        return Err(KeepFault::File(name, JournalFileFault::Unwritten));
    };
    Ok(MadeJournal {
        file: JournalFile::new(file, 0, durability),
        name: MadeName { name, file: same },
    })
}

/// A new file of this name, locked, that has the first line of the journal of a machine of this size. A file that is
/// there stays as it is.
///
/// # Errors
///
/// `File`, with the name as it was given, or `Memory`; then no new file is left.
pub fn begin_journal(
    rt: &(impl Files<File = File> + AllocGlobal),
    name: String,
    size: u16,
    durability: Durability,
) -> Result<MadeJournal, KeepFault>
    ensures good { IfOk result (λ made. ⟦<JournalFile as Sink>⟧.has_failed made.file ≡ false) }
{
    let MadeJournal { mut file, name } = create_journal(rt, name, durability)?;
    match begin_text(rt.alloc(), size, &mut file) {
        Ok(()) => Ok(MadeJournal { file, name }),
        Err(fault) => Err(KeepFault::of_text(name.remove(rt), fault)),
    }
}

/// Gives a new file, which is locked, a text, and then the name of another file.
fn put_in_place(
    rt: &impl Files<File = File>,
    file: File,
    beside: &str,
    name: &str,
    text: &[u8],
    durability: Durability,
) -> Result<JournalFile, JournalFileFault>
    ensures good { IfOk result (λ made. ⟦<JournalFile as Sink>⟧.has_failed made ≡ false) }
{
    lock(&file)?;
    let mut file = JournalFile::new(file, 0, durability);
    if put_all(&mut file, text).is_err() || file.has_failed() {
        return Err(JournalFileFault::Unwritten);
    }
    match fs::rename(rt, beside, name) {
        Ok(()) => {}
        Err(error) => return Err(file_fault(error.kind(), JournalFileFault::Unwritten)),
    }
    keep_name(rt, name, durability)?;
    Ok(file)
}

/// The name of the open file that has this name, or to which it leads.
fn name_of_open(
    rt: &(impl Files<File = File> + AllocGlobal),
    name: &str,
    file: &File,
) -> Result<String, JournalFileFault> {
    match end_of_links(rt, name) {
        Ok(end) if is_named(rt, end.as_str(), file) => Ok(end),
        Ok(_) => Err(JournalFileFault::Unwritten),
        Err(error) => Err(file_fault(error.kind(), JournalFileFault::Unwritten)),
    }
}

/// A new file that has this text, in the place of the open file of this name, or to which it leads: whoever opens that
/// finds the old text or the new one. It gets the owner, the group and the permissions of the old one as far as the
/// system lets us.
///
/// # Errors
///
/// `Unwritten` if the name is another file's by now; else why it can't be made or written. Then the file of this name is
/// the old one, unless the new name isn't forced onto the disk.
pub(crate) fn supersede(
    rt: &(impl Files<File = File> + AllocGlobal),
    name: &str,
    old: &File,
    text: &[u8],
    durability: Durability,
) -> Result<JournalFile, JournalFileFault>
    ensures good { IfOk result (λ made. ⟦<JournalFile as Sink>⟧.has_failed made ≡ false) }
{
    let name = name_of_open(rt, name, old)?;
    let (file, beside) = make_beside(rt, name.as_str())?;
    if let Ok(old) = old.metadata() {
        keep_rights(rt, &file, beside.as_str(), &old);
    }
    let made = put_in_place(rt, file, beside.as_str(), name.as_str(), text, durability);
    if made.is_err() {
        let _ = fs::remove_file(rt, beside.as_str());
    }
    made
}
