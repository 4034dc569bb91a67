//! A new file that is written whole or not at all, and takes no other file's place.

use crate::fault::{NewFault, WriteFault, new_fault, write_fault};
use crate::names::is_there;
use crate::writing::{NAMES, PartFile, begin_part, create_new, name_beside, sync_folder};
use bytes_streams::{ToWriter, put_all};
use std::io::ErrorKind;
use std::rt::Files;
use std::{fs, io};

/// Gives a file this name, in the place of an empty file that is made first: a file system may have no links.
fn take_new_name<R: Files>(rt: &R, beside: &str, name: &str) -> io::Result<()> {
    create_new(rt, name)?;
    let renamed = fs::rename(rt, beside, name);
    if renamed.is_err() {
        let _ = fs::remove_file(rt, name);
    }
    renamed
}

/// Forces a new file onto the disk, and gives it its name, if nothing has that.
fn name_part<R: Files>(rt: &R, part: &PartFile<R::File>) -> io::Result<()> {
    part.file.sync_all()?;
    match fs::hard_link(rt, part.beside.as_str(), part.name.as_str()) {
        Ok(()) => Ok(()),
        Err(error) if error.kind() == ErrorKind::AlreadyExists => Err(error),
        Err(_) => take_new_name(rt, part.beside.as_str(), part.name.as_str()),
    }
}

/// Ends a new file, which gets its name if it is whole. Its own name is taken away.
fn end_new<R: Files>(rt: &R, part: PartFile<R::File>, is_whole: bool) -> Result<(), NewFault> {
    let named = if is_whole {
        name_part(rt, &part)
    } else {
        Err(io::Error::from(ErrorKind::WriteZero))
    };
    let _ = fs::remove_file(rt, part.beside.as_str());
    match named {
        Ok(()) => {
            sync_folder(rt, part.name.as_str());
            Ok(())
        }
        Err(error) => Err(new_fault(error.kind())),
    }
}

/// Looks whether `put_new` can be expected to make a file of this name, if nothing has it. A file next to it is made as
/// `put_new` makes one, and taken away again.
///
/// # Errors
///
/// `Unwritten` if it can't be made; `Memory` if there is no room for a name.
pub fn check_new<R: Files + AllocGlobal>(rt: &R, name: &str) -> Result<(), WriteFault> {
    let Ok(owned) = String::from_str(rt.alloc(), name) else {
        return Err(WriteFault::Memory);
    };
    match begin_part(rt, owned, None) {
        Ok(part) => {
            let _ = fs::remove_file(rt, part.beside.as_str());
            Ok(())
        }
        Err(error) => Err(write_fault(error.kind())),
    }
}

/// Writes a text to a new file, whole or not at all. It is written to a file next to it, up to the limit of the size of
/// files, and forced onto the disk; then it gets this name, unless something has that by now.
///
/// # Errors
///
/// `Exists` if something has this name; `Unwritten` if the file can't be made, or isn't written whole; `Memory` if there
/// is no room for a name.
pub fn put_new<R: Files + AllocGlobal>(rt: &R, name: &str, text: &[u8]) -> Result<(), NewFault> {
    if is_there(rt, name) {
        return Err(NewFault::Exists);
    }
    let Ok(owned) = String::from_str(rt.alloc(), name) else {
        return Err(NewFault::Memory);
    };
    let PartFile {
        file,
        beside,
        name,
        old,
    } = match begin_part(rt, owned, None) {
        Ok(part) => part,
        Err(error) if error.kind() == ErrorKind::OutOfMemory => return Err(NewFault::Memory),
        Err(_) => return Err(NewFault::Unwritten),
    };
    let mut writer = ToWriter::new(file);
    let written = put_all(&mut writer, text);
    let part = PartFile {
        file: writer.into_inner(),
        beside,
        name,
        old,
    };
    end_new(rt, part, written.is_ok())
}

/// Writes a text to a new file next to the one of this name, as `put_new` does, under a name with this ending that
/// nothing has. Gives the name.
///
/// # Errors
///
/// As those of `put_new`: `Exists` if each name that is tried is another file's.
pub fn put_beside<R: Files + AllocGlobal>(
    rt: &R,
    name: &str,
    ending: &str,
    text: &[u8],
) -> Result<String, NewFault> {
    for number in 0..NAMES {
        let Ok(beside) = name_beside(rt.alloc(), name, number, ending) else {
            return Err(NewFault::Memory);
        };
        match put_new(rt, beside.as_str(), text) {
            Ok(()) => return Ok(beside),
            Err(NewFault::Exists) => {}
            Err(fault) => return Err(fault),
        }
    }
    Err(NewFault::Exists)
}
