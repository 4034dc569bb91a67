//! What names of files lead to.

use crate::fault::WriteFault;
use std::fs::{Metadata, OpenFile};
use std::io::ErrorKind;
use std::os::unix::fs::{FileTypeExt, MetadataExt};
use std::rt::Files;
use std::{fs, io};

/// The most links that are followed from one name, as the system does.
const MOST_LINKS: u32 = 40;

/// A name as a folder and the last part.
pub(crate) fn split_name(name: &str) -> (&str, &str) {
    match name.rsplit_once('/') {
        Some((folder, last)) if folder.is_empty() => ("/", last),
        Some((folder, last)) => (folder, last),
        None => (".", name),
    }
}

/// The name that a link has, seen from where the link is.
fn linked_name<R: Files + AllocGlobal>(rt: &R, link: &str) -> io::Result<String> {
    let linked = fs::read_link(rt, link)?.into_string();
    if linked.starts_with('/') {
        return Ok(linked);
    }
    let (folder, _) = split_name(link);
    Ok(format!(in rt.alloc(); "{folder}/{linked}")?)
}

/// The name to which links lead from this one, if there are any.
///
/// # Errors
///
/// If a link can't be read, or there are too many; or if memory is refused.
pub fn end_of_links<R: Files + AllocGlobal>(rt: &R, name: &str) -> io::Result<String> {
    let mut end = String::from_str(rt.alloc(), name)?;
    for _ in 0..MOST_LINKS {
        match fs::symlink_metadata(rt, end.as_str()) {
            Ok(metadata) if metadata.is_symlink() => end = linked_name(rt, end.as_str())?,
            _ => return Ok(end),
        }
    }
    Err(io::Error::from(ErrorKind::FilesystemLoop))
}

/// Whether something has this name: a file, a folder, or a link, wherever it leads.
pub fn is_there<R: Files>(rt: &R, name: &str) -> bool {
    fs::symlink_metadata(rt, name).is_ok()
}

/// Whether these are of one file or folder.
pub(crate) fn are_same(first: &Metadata, second: &Metadata) -> bool {
    first.dev() == second.dev() && first.ino() == second.ino()
}

/// Whether this name is still that of the file that was found under it, and no link's; or still nothing's, if nothing
/// was found.
pub(crate) fn is_as_found<R: Files>(rt: &R, name: &str, found: Option<&Metadata>) -> bool {
    match (found, fs::symlink_metadata(rt, name)) {
        (Some(found), Ok(named)) => are_same(found, &named),
        (None, Err(error)) => error.kind() == ErrorKind::NotFound,
        _ => false,
    }
}

/// Whether this name is that of an open file: the file's own, and no link's.
pub fn is_named<R: Files>(rt: &R, name: &str, file: &R::File) -> bool {
    match (file.metadata(), fs::symlink_metadata(rt, name)) {
        (Ok(open), Ok(named)) => are_same(&open, &named),
        _ => false,
    }
}

/// Takes the name of an open file away, if the name is still that file's: another process may have put its own there.
pub fn remove_own<R: Files>(rt: &R, name: &str, file: &R::File) {
    if is_named(rt, name, file) {
        let _ = fs::remove_file(rt, name);
    }
}

/// Whether a second writer spoils what the first one writes: not what a terminal, another device or a pipe takes.
fn is_spoiled(metadata: &Metadata) -> bool {
    let kind = metadata.file_type();
    !kind.is_char_device() && !kind.is_fifo()
}

/// Whether two names, of which no file is there, lead to one place.
fn is_one_place<R: Files + AllocGlobal>(rt: &R, first: &str, second: &str) -> io::Result<bool> {
    let first = end_of_links(rt, first)?;
    let second = end_of_links(rt, second)?;
    let (first_folder, first_last) = split_name(first.as_str());
    let (second_folder, second_last) = split_name(second.as_str());
    if first_last != second_last {
        return Ok(false);
    }
    Ok(are_same(
        &fs::metadata(rt, first_folder)?,
        &fs::metadata(rt, second_folder)?,
    ))
}

/// Whether two names lead to one file, directly or by links, or to one place where no file is yet. Two names of a
/// terminal, another device or a pipe aren't one file: a second writer spoils nothing there.
///
/// # Errors
///
/// If memory is refused. Names that lead nowhere aren't one file.
pub fn is_one_file<R: Files + AllocGlobal>(
    rt: &R,
    first: &str,
    second: &str,
) -> Result<bool, WriteFault> {
    let found = match (fs::metadata(rt, first), fs::metadata(rt, second)) {
        (Ok(first), Ok(second)) => Ok(is_spoiled(&first) && are_same(&first, &second)),
        (Err(_), Err(_)) => is_one_place(rt, first, second),
        _ => Ok(false),
    };
    match found {
        Ok(is_one) => Ok(is_one),
        Err(error) if error.kind() == ErrorKind::OutOfMemory => Err(WriteFault::Memory),
        Err(_) => Ok(false),
    }
}
