//! A file that is written whole or not at all.

use crate::fault::{NewFault, WriteFault, new_fault, write_fault};
use crate::limited::LimitedFile;
use crate::names::{are_same, end_of_links, is_as_found, remove_own, split_name};
use bytes_streams::{ToWriter, put_all};
use std::alloc::{AllocError, Global};
use std::fs::{Metadata, OpenFile, OpenOptions};
use std::io::{ErrorKind, Printer, Write};
use std::os::unix::fs::{MetadataExt, chown};
use std::rt::Files;
use std::{fs, io};

/// The name of standard output, to which a text is written as it comes.
const STANDARD_OUTPUT: &str = "/dev/stdout";

/// How many names are tried for the file that is to take the place of another.
pub(crate) const NAMES: u32 = 100;

/// The most bytes of a file's name, and of one to which a number and an ending are added.
const MOST_OF_NAME: usize = 255;

const MOST_BESIDE: usize = 247;

/// A new file next to another, whose name it takes once it is whole.
#[derive(Drop)]
pub(crate) struct PartFile<F> {
    pub(crate) file: LimitedFile<F>,
    /// Its own name.
    pub(crate) beside: String,
    /// The name that it is to take.
    pub(crate) name: String,
    /// The file that has this name now, if there is one.
    pub(crate) old: Option<Metadata>,
}

/// Where the bytes of a text go.
#[derive(Drop)]
enum Place<F, O> {
    /// A file, written whole or not at all.
    Part(PartFile<F>),
    /// A device or a pipe, which takes them as they come.
    Device(F),
    /// Standard output, which does so too.
    Output(O),
}

/// A file that is written as its bytes come. If it isn't ended as whole, what has its name is as it was; but a device, a
/// pipe and standard output take the bytes as they come.
#[derive(Drop)]
pub struct WholeFile<F, O> {
    place: Place<F, O>,
}

impl<F: Write, O: Write> Write for WholeFile<F, O> {
    fn write(&mut self, buf: &[u8]) -> io::Result<usize> {
        match &mut self.place {
            Place::Part(part) => part.file.write(buf),
            Place::Device(device) => device.write(buf),
            Place::Output(output) => output.write(buf),
        }
    }

    fn flush(&mut self) -> io::Result<()> {
        match &mut self.place {
            Place::Part(part) => part.file.flush(),
            Place::Device(device) => device.flush(),
            Place::Output(output) => output.flush(),
        }
    }
}

/// A new file of this name, which can be read, and to which bytes are added.
///
/// # Errors
///
/// As the system's: `AlreadyExists` if something has this name, `OutOfMemory` if there is no room for a name.
pub fn create_new<R: Files>(rt: &R, name: &str) -> io::Result<R::File> {
    OpenOptions::new()
        .read(true)
        .append(true)
        .create_new(true)
        .open(rt, name)
}

/// The name of a file next to the one of this name, with a number and an ending. It is made of that name, unless that
/// would be too long for a file's. One that is too long itself is left for the system to refuse.
pub(crate) fn name_beside(
    alloc: Global,
    name: &str,
    number: u32,
    ending: &str,
) -> Result<String, AllocError> {
    let (folder, last) = split_name(name);
    if MOST_BESIDE < last.len() && last.len() <= MOST_OF_NAME {
        format!(in alloc; "{folder}/ibm1401.{number}.{ending}")
    } else {
        format!(in alloc; "{name}.{number}.{ending}")
    }
}

/// A new file next to the one of this name, as `create_new` makes one, and its own name.
///
/// # Errors
///
/// As those of `create_new`; `ResourceBusy` if each name that is tried is another file's.
pub fn create_beside<R: Files + AllocGlobal>(rt: &R, name: &str) -> io::Result<(R::File, String)> {
    for number in 0..NAMES {
        let beside = name_beside(rt.alloc(), name, number, "part")?;
        match create_new(rt, beside.as_str()) {
            Ok(file) => return Ok((file, beside)),
            Err(error) if error.kind() == ErrorKind::AlreadyExists => {}
            Err(error) => return Err(error),
        }
    }
    Err(io::Error::from(ErrorKind::ResourceBusy))
}

/// Gives a new file the owner, the group and the permissions of an old one, as far as the system lets us.
pub fn keep_rights<R: Files>(rt: &R, file: &R::File, beside: &str, old: &Metadata) {
    if chown(rt, beside, Some(old.uid()), Some(old.gid())).is_err() {
        let _ = chown(rt, beside, None, Some(old.gid()));
    }
    let _ = file.set_permissions(old.permissions());
}

/// A new file that is to take this name, with the rights of the old one if there is one.
pub(crate) fn begin_part<R: Files + AllocGlobal>(
    rt: &R,
    name: String,
    old: Option<Metadata>,
) -> io::Result<PartFile<R::File>> {
    let (file, beside) = create_beside(rt, name.as_str())?;
    if let Some(old) = &old {
        keep_rights(rt, &file, beside.as_str(), old);
    }
    Ok(PartFile {
        file: LimitedFile::new(file),
        beside,
        name,
        old,
    })
}

/// A new file next to the one to which links from this name lead, with the rights of the old one if there is one.
fn part_of<R: Files + AllocGlobal, O>(
    rt: &R,
    name: &str,
    old: Option<Metadata>,
) -> io::Result<Place<R::File, O>> {
    let path = end_of_links(rt, name)?;
    Ok(Place::Part(begin_part(rt, path, old)?))
}

/// Where the bytes go of a file of this name, which may be a device or a pipe, or standard output.
fn place_of<'r, R: Files + Print + AllocGlobal>(
    rt: &'r R,
    name: &str,
) -> io::Result<Place<R::File, Printer<'r, R>>> {
    if name == STANDARD_OUTPUT {
        return Ok(Place::Output(io::writer(rt)));
    }
    match OpenOptions::new().write(true).open(rt, name) {
        Ok(old) => {
            let metadata = old.metadata()?;
            if !metadata.is_file() {
                return Ok(Place::Device(old));
            }
            // A link to a file stays one.
            part_of(rt, name, Some(metadata))
        }
        Err(error) if error.kind() == ErrorKind::NotFound => part_of(rt, name, None),
        Err(error) => Err(error),
    }
}

/// Forces the names of a folder onto the disk, if the folder may be read.
pub(crate) fn sync_folder<R: Files>(rt: &R, name: &str) {
    let (folder, _) = split_name(name);
    if let Ok(folder) = fs::open(rt, folder) {
        let _ = folder.sync_all();
    }
}

/// Forces a new file onto the disk, and gives it the name that it is to take, unless that has become another file's.
fn take_name<R: Files>(rt: &R, part: &PartFile<R::File>) -> io::Result<()> {
    part.file.sync_all()?;
    if !is_as_found(rt, part.name.as_str(), part.old.as_ref()) {
        return Err(io::Error::from(ErrorKind::AlreadyExists));
    }
    fs::rename(rt, part.beside.as_str(), part.name.as_str())
}

/// Ends a new file, which takes its name if it is whole, and else is removed.
fn end_part<R: Files>(rt: &R, part: PartFile<R::File>, is_whole: bool) -> io::Result<()> {
    let named = if is_whole {
        take_name(rt, &part)
    } else {
        Err(io::Error::from(ErrorKind::WriteZero))
    };
    if named.is_ok() {
        sync_folder(rt, part.name.as_str());
    } else {
        let _ = fs::remove_file(rt, part.beside.as_str());
    }
    named
}

/// Ends a file as `end_whole` does.
fn end_place<R: Files, O: Drop>(
    rt: &R,
    place: Place<R::File, O>,
    is_whole: bool,
) -> io::Result<()> {
    match place {
        Place::Part(part) => end_part(rt, part, is_whole),
        Place::Device(_) | Place::Output(_) if is_whole => Ok(()),
        Place::Device(_) | Place::Output(_) => Err(io::Error::from(ErrorKind::WriteZero)),
    }
}

/// Begins a file of this name. What is written to it goes to a new file next to it, which gets the owner, the group and
/// the permissions of the old one as far as the system lets us, and is written up to the limit of the size of files. A
/// link stays, and the file that it leads to is written. If the name is that of a device or a pipe, or of standard
/// output, the bytes go there.
///
/// # Errors
///
/// `Unwritten` if no file can be made next to it, or the file that is there can't be written; `Memory` if there is no
/// room for a name.
pub fn begin_whole<'r, R: Files + Print + AllocGlobal>(
    rt: &'r R,
    name: &str,
) -> Result<WholeFile<R::File, Printer<'r, R>>, WriteFault> {
    match place_of(rt, name) {
        Ok(place) => Ok(WholeFile { place }),
        Err(error) => Err(write_fault(error.kind())),
    }
}

/// Ends a file. If all was written to it, it is forced onto the disk and takes its name, and the folder is forced onto
/// the disk after that. Else what was written is removed, but for a device, a pipe and standard output. The name isn't
/// taken if it has meanwhile become that of another file or of a link.
///
/// # Errors
///
/// `Unwritten` if not all was written, or the file doesn't take its name. What has the name is then as it was.
pub fn end_whole<R: Files, O: Drop>(
    rt: &R,
    file: WholeFile<R::File, O>,
    is_whole: bool,
) -> Result<(), WriteFault> {
    match end_place(rt, file.place, is_whole) {
        Ok(()) => Ok(()),
        Err(error) => Err(write_fault(error.kind())),
    }
}

/// Writes a text to the file of this name, whole or not at all; or to a device, a pipe or standard output, as it comes.
///
/// # Errors
///
/// As those of `begin_whole` and `end_whole`.
pub fn put_whole<R: Files + Print + AllocGlobal>(
    rt: &R,
    name: &str,
    text: &[u8],
) -> Result<(), WriteFault> {
    let mut writer = ToWriter::new(begin_whole(rt, name)?);
    let written = put_all(&mut writer, text);
    end_whole(rt, writer.into_inner(), written.is_ok())
}

/// Whether what is written to a place goes to the file that was read.
fn is_read<F: OpenFile, O>(place: &Place<F, O>, read: &Metadata) -> bool {
    match place {
        Place::Part(part) => match &part.old {
            Some(old) => are_same(old, read),
            None => false,
        },
        Place::Device(device) => match device.metadata() {
            Ok(metadata) => are_same(&metadata, read),
            Err(_) => false,
        },
        Place::Output(_) => true,
    }
}

/// Writes a text, as `put_whole` does, to the file of this name, which has been read: by what the system says of it,
/// that file and no other gets the text.
///
/// # Errors
///
/// `Exists` if the name doesn't lead to that file any more: another file has it, a link, or nothing; else as those of
/// `put_whole`.
pub fn put_back<R: Files + Print + AllocGlobal>(
    rt: &R,
    name: &str,
    read: &Metadata,
    text: &[u8],
) -> Result<(), NewFault> {
    let place = match place_of(rt, name) {
        Ok(place) => place,
        Err(error) => return Err(new_fault(error.kind())),
    };
    if !is_read(&place, read) {
        let _ = end_place(rt, place, false);
        return Err(NewFault::Exists);
    }
    let mut writer = ToWriter::new(WholeFile { place });
    let written = put_all(&mut writer, text);
    match end_place(rt, writer.into_inner().place, written.is_ok()) {
        Ok(()) => Ok(()),
        Err(error) => Err(new_fault(error.kind())),
    }
}

/// Looks whether `put_whole` can be expected to write the file of this name, which is there. A file next to it is made
/// as `put_whole` makes one, and taken away again. A device or a pipe isn't opened.
///
/// # Errors
///
/// As those of `begin_whole`.
pub fn check_whole<R: Files + Print + AllocGlobal>(rt: &R, name: &str) -> Result<(), WriteFault> {
    match fs::metadata(rt, name) {
        Ok(metadata) if metadata.is_file() => match begin_whole(rt, name) {
            Ok(file) => {
                let _ = end_whole(rt, file, false);
                Ok(())
            }
            Err(fault) => Err(fault),
        },
        Ok(_) => Ok(()),
        Err(error) => Err(write_fault(error.kind())),
    }
}

/// A file to which bytes are written as they come, or standard output.
#[derive(Drop)]
pub enum CreatedFile<F, O> {
    /// A file.
    File(LimitedFile<F>),
    /// Standard output.
    Output(O),
}

impl<F: Write, O: Write> Write for CreatedFile<F, O> {
    fn write(&mut self, buf: &[u8]) -> io::Result<usize> {
        match self {
            CreatedFile::File(file) => file.write(buf),
            CreatedFile::Output(output) => output.write(buf),
        }
    }

    fn flush(&mut self) -> io::Result<()> {
        match self {
            CreatedFile::File(file) => file.flush(),
            CreatedFile::Output(output) => output.flush(),
        }
    }
}

/// Looks whether a file of this name can be made, where there is none. It is made, and taken away again if the name is
/// still its own.
fn check_make<R: Files + AllocGlobal>(rt: &R, name: &str) -> io::Result<()> {
    let end = end_of_links(rt, name)?;
    let file = create_new(rt, end.as_str())?;
    remove_own(rt, end.as_str(), &file);
    Ok(())
}

/// Looks whether a file of this name can be made, or written if it is there.
fn check_place<R: Files + AllocGlobal>(rt: &R, name: &str) -> io::Result<()> {
    match fs::metadata(rt, name) {
        Ok(metadata) if metadata.is_dir() => Err(io::Error::from(ErrorKind::IsADirectory)),
        Ok(metadata) if !metadata.is_file() => Ok(()),
        Ok(_) => {
            OpenOptions::new().write(true).open(rt, name)?;
            Ok(())
        }
        Err(error) if error.kind() == ErrorKind::NotFound => check_make(rt, name),
        Err(error) => Err(error),
    }
}

/// Looks whether `create` can be expected to make a file of this name. A file that is there stays as it is, and none is
/// left where there was none. A device or a pipe isn't opened.
///
/// # Errors
///
/// `Unwritten` if it can't be made; `Memory` if there is no room for a name.
pub fn check_create<R: Files + AllocGlobal>(rt: &R, name: &str) -> Result<(), WriteFault> {
    if name == STANDARD_OUTPUT {
        return Ok(());
    }
    match check_place(rt, name) {
        Ok(()) => Ok(()),
        Err(error) => Err(write_fault(error.kind())),
    }
}

/// A new file, in place of one of the name, to which bytes are written as they come, as many as a file may have. If the
/// name is that of standard output, the bytes go there.
///
/// # Errors
///
/// `Unwritten` if it can't be made; `Memory` if there is no room for its name.
pub fn create<'r, R: Files + Print>(
    rt: &'r R,
    name: &str,
) -> Result<ToWriter<CreatedFile<R::File, Printer<'r, R>>>, WriteFault> {
    if name == STANDARD_OUTPUT {
        return Ok(ToWriter::new(CreatedFile::Output(io::writer(rt))));
    }
    match fs::create(rt, name) {
        Ok(file) => Ok(ToWriter::new(CreatedFile::File(LimitedFile::new(file)))),
        Err(error) => Err(write_fault(error.kind())),
    }
}
