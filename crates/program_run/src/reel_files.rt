//! The files of a job's reels: they are read before it, and get its reels when it has ended.
ghost use Rattle.std.specs.Prelude.{◌≡◌, ◌⊎◌, [], ◌∷◌, false, true, List, Option, IfOk, IfErr, OnOk, is_some, option_map};
ghost use Rattle.program_run.specs.GivenReels.{GivenReel, IsGiven};
ghost use Rattle.program_run.specs.RunFile.{IsUnreadFile};
ghost use Rattle.program_run.specs.RunReels.{IsNotPut, IsReplaced, IsThere};
ghost use Rattle.program_run.specs.WrittenReels.{HandsOver, ReelFile, reel_file};

use crate::fault::RunFault;
use crate::inputs::unread;
use crate::outputs::unwritten_file;
use bytes_descriptors::{NewFault, ReadFile, put_back, put_beside, put_new, read_whole_reel};
use std::alloc::Global;
use std::fs::Metadata;
use std::rt::Files;

/// Gives the texts of reels, and takes those that are to be written to files of these names.
pub trait ReelFiles {
    // What was read, in order, if that is known.
    ghost given: { Self → Option (List GivenReel) };

    // What was handed over, in order, if that is known.
    ghost handed: { Self → Option (List ReelFile) };

    /// The text of the file of this name.
    ///
    /// # Errors
    ///
    /// `File` and `Memory`.
    fn read(&mut self, name: &str) -> Result<Vec<u8>, RunFault>
        ensures given { IfOk result (λ text. IsGiven (given self.old) (given self.new) name.now text.items) }
        ensures handed { handed self.new ≡ handed self.old }
        ensures fault { IfErr result (IsUnreadFile name.now) };

    /// Writes a reel's text to the file of this name, which was read, whole or not at all; there is no text if memory for
    /// it was refused.
    ///
    /// # Errors
    ///
    /// `Unwritten`, `Replaced` if the name isn't that file's any more, and `Memory`.
    fn put(&mut self, name: &str, text: Option<Vec<u8>>) -> Result<(), RunFault>
        ensures handed { HandsOver (handed self.old) (handed self.new)
            (reel_file name.now false (option_map (λ text. text.items) text) ∷ []) }
        ensures given { given self.new ≡ given self.old }
        ensures whole { OnOk result (is_some text ≡ true) }
        ensures fault { IfErr result (λ why. IsNotPut name.now why ⊎ IsReplaced name.now why) };

    /// Writes a reel's text to a new file of this name, whole or not at all; there is no text if memory for it was
    /// refused.
    ///
    /// # Errors
    ///
    /// `Unwritten`, `Exists` if the file is there, and `Memory`.
    fn put_new(&mut self, name: &str, text: Option<Vec<u8>>) -> Result<(), RunFault>
        ensures handed { HandsOver (handed self.old) (handed self.new)
            (reel_file name.now true (option_map (λ text. text.items) text) ∷ []) }
        ensures given { given self.new ≡ given self.old }
        ensures whole { OnOk result (is_some text ≡ true) }
        ensures fault { IfErr result (λ why. IsNotPut name.now why ⊎ IsThere name.now why) };
}

/// A file that was read, by its name then, and what the system says of it.
#[derive(Drop)]
struct KnownFile {
    name: String,
    metadata: Metadata,
}

/// The files of the system. It isn't known what they have, nor what they were handed.
#[derive(Drop)]
pub struct NamedFiles<'a, R> {
    rt: &'a R,
    known: Vec<KnownFile>,
}

impl<'a, R: AllocGlobal> NamedFiles<'a, R> {
    /// Those of this runtime.
    pub fn new(rt: &'a R) -> NamedFiles<'a, R> {
        NamedFiles {
            rt,
            known: Vec::new(rt.alloc()),
        }
    }
}

impl<R: Files + Print + AllocGlobal> ReelFiles for NamedFiles<'_, R> {
    ghost use Rattle.std.specs.Prelude.{None};

    ghost given = { λ _. None };

    ghost handed = { λ _. None };

    fn read(&mut self, name: &str) -> Result<Vec<u8>, RunFault> {
        let alloc = self.rt.alloc();
        let ReadFile { bytes, metadata } = match read_whole_reel(self.rt, name) {
            Ok(read) => read,
            Err(fault) => return Err(unread(alloc, name, fault)),
        };
        let Ok(name) = String::from_str(alloc, name) else {
            return Err(RunFault::Memory);
        };
        match self.known.push(KnownFile { name, metadata }) {
            Ok(()) => Ok(bytes),
            Err(_) => Err(RunFault::Memory),
        }
    }

    fn put(&mut self, name: &str, text: Option<Vec<u8>>) -> Result<(), RunFault> {
        let Some(text) = text else {
            return Err(RunFault::Memory);
        };
        for known in self.known.iter() {
            if known.name.as_str() == name {
                return put_known(self.rt, name, &known.metadata, text.as_slice());
            }
        }
        Err(unwritten_file(self.rt.alloc(), name))
    }

    fn put_new(&mut self, name: &str, text: Option<Vec<u8>>) -> Result<(), RunFault> {
        let Some(text) = text else {
            return Err(RunFault::Memory);
        };
        match put_new(self.rt, name, text.as_slice()) {
            Ok(()) => Ok(()),
            Err(NewFault::Memory) => Err(RunFault::Memory),
            Err(NewFault::Exists) => Err(exists(self.rt.alloc(), name)),
            Err(NewFault::Unwritten) => Err(unwritten_file(self.rt.alloc(), name)),
        }
    }
}

/// Writes a reel's text to the file of this name, if it is still the one that was read; else to a new file next to it.
fn put_known<R: Files + Print + AllocGlobal>(
    rt: &R,
    name: &str,
    read: &Metadata,
    text: &[u8],
) -> Result<(), RunFault>
    ensures { IfErr result (λ why. IsNotPut name.now why ⊎ IsReplaced name.now why) }
{
    match put_back(rt, name, read, text) {
        Ok(()) => return Ok(()),
        Err(NewFault::Memory) => return Err(RunFault::Memory),
        Err(NewFault::Unwritten) => return Err(unwritten_file(rt.alloc(), name)),
        Err(NewFault::Exists) => {}
    }
    let Ok(owned) = String::from_str(rt.alloc(), name) else {
        return Err(RunFault::Memory);
    };
    match put_beside(rt, name, "reel", text) {
        Ok(beside) => Err(RunFault::Replaced(owned, beside)),
        Err(NewFault::Memory) => Err(RunFault::Memory),
        Err(NewFault::Exists | NewFault::Unwritten) => Err(RunFault::Unwritten(owned)),
    }
}

/// The fault of a file of this name that there is already.
pub(crate) fn exists(alloc: Global, name: &str) -> RunFault
    ensures { IsThere name.now result }
{
    match String::from_str(alloc, name) {
        Ok(name) => RunFault::Exists(name),
        Err(_) => RunFault::Memory,
    }
}
