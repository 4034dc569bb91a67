//! Lines that wait for their turn: those of files, and those typed ahead.
ghost use Rattle.std.specs.Prelude.{◌≡◌, ◌≤◌, true, false, length};

use crate::script::Script;
use machine_notation::put_digits;
use std::alloc::{AllocError, Global};

/// How deep `do` goes.
const DEEPEST: usize = 10;

/// Lines, each but perhaps the last with a line feed, and how many bytes of them were taken.
#[derive(Drop)]
struct Lines {
    text: Vec<u8>,
    taken: usize,
}

/// How many bytes the first line of a text has.
pub(crate) fn line_len(text: &[u8]) -> usize
    ensures { result ≤ length text.now }
{
    text.iter().take_while(|byte| **byte != b'\n').count()
}

/// A line without one carriage return at its end.
fn without_carriage_return(line: &[u8]) -> &[u8] {
    match line.split_last() {
        Some((b'\r', front)) => front,
        _ => line,
    }
}

impl Lines {
    /// These lines.
    fn of_text(text: Vec<u8>) -> Lines {
        Lines { text, taken: 0 }
    }

    /// Takes the first line, if there is one.
    fn take(&mut self, alloc: Global) -> Result<Option<Vec<u8>>, AllocError> {
        if self.taken >= self.text.len() {
            return Ok(None);
        }
        let rest = &self.text[self.taken..];
        let len = line_len(rest);
        let line = Vec::from_slice(alloc, without_carriage_return(&rest[..len]))?;
        self.taken += len + 1;
        Ok(Some(line))
    }

    /// Adds a line at the end.
    fn push(&mut self, line: &[u8]) -> Result<(), AllocError> {
        self.text.extend_from_slice(line)?;
        Ok(self.text.push(b'\n')?)
    }
}

/// The lines of a file, its name, and how many of the lines were taken.
#[derive(Drop)]
struct NamedLines {
    name: Vec<u8>,
    lines: Lines,
    number: u64,
}

impl NamedLines {
    /// Takes the first line, if there is one.
    fn take(&mut self, alloc: Global) -> Result<Option<Vec<u8>>, AllocError> {
        let line = self.lines.take(alloc)?;
        if line.is_some() {
            self.number = self.number.saturating_add(1);
        }
        Ok(line)
    }

    /// Adds the name of the file, and the number of the line that was taken last.
    fn put_place(&self, text: &mut Vec<u8>) -> Result<(), AllocError> {
        text.extend_from_slice(self.name.as_slice())?;
        text.extend_from_slice(b": line ".as_slice())?;
        put_digits(text, 1, self.number)?;
        text.extend_from_slice(b": ".as_slice())
    }
}

/// Lines that wait: those of files, the file that was begun last first, and then those that were typed ahead; and where
/// the last line came from that was taken.
#[derive(Drop)]
pub(crate) struct Waiting {
    scripts: Vec<NamedLines>,
    typed: Lines,
    /// Whether the input has ended. What is typed after its end belongs to it too.
    pub(crate) has_ended: bool,
    place: Vec<u8>,
}

impl Waiting {
    /// None.
    pub(crate) fn new(alloc: Global) -> Waiting
        ensures { result.has_ended ≡ false }
    {
        Waiting {
            scripts: Vec::new(alloc),
            typed: Lines::of_text(Vec::new(alloc)),
            has_ended: false,
            place: Vec::new(alloc),
        }
    }

    /// Whether `do` may begin another file.
    pub(crate) fn may_begin(&self) -> bool {
        self.scripts.len() < DEEPEST
    }

    /// The lines of a file come next.
    pub(crate) fn begin(&mut self, script: Script) -> Result<(), AllocError>
        ensures { self.new.has_ended ≡ self.old.has_ended }
    {
        let Script { name, text } = script;
        let lines = NamedLines {
            name,
            lines: Lines::of_text(text),
            number: 0,
        };
        Ok(self.scripts.push(lines)?)
    }

    /// A line that was typed ahead waits.
    pub(crate) fn push_typed(&mut self, line: &[u8]) -> Result<(), AllocError>
        ensures { self.new.has_ended ≡ self.old.has_ended }
    {
        self.typed.push(line)
    }

    /// The input has ended, after these bytes, which are a line if there are any.
    pub(crate) fn end_input(&mut self, last: &[u8]) -> Result<(), AllocError>
        ensures { self.new.has_ended ≡ true }
    {
        self.has_ended = true;
        if last.is_empty() {
            return Ok(());
        }
        self.typed.push(last)
    }

    /// No line of a file is done any more, after a fault.
    pub(crate) fn end_files(&mut self)
        ensures { self.new.has_ended ≡ self.old.has_ended }
    {
        self.scripts.clear();
    }

    /// The file and the line that the last line came from, as its fault has them in front; empty if it was typed.
    pub(crate) fn place(&self) -> &[u8] {
        self.place.as_slice()
    }

    /// Takes the next line of the files, if there is one.
    ///
    /// # Errors
    ///
    /// If there is no memory for it.
    pub(crate) fn take_of_files(&mut self, alloc: Global) -> Result<Option<Vec<u8>>, AllocError>
        ensures { self.new.has_ended ≡ self.old.has_ended }
    {
        self.place.clear();
        for _file in 0..self.scripts.len() {
            let Some(mut script) = self.scripts.pop() else {
                return Ok(None);
            };
            if let Some(line) = script.take(alloc)? {
                script.put_place(&mut self.place)?;
                self.scripts.push(script)?;
                return Ok(Some(line));
            }
        }
        Ok(None)
    }

    /// Takes the next line that was typed ahead, if there is one.
    ///
    /// # Errors
    ///
    /// If there is no memory for it.
    pub(crate) fn take_typed(&mut self, alloc: Global) -> Result<Option<Vec<u8>>, AllocError>
        ensures { self.new.has_ended ≡ self.old.has_ended }
    {
        self.typed.take(alloc)
    }
}
