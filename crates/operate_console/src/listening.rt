//! A person who types while the machine runs.
ghost use Rattle.std.specs.Prelude.{◌≡◌, ◌||◌, true, false, None, Ok};
ghost use Rattle.operate_console.specs.Ends.{failure_of, heard_so, is_last_typed, source_so};

use crate::ends::Failure;
use crate::manner::Manner;
use crate::terminal::Terminal;
use crate::typed::{Typed, read_line};
use crate::waiting::Waiting;
use bytes_streams::Source;
use operate_sitting::Interrupter;
use std::alloc::{AllocError, Global};

/// How many lines are read at a time.
const MOST_LINES: u32 = 1_000;

/// Whether a line was typed that interrupts a run: it is empty, or Ctrl-C ended it. Lines that were typed are read until
/// there is such a line, and the others wait for their turn. At the end of the input a run is interrupted too. Nothing
/// is read where nobody is at a terminal.
///
/// # Errors
///
/// As those of `read_line`, and `Memory` if there is none for the line that waits.
pub(crate) fn is_interrupted<R: Source + Terminal>(
    alloc: Global,
    manner: &Manner,
    reader: &mut R,
    waiting: &mut Waiting,
) -> Result<bool, Failure>
    requires { source_so false waiting.old.has_ended (R.has_failed reader.old) (R.left reader.old) ≡ true }
    ensures attended { result ≡ Ok true → manner.now.limit ≡ None }
    ensures heard { heard_so (failure_of result) waiting.new.has_ended (R.has_failed reader.new)
        (R.left reader.new) ≡ true }
{
    for _line in 0..MOST_LINES {
        if manner.limit.is_some() || !reader.is_ready() {
            return Ok(false);
        }
        match is_interrupted_by_next(alloc, reader, waiting) {
            Ok(true) => return Ok(true),
            Ok(false) => {}
            Err(why) => return Err(why),
        }
    }
    Ok(false)
}

/// Whether the next line interrupts a run.
#[tactic(auto, using(crate::proofs::EndLemmas::source_good, crate::proofs::EndLemmas::heard_failed, crate::proofs::EndLemmas::heard_typed))]
fn is_interrupted_by_next<R: Source>(
    alloc: Global,
    reader: &mut R,
    waiting: &mut Waiting,
) -> Result<bool, Failure>
    requires { source_so false waiting.old.has_ended (R.has_failed reader.old) (R.left reader.old) ≡ true }
    ensures { heard_so (failure_of result) waiting.new.has_ended (R.has_failed reader.new) (R.left reader.new) ≡ true }
{
    waiting.has_ended = false;
    match read_line(alloc, reader) {
        Ok(typed) => match interrupts(typed, waiting) {
            Ok(is_so) => Ok(is_so),
            Err(_) => Err(Failure::Memory),
        },
        Err(why) => Err(why),
    }
}

/// Whether what was typed interrupts a run. If not, it waits.
fn interrupts(typed: Typed, waiting: &mut Waiting) -> Result<bool, AllocError>
    ensures { waiting.new.has_ended ≡ is_last_typed typed || waiting.old.has_ended }
{
    match typed {
        Typed::Dropped => Ok(true),
        Typed::Line(line) => {
            if line.is_empty() {
                return Ok(true);
            }
            match waiting.push_typed(line.as_slice()) {
                Ok(()) => Ok(false),
                Err(fault) => Err(fault),
            }
        }
        Typed::Last(line) => match waiting.end_input(line.as_slice()) {
            Ok(()) => Ok(true),
            Err(fault) => Err(fault),
        },
    }
}

/// Who listens to a person at a terminal while something takes long. What is typed meanwhile waits for its turn.
#[derive(Drop)]
pub(crate) struct Listener {
    alloc: Global,
    manner: Manner,
    /// The lines that wait.
    pub(crate) waiting: Waiting,
    /// Why the sitting ends, if something failed meanwhile.
    pub(crate) end: Option<Failure>,
}

impl Listener {
    /// Who listens so, with these lines that wait by now.
    pub(crate) fn new(alloc: Global, manner: &Manner, waiting: Waiting) -> Listener
        ensures end { result.end ≡ None }
        ensures waiting { result.waiting.has_ended ≡ waiting.has_ended }
    {
        Listener {
            alloc,
            manner: *manner,
            waiting,
            end: None,
        }
    }
}

impl<R: Source + Terminal> Interrupter<R> for Listener {
    ghost use Rattle.operate_console.specs.Ends.{heard_so};

    // A read has failed only if the sitting ends for it.
    ghost is_sound = { λ it reader.
        heard_so it.end it.waiting.has_ended (R.has_failed reader) (R.left reader) };

    fn interrupts(&mut self, console: &mut R) -> bool {
        match self.end {
            Some(_) => return true,
            None => {}
        }
        match is_interrupted(self.alloc, &self.manner, console, &mut self.waiting) {
            Ok(is_so) => is_so,
            Err(end) => {
                self.end = Some(end);
                true
            }
        }
    }
}
