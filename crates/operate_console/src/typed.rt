//! Lines that are typed.
ghost use Rattle.std.specs.Prelude.{◌≡◌, true, false, IfOk};
ghost use Rattle.operate_console.specs.Ends.{failure_of, is_at_end, is_last_typed, is_read, is_unkept, is_write};

use crate::ends::Failure;
use bytes_streams::Source;
use std::alloc::{AllocError, Global};

/// How many bytes of a line stay: the most that it has, a carriage return, and one more, which says that it is too
/// long.
const KEPT_BYTES: usize = 202;

/// The most bytes that are read for a line.
const MOST_BYTES: u32 = 16_777_216;

/// The byte that a terminal gives for Ctrl-C.
const CTRL_C: u8 = 3;

/// What was typed.
#[derive(Drop)]
pub enum Typed {
    /// A line, without the byte that ends it.
    Line(Vec<u8>),
    /// A line that Ctrl-C ended, which counts for nothing.
    Dropped,
    /// What comes after the last line, at the end of the input.
    Last(Vec<u8>),
}

/// Adds a byte to a line, or drops it if the line is too long.
fn push_byte(line: &mut Vec<u8>, byte: u8) -> Result<(), AllocError> {
    if line.len() >= KEPT_BYTES {
        return Ok(());
    }
    Ok(line.push(byte)?)
}

/// Drops one carriage return at the end of a line.
fn drop_carriage_return(line: &mut Vec<u8>) {
    if let Some(b'\r') = line.last() {
        line.pop();
    }
}

/// Reads a line.
///
/// # Errors
///
/// `Read` if a read fails, `Memory` if there is no memory for the line, `Bound` if it doesn't end.
#[tactic(auto, using(crate::proofs::EndLemmas::at_end))]
pub(crate) fn read_line<R: Source>(alloc: Global, reader: &mut R) -> Result<Typed, Failure>
    requires { R.has_failed reader.old ≡ false }
    ensures read { R.has_failed reader.new ≡ is_read (failure_of result) }
    ensures write { is_write (failure_of result) ≡ false }
    ensures kept { is_unkept (failure_of result) ≡ false }
    ensures end { IfOk result (λ typed. is_last_typed typed ≡ true → is_at_end (R.left reader.new) ≡ true) }
{
    let mut line = Vec::new(alloc);
    for _read in 0..MOST_BYTES {
        match reader.next_byte() {
            Ok(Some(b'\n')) => {
                drop_carriage_return(&mut line);
                return Ok(Typed::Line(line));
            }
            Ok(Some(byte)) if byte == CTRL_C => return Ok(Typed::Dropped),
            Ok(Some(byte)) => {
                if push_byte(&mut line, byte).is_err() {
                    return Err(Failure::Memory);
                }
            }
            Ok(None) => return Ok(Typed::Last(line)),
            Err(_) => return Err(Failure::Read),
        }
    }
    Err(Failure::Bound)
}
