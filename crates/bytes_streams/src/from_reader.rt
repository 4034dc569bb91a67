//! A source of std's readers.
ghost use Rattle.std.specs.Prelude.{◌≡◌, ◌==◌, false, if◌then◌else◌, Ok, None, Some, IsErr, MatchResult};

use crate::failure::Failed;
use crate::source::Source;
use std::io;
use std::io::Read;

/// Asks a reader for one byte with each read, and so never for more than was asked of it. An interrupted read is a
/// failed one.
#[derive(Drop)]
pub struct FromReader<R> {
    reader: R,
    failed: bool,
}

impl<R: Read> FromReader<R> {
    /// A source of what is left of this reader.
    pub fn new(reader: R) -> FromReader<R>
        ensures left { ⟦<FromReader<R> as Source>⟧.left result ≡ R.remaining reader }
        ensures failed { ⟦<FromReader<R> as Source>⟧.has_failed result ≡ false }
    {
        FromReader {
            reader,
            failed: false,
        }
    }

    /// The reader.
    pub fn into_inner(self) -> R
        ensures { R.remaining result ≡ ⟦<FromReader<R> as Source>⟧.left self }
    {
        let Self { reader, failed: _ } = self;
        reader
    }
}

impl<R: Read> Source for FromReader<R> {
    ghost left = { λ s. R.remaining s.reader };

    ghost has_failed = { λ s. s.failed };

    fn has_failed(&self) -> bool {
        self.failed
    }

    fn next_byte(&mut self) -> Result<Option<u8>, Failed> {
        let mut byte = [0u8];
        let read = byte_read(self.reader.read(&mut byte), byte[0]);
        self.failed = read.is_err();
        read
    }
}

/// What a read of one byte gave: that byte, or `None` at the end.
///
/// # Errors
///
/// Exactly if the read failed.
fn byte_read(read: Result<usize, io::Error>, byte: u8) -> Result<Option<u8>, Failed>
    ensures { MatchResult read (λ n. result ≡ Ok (if n == 0 then None else Some byte)) (λ _. IsErr result) }
{
    match read {
        Ok(0) => Ok(None),
        Ok(_) => Ok(Some(byte)),
        Err(_) => Err(Failed),
    }
}
