//! A sink of std's writers.
ghost use Rattle.std.specs.Prelude.{◌≡◌, ◌≢◌, false, Ok, IsErr, IfOk, OnErr};

use crate::failure::Failed;
use crate::sink::Sink;
use std::io;
use std::io::Write;

/// Hands bytes to a writer, with one write each time. The writer must keep none of them back, as one with a buffer
/// would. An interrupted write is a failed one.
#[derive(Drop)]
pub struct ToWriter<W> {
    writer: W,
    failed: bool,
}

impl<W: Write> ToWriter<W> {
    /// A sink that adds to what this writer has.
    pub fn new(writer: W) -> ToWriter<W>
        ensures received { ⟦<ToWriter<W> as Sink>⟧.received result ≡ W.contents writer }
        ensures failed { ⟦<ToWriter<W> as Sink>⟧.has_failed result ≡ false }
    {
        ToWriter {
            writer,
            failed: false,
        }
    }

    /// The writer.
    pub fn into_inner(self) -> W
        ensures { W.contents result ≡ ⟦<ToWriter<W> as Sink>⟧.received self }
    {
        let Self { writer, failed: _ } = self;
        writer
    }
}

impl<W: Write> Sink for ToWriter<W> {
    ghost received = { λ s. W.contents s.writer };

    ghost has_failed = { λ s. s.failed };

    fn has_failed(&self) -> bool {
        self.failed
    }

    fn put(&mut self, bytes: &[u8]) -> Result<usize, Failed> {
        let write = bytes_written(self.writer.write(bytes), bytes.len());
        self.failed = write.is_err();
        write
    }
}

/// How many bytes a write took of those given.
///
/// # Errors
///
/// Exactly if the write failed, or took none of some bytes.
fn bytes_written(write: Result<usize, io::Error>, given: usize) -> Result<usize, Failed>
    ensures ok { IfOk write (λ n. (n ≡ 0 → given ≡ 0) → result ≡ Ok n) }
    ensures none { IfOk write (λ n. n ≡ 0 → given ≢ 0 → IsErr result) }
    ensures err { OnErr write (IsErr result) }
{
    match write {
        Ok(n) if n > 0 || given == 0 => Ok(n),
        _ => Err(Failed),
    }
}
