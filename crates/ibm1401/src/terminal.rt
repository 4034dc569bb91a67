//! Standard input, where a person may type.
ghost use Rattle.std.specs.Prelude.{◌≡◌, false};

use bytes_streams::{Failed, FromReader, Source};
use libc::net::{POLLIN, poll};
use libc::types::pollfd;
use operate_console::Terminal;
use std::io::Read;

/// The number of standard input.
const STANDARD_INPUT: i32 = 0;

/// Standard input, by a reader that asks a terminal for one byte with each read: so none waits where it isn't seen.
#[derive(Drop)]
pub struct FromTerminal<R> {
    reader: FromReader<R>,
    is_typed: bool,
}

impl<R: Read> FromTerminal<R> {
    /// What this reader of standard input gives. A file is always ready, and so is the end of input; so this is asked
    /// only where a person types.
    pub fn new(reader: R, is_typed: bool) -> FromTerminal<R>
        ensures left { ⟦<FromTerminal<R> as Source>⟧.left result ≡ R.remaining reader }
        ensures failed { ⟦<FromTerminal<R> as Source>⟧.has_failed result ≡ false }
    {
        FromTerminal {
            reader: FromReader::new(reader),
            is_typed,
        }
    }
}

impl<R: Read> Source for FromTerminal<R> {
    ghost left = { λ it. ⟦<FromReader<R> as Source>⟧.left it.reader };

    ghost has_failed = { λ it. ⟦<FromReader<R> as Source>⟧.has_failed it.reader };

    fn has_failed(&self) -> bool {
        self.reader.has_failed()
    }

    fn next_byte(&mut self) -> Result<Option<u8>, Failed> {
        self.reader.next_byte()
    }
}

impl<R: Read> Terminal for FromTerminal<R> {
    fn is_ready(&self) -> bool {
        let mut asked = [pollfd {
            fd: STANDARD_INPUT,
            events: POLLIN,
            revents: 0,
        }];
        self.is_typed && poll(&mut asked, 0) > 0
    }
}
