//! A connection of a console, while its room is open.

use libc::net::{POLLOUT, poll};
use libc::types::pollfd;
use std::io;
use std::io::{ErrorKind, Read, Write};
use std::net::TcpStream;
use std::os::fd::AsRawFd;
use std::sync::atomic::AtomicBool;
use std::sync::atomic::Ordering::SeqCst;
use std::time::Duration;

/// After how long a connection that waits for its peer looks again whether the room is being closed, in milliseconds.
const LOOK: u64 = 100;

/// A connection that waits for its peer while the room is open. Once the room is being closed, a read takes what has
/// come, and is at the end when nothing has; once that is over, there is nothing more to read, and a write for which there
/// is no room at once fails.
#[derive(Clone, Copy)]
pub(crate) struct WhileOpen<'a> {
    stream: &'a TcpStream,
    is_closing: &'a AtomicBool,
    is_over: &'a AtomicBool,
}

impl<'a> WhileOpen<'a> {
    /// A connection of a room of which these say whether it is being closed, and whether its peers have had their time.
    ///
    /// # Errors
    ///
    /// If the system sets no timeouts.
    pub(crate) fn new(
        stream: &'a TcpStream,
        is_closing: &'a AtomicBool,
        is_over: &'a AtomicBool,
    ) -> io::Result<WhileOpen<'a>> {
        let look = Some(Duration::from_millis(LOOK));
        stream.set_read_timeout(look)?;
        stream.set_write_timeout(look)?;
        Ok(WhileOpen {
            stream,
            is_closing,
            is_over,
        })
    }

    /// Waits until a read gives something, and returns whether it will; else the room is being closed.
    ///
    /// # Errors
    ///
    /// If the connection has failed. The system says so once: a read after that would be at the end.
    fn has_more(&self) -> io::Result<bool> {
        let mut first = [0u8];
        for _ in 0..u64::MAX {
            let is_closing = self.is_closing.load(SeqCst);
            if self.is_over.load(SeqCst) {
                return Ok(false);
            }
            match self.stream.peek(&mut first) {
                Err(error) if has_waited(&error) => {
                    if is_closing {
                        return Ok(false);
                    }
                }
                peeked => return peeked.map(|_| true),
            }
        }
        Ok(false)
    }
}

/// Whether this is no failure: nothing came or was taken while the connection waited, or the system interrupted it.
fn has_waited(error: &io::Error) -> bool {
    matches!(error.kind(), ErrorKind::WouldBlock | ErrorKind::Interrupted)
}

impl Read for WhileOpen<'_> {
    fn read(&mut self, buf: &mut [u8]) -> io::Result<usize> {
        if !self.has_more()? {
            return Ok(0);
        }
        let mut stream = self.stream;
        stream.read(buf)
    }
}

impl Write for WhileOpen<'_> {
    /// Writes once the peer has taken so much that the system calls the connection writable, which it does while a third
    /// of its buffer is free. So a reply goes out whole; or, once the time of the peers is over, not at all.
    fn write(&mut self, buf: &[u8]) -> io::Result<usize> {
        let mut stream = self.stream;
        for _ in 0..u64::MAX {
            let is_over = self.is_over.load(SeqCst);
            let mut asked = [pollfd {
                fd: stream.as_raw_fd(),
                events: POLLOUT,
                revents: 0,
            }];
            if poll(&mut asked, if is_over { 0 } else { LOOK as i32 }) > 0 {
                match stream.write(buf) {
                    Err(error) if has_waited(&error) && !is_over => {}
                    written => return written,
                }
            } else if is_over {
                break;
            }
        }
        Err(ErrorKind::TimedOut.into())
    }

    fn flush(&mut self) -> io::Result<()> {
        Ok(())
    }
}
