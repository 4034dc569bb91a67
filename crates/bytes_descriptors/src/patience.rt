//! How long a peer is waited for.
ghost use Rattle.std.specs.Prelude.{◌≡◌, ◌<◌, ◌≤◌, IfOk};
ghost use Rattle.core.specs.Duration.{as_nanos};
ghost use Rattle.bytes_descriptors.specs.Limits.{patience};

use std::io;
use std::io::{ErrorKind, Read, Write};
use std::net::{Shutdown, TcpStream};
use std::os::fd::AsRawFd;
use std::time::{Clock, Duration, Instant};

/// How long a page's connection may take for each of its parts, in seconds: for its first byte, for the rest of its
/// request, for taking the answer, and for ending; and how long a console's may take for ending.
const PATIENCE: u64 = 1;

/// The most reads of what a peer still sends when its connection ends; the time is up long before.
const MOST_READS_AFTER: u32 = 1_000_000;

/// How long each part of a connection may take.
fn patience() -> Duration
    ensures { as_nanos result ≡ patience }
{
    Duration::from_secs(PATIENCE)
}

/// A stream whose reads, or whose writes, together take no longer than a second, from the first one on. So a peer that
/// sends byte by byte doesn't hold anybody up. After a signal the time starts again, since the process may have been
/// stopped.
#[derive(Drop)]
pub struct Patient<'a, R: Clock> {
    stream: &'a TcpStream,
    clock: &'a R,
    since: Option<Instant>,
}

impl<'a, R: Clock> Patient<'a, R> {
    /// Nothing of the stream is read or written yet.
    pub fn new(clock: &'a R, stream: &'a TcpStream) -> Patient<'a, R> {
        Patient {
            stream,
            clock,
            since: None,
        }
    }

    /// How long it may still take.
    ///
    /// # Errors
    ///
    /// `TimedOut` if its time is up, or if the clock can't be read.
    fn left(&mut self) -> io::Result<Duration>
        ensures { IfOk result (λ left. (0 < as_nanos left) × (as_nanos left ≤ patience)) }
    {
        let now = Instant::now(self.clock)?;
        let since = self.since.unwrap_or(now);
        self.since = Some(since);
        let left = patience().saturating_sub(now.saturating_duration_since(since));
        if left.is_zero() {
            return Err(ErrorKind::TimedOut.into());
        }
        Ok(left)
    }

    /// Whether a read or a write is to be tried again, since a signal interrupted it; then its time starts again.
    fn is_interrupted<T>(&mut self, done: &io::Result<T>) -> bool {
        match done {
            Err(error) if error.kind() == ErrorKind::Interrupted => {
                self.since = None;
                true
            }
            _ => false,
        }
    }

    /// Waits for the first byte, and returns whether it has come. It is still to be read.
    fn has_begun(&mut self) -> io::Result<bool> {
        // A loop is proved to end, so this one counts its turns.
        for _ in 0..u64::MAX {
            let left = self.left()?;
            self.stream.set_read_timeout(Some(left))?;
            let peeked = self.stream.peek(&mut [0u8]);
            if !self.is_interrupted(&peeked) {
                return Ok(peeked? == 1);
            }
        }
        Err(ErrorKind::TimedOut.into())
    }
}

impl<R: Clock> Read for Patient<'_, R> {
    fn read(&mut self, buf: &mut [u8]) -> io::Result<usize> {
        for _ in 0..u64::MAX {
            let left = self.left()?;
            self.stream.set_read_timeout(Some(left))?;
            let mut stream = self.stream;
            let read = stream.read(buf);
            if !self.is_interrupted(&read) {
                return read;
            }
        }
        Err(ErrorKind::TimedOut.into())
    }
}

impl<R: Clock> Write for Patient<'_, R> {
    fn write(&mut self, buf: &[u8]) -> io::Result<usize> {
        for _ in 0..u64::MAX {
            let left = self.left()?;
            self.stream.set_write_timeout(Some(left))?;
            let mut stream = self.stream;
            let written = stream.write(buf);
            if !self.is_interrupted(&written) {
                return written;
            }
        }
        Err(ErrorKind::TimedOut.into())
    }

    fn flush(&mut self) -> io::Result<()> {
        Ok(())
    }
}

/// Waits for the first byte of a connection's request, and returns whether it has come.
pub fn has_begun<R: Clock>(clock: &R, stream: &TcpStream) -> bool {
    matches!(Patient::new(clock, stream).has_begun(), Ok(true))
}

/// Whether the peer has sent bytes that nobody has read yet. It waits for nothing.
pub fn has_unread(stream: &TcpStream) -> bool {
    let flags = libc::net::MSG_PEEK | libc::net::MSG_DONTWAIT;
    let mut first = [0u8];
    let peeked = unsafe { libc::net::recv(stream.as_raw_fd(), &mut first, flags) };
    peeked > 0
}

/// Ends a connection: the peer sees the end of what it is sent, and what it still sends is read and dropped, for a
/// second at most. A socket that is closed over unread bytes resets the connection instead, and what the peer hasn't
/// taken by then is lost.
pub fn linger<R: Clock>(clock: &R, stream: &TcpStream) {
    if stream.shutdown(Shutdown::Write).is_err() {
        return;
    }
    let mut buffer = [0; 4096];
    let mut rest = Patient::new(clock, stream);
    for _read in 0..MOST_READS_AFTER {
        match rest.read(&mut buffer) {
            Ok(0) => return,
            Ok(_) => {}
            Err(_) => return,
        }
    }
}
