//! A listener: how many connections wait at it, and what is done if it couldn't accept one.

use std::io::Error;
use std::net::TcpListener;
use std::os::fd::AsRawFd;
use std::thread;
use std::time::{Clock, Duration};

/// How many connections wait at a listener until they are accepted. The system may be set to let fewer wait.
const MOST_WAITING: i32 = 1024;

/// Why there is no connection after all, as Linux numbers it: the wait was interrupted (4), or the connection ended or
/// failed before it was accepted (64, 71, 92, 100, 101, 103, 110, 111, 112 and 113).
const GONE: [i32; 11] = [4, 64, 71, 92, 100, 101, 103, 110, 111, 112, 113];

/// Why a connection isn't accepted yet: none is there (11), memory (12) or buffers (105) are short, or the system (23) or
/// the process (24) has no handle left.
const SHORT: [i32; 5] = [11, 12, 23, 24, 105];

/// How long the first pause is, in milliseconds.
const FIRST: u64 = 10;

/// How long a pause is at most, in milliseconds.
const LONGEST: u64 = 1000;

/// Whether a connection wasn't accepted because it was gone by then. The next one may be accepted.
pub fn is_gone(error: &Error) -> bool {
    match error.raw_os_error() {
        Some(code) => GONE.contains(&code),
        None => false,
    }
}

/// Whether a connection that wasn't accepted, or the next one, may be accepted later. Any other reason lies in the
/// listener, and doesn't pass.
pub fn passes(error: &Error) -> bool {
    match error.raw_os_error() {
        Some(code) => GONE.contains(&code) || SHORT.contains(&code),
        None => false,
    }
}

/// A pause that grows: ten milliseconds, and then each time twice as long as before, up to a second.
#[derive(Drop)]
pub struct Pause {
    millis: u64,
}

impl Pause {
    /// The first pause.
    pub fn new() -> Pause {
        Pause { millis: FIRST }
    }

    /// Sleeps for it. The next one is longer.
    pub fn sleep<R: Clock>(&mut self, clock: &R) {
        thread::sleep(clock, Duration::from_millis(self.millis));
        self.millis = self.millis.saturating_mul(2).min(LONGEST);
    }
}

/// Lets more connections wait at a listener than the 128 that it begins with. The system drops a connection for which
/// there is no room, and its client tries again only after a second, then after two and four. If the system refuses,
/// the listener is as it was.
pub fn lengthen_queue(listener: &TcpListener) {
    let _lengthened = libc::net::listen(listener.as_raw_fd(), MOST_WAITING);
}

/// Shuts a listener down: a thread that waits for its next connection waits no more, and whoever connects is refused.
/// A connection would wake the thread too, but needs a handle of the system, which may have none left.
pub fn shut_down(listener: &TcpListener) {
    let _shut = libc::net::shutdown(listener.as_raw_fd(), libc::net::SHUT_RD);
}
