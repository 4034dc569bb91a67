//! What went wrong while a room was served.

use thiserror::Error;

/// What went wrong first while a room was served.
#[derive(Clone, Copy, Debug, Error)]
pub enum SeatsFault {
    /// 1: there was no memory for the places of the seats, and nobody was served; or none for those who come to a page,
    /// which wasn't served.
    #[error("memory refused")]
    Memory,
    /// 2: a connection couldn't be accepted, for a reason that doesn't pass, and its port was closed.
    #[error("accept failed")]
    Accept,
    /// 3: a thread was refused; its connection was closed, and its seat is free. Or it was a thread of a page, which
    /// wasn't served, or that which reports that a port was closed.
    #[error("thread refused")]
    Thread,
    /// 4: the input that closes the room couldn't be read, which closed it.
    #[error("input failed")]
    Input,
    /// 5: a seat wasn't back, or what the seats have seen couldn't be compared. This doesn't happen while seats and
    /// room are of one `power_on`.
    #[error("a seat isn't back")]
    Unreturned,
}
