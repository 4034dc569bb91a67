//! Why no room is opened, or what went wrong in it.

use crate::HoldFault;
use room_files::KeepFault;
use serving_room::SeatsFault;
use std::io;
use thiserror::Error;

/// What a room that operators share may fail by.
#[derive(Debug, Drop, Error)]
pub enum OpenFault {
    /// There is no such machine, image or journal, memory was refused, standard output took nothing, or an entry wasn't
    /// kept: a session at a console fails by that too.
    #[error("{0}")]
    Hold(HoldFault),
    /// There is no place for a seat's reader.
    #[error("no reader")]
    NoReader,
    /// The journal has entries of this seat, and the room that goes on hasn't got it.
    #[error("there is no seat {0}, whose commands the journal has")]
    NoSeat(u8),
    /// The port can't be had.
    #[error("port refused")]
    Port,
    /// A connection couldn't be accepted, and not each seat had its console.
    #[error("accept failed")]
    Accept,
    /// A thread was refused, and not each seat had its console.
    #[error("thread refused")]
    Thread,
    /// This went wrong in a room whose seats are taken again.
    #[error("{0}")]
    Seats(SeatsFault),
}

/// Standard output took nothing of a report.
pub(crate) fn not_told(_: io::Error) -> OpenFault {
    OpenFault::Hold(HoldFault::Output)
}

/// A journal that isn't kept, or isn't taken up.
pub(crate) fn not_kept(fault: KeepFault) -> OpenFault {
    OpenFault::Hold(HoldFault::Kept(fault))
}
