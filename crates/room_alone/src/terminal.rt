//! A session on a machine at power-on.
ghost use Rattle.std.specs.Prelude.{◌≡◌, ◌↔◌, false};
ghost use Rattle.core_1401.specs.Storage.{is_core_size};
ghost use Rattle.room_alone.specs.Console.{ConsoleDid, streams};

use crate::terminal_fault::{ConsoleFault, ended};
use crate::{Room, session};
use bytes_streams::{Sink, Source};
use core_1401::CoreFault;
use std::alloc::Global;

/// One session at the console of a new room, with a machine of this size.
///
/// # Errors
///
/// `Size` or `Memory` if there is no such room, else `Ended` with what ended the session, unless that was QUIT or the
/// end of the input.
pub fn console<R: Source, W: Sink>(
    alloc: Global,
    size: u16,
    reader: &mut R,
    writer: &mut W,
) -> Result<(), ConsoleFault>
    ensures size { (result ≡ Err ConsoleFault.Size) ↔ (is_core_size size ≡ false) }
    ensures session { ConsoleDid size (streams (R.left reader.old) (W.received writer.old))
        (streams (R.left reader.new) (W.received writer.new)) result }
{
    let mut room = match Room::power_on(alloc, size) {
        Ok(room) => room,
        Err(CoreFault::Size) => return Err(ConsoleFault::Size),
        Err(CoreFault::Memory) => return Err(ConsoleFault::Memory),
    };
    let end = session(alloc, &mut room, reader, writer);
    ended(end).map_err(ConsoleFault::Ended)
}
