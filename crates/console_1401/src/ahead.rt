//! What a console reads of a connection.
ghost use Rattle.std.specs.Prelude.{◌≡◌, []};
ghost use Rattle.std.specs.Io.Buffered.{reader_buffer, reader_inner};

use std::alloc::Global;
use std::io::{BufReader, Read};

/// How many bytes of a connection are read at a time at most.
const READ_AHEAD: usize = 4096;

/// The bytes of a connection, of which as many are read at a time as are there; one by one if there is no memory to
/// hold them. Those after QUIT are nobody else's, since the connection ends with it.
pub fn ahead_of<I: Read + Copy>(alloc: Global, connection: I) -> BufReader<I>
    ensures connection { reader_inner result ≡ connection }

    // Nothing of it is read yet.
    ensures empty { reader_buffer result ≡ [] }
{
    if let Ok(reader) = BufReader::with_capacity(alloc, READ_AHEAD, connection) {
        return reader;
    }
    match BufReader::with_capacity(alloc, 0, connection) {
        Ok(reader) => reader,
        Err(_) => unreachable!(),
    }
}
