//! A source at which a person may type.

use bytes_streams::FromReader;
use std::io::Read;

/// What a source says of a person who types at it.
pub trait Terminal {
    /// Whether a read would give a byte, or the end of input, without waiting. Nothing is claimed of it.
    fn is_ready(&self) -> bool;
}

/// A reader at which nobody types.
impl<R: Read> Terminal for FromReader<R> {
    fn is_ready(&self) -> bool {
        false
    }
}
