//! The bytes of the line that is being read.
ghost use Rattle.std.specs.Prelude.{◌≡◌, [], ◌∷◌, ◌++◌, take};
ghost use Rattle.room_alone.specs.Limits.{kept_bytes};

use std::marker::Model;

/// How many bytes of a line are kept: the most that it has, a carriage return, and one more, which says that
/// it is too long.
const KEPT_BYTES: usize = 202;

/// What is kept of a line, and its number. Contracts see the list of the bytes kept.
#[derive(Drop)]
pub(crate) struct LineBuffer {
    bytes: [u8; KEPT_BYTES],
    len: usize,
    number: u64,
}

impl Model for LineBuffer {
    ghost use Rattle.std.specs.Prelude.{ℕ, ◌≤◌, List, take};
    ghost use Rattle.room_alone.specs.Limits.{kept_bytes};

    ghost Value = { List ℕ };

    ghost view = { λ line. take line.len line.bytes };

    ghost invariant = { λ line. line.len ≤ kept_bytes };
}

impl LineBuffer {
    /// The first line, without a byte.
    pub(crate) fn new() -> LineBuffer
        ensures { result ≡ [] }
    {
        LineBuffer {
            bytes: [0; KEPT_BYTES],
            len: 0,
            number: 1,
        }
    }

    /// Begins the next line.
    pub(crate) fn begin_next(&mut self)
        ensures { self.new ≡ [] }
    {
        self.len = 0;
        self.number = self.number.saturating_add(1);
    }

    /// The number of the line; the first one's is 1.
    pub(crate) fn number(&self) -> u64 {
        self.number
    }

    /// Adds a byte, or drops it if the buffer is full.
    pub(crate) fn push(&mut self, byte: u8)
        ensures { self.new ≡ take kept_bytes (self.old ++ byte ∷ []) }
    {
        if self.len < KEPT_BYTES {
            self.bytes[self.len] = byte;
            self.len += 1;
        }
    }

    /// The bytes kept.
    pub(crate) fn as_slice(&self) -> &[u8]
        ensures { result.now ≡ self.now }
    {
        &self.bytes[..self.len]
    }
}
