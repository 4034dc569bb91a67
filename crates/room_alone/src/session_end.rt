//! How a session ends.
ghost use Rattle.std.specs.Prelude.{◌≡◌};
ghost use Rattle.room_alone.specs.SessionEnd.{end_number};

/// How a session ends.
#[derive(Clone, Copy, Debug)]
pub enum SessionEnd {
    /// 1: with the line QUIT.
    Quit = 1,
    /// 2: with the end of the input.
    EndOfInput = 2,
    /// 3: a read failed.
    Read = 3,
    /// 4: a write failed, or took nothing; the command is in the journal.
    Write = 4,
    /// 5: 16,777,216 bytes were read, and the last didn't end a line QUIT.
    Bound = 5,
    /// 6: the memory for a reply was refused; the command is in the journal.
    Memory = 6,
    /// 7: the last command's entry wasn't kept outside of the room; the command is in the room's journal.
    Unkept = 7,
}

impl SessionEnd {
    /// The number.
    pub fn number(self) -> u8
        ensures { result ≡ end_number self }
    {
        self as u8
    }
}
