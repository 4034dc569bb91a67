//! Why a text is no journal's.

use thiserror::Error;

/// What is wrong with a line of a text that is no journal's, by number.
#[derive(Clone, Copy, Debug, Error)]
pub enum Wrong {
    /// 1: memory was refused. The line may be right, and those before it are.
    #[error("1 MEMORY")]
    Memory,
    /// 2: the first line doesn't name this format and a size of core storage.
    #[error("2 HEADER")]
    Header,
    /// 3: the line doesn't begin with the number that is due.
    #[error("3 NUMBER")]
    Number,
    /// 4: no seat's number is there, from 0 to 255.
    #[error("4 SEAT")]
    Seat,
    /// 5: no command is there as it is written in a journal.
    #[error("5 COMMAND")]
    Command,
    /// 6: the machine answers the command otherwise.
    #[error("6 ANSWER")]
    Answer,
    /// 7: the line is of the entry after the last one that a journal can have.
    #[error("7 FULL")]
    Full,
    /// 8: the text ends before the line does.
    #[error("8 UNFINISHED")]
    Unfinished,
}

/// Why a text is no journal's: its first line that isn't one of a journal, and what is wrong with it.
#[derive(Clone, Copy, Debug, Error)]
#[error("line {line}: {why}")]
pub struct JournalFault {
    /// The line's number; the first line has 1, and entry N is line N + 1.
    pub line: u32,
    /// What is wrong with it.
    pub why: Wrong,
}
