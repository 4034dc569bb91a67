//! What a line says.

use crate::places::Place;
use crate::ranges::Range;
use crate::text::Text;
use crate::values::{Condition, Value};
use crate::words::Keyword;
use core_1401::Cells;
use machine_tables::SwitchName;

/// The most fields that `print` names, and the most numbers that `delete` does.
pub const MOST_LISTED: usize = 8;

/// What a line says. Only what acts, and what goes back, changes the machine.
#[derive(Clone, Copy)]
pub enum Order {
    /// The line is empty, or a remark.
    Nothing,
    /// Something is shown, and nothing is recorded.
    Look(Look),
    /// Something is done, and recorded as commands.
    Act(Act),
    /// What was recorded is taken back.
    Past(Past),
    /// Something is noted next to the machine.
    Note(Note),
    /// `quit`: the end.
    Quit,
}

/// What is shown.
#[derive(Clone, Copy)]
pub enum Look {
    /// `examine RANGE`: core as text.
    Examine(Range),
    /// `list [RANGE]`: instructions, from I on if no range says from where.
    List(Option<Range>),
    /// `print FIELD ..`: fields, in front of the rest of the array.
    Print([Option<Place>; MOST_LISTED]),
    /// `source [LINE or LABEL]`: the source around a place, or around I.
    Source(Option<Place>),
    /// `registers`.
    Registers,
    /// `cards`: hopper and stacker.
    Cards,
    /// `paper [N]`: the last printed lines.
    Paper(Option<u32>),
    /// `symbols [LETTERS]`: the labels that begin with these capitals.
    Symbols(Text),
    /// `evaluate EXPRESSION`: a number, and the characters that spell it as an address.
    Evaluate(Place),
    /// `breaks`: breaks and watches.
    Breaks,
    /// `why`: why the machine stopped.
    Why,
    /// `journal [N]`: the last commands that were recorded.
    Journal(Option<u32>),
}

/// What is done.
#[derive(Clone, Copy)]
pub enum Act {
    /// `deposit ADDRESS TEXT`, `deposit ADDRESS = STATEMENT`: at an address and above it.
    Deposit {
        /// The place of the first cell.
        place: Place,
        /// What is put there.
        what: Deposited,
    },
    /// `set FIELD = NUMBER`, or `set FIELD = @TEXT@`.
    Set {
        /// The field, by the place of its units.
        field: Place,
        /// What it is to hold.
        value: Value,
    },
    /// `mark ADDRESS`: sets a word mark.
    Mark(Place),
    /// `unmark ADDRESS`: clears a word mark.
    Unmark(Place),
    /// `start ADDRESS`: sets the I register.
    Start(Place),
    /// `switch A on`, `switch A off`.
    Switch {
        /// The sense switch.
        switch: SwitchName,
        /// Whether it is to be on.
        on: bool,
    },
    /// `feed [TEXT]`: a card with up to 80 graphics, in capitals, and blanks after them.
    Feed(Text),
    /// `deck FILE`: the cards of a file.
    Deck(Text),
    /// `load`: the load key.
    Load,
    /// `step [N]`: so many instructions, 1 if no number says how many.
    Step(u32),
    /// `continue [N]`: runs until something stops it, or up to so many instructions.
    Continue(Option<u32>),
    /// `until ADDRESS`: runs up to the instruction there.
    Until(Place),
    /// `go ADDRESS`: starts there, and continues.
    Go(Place),
}

/// What is deposited.
#[derive(Clone, Copy)]
pub enum Deposited {
    /// Cells with their word marks, in capitals.
    Cells(Cells),
    /// What the assembler makes of a statement, in capitals.
    Statement(Text),
}

/// What is taken back.
#[derive(Clone, Copy)]
pub enum Past {
    /// `undo [N]`: so many lines that recorded something, 1 if no number says how many.
    Undo(u32),
    /// `back [N]`: so many instructions, 1 if no number says how many.
    Back(u32),
    /// `restart`: to the program as it was loaded.
    Restart,
    /// `restore FILE`: to the machine of another journal.
    Restore(Text),
}

/// What is noted.
#[derive(Clone, Copy)]
pub enum Note {
    /// `break ADDRESS [after N] [if CONDITION]`.
    Break {
        /// The place of the instruction.
        place: Place,
        /// Which visit it stops at, counted from 1; each visit if there is none.
        after: Option<u32>,
        /// Where it stops, if not always.
        condition: Option<Condition>,
    },
    /// `watch ..`.
    Watch(Watched),
    /// `delete [N ..]`: breaks and watches by their numbers, in front of the rest of the array; all if there is none.
    Delete([Option<u32>; MOST_LISTED]),
    /// `do FILE`: the lines of a file.
    Do(Text),
    /// `transcript FILE`, or none for `transcript off`.
    Transcript(Option<Text>),
    /// `assert CONDITION`: a fault, if it isn't so.
    Assert(Condition),
    /// `help [WORD]`.
    Help(Option<Keyword>),
    /// `save FILE`: the journal, to a file.
    Save(Text),
}

/// What is watched.
#[derive(Clone, Copy)]
pub enum Watched {
    /// The places of a range; a place alone is the units of a field.
    Places(Range),
    /// `paper [@TEXT@]`: a printed line, with a text if there is one.
    Paper(Option<Text>),
    /// `reader`: a card that is read.
    Reader,
    /// `punch`: a card that is punched.
    Punch,
}
