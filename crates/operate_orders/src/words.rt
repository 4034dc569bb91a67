//! The words that a line may begin with: a table.
ghost use Rattle.std.specs.Prelude.{◌≡◌};
ghost use Rattle.operate_orders.specs.Text.{capitals};
ghost use Rattle.operate_orders.specs.Words.{seen, row_of, accepts, keyword_of};

use crate::text::Text;

/// The words that a line may begin with.
#[derive(Clone, Copy)]
pub enum Keyword {
    /// Core as text.
    Examine,
    /// Instructions.
    List,
    /// Fields.
    Print,
    /// The source around a place.
    Source,
    /// The registers, in words.
    Registers,
    /// Hopper and stacker.
    Cards,
    /// The last printed lines.
    Paper,
    /// Labels.
    Symbols,
    /// A number, and how an address spells it.
    Evaluate,
    /// Breaks and watches.
    Breaks,
    /// Why the machine stopped.
    Why,
    /// The last commands that were recorded.
    Journal,
    /// A fault, if a condition isn't so.
    Assert,
    /// The words, or one.
    Help,
    /// Cells, or what the assembler makes of a line.
    Deposit,
    /// The value of a field.
    Set,
    /// Sets a word mark.
    Mark,
    /// Clears a word mark.
    Unmark,
    /// The I register.
    Start,
    /// A sense switch.
    Switch,
    /// A card.
    Feed,
    /// The cards of a file.
    Deck,
    /// The load key.
    Load,
    /// So many instructions, a line for each.
    Step,
    /// Runs until something stops it.
    Continue,
    /// Runs up to an instruction.
    Until,
    /// Start, then continue.
    Go,
    /// Takes lines back.
    Undo,
    /// Goes instructions back.
    Back,
    /// The program as it was loaded.
    Restart,
    /// The machine of another journal.
    Restore,
    /// Writes the journal to a file.
    Save,
    /// Stops before an instruction.
    Break,
    /// Stops after a change, a printed line or a card.
    Watch,
    /// Takes breaks and watches away.
    Delete,
    /// The lines of a file.
    Do,
    /// Writes what is typed and shown to a file.
    Transcript,
    /// The end.
    Quit,
}

/// A row of the table.
#[derive(Clone, Copy)]
pub struct Row {
    /// The word, in capitals.
    pub letters: &'static [u8],
    /// How many letters of it suffice.
    pub shortest: u8,
    /// How a line with it is written.
    pub usage: &'static [u8],
    /// What it does, or shows.
    pub meaning: &'static [u8],
}

/// The table, in the order of `Keyword`.
static ROWS: [Row; 38] = [
    Row {
        letters: b"EXAMINE",
        shortest: 1,
        usage: b"examine RANGE",
        meaning: b"core as text, under a ruler; a ~ below a place with a word mark",
    },
    Row {
        letters: b"LIST",
        shortest: 1,
        usage: b"list [RANGE]",
        meaning: b"instructions, ten from I on or from the address on",
    },
    Row {
        letters: b"PRINT",
        shortest: 1,
        usage: b"print FIELD .., up to eight",
        meaning: b"fields: places, characters, and the number if it is one",
    },
    Row {
        letters: b"SOURCE",
        shortest: 2,
        usage: b"source [LINE or LABEL]",
        meaning: b"the source around I, or around a line or a label",
    },
    Row {
        letters: b"REGISTERS",
        shortest: 1,
        usage: b"registers, and nothing after it",
        meaning: b"registers, indicators, switches and devices in words",
    },
    Row {
        letters: b"CARDS",
        shortest: 2,
        usage: b"cards, and nothing after it",
        meaning: b"hopper and stacker",
    },
    Row {
        letters: b"PAPER",
        shortest: 2,
        usage: b"paper [N]",
        meaning: b"the last printed lines",
    },
    Row {
        letters: b"SYMBOLS",
        shortest: 2,
        usage: b"symbols [LETTERS]",
        meaning: b"the labels that begin so",
    },
    Row {
        letters: b"EVALUATE",
        shortest: 2,
        usage: b"evaluate EXPRESSION",
        meaning: b"a number, and the characters that spell it as an address",
    },
    Row {
        letters: b"BREAKS",
        shortest: 6,
        usage: b"breaks, and nothing after it",
        meaning: b"breaks and watches, with how often each was met",
    },
    Row {
        letters: b"WHY",
        shortest: 3,
        usage: b"why, and nothing after it",
        meaning: b"why the last run ended",
    },
    Row {
        letters: b"JOURNAL",
        shortest: 1,
        usage: b"journal [N]",
        meaning: b"the last commands that were recorded",
    },
    Row {
        letters: b"ASSERT",
        shortest: 2,
        usage: b"assert CONDITION",
        meaning: b"nothing if it is so, else a fault",
    },
    Row {
        letters: b"HELP",
        shortest: 1,
        usage: b"help [WORD]",
        meaning: b"the words, or one of them",
    },
    Row {
        letters: b"DEPOSIT",
        shortest: 1,
        usage: b"deposit ADDRESS TEXT, or deposit ADDRESS = STATEMENT",
        meaning: b"puts cells there, ~ before one with a word mark",
    },
    Row {
        letters: b"SET",
        shortest: 3,
        usage: b"set FIELD = NUMBER, or set FIELD = @TEXT@",
        meaning: b"puts a value into a field, which keeps its places and marks",
    },
    Row {
        letters: b"MARK",
        shortest: 1,
        usage: b"mark ADDRESS",
        meaning: b"sets a word mark",
    },
    Row {
        letters: b"UNMARK",
        shortest: 3,
        usage: b"unmark ADDRESS",
        meaning: b"clears a word mark",
    },
    Row {
        letters: b"START",
        shortest: 3,
        usage: b"start ADDRESS",
        meaning: b"sets the I register, and runs nothing",
    },
    Row {
        letters: b"SWITCH",
        shortest: 2,
        usage: b"switch A on, or switch A off, A to G",
        meaning: b"turns a sense switch",
    },
    Row {
        letters: b"FEED",
        shortest: 1,
        usage: b"feed [TEXT]",
        meaning: b"puts a card into the hopper",
    },
    Row {
        letters: b"DECK",
        shortest: 3,
        usage: b"deck FILE",
        meaning: b"puts the cards of a file into the hopper",
    },
    Row {
        letters: b"LOAD",
        shortest: 2,
        usage: b"load, and nothing after it",
        meaning: b"presses the load key",
    },
    Row {
        letters: b"STEP",
        shortest: 1,
        usage: b"step [N]",
        meaning: b"carries out N instructions, a line for each",
    },
    Row {
        letters: b"CONTINUE",
        shortest: 1,
        usage: b"continue [N]",
        meaning: b"runs until something stops it",
    },
    Row {
        letters: b"UNTIL",
        shortest: 1,
        usage: b"until ADDRESS",
        meaning: b"runs up to the instruction there",
    },
    Row {
        letters: b"GO",
        shortest: 1,
        usage: b"go ADDRESS",
        meaning: b"start, then continue",
    },
    Row {
        letters: b"UNDO",
        shortest: 3,
        usage: b"undo [N]",
        meaning: b"takes back the last N lines that recorded something",
    },
    Row {
        letters: b"BACK",
        shortest: 2,
        usage: b"back [N]",
        meaning: b"goes N instructions back",
    },
    Row {
        letters: b"RESTART",
        shortest: 5,
        usage: b"restart, and nothing after it",
        meaning: b"the program as it was loaded",
    },
    Row {
        letters: b"RESTORE",
        shortest: 5,
        usage: b"restore FILE",
        meaning: b"the machine of another journal",
    },
    Row {
        letters: b"SAVE",
        shortest: 2,
        usage: b"save FILE",
        meaning: b"writes the journal to a file",
    },
    Row {
        letters: b"BREAK",
        shortest: 1,
        usage: b"break ADDRESS [after N] [if CONDITION]",
        meaning: b"stops before the instruction there is carried out",
    },
    Row {
        letters: b"WATCH",
        shortest: 1,
        usage: b"watch FIELD, RANGE, paper [@TEXT@], reader or punch",
        meaning: b"stops after a change, a printed line or a card",
    },
    Row {
        letters: b"DELETE",
        shortest: 3,
        usage: b"delete [N ..], up to eight",
        meaning: b"takes some breaks and watches away, or all",
    },
    Row {
        letters: b"DO",
        shortest: 2,
        usage: b"do FILE",
        meaning: b"does the lines of a file",
    },
    Row {
        letters: b"TRANSCRIPT",
        shortest: 1,
        usage: b"transcript FILE, or transcript off",
        meaning: b"writes what is typed and shown to a file",
    },
    Row {
        letters: b"QUIT",
        shortest: 1,
        usage: b"quit, and nothing after it",
        meaning: b"the end",
    },
];

impl Keyword {
    /// All of them, in the order of the manual.
    pub const ALL: [Keyword; 38] = [
        Keyword::Examine,
        Keyword::List,
        Keyword::Print,
        Keyword::Source,
        Keyword::Registers,
        Keyword::Cards,
        Keyword::Paper,
        Keyword::Symbols,
        Keyword::Evaluate,
        Keyword::Breaks,
        Keyword::Why,
        Keyword::Journal,
        Keyword::Assert,
        Keyword::Help,
        Keyword::Deposit,
        Keyword::Set,
        Keyword::Mark,
        Keyword::Unmark,
        Keyword::Start,
        Keyword::Switch,
        Keyword::Feed,
        Keyword::Deck,
        Keyword::Load,
        Keyword::Step,
        Keyword::Continue,
        Keyword::Until,
        Keyword::Go,
        Keyword::Undo,
        Keyword::Back,
        Keyword::Restart,
        Keyword::Restore,
        Keyword::Save,
        Keyword::Break,
        Keyword::Watch,
        Keyword::Delete,
        Keyword::Do,
        Keyword::Transcript,
        Keyword::Quit,
    ];

    /// The row of a word.
    pub fn row(self) -> Row
        ensures { seen result ≡ row_of self }
    {
        ROWS[self as usize]
    }

    /// Whether some letters, in capitals, are a beginning of this word that suffices.
    fn accepts(self, letters: &[u8]) -> bool
        ensures { result ≡ accepts letters.now self }
    {
        let row = self.row();
        let len = letters.len();
        usize::from(row.shortest) <= len
            && len <= row.letters.len()
            && &row.letters[..len] == letters
    }

    /// The word that some letters mean, capitals or small.
    #[tactic(auto, unfolding(crate::specs::Words::keyword_of))]
    pub fn from_letters(letters: &[u8]) -> Option<Keyword>
        ensures { result ≡ keyword_of (capitals letters.now) }
    {
        let held = Text::in_capitals(letters);
        let capitals = held.as_slice();
        Keyword::ALL
            .iter()
            .copied()
            .find(|keyword| keyword.accepts(capitals))
    }
}
