//! What the command line asks for.

use autocoder_statements::Language;
use bcd_1401::Graphics;
use core_1401::SIZES;
use machine_tables::Features;
use serving_http::Origin;

/// The size of core storage if none is named.
pub const DEFAULT_SIZE: u16 = SIZES[2];

/// What `assemble` writes.
#[derive(Clone, Copy, PartialEq, Eq)]
pub enum Product {
    /// The text of the core image.
    Image,
    /// The listing.
    Listing,
    /// The symbol table, the cross-reference or both, with or without the listing.
    Tables(Tables),
}

/// Which tables of a source are written, in this order.
#[derive(Clone, Copy, PartialEq, Eq)]
pub struct Tables {
    /// Whether the listing comes before them.
    pub listing: bool,
    /// Whether the symbol table is one of them.
    pub symbols: bool,
    /// Whether the cross-reference is one of them.
    pub references: bool,
}

/// A source that is assembled, and where its image goes.
#[derive(Drop)]
pub struct Assembling {
    /// The name of the source's file.
    pub file: String,
    /// The language that it is written in.
    pub language: Language,
    /// The chain whose graphics the source has; without one it is this machine's.
    pub source_graphics: Option<Graphics>,
    /// The chain whose graphics the deck gets; without one it is this machine's.
    pub deck_graphics: Option<Graphics>,
    /// How many places core storage has; without a value those that the source asks for, or else 4,000.
    pub size: Option<u16>,
    /// What is written.
    pub product: Product,
    /// The name of the file that it is written to; without one it is standard output.
    pub out: Option<String>,
    /// The name of the file of the deck that loads itself; without one there is none.
    pub deck: Option<String>,
    /// How many faults of the source are told.
    pub told: Reported,
    /// What the machine is fitted with that the program is for: warnings are about what this one doesn't carry out.
    pub features: Features,
}

/// How many faults of a source are told.
#[derive(Clone, Copy)]
pub enum Reported {
    /// The first.
    First,
    /// All, each on a line of its own; of a source without any, its warnings.
    All,
}

/// How many places the machine has, how many operators share it, and the port at which they come.
#[derive(Clone, Copy)]
pub struct PlainService {
    /// How many places core storage has.
    pub size: u16,
    /// How many seats there are, from 1 to 8.
    pub seats: u8,
    /// The port on 127.0.0.1.
    pub port: u16,
}

/// How many operators share a room, and the ports on 127.0.0.1 at which they come: by consoles, by pages, or by both.
#[derive(Clone, Copy)]
pub struct Operators {
    /// How many seats there are, from 1 to 8.
    pub seats: u8,
    /// The port of the consoles; without one there are none.
    pub port: Option<u16>,
    /// The port of the page of seat 1, where each next seat's is one more; without one there are no pages. None of them
    /// is beyond 65535, and none is 80.
    pub page: Option<u16>,
}

/// What a machine begins with.
#[derive(Drop)]
pub enum Opening {
    /// It is at power-on, with this many places of core storage, and is fitted with these features first of all.
    PowerOn(u16, Features),
    /// It has an image's size, and is fitted with these features before the image of the file of this name is loaded.
    Image(String, Features),
    /// It is that of a journal.
    Journal(Resuming),
}

/// A session of standard input and output.
#[derive(Drop)]
pub struct Session {
    /// What the machine begins with.
    pub opening: Opening,
    /// The new journal that is kept; without one none is, unless the session goes on in the file of the journal that it
    /// begins with.
    pub journal: Option<NewJournal>,
}

/// A room that operators share, and whose seats are taken again.
#[derive(Drop)]
pub struct Seating {
    /// What the first room begins with.
    pub opening: Opening,
    /// Who comes.
    pub operators: Operators,
    /// Where a proxy brings the page of seat 1 to others, and that of each next seat at one port more; without one pages
    /// are on 127.0.0.1 alone. There is none without pages, and no port is beyond 65535.
    pub origin: Option<Origin>,
    /// The name of the file of a deck, which is in the hopper when they come; without one the hopper is empty.
    pub cards: Option<String>,
    /// The chain whose graphics the deck has; without one it is this machine's.
    pub graphics: Option<Graphics>,
    /// The new journal that is kept, as in a session.
    pub journal: Option<NewJournal>,
    /// After how many minutes without a command a new room follows; without a value none does.
    pub renewal: Option<u16>,
}

/// Which parity the characters of a tape have.
#[derive(Clone, Copy)]
pub enum Parity {
    /// Odd: each character is on tape as it is.
    Odd,
    /// Even: bit A alone stands for a blank, which would have no bit.
    Even,
}

/// What is done with a reel of tape.
#[derive(Drop)]
pub enum ReelTask {
    /// It is listed on standard output.
    List,
    /// A deck is made of it, and written to the file of this name.
    IntoDeck(String),
    /// It is made of a deck, and written to the file of this name.
    FromDeck(String),
}

/// A reel of tape that is listed, made a deck, or made of one.
#[derive(Drop)]
pub struct Reeling {
    /// The name of the file that is read: that of the reel, or of the deck that becomes a reel.
    pub file: String,
    /// What is done.
    pub task: ReelTask,
    /// The chain whose graphics the deck has or gets; without one it is this machine's.
    pub graphics: Option<Graphics>,
    /// Which parity the tape has.
    pub parity: Parity,
}

/// How a program is started.
#[derive(Clone, Copy)]
pub enum Start {
    /// The I register is set to the program's entry.
    Entry,
    /// The load key is pressed, which reads the deck's first card.
    LoadKey,
    /// The reel on this unit, 1 to 6, is loaded: the key that loads from tape is pressed.
    LoadTape(u8),
}

/// Which reel is mounted on a tape unit before a job, and which file it goes to afterwards.
#[derive(Drop)]
pub enum ReelSource {
    /// That of the file of this name. It has no ring, and the file is never written.
    File(String),
    /// That of the file of this name. It has a ring, and the file is written when the job has ended.
    Ringed(String),
    /// An empty reel with a ring. The file of this name is made when the job has ended; there is none before.
    New(String),
    /// An empty reel with a ring. No file gets it.
    Scratch,
}

/// A reel that is mounted on a tape unit before a job.
#[derive(Drop)]
pub struct MountedReel {
    /// The unit, 1 to 6.
    pub unit: u8,
    /// Which reel it is.
    pub reel: ReelSource,
}

/// A job: a program, its deck, and where paper and punched cards go.
#[derive(Drop)]
pub struct Job {
    /// The name of the file of the source or the image; or of the deck for which the load key is pressed; or of the reel
    /// that is loaded from tape, which is one of `reels` too.
    pub file: String,
    /// How the program is started.
    pub start: Start,
    /// The reels on the tape units, at most one on each; the machine is fitted with tapes if there are any.
    pub reels: Vec<MountedReel>,
    /// The name of the deck's file; without one there are no cards.
    pub cards: Option<String>,
    /// The name of the file of the punched cards; without one they are counted alone.
    pub punch: Option<String>,
    /// The name of the file of the paper; without one it is standard output.
    pub paper: Option<String>,
    /// The name of the file of the trace; without one there is none.
    pub trace: Option<String>,
    /// The name of the file of the image of what a deck has loaded when its program begins; without one there is none.
    /// There is none without the load key.
    pub image: Option<String>,
    /// The language of the file, if it is a source.
    pub language: Language,
    /// The chain whose graphics the decks have that are read; without one it is this machine's.
    pub graphics: Option<Graphics>,
    /// The chain whose graphics a source has; without one it is this machine's.
    pub source_graphics: Option<Graphics>,
    /// The chain whose graphics the punched cards get; without one it is this machine's.
    pub punch_graphics: Option<Graphics>,
    /// How many places core storage has, if the file is no image; without a value those that the source asks for, or
    /// else 4,000.
    pub size: Option<u16>,
    /// The most instructions that are carried out.
    pub limit: u32,
    /// The sense switches A to G.
    pub switches: [bool; 7],
    /// What the machine is fitted with.
    pub features: Features,
}

/// A person's console at a machine.
#[derive(Drop)]
pub struct Operating {
    /// The name of the file of the program: a source or an image, or the deck for which the load key is pressed. Without
    /// one nothing is loaded. If a journal is taken up it is a source, which is read for its labels.
    pub file: Option<String>,
    /// Whether `file` is a deck, for which the load key is pressed.
    pub is_deck: bool,
    /// The name of the deck's file; without one there are no cards but those of `file`.
    pub cards: Option<String>,
    /// The sense switches A to G.
    pub switches: [bool; 7],
    /// The new journal that is kept; without one none is, unless one is taken up.
    pub journal: Option<NewJournal>,
    /// The name of the file of the journal that is taken up, and goes on; without one the machine is at power-on.
    pub resumed: Option<String>,
    /// The language of the file, if it is a source, and of statements that are typed.
    pub language: Language,
    /// The chain whose graphics the decks have that are read; without one it is this machine's.
    pub graphics: Option<Graphics>,
    /// The chain whose graphics a source has; without one it is this machine's.
    pub source_graphics: Option<Graphics>,
    /// How many places core storage has, as in a job.
    pub size: Option<u16>,
    /// The name of the file of the lines that come first; without one there are none.
    pub script: Option<String>,
    /// Whether a line is shown before its answer where no terminal has shown it.
    pub echo: bool,
    /// The most instructions of a run where nobody is at a terminal to end it.
    pub limit: u32,
    /// What a new machine is fitted with; one that is taken up has what its journal says.
    pub features: Features,
}

/// A journal that is shown, or looked over.
#[derive(Drop)]
pub struct Showing {
    /// The name of the journal's file.
    pub file: String,
    /// The seat whose entries are shown; without one those of each seat.
    pub seat: Option<u8>,
    /// The number of the first entry that may be shown.
    pub from: u64,
    /// Whether the journal is only checked.
    pub check: bool,
}

/// A new journal that is kept.
#[derive(Drop)]
pub struct NewJournal {
    /// The name of its file.
    pub file: String,
    /// Whether each entry is forced onto the disk before its reply.
    pub sync: bool,
}

/// A journal that is taken up. If all of its commands are carried out again, and no new journal is kept, the file goes
/// on.
#[derive(Drop)]
pub struct Resuming {
    /// The name of the journal's file.
    pub file: String,
    /// Whether it is the last journal that follows this one by its name: day.journal.3 after day.journal.
    pub last: bool,
    /// The number of the last command that is carried out again; without one it is the journal's last.
    pub until: Option<u64>,
    /// The numbers of commands that aren't carried out again.
    pub without: Vec<u64>,
    /// Whether each entry that the file gets is forced onto the disk before its reply.
    pub sync: bool,
}

/// What the command line asks for.
#[derive(Drop)]
pub enum Call {
    /// A session of standard input and output.
    Console(Session),
    /// The image of a source, or its listing.
    Assemble(Assembling),
    /// The listing of an image, on standard output.
    Disassemble {
        /// The name of the image's file.
        file: String,
    },
    /// The listing of what a deck loads into core storage, on standard output.
    DisassembleDeck {
        /// The name of the deck's file.
        file: String,
        /// The chain whose graphics the deck has; without one it is this machine's.
        graphics: Option<Graphics>,
        /// How many places core storage has.
        size: u16,
    },
    /// A reel of tape, listed, made a deck, or made of one.
    Reel(Reeling),
    /// A program run to its end.
    Run(Job),
    /// A person's console.
    Operate(Operating),
    /// A room that operators share, each with one connection.
    Serve(PlainService),
    /// A room that operators share, and whose seats are taken again.
    ServeSeats(Seating),
    /// A journal, shown or checked.
    Journal(Showing),
}
