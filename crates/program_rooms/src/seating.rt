//! What the subcommand `serve` does if seats are taken again, and what such rooms have in common.
ghost use Rattle.std.specs.Prelude.{◌≡◌, ◌<◌, ◌^◌, [], false, IfOk};
ghost use Rattle.std.specs.Io.KnownBytes.{Appends};
ghost use Rattle.console_1401.specs.Served.{AreAllSeats};
ghost use Rattle.room_alone.specs.Kept.{kept_text};
ghost use Rattle.program_rooms.specs.Kept.{IsKeptWhole};
ghost use Rattle.program_rooms.specs.Outcome.{seats_outcome};

use crate::beginning::{Before, Program, begin};
use crate::ending::tell_end;
use crate::entrances::{Entrances, open_entrances, tell_ready};
use crate::fault::{OpenFault, not_told};
use crate::journal_names::NamedJournals;
use crate::resuming::resume_seats;
use crate::serving::start_fault;
use crate::succession::{Rooms, Turn, serve_rooms};
use crate::{HoldFault, read_file};
use bytes_streams::{FromReader, Source};
use core_1401::Core;
use devices_1401::Card;
use machine_image::{LentImage, lend_image};
use machine_tables::Features;
use program_arguments::{NewJournal, Opening, Operators, Resuming};
use room_1401::{Keeper, Opened, RoomId, Seat, SharedRoom};
use room_alone::SessionFault;
use room_files::MadeName;
use serving_http::Origin;
use serving_room::{
    Listeners, NotingKeeper, SeatsFault, SeatsServed, TakingTurns, UntilRenewed, serve_seats,
};
use std::fs::File;
use std::io::StdinLock;
use std::marker::Brand;
use std::net::{Net, TcpListener, TcpStream};
use std::random::RandomSource;
use std::rt::{Clock, Files};
use std::sync::Wait;
use std::thread::Threads;

/// What became of a room while it was served means this for the program.
///
/// # Errors
///
/// `Hold` if an entry wasn't kept; else what went wrong first, if something did.
fn seats_outcome(failed: bool, fault: Option<SeatsFault>) -> Result<(), OpenFault>
    ensures { result ≡ seats_outcome failed fault }
{
    if failed {
        return Err(OpenFault::Hold(HoldFault::Session(SessionFault::Unkept)));
    }
    match fault {
        None => Ok(()),
        Some(fault) => Err(OpenFault::Seats(fault)),
    }
}

/// What the machine of a room begins with, once its image is read.
#[derive(Drop)]
pub enum Machine {
    /// It is new, with this many places of core storage, is fitted with these features, and has the image of this text
    /// loaded or none.
    New(u16, Features, Option<Vec<u8>>),
    /// It is that of a journal, which is read once the ports are had.
    Journal(Resuming),
}

/// The image of a text.
fn image_of(text: &[u8]) -> Result<LentImage<'_>, OpenFault> {
    match lend_image(text) {
        Ok(image) => Ok(image),
        Err(fault) => Err(OpenFault::Hold(HoldFault::Image(fault))),
    }
}

/// What the first seat does before operators come to a new machine: it loads the image of this text, if there is one.
///
/// # Errors
///
/// `Hold` with `Image` if the text is no image's.
fn program_of<'a>(
    features: Features,
    text: &'a Option<Vec<u8>>,
    cards: &'a [Card],
) -> Result<Before<'a>, OpenFault> {
    let image = match text {
        None => None,
        Some(text) => Some(image_of(text.as_slice())?),
    };
    Ok(Before::Program(Program {
        features,
        image,
        cards,
    }))
}

/// The machine that a room begins with.
///
/// # Errors
///
/// `Hold` with `Unread`, `Image` or `Memory` if there is no such image, or with `Size` if no core storage of the size
/// named is made.
pub fn machine_of(rt: &(impl Files + AllocGlobal), opening: Opening) -> Result<Machine, OpenFault> {
    match opening {
        Opening::PowerOn(size, features) => {
            if Core::is_size(size) {
                Ok(Machine::New(size, features, None))
            } else {
                Err(OpenFault::Hold(HoldFault::Size))
            }
        }
        Opening::Image(name, features) => match read_file(rt, name) {
            Ok(text) => {
                let size = match image_of(text.as_slice()) {
                    Ok(image) => image.size(),
                    Err(fault) => return Err(fault),
                };
                Ok(Machine::New(size, features, Some(text)))
            }
            Err(fault) => Err(OpenFault::Hold(fault)),
        },
        Opening::Journal(asked) => Ok(Machine::Journal(asked)),
    }
}

/// Opens a machine to operators whose seats are taken again, with these cards in its hopper; a proxy brings their
/// pages to others at this origin, if there is one. The seats of a machine of a journal give its commands again first,
/// and have no cards. The journal is kept in a new file, or in that of the journal that the machine begins with, if all
/// commands of that were asked for; or it isn't kept.
///
/// It reports on standard output when it listens, with the address of each page, and at the end how many commands the
/// journal has. QUIT on standard input, or its end, closes the room. If a number of minutes is given, a new room
/// follows whenever a page asks for it, no command was given for so many minutes, or a minute after its journal had
/// 95,000 entries: with the same features, image and cards, or after that of a journal with its features alone.
///
/// # Errors
///
/// `NoReader`, or `Hold` with `Size` or `Memory`, if there is no such room; `Port` if a port is refused; `Hold` with
/// `Kept` if a file of a journal can't be had or has no journal, with `Output` if standard output takes nothing, with
/// `JournalFull` or `Session` if the image isn't loaded or a card isn't fed; `NoSeat` if an entry is of a seat that the
/// room hasn't: in the same file seat 0 is such a one, in a new file seat 1 gives its commands; or what went wrong
/// first while the rooms were served. A new file of a journal is left only if the room came about.
pub fn open_seats<
    R: Threads
        + Wait
        + Sync
        + Clock
        + RandomSource
        + Input<Reader = StdinLock<'static>>
        + Print
        + Eprint
        + AllocGlobal
        + Files<File = File>
        + Net<Listener = TcpListener, Stream = TcpStream>,
>(
    rt: &R,
    machine: Machine,
    cards: Vec<Card>,
    operators: Operators,
    origin: Option<Origin>,
    journal: Option<NewJournal>,
    minutes: Option<u16>,
) -> Result<(), OpenFault> {
    match open_entrances(rt, operators, origin.as_ref()) {
        Ok(entrances) => {
            let journals = match journal {
                Some(journal) => Some(NamedJournals::new(rt, journal)),
                None => None,
            };
            serve_machine(
                rt,
                machine,
                cards,
                journals,
                operators.seats,
                minutes,
                &entrances,
            )
        }
        Err(fault) => Err(fault),
    }
}

/// Opens a machine to those who come there.
fn serve_machine<
    R: Threads
        + Wait
        + Sync
        + Clock
        + RandomSource
        + Input<Reader = StdinLock<'static>>
        + Print
        + Eprint
        + AllocGlobal
        + Files<File = File>,
>(
    rt: &R,
    machine: Machine,
    cards: Vec<Card>,
    journals: Option<NamedJournals<'_, R>>,
    seats: u8,
    minutes: Option<u16>,
    entrances: &Entrances,
) -> Result<(), OpenFault> {
    match machine {
        Machine::New(size, features, text) => match program_of(features, &text, cards.as_slice()) {
            Ok(before) => serve_before(rt, size, seats, before, journals, minutes, entrances),
            Err(fault) => Err(fault),
        },
        Machine::Journal(asked) => resume_seats(rt, asked, journals, seats, minutes, entrances),
    }
}

/// Opens rooms that each begin with this.
fn serve_before<
    R: Threads
        + Wait
        + Sync
        + Clock
        + RandomSource
        + Input<Reader = StdinLock<'static>>
        + Print
        + Eprint
        + AllocGlobal
        + Files<File = File>,
>(
    rt: &R,
    size: u16,
    seats: u8,
    before: Before<'_>,
    journals: Option<NamedJournals<'_, R>>,
    minutes: Option<u16>,
    entrances: &Entrances,
) -> Result<(), OpenFault> {
    let rooms = Rooms {
        size,
        seats,
        before,
        journals,
        minutes,
    };
    serve_rooms(rt, &rooms, &rooms.before, entrances)
}

/// Opens a room by a keeper that has the head of its journal, and serves it in its turn; gives how many entries the
/// keeper has then. If the room doesn't come about, the file that was made for it is taken away.
pub(crate) fn serve_new<
    R: Threads
        + Wait
        + Sync
        + Clock
        + RandomSource
        + Input<Reader = StdinLock<'static>>
        + Print
        + Eprint
        + AllocGlobal
        + Files<File = File>,
    K: Keeper + Drop + Send + Sync,
>(
    rt: &R,
    size: u16,
    seats: u8,
    keeper: K,
    made: Option<MadeName>,
    turn: Turn<'_>,
) -> Result<usize, OpenFault>
    requires good { K.has_failed keeper ≡ false }
    requires kept { Appends K.first (K.kept keeper) (kept_text K.form size []) }
    ensures { IfOk result (IsKeptWhole K.has_failed K.kept K.first K.form size) }
{
    let opened = Opened::new(seats);
    let keeper = NotingKeeper::new(keeper, turn.watch, rt);
    serve_room::<Brand, R, NotingKeeper<'_, K, R>>(rt, size, seats, opened, keeper, made, turn)
}

/// The same for a room of this name.
fn serve_room<
    J: RoomId + Send + Sync,
    R: Threads
        + Wait
        + Sync
        + Clock
        + RandomSource
        + Input<Reader = StdinLock<'static>>
        + Print
        + Eprint
        + AllocGlobal
        + Files<File = File>,
    K: Keeper + Drop + Send + Sync,
>(
    rt: &R,
    size: u16,
    seats: u8,
    opened: Opened,
    keeper: K,
    made: Option<MadeName>,
    turn: Turn<'_>,
) -> Result<usize, OpenFault>
    requires history { opened.book ≡ J.book }
    requires ledger { (opened.ledger ≡ J.name) × (opened.parts ≡ J.parts) × (J.parts ≡ J.seats) }
    requires named { (size ≡ J.size) × (seats ≡ J.seats) }
    requires good { K.has_failed keeper ≡ false }
    requires kept { Appends K.first (K.kept keeper) (kept_text K.form size []) }
    ensures { IfOk result (IsKeptWhole K.has_failed K.kept K.first K.form size) }
{
    let alloc = rt.alloc();
    match SharedRoom::<J, &R, K>::power_on_kept(rt, alloc, size, seats, opened, keeper) {
        Ok((room, seats)) => serve_begun(rt, room, seats, made, turn),
        Err(fault) => {
            remove(rt, made);
            Err(start_fault(fault))
        }
    }
}

/// The same once the room is opened: what comes before its operators, and then they.
fn serve_begun<
    J: RoomId + Send + Sync,
    R: Threads
        + Wait
        + Sync
        + Clock
        + RandomSource
        + Input<Reader = StdinLock<'static>>
        + Print
        + Eprint
        + AllocGlobal
        + Files<File = File>,
    K: Keeper + Drop + Send + Sync,
>(
    rt: &R,
    room: SharedRoom<J, &R, K>,
    mut seats: Vec<Seat<J>>,
    made: Option<MadeName>,
    turn: Turn<'_>,
) -> Result<usize, OpenFault>
    requires ledger { J.parts ≡ J.seats }
    requires seats { AreAllSeats J.seats seats.items }
    requires count { (0 < J.seats) × (J.seats < 2 ^ 8) }
    ensures { IfOk result (IsKeptWhole K.has_failed K.kept K.first K.form J.size) }
{
    match get_ready(rt, &room, &mut seats, made, turn) {
        Ok(()) => {
            turn.watch.open();
            if turn.watch.renews() {
                let input = UntilRenewed::new(rt, turn.watch);
                serve_by(rt, room, seats, turn, input)
            } else {
                let input = FromReader::new(rt.reader());
                serve_by(rt, room, seats, turn, input)
            }
        }
        Err(fault) => Err(fault),
    }
}

/// Does what comes before the operators of a room, and reports that it listens. If a command isn't given, the file that
/// was made for the journal is taken away.
fn get_ready<J: RoomId, H: Wait + Drop, K: Keeper + Drop, R: Wait + Print + Files<File = File>>(
    rt: &R,
    room: &SharedRoom<J, H, K>,
    seats: &mut Vec<Seat<J>>,
    made: Option<MadeName>,
    turn: Turn<'_>,
) -> Result<(), OpenFault>
    requires seats { AreAllSeats J.seats seats.old.items }
    requires count { (0 < J.seats) × (J.seats < 2 ^ 8) }
    ensures { AreAllSeats J.seats seats.new.items }
{
    match begin(rt, room, seats, turn.before) {
        Ok(()) => {
            let number = turn.number;
            if number == 1 {
                return tell_ready(rt, turn.entrances.pages.as_slice());
            }
            println!(rt; "ROOM {number}").map_err(not_told)
        }
        Err(fault) => {
            remove(rt, made);
            Err(fault)
        }
    }
}

/// Serves a room until this input ends it.
fn serve_by<
    J: RoomId + Send + Sync,
    R: Threads
        + Wait
        + Sync
        + Clock
        + RandomSource
        + Input<Reader = StdinLock<'static>>
        + Print
        + Eprint
        + AllocGlobal,
    K: Keeper + Drop + Send + Sync,
    S: Source + Drop + Send,
>(
    rt: &R,
    room: SharedRoom<J, &R, K>,
    seats: Vec<Seat<J>>,
    turn: Turn<'_>,
    input: S,
) -> Result<usize, OpenFault>
    requires ledger { J.parts ≡ J.seats }
    requires seats { AreAllSeats J.seats seats.items }
    requires count { (0 < J.seats) × (J.seats < 2 ^ 8) }
    ensures { IfOk result (IsKeptWhole K.has_failed K.kept K.first K.form J.size) }
{
    let listeners = Listeners {
        consoles: turn.entrances.consoles.as_ref(),
        pages: turn.entrances.pages.as_slice(),
    };
    let door = TakingTurns::new(rt);
    let SeatsServed {
        room,
        keeper,
        fault,
    } = serve_seats(rt, room, seats, listeners, turn.watch, input, &door);
    let commands = room.journal().len();
    match tell_end(rt, commands, seats_outcome(keeper.has_failed(), fault)) {
        Ok(()) => Ok(commands),
        Err(fault) => Err(fault),
    }
}

/// Takes away the file that was made for a journal, if one was: it has no journal of a room that operators came to.
fn remove(rt: &impl Files<File = File>, made: Option<MadeName>) {
    if let Some(name) = made {
        let _name = name.remove(rt);
    }
}
