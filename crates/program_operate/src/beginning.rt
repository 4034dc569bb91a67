//! The room at which a person sits down.
ghost use Rattle.std.specs.Prelude.{◌≢◌, IfErr};

use crate::decks::{NamedDeck, carry};
use crate::fault::OperateFault;
use crate::opening::{Opened, Reading, labels_of, open_room};
use bcd_1401::Graphics;
use bytes_text::Text;
use job_runner::CardList;
use machine_tables::SwitchName;
use operate_answers::put_head;
use operate_program::Program;
use program_run::RunFault;
use room_alone::{Command, Room};
use std::alloc::Global;
use std::rt::Files;

/// What there is next to a room.
#[derive(Drop)]
pub(crate) struct Around {
    /// What is known of its program.
    pub program: Program,
    /// The cards for which the hopper has no room.
    pub hand: CardList,
    /// What is said at the beginning.
    pub greeting: Text,
}

impl Around {
    /// No cards in hand, and nothing said yet.
    fn new(alloc: Global, program: Program) -> Around {
        Around {
            program,
            hand: CardList::new(alloc),
            greeting: Text::new(alloc),
        }
    }
}

/// The room at which a person sits down, and what there is next to it.
#[derive(Drop)]
pub(crate) struct Begun {
    /// The room.
    pub room: Room,
    /// What there is next to it.
    pub around: Around,
}

/// The sense switches, in the order in which the command line names them.
const SWITCHES: [SwitchName; 7] = [
    SwitchName::A,
    SwitchName::B,
    SwitchName::C,
    SwitchName::D,
    SwitchName::E,
    SwitchName::F,
    SwitchName::G,
];

/// Turns these sense switches on.
fn turn_on(room: &mut Room, switches: [bool; 7]) -> Result<(), OperateFault>
    ensures { IfErr result (λ why. why ≢ OperateFault.Faulty) }
{
    for (switch, on) in SWITCHES.iter().zip(switches.iter()) {
        if *on {
            carry(
                room,
                Command::Switch {
                    n: *switch,
                    on: true,
                },
            )?;
        }
    }
    Ok(())
}

/// The name of a file, as bytes of its own.
fn name_of(alloc: Global, file: &Option<String>) -> Result<Option<Vec<u8>>, OperateFault>
    ensures { IfErr result (λ why. why ≢ OperateFault.Faulty) }
{
    match file {
        None => Ok(None),
        Some(name) => match Vec::from_slice(alloc, name.as_bytes()) {
            Ok(bytes) => Ok(Some(bytes)),
            Err(_) => Err(OperateFault::Run(RunFault::Memory)),
        },
    }
}

/// Adds what is loaded and which instruction is next, if there was memory for all that is said.
fn put_beginning(
    alloc: Global,
    around: &mut Around,
    room: &Room,
    name: Option<&[u8]>,
) -> Result<(), OperateFault>
    ensures { IfErr result (λ why. why ≢ OperateFault.Faulty) }
{
    put_head(
        alloc,
        &mut around.greeting,
        &around.program,
        room.machine(),
        name,
    );
    if around.greeting.is_whole() {
        Ok(())
    } else {
        Err(OperateFault::Run(RunFault::Memory))
    }
}

/// Turns sense switches on, and puts two decks into the hopper; if there is the first, which loads itself, the load key
/// is pressed. Then the greeting says what is loaded.
fn make_ready(
    alloc: Global,
    begun: &mut Begun,
    switches: [bool; 7],
    deck: &Option<NamedDeck>,
    beyond: &Option<NamedDeck>,
    name: &Option<Vec<u8>>,
) -> Result<(), OperateFault>
    ensures { IfErr result (λ why. why ≢ OperateFault.Faulty) }
{
    let Begun { room, around } = begun;
    turn_on(room, switches)?;
    if let Some(deck) = deck {
        deck.feed(room, around)?;
    }
    if let Some(beyond) = beyond {
        beyond.feed(room, around)?;
    }
    if deck.is_some() {
        carry(room, Command::LoadKey)?;
    }
    match name {
        Some(name) => put_beginning(alloc, around, room, Some(name.as_slice())),
        None => put_beginning(alloc, around, room, None),
    }
}

/// A room that is opened, with these sense switches on and its decks in the hopper.
fn made_ready(
    alloc: Global,
    opened: Opened,
    switches: [bool; 7],
    beyond: Option<NamedDeck>,
    name: Option<Vec<u8>>,
) -> Result<Begun, OperateFault>
    ensures { IfErr result (λ why. why ≢ OperateFault.Faulty) }
{
    let Opened {
        room,
        program,
        deck,
    } = opened;
    let around = Around::new(alloc, program);
    let mut begun = Begun { room, around };
    match make_ready(alloc, &mut begun, switches, &deck, &beyond, &name) {
        Ok(()) => Ok(begun),
        Err(fault) => Err(fault),
    }
}

/// The same, once the deck of this file is read, if one is named.
fn begin_at(
    rt: &(impl Files + Eprint + AllocGlobal),
    opened: Opened,
    cards: Option<String>,
    switches: [bool; 7],
    decks: Option<Graphics>,
    name: Option<Vec<u8>>,
) -> Result<Begun, OperateFault>
    ensures { IfErr result (λ why. why ≢ OperateFault.Faulty) }
{
    let Some(cards) = cards else {
        return made_ready(rt.alloc(), opened, switches, None, name);
    };
    match NamedDeck::read(rt, cards, decks) {
        Ok(beyond) => made_ready(rt.alloc(), opened, switches, Some(beyond), name),
        Err(fault) => Err(fault),
    }
}

/// A room with the program of a file, these sense switches on, and these decks in its hopper; of a deck that loads
/// itself the load key is pressed. What is read comes first, and then what is recorded.
///
/// # Errors
///
/// `Run` or `Hold`, as `run` and `load` report it.
pub(crate) fn begin(
    rt: &(impl Files + Eprint + AllocGlobal),
    file: Option<String>,
    is_deck: bool,
    cards: Option<String>,
    switches: [bool; 7],
    reading: Reading,
) -> Result<Begun, OperateFault>
    ensures { IfErr result (λ why. why ≢ OperateFault.Faulty) }
{
    match name_of(rt.alloc(), &file) {
        Ok(name) => match open_room(rt, file, is_deck, reading) {
            Ok(opened) => begin_at(rt, opened, cards, switches, reading.decks, name),
            Err(fault) => Err(fault),
        },
        Err(fault) => Err(fault),
    }
}

/// What there is next to the room of a journal's file, which goes on: the labels of a source, if one is named.
///
/// # Errors
///
/// `Run` or `NoLabels` for the source.
pub(crate) fn around_again(
    rt: &(impl Files + Eprint + AllocGlobal),
    room: &Room,
    name: &str,
    source: Option<String>,
    reading: Reading,
) -> Result<Around, OperateFault>
    ensures { IfErr result (λ why. why ≢ OperateFault.Faulty) }
{
    let program = match source {
        Some(file) => {
            let size = Some(room.machine().core().size());
            labels_of(rt, file, Reading { size, ..reading })?
        }
        None => Program::without_source(rt.alloc(), reading.language),
    };
    let mut around = Around::new(rt.alloc(), program);
    match put_beginning(rt.alloc(), &mut around, room, Some(name.as_bytes())) {
        Ok(()) => Ok(around),
        Err(fault) => Err(fault),
    }
}
