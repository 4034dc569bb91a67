//! What full devices want.
ghost use Rattle.std.specs.Prelude.{◌≡◌, ◌<◌, ◌∷◌, [], true, false, drop, length, slice_get, IfOk, IfErr, OnErr};
ghost use Rattle.room_alone.specs.Journal.{state_of};
ghost use Rattle.operate_sitting.specs.Notes.{hand_of};
ghost use Rattle.operate_sitting.specs.Tending.{CarriedAll, CarriedPart, most_if, plan_of, planned, tending};

use crate::Paired;
use crate::notes::Notes;
use cpu_1401::Command;
use devices_1401::{Devices, MOST_HELD};
use room_alone::{Keeper, RoomFault};

/// How many lines and cards are taken, and how many cards are fed at most.
#[derive(Clone, Copy)]
pub(crate) struct Plan {
    lines: u16,
    cards: u16,
    feeds: u16,
}

/// All lines are taken from a paper that is full, and all cards from such a stacker; the hopper is filled.
fn plan_of(devices: &Devices) -> Plan
    ensures { result ≡ plan_of devices.now }
{
    Plan {
        lines: most_if(usize::from(devices.paper()) >= MOST_HELD),
        cards: most_if(usize::from(devices.stacker()) >= MOST_HELD),
        feeds: (MOST_HELD as u16).saturating_sub(devices.hopper()),
    }
}

/// As many as a device holds, if this is so.
fn most_if(is_so: bool) -> u16
    ensures { result ≡ most_if is_so }
{
    if is_so { MOST_HELD as u16 } else { 0 }
}

/// How many commands a plan has.
fn count_of(plan: Plan, notes: &Notes) -> usize
    ensures { result ≡ length (planned plan (hand_of notes.now)) }
{
    usize::from(plan.lines) + usize::from(plan.cards) + usize::from(plan.feeds).min(notes.hand())
}

/// The command at a place of a plan, which feeds cards of decks after the first ones, so many.
fn command_at(plan: Plan, notes: &mut Notes, given: usize, at: usize) -> Command
    requires { at < length (planned plan (drop given notes.old.deck)) }
    ensures command { slice_get (planned plan (drop given notes.old.deck)) at ≡ Some result }
    ensures same { notes.new ≡ notes.old }
{
    let lines = usize::from(plan.lines);
    let taken = lines + usize::from(plan.cards);
    if at < lines {
        Command::TakeLine
    } else if at < taken {
        Command::TakeCard
    } else {
        Command::Feed {
            card: notes.card_after(given, at - taken),
        }
    }
}

/// Does at a room what its devices want, up to the first command that is refused or whose entry isn't kept; true if
/// there was none.
///
/// # Errors
///
/// As those of `KeptRoom::carry`, and `Memory` if there is no room for the place of a card.
pub(crate) fn tend<K: Keeper + Drop>(
    paired: &mut Paired<K>,
    notes: &mut Notes,
) -> Result<bool, RoomFault>
    ensures part { let room = paired.old.room in
        CarriedPart room.size (tending (state_of room.size room.journal).devices (hand_of notes.old))
        room.journal paired.new.room.journal notes.old.given notes.new.given }
    ensures all { let room = paired.old.room in IfOk result (λ kept. kept ≡ true →
        CarriedAll room.size (tending (state_of room.size room.journal).devices (hand_of notes.old))
        room.journal paired.new.room.journal notes.old.given notes.new.given) }
    ensures size { paired.new.room.size ≡ paired.old.room.size }
    ensures notes { notes.new ≡ record notes.old { given = notes.new.given } }
    ensures kept { IfOk result (λ kept. kept ≡ true → paired.old.failed ≡ false → paired.new.failed ≡ false) }
    ensures unkept { IfOk result (λ kept. kept ≡ false → paired.new.failed ≡ true) }
    ensures failed { result ≡ Err RoomFault.Unkept → paired.old.failed ≡ true }
{
    let plan = plan_of(paired.machine().devices());
    let given = notes.count_given();
    let count = count_of(plan, notes);
    for at in 0..count {
        let command = command_at(plan, notes, given, at);
        match carry_noted(paired, notes, command) {
            Ok(true) => {}
            Ok(false) => return Ok(false),
            Err(fault) => return Err(fault),
        }
    }
    Ok(true)
}

/// Carries a command out, and notes a card that it feeds; true if the keeper has the entry.
///
/// # Errors
///
/// As those of `KeptRoom::carry`, and `Memory` if there is no room for the place of a card. Nothing has changed.
fn carry_noted<K: Keeper + Drop>(
    paired: &mut Paired<K>,
    notes: &mut Notes,
    command: Command,
) -> Result<bool, RoomFault>
    ensures carried { IfOk result (λ kept. CarriedAll paired.old.room.size (command ∷ [])
        paired.old.room.journal paired.new.room.journal notes.old.given notes.new.given) }
    ensures size { paired.new.room.size ≡ paired.old.room.size }
    ensures notes { notes.new ≡ record notes.old { given = notes.new.given } }
    ensures kept { IfOk result (λ kept. kept ≡ true → paired.new.failed ≡ false) }
    ensures unkept { IfOk result (λ kept. kept ≡ false → paired.new.failed ≡ true) }
    ensures good { IfOk result (λ kept. paired.old.failed ≡ false) }
    ensures failed { result ≡ Err RoomFault.Unkept → paired.old.failed ≡ true }
    ensures journal { OnErr result (paired.new.room.journal ≡ paired.old.room.journal) }
    ensures given { OnErr result (notes.new ≡ notes.old) }
{
    let given = notes.count_given();
    let place = paired.room().room().journal().len();
    if notes.give(&command, place).is_err() {
        return Err(RoomFault::Memory);
    }
    match paired.carry(command) {
        Ok(carried) => Ok(carried.kept),
        Err(fault) => {
            notes.take_back(given);
            Err(fault)
        }
    }
}
