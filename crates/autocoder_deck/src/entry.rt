//! A deck of unknown making, taken by the load key up to the entry of its program.
ghost use Rattle.std.specs.Prelude.{◌≡◌, ◌<◌, true, Ok, length, IfOk, IfErr, OnOk};
ghost use Rattle.job_runner.specs.Unattended.{taped_with_deck, with_deck};
ghost use Rattle.autocoder_deck.specs.Contents.{card_places};
ghost use Rattle.autocoder_deck.specs.Entry.{IsWhyUnloaded, cards_held, carried_after, is_at_entry, is_card_place};
ghost use Rattle.autocoder_deck.specs.Entry.{loaded_with, none_carried, until_entry};

use crate::contents::CARD_PLACES;
use cpu_1401::{Machine, Stop};
use job_runner::{Collected, Deck, press_load_key, run_job};
use machine_tapes::TapedMachine;
use std::alloc::Global;
use thiserror::Error;

/// The most instructions that a deck may take to load itself.
pub const LOADING_STEPS: u32 = 1_000_000;

/// At which of the places 000 to 080 an instruction was carried out since the last card was read.
pub type CarriedOut = [bool; CARD_PLACES];

/// Why a deck isn't loaded.
#[derive(Clone, Copy, Debug, Error)]
pub enum LoadFault {
    /// The machine stopped with this at this place, and its program hadn't begun; `LIMIT` if it was still loading after
    /// as many instructions as a deck may take.
    #[error("{0} at {1:04}")]
    Stopped(Stop, u16),
    /// Memory was refused.
    #[error("memory refused")]
    Memory,
}

/// Whether a column of a card is read to a place.
fn is_card_place(at: u16) -> bool
    ensures { result ≡ is_card_place at }
{
    1 <= at && at <= 80
}

/// Whether the next instruction is the first of the program.
fn is_at_entry(machine: &Machine) -> bool
    ensures value { result ≡ is_at_entry machine.now }
    ensures place { result ≡ true → machine.now.i < length machine.now.storage }
{
    let at = machine.regs().i;
    !is_card_place(at) && machine.core().in_core(at)
}

/// How many cards there are, in the hopper and below those.
fn cards_held<'d>(machine: &Machine, deck: &Deck<'d>) -> u64
    ensures { result ≡ cards_held (with_deck deck.now machine.now) }
{
    u64::from(machine.regs().hopper) + deck.left() as u64
}

/// Notes an instruction at a place, which may have read a card.
fn note_carried(carried: &mut CarriedOut, has_read: bool, at: u16)
    ensures { carried.new ≡ carried_after has_read at carried.old }
{
    if has_read {
        *carried = [false; CARD_PLACES];
    } else if is_card_place(at) {
        carried[usize::from(at)] = true;
    }
}

/// Why a machine that stopped so isn't at its program's entry.
fn stopped(why: Stop, machine: &Machine) -> LoadFault
    ensures { result ≡ LoadFault.Stopped why machine.now.i }
{
    LoadFault::Stopped(why, machine.regs().i)
}

/// Carries out one instruction after the other until the next is the program's first, this many at most.
#[tactic(auto, using(crate::proofs::EntryLemmas::one_step, crate::proofs::EntryLemmas::no_step, crate::proofs::EntryLemmas::stops_there, crate::proofs::EntryLemmas::is_there))]
fn until_entry<'d>(
    alloc: Global,
    taped: &mut TapedMachine,
    deck: &mut Deck<'d>,
    limit: u32,
) -> Result<CarriedOut, LoadFault>
    ensures ok { IfOk result (λ carried. until_entry limit none_carried (taped_with_deck deck.old taped.old)
        ≡ Ok (record { state = taped_with_deck deck.new taped.new; carried = carried })) }
    ensures entry { OnOk result (taped.new.machine.i < length taped.new.machine.storage) }
    ensures err { IfErr result
        (IsWhyUnloaded (until_entry limit none_carried (taped_with_deck deck.old taped.old))) }
{
    let mut carried = [false; CARD_PLACES];
    let mut left = limit;
    while left > 0 {
        if is_at_entry(&taped.machine) {
            return Ok(carried);
        }
        let at = taped.machine.regs().i;
        let held = cards_held(&taped.machine, deck);
        let mut output = Collected::new(alloc);
        let Ok(end) = run_job(taped, deck, 1, &mut output) else {
            return Err(LoadFault::Memory);
        };
        match end.stop {
            Stop::Limit => {}
            why => return Err(stopped(why, &taped.machine)),
        }
        note_carried(&mut carried, cards_held(&taped.machine, deck) != held, at);
        left -= 1;
    }
    if is_at_entry(&taped.machine) {
        Ok(carried)
    } else {
        Err(stopped(Stop::Limit, &taped.machine))
    }
}

/// Presses the load key and lets a deck load itself until the next instruction is the first of its program, the first
/// that isn't at one of the places 001 to 080, to which the cards are read. What it prints and punches on the way is
/// dropped. Says at which of those places an instruction was carried out since the last card was read.
///
/// # Errors
///
/// `Stopped` if the machine stops before, has no card, or is still loading after this many instructions; or `Memory`.
pub fn load_deck<'d>(
    alloc: Global,
    taped: &mut TapedMachine,
    deck: &mut Deck<'d>,
    limit: u32,
) -> Result<CarriedOut, LoadFault>
    ensures ok { IfOk result (λ carried. loaded_with limit (taped_with_deck deck.old taped.old)
        ≡ Ok (record { state = taped_with_deck deck.new taped.new; carried = carried })) }
    ensures entry { OnOk result (taped.new.machine.i < length taped.new.machine.storage) }
    ensures err { IfErr result (IsWhyUnloaded (loaded_with limit (taped_with_deck deck.old taped.old))) }
{
    match press_load_key(&mut taped.machine, deck) {
        Ok(true) => until_entry(alloc, taped, deck, limit),
        Ok(false) => Err(stopped(Stop::Reader, &taped.machine)),
        Err(_) => Err(LoadFault::Memory),
    }
}
