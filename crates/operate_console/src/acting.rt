//! Lines that act.
ghost use Rattle.std.specs.Prelude.{◌≡◌, ◌∷◌, [], true, false, is_err, is_some, IfOk, IfErr, OnOk, OnErr};
ghost use Rattle.operate_console.specs.Ends.{failure_of, failure_in_cut, failure_of_cut, is_over, is_read, is_unkept, is_write};
ghost use Rattle.operate_console.specs.Ends.{is_unkept_fault, source_so};
ghost use Rattle.operate_console.specs.Line.{ActDid, CardsDone, CardsOfLine, CommandsCut, CommandsDid, CommandsOfAct};
ghost use Rattle.operate_console.specs.Line.{DeckOfLine, FeedDid, FollowDid, LoadOfLine, PartOfAct, PartOfCards, UntilDid};
ghost use Rattle.operate_console.specs.Line.{is_cut, refusal_in, refusal_of_last};
ghost use Rattle.operate_console.specs.Run.{at_console};
ghost use Rattle.operate_program.specs.Act.{card_in};
ghost use Rattle.operate_program.specs.Value.{address_of};
ghost use Rattle.operate_sitting.specs.Sitting.{machine_of};

use crate::carrying::carry_all;
use crate::desk::Desk;
use crate::ends::Failure;
use crate::extent::{Asked, Extent};
use crate::faults::{put_no_act, put_no_file, put_no_look, put_no_place, put_refusal, put_refused};
use crate::notebook::Notebook;
use crate::rounds::tend;
use crate::running::run;
use crate::setting::Setting;
use crate::terminal::Terminal;
use bytes_streams::{Sink, Source};
use cpu_1401::{Answer, Command, Machine, Refusal};
use devices_1401::Card;
use job_runner::CardList;
use operate_answers::{LookFault, put_deck, put_done, put_fed, put_next};
use operate_orders::{Act, Place, Text};
use operate_program::{ActFault, Program, commands_of, read_card};
use operate_sitting::Sitting;
use room_alone::{Entry, Keeper, Room, RoomFault};
use std::alloc::{AllocError, Global};

/// Adds what an act has done.
fn put_acted(
    alloc: Global,
    program: &Program,
    notebook: &mut Notebook,
    machine: &Machine,
    act: &Act,
    commands: &[Command],
) -> Result<(), AllocError>
    ensures stops { notebook.new.stops ≡ notebook.old.stops }
    ensures ended { notebook.new.has_ended ≡ notebook.old.has_ended }
{
    let from = notebook.page.here();
    match put_done(
        alloc,
        &mut notebook.page.text,
        program,
        machine,
        act,
        commands,
    ) {
        Ok(()) => notebook.page.written(),
        Err(LookFault::Memory) => Err(AllocError),
        Err(fault) => {
            notebook.page.cut(from);
            put_no_look(alloc, notebook, program, &fault)
        }
    }
}

/// The refusal of the last of some commands, which the last entry of a journal has.
#[tactic(auto, using(crate::proofs::LineLemmas::last_refusal))]
fn refusal_of_last(journal: &[Entry], commands: &[Command]) -> Option<Refusal>
    ensures { result ≡ refusal_of_last journal.now commands.now }
{
    match commands {
        [] => None,
        [_, ..] => match journal.last() {
            Some(entry) => refusal_in(&entry.answer),
            None => None,
        },
    }
}

/// The refusal of a command, if the machine refused it.
fn refusal_in(answer: &Answer) -> Option<Refusal>
    ensures { result ≡ refusal_in answer.now }
{
    match answer {
        Answer::Refused(refusal) => Some(*refusal),
        Answer::Done | Answer::Cells(_) | Answer::Regs(_) | Answer::Ran { .. } => None,
        Answer::Line(_) | Answer::Card(_) => None,
    }
}

/// Adds what an act has done, or that the machine refused it.
fn put_carried(
    alloc: Global,
    program: &Program,
    notebook: &mut Notebook,
    room: &Room,
    act: &Act,
    commands: &[Command],
) -> Result<(), AllocError>
    ensures stops { notebook.new.stops ≡ notebook.old.stops }
    ensures ended { notebook.new.has_ended ≡ notebook.old.has_ended }
{
    match refusal_of_last(room.journal(), commands) {
        Some(refusal) => put_refusal(notebook, refusal),
        None => put_acted(alloc, program, notebook, room.machine(), act, commands),
    }
}

/// Why an act is cut off.
#[derive(Clone, Copy)]
pub enum Cut {
    /// There is a fault, which is in the answer.
    Faulted,
    /// The sitting ends.
    Over(Failure),
}

/// A refusal of the room in the answer.
fn refused(notebook: &mut Notebook, fault: RoomFault) -> Cut
    ensures faulted { result ≡ Cut.Faulted → notebook.new.is_faulted ≡ true }
    ensures kept { is_unkept (failure_in_cut result) ≡ is_unkept_fault fault }
    ensures read { is_read (failure_in_cut result) ≡ false }
    ensures write { is_write (failure_in_cut result) ≡ false }
    ensures stops { notebook.new.stops ≡ notebook.old.stops }
    ensures ended { notebook.new.has_ended ≡ notebook.old.has_ended }
{
    match put_refused(notebook, fault) {
        Ok(()) => Cut::Faulted,
        Err(end) => Cut::Over(end),
    }
}

/// A line begins, and its commands are carried out. Then it is said what they did.
///
/// # Errors
///
/// If the act is cut off; or if memory is refused for what is said.
#[tactic(auto, using(crate::proofs::LineLemmas::commands_did, crate::proofs::LineLemmas::commands_began, crate::proofs::LineLemmas::commands_none, crate::proofs::LineLemmas::commands_cut))]
fn carry_act<K: Keeper + Drop>(
    alloc: Global,
    program: &Program,
    notebook: &mut Notebook,
    sitting: &mut Sitting<K>,
    act: &Act,
    commands: &[Command],
) -> Result<(), Cut>
    requires kept { sitting.old.account.failed ≡ false }
    ensures all { OnOk result (CommandsDid commands.now sitting.old sitting.new) }
    ensures part { IfErr result (λ cut. CommandsCut (is_over cut) commands.now sitting.old sitting.new) }
    ensures kept { sitting.new.account.failed ≡ is_unkept (failure_of_cut result) }
    ensures read { is_read (failure_of_cut result) ≡ false }
    ensures write { is_write (failure_of_cut result) ≡ false }
    ensures faulted { IfErr result (λ cut. cut ≡ Cut.Faulted → notebook.new.is_faulted ≡ true) }
    ensures stops { notebook.new.stops ≡ notebook.old.stops }
    ensures ended { notebook.new.has_ended ≡ notebook.old.has_ended }
{
    if sitting.begin_line().is_err() {
        return Err(Cut::Over(Failure::Memory));
    }
    if let Err(fault) = carry_all(sitting, commands) {
        return Err(refused(notebook, fault));
    }
    match put_carried(alloc, program, notebook, sitting.room(), act, commands) {
        Ok(()) => Ok(()),
        Err(_) => Err(Cut::Over(Failure::Memory)),
    }
}

/// An act's commands in turn, or its fault.
///
/// # Errors
///
/// As those of `carry_act`.
#[tactic(auto, using(crate::proofs::LineLemmas::act_did, crate::proofs::LineLemmas::act_cut, crate::proofs::LineLemmas::no_act, crate::proofs::LineLemmas::not_acted))]
fn do_commands<K: Keeper + Drop>(
    alloc: Global,
    program: &Program,
    notebook: &mut Notebook,
    sitting: &mut Sitting<K>,
    act: &Act,
) -> Result<(), Cut>
    requires kept { sitting.old.account.failed ≡ false }
    ensures all { OnOk result (CommandsOfAct program.now act.now sitting.old sitting.new) }
    ensures part { IfErr result (λ cut. PartOfAct program.now (is_over cut) act.now sitting.old sitting.new) }
    ensures kept { sitting.new.account.failed ≡ is_unkept (failure_of_cut result) }
    ensures read { is_read (failure_of_cut result) ≡ false }
    ensures write { is_write (failure_of_cut result) ≡ false }
    ensures faulted { IfErr result (λ cut. cut ≡ Cut.Faulted → notebook.new.is_faulted ≡ true) }
    ensures stops { notebook.new.stops ≡ notebook.old.stops }
    ensures ended { notebook.new.has_ended ≡ notebook.old.has_ended }
{
    match commands_of(alloc, program, sitting.machine(), act) {
        Ok(commands) => carry_act(alloc, program, notebook, sitting, act, commands.as_slice()),
        Err(ActFault::Memory) => Err(Cut::Over(Failure::Memory)),
        Err(fault) => match put_no_act(alloc, notebook, program, &fault) {
            Ok(()) => Err(Cut::Faulted),
            Err(_) => Err(Cut::Over(Failure::Memory)),
        },
    }
}

/// `until ADDRESS`.
#[tactic(auto, using(crate::proofs::LineLemmas::until_did, crate::proofs::LineLemmas::until_nowhere, crate::proofs::EndLemmas::source_unread))]
fn do_until<K: Keeper + Drop, D: Desk, R: Source + Terminal, W: Sink>(
    setting: &Setting,
    notebook: &mut Notebook,
    sitting: &mut Sitting<K>,
    place: &Place,
    desk: &mut D,
    reader: &mut R,
    writer: &mut W,
) -> Result<(), Failure>
    requires good { source_so false notebook.old.has_ended (R.has_failed reader.old) (R.left reader.old) ≡ true }
    requires sink { W.has_failed writer.old ≡ false }
    requires kept { sitting.old.account.failed ≡ false }
    ensures did { UntilDid setting.now.manner.now.limit (is_cut (is_err result) notebook.new)
        (address_of setting.now.program.now (machine_of sitting.old) place.now)
        (at_console sitting.old notebook.old) (at_console sitting.new notebook.new) }
    ensures good { source_so (is_read (failure_of result)) notebook.new.has_ended (R.has_failed reader.new)
        (R.left reader.new) ≡ true }
    ensures sink { W.has_failed writer.new ≡ is_write (failure_of result) }
    ensures kept { sitting.new.account.failed ≡ is_unkept (failure_of result) }
{
    let Setting {
        alloc,
        program,
        manner,
    } = *setting;
    match program.address(sitting.machine(), place) {
        Ok(address) => {
            let asked = Asked {
                setting: *setting,
                extent: Extent::new(None, manner).up_to(address),
            };
            run(&asked, notebook, sitting, desk, reader, writer)
        }
        Err(fault) => match put_no_place(alloc, notebook, program, &fault) {
            Ok(()) => Ok(()),
            Err(_) => Err(Failure::Memory),
        },
    }
}

/// Takes cards into the hand, and feeds what the hopper takes.
///
/// # Errors
///
/// As those of `carry_act`.
#[tactic(auto, using(crate::proofs::LineLemmas::cards_done, crate::proofs::LineLemmas::cards_part, crate::proofs::LineLemmas::no_cards))]
fn hold_cards<K: Keeper + Drop>(
    notebook: &mut Notebook,
    sitting: &mut Sitting<K>,
    cards: CardList,
) -> Result<(), Cut>
    requires kept { sitting.old.account.failed ≡ false }
    ensures all { OnOk result (CardsDone cards sitting.old sitting.new) }
    ensures part { OnErr result (PartOfCards cards sitting.old sitting.new) }
    ensures kept { sitting.new.account.failed ≡ is_unkept (failure_of_cut result) }
    ensures read { is_read (failure_of_cut result) ≡ false }
    ensures write { is_write (failure_of_cut result) ≡ false }
    ensures faulted { IfErr result (λ cut. cut ≡ Cut.Faulted → notebook.new.is_faulted ≡ true) }
    ensures stops { notebook.new.stops ≡ notebook.old.stops }
    ensures ended { notebook.new.has_ended ≡ notebook.old.has_ended }
{
    if sitting.hold(&cards).is_err() {
        return Err(Cut::Over(Failure::Memory));
    }
    match tend(sitting) {
        Ok(()) => Ok(()),
        Err(fault) => Err(refused(notebook, fault)),
    }
}

/// The cards of a deck.
#[tactic(auto, using(crate::proofs::LineLemmas::deck_did))]
fn do_cards<K: Keeper + Drop>(
    notebook: &mut Notebook,
    sitting: &mut Sitting<K>,
    name: &[u8],
    cards: CardList,
) -> Result<(), Failure>
    requires kept { sitting.old.account.failed ≡ false }
    ensures did { DeckOfLine (is_cut (is_err result) notebook.new)
        (at_console sitting.old notebook.old) (at_console sitting.new notebook.new) }
    ensures kept { sitting.new.account.failed ≡ is_unkept (failure_of result) }
    ensures read { is_read (failure_of result) ≡ false }
    ensures write { is_write (failure_of result) ≡ false }
    ensures ended { notebook.new.has_ended ≡ notebook.old.has_ended }
{
    let count = cards.len() as u64;
    match hold_cards(notebook, sitting, cards) {
        Ok(()) => {}
        Err(Cut::Faulted) => return Ok(()),
        Err(Cut::Over(end)) => return Err(end),
    }
    let hand = sitting.hand();
    let text = &mut notebook.page.text;
    put_deck(text, name, count, sitting.machine(), hand);
    match notebook.page.written() {
        Ok(()) => Ok(()),
        Err(_) => Err(Failure::Memory),
    }
}

/// The cards of a file.
#[tactic(auto, using(crate::proofs::LineLemmas::no_deck))]
fn do_deck<K: Keeper + Drop, D: Desk>(
    notebook: &mut Notebook,
    sitting: &mut Sitting<K>,
    name: &Text,
    desk: &mut D,
) -> Result<(), Failure>
    requires kept { sitting.old.account.failed ≡ false }
    ensures did { DeckOfLine (is_cut (is_err result) notebook.new)
        (at_console sitting.old notebook.old) (at_console sitting.new notebook.new) }
    ensures kept { sitting.new.account.failed ≡ is_unkept (failure_of result) }
    ensures read { is_read (failure_of result) ≡ false }
    ensures write { is_write (failure_of result) ≡ false }
    ensures ended { notebook.new.has_ended ≡ notebook.old.has_ended }
{
    match desk.cards(name.as_slice()) {
        Ok(cards) => do_cards(notebook, sitting, name.as_slice(), cards),
        Err(fault) => match put_no_file(notebook, name.as_slice(), fault) {
            Ok(()) => Ok(()),
            Err(_) => Err(Failure::Memory),
        },
    }
}

/// One card more.
#[tactic(auto, using(crate::proofs::LineLemmas::card_did, crate::proofs::LineLemmas::no_card))]
fn do_card<K: Keeper + Drop>(
    alloc: Global,
    notebook: &mut Notebook,
    sitting: &mut Sitting<K>,
    card: Card,
) -> Result<(), Failure>
    requires kept { sitting.old.account.failed ≡ false }
    ensures did { CardsOfLine (is_cut (is_err result) notebook.new) (card ∷ [])
        (at_console sitting.old notebook.old) (at_console sitting.new notebook.new) }
    ensures kept { sitting.new.account.failed ≡ is_unkept (failure_of result) }
    ensures read { is_read (failure_of result) ≡ false }
    ensures write { is_write (failure_of result) ≡ false }
    ensures ended { notebook.new.has_ended ≡ notebook.old.has_ended }
{
    let Ok(cards) = CardList::of_card(alloc, &card) else {
        return Err(Failure::Memory);
    };
    match hold_cards(notebook, sitting, cards) {
        Ok(()) => {}
        Err(Cut::Faulted) => return Ok(()),
        Err(Cut::Over(end)) => return Err(end),
    }
    let hand = sitting.hand();
    put_fed(&mut notebook.page.text, sitting.machine(), hand);
    match notebook.page.written() {
        Ok(()) => Ok(()),
        Err(_) => Err(Failure::Memory),
    }
}

/// `feed TEXT`.
#[tactic(auto, using(crate::proofs::LineLemmas::feed_did, crate::proofs::LineLemmas::feed_nothing))]
fn do_feed<K: Keeper + Drop>(
    alloc: Global,
    program: &Program,
    notebook: &mut Notebook,
    sitting: &mut Sitting<K>,
    text: &Text,
) -> Result<(), Failure>
    requires kept { sitting.old.account.failed ≡ false }
    ensures did { FeedDid (is_cut (is_err result) notebook.new) (card_in text.now)
        (at_console sitting.old notebook.old) (at_console sitting.new notebook.new) }
    ensures kept { sitting.new.account.failed ≡ is_unkept (failure_of result) }
    ensures read { is_read (failure_of result) ≡ false }
    ensures write { is_write (failure_of result) ≡ false }
    ensures ended { notebook.new.has_ended ≡ notebook.old.has_ended }
{
    match read_card(text.as_slice()) {
        Ok(card) => do_card(alloc, notebook, sitting, card),
        Err(fault) => match put_no_act(alloc, notebook, program, &fault) {
            Ok(()) => Ok(()),
            Err(_) => Err(Failure::Memory),
        },
    }
}

/// Adds what the load key has done: the instruction that is next, or that the machine refused it.
#[tactic(auto, using(crate::proofs::LineLemmas::not_refused))]
fn put_loaded(
    alloc: Global,
    program: &Program,
    notebook: &mut Notebook,
    room: &Room,
    commands: &[Command],
) -> Result<(), AllocError>
    ensures stops { notebook.new.stops ≡ notebook.old.stops }
    ensures ended { notebook.new.has_ended ≡ notebook.old.has_ended }
    ensures refused { is_some (refusal_of_last room.now.journal commands.now) ≡ true → notebook.new.is_faulted ≡ true }
{
    match refusal_of_last(room.journal(), commands) {
        Some(refusal) => put_refusal(notebook, refusal),
        None => {
            put_next(alloc, &mut notebook.page.text, program, room.machine());
            notebook.page.written()
        }
    }
}

/// `load`, after what devices want: the hopper has cards then, if some are in hand.
#[tactic(auto, using(crate::proofs::LineLemmas::load_done, crate::proofs::LineLemmas::load_part, crate::proofs::LineLemmas::no_load))]
fn do_load<K: Keeper + Drop>(
    alloc: Global,
    program: &Program,
    notebook: &mut Notebook,
    sitting: &mut Sitting<K>,
) -> Result<(), Failure>
    requires kept { sitting.old.account.failed ≡ false }
    ensures did { LoadOfLine (is_cut (is_err result) notebook.new)
        (at_console sitting.old notebook.old) (at_console sitting.new notebook.new) }
    ensures kept { sitting.new.account.failed ≡ is_unkept (failure_of result) }
    ensures read { is_read (failure_of result) ≡ false }
    ensures write { is_write (failure_of result) ≡ false }
    ensures ended { notebook.new.has_ended ≡ notebook.old.has_ended }
{
    let commands = [Command::LoadKey];
    if let Err(fault) = tend(sitting) {
        return put_refused(notebook, fault);
    }
    if let Err(fault) = carry_all(sitting, commands.as_slice()) {
        return put_refused(notebook, fault);
    }
    match put_loaded(
        alloc,
        program,
        notebook,
        sitting.room(),
        commands.as_slice(),
    ) {
        Ok(()) => Ok(()),
        Err(_) => Err(Failure::Memory),
    }
}

/// What follows the commands of an act: a run, cards, or the load key.
#[tactic(auto, using(crate::proofs::LineLemmas::left, crate::proofs::EndLemmas::source_unread))]
fn follow<K: Keeper + Drop, D: Desk, R: Source + Terminal, W: Sink>(
    setting: &Setting,
    notebook: &mut Notebook,
    sitting: &mut Sitting<K>,
    act: &Act,
    desk: &mut D,
    reader: &mut R,
    writer: &mut W,
) -> Result<(), Failure>
    requires good { source_so false notebook.old.has_ended (R.has_failed reader.old) (R.left reader.old) ≡ true }
    requires sink { W.has_failed writer.old ≡ false }
    requires kept { sitting.old.account.failed ≡ false }
    ensures did { FollowDid setting.now.program.now setting.now.manner.now.limit
        (is_cut (is_err result) notebook.new) act.now
        (at_console sitting.old notebook.old) (at_console sitting.new notebook.new) }
    ensures good { source_so (is_read (failure_of result)) notebook.new.has_ended (R.has_failed reader.new)
        (R.left reader.new) ≡ true }
    ensures sink { W.has_failed writer.new ≡ is_write (failure_of result) }
    ensures kept { sitting.new.account.failed ≡ is_unkept (failure_of result) }
{
    let Setting {
        alloc,
        program,
        manner,
    } = *setting;
    match act {
        Act::Deposit { .. } | Act::Set { .. } | Act::Mark(_) | Act::Unmark(_) => Ok(()),
        Act::Start(_) | Act::Switch { .. } => Ok(()),
        Act::Load => do_load(alloc, program, notebook, sitting),
        Act::Feed(text) => do_feed(alloc, program, notebook, sitting, text),
        Act::Deck(name) => do_deck(notebook, sitting, name, desk),
        Act::Until(place) => do_until(setting, notebook, sitting, place, desk, reader, writer),
        Act::Step(count) => {
            let asked = Asked {
                setting: *setting,
                extent: Extent::new(Some(*count), manner).with_lines(),
            };
            run(&asked, notebook, sitting, desk, reader, writer)
        }
        Act::Continue(count) => {
            let asked = Asked {
                setting: *setting,
                extent: Extent::new(*count, manner),
            };
            run(&asked, notebook, sitting, desk, reader, writer)
        }
        Act::Go(_) => {
            let asked = Asked {
                setting: *setting,
                extent: Extent::new(None, manner),
            };
            run(&asked, notebook, sitting, desk, reader, writer)
        }
    }
}

/// Does an act: its commands, and then what follows them.
///
/// # Errors
///
/// If the sitting ends.
#[tactic(auto, using(crate::proofs::LineLemmas::whole_act, crate::proofs::LineLemmas::cut_act, crate::proofs::EndLemmas::source_unread))]
pub(crate) fn do_act<K: Keeper + Drop, D: Desk, R: Source + Terminal, W: Sink>(
    setting: &Setting,
    notebook: &mut Notebook,
    sitting: &mut Sitting<K>,
    act: &Act,
    desk: &mut D,
    reader: &mut R,
    writer: &mut W,
) -> Result<(), Failure>
    requires good { source_so false notebook.old.has_ended (R.has_failed reader.old) (R.left reader.old) ≡ true }
    requires sink { W.has_failed writer.old ≡ false }
    requires kept { sitting.old.account.failed ≡ false }
    ensures did { ActDid setting.now.program.now setting.now.manner.now.limit (is_err result)
        notebook.new.is_faulted act.now
        (at_console sitting.old notebook.old) (at_console sitting.new notebook.new) }
    ensures good { source_so (is_read (failure_of result)) notebook.new.has_ended (R.has_failed reader.new)
        (R.left reader.new) ≡ true }
    ensures sink { W.has_failed writer.new ≡ is_write (failure_of result) }
    ensures kept { sitting.new.account.failed ≡ is_unkept (failure_of result) }
{
    let Setting { alloc, program, .. } = *setting;
    match do_commands(alloc, program, notebook, sitting, act) {
        Ok(()) => follow(setting, notebook, sitting, act, desk, reader, writer),
        Err(Cut::Faulted) => Ok(()),
        Err(Cut::Over(end)) => Err(end),
    }
}
