//! Lines that look, and those that note something. They have the machine to look at, and nothing of them is recorded.
ghost use Rattle.std.specs.Prelude.{◌≡◌, true, false, not, is_err};
ghost use Rattle.operate_answers.specs.Stops.{break_added, stops_deleted, watch_added};
ghost use Rattle.operate_console.specs.Line.{Asserted, IsSet, StopsNoted, is_cut, is_so_at};
ghost use Rattle.operate_console.specs.Run.{faulted};
ghost use Rattle.room_alone.specs.Journal.{state_of};

use crate::desk::Desk;
use crate::faults::{put_no_file, put_no_look, put_no_place};
use crate::notebook::Notebook;
use crate::script::Script;
use cpu_1401::Machine;
use operate_answers::{LookFault, Seen, put_help, put_look, put_not_so, put_saved, put_set};
use operate_orders::{Condition, Look, MOST_LISTED, Note, Place, Text, Watched};
use operate_program::Program;
use operate_sitting::Condition as _;
use room_alone::Room;
use room_files::write_journal;
use std::alloc::{AllocError, Global};

/// Ends a line that shows something: a fault is in place of what was added from a place on.
fn shown(
    alloc: Global,
    program: &Program,
    notebook: &mut Notebook,
    from: usize,
    looked: Result<(), LookFault>,
) -> Result<(), AllocError>
    ensures stops { notebook.new.stops ≡ notebook.old.stops }
    ensures ended { notebook.new.has_ended ≡ notebook.old.has_ended }
{
    match looked {
        Ok(()) => notebook.page.written(),
        Err(LookFault::Memory) => Err(AllocError),
        Err(fault) => {
            notebook.page.cut(from);
            put_no_look(alloc, notebook, program, &fault)
        }
    }
}

/// Shows something.
///
/// # Errors
///
/// If memory is refused.
pub(crate) fn do_look(
    alloc: Global,
    program: &Program,
    notebook: &mut Notebook,
    room: &Room,
    hand: usize,
    look: &Look,
) -> Result<(), AllocError>
    ensures stops { notebook.new.stops ≡ notebook.old.stops }
    ensures ended { notebook.new.has_ended ≡ notebook.old.has_ended }
{
    let from = notebook.page.here();
    let seen = Seen {
        machine: room.machine(),
        journal: room.journal(),
        hand,
        stops: &notebook.stops,
        why: notebook.why.as_slice(),
    };
    let looked = put_look(alloc, &mut notebook.page.text, program, &seen, look);
    shown(alloc, program, notebook, from, looked)
}

/// Adds the line of the break or the watch that was set last.
fn put_last_set(
    alloc: Global,
    program: &Program,
    notebook: &mut Notebook,
    machine: &Machine,
) -> Result<(), AllocError>
    ensures stops { notebook.new.stops ≡ notebook.old.stops }
    ensures ended { notebook.new.has_ended ≡ notebook.old.has_ended }
{
    let core = machine.core();
    put_set(
        alloc,
        &mut notebook.page.text,
        program,
        core,
        &notebook.stops,
    );
    notebook.page.written()
}

/// Ends a line that sets a break or a watch, or takes some away: a fault is reported.
fn noted(
    alloc: Global,
    program: &Program,
    notebook: &mut Notebook,
    done: &Result<(), LookFault>,
) -> Result<(), AllocError>
    ensures stops { notebook.new.stops ≡ notebook.old.stops }
    ensures ended { notebook.new.has_ended ≡ notebook.old.has_ended }
    ensures cut { is_err done.now ≡ true → is_cut (is_err result) notebook.new ≡ true }
{
    match done {
        Ok(()) => Ok(()),
        Err(LookFault::Memory) => Err(AllocError),
        Err(fault) => put_no_look(alloc, notebook, program, fault),
    }
}

/// Ends a line that sets a break or a watch.
fn set(
    alloc: Global,
    program: &Program,
    notebook: &mut Notebook,
    machine: &Machine,
    done: &Result<(), LookFault>,
) -> Result<(), AllocError>
    ensures stops { notebook.new.stops ≡ notebook.old.stops }
    ensures ended { notebook.new.has_ended ≡ notebook.old.has_ended }
    ensures cut { is_err done.now ≡ true → is_cut (is_err result) notebook.new ≡ true }
{
    if done.is_ok() {
        put_last_set(alloc, program, notebook, machine)
    } else {
        noted(alloc, program, notebook, done)
    }
}

/// `break ADDRESS`.
#[tactic(auto, using(crate::proofs::LineLemmas::is_set))]
fn do_break(
    alloc: Global,
    program: &Program,
    notebook: &mut Notebook,
    machine: &Machine,
    place: &Place,
    after: Option<u32>,
    condition: Option<Condition>,
) -> Result<(), AllocError>
    ensures ended { notebook.new.has_ended ≡ notebook.old.has_ended }
    ensures set { IsSet (is_cut (is_err result) notebook.new)
        (break_added program.now machine.now place.now after condition notebook.old.stops)
        notebook.old.stops notebook.new.stops }
{
    let done = notebook
        .stops
        .add_break(program, machine, place, after, condition);
    set(alloc, program, notebook, machine, &done)
}

/// `watch ..`.
#[tactic(auto, using(crate::proofs::LineLemmas::is_set))]
fn do_watch(
    alloc: Global,
    program: &Program,
    notebook: &mut Notebook,
    machine: &Machine,
    watched: &Watched,
) -> Result<(), AllocError>
    ensures ended { notebook.new.has_ended ≡ notebook.old.has_ended }
    ensures set { IsSet (is_cut (is_err result) notebook.new)
        (watch_added program.now machine.now watched.now notebook.old.stops) notebook.old.stops notebook.new.stops }
{
    let done = notebook.stops.add_watch(alloc, program, machine, watched);
    set(alloc, program, notebook, machine, &done)
}

/// `delete [N ..]`.
#[tactic(auto, using(crate::proofs::LineLemmas::is_set))]
fn do_delete(
    alloc: Global,
    program: &Program,
    notebook: &mut Notebook,
    numbers: &[Option<u32>; MOST_LISTED],
) -> Result<(), AllocError>
    ensures ended { notebook.new.has_ended ≡ notebook.old.has_ended }
    ensures set { IsSet (is_cut (is_err result) notebook.new) (stops_deleted numbers.now notebook.old.stops)
        notebook.old.stops notebook.new.stops }
{
    let done = notebook.stops.delete(numbers);
    noted(alloc, program, notebook, &done)
}

/// `do FILE`.
fn do_file<D: Desk>(
    alloc: Global,
    notebook: &mut Notebook,
    name: &Text,
    desk: &mut D,
) -> Result<(), AllocError>
    ensures stops { notebook.new.stops ≡ notebook.old.stops }
    ensures ended { notebook.new.has_ended ≡ notebook.old.has_ended }
{
    if !notebook.waiting.may_begin() {
        return notebook.put_fault(b"do goes ten deep".as_slice());
    }
    match desk.lines(name.as_slice()) {
        Ok(text) => {
            let name = Vec::from_slice(alloc, name.as_slice())?;
            notebook.waiting.begin(Script { name, text })
        }
        Err(fault) => put_no_file(notebook, name.as_slice(), fault),
    }
}

/// `transcript FILE`, `transcript off`.
fn do_transcript<D: Desk>(
    notebook: &mut Notebook,
    name: &Option<Text>,
    desk: &mut D,
) -> Result<(), AllocError>
    ensures stops { notebook.new.stops ≡ notebook.old.stops }
    ensures ended { notebook.new.has_ended ≡ notebook.old.has_ended }
{
    let Some(name) = name else {
        desk.end_transcript();
        return Ok(());
    };
    match desk.begin_transcript(name.as_slice()) {
        Ok(()) => Ok(()),
        Err(fault) => put_no_file(notebook, name.as_slice(), fault),
    }
}

/// Adds that a condition isn't so, as a fault.
fn put_false(
    alloc: Global,
    program: &Program,
    notebook: &mut Notebook,
    machine: &Machine,
    condition: &Condition,
) -> Result<(), AllocError>
    ensures { notebook.new ≡ faulted notebook.old }
{
    let from = notebook.begin_fault()?;
    match put_not_so(alloc, &mut notebook.page.text, program, machine, condition) {
        Ok(()) => notebook.end_fault(from),
        Err(LookFault::Memory) => Err(AllocError),
        Err(fault) => {
            notebook.page.cut(from);
            put_no_look(alloc, notebook, program, &fault)
        }
    }
}

/// `assert CONDITION`.
#[tactic(auto, using(crate::proofs::LineLemmas::is_asserted))]
fn do_assert(
    alloc: Global,
    program: &Program,
    notebook: &mut Notebook,
    machine: &Machine,
    condition: &Condition,
) -> Result<(), AllocError>
    requires { notebook.old.is_faulted ≡ false }
    ensures stops { notebook.new.stops ≡ notebook.old.stops }
    ensures ended { notebook.new.has_ended ≡ notebook.old.has_ended }
    ensures asserted { is_cut (is_err result) notebook.new ≡ not (is_so_at program.now machine.now condition.now) }
{
    match program.comparison(machine, condition) {
        Ok(comparison) => {
            if comparison.is_so(machine) {
                return Ok(());
            }
            put_false(alloc, program, notebook, machine, condition)
        }
        Err(fault) => put_no_place(alloc, notebook, program, &fault),
    }
}

/// `save FILE`.
fn do_save<D: Desk>(
    alloc: Global,
    notebook: &mut Notebook,
    room: &Room,
    hand: usize,
    name: &Text,
    desk: &mut D,
) -> Result<(), AllocError>
    ensures stops { notebook.new.stops ≡ notebook.old.stops }
    ensures ended { notebook.new.has_ended ≡ notebook.old.has_ended }
{
    let journal = room.journal();
    let text = write_journal(alloc, room.machine().core().size(), journal)?;
    match desk.save(name.as_slice(), room, text.as_slice()) {
        Ok(()) => {
            let text = &mut notebook.page.text;
            put_saved(text, journal.len() as u64, name.as_slice(), hand);
            notebook.page.written()
        }
        Err(fault) => put_no_file(notebook, name.as_slice(), fault),
    }
}

/// Notes something.
///
/// # Errors
///
/// If memory is refused.
pub(crate) fn do_note<D: Desk>(
    alloc: Global,
    program: &Program,
    notebook: &mut Notebook,
    room: &Room,
    hand: usize,
    note: &Note,
    desk: &mut D,
) -> Result<(), AllocError>
    requires { notebook.old.is_faulted ≡ false }
    ensures stops { StopsNoted program.now (state_of room.now.size room.now.journal)
        (is_cut (is_err result) notebook.new) note.now notebook.old.stops notebook.new.stops }
    ensures asserted { Asserted program.now (state_of room.now.size room.now.journal)
        (is_cut (is_err result) notebook.new) note.now }
    ensures ended { notebook.new.has_ended ≡ notebook.old.has_ended }
{
    let machine = room.machine();
    match note {
        Note::Break {
            place,
            after,
            condition,
        } => do_break(alloc, program, notebook, machine, place, *after, *condition),
        Note::Watch(watched) => do_watch(alloc, program, notebook, machine, watched),
        Note::Delete(numbers) => do_delete(alloc, program, notebook, numbers),
        Note::Do(name) => do_file(alloc, notebook, name, desk),
        Note::Transcript(name) => do_transcript(notebook, name, desk),
        Note::Assert(condition) => do_assert(alloc, program, notebook, machine, condition),
        Note::Help(keyword) => {
            put_help(&mut notebook.page.text, *keyword);
            notebook.page.written()
        }
        Note::Save(name) => do_save(alloc, notebook, room, hand, name, desk),
    }
}
