//! Runs, round by round.
ghost use Rattle.std.specs.Prelude.{◌≡◌, false, true, None, Ok, is_err};
ghost use Rattle.operate_console.specs.Ends.{failure_of, is_ran_unkept, is_read, is_run_unkept, is_unkept, is_write};
ghost use Rattle.operate_console.specs.Ends.{source_so};
ghost use Rattle.operate_console.specs.Line.{is_cut};
ghost use Rattle.operate_console.specs.Run.{RanAsFar, RunDid, at_console, at_run, counted_if, is_ran_met, is_refused, read_on};
ghost use Rattle.operate_console.specs.Run.{is_why_met, was_cut, was_met};

use crate::desk::Desk;
use crate::ends::Failure;
use crate::extent::Asked;
use crate::faults::put_refused;
use crate::listening::is_interrupted;
use crate::manner::Manner;
use crate::notebook::Notebook;
use crate::rounds::{Progress, RunFault, go_on, is_spent};
use crate::run_stops::RunStops;
use crate::setting::Setting;
use crate::terminal::Terminal;
use bytes_streams::{Sink, Source};
use bytes_text::Text;
use cpu_1401::Machine;
use operate_answers::{Ended, Stops, put_ended, put_why};
use operate_program::Program;
use operate_sitting::{FullDevices, OneOf, Sitting};
use room_alone::{Keeper, RoomFault};
use std::alloc::{AllocError, Global};
use std::mem::replace;

/// The most rounds of a run: each records a command, and a journal has no more.
const MOST_ROUNDS: u32 = 100_000;

/// Shows what a run has printed so far; true if a person interrupts it.
///
/// # Errors
///
/// If the sitting ends.
#[tactic(auto, using(crate::proofs::EndLemmas::heard_so_far, crate::proofs::EndLemmas::source_unread, crate::proofs::EndLemmas::noted_on))]
fn show_and_listen<D: Desk, R: Source + Terminal, W: Sink>(
    alloc: Global,
    manner: &Manner,
    notebook: &mut Notebook,
    desk: &mut D,
    reader: &mut R,
    writer: &mut W,
) -> Result<bool, Failure>
    requires good { source_so false notebook.old.has_ended (R.has_failed reader.old) (R.left reader.old) ≡ true }
    requires sink { W.has_failed writer.old ≡ false }
    ensures attended { result ≡ Ok true → manner.now.limit ≡ None }
    ensures noted { notebook.new ≡ read_on notebook.new.has_ended notebook.old }
    ensures good { source_so (is_read (failure_of result)) notebook.new.has_ended (R.has_failed reader.new)
        (R.left reader.new) ≡ true }
    ensures sink { W.has_failed writer.new ≡ is_write (failure_of result) }
    ensures kept { is_unkept (failure_of result) ≡ false }
{
    match notebook.page.show(alloc, manner, desk, writer) {
        Ok(()) => is_interrupted(alloc, manner, reader, &mut notebook.waiting),
        Err(end) => Err(end),
    }
}

/// How a run ended.
#[derive(Clone, Copy)]
pub enum Ran {
    /// So, after so many instructions.
    Ended(Ended, u64),
    /// The room takes no command.
    Refused(RoomFault),
}

/// Runs, round by round, until something ends the run. What is printed is shown after each round.
///
/// # Errors
///
/// If the sitting ends.
#[tactic(auto, using(crate::proofs::EndLemmas::source_unread, crate::proofs::EndLemmas::noted_on))]
fn run_rounds<K: Keeper + Drop, D: Desk, R: Source + Terminal, W: Sink>(
    asked: &Asked,
    notebook: &mut Notebook,
    sitting: &mut Sitting<K>,
    test: &mut OneOf<RunStops, FullDevices>,
    desk: &mut D,
    reader: &mut R,
    writer: &mut W,
) -> Result<Ran, Failure>
    requires good { source_so false notebook.old.has_ended (R.has_failed reader.old) (R.left reader.old) ≡ true }
    requires sink { W.has_failed writer.old ≡ false }
    requires kept { sitting.old.account.failed ≡ false }
    ensures did { RunDid asked.now.setting.manner.now.limit (was_cut result) (was_met result)
        asked.now.extent.reach.most (at_run sitting.old test.old) (at_run sitting.new test.new) }
    ensures noted { notebook.new ≡ read_on notebook.new.has_ended notebook.old }
    ensures good { source_so (is_read (failure_of result)) notebook.new.has_ended (R.has_failed reader.new)
        (R.left reader.new) ≡ true }
    ensures sink { W.has_failed writer.new ≡ is_write (failure_of result) }
    ensures kept { sitting.new.account.failed ≡ is_run_unkept result }
{
    let Setting {
        alloc,
        program,
        manner,
    } = asked.setting;
    let extent = &asked.extent;
    let mut steps = 0;
    if is_spent(extent.reach.most, steps) {
        return Ok(Ran::Ended(extent.end(), steps));
    }
    for round in 0..MOST_ROUNDS {
        match go_on(alloc, program, notebook, sitting, test, extent, steps) {
            Ok(Progress::On(all)) => steps = all,
            Ok(Progress::Ended(ended, all)) => return Ok(Ran::Ended(ended, all)),
            Err(RunFault::Refused(fault)) => return Ok(Ran::Refused(fault)),
            Err(RunFault::Over(end)) => return Err(end),
        }
        match show_and_listen(alloc, manner, notebook, desk, reader, writer) {
            Ok(true) => return Ok(Ran::Ended(Ended::Interrupted, steps)),
            Ok(false) => {}
            Err(end) => return Err(end),
        }
    }
    Ok(Ran::Refused(RoomFault::JournalFull))
}

/// Whether a run ended because its last step came to the address, or met a break or a watch.
fn is_met(ended: Ended) -> bool
    ensures { result ≡ is_why_met ended }
{
    match ended {
        Ended::Met => true,
        Ended::Stopped(_) | Ended::Counted | Ended::Interrupted | Ended::Unattended => false,
    }
}

/// Counts the breaks and watches that the last step met, if that ended the run.
fn count_met(notebook: &mut Notebook, ended: Ended)
    ensures stops { notebook.new.stops ≡ counted_if (is_why_met ended) notebook.old.stops }
    ensures fault { notebook.new.is_faulted ≡ notebook.old.is_faulted }
    ensures ended { notebook.new.has_ended ≡ notebook.old.has_ended }
{
    if is_met(ended) {
        notebook.stops.count_met();
    }
}

/// Notes why a run ended, and adds it to the answer.
fn put_end(
    alloc: Global,
    program: &Program,
    notebook: &mut Notebook,
    machine: &Machine,
    ended: Ended,
    steps: u64,
) -> Result<(), AllocError>
    ensures { notebook.new ≡ notebook.old }
{
    let mut why = Text::new(alloc);
    put_why(alloc, &mut why, program, machine, &notebook.stops, ended);
    notebook.why = why.into_bytes()?;
    let from = notebook.page.here();
    let text = &mut notebook.page.text;
    put_ended(alloc, text, program, machine, &notebook.stops, ended, steps);
    notebook.page.paint_line(from);
    notebook.page.written()
}

/// Adds how a run ended. The breaks and watches that ended it are counted.
fn end_run(
    alloc: Global,
    program: &Program,
    notebook: &mut Notebook,
    machine: &Machine,
    ran: Ran,
) -> Result<(), Failure>
    ensures cut { is_refused ran ≡ true → is_cut (is_err result) notebook.new ≡ true }
    ensures stops { notebook.new.stops ≡ counted_if (is_ran_met ran) notebook.old.stops }
    ensures ended { notebook.new.has_ended ≡ notebook.old.has_ended }
    ensures kept { is_ran_unkept ran ≡ is_unkept (failure_of result) }
    ensures read { is_read (failure_of result) ≡ false }
    ensures write { is_write (failure_of result) ≡ false }
{
    match ran {
        Ran::Ended(ended, steps) => {
            count_met(notebook, ended);
            match put_end(alloc, program, notebook, machine, ended, steps) {
                Ok(()) => Ok(()),
                Err(_) => Err(Failure::Memory),
            }
        }
        Ran::Refused(fault) => put_refused(notebook, fault),
    }
}

/// A run: what ends it, and the lines that it prints, are in the answer, or were shown before.
///
/// # Errors
///
/// If the sitting ends.
#[tactic(auto, using(crate::proofs::RunLemmas::ran_as_far, crate::proofs::EndLemmas::source_unread))]
pub(crate) fn run<K: Keeper + Drop, D: Desk, R: Source + Terminal, W: Sink>(
    asked: &Asked,
    notebook: &mut Notebook,
    sitting: &mut Sitting<K>,
    desk: &mut D,
    reader: &mut R,
    writer: &mut W,
) -> Result<(), Failure>
    requires good { source_so false notebook.old.has_ended (R.has_failed reader.old) (R.left reader.old) ≡ true }
    requires sink { W.has_failed writer.old ≡ false }
    requires kept { sitting.old.account.failed ≡ false }
    ensures did { RanAsFar asked.now.setting.manner.now.limit (is_cut (is_err result) notebook.new)
        asked.now.extent.reach (at_console sitting.old notebook.old) (at_console sitting.new notebook.new) }
    ensures good { source_so (is_read (failure_of result)) notebook.new.has_ended (R.has_failed reader.new)
        (R.left reader.new) ≡ true }
    ensures sink { W.has_failed writer.new ≡ is_write (failure_of result) }
    ensures kept { sitting.new.account.failed ≡ is_unkept (failure_of result) }
{
    let Setting { alloc, program, .. } = asked.setting;
    let stops = replace(&mut notebook.stops, Stops::new(alloc));
    let mut test = OneOf {
        first: RunStops::new(asked.extent.reach.until, stops),
        second: FullDevices::new(false),
    };
    let ran = run_rounds(asked, notebook, sitting, &mut test, desk, reader, writer);
    let OneOf { first, .. } = test;
    let RunStops { stops, .. } = first;
    notebook.stops = stops;
    match ran {
        Ok(ran) => end_run(alloc, program, notebook, sitting.machine(), ran),
        Err(end) => Err(end),
    }
}
