//! Rounds of a run: what devices want, and a slice.
ghost use Rattle.std.specs.Prelude.{◌≡◌, ◌<◌, ◌≤◌, ◌+◌, ◌^◌, ◌||◌, false, None, IfOk, IfSome, OnOk, OnErr, is_some};
ghost use Rattle.cpu_1401.specs.Run.{most_steps};
ghost use Rattle.operate_console.specs.Ends.{is_round_unkept, read_of_round, was_unkept, write_of_round};
ghost use Rattle.operate_console.specs.Run.{CutRound, CutSlice, ProgressDid, ProgressIs, RoundDid, SliceDid, TendedAll, TendedPart};
ghost use Rattle.operate_console.specs.Run.{at_run, ends_run, is_end_met, is_spent, is_why_met, slice_after, steps_of};
ghost use Rattle.operate_console.specs.Run.{was_met_after};

use crate::ends::Failure;
use crate::extent::Extent;
use crate::notebook::Notebook;
use crate::run_stops::RunStops;
use cpu_1401::Machine;
use operate_answers::{Ended, put_steps};
use operate_program::Program;
use operate_sitting::{Found, FullDevices, MOST_STEPS, OneOf, SearchEnd, Sitting};
use room_alone::{Keeper, RoomFault};
use std::alloc::{AllocError, Global};

/// How many instructions the next slice of a run has at most, after this many.
fn slice_after(most: Option<u32>, steps: u64) -> u32
    requires { is_spent most steps ≡ false }
    ensures slice { result ≡ slice_after most steps }
    ensures some { 0 < result }
    ensures most { result ≤ most_steps }
{
    match most {
        None => MOST_STEPS,
        Some(most) => u64::from(most)
            .saturating_sub(steps)
            .min(u64::from(MOST_STEPS)) as u32,
    }
}

/// Whether a run has no more instructions.
pub(crate) fn is_spent(most: Option<u32>, steps: u64) -> bool
    ensures { result ≡ is_spent most steps }
{
    match most {
        None => false,
        Some(most) => u64::from(most) <= steps,
    }
}

/// Why a slice ends the run, if it does.
fn end_of(found: SearchEnd, is_met: bool) -> Option<Ended>
    ensures ends { is_some result ≡ ends_run found is_met }
    ensures met { IfSome result (λ why. is_why_met why ≡ is_end_met found is_met) }
    ensures on { result ≡ None → is_end_met found is_met ≡ false }
{
    match found {
        SearchEnd::Stop(stop) => Some(Ended::Stopped(stop)),
        SearchEnd::Met => { if is_met { Some(Ended::Met) } else { None } }
        SearchEnd::Limit => None,
    }
}

/// How far a run has come.
#[derive(Clone, Copy)]
pub enum Progress {
    /// It goes on, after so many instructions.
    On(u64),
    /// It is over, after so many instructions.
    Ended(Ended, u64),
}

/// How far a run has come after a round that ended so, and so many instructions.
fn after_round(extent: &Extent, found: SearchEnd, is_met: bool, steps: u64) -> Progress
    ensures over { ProgressIs result (ends_run found is_met || is_spent extent.now.reach.most steps) }
    ensures met { was_met_after result ≡ is_end_met found is_met }
    ensures steps { steps_of result ≡ steps }
{
    match end_of(found, is_met) {
        Some(ended) => Progress::Ended(ended, steps),
        None => {
            if is_spent(extent.reach.most, steps) {
                Progress::Ended(extent.end(), steps)
            } else {
                Progress::On(steps)
            }
        }
    }
}

/// A slice of a run.
///
/// # Errors
///
/// As those of `Sitting::run_until`, and `Unkept` if its entry isn't kept.
#[tactic(auto, using(crate::proofs::RunLemmas::slice_did, crate::proofs::RunLemmas::no_slice, crate::proofs::EndLemmas::not_unkept))]
fn run_slice<K: Keeper + Drop>(
    sitting: &mut Sitting<K>,
    test: &mut OneOf<RunStops, FullDevices>,
    most: u32,
) -> Result<Found, RoomFault>
    requires some { 0 < most }
    requires most { most ≤ most_steps }
    requires kept { sitting.old.account.failed ≡ false }
    ensures ok { IfOk result (λ found.
        SliceDid most found (at_run sitting.old test.old) (at_run sitting.new test.new)) }
    ensures err { OnErr result (CutSlice most (at_run sitting.old test.old) (at_run sitting.new test.new)) }
    ensures kept { sitting.new.account.failed ≡ was_unkept result }
{
    match sitting.run_until(test, most) {
        Ok(end) => {
            if end.kept {
                Ok(end.found)
            } else {
                Err(RoomFault::Unkept)
            }
        }
        Err(fault) => Err(fault),
    }
}

/// What devices want.
///
/// # Errors
///
/// As those of `Sitting::tend`, and `Unkept` if an entry isn't kept.
#[tactic(auto, using(crate::proofs::RunLemmas::tended_all, crate::proofs::RunLemmas::tended_part, crate::proofs::EndLemmas::still_kept))]
pub(crate) fn tend<K: Keeper + Drop>(sitting: &mut Sitting<K>) -> Result<(), RoomFault>
    requires { sitting.old.account.failed ≡ false }
    ensures all { OnOk result (TendedAll sitting.old sitting.new) }
    ensures part { TendedPart sitting.old sitting.new }
    ensures kept { sitting.new.account.failed ≡ was_unkept result }
{
    match sitting.tend() {
        Ok(tended) => {
            if tended.kept {
                Ok(())
            } else {
                Err(RoomFault::Unkept)
            }
        }
        Err(fault) => {
            if sitting.has_failed() {
                Err(RoomFault::Unkept)
            } else {
                Err(fault)
            }
        }
    }
}

/// Adds the lines of a slice of so many instructions: one for each of them, if they are asked for, and those that were
/// printed. `ahead` is the machine before it.
fn put_slice(
    alloc: Global,
    notebook: &mut Notebook,
    program: &Program,
    ahead: Option<Machine>,
    machine: &Machine,
    steps: u32,
) -> Result<(), AllocError>
    ensures { notebook.new ≡ notebook.old }
{
    match ahead {
        Some(mut ahead) => {
            notebook.pass_paper(machine);
            put_steps(alloc, &mut notebook.page.text, program, &mut ahead, steps);
            notebook.page.written()
        }
        None => notebook.put_printed(alloc, machine),
    }
}

/// The machine before a slice, if there is to be a line for each of its instructions.
fn machine_ahead(
    alloc: Global,
    has_lines: bool,
    machine: &Machine,
) -> Result<Option<Machine>, AllocError> {
    if !has_lines {
        return Ok(None);
    }
    match machine.copy(alloc) {
        Ok(machine) => Ok(Some(machine)),
        Err(fault) => Err(fault),
    }
}

/// Why a run is cut off.
#[derive(Clone, Copy)]
pub enum RunFault {
    /// The room takes no command.
    Refused(RoomFault),
    /// The sitting ends.
    Over(Failure),
}

/// A round of a run: what devices want, and then a slice.
///
/// # Errors
///
/// If the round is cut off.
#[tactic(auto, using(crate::proofs::RunLemmas::round_did, crate::proofs::RunLemmas::round_begun, crate::proofs::RunLemmas::whole_round, crate::proofs::RunLemmas::round_cut))]
fn run_round<K: Keeper + Drop>(
    alloc: Global,
    program: &Program,
    notebook: &mut Notebook,
    sitting: &mut Sitting<K>,
    test: &mut OneOf<RunStops, FullDevices>,
    has_lines: bool,
    most: u32,
) -> Result<Found, RunFault>
    requires some { 0 < most }
    requires most { most ≤ most_steps }
    requires kept { sitting.old.account.failed ≡ false }
    ensures ok { IfOk result (λ found.
        RoundDid most found (at_run sitting.old test.old) (at_run sitting.new test.new)) }
    ensures err { OnErr result (CutRound most (at_run sitting.old test.old) (at_run sitting.new test.new)) }
    ensures noted { notebook.new ≡ notebook.old }
    ensures kept { sitting.new.account.failed ≡ is_round_unkept result }
    ensures read { read_of_round result ≡ false }
    ensures write { write_of_round result ≡ false }
{
    if let Err(fault) = tend(sitting) {
        return Err(RunFault::Refused(fault));
    }
    notebook.pass_paper(sitting.machine());
    let ahead = match machine_ahead(alloc, has_lines, sitting.machine()) {
        Ok(ahead) => ahead,
        Err(_) => return Err(RunFault::Over(Failure::Memory)),
    };
    let found = match run_slice(sitting, test, most) {
        Ok(found) => found,
        Err(fault) => return Err(RunFault::Refused(fault)),
    };
    let put = put_slice(
        alloc,
        notebook,
        program,
        ahead,
        sitting.machine(),
        found.steps,
    );
    match put {
        Ok(()) => Ok(found),
        Err(_) => Err(RunFault::Over(Failure::Memory)),
    }
}

/// Goes on with a run that has carried out so many instructions, by a round.
///
/// # Errors
///
/// If the round is cut off.
#[tactic(auto, using(crate::proofs::RunLemmas::progress_did))]
pub(crate) fn go_on<K: Keeper + Drop>(
    alloc: Global,
    program: &Program,
    notebook: &mut Notebook,
    sitting: &mut Sitting<K>,
    test: &mut OneOf<RunStops, FullDevices>,
    extent: &Extent,
    steps: u64,
) -> Result<Progress, RunFault>
    requires bound { steps < 2 ^ 63 }
    requires left { is_spent extent.now.reach.most steps ≡ false }
    requires kept { sitting.old.account.failed ≡ false }
    ensures ok { IfOk result (λ progress. ProgressDid extent.now.reach.most progress
        (record { at = at_run sitting.old test.old; steps = steps }) (at_run sitting.new test.new)) }
    ensures err { OnErr result (CutRound (slice_after extent.now.reach.most steps)
        (at_run sitting.old test.old) (at_run sitting.new test.new)) }
    ensures bound { IfOk result (λ progress. steps_of progress ≤ steps + 2 ^ 32) }
    ensures noted { notebook.new ≡ notebook.old }
    ensures kept { sitting.new.account.failed ≡ is_round_unkept result }
    ensures read { read_of_round result ≡ false }
    ensures write { write_of_round result ≡ false }
{
    let most = slice_after(extent.reach.most, steps);
    match run_round(
        alloc,
        program,
        notebook,
        sitting,
        test,
        extent.has_lines,
        most,
    ) {
        Ok(found) => {
            let all = steps + u64::from(found.steps);
            Ok(after_round(extent, found.end, test.first.is_met, all))
        }
        Err(fault) => Err(fault),
    }
}
