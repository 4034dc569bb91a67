//! What the subcommand `run` does.
ghost use Rattle.std.specs.Prelude.{◌≡◌, ◌⊎◌, true, false, Err, IfOk, IfErr, List, OnErr, OnOk, Option};
ghost use Rattle.job_runner.specs.Unattended.{taped_with_deck};
ghost use Rattle.program_run.specs.RunDeck.{BrokeOff, IsAtEndOf, started_job};
ghost use Rattle.program_run.specs.Run.{job_outcome};
ghost use Rattle.program_run.specs.RunFile.{IsFaultOf};
ghost use Rattle.program_run.specs.RunJob.{HasHalted, ReportsJob, report_on, set_up, with_switches};
ghost use Rattle.program_run.specs.RunEnd.{EndsAs, HandsOverAfter, IfStopped, IsBegunFor, IsHalt, IsNoStopOf};
ghost use Rattle.program_run.specs.RunEnd.{IsReadFor, Ran};
ghost use Rattle.program_run.specs.GivenReels.{GivenReel};
ghost use Rattle.program_run.specs.WrittenReels.{known_files};
ghost use Rattle.program_arguments.specs.SourceSize.{is_refused};

use crate::deck_running::{Broken, run_started};
use crate::ending::Ending;
use crate::fault::{RunFault, job_outcome};
use crate::inputs::{Inputs, read_inputs};
use crate::job_report::JobReport;
use crate::loaded_image::store_image;
use crate::one_file::check_names;
use crate::outputs::{NamedOutputs, Outputs, check_outputs, check_reels, create_outputs, fault_of};
use crate::reel_files::{NamedFiles, ReelFiles};
use crate::reels::{read_reels, write_reels};
use crate::stopped_at::RunSource;
use crate::watching::{AboveLine, Shown, Unwatched};
use bytes_streams::{Sink, ToWriter};
use cpu_1401::{Machine, Stop};
use job_runner::CardList;
use machine_tables::Features;
use machine_tapes::TapedMachine;
use program_arguments::{Job, is_refused};
use std::cell::Cell;
use std::io;
use std::rt::{Clock, Files};

/// What standard error is.
#[derive(Clone, Copy)]
pub enum ErrorOutput {
    /// A terminal, on which it is shown how far a run is.
    Terminal,
    /// A file or a pipe.
    Other,
}

/// Sets the sense switches.
#[tactic(auto, using(crate::proofs::RunJobLemmas::turned_more, crate::proofs::RunJobLemmas::turned_none))]
fn set_switches(machine: &mut Machine, switches: &[bool; 7])
    ensures { machine.new ≡ with_switches switches.now machine.old }
{
    for (n, on) in switches.iter().enumerate() {
        machine.switch(n as u8, *on);
    }
}

/// Fits a machine with features, and sets its sense switches.
pub(crate) fn set_up(machine: &mut Machine, features: Features, switches: &[bool; 7])
    ensures { machine.new ≡ set_up features switches.now machine.old }
{
    machine.fit(features);
    set_switches(machine, switches);
}

/// What was read for a job.
#[derive(Drop)]
struct Begun {
    /// A machine with the program, and tape units with the reels.
    pub taped: TapedMachine,
    /// The cards that follow those in its hopper.
    pub cards: CardList,
    /// The program's source, if it has one.
    pub source: Option<RunSource>,
}

/// Runs what was read, and shows how far it is if there is a line for that.
fn run_shown<R: Eprint + Clock + AllocGlobal, W: Sink, P: Sink, F: Sink>(
    rt: &R,
    line: Option<&Cell<bool>>,
    job: &Job,
    begun: &mut Begun,
    outputs: &mut Outputs<W, P, F>,
) -> Result<JobReport, Broken>
    ensures report { IfOk result (λ report.
        report ≡ report_on job.now.start job.now.limit (taped_with_deck begun.old.cards begun.old.taped)) }
    ensures end { OnOk result (IsAtEndOf
        (started_job job.now.start job.now.limit (taped_with_deck begun.old.cards begun.old.taped)) begun.new.taped) }
    ensures broke_off { OnErr result (BrokeOff job.now.start job.now.limit
        (taped_with_deck begun.old.cards begun.old.taped) begun.new.taped.tapes) }
{
    let alloc = rt.alloc();
    let start = job.start;
    let limit = job.limit;
    let taped = &mut begun.taped;
    match line {
        Some(is_shown) => {
            let mut shown = Shown::new(rt, is_shown);
            let ended = run_started(
                alloc,
                taped,
                &begun.cards,
                start,
                limit,
                outputs,
                &mut shown,
            );
            shown.end();
            ended
        }
        None => {
            let mut watch = Unwatched;
            run_started(
                alloc,
                taped,
                &begun.cards,
                start,
                limit,
                outputs,
                &mut watch,
            )
        }
    }
}

/// Runs what was read, and writes where it is to. If standard error is a terminal, one line of it shows how far the
/// machine is.
fn run_into<'r, R: Files + Print + Eprint + Clock + AllocGlobal>(
    rt: &'r R,
    error_output: ErrorOutput,
    job: &Job,
    begun: &mut Begun,
    outputs: NamedOutputs<'r, R, R::File>,
) -> Result<JobReport, Broken>
    ensures report { IfOk result (λ report.
        report ≡ report_on job.now.start job.now.limit (taped_with_deck begun.old.cards begun.old.taped)) }
    ensures end { OnOk result (IsAtEndOf
        (started_job job.now.start job.now.limit (taped_with_deck begun.old.cards begun.old.taped)) begun.new.taped) }
    ensures broke_off { OnErr result (BrokeOff job.now.start job.now.limit
        (taped_with_deck begun.old.cards begun.old.taped) begun.new.taped.tapes) }
{
    let Outputs {
        paper,
        punch,
        trace,
    } = outputs;
    let is_shown = Cell::new(false);
    let line = match error_output {
        ErrorOutput::Terminal => Some(&is_shown),
        ErrorOutput::Other => None,
    };
    match paper {
        Some(paper) => {
            let mut outputs = Outputs {
                paper,
                punch,
                trace,
            };
            run_shown(rt, line, job, begun, &mut outputs)
        }
        None => {
            let mut outputs = Outputs {
                paper: ToWriter::new(AboveLine::new(rt, line, io::writer(rt))),
                punch,
                trace,
            };
            run_shown(rt, line, job, begun, &mut outputs)
        }
    }
}

/// Runs what was read, and writes to the job's files.
///
/// # Errors
///
/// `Unwritten` or `Output` if a file can't be made, or paper, cards or trace aren't written; or `Memory`.
fn run_inputs<R: Files + Print + Eprint + Clock + AllocGlobal>(
    rt: &R,
    error_output: ErrorOutput,
    job: &Job,
    begun: &mut Begun,
) -> Result<JobReport, RunFault>
    ensures report { IfOk result (λ report.
        report ≡ report_on job.now.start job.now.limit (taped_with_deck begun.old.cards begun.old.taped)) }
    ensures end { OnOk result (IsAtEndOf
        (started_job job.now.start job.now.limit (taped_with_deck begun.old.cards begun.old.taped)) begun.new.taped) }
    ensures broke_off { OnErr result (BrokeOff job.now.start job.now.limit
        (taped_with_deck begun.old.cards begun.old.taped) begun.new.taped.tapes) }
    ensures fault { IfErr result (IsNoStopOf job.now) }
{
    match create_outputs(rt, job) {
        Ok(outputs) => match run_into(rt, error_output, job, begun, outputs) {
            Ok(report) => Ok(report),
            Err(broken) => Err(fault_of(rt.alloc(), job, broken)),
        },
        Err(fault) => Err(fault),
    }
}

/// Runs a program with its deck, and says on standard error how it ended, if it halted. If the image of what a deck has
/// loaded is asked for, it is written before.
///
/// # Errors
///
/// `Size` if there is no core storage of the size named; `OneFile` if two of the names lead to one file, the second one
/// of a file that is written; `File`, `Source`, `Image` or `Deck` if there is no program or no deck; `File` or `Reel` if
/// there is no reel, and `Exists` if a new reel's file is there; `Unloaded` if there is no image of what the deck has
/// loaded; `Unwritten` or `Output` if a file can't be made, or paper, cards, trace or a reel aren't written; `Stopped` if
/// the machine stopped otherwise than by a halt; or `Memory`. Reels are written whatever else isn't.
pub fn run_file<R: Files + Print + Eprint + Clock + AllocGlobal>(
    rt: &R,
    error_output: ErrorOutput,
    job: Job,
) -> Result<(), RunFault>
    ensures size { is_refused job.size ≡ true → result ≡ Err RunFault.Size }

    // Without a fault the job that is asked for ran to a halt, with its features, switches and limit and what its files were
    // read as; and any other stop that is reported is that job's.
    ensures halted { OnOk result (HasHalted job) }
    ensures stopped { IfErr result (ReportsJob job) }

    // No halt is reported as a fault, and no size that there is; a deck that loads itself is neither source nor image; and
    // a fault of a file names one of the job's.
    ensures fault { IfErr result (IsFaultOf job) }
{
    run_job(rt, error_output, job, &mut NamedFiles::new(rt))
}

/// Looks at the files that are to be written, and those of new reels, and writes the image of what the deck loads, if it
/// is asked for.
///
/// # Errors
///
/// `Unwritten` if a file can't be made, or the image isn't written; `Unloaded` if there is no image of what the deck has
/// loaded; or `Memory`. Files that were there are then as they were.
fn make_ready<R: Files + Print + AllocGlobal>(
    rt: &R,
    job: &Job,
    cards: &CardList,
) -> Result<(), RunFault>
    requires { is_refused job.now.size ≡ false }
    ensures { IfErr result (IsNoStopOf job.now) }
{
    match check_outputs(rt, job) {
        Ok(()) => {}
        Err(fault) => return Err(fault),
    }
    match check_reels(rt, job) {
        Ok(()) => {}
        Err(fault) => return Err(fault),
    }
    store_image(rt, job, cards)
}

/// Runs a program with its deck as `run_file` does, and hands its reels over to these files.
///
/// # Errors
///
/// As of `run_file`.
pub fn run_job<R: Files + Print + Eprint + Clock + AllocGlobal, D: ReelFiles>(
    rt: &R,
    error_output: ErrorOutput,
    job: Job,
    files: &mut D,
) -> Result<(), RunFault>
    ensures size { is_refused job.size ≡ true → result ≡ Err RunFault.Size }
    ensures halted { OnOk result (HasHalted job) }
    ensures stopped { IfErr result (ReportsJob job) }
    ensures fault { IfErr result (IsFaultOf job) }

    // The files that are handed over are those of the reels that have a ring or are new, and the text of each is that of
    // the reel which its unit has at the end of the job.
    ensures ended { OnOk result (IsHalt (λ ending. EndsAs job ending
        (known_files (D.given files.old) (D.handed files.old)) (known_files (D.given files.new) (D.handed files.new)))) }
    ensures told { IfErr result (IfStopped (λ ending. EndsAs job ending
        (known_files (D.given files.old) (D.handed files.old)) (known_files (D.given files.new) (D.handed files.new)))) }

    // Whatever fault there is, either none is handed over, or each of them, with the text of what its unit has after some of
    // the steps of the job.
    ensures handed { (D.handed files.new ≡ D.handed files.old)
        ⊎ HandsOverAfter job (known_files (D.given files.old) (D.handed files.old))
        (known_files (D.given files.new) (D.handed files.new)) }
{
    run_lent(rt, error_output, &job, files)
}

/// The same of a job that is lent.
fn run_lent<R: Files + Print + Eprint + Clock + AllocGlobal, D: ReelFiles>(
    rt: &R,
    error_output: ErrorOutput,
    job: &Job,
    files: &mut D,
) -> Result<(), RunFault>
    ensures size { is_refused job.now.size ≡ true → result ≡ Err RunFault.Size }
    ensures ran { Ran job.now (known_files (D.given files.old) (D.handed files.old))
        (known_files (D.given files.new) (D.handed files.new)) result }
    ensures handed { (D.handed files.new ≡ D.handed files.old)
        ⊎ HandsOverAfter job.now (known_files (D.given files.old) (D.handed files.old))
        (known_files (D.given files.new) (D.handed files.new)) }
{
    if is_refused(job.size) {
        return Err(RunFault::Size);
    }
    match read_job(rt, job, files) {
        Ok(mut begun) => run_begun(rt, error_output, job, &mut begun, files),
        Err(fault) => Err(fault),
    }
}

/// What is read for a job: a machine with its program and deck, and tape units with its reels.
fn read_job<R: Files + Eprint + AllocGlobal, D: ReelFiles>(
    rt: &R,
    job: &Job,
    files: &mut D,
) -> Result<Begun, RunFault>
    requires { is_refused job.now.size ≡ false }
    ensures read { IfOk result (IsReadFor job.now (D.given files.old) (D.given files.new)) }
    ensures handed { D.handed files.new ≡ D.handed files.old }
    ensures fault { IfErr result (IsNoStopOf job.now) }
{
    match check_names(rt, job) {
        Ok(()) => {}
        Err(fault) => return Err(fault),
    }
    let inputs = match read_inputs(rt, job) {
        Ok(inputs) => inputs,
        Err(fault) => return Err(fault),
    };
    match read_reels(rt, files, job.reels.as_slice()) {
        Ok(tapes) => {
            let Inputs {
                machine,
                cards,
                source,
            } = inputs;
            Ok(Begun {
                taped: TapedMachine { machine, tapes },
                cards,
                source,
            })
        }
        Err(fault) => Err(fault),
    }
}

/// Runs what was read for a job, if its files can be made.
fn run_begun<R: Files + Print + Eprint + Clock + AllocGlobal, D: ReelFiles>(
    rt: &R,
    error_output: ErrorOutput,
    job: &Job,
    begun: &mut Begun,
    files: &mut D,
) -> Result<(), RunFault>
    requires size { is_refused job.now.size ≡ false }
    ensures ran { (before : Option (List GivenReel)) → IsReadFor job.now before (D.given files.old) begun.old
        → Ran job.now (known_files before (D.handed files.old)) (known_files (D.given files.new) (D.handed files.new))
        result }
    ensures handed { (before : Option (List GivenReel)) → IsReadFor job.now before (D.given files.old) begun.old
        → (D.handed files.new ≡ D.handed files.old) ⊎ HandsOverAfter job.now (known_files before (D.handed files.old))
        (known_files (D.given files.new) (D.handed files.new)) }
{
    match make_ready(rt, job, &begun.cards) {
        Ok(()) => {}
        Err(fault) => return Err(fault),
    }
    set_up(&mut begun.taped.machine, job.features, &job.switches);
    run_and_tell(rt, error_output, job, begun, files)
}

/// Runs what was read, writes to the job's files, hands its reels over, and reports how it ended.
fn run_and_tell<R: Files + Print + Eprint + Clock + AllocGlobal, D: ReelFiles>(
    rt: &R,
    error_output: ErrorOutput,
    job: &Job,
    begun: &mut Begun,
    files: &mut D,
) -> Result<(), RunFault>
    ensures ran { (before : Option (List GivenReel)) → IsBegunFor job.now before (D.given files.old) begun.old
        → Ran job.now (known_files before (D.handed files.old)) (known_files (D.given files.new) (D.handed files.new))
        result }
    ensures handed { (before : Option (List GivenReel)) → IsBegunFor job.now before (D.given files.old) begun.old
        → HandsOverAfter job.now (known_files before (D.handed files.old))
        (known_files (D.given files.new) (D.handed files.new)) }
{
    let ran = run_inputs(rt, error_output, job, begun);
    let written = write_reels(rt.alloc(), files, &begun.taped.tapes, job.reels.as_slice());
    match ran {
        Ok(report) => {
            let source = begun.source.as_ref();
            let ending = Ending::of(rt.alloc(), report, &begun.taped, job.start, source);
            tell_both(rt, ending, written)
        }
        Err(fault) => {
            tell_unwritten(rt, &written);
            Err(fault)
        }
    }
}

/// Reports on standard error that a reel isn't written.
fn tell_unwritten(rt: &impl Eprint, written: &Result<(), RunFault>) {
    if let Err(fault) = written {
        let _ = eprintln!(rt; "ibm1401: {fault}");
    }
}

/// Reports how a job ended, and whether its reels are written: if one isn't, that is the fault.
fn tell_both(
    rt: &impl Eprint,
    ending: Ending,
    written: Result<(), RunFault>,
) -> Result<(), RunFault>
    ensures whole { OnOk written (result ≡ job_outcome ending) }
    ensures err { IfErr written (λ why. result ≡ Err why) }
{
    match written {
        Ok(()) => tell_ending(rt, ending),
        Err(fault) => {
            let _ = eprintln!(rt; "ibm1401: {ending}");
            Err(fault)
        }
    }
}

/// Reports on standard error how a program ended that halted; any other stop is a fault, which reports it.
pub fn tell_ending(rt: &impl Eprint, ending: Ending) -> Result<(), RunFault>
    ensures { result ≡ job_outcome ending }
{
    if ending.report.stop == Stop::Halt {
        let _ = eprintln!(rt; "ibm1401: {ending}");
    }
    job_outcome(ending)
}
