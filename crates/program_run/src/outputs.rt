//! The files that a run writes: its paper, its punched cards, and its trace.
ghost use Rattle.std.specs.Prelude.{◌≡◌, ◌⊎◌, IfErr, option_map, string_bytes};
ghost use Rattle.program_run.specs.RunEnd.{IsNoStopOf};
ghost use Rattle.program_run.specs.RunFile.{IsUnwrittenFile};
ghost use Rattle.program_run.specs.RunReels.{IsNotPut, IsUnmadeOf};

use crate::deck_running::Broken;
use crate::fault::RunFault;
use crate::punch_file::PunchFile;
use crate::tracing::Trace;
use bcd_1401::Graphics;
use bytes_descriptors::{CreatedFile, WriteFault, check_create, check_new, check_whole, create};
use bytes_streams::ToWriter;
use program_arguments::{Job, ReelSource};
use std::alloc::Global;
use std::io::Printer;
use std::rt::Files;

/// The fault of a job's run that broke off.
pub(crate) fn fault_of(alloc: Global, job: &Job, broken: Broken) -> RunFault
    ensures { IsNoStopOf job.now result }
{
    match broken {
        Broken::Memory => RunFault::Memory,
        Broken::Paper => unwritten(alloc, &job.paper),
        Broken::Punch => unwritten(alloc, &job.punch),
        Broken::Trace => unwritten(alloc, &job.trace),
    }
}

/// The fault of a file of this name that isn't written, or of standard output if there is no name.
#[tactic(auto, using(crate::proofs::FaultLemmas::named_file))]
fn unwritten(alloc: Global, name: &Option<String>) -> RunFault
    ensures { (result ≡ RunFault.Output) ⊎ IsUnwrittenFile (option_map string_bytes name.now) result }
{
    match name {
        Some(name) => unwritten_file(alloc, name.as_str()),
        None => RunFault::Output,
    }
}

/// The fault of a file of this name that isn't written.
pub(crate) fn unwritten_file(alloc: Global, name: &str) -> RunFault
    ensures { IsNotPut name.now result }
{
    match String::from_str(alloc, name) {
        Ok(name) => RunFault::Unwritten(name),
        Err(_) => RunFault::Memory,
    }
}

/// The fault of a file of this name that can't be made.
pub(crate) fn file_fault(alloc: Global, name: &str, fault: WriteFault) -> RunFault
    ensures { IsNotPut name.now result }
{
    match fault {
        WriteFault::Memory => RunFault::Memory,
        WriteFault::Unwritten => unwritten_file(alloc, name),
    }
}

/// A file that a run writes.
pub(crate) type OutputFile<F, O> = ToWriter<CreatedFile<F, O>>;

/// Where a run writes.
#[derive(Drop)]
pub struct Outputs<W, P, F> {
    /// Where the paper goes.
    pub paper: W,
    /// Where the punched cards go.
    pub punch: P,
    /// The trace, if there is one.
    pub trace: Trace<F>,
}

/// Where a run of files writes: its paper, a file of the punched cards if there is one, and a trace if there is one.
pub(crate) type FileOutputs<W, F, O> = Outputs<W, PunchFile<OutputFile<F, O>>, OutputFile<F, O>>;

/// The files that a run writes, if they have names, in a runtime.
pub(crate) type NamedOutputs<'r, R, F> = FileOutputs<
    Option<OutputFile<F, Printer<'r, R>>>,
    F,
    Printer<'r, R>,
>;

/// Looks at each of the files that a run writes as it goes on: whether it can be made. A file that is there stays as it
/// is.
///
/// # Errors
///
/// `Unwritten` if one can't be made, or `Memory`.
pub(crate) fn check_outputs<R: Files + AllocGlobal>(rt: &R, job: &Job) -> Result<(), RunFault>
    ensures { IfErr result (IsNoStopOf job.now) }
{
    match check_if_named(rt, &job.paper) {
        Ok(()) => {}
        Err(fault) => return Err(fault),
    }
    match check_if_named(rt, &job.punch) {
        Ok(()) => {}
        Err(fault) => return Err(fault),
    }
    match check_if_named(rt, &job.trace) {
        Ok(()) => Ok(()),
        Err(fault) => Err(fault),
    }
}

/// Looks whether a file can be made, if one was named.
#[tactic(auto, using(crate::proofs::FaultLemmas::named_file))]
fn check_if_named<R: Files + AllocGlobal>(rt: &R, name: &Option<String>) -> Result<(), RunFault>
    ensures { IfErr result (IsUnwrittenFile (option_map string_bytes name.now)) }
{
    match name {
        Some(name) => match check_create(rt, name.as_str()) {
            Ok(()) => Ok(()),
            Err(fault) => Err(file_fault(rt.alloc(), name.as_str(), fault)),
        },
        None => Ok(()),
    }
}

/// Looks whether the file of a reel can be made, or written if it is there. One without a ring isn't written.
#[tactic(auto, using(crate::proofs::FaultLemmas::unmade, crate::proofs::FaultLemmas::unwritten))]
fn check_reel<R: Files + Print + AllocGlobal>(rt: &R, reel: &ReelSource) -> Result<(), RunFault>
    ensures { IfErr result (IsUnmadeOf reel.now) }
{
    let (name, checked) = match reel {
        ReelSource::New(name) => (name, check_new(rt, name.as_str())),
        ReelSource::Ringed(name) => (name, check_whole(rt, name.as_str())),
        ReelSource::File(_) | ReelSource::Scratch => return Ok(()),
    };
    match checked {
        Ok(()) => Ok(()),
        Err(why) => Err(file_fault(rt.alloc(), name.as_str(), why)),
    }
}

/// Looks at the file of each reel that is written when the job has ended: whether it can be made, or written if it is
/// there. It stays as it is, and none is left where there was none.
///
/// # Errors
///
/// `Unwritten` if one can't be made or written, or `Memory`.
pub(crate) fn check_reels<R: Files + Print + AllocGlobal>(rt: &R, job: &Job) -> Result<(), RunFault>
    ensures { IfErr result (IsNoStopOf job.now) }
{
    let mut rest = job.reels.as_slice();
    while let [first, beyond @ ..] = rest {
        match check_reel(rt, &first.reel) {
            Ok(()) => {}
            Err(fault) => return Err(fault),
        }
        rest = beyond;
    }
    Ok(())
}

/// New files, in place of those of these names; without a name for the paper it has none.
///
/// # Errors
///
/// `Unwritten` if one can't be made, or `Memory`.
pub(crate) fn create_outputs<'r, R: Files + Print + AllocGlobal>(
    rt: &'r R,
    job: &Job,
) -> Result<NamedOutputs<'r, R, R::File>, RunFault>
    ensures { IfErr result (IsNoStopOf job.now) }
{
    let paper = match create_if_named(rt, &job.paper) {
        Ok(paper) => paper,
        Err(fault) => return Err(fault),
    };
    let punch = match create_if_named(rt, &job.punch) {
        Ok(punch) => punch,
        Err(fault) => return Err(fault),
    };
    match create_if_named(rt, &job.trace) {
        Ok(trace) => Ok(Outputs {
            paper,
            punch: PunchFile {
                file: punch,
                graphics: job.punch_graphics.unwrap_or(Graphics::Ours),
            },
            trace: Trace::new(trace),
        }),
        Err(fault) => Err(fault),
    }
}

/// Creates or truncates the file, if one was named.
#[tactic(auto, using(crate::proofs::FaultLemmas::named_file))]
fn create_if_named<'r, R: Files + Print + AllocGlobal>(
    rt: &'r R,
    name: &Option<String>,
) -> Result<Option<OutputFile<R::File, Printer<'r, R>>>, RunFault>
    ensures { IfErr result (IsUnwrittenFile (option_map string_bytes name.now)) }
{
    match name {
        Some(name) => match create(rt, name.as_str()) {
            Ok(file) => Ok(Some(file)),
            Err(why) => Err(file_fault(rt.alloc(), name.as_str(), why)),
        },
        None => Ok(None),
    }
}
