//! Names of one run that lead to one file.
ghost use Rattle.std.specs.Prelude.{◌∷◌, Some, IfErr, option_map, string_bytes};
ghost use Rattle.program_run.specs.OneFile.{IsClash, IsClashOf, IsClashWithReel, IsInputClash, IsReadClash};
ghost use Rattle.program_run.specs.OneFile.{IsReelPair, IsReelsClash};
ghost use Rattle.program_run.specs.RunEnd.{IsNoStopOf};
ghost use Rattle.program_run.specs.RunFile.{inputs_of, written_of};

use crate::fault::RunFault;
use bytes_descriptors::is_one_file;
use program_arguments::{Job, MountedReel, ReelSource, Start};
use std::alloc::Global;
use std::rt::Files;

/// Why names are refused.
#[derive(Drop)]
enum Clash {
    /// Memory was refused.
    Memory,
    /// These two lead to one file.
    Names(String, String),
}

/// A clash of two names.
fn clash_of(alloc: Global, first: &str, second: &str) -> Clash
    ensures { IsClash (Some first.now) (Some second.now) result }
{
    match (
        String::from_str(alloc, first),
        String::from_str(alloc, second),
    ) {
        (Ok(first), Ok(second)) => Clash::Names(first, second),
        _ => Clash::Memory,
    }
}

/// Looks at two names.
///
/// # Errors
///
/// If they lead to one file, or if memory is refused.
fn check_pair<R: Files + AllocGlobal>(rt: &R, first: &str, second: &str) -> Result<(), Clash>
    ensures { IfErr result (IsClash (Some first.now) (Some second.now)) }
{
    match is_one_file(rt, first, second) {
        Ok(false) => Ok(()),
        Ok(true) => Err(clash_of(rt.alloc(), first, second)),
        Err(_) => Err(Clash::Memory),
    }
}

/// Looks at a name, and at another if there is one.
fn check_with<R: Files + AllocGlobal>(
    rt: &R,
    first: &str,
    second: &Option<String>,
) -> Result<(), Clash>
    ensures { IfErr result (IsClash (Some first.now) (option_map string_bytes second.now)) }
{
    match second {
        Some(second) => check_pair(rt, first, second.as_str()),
        None => Ok(()),
    }
}

/// Looks at two names, if there are both.
fn check_if_named<R: Files + AllocGlobal>(
    rt: &R,
    first: &Option<String>,
    second: &Option<String>,
) -> Result<(), Clash>
    ensures { IfErr result (IsClash (option_map string_bytes first.now) (option_map string_bytes second.now)) }
{
    match first {
        Some(first) => check_with(rt, first.as_str(), second),
        None => Ok(()),
    }
}

/// Looks at the name of a file that is read with each of the files that are written, but for those of reels.
fn check_input<R: Files + AllocGlobal>(rt: &R, input: &str, job: &Job) -> Result<(), Clash>
    ensures { IfErr result (IsInputClash (Some input.now) (written_of job.now)) }
{
    match check_with(rt, input, &job.paper) {
        Ok(()) => {}
        Err(clash) => return Err(clash),
    }
    match check_with(rt, input, &job.punch) {
        Ok(()) => {}
        Err(clash) => return Err(clash),
    }
    match check_with(rt, input, &job.trace) {
        Ok(()) => {}
        Err(clash) => return Err(clash),
    }
    check_with(rt, input, &job.image)
}

/// Looks at the name of the file of a reel with that of another, if there are both and one of them is written.
fn check_two<R: Files + AllocGlobal>(
    rt: &R,
    first: &ReelSource,
    second: &ReelSource,
) -> Result<(), Clash>
    ensures { IfErr result (IsReelPair first.now second.now) }
{
    let (Some(one), Some(other)) = (first.file(), second.file()) else {
        return Ok(());
    };
    if second.has_ring() {
        check_pair(rt, one, other)
    } else if first.has_ring() {
        check_pair(rt, other, one)
    } else {
        Ok(())
    }
}

/// The same with each of these.
fn check_others<R: Files + AllocGlobal>(
    rt: &R,
    first: &MountedReel,
    others: &[MountedReel],
) -> Result<(), Clash>
    ensures { IfErr result (IsReelsClash (first.now ∷ others.now)) }
{
    let mut rest = others;
    while let [other, beyond @ ..] = rest {
        match check_two(rt, &first.reel, &other.reel) {
            Ok(()) => {}
            Err(clash) => return Err(clash),
        }
        rest = beyond;
    }
    Ok(())
}

/// Looks at a job's names: those of its program, of its deck and of the files that it writes, and those of its reels. If
/// the program is on a reel, it is one of these.
///
/// # Errors
///
/// If two of them lead to one file, which is written; or if memory is refused.
#[tactic(auto, using(crate::proofs::FaultLemmas::memory_of, crate::proofs::FaultLemmas::clash_of))]
pub(crate) fn check_names<R: Files + AllocGlobal>(rt: &R, job: &Job) -> Result<(), RunFault>
    ensures { IfErr result (IsNoStopOf job.now) }
{
    match find_clash(rt, job) {
        Ok(()) => Ok(()),
        Err(Clash::Memory) => Err(RunFault::Memory),
        Err(Clash::Names(first, second)) => Err(RunFault::OneFile(first, second)),
    }
}

/// The first two of the names that lead to one file, which is written.
fn find_clash<R: Files + AllocGlobal>(rt: &R, job: &Job) -> Result<(), Clash>
    ensures { IfErr result (IsClashOf (inputs_of job.now) (written_of job.now)) }
{
    match check_inputs(rt, job) {
        Ok(()) => {}
        Err(clash) => return Err(clash),
    }
    match check_outputs(rt, job) {
        Ok(()) => {}
        Err(clash) => return Err(clash),
    }
    check_reels(rt, job)
}

/// Looks at the names of the program and of the deck with those of the files that are written, but for those of reels.
fn check_inputs<R: Files + AllocGlobal>(rt: &R, job: &Job) -> Result<(), Clash>
    ensures { IfErr result (IsClashOf (inputs_of job.now) (written_of job.now)) }
{
    match check_input(rt, job.file.as_str(), job) {
        Ok(()) => {}
        Err(clash) => return Err(clash),
    }
    match &job.cards {
        Some(deck) => check_input(rt, deck.as_str(), job),
        None => Ok(()),
    }
}

/// Looks at the names of the files that are written, but for those of reels.
fn check_outputs<R: Files + AllocGlobal>(rt: &R, job: &Job) -> Result<(), Clash>
    ensures { IfErr result (IsClashOf (inputs_of job.now) (written_of job.now)) }
{
    match check_if_named(rt, &job.paper, &job.punch) {
        Ok(()) => {}
        Err(clash) => return Err(clash),
    }
    match check_if_named(rt, &job.paper, &job.trace) {
        Ok(()) => {}
        Err(clash) => return Err(clash),
    }
    match check_if_named(rt, &job.punch, &job.trace) {
        Ok(()) => {}
        Err(clash) => return Err(clash),
    }
    match check_if_named(rt, &job.paper, &job.image) {
        Ok(()) => {}
        Err(clash) => return Err(clash),
    }
    match check_if_named(rt, &job.punch, &job.image) {
        Ok(()) => {}
        Err(clash) => return Err(clash),
    }
    check_if_named(rt, &job.trace, &job.image)
}

/// Looks at the name of the file of a reel with those of the files that are written; and if it is written, with those of
/// the files that are read.
fn check_reel<R: Files + AllocGlobal>(rt: &R, job: &Job, reel: &ReelSource) -> Result<(), Clash>
    ensures { IfErr result (IsClashWithReel (inputs_of job.now) (written_of job.now) reel.now) }
{
    let Some(file) = reel.file() else {
        return Ok(());
    };
    match check_input(rt, file, job) {
        Ok(()) => {}
        Err(clash) => return Err(clash),
    }
    if reel.has_ring() {
        check_written_reel(rt, job, file)
    } else {
        Ok(())
    }
}

/// Looks at the name of the file of a reel that is written with those of the files that are read, but for that of the
/// program if it is a reel's.
fn check_written_reel<R: Files + AllocGlobal>(rt: &R, job: &Job, file: &str) -> Result<(), Clash>
    ensures { IfErr result (IsReadClash (inputs_of job.now) file.now) }
{
    match job.start {
        Start::Entry | Start::LoadKey => match check_pair(rt, job.file.as_str(), file) {
            Ok(()) => {}
            Err(clash) => return Err(clash),
        },
        Start::LoadTape(_) => {}
    }
    match &job.cards {
        Some(deck) => check_pair(rt, deck.as_str(), file),
        None => Ok(()),
    }
}

/// Looks at the names of the files of reels with all others.
#[tactic(auto, using(crate::proofs::ClashLemmas::reel_clash, crate::proofs::ClashLemmas::reels_clash))]
fn check_reels<R: Files + AllocGlobal>(rt: &R, job: &Job) -> Result<(), Clash>
    ensures { IfErr result (IsClashOf (inputs_of job.now) (written_of job.now)) }
{
    let mut rest = job.reels.as_slice();
    while let [first, beyond @ ..] = rest {
        match check_reel(rt, job, &first.reel) {
            Ok(()) => {}
            Err(clash) => return Err(clash),
        }
        match check_others(rt, first, beyond) {
            Ok(()) => {}
            Err(clash) => return Err(clash),
        }
        rest = beyond;
    }
    Ok(())
}
