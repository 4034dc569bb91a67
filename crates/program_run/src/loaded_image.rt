//! The image of what a deck has loaded when its program begins.
ghost use Rattle.std.specs.Prelude.{◌≡◌, false, IfOk, IfErr};
ghost use Rattle.program_arguments.specs.SourceSize.{is_refused};
ghost use Rattle.program_run.specs.RunEnd.{IsNoStopOf};
ghost use Rattle.program_run.specs.RunFile.{IsUnloaded};
ghost use Rattle.program_run.specs.RunJob.{IsLoadedText};
ghost use Rattle.program_run.specs.RunReels.{IsNotPut};

use crate::fault::RunFault;
use crate::outputs::file_fault;
use crate::programs::machine_of;
use crate::running::set_up;
use autocoder_deck::{LOADING_STEPS, LoadFault, loaded_image};
use bytes_descriptors::put_whole;
use job_runner::CardList;
use machine_image::write_image;
use program_arguments::{DEFAULT_SIZE, Job, Start};
use std::alloc::Global;
use std::rt::Files;

/// The text of the image of what these cards load, with a job's features and switches, into its core storage.
///
/// # Errors
///
/// `Unloaded` if the machine stops before the program begins, has no card, or is still loading after 1,000,000
/// instructions; or `Memory`.
#[tactic(auto, using(crate::proofs::RunJobLemmas::is_loaded_text, crate::proofs::RunJobLemmas::loaded_in_core))]
fn loaded_text(alloc: Global, job: &Job, cards: &CardList) -> Result<Vec<u8>, RunFault>
    requires { is_refused job.now.size ≡ false }
    ensures ok { IfOk result (λ text.
        IsLoadedText job.now.size job.now.features job.now.switches cards.now text.items) }
    ensures err { IfErr result IsUnloaded }
{
    let mut machine = match machine_of(alloc, job.size.unwrap_or(DEFAULT_SIZE)) {
        Ok(machine) => machine,
        Err(_) => return Err(RunFault::Memory),
    };
    set_up(&mut machine, job.features, &job.switches);
    let loaded = match loaded_image(alloc, machine, cards, LOADING_STEPS) {
        Ok(loaded) => loaded,
        Err(LoadFault::Memory) => return Err(RunFault::Memory),
        Err(fault) => return Err(RunFault::Unloaded(fault)),
    };
    match write_image(alloc, &loaded.image) {
        Ok(text) => Ok(text),
        Err(_) => Err(RunFault::Memory),
    }
}

/// Writes a text to the file of this name, whole or not at all.
fn put_image<R: Files + Print + AllocGlobal>(
    rt: &R,
    name: &str,
    text: &[u8],
) -> Result<(), RunFault>
    ensures { IfErr result (IsNotPut name.now) }
{
    match put_whole(rt, name, text) {
        Ok(()) => Ok(()),
        Err(fault) => Err(file_fault(rt.alloc(), name, fault)),
    }
}

/// Writes the image of what these cards load to a job's file of it, if there is one and the load key is pressed.
///
/// # Errors
///
/// `Unloaded` if the machine isn't brought to the entry of a program; `Unwritten` if the image isn't written; or
/// `Memory`. A file that was there is then as it was.
#[tactic(auto, using(crate::proofs::FaultLemmas::unloaded_of, crate::proofs::FaultLemmas::image_of))]
pub(crate) fn store_image<R: Files + Print + AllocGlobal>(
    rt: &R,
    job: &Job,
    cards: &CardList,
) -> Result<(), RunFault>
    requires { is_refused job.now.size ≡ false }
    ensures { IfErr result (IsNoStopOf job.now) }
{
    match (job.start, &job.image) {
        (Start::LoadKey, Some(name)) => match loaded_text(rt.alloc(), job, cards) {
            Ok(text) => put_image(rt, name.as_str(), text.as_slice()),
            Err(fault) => Err(fault),
        },
        (Start::Entry | Start::LoadTape(_), _) | (_, None) => Ok(()),
    }
}
