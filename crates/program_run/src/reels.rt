//! The reels of a job: read and mounted before it, and written when it has ended.
ghost use Rattle.std.specs.Prelude.{◌≡◌, ◌⊎◌, [], Err, IfOk, IfErr, IfSome, IsOk, OnOk, Some};
ghost use Rattle.machine_tapes.specs.Reel.{mounted, records_of};
ghost use Rattle.machine_tapes.specs.TapText.{tap_text};
ghost use Rattle.machine_tapes.specs.Drive.{mounted_on};
ghost use Rattle.machine_tapes.specs.Tapes.{no_tapes};
ghost use Rattle.program_arguments.specs.Mounted.{has_ring};
ghost use Rattle.program_run.specs.RunReels.{AreMounted, IsMounted, IsOfReelFile, IsReelOf, IsReelText, IsThere};
ghost use Rattle.program_run.specs.RunReels.{IsUnmounted, IsUnmountedOf, IsUnwrittenOf, IsUnwrittenReel, reel_room};
ghost use Rattle.program_run.specs.RunReels.{with_drive};
ghost use Rattle.program_run.specs.WrittenReels.{AreHandedOver, HandsOver, IsHandedOver, file_of, file_with, files_of};
ghost use Rattle.program_run.specs.WrittenReels.{text_on};

use crate::fault::RunFault;
use crate::reel_files::{ReelFiles, exists};
use bytes_descriptors::is_there;
use machine_tables::TAPE_UNITS;
use machine_tapes::{Reel, TapFault, Tapes, read_tap, write_tap};
use program_arguments::{MountedReel, ReelSource};
use std::alloc::Global;
use std::rt::Files;

/// How many characters a reel has room for, unless its file has more.
const ROOM: usize = 4_000_000;

/// The fault of a file of this name that has no reel's text.
fn refused_reel(alloc: Global, name: &str, fault: TapFault) -> RunFault
    ensures { IsOfReelFile name.now result }
{
    match (fault, String::from_str(alloc, name)) {
        (TapFault::Memory, _) | (_, Err(_)) => RunFault::Memory,
        (fault, Ok(name)) => RunFault::Reel(name, fault),
    }
}

/// The reel of a file's text.
///
/// # Errors
///
/// `File` if the file can't be read, `Reel` if it has no reel's text, or `Memory`.
fn read_reel<D: ReelFiles>(alloc: Global, files: &mut D, name: &str) -> Result<Reel, RunFault>
    ensures reel { IfOk result (IsReelText (D.given files.old) (D.given files.new) name.now) }
    ensures handed { D.handed files.new ≡ D.handed files.old }
    ensures fault { IfErr result (IsOfReelFile name.now) }
{
    match files.read(name) {
        Ok(text) => match read_tap(alloc, text.as_slice(), ROOM) {
            Ok(reel) => Ok(reel),
            Err(fault) => Err(refused_reel(alloc, name, fault)),
        },
        Err(fault) => Err(fault),
    }
}

/// An empty reel.
fn empty_reel(alloc: Global) -> Result<Reel, RunFault>
    ensures reel { IfOk result (λ reel. reel ≡ mounted [] reel_room) }
    ensures fault { IfErr result (λ why. why ≡ RunFault.Memory) }
{
    match Reel::new(alloc, ROOM) {
        Ok(reel) => Ok(reel),
        Err(_) => Err(RunFault::Memory),
    }
}

/// An empty reel, for which a file of this name is to be made.
///
/// # Errors
///
/// `Exists` if there is one, or `Memory`.
fn new_reel(rt: &(impl Files + AllocGlobal), name: &str) -> Result<Reel, RunFault>
    ensures reel { IfOk result (λ reel. reel ≡ mounted [] reel_room) }
    ensures fault { IfErr result (IsThere name.now) }
{
    if is_there(rt, name) {
        return Err(exists(rt.alloc(), name));
    }
    match empty_reel(rt.alloc()) {
        Ok(reel) => Ok(reel),
        Err(_) => Err(RunFault::Memory),
    }
}

/// The reel that is to be mounted.
///
/// # Errors
///
/// `File`, `Reel`, `Exists` or `Memory`.
fn reel_of<D: ReelFiles>(
    rt: &(impl Files + AllocGlobal),
    files: &mut D,
    source: &ReelSource,
) -> Result<Reel, RunFault>
    ensures reel { IfOk result (IsReelOf source.now (D.given files.old) (D.given files.new)) }
    ensures handed { D.handed files.new ≡ D.handed files.old }
    ensures fault { IfErr result (IsUnmountedOf source.now) }
{
    match source {
        ReelSource::File(name) => read_reel(rt.alloc(), files, name.as_str()),
        ReelSource::Ringed(name) => read_reel(rt.alloc(), files, name.as_str()),
        ReelSource::New(name) => new_reel(rt, name.as_str()),
        ReelSource::Scratch => empty_reel(rt.alloc()),
    }
}

/// Puts a reel on its unit; a number that no unit has changes nothing.
fn put_on(tapes: &mut Tapes, number: u8, reel: Reel, has_ring: bool)
    ensures { tapes.new ≡ with_drive number (mounted_on reel has_ring) tapes.old }
{
    if 1 <= number && number <= TAPE_UNITS {
        tapes.mount(number, reel, has_ring);
    }
}

/// Mounts a reel.
fn mount<D: ReelFiles>(
    rt: &(impl Files + AllocGlobal),
    files: &mut D,
    tapes: &mut Tapes,
    mounted: &MountedReel,
) -> Result<(), RunFault>
    ensures mounted { OnOk result
        (IsMounted mounted.now (D.given files.old) (D.given files.new) tapes.old tapes.new) }
    ensures handed { D.handed files.new ≡ D.handed files.old }
    ensures fault { IfErr result (IsUnmountedOf mounted.now.reel) }
{
    match reel_of(rt, files, &mounted.reel) {
        Ok(reel) => {
            put_on(tapes, mounted.unit, reel, mounted.reel.has_ring());
            Ok(())
        }
        Err(fault) => Err(fault),
    }
}

/// Tape units with these reels.
///
/// # Errors
///
/// `File` if a reel's file can't be read, `Reel` if it has no reel's text, `Exists` if a new reel's file is there, or
/// `Memory`.
pub(crate) fn read_reels<D: ReelFiles>(
    rt: &(impl Files + AllocGlobal),
    files: &mut D,
    reels: &[MountedReel],
) -> Result<Tapes, RunFault>
    ensures mounted { IfOk result
        (λ tapes. AreMounted reels.now (D.given files.old) (D.given files.new) no_tapes tapes) }
    ensures handed { D.handed files.new ≡ D.handed files.old }
    ensures fault { IfErr result (IsUnmounted reels.now) }
{
    let Ok(mut tapes) = Tapes::none(rt.alloc()) else {
        return Err(RunFault::Memory);
    };
    let mut rest = reels;
    while let [first, beyond @ ..] = rest {
        match mount(rt, files, &mut tapes, first) {
            Ok(()) => {}
            Err(fault) => return Err(fault),
        }
        rest = beyond;
    }
    Ok(tapes)
}

/// The text of a reel; `None` if memory for it is refused.
fn reel_text(alloc: Global, reel: &Reel) -> Option<Vec<u8>>
    ensures { IfSome result (λ text. text.items ≡ tap_text (records_of reel.now)) }
{
    match write_tap(alloc, &reel.records()) {
        Ok(text) => Some(text),
        Err(_) => None,
    }
}

/// Hands a reel over to be written if it has a ring and a file.
///
/// # Errors
///
/// `Unwritten`, `Exists` if a new reel's file is there, `Replaced` if a file has become another, or `Memory`.
fn write_reel<D: ReelFiles>(
    alloc: Global,
    files: &mut D,
    source: &ReelSource,
    reel: &Reel,
) -> Result<(), RunFault>
    ensures whole { OnOk result (HandsOver (D.handed files.old) (D.handed files.new)
        (file_with (Some (tap_text (records_of reel.now))) source.now)) }
    ensures handed { IsHandedOver (tap_text (records_of reel.now)) (λ text. file_with text source.now)
        (D.handed files.old) (D.handed files.new) }
    ensures given { D.given files.new ≡ D.given files.old }
    ensures fault { IfErr result (IsUnwrittenOf source.now) }
{
    match source {
        ReelSource::File(_) | ReelSource::Scratch => Ok(()),
        ReelSource::Ringed(name) => files.put(name.as_str(), reel_text(alloc, reel)),
        ReelSource::New(name) => files.put_new(name.as_str(), reel_text(alloc, reel)),
    }
}

/// Hands the reel of a unit over to be written if it has a ring and a file; a number that no unit has does nothing.
#[tactic(auto, using(crate::proofs::HandedLemmas::hands_none))]
fn write_mounted<D: ReelFiles>(
    alloc: Global,
    files: &mut D,
    tapes: &Tapes,
    mounted: &MountedReel,
) -> Result<(), RunFault>
    ensures whole { OnOk result (HandsOver (D.handed files.old) (D.handed files.new)
        (file_of (Some (text_on tapes.now mounted.now.unit)) mounted.now)) }
    ensures handed { IsHandedOver (text_on tapes.now mounted.now.unit) (λ text. file_of text mounted.now)
        (D.handed files.old) (D.handed files.new) }
    ensures given { D.given files.new ≡ D.given files.old }
    ensures fault { IfErr result (IsUnwrittenOf mounted.now.reel) }
{
    if 1 <= mounted.unit && mounted.unit <= TAPE_UNITS {
        let drive = tapes.unit(mounted.unit);
        write_reel(alloc, files, &mounted.reel, &drive.reel)
    } else {
        Ok(())
    }
}

/// The first of two outcomes, unless it is no fault.
fn first_fault(first: Result<(), RunFault>, other: Result<(), RunFault>) -> Result<(), RunFault>
    ensures fault { IfErr result (λ why. (first ≡ Err why) ⊎ (other ≡ Err why)) }
    ensures both { OnOk result (IsOk first × IsOk other) }
{
    match first {
        Ok(()) => other,
        Err(fault) => Err(fault),
    }
}

/// Hands over those of these reels that have a ring and a file, each with the text of the reel that is on its unit, to
/// be written whole or not at all. If one isn't written, the others are handed over all the same.
///
/// # Errors
///
/// The first: `Unwritten` if a file isn't written, `Exists` if a new reel's file is there, `Replaced` if a file has become
/// another since it was read, or `Memory`.
#[tactic(auto, using(crate::proofs::HandedLemmas::whole_more, crate::proofs::HandedLemmas::handed_more, crate::proofs::HandedLemmas::whole_end))]
pub(crate) fn write_reels<D: ReelFiles>(
    alloc: Global,
    files: &mut D,
    tapes: &Tapes,
    reels: &[MountedReel],
) -> Result<(), RunFault>
    ensures whole { OnOk result
        (HandsOver (D.handed files.old) (D.handed files.new) (files_of tapes.now reels.now)) }

    // Whatever isn't written, each is handed over, unless memory for its text is refused.
    ensures handed { AreHandedOver tapes.now reels.now (D.handed files.old) (D.handed files.new) }
    ensures given { D.given files.new ≡ D.given files.old }
    ensures fault { IfErr result (IsUnwrittenReel reels.now) }
{
    let mut outcome = Ok(());
    let mut rest = reels;
    while let [first, beyond @ ..] = rest {
        outcome = first_fault(outcome, write_mounted(alloc, files, tapes, first));
        rest = beyond;
    }
    outcome
}
