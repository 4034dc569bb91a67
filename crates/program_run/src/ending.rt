//! How a job ended, in a line: the stop, the instruction and why, then what was carried out, read and written.
ghost use Rattle.std.specs.Prelude.{◌≡◌, IfSome, length};
ghost use Rattle.job_steps.specs.Reason.{stop_named};
ghost use Rattle.program_run.specs.ReelPlaces.{place_of, places_of};
ghost use Rattle.program_run.specs.WhyStopped.{IsWhyStopped};

use crate::job_report::JobReport;
use crate::stopped_at::{RunSource, instruction_text};
use bcd_1401::Cell;
use core_1401::Core;
use cpu_1401::Stop;
use job_steps::{Reason, halt_address, load_reason_told, taped_reason_told};
use machine_tapes::{Drive, TapeRecords, TapedMachine, Tapes};
use program_arguments::Start;
use std::alloc::Global;
use std::fmt;

/// How a job ended.
#[derive(Debug, Drop)]
pub struct Ending {
    /// The stop, and what was carried out, read and written.
    pub report: JobReport,
    /// The address of the instruction that halted or couldn't be carried out.
    pub at: u16,
    /// The instruction's text; `None` if none begins there, or if its memory was refused.
    pub instruction: Option<Vec<u8>>,
    /// Why the machine stopped; `None` after a halt, and at the limit.
    pub reason: Option<Reason>,
    /// Whether the hopper was empty while sense switch A was off, and a branch on the last card is in core storage.
    pub lacks_switch: bool,
    /// How far the reel of each tape unit is, unit 1 first; `None` of a unit that has none.
    pub reels: [Option<ReelPlace>; 6],
}

/// How far a reel is. Tape marks are counted as records.
#[derive(Clone, Copy, Debug)]
pub struct ReelPlace {
    /// How many records the head has passed.
    pub passed: usize,
    /// How many records there are.
    pub records: usize,
}

/// How many records these are.
#[tactic(auto, using(crate::proofs::CountLemmas::fewer_records))]
fn count_of(records: &TapeRecords<'_>) -> usize
    ensures { result ≡ length records.now }
{
    let mut count: usize = 0;
    let mut rest = records.again();
    while let Some((_, beyond)) = rest.split_first() {
        count = count.saturating_add(1);
        rest = beyond;
    }
    count
}

/// How far the reel of a unit is; `None` if it has none.
fn reel_place(drive: &Drive) -> Option<ReelPlace>
    ensures { result ≡ place_of drive.now }
{
    if drive.reel.capacity() == 0 {
        return None;
    }
    Some(ReelPlace {
        passed: drive.reel.records_passed(),
        records: count_of(&drive.reel.records()),
    })
}

/// How far the reel of each unit is.
fn reel_places(tapes: &Tapes) -> [Option<ReelPlace>; 6]
    ensures { result ≡ places_of tapes.now }
{
    [
        reel_place(tapes.unit(1)),
        reel_place(tapes.unit(2)),
        reel_place(tapes.unit(3)),
        reel_place(tapes.unit(4)),
        reel_place(tapes.unit(5)),
        reel_place(tapes.unit(6)),
    ]
}

/// Why a machine that was started so has stopped: why its next step stops, or why its first record isn't loaded.
fn why_stopped(taped: &TapedMachine, start: Start, stop: Stop) -> Option<Reason>
    ensures stop { IfSome result (λ why. stop_named why ≡ stop) }
    ensures so { IsWhyStopped start taped.now stop result }
{
    match (taped_reason_told(taped, stop), start) {
        (Some(why), _) => Some(why),
        (None, Start::LoadTape(number)) => load_reason_told(taped, number, stop),
        (None, Start::Entry | Start::LoadKey) => None,
    }
}

/// The cell at a place, if it is in core.
fn cell_at(core: &Core, at: u16) -> Option<Cell> {
    if core.in_core(at) {
        Some(core.get(at))
    } else {
        None
    }
}

/// Whether core storage has a branch on the last card, which is never taken while sense switch A is off: `B`, an address
/// and `A`.
fn tests_last_card(core: &Core) -> bool {
    for at in 0..core.size() {
        let (Some(operation), Some(d)) = (cell_at(core, at), cell_at(core, at.saturating_add(4)))
        else {
            return false;
        };
        let is_ended = match cell_at(core, at.saturating_add(5)) {
            Some(cell) => cell.mark,
            None => true,
        };
        if is_ended
            && operation.mark
            && operation.char.graphic() == b'B'
            && !d.mark
            && d.char.graphic() == b'A'
        {
            return true;
        }
    }
    false
}

impl Ending {
    /// How a job ended that was started so, and left the machine with its tape units so. The source is the program's, if
    /// it had one.
    pub fn of(
        alloc: Global,
        report: JobReport,
        taped: &TapedMachine,
        start: Start,
        source: Option<&RunSource>,
    ) -> Ending
        ensures report { result.report ≡ report }
        ensures reason { IfSome result.reason (λ why. stop_named why ≡ report.stop) }
        ensures so { IsWhyStopped start taped.now report.stop result.reason }
        ensures reels { result.reels ≡ places_of taped.now.tapes }
    {
        let machine = &taped.machine;
        // The address of the instruction that halted or couldn't be carried out.
        let at = match report.stop {
            Stop::Halt => halt_address(machine),
            Stop::Limit | Stop::Reader | Stop::Forms | Stop::Stacker => report.i,
            Stop::NoMark | Stop::OpCode | Stop::Length => report.i,
            Stop::Address | Stop::Overlap | Stop::Carriage => report.i,
            Stop::NotFitted | Stop::DChar | Stop::Tape => report.i,
        };
        let instruction = match instruction_text(alloc, machine, at, source) {
            Ok(text) => text,
            Err(_) => None,
        };
        Ending {
            report,
            at,
            instruction,
            reason: why_stopped(taped, start, report.stop),
            lacks_switch: report.stop == Stop::Reader
                && !machine.regs().switches[0]
                && tests_last_card(machine.core()),
            reels: reel_places(&taped.tapes),
        }
    }
}

/// The stop, and where.
fn put_stop<W: fmt::Write>(f: &mut fmt::Formatter<W>, ending: &Ending) -> fmt::Result {
    write!(f, "{} at {:04}", ending.report.stop, ending.at)?;
    let Some(text) = &ending.instruction else {
        return Ok(());
    };
    f.write_str(" (")?;
    for byte in text.as_slice() {
        write!(f, "{}", char::from(*byte))?;
    }
    f.write_str(")")
}

/// Why, if there is something to be reported.
fn put_reason<W: fmt::Write>(f: &mut fmt::Formatter<W>, ending: &Ending) -> fmt::Result {
    if let Some(why) = &ending.reason {
        write!(f, ": {why}")?;
    }
    if let Some(Reason::NoSuchLength { len: 8, .. }) = ending.reason {
        let (first, last) = (u32::from(ending.at) + 1, u32::from(ending.at) + 7);
        write!(f, ", and no word mark from {first:03} to {last:03} ends it")?;
    }
    if ending.lacks_switch {
        f.write_str(" (--switches A?)")?;
    }
    if ending.report.stop == Stop::Limit {
        f.write_str(": the step limit was reached")?;
    }
    Ok(())
}

impl fmt::Display for Ending {
    fn fmt<W: fmt::Write>(&self, f: &mut fmt::Formatter<W>) -> fmt::Result {
        put_stop(f, self)?;
        put_reason(f, self)?;
        write!(f, " after {}", self.report)?;
        for (n, reel) in self.reels.iter().enumerate() {
            if let Some(ReelPlace { passed, records }) = *reel {
                write!(f, ", tape {} at record {passed} of {records}", n + 1)?;
            }
        }
        Ok(())
    }
}
