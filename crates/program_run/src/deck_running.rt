//! A machine run with a deck, whose paper and punched cards are written as they come.
ghost use Rattle.std.specs.Prelude.{◌≡◌, ◌<◌, ◌≤◌, ◌+◌, ◌⊎◌, ◌≢◌, Bool, true, length, min};
ghost use Rattle.std.specs.Prelude.{[], Option, None, Some, IfOk, IfErr, IfSome, MatchOption, OnOk, OnErr, is_some};
ghost use Rattle.std.specs.Prelude.{option_and_then};
ghost use Rattle.std.specs.Io.KnownBytes.{Appends};
ghost use Rattle.bytes_streams.specs.Sink.{AppendsPart};
ghost use Rattle.job_runner.specs.Paper.{paper_text, place_beyond};
ghost use Rattle.job_runner.specs.Unattended.{IsLeftOff, ended, taped_emptied, taped_with_deck, unattended};
ghost use Rattle.job_runner.specs.Unattended.{with_deck};
ghost use Rattle.machine_tables.specs.TapeUnit.{tape_units};
ghost use Rattle.program_run.specs.RunDeck.{BrokeOff, HasWritten, HasWrittenPart, IsAtEndOf, IsWhyUnwritten};
ghost use Rattle.program_run.specs.RunDeck.{LeadsOn, RanStretch};
ghost use Rattle.program_run.specs.RunDeck.{cards_text};
ghost use Rattle.program_run.specs.RunDeck.{failed_of, first_place, received, report_of, started_job};
ghost use Rattle.program_run.specs.RunStart.{GoesOnAs, StopsAs};
ghost use Rattle.program_run.specs.RunTrace.{IsWhyUntraced, TracedStretch, seen_if, started_trace, traced};
ghost use Rattle.program_run.specs.TraceText.{mark_after, trace_text};

use crate::job_report::JobReport;
use crate::outputs::Outputs;
use crate::watching::{HowFar, Watch};
use bytes_streams::{Sink, put_all};
use cpu_1401::{Machine, Stop};
use devices_1401::{Card, PrintLine};
use job_runner::{
    CardList, Collected, Deck, PaperPlace, press_load_key, put_cards, put_paper, run_job,
};
use job_steps::{TapeMark, Work};
use machine_tapes::{TapeInstruction, TapedMachine, Tapes, tape_instruction, taped_step_law};
use program_arguments::Start;
use std::alloc::Global;

/// Why a run broke off.
#[derive(Clone, Copy)]
pub enum Broken {
    /// Memory was refused.
    Memory,
    /// The paper wasn't written.
    Paper,
    /// The punched cards weren't written.
    Punch,
    /// The trace wasn't written.
    Trace,
}

/// What a stretch of a job has done.
#[derive(Clone, Copy)]
struct Stretch {
    /// How many instructions were carried out.
    steps: u32,
    /// Why the job ended, if it did.
    stop: Option<Stop>,
    /// Where the paper goes on.
    place: PaperPlace,
    /// How many lines were printed.
    printed: u64,
    /// How many cards were punched.
    punched: u64,
}

/// Writes what was printed, after the paper so far, and reports where the paper goes on.
#[tactic(auto, using(crate::proofs::WrittenLemmas::nothing_yet))]
fn write_paper<W: Sink>(
    alloc: Global,
    place: PaperPlace,
    lines: &[PrintLine],
    paper: &mut W,
) -> Result<PaperPlace, Broken>
    ensures place { IfOk result (λ next. next ≡ place_beyond place lines.now) }
    ensures text { OnOk result (Appends (W.received paper.old) (W.received paper.new) (paper_text place lines.now)) }
    ensures good { OnOk result (W.has_failed paper.new ≡ W.has_failed paper.old) }
    ensures part { OnErr result
        (AppendsPart (W.received paper.old) (W.received paper.new) (paper_text place lines.now)) }
    ensures why { IfErr result (λ why.
        (punch : Bool) → IsWhyUnwritten why (W.has_failed paper.old) (W.has_failed paper.new) punch punch) }
    ensures untraced { IfErr result (λ why. (trace : Bool) → IsWhyUntraced why trace trace) }
{
    let mut text = Vec::new(alloc);
    match put_paper(&mut text, place, lines) {
        Ok(next) => match put_all(paper, text.as_slice()) {
            Ok(()) => Ok(next),
            Err(_) => Err(Broken::Paper),
        },
        Err(_) => Err(Broken::Memory),
    }
}

/// Writes what was punched, after the cards so far.
#[tactic(auto, using(crate::proofs::WrittenLemmas::nothing_yet))]
fn write_cards<P: Sink>(alloc: Global, cards: &[Card], punch: &mut P) -> Result<(), Broken>
    ensures text { OnOk result (Appends (P.received punch.old) (P.received punch.new) (cards_text cards.now)) }
    ensures good { OnOk result (P.has_failed punch.new ≡ P.has_failed punch.old) }
    ensures part { OnErr result (AppendsPart (P.received punch.old) (P.received punch.new) (cards_text cards.now)) }
    ensures why { IfErr result (λ why.
        (paper : Bool) → IsWhyUnwritten why paper paper (P.has_failed punch.old) (P.has_failed punch.new)) }
    ensures untraced { IfErr result (λ why. (trace : Bool) → IsWhyUntraced why trace trace) }
{
    let mut text = Vec::new(alloc);
    match put_cards(&mut text, cards) {
        Ok(()) => match put_all(punch, text.as_slice()) {
            Ok(()) => Ok(()),
            Err(_) => Err(Broken::Punch),
        },
        Err(_) => Err(Broken::Memory),
    }
}

/// Why a job of this many steps ended, if a part of it has this end; none if it goes on.
fn stop_of_job(stop: Stop, part: u32, steps: u32) -> Option<Stop>
    ensures none { result ≡ None → (stop ≡ Stop.Limit) × (part < steps) }
    ensures some { (why : Stop) → result ≡ Some why → (why ≡ stop) × ((stop ≢ Stop.Limit) ⊎ (steps ≤ part)) }
{
    match stop {
        Stop::Limit => {
            if part < steps {
                None
            } else {
                Some(Stop::Limit)
            }
        }
        stop => Some(stop),
    }
}

/// How far the reel is of a unit after a step that ended so, if the step has carried out a tape instruction. Without a
/// trace nobody asks: the records of a reel are counted from its beginning.
fn mark_after(
    is_traced: bool,
    this: Option<TapeInstruction>,
    why: Option<Stop>,
    tapes: &Tapes,
) -> Option<TapeMark>
    requires least { IfSome this (λ this. 1 ≤ this.unit.number) }
    requires most { IfSome this (λ this. this.unit.number ≤ tape_units) }
    ensures { is_traced ≡ true → result ≡ mark_after this why tapes.now }
{
    if !is_traced {
        return None;
    }
    match (this, why) {
        (Some(this), None) => Some(TapeMark {
            unit: this.unit.number,
            passed: tapes.unit(this.unit.number).reel.records_passed() as u64,
        }),
        (Some(_), Some(_)) | (None, _) => None,
    }
}

/// The stop that a step ended with; none if the limit was met.
fn stop_of_step(stop: Stop) -> Option<Stop>
    ensures none { result ≡ None → stop ≡ Stop.Limit }
    ensures some { (why : Stop) → result ≡ Some why → (why ≡ stop) × (stop ≢ Stop.Limit) }
{
    match stop {
        Stop::Limit => None,
        stop => Some(stop),
    }
}

/// Runs a machine for as many steps as are left, and writes what they print and punch: 500 steps at most, or one with
/// its line if there is a trace.
fn run_stretch<'d, W: Sink, P: Sink, F: Sink>(
    alloc: Global,
    taped: &mut TapedMachine,
    deck: &mut Deck<'d>,
    left: u32,
    place: PaperPlace,
    outputs: &mut Outputs<W, P, F>,
) -> Result<Stretch, Broken>
    requires seen { outputs.old.trace.before ≡ seen_if (is_some outputs.old.trace.before) taped.old.machine }
    requires file { is_some outputs.old.trace.before ≡ is_some outputs.old.trace.file }
    ensures ran { IfOk result (RanStretch left place
        (taped_with_deck deck.old taped.old)
        (taped_with_deck deck.new taped.new)
        (received (W.received outputs.old.paper) (P.received outputs.old.punch))
        (received (W.received outputs.new.paper) (P.received outputs.new.punch))) }
    ensures left_off { OnErr result (IsLeftOff left (taped_with_deck deck.old taped.old) taped.new.tapes) }
    ensures leads_on { IfOk result (λ stretch. stretch.stop ≡ None → LeadsOn stretch.steps
        (taped_with_deck deck.old taped.old) (taped_with_deck deck.new taped.new)) }
    ensures most { IfOk result (λ stretch. stretch.steps ≤ left) }
    ensures some { IfOk result (λ stretch. stretch.stop ≡ None → 0 < stretch.steps) }
    ensures good { OnOk result ((W.has_failed outputs.new.paper ≡ W.has_failed outputs.old.paper)
        × (P.has_failed outputs.new.punch ≡ P.has_failed outputs.old.punch)) }
    ensures part { OnErr result (HasWrittenPart place
        (unattended left (taped_with_deck deck.old taped.old)).lines
        (unattended left (taped_with_deck deck.old taped.old)).cards
        (received (W.received outputs.old.paper) (P.received outputs.old.punch))
        (received (W.received outputs.new.paper) (P.received outputs.new.punch))) }
    ensures why { IfErr result (λ why. IsWhyUnwritten why
        (W.has_failed outputs.old.paper) (W.has_failed outputs.new.paper)
        (P.has_failed outputs.old.punch) (P.has_failed outputs.new.punch)) }
    ensures seen { IfOk result (λ stretch. stretch.stop ≡ None
        → outputs.new.trace.before ≡ seen_if (is_some outputs.old.trace.before) taped.new.machine) }
    ensures file { is_some outputs.new.trace.file ≡ is_some outputs.old.trace.file }
    ensures traced { IfOk result (λ stretch. TracedStretch (is_some outputs.old.trace.before)
        left stretch.steps stretch.stop
        (taped_with_deck deck.old taped.old)
        (taped_with_deck deck.new taped.new)
        (option_and_then F.received outputs.old.trace.file) (option_and_then F.received outputs.new.trace.file)) }
    ensures traced_part { OnErr result (AppendsPart (option_and_then F.received outputs.old.trace.file)
        (option_and_then F.received outputs.new.trace.file) (traced (is_some outputs.old.trace.before)
        (trace_text left (taped_with_deck deck.old taped.old)))) }
    ensures traced_good { OnOk result (failed_of F.has_failed outputs.new.trace.file
        ≡ failed_of F.has_failed outputs.old.trace.file) }
    ensures why_untraced { IfErr result (λ why. IsWhyUntraced why (failed_of F.has_failed outputs.old.trace.file)
        (failed_of F.has_failed outputs.new.trace.file)) }
{
    taped_step_law();
    let mut output = Collected::new(alloc);
    let regs = taped.machine.regs();
    let held = cards_held(&taped.machine, deck);
    let limit = left.min(outputs.trace.most_at_once());
    let is_traced = outputs.trace.is_on();
    let next = tape_instruction(&taped.machine);
    // A deck in memory is always read, and what is kept in memory is refused for its lack alone.
    let end = match run_job(taped, deck, limit, &mut output) {
        Ok(end) => end,
        Err(_) => return Err(Broken::Memory),
    };
    let lines = output.lines.as_slice();
    let cards = output.cards.as_slice();
    let place = match write_paper(alloc, place, lines, &mut outputs.paper) {
        Ok(place) => place,
        Err(unwritten) => return Err(unwritten),
    };
    match write_cards(alloc, cards, &mut outputs.punch) {
        Ok(()) => {}
        Err(unpunched) => return Err(unpunched),
    }
    let stop = stop_of_job(end.stop, limit, left);
    let why = stop_of_step(end.stop);
    let work = Work {
        printed: usize::from(regs.paper) < lines.len(),
        read: cards_held(&taped.machine, deck) < held,
        punched: usize::from(regs.stacker) < cards.len(),
        tape: mark_after(is_traced, next, why, &taped.tapes),
    };
    let trace = &mut outputs.trace;
    match trace.put_line(alloc, limit, &taped.machine, work, why) {
        Ok(()) => Ok(Stretch {
            steps: end.steps,
            stop,
            place,
            printed: lines.len() as u64,
            punched: cards.len() as u64,
        }),
        Err(untraced) => Err(untraced),
    }
}

/// Runs a machine with a deck until it stops or until this many instructions were carried out. What it prints and
/// punches is written every 500 steps at the latest, and the watch hears as often how far it is. `held` is how many
/// cards there were at the start.
fn run_deck<'d, W: Sink, P: Sink, F: Sink, T: Watch>(
    alloc: Global,
    taped: &mut TapedMachine,
    deck: &mut Deck<'d>,
    held: u64,
    limit: u32,
    outputs: &mut Outputs<W, P, F>,
    watch: &mut T,
) -> Result<JobReport, Broken>
    ensures report { IfOk result (λ report. report ≡ report_of held
        (unattended limit (taped_with_deck deck.old taped.old))) }
    ensures end { OnOk result (taped_with_deck deck.new taped.new
        ≡ (unattended limit (taped_with_deck deck.old taped.old)).state) }
    ensures left_off { OnErr result (IsLeftOff limit (taped_with_deck deck.old taped.old) taped.new.tapes) }
    ensures written { OnOk result (HasWritten first_place
        (unattended limit (taped_with_deck deck.old taped.old)).lines
        (unattended limit (taped_with_deck deck.old taped.old)).cards
        (received (W.received outputs.old.paper) (P.received outputs.old.punch))
        (received (W.received outputs.new.paper) (P.received outputs.new.punch))) }
    ensures part { OnErr result (HasWrittenPart first_place
        (unattended limit (taped_with_deck deck.old taped.old)).lines
        (unattended limit (taped_with_deck deck.old taped.old)).cards
        (received (W.received outputs.old.paper) (P.received outputs.old.punch))
        (received (W.received outputs.new.paper) (P.received outputs.new.punch))) }
    ensures why { IfErr result (λ why. IsWhyUnwritten why
        (W.has_failed outputs.old.paper) (W.has_failed outputs.new.paper)
        (P.has_failed outputs.old.punch) (P.has_failed outputs.new.punch)) }
    ensures traced { OnOk result (Appends (option_and_then F.received outputs.old.trace.file)
        (option_and_then F.received outputs.new.trace.file) (traced (is_some outputs.old.trace.file)
        (trace_text limit (taped_with_deck deck.old taped.old)))) }
    ensures traced_part { OnErr result (AppendsPart (option_and_then F.received outputs.old.trace.file)
        (option_and_then F.received outputs.new.trace.file) (traced (is_some outputs.old.trace.file)
        (trace_text limit (taped_with_deck deck.old taped.old)))) }
    ensures why_untraced { IfErr result (λ why. IsWhyUntraced why (failed_of F.has_failed outputs.old.trace.file)
        (failed_of F.has_failed outputs.new.trace.file)) }
{
    match outputs.trace.begin(alloc, &taped.machine) {
        Ok(()) => {}
        Err(broken) => return Err(broken),
    }
    let mut left = limit;
    let mut place = PaperPlace::FIRST;
    let mut printed: u64 = 0;
    let mut punched: u64 = 0;
    loop {
        let stretch = match run_stretch(alloc, taped, deck, left, place, outputs) {
            Ok(stretch) => stretch,
            Err(broken) => return Err(broken),
        };
        left -= stretch.steps;
        place = stretch.place;
        printed = printed.saturating_add(stretch.printed);
        punched = punched.saturating_add(stretch.punched);
        let steps = limit - left;
        let cards = cards_held(&taped.machine, deck);
        match stretch.stop {
            Some(stop) => {
                return Ok(JobReport {
                    stop,
                    i: taped.machine.regs().i,
                    steps,
                    read: held.saturating_sub(cards),
                    printed,
                    punched,
                });
            }
            None => watch.saw(
                HowFar {
                    steps,
                    cards,
                    printed,
                },
                &taped.tapes,
            ),
        }
    }
}

/// How many cards there are, in the hopper and after it.
fn cards_held<'d>(machine: &Machine, deck: &Deck<'d>) -> u64
    ensures { result ≡ length (with_deck deck.now machine.now).devices.hopper }
{
    u64::from(machine.regs().hopper) + deck.left() as u64
}

/// Reports a machine as stopped by the key that was to start it, and writes what lies on its paper and in its stacker.
#[tactic(auto, unfolding(job_runner::specs::Unattended::unattended, crate::specs::TraceText::trace_text))]
fn run_nothing<'d, W: Sink, P: Sink, F: Sink, T: Watch>(
    alloc: Global,
    taped: &mut TapedMachine,
    deck: &mut Deck<'d>,
    held: u64,
    stop: Stop,
    outputs: &mut Outputs<W, P, F>,
    watch: &mut T,
) -> Result<JobReport, Broken>
    ensures report { IfOk result (λ report. report ≡ report_of held
        (ended 0 stop (taped_with_deck deck.old taped.old))) }
    ensures end { OnOk result (taped_with_deck deck.new taped.new
        ≡ taped_emptied (taped_with_deck deck.old taped.old)) }
    ensures left_off { OnErr result (taped.new.tapes ≡ taped.old.tapes) }
    ensures written { OnOk result (HasWritten first_place
        taped.old.machine.devices.paper taped.old.machine.devices.stacker
        (received (W.received outputs.old.paper) (P.received outputs.old.punch))
        (received (W.received outputs.new.paper) (P.received outputs.new.punch))) }
    ensures part { OnErr result (HasWrittenPart first_place
        taped.old.machine.devices.paper taped.old.machine.devices.stacker
        (received (W.received outputs.old.paper) (P.received outputs.old.punch))
        (received (W.received outputs.new.paper) (P.received outputs.new.punch))) }
    ensures why { IfErr result (λ why. IsWhyUnwritten why
        (W.has_failed outputs.old.paper) (W.has_failed outputs.new.paper)
        (P.has_failed outputs.old.punch) (P.has_failed outputs.new.punch)) }
    ensures traced { OnOk result (Appends (option_and_then F.received outputs.old.trace.file)
        (option_and_then F.received outputs.new.trace.file) (traced (is_some outputs.old.trace.file)
        [])) }
    ensures traced_part { OnErr result (AppendsPart (option_and_then F.received outputs.old.trace.file)
        (option_and_then F.received outputs.new.trace.file) (traced (is_some outputs.old.trace.file)
        [])) }
    ensures why_untraced { IfErr result (λ why. IsWhyUntraced why (failed_of F.has_failed outputs.old.trace.file)
        (failed_of F.has_failed outputs.new.trace.file)) }
{
    match run_deck(alloc, taped, deck, held, 0, outputs, watch) {
        Ok(report) => Ok(JobReport { stop, ..report }),
        Err(broken) => Err(broken),
    }
}

/// Presses the key that starts a machine, if there is one, and says why the machine can't be started, if it can't.
fn press_start<'d>(taped: &mut TapedMachine, deck: &mut Deck<'d>, start: Start) -> Option<Stop>
    ensures { MatchOption result
        (GoesOnAs start (taped_with_deck deck.old taped.old) (taped_with_deck deck.new taped.new))
        (λ why. StopsAs start why (taped_with_deck deck.old taped.old) (taped_with_deck deck.new taped.new)) }
{
    taped_step_law();
    match start {
        Start::Entry => None,
        Start::LoadKey => match press_load_key(&mut taped.machine, deck) {
            Ok(true) => None,
            Ok(false) => Some(Stop::Reader),
            // A deck in memory is always read.
            Err(_) => unreachable!(),
        },
        Start::LoadTape(unit) => taped.load_from_tape(unit),
    }
}

/// Runs a machine with its tape units, with these cards after those in its hopper, from its entry, by the load key or by
/// the key that loads from tape, until it stops or until this many instructions were carried out. What it prints and
/// punches is written every 500 steps at the latest, and the watch sees as often how far it is.
///
/// # Errors
///
/// `Paper`, `Punch` or `Trace` if that write failed, else `Memory`. What was written is a beginning of what would have
/// been.
pub fn run_started<W: Sink, P: Sink, F: Sink, T: Watch>(
    alloc: Global,
    taped: &mut TapedMachine,
    cards: &CardList,
    start: Start,
    limit: u32,
    outputs: &mut Outputs<W, P, F>,
    watch: &mut T,
) -> Result<JobReport, Broken>
    ensures report { IfOk result (λ report. report ≡ report_of
        (length (taped_with_deck cards.now taped.old).machine.devices.hopper)
        (started_job start limit (taped_with_deck cards.now taped.old))) }

    // The machine with its tape units is that of the job at its end.
    ensures end { OnOk result
        (IsAtEndOf (started_job start limit (taped_with_deck cards.now taped.old)) taped.new) }

    // If it breaks off, its tape units are those after some of its steps.
    ensures broke_off { OnErr result (BrokeOff start limit (taped_with_deck cards.now taped.old) taped.new.tapes) }
    ensures written { OnOk result (HasWritten first_place
        (started_job start limit (taped_with_deck cards.now taped.old)).lines
        (started_job start limit (taped_with_deck cards.now taped.old)).cards
        (received (W.received outputs.old.paper) (P.received outputs.old.punch))
        (received (W.received outputs.new.paper) (P.received outputs.new.punch))) }
    ensures part { OnErr result (HasWrittenPart first_place
        (started_job start limit (taped_with_deck cards.now taped.old)).lines
        (started_job start limit (taped_with_deck cards.now taped.old)).cards
        (received (W.received outputs.old.paper) (P.received outputs.old.punch))
        (received (W.received outputs.new.paper) (P.received outputs.new.punch))) }
    ensures why { IfErr result (λ why. IsWhyUnwritten why
        (W.has_failed outputs.old.paper) (W.has_failed outputs.new.paper)
        (P.has_failed outputs.old.punch) (P.has_failed outputs.new.punch)) }
    ensures traced { OnOk result (Appends (option_and_then F.received outputs.old.trace.file)
        (option_and_then F.received outputs.new.trace.file) (traced (is_some outputs.old.trace.file)
        (started_trace start limit (taped_with_deck cards.now taped.old)))) }
    ensures traced_part { OnErr result (AppendsPart (option_and_then F.received outputs.old.trace.file)
        (option_and_then F.received outputs.new.trace.file) (traced (is_some outputs.old.trace.file)
        (started_trace start limit (taped_with_deck cards.now taped.old)))) }
    ensures why_untraced { IfErr result (λ why. IsWhyUntraced why (failed_of F.has_failed outputs.old.trace.file)
        (failed_of F.has_failed outputs.new.trace.file)) }
{
    let mut deck = Deck::new(cards);
    let held = cards_held(&taped.machine, &deck);
    match press_start(taped, &mut deck, start) {
        None => run_deck(alloc, taped, &mut deck, held, limit, outputs, watch),
        Some(why) => run_nothing(alloc, taped, &mut deck, held, why, outputs, watch),
    }
}
