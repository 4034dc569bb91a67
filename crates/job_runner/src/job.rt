//! Running a machine with its tape units and a deck until it stops.
ghost use Rattle.std.specs.Prelude.{◌≡◌, ◌≢◌, ◌≤◌, length, IfOk, IfErr, OnOk, OnErr};
ghost use Rattle.job_runner.specs.Unattended.{AtEnd, Begins, GoesOn, IsLeftOff, IsPartOf, IsWhyBroken};
ghost use Rattle.job_runner.specs.Unattended.{after_output, failed};
ghost use Rattle.job_runner.specs.Unattended.{taped_with_deck, unattended};

use crate::cards::Cards;
use crate::fault::JobFault;
use crate::feeding::fill_hopper;
use crate::output::Output;
use crate::taking::take_all;
use cpu_1401::Stop;
use devices_1401::MOST_HELD;
use machine_tapes::{TapedMachine, taped_step_law};

/// The most steps between two feedings: a step reads, prints and punches at most one, and there is room for 500.
pub const STRETCH: u32 = MOST_HELD as u32;

/// How a job ended.
#[derive(Clone, Copy)]
pub struct JobEnd {
    /// How many instructions were carried out, a halt included.
    pub steps: u32,
    /// Why it ended.
    pub stop: Stop,
}

/// Runs a machine with its tape units and a deck until it stops, or until this many instructions were carried out. It
/// writes what a machine writes whose hopper holds the whole deck and whose paper and stacker never fill.
///
/// # Errors
///
/// `Read` if a read of the deck fails, `Write` if a write fails, else `Memory`. What was written is a beginning of what
/// the whole job writes.
pub fn run_job<R: Cards, W: Output>(
    taped: &mut TapedMachine,
    cards: &mut R,
    limit: u32,
    output: &mut W,
) -> Result<JobEnd, JobFault>
    ensures job { IfOk result (λ end.
        after_output (W.lines output.old) (W.cards output.old) 0
        (unattended limit (taped_with_deck (R.left cards.old) taped.old))
        ≡ record {
          state = taped_with_deck (R.left cards.new) taped.new;
          steps = end.steps;
          stop = end.stop;
          lines = W.lines output.new;
          cards = W.cards output.new;
        }) }
    ensures size { OnOk result (length taped.new.machine.storage ≡ length taped.old.machine.storage) }

    // LIMIT comes after exactly as many steps as the limit.
    ensures most { IfOk result (λ end. end.steps ≤ limit) }
    ensures limit { IfOk result (λ end. end.stop ≡ Stop.Limit → end.steps ≡ limit) }

    // Calls join: a job of more steps goes on from here after LIMIT, and is the same job after any other stop.
    ensures goes_on { IfOk result (λ end. end.stop ≡ Stop.Limit
        → GoesOn limit (taped_with_deck (R.left cards.old) taped.old)) }
    ensures at_end { IfOk result (λ end. end.stop ≢ Stop.Limit
        → AtEnd limit (taped_with_deck (R.left cards.old) taped.old)) }
    ensures begins { OnOk result (Begins limit (taped_with_deck (R.left cards.old) taped.old)) }

    ensures part { OnErr result (IsPartOf (W.lines output.new) (W.cards output.new)
        (after_output (W.lines output.old) (W.cards output.old) 0
        (unattended limit (taped_with_deck (R.left cards.old) taped.old)))) }

    // The tape units are then those after some of its steps.
    ensures left_off { OnErr result (IsLeftOff limit (taped_with_deck (R.left cards.old) taped.old) taped.new.tapes) }

    // Read means that a read has failed, Write that a write has, and Memory that neither has.
    ensures why { IfErr result (λ why. IsWhyBroken why
        (failed (R.has_failed cards.old) (W.has_failed output.old))
        (failed (R.has_failed cards.new) (W.has_failed output.new))) }
    ensures good { OnOk result (failed (R.has_failed cards.new) (W.has_failed output.new)
        ≡ failed (R.has_failed cards.old) (W.has_failed output.old)) }
{
    taped_step_law();
    take_all(&mut taped.machine, output)?;
    let mut steps = 0;
    while steps < limit {
        fill_hopper(&mut taped.machine, cards)?;
        let ran = taped.run((limit - steps).min(STRETCH));
        take_all(&mut taped.machine, output)?;
        steps += ran.steps;
        match ran.stop {
            Stop::Limit => {}
            stop => return Ok(JobEnd { steps, stop }),
        }
    }
    Ok(JobEnd {
        steps,
        stop: Stop::Limit,
    })
}
