//! Pressing the load key before a deck is run.
ghost use Rattle.std.specs.Prelude.{◌≡◌, ◌==◌, false, not, length, IsTrue, IfOk, OnOk, OnErr, IfErr};
ghost use Rattle.cpu_1401.specs.CardsAndPrinter.{load};
ghost use Rattle.job_runner.specs.Unattended.{with_deck};

use crate::cards::Cards;
use crate::fault::JobFault;
use crate::feeding::fill_hopper;
use cpu_1401::Machine;

/// Fills the hopper and presses the load key: the first card is read, and the machine takes its next instruction from
/// there. Returns false, and does nothing, if there is no card.
///
/// # Errors
///
/// `Read` if a card can't be read.
#[tactic(auto, using(crate::proofs::LoadLemmas::nothing_loaded))]
pub fn press_load_key<R: Cards>(machine: &mut Machine, cards: &mut R) -> Result<bool, JobFault>
    ensures loaded { OnOk result
        (with_deck (R.left cards.new) machine.new ≡ load (with_deck (R.left cards.old) machine.old)) }
    ensures card { IfOk result (λ some.
        some ≡ not (length (with_deck (R.left cards.old) machine.old).devices.hopper == 0)) }
    ensures none { IfOk result (λ some. some ≡ false
        → with_deck (R.left cards.new) machine.new ≡ with_deck (R.left cards.old) machine.old) }
    ensures err { OnErr result
        (with_deck (R.left cards.new) machine.new ≡ with_deck (R.left cards.old) machine.old) }
    ensures fault { IfErr result (λ why. why ≡ JobFault.Read) }
    ensures good { OnOk result (R.has_failed cards.new ≡ R.has_failed cards.old) }
    ensures failed { OnErr result (IsTrue (R.has_failed cards.new)) }
{
    fill_hopper(machine, cards)?;
    let loaded = machine.load_key();
    Ok(loaded.is_ok())
}
