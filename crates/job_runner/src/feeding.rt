//! Filling the hopper from a deck.
ghost use Rattle.std.specs.Prelude.{◌≡◌, ◌≤◌, ◌⊎◌, [], IsTrue, IfErr, OnOk, OnErr, length};
ghost use Rattle.devices_1401.specs.Devices.{most_held};
ghost use Rattle.job_runner.specs.Unattended.{with_deck};

use crate::cards::Cards;
use crate::fault::JobFault;
use cpu_1401::Machine;
use devices_1401::MOST_HELD;

/// Feeds cards until the hopper is full or no card is left.
///
/// # Errors
///
/// `Read` if a card can't be read. The cards before it are in the hopper.
pub(crate) fn fill_hopper<R: Cards>(machine: &mut Machine, cards: &mut R) -> Result<(), JobFault>
    ensures deck { with_deck (R.left cards.new) machine.new ≡ with_deck (R.left cards.old) machine.old }
    ensures full { OnOk result ((most_held ≤ length machine.new.devices.hopper) ⊎ (R.left cards.new ≡ [])) }
    ensures fault { IfErr result (λ why. why ≡ JobFault.Read) }
    ensures good { OnOk result (R.has_failed cards.new ≡ R.has_failed cards.old) }
    ensures failed { OnErr result (IsTrue (R.has_failed cards.new)) }
    ensures stacker { machine.new.devices.stacker ≡ machine.old.devices.stacker }
    ensures paper { machine.new.devices.paper ≡ machine.old.devices.paper }
    ensures size { length machine.new.storage ≡ length machine.old.storage }
{
    for held in machine.regs().hopper..MOST_HELD as u16 {
        let Some(card) = cards.next_card()? else {
            return Ok(());
        };
        let fed = machine.feed(card);
        prove!(fed.is_ok());
    }
    Ok(())
}
