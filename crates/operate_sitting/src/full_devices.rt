//! Paper and stacker that fill, and a hopper that becomes empty.
ghost use Rattle.std.specs.Prelude.{◌≡◌, false};
ghost use Rattle.operate_sitting.specs.FullDevices.{wants_hands};

use crate::search::Test;
use cpu_1401::Machine;
use devices_1401::{Devices, MOST_HELD};

/// Is met when an operator has to go to the devices before the next instruction: the paper or the stacker is full, or
/// the hopper is empty while there are more cards of the deck. The next instruction could see it, a read or a branch on
/// the last card.
#[derive(Clone, Copy)]
pub struct FullDevices {
    /// Whether there are more cards of the deck.
    pub has_more_cards: bool,
    /// Whether it was so after the last step.
    pub is_met: bool,
}

impl FullDevices {
    /// As a search begins.
    pub fn new(has_more_cards: bool) -> FullDevices
        ensures { result ≡ record { has_more_cards = has_more_cards; is_met = false } }
    {
        FullDevices {
            has_more_cards,
            is_met: false,
        }
    }
}

impl Test for FullDevices {
    ghost use Rattle.std.specs.Prelude.{false};
    ghost use Rattle.operate_sitting.specs.FullDevices.{wants_hands};

    ghost begun = { λ it s. record it { is_met = false } };

    ghost seen = { λ it s. record it { is_met = wants_hands it.has_more_cards s.devices } };

    ghost is_met = { λ it. it.is_met };

    fn begin(&mut self, _machine: &Machine) {
        self.is_met = false;
    }

    fn see(&mut self, machine: &Machine) -> bool {
        self.is_met = wants_hands(self.has_more_cards, machine.devices());
        self.is_met
    }
}

/// Whether paper or stacker are full, or the hopper is empty while there are more cards.
pub fn wants_hands(has_more_cards: bool, devices: &Devices) -> bool
    ensures { result ≡ wants_hands has_more_cards devices.now }
{
    usize::from(devices.paper()) >= MOST_HELD
        || usize::from(devices.stacker()) >= MOST_HELD
        || has_more_cards && devices.hopper() == 0
}
