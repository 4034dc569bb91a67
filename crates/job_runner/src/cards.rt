//! Where the cards of a deck come from.
ghost use Rattle.std.specs.Prelude.{◌≡◌, ◌++◌, [], Bool, IsTrue, List, Ok, None, IfOk, IfErr, OnOk, OnErr};
ghost use Rattle.std.specs.Prelude.{option_to_list};
ghost use Rattle.devices_1401.specs.declared.card.Card.{Card as ACard};

use crate::fault::JobFault;
use devices_1401::Card;

/// Gives the cards of a deck, one after the other.
pub trait Cards {
    // The cards that are left.
    ghost left: { Self → List ACard };

    // Whether a read has failed.
    ghost has_failed: { Self → Bool };

    /// The next card, or none at the end.
    ///
    /// # Errors
    ///
    /// `Read` if the card can't be read.
    fn next_card(&mut self) -> Result<Option<Card>, JobFault>
        ensures card { IfOk result (λ card. left self.old ≡ option_to_list card ++ left self.new) }
        ensures end { result ≡ Ok None → left self.new ≡ [] }
        ensures err { OnErr result (left self.new ≡ left self.old) }
        ensures fault { IfErr result (λ why. why ≡ JobFault.Read) }
        ensures good { OnOk result (has_failed self.new ≡ has_failed self.old) }
        ensures failed { OnErr result (IsTrue (has_failed self.new)) };
}
