//! Where printed lines and punched cards go.
ghost use Rattle.std.specs.Prelude.{◌≡◌, ◌≢◌, ◌++◌, ◌∷◌, [], Bool, IsTrue, List, Err, IfErr, OnOk, OnErr};
ghost use Rattle.devices_1401.specs.declared.card.Card.{Card as ACard};
ghost use Rattle.devices_1401.specs.declared.print_line.PrintLine.{PrintLine as ALine};

use crate::fault::JobFault;
use devices_1401::{Card, PrintLine};

/// Receives printed lines and punched cards, one at a time.
pub trait Output {
    // The lines that it has received, oldest first.
    ghost lines: { Self → List ALine };

    // The cards that it has received, oldest first.
    ghost cards: { Self → List ACard };

    // Whether a write has failed.
    ghost has_failed: { Self → Bool };

    /// Receives a line.
    ///
    /// # Errors
    ///
    /// `Write` if the write fails, `Memory` if memory is refused. The line isn't received.
    fn put_line(&mut self, line: &PrintLine) -> Result<(), JobFault>
        ensures ok { OnOk result (lines self.new ≡ lines self.old ++ line.now ∷ []) }
        ensures err { OnErr result (lines self.new ≡ lines self.old) }
        ensures fault { IfErr result (λ why. why ≢ JobFault.Read) }
        ensures good { result ≢ Err JobFault.Write → has_failed self.new ≡ has_failed self.old }
        ensures failed { result ≡ Err JobFault.Write → IsTrue (has_failed self.new) }
        ensures cards { cards self.new ≡ cards self.old };

    /// Receives a card.
    ///
    /// # Errors
    ///
    /// `Write` if the write fails, `Memory` if memory is refused. The card isn't received.
    fn put_card(&mut self, card: &Card) -> Result<(), JobFault>
        ensures ok { OnOk result (cards self.new ≡ cards self.old ++ card.now ∷ []) }
        ensures err { OnErr result (cards self.new ≡ cards self.old) }
        ensures fault { IfErr result (λ why. why ≢ JobFault.Read) }
        ensures good { result ≢ Err JobFault.Write → has_failed self.new ≡ has_failed self.old }
        ensures failed { result ≡ Err JobFault.Write → IsTrue (has_failed self.new) }
        ensures lines { lines self.new ≡ lines self.old };
}
