//! The load key, and what an operator does at the devices.
ghost use Rattle.std.specs.Prelude.{ℕ, ◌≡◌, ◌+◌, ◌<◌, ◌==◌, not, is_ok, length, slice_get, slice_index_or, IfOk};
ghost use Rattle.std.specs.Prelude.{IfSome};
ghost use Rattle.std.specs.Prelude.{if◌then◌else◌};
ghost use Rattle.devices_1401.specs.Devices.{after_card, after_line, fed, is_full};
ghost use Rattle.core_1401.specs.Storage.{cell_at};
ghost use Rattle.cpu_1401.specs.CardsAndPrinter.{load, read_area, with_devices};
ghost use Rattle.devices_1401.specs.Card.{card_columns};

use crate::areas::{BEHIND_READ_AREA, READ_AREA};
use crate::device_steps::put_chars;
use crate::machine::Machine;
use core_1401::LEAST_SIZE;
use devices_1401::{Card, HopperFull, PrintLine, ReaderEmpty};

impl Machine {
    /// Reads the first card of the hopper into places 001 to 080, with a word mark at 001 alone, and takes the next
    /// instruction from there. The A and B registers stay.
    ///
    /// # Errors
    ///
    /// If the hopper is empty. The machine is as it was.
    pub fn load_key(&mut self) -> Result<(), ReaderEmpty>
        ensures loaded { is_ok result ≡ not (length self.old.devices.hopper == 0) }
        ensures state { self.new ≡ load self.old }

        // The card is in the read area, and its first place alone has a word mark there.
        ensures chars { IfSome (slice_get self.old.devices.hopper 0) (λ card. (i : ℕ) → i < card_columns →
            (cell_at self.new.storage (read_area + i)).char ≡ slice_index_or card.0 i 0) }
        ensures marks { IfOk result (λ done. (i : ℕ) → i < card_columns →
            (cell_at self.new.storage (read_area + i)).mark ≡ (i == 0)) }
        ensures size { length self.new.storage ≡ length self.old.storage }
    {
        let size = self.core.size();
        prove!(size >= LEAST_SIZE);
        let card = self.devices.read()?;
        self.core.clear(80, 80);
        put_chars(&mut self.core, READ_AREA, &card.0);
        self.core.put_mark(READ_AREA, true);
        self.cache.forget_down(BEHIND_READ_AREA - 1, READ_AREA - 1);
        self.i = READ_AREA;
        Ok(())
    }

    /// Puts a card after those in the hopper.
    ///
    /// # Errors
    ///
    /// If the hopper holds 500 cards.
    pub fn feed(&mut self, card: Card) -> Result<(), HopperFull>
        ensures refused { is_ok result ≡ not (is_full self.old.devices.hopper) }
        ensures state { let fed_one = with_devices (fed self.old.devices card) self.old in
            self.new ≡ (if is_ok result then fed_one else self.old) }
    {
        self.devices.feed(card)
    }

    /// Takes the oldest printed line; none if all are taken.
    pub fn take_line(&mut self) -> Option<PrintLine>
        ensures line { result ≡ slice_get self.old.devices.paper 0 }
        ensures state { self.new ≡ with_devices (after_line self.old.devices) self.old }
    {
        self.devices.take_line()
    }

    /// Takes the oldest punched card; none if all are taken.
    pub fn take_card(&mut self) -> Option<Card>
        ensures card { result ≡ slice_get self.old.devices.stacker 0 }
        ensures state { self.new ≡ with_devices (after_card self.old.devices) self.old }
    {
        self.devices.take_card()
    }
}
