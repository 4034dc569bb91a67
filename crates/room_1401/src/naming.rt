//! What names one shared room.
use std::marker::Brand;
use std::sync::ledger::Ledger;

/// What names one shared room: its ledger, its history, its size and the number of its seats. A function that makes a
/// room is generic in it, and its caller picks the names.
pub trait RoomId: Ledger {
    ghost use Rattle.std.specs.Prelude.{ℕ};
    ghost use Rattle.logbook.specs.Pages.{Book};

    /// The book of its history.
    ghost book: { Book };

    /// How many places core storage has.
    ghost size: { ℕ };

    /// How many seats there are. The ledger has a part for each.
    ghost seats: { ℕ };
}

impl RoomId for Brand {
    ghost book = { record { number = 0; log_name = 0; cells_name = 0 } };

    ghost size = { 0 };

    ghost seats = { 0 };
}
