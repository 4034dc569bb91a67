//! What makes a keeper's text that of an earlier journal.
ghost use Rattle.std.specs.Prelude.{◌≡◌, false, IfOk};
ghost use Rattle.std.specs.Io.KnownBytes.{Appends};
ghost use Rattle.room_alone.specs.Kept.{kept_text};

use room_alone::{Keeper, Room, Unkept};

/// Makes a keeper's text that of another journal, which is mostly a beginning of its own.
pub trait Cutter<K: Keeper> {
    /// The keeper with the text of this room's journal, and of nothing else.
    ///
    /// # Errors
    ///
    /// If it couldn't be written. Then the keeper is lost, and its text may be that of either journal or a part of it.
    fn cut(&mut self, keeper: K, room: &Room) -> Result<K, Unkept>
        requires { K.has_failed keeper ≡ false }
        ensures good { IfOk result (λ cut. K.has_failed cut ≡ false) }
        ensures kept { IfOk result (λ cut.
            Appends K.first (K.kept cut) (kept_text K.form room.now.size room.now.journal)) };
}
