//! What keeps a journal outside of its room.
ghost use Rattle.std.specs.Prelude.{◌≡◌, ℕ, Bool, true, false, List, Option, OnOk, OnErr};
ghost use Rattle.std.specs.Io.KnownBytes.{Appends};
ghost use Rattle.room_alone.specs.Kept.{AppendsPart, Form};

use crate::entry::Entry;
use cpu_1401::Answer;
use thiserror::Error;

/// An entry wasn't kept, or only a part of its line was.
#[derive(Clone, Copy, Debug, Error)]
#[error("an entry of the journal wasn't kept")]
pub struct Unkept;

/// Keeps the entries of a journal, each as a line of text, until a write fails.
pub trait Keeper {
    // The bytes that it has, if they are known.
    ghost kept: { Self → Option (List ℕ) };

    // The bytes that it had before the journal, if they are known.
    ghost first: { Option (List ℕ) };

    // Whether a write has failed.
    ghost has_failed: { Self → Bool };

    // What it writes of a journal.
    ghost form: { Form };

    /// Whether a write has failed.
    fn has_failed(&self) -> bool
        ensures { result ≡ has_failed self.now };

    /// Keeps the entry of this number, or fails, and may have kept a part of its line. After a failure there is no
    /// other entry.
    fn keep(&mut self, number: u64, entry: &Entry) -> Result<(), Unkept>
        requires { has_failed self.old ≡ false }
        ensures line { OnOk result (Appends (kept self.old) (kept self.new) (form.line number entry.now)) }
        ensures part { OnErr result (AppendsPart (kept self.old) (kept self.new) (form.line number entry.now)) }
        ensures good { OnOk result (has_failed self.new ≡ false) }
        ensures failed { OnErr result (has_failed self.new ≡ true) };
}

/// An answer, and whether its entry is kept. An answer whose entry isn't kept must not go out.
#[derive(Clone, Copy, Debug)]
pub struct Carried {
    /// The machine's answer.
    pub answer: Answer,
    /// Whether the entry is kept.
    pub kept: bool,
}

/// Keeps nothing.
#[derive(Clone, Copy)]
pub struct NoKeeper;

impl Keeper for NoKeeper {
    ghost use Rattle.std.specs.Prelude.{false, [], None};

    ghost kept = { λ _. None };

    ghost first = { None };

    ghost has_failed = { λ _. false };

    ghost form = { record { head = λ _. []; line = λ _ _. [] } };

    fn has_failed(&self) -> bool {
        false
    }

    fn keep(&mut self, _number: u64, _entry: &Entry) -> Result<(), Unkept> {
        Ok(())
    }
}
