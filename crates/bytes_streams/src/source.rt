//! The source of a console's bytes.
ghost use Rattle.std.specs.Prelude.{◌≡◌, ℕ, Bool, false, IsTrue, List, Ok, None, IfOk, OnOk, OnErr, Option};
ghost use Rattle.std.specs.Prelude.{option_to_list};
ghost use Rattle.std.specs.Io.KnownBytes.{Consumes, IsAtEnd, Keeps};

use crate::failure::Failed;

/// Gives bytes, one after the other, until a read fails.
pub trait Source {
    // The bytes that it will give from here on, if they are known.
    ghost left: { Self → Option (List ℕ) };

    // Whether a read has failed.
    ghost has_failed: { Self → Bool };

    /// Whether a read has failed.
    fn has_failed(&self) -> bool
        ensures { result ≡ has_failed self.now };

    /// The next byte, or none at the end. After a failed read there is no other one.
    fn next_byte(&mut self) -> Result<Option<u8>, Failed>
        requires { has_failed self.old ≡ false }
        ensures byte { IfOk result (λ byte. Consumes (left self.old) (left self.new) (option_to_list byte)) }
        ensures end { result ≡ Ok None → IsAtEnd (left self.new) }
        ensures good { OnOk result (has_failed self.new ≡ false) }
        ensures failed { OnErr result (IsTrue (has_failed self.new)) }
        ensures err { OnErr result (Keeps (left self.old) (left self.new)) };
}
