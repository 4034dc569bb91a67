//! What a console of a service reads.
ghost use Rattle.std.specs.Prelude.{◌≡◌, ◌⊎◌, ◌↔◌, ℕ, true, false, Ok, Some, None, IfOk, OnOk, OnErr, IsTrue};
ghost use Rattle.std.specs.Prelude.{option_to_list};
ghost use Rattle.std.specs.Io.KnownBytes.{Consumes, IsAtEnd, Keeps};

use bytes_streams::{Failed, Source};
use std::sync::atomic::AtomicBool;
use std::sync::atomic::Ordering::SeqCst;

/// The bytes of a source until the service closes. Then the line that has begun is the last one.
#[derive(Drop)]
pub(crate) struct UntilClosing<'a, S> {
    source: S,
    is_closing: &'a AtomicBool,
    // No line has begun.
    is_between: bool,
}

impl<'a, S: Source> UntilClosing<'a, S> {
    /// The bytes of this source.
    pub(crate) fn new(source: S, is_closing: &'a AtomicBool) -> UntilClosing<'a, S> {
        UntilClosing {
            source,
            is_closing,
            is_between: true,
        }
    }
}

impl<S: Source> Source for UntilClosing<'_, S> {
    ghost left = { λ _. None };

    ghost has_failed = { λ it. S.has_failed it.source };

    fn has_failed(&self) -> bool {
        self.source.has_failed()
    }

    fn next_byte(&mut self) -> Result<Option<u8>, Failed>
        requires { S.has_failed self.old.source ≡ false }

        // Its bytes are those of its source, in order.
        ensures source { IfOk result (λ byte.
            Consumes (S.left self.old.source) (S.left self.new.source) (option_to_list byte)) }

        // It ends where its source does, or where no line has begun.
        ensures last { result ≡ Ok None → IsAtEnd (S.left self.new.source) ⊎ IsTrue self.old.is_between }
        ensures line { (byte : ℕ) → result ≡ Ok (Some byte) → IsTrue self.new.is_between ↔ (byte ≡ 10) }
        ensures kept { OnErr result (Keeps (S.left self.old.source) (S.left self.new.source)) }

        // It has failed if its source has.
        ensures good { OnOk result (S.has_failed self.new.source ≡ false) }
        ensures failed { OnErr result (IsTrue (S.has_failed self.new.source)) }

        // When the service closes isn't known, nor what is left until then.
        ensures byte { IfOk result (λ byte. Consumes None None (option_to_list byte)) }
        ensures end { result ≡ Ok None → IsAtEnd None }
        ensures err { OnErr result (Keeps None None) }
    {
        if self.is_between && self.is_closing.load(SeqCst) {
            return Ok(None);
        }
        let byte = self.source.next_byte();
        self.is_between = matches!(byte, Ok(Some(b'\n')));
        byte
    }
}
