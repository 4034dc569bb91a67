//! The sink of a console's replies.
ghost use Rattle.std.specs.Prelude.{◌≡◌, ◌<◌, ◌≤◌, ℕ, Bool, false, IsTrue, List, length, take, IfOk, OnOk, OnErr};
ghost use Rattle.std.specs.Prelude.{Option};
ghost use Rattle.std.specs.Io.KnownBytes.{Appends, Keeps};
ghost use Rattle.bytes_streams.specs.Sink.{AppendsPart};

use crate::failure::Failed;

/// Receives bytes, as many at a time as it likes, until a write fails.
pub trait Sink {
    // The bytes that it has received, if they are known.
    ghost received: { Self → Option (List ℕ) };

    // Whether a write has failed.
    ghost has_failed: { Self → Bool };

    /// Whether a write has failed.
    fn has_failed(&self) -> bool
        ensures { result ≡ has_failed self.now };

    /// Receives bytes from the front of these, at least one if there is one, or fails and receives none. After a
    /// failed write there is no other one.
    fn put(&mut self, bytes: &[u8]) -> Result<usize, Failed>
        requires { has_failed self.old ≡ false }
        ensures most { IfOk result (λ n. n ≤ length bytes.now) }
        ensures some { IfOk result (λ n. 0 < length bytes.now → 0 < n) }
        ensures received { IfOk result (λ n. Appends (received self.old) (received self.new) (take n bytes.now)) }
        ensures good { OnOk result (has_failed self.new ≡ false) }
        ensures failed { OnErr result (IsTrue (has_failed self.new)) }
        ensures err { OnErr result (Keeps (received self.old) (received self.new)) };
}

/// Hands all these bytes to the sink, in as many pieces as it likes.
///
/// # Errors
///
/// If a write has failed or fails, or takes nothing.
pub fn put_all<W: Sink>(writer: &mut W, bytes: &[u8]) -> Result<(), Failed>
    ensures ok { OnOk result (Appends (W.received writer.old) (W.received writer.new) bytes.now) }
    ensures part { OnErr result (AppendsPart (W.received writer.old) (W.received writer.new) bytes.now) }
    ensures good { OnOk result (W.has_failed writer.new ≡ W.has_failed writer.old) }
    ensures failed { OnErr result (IsTrue (W.has_failed writer.new)) }
{
    if writer.has_failed() {
        return Err(Failed);
    }
    let mut rest = bytes;
    while !rest.is_empty() {
        match writer.put(rest) {
            Ok(n) => rest = &rest[n..],
            Err(failed) => return Err(failed),
        }
    }
    Ok(())
}
