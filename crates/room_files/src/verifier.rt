//! A sink that verifies a text that it has, and then adds to it.
ghost use Rattle.std.specs.Prelude.{◌≡◌, ◌≢◌, ◌≤◌, ◌<◌, min, take, length, IfOk, OnErr};
ghost use Rattle.std.specs.Option.{ForSome};
ghost use Rattle.room_files.specs.Verifying.{verified};

use bytes_streams::{Failed, Sink};

/// Takes a text that the sink beneath has already once more, as the verifier of punched cards does: it compares each
/// byte and writes none. After the text, bytes go to that sink. At a byte that differs it has failed, and the sink
/// beneath stays as it is.
#[derive(Drop)]
pub struct Verifier<S: Sink + Drop> {
    sink: S,
    text: Vec<u8>,
    at: usize,
    differs: bool,
    // The place is in the text or at its end, and until it is at the end, the sink has the text alone.
    ghost in_text: { at ≤ length text.items },
    ghost held: { at < length text.items → ForSome (S.received sink) (λ held. held ≡ text.items) },
}

impl<S: Sink + Drop> Verifier<S> {
    /// A sink that expects what this text has from a place on, and then adds to this sink, which has the text.
    pub fn new(sink: S, text: Vec<u8>, at: usize) -> Verifier<S>
        requires place { at ≤ length text.items }
        requires text { ForSome (S.received sink) (λ held. held ≡ text.items) }
        ensures received { ⟦<Verifier<S> as Sink>⟧.received result ≡ verified text.items at (S.received sink) }
        ensures failed { ⟦<Verifier<S> as Sink>⟧.has_failed result ≡ S.has_failed sink }
    {
        Verifier {
            sink,
            text,
            at,
            differs: false,
        }
    }
}

impl<S: Sink + Drop> Sink for Verifier<S> {
    ghost use Rattle.std.specs.Prelude.{◌||◌};
    ghost use Rattle.room_files.specs.Verifying.{verified};

    ghost received = { λ verifier. verified verifier.text.items verifier.at (S.received verifier.sink) };

    ghost has_failed = { λ verifier. verifier.differs || S.has_failed verifier.sink };

    fn has_failed(&self) -> bool {
        self.differs || self.sink.has_failed()
    }

    fn put(&mut self, bytes: &[u8]) -> Result<usize, Failed> {
        if self.at == self.text.len() {
            return self.sink.put(bytes);
        }
        match bytes_met(&self.text[self.at..], bytes) {
            Ok(count) => {
                self.at += count;
                Ok(count)
            }
            Err(failed) => {
                self.differs = true;
                Err(failed)
            }
        }
    }
}

/// How many of these bytes are met by those that are due.
///
/// # Errors
///
/// Exactly if one of them differs.
fn bytes_met(due: &[u8], bytes: &[u8]) -> Result<usize, Failed>
    ensures count { IfOk result (λ n. n ≡ min (length bytes.now) (length due.now)) }
    ensures same { IfOk result (λ n. take n bytes.now ≡ take n due.now) }
    ensures err { let n = min (length bytes.now) (length due.now) in
        OnErr result (take n bytes.now ≢ take n due.now) }
{
    let count = bytes.len().min(due.len());
    if bytes[..count] == due[..count] {
        Ok(count)
    } else {
        Err(Failed)
    }
}
