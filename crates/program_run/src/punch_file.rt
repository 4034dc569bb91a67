//! Where punched cards go: into a file, in the graphics of its chain, or nowhere.
ghost use Rattle.std.specs.Prelude.{◌≡◌, ◌<◌, ◌≤◌, false, IsTrue, length, map, take, IfOk, OnOk, OnErr};
ghost use Rattle.std.specs.Prelude.{option_and_then};
ghost use Rattle.std.specs.Io.KnownBytes.{Appends, Keeps};
ghost use Rattle.bcd_1401.specs.Graphics.{theirs_of};
ghost use Rattle.program_run.specs.RunDeck.{failed_of, in_graphics};

use bcd_1401::Graphics;
use bytes_streams::{Failed, Sink};

/// How many bytes are put into other graphics at once.
const AT_ONCE: usize = 4_096;

/// The file of the punched cards; without one they are only counted, and nothing fails. It receives bytes in this
/// machine's graphics, and its file has those of the chain.
#[derive(Drop)]
pub struct PunchFile<P> {
    /// The file, if there is one.
    pub file: Option<P>,
    /// The chain whose graphics it has.
    pub graphics: Graphics,
}

/// Fills a part with bytes in the graphics of a chain.
fn fill(part: &mut [u8], graphics: Graphics, bytes: &[u8])
    requires { length part.old ≡ length bytes.now }
    ensures { part.new ≡ map (theirs_of graphics) bytes.now }
{
    part.copy_from_slice(bytes);
    graphics.write_text(part);
}

/// Hands bytes to a sink in the graphics of a chain.
#[tactic(auto, using(crate::proofs::WrittenLemmas::handed_over, crate::proofs::WrittenLemmas::kept_back))]
fn put_on<P: Sink>(sink: &mut P, graphics: Graphics, bytes: &[u8]) -> Result<usize, Failed>
    requires { P.has_failed sink.old ≡ false }
    ensures most { IfOk result (λ n. n ≤ length bytes.now) }
    ensures some { IfOk result (λ n. 0 < length bytes.now → 0 < n) }
    ensures received { IfOk result (λ n. Appends (in_graphics graphics (P.received sink.old))
        (in_graphics graphics (P.received sink.new)) (take n bytes.now)) }
    ensures good { OnOk result (P.has_failed sink.new ≡ false) }
    ensures failed { OnErr result (IsTrue (P.has_failed sink.new)) }
    ensures err { OnErr result (Keeps (in_graphics graphics (P.received sink.old))
        (in_graphics graphics (P.received sink.new))) }
{
    let mut room = [0; AT_ONCE];
    let count = bytes.len().min(AT_ONCE);
    let part = &mut room[..count];
    fill(part, graphics, &bytes[..count]);
    match sink.put(part) {
        Ok(n) => Ok(n),
        Err(failed) => Err(failed),
    }
}

impl<P: Sink> Sink for PunchFile<P> {
    ghost received = { λ punch. in_graphics punch.graphics (option_and_then P.received punch.file) };

    ghost has_failed = { λ punch. failed_of P.has_failed punch.file };

    fn has_failed(&self) -> bool {
        match &self.file {
            Some(file) => file.has_failed(),
            None => false,
        }
    }

    fn put(&mut self, bytes: &[u8]) -> Result<usize, Failed> {
        match &mut self.file {
            Some(file) => put_on(file, self.graphics, bytes),
            None => Ok(bytes.len()),
        }
    }
}
