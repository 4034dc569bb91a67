//! A text that is written a page after the other, and keeps its first failure: so no writer has an early exit.

use bytes_streams::{Failed, PAGE, Sink, put_all, put_through};
use std::alloc::{AllocError, Global};
use std::marker::Model;

/// The page of a text that goes to a sink: what isn't written yet. It asks for no memory once it is made, and after a
/// failed write nothing more is written. Contracts see the list of its bytes.
#[derive(Drop)]
pub struct Pages {
    page: Vec<u8>,
}

impl Model for Pages {
    ghost use Rattle.std.specs.Prelude.{◌≤◌, ℕ, List, vec_capacity};
    ghost use Rattle.bytes_streams.specs.Page.{most_in_page};

    ghost Value = { List ℕ };

    ghost view = { λ pages. pages.page.items };

    ghost invariant = { λ pages. most_in_page ≤ vec_capacity pages.page };
}

impl Pages {
    ghost use Rattle.std.specs.Prelude.{◌≡◌, [], false, IsTrue, IfOk, OnOk, OnErr};
    ghost use Rattle.std.specs.Io.KnownBytes.{Appends};
    ghost use Rattle.bytes_streams.specs.Sink.{AppendsPart};
    ghost use Rattle.autocoder_listing.specs.Pages.{Puts};

    /// An empty page.
    ///
    /// # Errors
    ///
    /// If there is no room for it.
    pub fn new(alloc: Global) -> Result<Pages, AllocError>
        ensures { IfOk result (λ pages. pages ≡ []) }
    {
        Ok(Pages {
            page: Vec::with_capacity(alloc, PAGE)?,
        })
    }

    /// Adds bytes.
    #[tactic(auto, using(crate::proofs::PagesLemmas::puts_nothing, crate::proofs::PagesLemmas::puts_whole, crate::proofs::PagesLemmas::puts_part))]
    pub fn put<W: Sink>(&mut self, bytes: &[u8], writer: &mut W)
        ensures { Puts
            (record { received = W.received writer.old; has_failed = W.has_failed writer.old; page = self.old })
            (record { received = W.received writer.new; has_failed = W.has_failed writer.new; page = self.new })
            bytes.now }
    {
        if writer.has_failed() {
            return;
        }
        match put_through(&mut self.page, bytes, writer) {
            Ok(()) => {},
            Err(_) => {},
        }
    }

    /// Writes what isn't written yet.
    ///
    /// # Errors
    ///
    /// If a write has failed or fails, or takes nothing.
    pub fn end<W: Sink>(self, writer: &mut W) -> Result<(), Failed>
        ensures ok { OnOk result ((W.has_failed writer.old ≡ false)
            × Appends (W.received writer.old) (W.received writer.new) self) }
        ensures part { OnErr result (W.has_failed writer.old ≡ false
            → AppendsPart (W.received writer.old) (W.received writer.new) self) }
        ensures stays { IsTrue (W.has_failed writer.old) → W.received writer.new ≡ W.received writer.old }
        ensures failed { OnErr result (IsTrue (W.has_failed writer.new)) }
    {
        if writer.has_failed() {
            return Err(Failed);
        }
        put_all(writer, self.page.as_slice())
    }
}
