//! A keeper that writes the text of a journal to a sink.
ghost use Rattle.std.specs.Prelude.{◌≡◌, List, Option, ℕ};

use crate::writing::put_entry;
use bytes_streams::{Sink, put_all};
use bytes_text::Text;
use room_alone::{Entry, Keeper, Unkept};
use std::alloc::Global;
use std::marker::{Brand, PhantomData};

/// What a journal's sink had received before the journal. A function that keeps a journal is generic in it, and its
/// caller picks it.
pub trait Beginning {
    ghost use Rattle.std.specs.Prelude.{ℕ, List, Option};

    /// The bytes, if they are known.
    ghost first: { Option (List ℕ) };
}

impl Beginning for Brand {
    ghost use Rattle.std.specs.Prelude.{None};

    ghost first = { None };
}

/// Writes each entry as a line, by one write if the sink takes it whole. `J` says what the sink had before the
/// journal.
#[derive(Drop)]
pub struct TextKeeper<J: Beginning, S: Sink + Drop> {
    alloc: Global,
    sink: S,
    failed: bool,
    of: PhantomData<J>,
}

impl<J: Beginning, S: Sink + Drop> TextKeeper<J, S> {
    /// A keeper that adds lines to what this sink has.
    pub fn new(alloc: Global, sink: S) -> TextKeeper<J, S>
        ensures kept { ⟦<TextKeeper<J, S> as Keeper>⟧.kept result ≡ S.received sink }
        ensures failed { ⟦<TextKeeper<J, S> as Keeper>⟧.has_failed result ≡ S.has_failed sink }
    {
        let failed = sink.has_failed();
        TextKeeper {
            alloc,
            sink,
            failed,
            of: PhantomData,
        }
    }

    /// The sink.
    pub fn into_sink(self) -> S
        ensures received { S.received result ≡ ⟦<TextKeeper<J, S> as Keeper>⟧.kept self }
    {
        let TextKeeper { sink, .. } = self;
        sink
    }
}

impl<J: Beginning, S: Sink + Drop> Keeper for TextKeeper<J, S> {
    ghost use Rattle.room_files.specs.JournalText.{journal_form};

    ghost kept = { λ keeper. S.received keeper.sink };

    ghost first = { J.first };

    ghost has_failed = { λ keeper. keeper.failed };

    ghost form = { journal_form };

    fn has_failed(&self) -> bool {
        self.failed
    }

    fn keep(&mut self, number: u64, entry: &Entry) -> Result<(), Unkept> {
        let mut line = Text::new(self.alloc);
        put_entry(self.alloc, &mut line, number, entry);
        let Ok(line) = line.into_bytes() else {
            self.failed = true;
            return Err(Unkept);
        };
        if put_all(&mut self.sink, line.as_slice()).is_err() {
            self.failed = true;
            return Err(Unkept);
        }
        Ok(())
    }
}
