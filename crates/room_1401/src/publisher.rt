//! The writer of what a shared room shows.
ghost use Rattle.std.specs.Prelude.{◌≡◌, ◌<◌, [], ◌∷◌, ◌++◌, drop, fold, IfOk, OnOk, OnErr};
ghost use Rattle.room_1401.specs.Rule.{Follows, Keeps, changed};

use crate::naming::RoomId;
use crate::published::{Change, Shown};
use crate::rule::{RoomReader, RoomWriter, Sees};
use core::mem::replace_with;
use left_right::writer::Writer;
use std::alloc::{AllocError, Global};
use std::sync::Wait;

/// The writer, with the handle by which its end waits for the readers.
pub struct Publisher<J: RoomId, R: Wait + Drop> {
    writer: RoomWriter<J>,
    rt: R,
}

impl<J: RoomId, R: Wait + Drop> Drop for Publisher<J, R> {
    fn drop(self) {
        let Self { writer, rt } = self;
        drop(writer.take(&rt));
    }
}

impl<J: RoomId, R: Wait + Drop> Publisher<J, R> {
    /// A writer over two states that are alike, with places for this number of readers.
    pub(crate) fn new(
        rt: R,
        alloc: Global,
        first: Shown,
        second: Shown,
        readers: u8,
    ) -> Result<Publisher<J, R>, AllocError>
        requires readers { 0 < readers }
        requires alike { first ≡ second }
        requires rule { Keeps J.book J.size first ([] ∷ []) }
        ensures shown { IfOk result (λ publisher. publisher.writer.desk.shown.value ≡ first) }
        ensures pending { IfOk result (λ publisher. drop publisher.writer.behind publisher.writer.log.items ≡ []) }
    {
        let writer = Writer::new(alloc, first, second, usize::from(readers))?;
        Ok(Publisher { writer, rt })
    }

    /// A reader, which has seen nothing.
    pub(crate) fn reader(&self) -> Result<RoomReader<J>, AllocError> {
        self.writer.factory().reader()
    }

    /// Appends a change to those that are pending.
    pub(crate) fn append(&mut self, change: Change) -> Result<(), Change>
        ensures shown { self.new.writer.desk.shown.value ≡ self.old.writer.desk.shown.value }
        ensures ok { OnOk result (drop self.new.writer.behind self.new.writer.log.items
            ≡ drop self.old.writer.behind self.old.writer.log.items ++ change ∷ []) }
        ensures err { OnErr result (drop self.new.writer.behind self.new.writer.log.items
            ≡ drop self.old.writer.behind self.old.writer.log.items) }
    {
        self.writer.append(change)
    }

    /// Shows the pending changes. It waits for those that still read the state from before.
    pub(crate) fn show(&mut self)
        requires { Follows J.book J.size self.old.writer.desk.shown.value
            (drop self.old.writer.behind self.old.writer.log.items) }
        ensures shown { self.new.writer.desk.shown.value
            ≡ fold changed self.old.writer.desk.shown.value (drop self.old.writer.behind self.old.writer.log.items) }
        ensures pending { drop self.new.writer.behind self.new.writer.log.items ≡ [] }
    {
        replace_with(&mut self.writer, &self.rt, show::<J, R>)
    }
}

/// Shows the pending changes. It waits for those that still read the state from before.
fn show<J: RoomId, R: Wait>(writer: RoomWriter<J>, rt: &R) -> (RoomWriter<J>, ())
    requires { Follows J.book J.size writer.desk.shown.value (drop writer.behind writer.log.items) }
    ensures shown { result.0.desk.shown.value
        ≡ fold changed writer.desk.shown.value (drop writer.behind writer.log.items) }
    ensures pending { drop result.0.behind result.0.log.items ≡ [] }
{
    let (writer, done) = writer.publish_as::<Sees<J>, R>(rt);
    match done {
        Ok(()) => (writer, ()),
        Err(_) => unreachable!(),
    }
}
