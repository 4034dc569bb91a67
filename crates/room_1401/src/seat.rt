//! A seat: what one operator holds of a shared room.
ghost use Rattle.std.specs.Prelude.{◌≡◌, ◌+◌, ◌<◌, ◌≤◌, ◌↔◌, true, false, ltb, length, IfOk, IfSome, OnOk, OnErr};
ghost use Rattle.std.specs.Prelude.{if◌then◌else◌};
ghost use mathlib.Core.List.{IsPrefix};
ghost use Rattle.room_alone.specs.Journal.{most_entries};
ghost use Rattle.room_1401.specs.Picture.{picture_after, window_cells};
ghost use Rattle.room_alone.specs.Replay.{cell_after};
ghost use Rattle.room_1401.specs.Seen.{own};

use crate::history::{Reached, SeenPrefix};
use crate::naming::RoomId;
use crate::picture::{Picture, WINDOW_CELLS, Window, picture_of};
use crate::rule::{RoomReader, Sees};
use bcd_1401::Cell;
use core::mem::replace_with;
use room_alone::{Glance, GlanceFault};
use std::marker::Model;
use std::sync::ledger::{Book, Share};

/// A cell as it is published.
#[derive(Drop)]
struct PublishedCell {
    /// After how many commands.
    count: u64,
    /// The cell.
    cell: Cell,
    /// After which commands.
    front: Reached,
}

/// Reads a cell of the published machine; `None` once nothing is published any more.
fn read_published<J: RoomId>(
    reader: RoomReader<J>,
    address: u16,
) -> (RoomReader<J>, Option<PublishedCell>)
    requires { address < J.size }
    ensures book { IfSome result.1 (λ found. found.front.book ≡ J.book) }
    ensures count { IfSome result.1 (λ found. found.count ≡ length found.front.log) }
    ensures bound { IfSome result.1 (λ found. found.count ≤ most_entries) }
    ensures cell { IfSome result.1 (λ found. found.cell ≡ cell_after J.size found.front.log address) }
{
    match reader.enter_as::<Sees<J>>() {
        Ok(reading) => {
            let shown = reading.get();
            let found = PublishedCell {
                count: shown.count,
                cell: shown.machine.core().get(address),
                front: shown.front.again(),
            };
            (reading.leave(), Some(found))
        }
        Err(reader) => (reader, None),
    }
}

/// A picture of what is published.
#[derive(Drop)]
struct PublishedPicture {
    /// The picture.
    picture: Picture,
    /// After which commands.
    front: Reached,
}

/// Takes a picture of the published machine; `None` once nothing is published any more.
fn read_picture<J: RoomId>(
    reader: RoomReader<J>,
    window: Window,
) -> (RoomReader<J>, Option<PublishedPicture>)
    requires { window.core + window_cells ≤ J.size }
    ensures book { IfSome result.1 (λ found. found.front.book ≡ J.book) }
    ensures bound { IfSome result.1 (λ found. length found.front.log ≤ most_entries) }
    ensures picture { IfSome result.1 (λ found. found.picture ≡ picture_after J.size found.front.log window) }
{
    match reader.enter_as::<Sees<J>>() {
        Ok(reading) => {
            let shown = reading.get();
            let found = PublishedPicture {
                picture: picture_of(&shown.machine, shown.count, window),
                front: shown.front.again(),
            };
            (reading.leave(), Some(found))
        }
        Err(reader) => (reader, None),
    }
}

/// A note of what a seat has seen, for another seat of the same room. Contracts see those commands, oldest first.
#[derive(Drop)]
pub struct Told<J: RoomId> {
    front: SeenPrefix<J>,
}

impl<J: RoomId> Model for Told<J> {
    ghost use Rattle.std.specs.Prelude.{List};
    ghost use Rattle.room_alone.specs.declared.entry.SeatedCommand.{SeatedCommand};

    ghost Value = { List SeatedCommand };

    ghost view = { λ told. told.front };
}

impl<J: RoomId> Told<J> {
    /// The note of these commands.
    pub(crate) fn new(front: SeenPrefix<J>) -> Told<J>
        ensures { result ≡ front }
    {
        Told { front }
    }
}

/// A seat. Contracts see its number, how many of its commands were carried out, and the commands that it has seen.
#[derive(Drop)]
pub struct Seat<J: RoomId> {
    number: u8,
    size: u16,
    made: u64,
    share: Share<J>,
    front: SeenPrefix<J>,
    reader: RoomReader<J>,
}

impl<J: RoomId> Model for Seat<J> {
    ghost use Rattle.std.specs.Prelude.{◌≡◌, ◌≤◌};
    ghost use Rattle.room_1401.specs.Seen.{SeatView, own};

    ghost Value = { SeatView };

    ghost view = { λ seat. record { number = seat.number; made = seat.made; list = seat.front } };

    ghost invariant = { λ seat.
        (seat.share.amount ≡ seat.made)
        × (seat.share.parts ≡ 1)
        × (seat.size ≡ J.size)
        × (seat.made ≤ own seat.number seat.front) };
}

impl<J: RoomId> Seat<J> {
    /// A seat that made nothing.
    pub(crate) fn new(
        number: u8,
        size: u16,
        share: Share<J>,
        front: SeenPrefix<J>,
        reader: RoomReader<J>,
    ) -> Seat<J>
        requires share { (share.amount ≡ 0) × (share.parts ≡ 1) }
        requires size { size ≡ J.size }
        ensures { (result.number ≡ number) × (result.made ≡ 0) × (result.list ≡ front) }
    {
        Seat {
            number,
            size,
            made: 0,
            share,
            front,
            reader,
        }
    }

    /// Its number, from 1.
    pub fn number(&self) -> u8
        ensures { result ≡ self.now.number }
    {
        self.number
    }

    /// How many of its commands were carried out.
    pub fn made(&self) -> u64
        ensures made { result ≡ self.now.made }
        ensures own { self.now.made ≤ own self.now.number self.now.list }

        // It has seen no more commands than a journal takes.
        ensures bound { length self.now.list ≤ most_entries }
    {
        let _share = &self.share;
        let _len = self.front.len();
        self.made
    }

    /// How many commands it has seen, its own and those of other seats: the first of the journal, as many as this.
    pub fn len(&self) -> u64
        ensures { result ≡ length self.now.list }
    {
        self.front.len()
    }

    /// Brings the seat up to date with these commands.
    pub(crate) fn see(&mut self, front: &SeenPrefix<J>)
        ensures same { (self.new.number ≡ self.old.number) × (self.new.made ≡ self.old.made) }
        ensures is { self.new.list
            ≡ (if ltb (length self.old.list) (length front.now) then front.now else self.old.list) }
        ensures this { IsPrefix self.old.list self.new.list }
        ensures that { IsPrefix front.now self.new.list }
        ensures own { self.new.made ≤ own self.new.number self.new.list }
    {
        self.front = self.front.longer(front);
    }

    /// Brings the seat up to date with a note. It waits for nobody.
    pub fn learn(&mut self, told: Told<J>)
        ensures number { self.new.number ≡ self.old.number }
        ensures made { self.new.made ≡ self.old.made }

        // What it has seen goes on from its own list and from the note's.
        ensures grows { IsPrefix self.old.list self.new.list }
        ensures learnt { IsPrefix told self.new.list }
    {
        self.see(&told.front);
    }

    /// The cell at an address of the published machine, which is no older than what this seat has seen. It waits for
    /// nobody, and isn't recorded.
    ///
    /// # Errors
    ///
    /// `Range` if the address isn't in core, else `Gone` if nothing is published any more.
    pub fn glance(&mut self, address: u16) -> Result<Glance, GlanceFault>
        ensures range { (result ≡ Err GlanceFault.Range) ↔ (J.size ≤ address) }
        ensures number { self.new.number ≡ self.old.number }
        ensures made { self.new.made ≡ self.old.made }

        // It shows the cell after a list of commands that goes on from what the seat had seen.
        ensures grows { OnOk result (IsPrefix self.old.list self.new.list) }
        ensures after { IfOk result (λ glance. glance.after ≡ length self.new.list) }
        ensures cell { IfOk result (λ glance. glance.cell ≡ cell_after J.size self.new.list address) }
        ensures err { OnErr result (self.new ≡ self.old) }
    {
        if address >= self.size {
            return Err(GlanceFault::Range);
        }
        let Some(found) = replace_with(&mut self.reader, address, read_published::<J>) else {
            return Err(GlanceFault::Gone);
        };
        if found.count < self.front.len() {
            return Err(GlanceFault::Gone);
        }
        let front = SeenPrefix::of_token(found.count, &found.front);
        self.front = self.front.longer(&front);
        Ok(Glance {
            after: found.count,
            cell: found.cell,
        })
    }

    /// A picture of the published machine, which is no older than what this seat has seen. It waits for nobody, and
    /// isn't recorded.
    ///
    /// # Errors
    ///
    /// `Range` if the window isn't in core, else `Gone` if nothing is published any more.
    pub fn picture(&mut self, window: Window) -> Result<Picture, GlanceFault>
        ensures range { (result ≡ Err GlanceFault.Range) ↔ (J.size < window.core + window_cells) }
        ensures number { self.new.number ≡ self.old.number }
        ensures made { self.new.made ≡ self.old.made }

        // All of it is as after one list of commands, which goes on from what the seat had seen.
        ensures grows { OnOk result (IsPrefix self.old.list self.new.list) }
        ensures picture { IfOk result (λ picture. picture ≡ picture_after J.size self.new.list window) }
        ensures err { OnErr result (self.new ≡ self.old) }
    {
        if usize::from(window.core) + WINDOW_CELLS > usize::from(self.size) {
            return Err(GlanceFault::Range);
        }
        let Some(found) = replace_with(&mut self.reader, window, read_picture::<J>) else {
            return Err(GlanceFault::Gone);
        };
        if found.picture.after < self.front.len() {
            return Err(GlanceFault::Gone);
        }
        let front = SeenPrefix::of_token(found.picture.after, &found.front);
        self.front = self.front.longer(&front);
        Ok(found.picture)
    }

    /// One more of its commands, which it has seen, was carried out.
    pub(crate) fn credit(&mut self, total: &mut Book<J>)
        requires { self.old.made < own self.old.number self.old.list }
        ensures same { (self.new.number ≡ self.old.number) × (self.new.list ≡ self.old.list) }
        ensures made { self.new.made ≡ self.old.made + 1 }
        ensures total { total.new.total ≡ total.old.total + 1 }
    {
        let _len = self.front.len();
        total.add(&mut self.share, 1);
        self.made += 1;
    }

    /// Whether it has seen no more than these commands; what it has seen is then a prefix of them.
    pub(crate) fn fits(&self, front: &SeenPrefix<J>) -> bool
        ensures fits { result ≡ true
            → IsPrefix self.now.list front.now × (self.now.made ≤ own self.now.number front.now) }
        ensures longer { result ≡ false → length front.now < length self.now.list }
    {
        let _both = self.front.longer(front);
        if self.front.len() > front.len() {
            return false;
        }
        true
    }

    /// Its part of the ledger, which has what it made.
    pub(crate) fn into_share(self) -> Share<J>
        ensures share { (result.amount ≡ self.made) × (result.parts ≡ 1) }
        ensures own { self.made ≤ own self.number self.list }
    {
        let Seat {
            number: _,
            size: _,
            made: _,
            share,
            front: _,
            reader: _,
        } = self;
        share
    }
}
