//! A room that operators share.
ghost use Rattle.std.specs.Prelude.{◌≡◌, ◌≢◌, ◌+◌, ◌<◌, ◌≤◌, ◌↔◌, ◌⊎◌, [], ◌∷◌, ◌++◌, true, false};
ghost use Rattle.std.specs.Prelude.{length, drop, vec_capacity, IfOk, IfErr, OnOk, OnErr};
ghost use Rattle.std.specs.Io.KnownBytes.{Appends};
ghost use mathlib.Core.List.{IsPrefix};
ghost use Rattle.core_1401.specs.Storage.{is_core_size};
ghost use Rattle.cpu_1401.specs.State.{power_on};
ghost use Rattle.room_1401.specs.Closing.{ClosesBy, IsSettled, back_of};
ghost use Rattle.room_alone.specs.Journal.{IsLegal, most_entries};
ghost use Rattle.room_alone.specs.Kept.{IsKeptAs, kept_text};
ghost use Rattle.room_alone.specs.Replay.{reply_to};
ghost use Rattle.room_1401.specs.Keeping.{AreAllShown, HasFailed, HasKept, NeverFails, SeesMore, kept_part};
ghost use Rattle.room_1401.specs.Rule.{Publishes};
ghost use Rattle.room_1401.specs.Seen.{Carries, most_seats, newcomers, own};

use crate::ahead::Spare;
use crate::closing::count_back;
use crate::fault::{CloseFault, StartFault};
use crate::history::{Opened, Reached, SeenPrefix};
use crate::locked::LockedRoom;
use crate::naming::RoomId;
use crate::published::{Change, Shown};
use crate::publisher::Publisher;
use crate::recording::Recorder;
use crate::seat::{Seat, Told};
use core_1401::CoreFault;
use cpu_1401::{Answer, Command, Machine};
use room_alone::{Carried, Keeper, NoKeeper, Room, RoomFault};
use std::alloc::Global;
use std::sync::ledger::Share;
use std::sync::{Mutex, Wait};

/// The most seats that a shared room has.
const MOST_SEATS: u8 = 8;

/// A room that operators share by its seats, under a lock. `J` names it, and `R` is the handle by which its end waits
/// for those that still read what it shows. `K` keeps its journal outside of it.
#[derive(Drop)]
pub struct SharedRoom<J: RoomId, R: Wait + Drop, K: Keeper + Drop = NoKeeper> {
    locked: Mutex<LockedRoom<J, R, K>>,
}

impl<J: RoomId, R: Wait + Drop> SharedRoom<J, R> {
    /// A room with a machine of this size at power-on and an empty journal, and its seats, numbered from 1 in order. It
    /// is made of what `Opened::new` opened for as many seats.
    ///
    /// # Errors
    ///
    /// `Size` if no core storage of that size is made, else `Seats` if there aren't from 1 to 8 of them, else `Memory`
    /// or `NoReader` if there is no room for it or for a seat's reader.
    pub fn power_on(
        rt: R,
        alloc: Global,
        size: u16,
        seats: u8,
        opened: Opened,
    ) -> Result<(SharedRoom<J, R>, Vec<Seat<J>>), StartFault>
        // The call picks `J` so that it names this room.
        requires history { opened.book ≡ J.book }
        requires ledger { (opened.ledger ≡ J.name) × (opened.parts ≡ J.parts) × (J.parts ≡ J.seats) }
        requires named { (size ≡ J.size) × (seats ≡ J.seats) }
        ensures seats { IfOk result (λ made. made.1.items ≡ newcomers seats) }
        ensures size { (result ≡ Err StartFault.Size) ↔ (is_core_size size ≡ false) }
        ensures count { (result ≡ Err StartFault.Seats)
            ↔ ((is_core_size size ≡ true) × ((seats ≡ 0) ⊎ (most_seats < seats))) }
    {
        SharedRoom::<J, R>::power_on_kept(rt, alloc, size, seats, opened, NoKeeper)
    }
}

impl<J: RoomId, R: Wait + Drop, K: Keeper + Drop> SharedRoom<J, R, K> {
    /// As `power_on`, of a room whose journal is kept outside of it. The keeper has the head of its text.
    ///
    /// # Errors
    ///
    /// As those of `power_on`. The keeper is dropped.
    pub fn power_on_kept(
        rt: R,
        alloc: Global,
        size: u16,
        seats: u8,
        opened: Opened,
        keeper: K,
    ) -> Result<(SharedRoom<J, R, K>, Vec<Seat<J>>), StartFault>
        requires history { opened.book ≡ J.book }
        requires ledger { (opened.ledger ≡ J.name) × (opened.parts ≡ J.parts) × (J.parts ≡ J.seats) }
        requires named { (size ≡ J.size) × (seats ≡ J.seats) }
        requires good { K.has_failed keeper ≡ false }
        requires kept { Appends K.first (K.kept keeper) (kept_text K.form size []) }
        ensures seats { IfOk result (λ made. made.1.items ≡ newcomers seats) }
        ensures size { (result ≡ Err StartFault.Size) ↔ (is_core_size size ≡ false) }
        ensures count { (result ≡ Err StartFault.Seats)
            ↔ ((is_core_size size ≡ true) × ((seats ≡ 0) ⊎ (most_seats < seats))) }
    {
        let room = open_room(alloc, size, seats)?;
        let (head, front, total, mut whole) = opened.named::<J>();
        let (publisher, made) = open_seats(rt, alloc, &front, &mut whole, size, seats)?;
        let spare = Spare::new(alloc);
        let recorder = Recorder::new(room, head, front, publisher, keeper, spare);
        let locked = LockedRoom::new(recorder, total, whole, seats);
        let locked = Mutex::new(locked);
        Ok((SharedRoom { locked }, made))
    }

    /// As `command`, and keeps the entry before the answer may go out. If it couldn't be kept, the command isn't shown:
    /// no seat sees it, this one included, and no later command is taken.
    ///
    /// # Errors
    ///
    /// `NoReading` as those of `command`; else `Unkept` if an earlier entry wasn't kept; else as those of `command`.
    /// The room's journal and machine are as they were, and so is what is kept.
    pub fn command_kept<W: Wait>(
        &self,
        wait: &W,
        seat: &mut Seat<J>,
        command: Command,
    ) -> Result<Carried, RoomFault>
        ensures number { seat.new.number ≡ seat.old.number }
        ensures grows { IsPrefix seat.old.list seat.new.list }
        ensures own { OnOk result (seat.new.made ≤ own seat.new.number seat.new.list) }

        // If the entry is kept, the seat has seen its command, and made one more.
        ensures carried { IfOk result (λ carried. carried.kept ≡ true
            → Carries J.size seat.old.list seat.new.list seat.old.number command carried.answer) }
        ensures made { IfOk result (λ carried. carried.kept ≡ true → seat.new.made ≡ seat.old.made + 1) }

        // If it isn't, a write has failed, and the seat made no more. The answer, which must not go out, is the machine's
        // after all that the seat has seen.
        ensures unkept { IfOk result (λ carried. carried.kept ≡ false
            → HasFailed K.has_failed K.kept K.first K.form J.size seat.new.list) }
        ensures same { IfOk result (λ carried. carried.kept ≡ false → seat.new.made ≡ seat.old.made) }
        ensures answered { IfOk result (λ carried. carried.kept ≡ false
            → carried.answer ≡ reply_to J.size seat.new.list command) }

        // In both cases a keeper had the text of the journal of all that the seat has then seen.
        ensures kept { OnOk result (HasKept K.has_failed K.kept K.first K.form J.size seat.new.list) }

        // After a refusal the seat made no more.
        ensures err { OnErr result (seat.new.made ≡ seat.old.made) }
        ensures failed { result ≡ Err RoomFault.Unkept
            → HasFailed K.has_failed K.kept K.first K.form J.size seat.new.list }
        ensures full { result ≡ Err RoomFault.JournalFull → length seat.new.list ≡ most_entries }

        // A full journal is never reported as refused memory.
        ensures memory { result ≡ Err RoomFault.Memory → length seat.new.list < most_entries }

        // There is no reading only for a seat that had seen more than is shown, and it has learnt nothing then.
        ensures no_reading { result ≡ Err RoomFault.NoReading → (seat.new.list ≡ seat.old.list)
            × SeesMore K.has_failed K.kept K.first K.form J.size seat.old.list }
    {
        let carried = self.locked.lock(wait).carry(seat, command);
        let _made = seat.made();
        carried
    }

    /// Carries a command out for a seat, and records it with its answer. The seat has then seen the journal up to it.
    ///
    /// # Errors
    ///
    /// `NoReading` if the seat has seen more than the journal has, which doesn't happen while seats and room are of one
    /// `power_on`; else `Unkept` if its entry or an earlier one wasn't kept, which no keeper that never fails has; else
    /// `JournalFull` if the journal has its 100,000 entries, else `Memory` if there is no room for one more. The room's
    /// journal and machine are as they were, but for a command whose entry wasn't kept.
    pub fn command<W: Wait>(
        &self,
        wait: &W,
        seat: &mut Seat<J>,
        command: Command,
    ) -> Result<Answer, RoomFault>
        ensures carried { IfOk result (λ answer.
            Carries J.size seat.old.list seat.new.list seat.old.number command answer) }
        ensures made { OnOk result (seat.new.made ≡ seat.old.made + 1) }
        ensures own { OnOk result (seat.new.made ≤ own seat.new.number seat.new.list) }
        ensures number { seat.new.number ≡ seat.old.number }

        // After a refusal the seat made no more, and it has seen no less.
        ensures err { OnErr result (seat.new.made ≡ seat.old.made) }
        ensures grows { IsPrefix seat.old.list seat.new.list }
        ensures full { result ≡ Err RoomFault.JournalFull → length seat.new.list ≡ most_entries }

        // A full journal is never reported as refused memory, and nothing as unkept by a keeper that never fails.
        ensures memory { result ≡ Err RoomFault.Memory → length seat.new.list < most_entries }
        ensures failed { result ≡ Err RoomFault.Unkept
            → HasFailed K.has_failed K.kept K.first K.form J.size seat.new.list }
        ensures unkept { NeverFails K.has_failed → result ≢ Err RoomFault.Unkept }

        // There is no reading only for a seat that had seen more than is shown, and it has learnt nothing then.
        ensures no_reading { result ≡ Err RoomFault.NoReading → (seat.new.list ≡ seat.old.list)
            × SeesMore K.has_failed K.kept K.first K.form J.size seat.old.list }
    {
        match self.command_kept(wait, seat, command) {
            Ok(Carried { answer, kept: true }) => Ok(answer),
            Ok(Carried { kept: false, .. }) => Err(RoomFault::Unkept),
            Err(fault) => Err(fault),
        }
    }

    /// A note of what the seat has then seen: all commands whose entries are kept.
    ///
    /// # Errors
    ///
    /// `NoReading`, as in `command`.
    pub fn tell<W: Wait>(&self, wait: &W, seat: &mut Seat<J>) -> Result<Told<J>, RoomFault>
        ensures number { seat.new.number ≡ seat.old.number }
        ensures made { seat.new.made ≡ seat.old.made }
        ensures grows { IsPrefix seat.old.list seat.new.list }
        ensures told { IfOk result (λ told. told ≡ seat.new.list) }

        // These are all commands that are shown at some moment of the call.
        ensures shown { IfOk result (λ told. AreAllShown K.has_failed K.kept K.first K.form J.size told) }
        ensures err { OnErr result ((result ≡ Err RoomFault.NoReading) × (seat.new.list ≡ seat.old.list)
            × SeesMore K.has_failed K.kept K.first K.form J.size seat.old.list) }
    {
        self.locked.lock(wait).note(seat)
    }

    /// The room, without its seats. Those that are kept back may still glance, until nothing is shown any more.
    pub fn abandon(self) -> Room
        ensures size { result.size ≡ J.size }
        ensures legal { IsLegal J.size result.journal }
    {
        let (room, _keeper) = self.abandon_kept();
        room
    }

    /// As `abandon`, and gives the keeper: what is kept is the text of the journal, or breaks off in the last line
    /// after a failed write.
    pub fn abandon_kept(self) -> (Room, K)
        ensures size { result.0.size ≡ J.size }
        ensures legal { IsLegal J.size result.0.journal }
        ensures kept { IsKeptAs K.form J.size result.0.journal (K.has_failed result.1) K.first (K.kept result.1) }
    {
        let SharedRoom { locked } = self;
        locked.into_inner().into_room()
    }

    /// The room, with all its seats back.
    ///
    /// # Errors
    ///
    /// `Unreturned` if a number of the room's seats has no seat among them, else `NoReading`, as in `command`. The
    /// room comes back, with the seats as they were.
    pub fn close(
        self,
        seats: Vec<Seat<J>>,
    ) -> Result<Room, (SharedRoom<J, R, K>, Vec<Seat<J>>, CloseFault)>
        requires { J.parts ≡ J.seats }
        ensures size { IfOk result (λ room. room.size ≡ J.size) }
        ensures legal { IfOk result (λ room. IsLegal J.size room.journal) }

        // If the keeper never fails, each of the journal's commands is shown.
        ensures settled { IfOk result (λ room. NeverFails K.has_failed → IsSettled room.journal seats.items) }
        ensures back { OnOk result (back_of J.seats seats.items ≡ J.seats) }
        ensures seats { IfErr result (λ back. back.1.items ≡ seats.items) }
        ensures fault { IfErr result (λ back.
            ClosesBy (AreAllShown K.has_failed K.kept K.first K.form J.size) J.seats seats.items back.2) }
    {
        match self.close_kept(seats) {
            Ok((room, _keeper)) => Ok(room),
            Err(back) => Err(back),
        }
    }

    /// As `close`, and gives the keeper: what is kept is the text of the journal, or breaks off in the last line after
    /// a failed write. The command of that last line is none that a seat made.
    ///
    /// # Errors
    ///
    /// As those of `close`.
    pub fn close_kept(
        self,
        seats: Vec<Seat<J>>,
    ) -> Result<(Room, K), (SharedRoom<J, R, K>, Vec<Seat<J>>, CloseFault)>
        requires { J.parts ≡ J.seats }
        ensures size { IfOk result (λ closed. closed.0.size ≡ J.size) }
        ensures legal { IfOk result (λ closed. IsLegal J.size closed.0.journal) }
        ensures settled { IfOk result (λ closed.
            IsSettled (kept_part (K.has_failed closed.1) closed.0.journal) seats.items) }
        ensures kept { IfOk result (λ closed.
            IsKeptAs K.form J.size closed.0.journal (K.has_failed closed.1) K.first (K.kept closed.1)) }
        ensures back { OnOk result (back_of J.seats seats.items ≡ J.seats) }
        ensures seats { IfErr result (λ back. back.1.items ≡ seats.items) }
        ensures fault { IfErr result (λ back.
            ClosesBy (AreAllShown K.has_failed K.kept K.first K.form J.size) J.seats seats.items back.2) }
    {
        let SharedRoom { locked } = self;
        let locked = locked.into_inner();
        let total = locked.seats();
        let back = count_back(seats.as_slice(), total);
        if back < total {
            let fault = CloseFault::Unreturned { back, total };
            return Err((
                SharedRoom {
                    locked: Mutex::new(locked),
                },
                seats,
                fault,
            ));
        }
        if !locked.knows(seats.as_slice()) {
            let fault = CloseFault::NoReading;
            return Err((
                SharedRoom {
                    locked: Mutex::new(locked),
                },
                seats,
                fault,
            ));
        }
        Ok(locked.settle(seats))
    }
}

/// A room at power-on, if there are to be from 1 to 8 seats.
fn open_room(alloc: Global, size: u16, seats: u8) -> Result<Room, StartFault>
    ensures room { IfOk result (λ room. (room.size ≡ size) × (room.journal ≡ [])) }
    ensures seats { OnOk result (0 < seats) }
    ensures size { (result ≡ Err StartFault.Size) ↔ (is_core_size size ≡ false) }
    ensures count { (result ≡ Err StartFault.Seats)
        ↔ ((is_core_size size ≡ true) × ((seats ≡ 0) ⊎ (most_seats < seats))) }
{
    let room = match Room::power_on(alloc, size) {
        Ok(room) => Some(room),
        Err(CoreFault::Size) => return Err(StartFault::Size),
        Err(CoreFault::Memory) => None,
    };
    if seats < 1 || MOST_SEATS < seats {
        return Err(StartFault::Seats);
    }
    let Some(room) = room else {
        return Err(StartFault::Memory);
    };
    Ok(room)
}

/// The writer over two machines at power-on, with a change that does nothing pending. So its list of changes has grown,
/// and no command grows it again.
fn open_publisher<J: RoomId, R: Wait + Drop>(
    rt: R,
    alloc: Global,
    size: u16,
    token: Reached,
    readers: u8,
) -> Result<Publisher<J, R>, StartFault>
    requires token { (token.log ≡ []) × (token.book ≡ J.book) }
    requires size { size ≡ J.size }
    requires readers { 0 < readers }
    ensures shown { IfOk result (λ publisher. publisher.writer.desk.shown.value.front.log ≡ []) }
    ensures published { IfOk result (λ publisher. Publishes J.book J.size publisher.writer.desk.shown.value
        (drop publisher.writer.behind publisher.writer.log.items) []) }
    ensures err { OnErr result (result ≡ Err StartFault.Memory) }
{
    let Ok(first) = at_power_on(alloc, size, &token) else {
        return Err(StartFault::Memory);
    };
    let Ok(second) = at_power_on(alloc, size, &token) else {
        return Err(StartFault::Memory);
    };
    let Ok(mut publisher) = Publisher::new(rt, alloc, first, second, readers) else {
        return Err(StartFault::Memory);
    };
    let change = Change {
        command: None,
        outcome: None,
        count: 0,
        front: token,
    };
    let Ok(()) = publisher.append(change) else {
        return Err(StartFault::Memory);
    };
    Ok(publisher)
}

/// A machine at power-on, as readers are shown it.
fn at_power_on(alloc: Global, size: u16, token: &Reached) -> Result<Shown, CoreFault>
    ensures machine { IfOk result (λ shown. shown.machine ≡ power_on size) }
    ensures count { IfOk result (λ shown. shown.count ≡ 0) }
    ensures front { IfOk result (λ shown. shown.front ≡ token.now) }
{
    Ok(Shown {
        machine: Machine::power_on(alloc, size)?,
        count: 0,
        front: token.again(),
    })
}

/// The writer of a new room and its seats, each with a part of the ledger and a reader.
fn open_seats<J: RoomId, R: Wait + Drop>(
    rt: R,
    alloc: Global,
    front: &SeenPrefix<J>,
    whole: &mut Share<J>,
    size: u16,
    total: u8,
) -> Result<(Publisher<J, R>, Vec<Seat<J>>), StartFault>
    requires front { front.now ≡ [] }
    requires whole { (whole.old.parts ≡ total) × (whole.old.amount ≡ 0) }
    requires size { size ≡ J.size }
    requires seats { 0 < total }
    ensures shown { IfOk result (λ made. made.0.writer.desk.shown.value.front.log ≡ []) }
    ensures published { IfOk result (λ made. Publishes J.book J.size made.0.writer.desk.shown.value
        (drop made.0.writer.behind made.0.writer.log.items) []) }
    ensures seats { IfOk result (λ made. made.1.items ≡ newcomers total) }
    ensures whole { OnOk result ((whole.new.parts ≡ 0) × (whole.new.amount ≡ 0)) }
    ensures err { OnErr result ((result ≢ Err StartFault.Size) × (result ≢ Err StartFault.Seats)) }
{
    let publisher = open_publisher::<J, R>(rt, alloc, size, front.token(), total)?;
    let Ok(mut seats) = Vec::with_capacity(alloc, usize::from(total)) else {
        return Err(StartFault::Memory);
    };
    if !fill_seats(&mut seats, &publisher, front, whole, size, total) {
        return Err(StartFault::NoReader);
    }
    Ok((publisher, seats))
}

/// Fills in the seats of a new room, each with a part of the ledger and a reader. False if there is no place for a
/// reader.
fn fill_seats<J: RoomId, R: Wait + Drop>(
    seats: &mut Vec<Seat<J>>,
    publisher: &Publisher<J, R>,
    front: &SeenPrefix<J>,
    whole: &mut Share<J>,
    size: u16,
    total: u8,
) -> bool
    requires seats { (seats.old.items ≡ []) × (total ≤ vec_capacity seats.old) }
    requires front { front.now ≡ [] }
    requires whole { (whole.old.parts ≡ total) × (whole.old.amount ≡ 0) }
    requires size { size ≡ J.size }
    ensures seats { result ≡ true → seats.new.items ≡ newcomers total }
    ensures whole { result ≡ true → (whole.new.parts ≡ 0) × (whole.new.amount ≡ 0) }
{
    for number in 0..total {
        let Ok(reader) = publisher.reader() else {
            return false;
        };
        let share = whole.split_off(1, 0);
        seats.push_reserved(Seat::new(number + 1, size, share, front.again(), reader));
    }
    true
}
