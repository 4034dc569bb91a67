//! A shared room that listens for its consoles.
ghost use Rattle.std.specs.Prelude.{◌≡◌, ◌<◌, ◌≤◌, ◌+◌, ◌^◌, length, vec_capacity, vec_len};
ghost use Rattle.room_alone.specs.Journal.{IsLegal};
ghost use Rattle.console_1401.specs.Served.{AreAllSeats, CountsConsoles, serve_fault_number};

use crate::ahead::ahead_of;
use crate::attending::attend;
use crate::door::Door;
use bytes_descriptors::{Pause, is_gone, linger, shut_down};
use bytes_streams::{FromReader, ToWriter};
use room_1401::{Room, RoomId, Seat, SharedRoom};
use std::alloc::Global;
use std::net::{TcpListener, TcpStream};
use std::sync::Wait;
use std::thread;
use std::thread::{JoinHandle, Scope, Threads};
use std::time::Clock;
use thiserror::Error;

/// Why a room stopped listening before each of its seats had a console.
#[derive(Clone, Copy, Debug, PartialEq, Eq, Error)]
pub enum ServeFault {
    /// 1: a connection couldn't be accepted.
    #[error("accept failed")]
    Accept = 1,
    /// 2: a thread was refused, or the memory to keep account of the threads.
    #[error("thread refused")]
    Thread = 2,
}

impl ServeFault {
    /// The number.
    pub fn number(self) -> u8
        ensures { result ≡ serve_fault_number self }
    {
        self as u8
    }
}

/// What is left of a shared room when its consoles have ended.
#[derive(Drop)]
pub struct Served {
    /// The room, with all that its consoles did.
    pub room: Room,
    /// How many consoles were attended.
    pub consoles: u8,
    /// Why there were fewer consoles than seats, if so.
    pub fault: Option<ServeFault>,
}

/// What the consoles leave: the seats that are back, and how many of them had a console.
#[derive(Drop)]
struct Consoles<J: RoomId> {
    seats: Vec<Seat<J>>,
    count: u8,
    fault: Option<ServeFault>,
}

/// Listens until each seat has a console, the first connection at the first seat, and attends each console in a thread
/// of its own. When all of them have ended, the room is closed; or it is abandoned, if a seat was lost with a thread
/// that was refused. After a fault no more connections are accepted, and the consoles that there are go on to the end.
/// A connection that was gone before it could be accepted is no fault: the next one is waited for.
pub fn serve<
    J: RoomId + Send + Sync,
    H: Wait + Drop + Send + Sync,
    R: Threads + Wait + Sync + Clock,
    D: Door + Sync,
>(
    alloc: Global,
    wait: &R,
    room: SharedRoom<J, H>,
    seats: Vec<Seat<J>>,
    listener: &TcpListener,
    door: &D,
) -> Served
    requires ledger { J.parts ≡ J.seats }

    // All of the room's seats are handed in, in the order of their numbers.
    requires seats { AreAllSeats J.seats seats.items }
    requires count { (0 < J.seats) × (J.seats < 2 ^ 8) }
    ensures size { result.room.size ≡ J.size }
    ensures legal { IsLegal J.size result.room.journal }
    ensures consoles { CountsConsoles J.seats result.consoles result.fault }
{
    let Consoles {
        seats,
        count,
        fault,
    } = attend_seats(alloc, wait, &room, seats, listener, door);
    Served {
        room: end_room(room, seats),
        consoles: count,
        fault,
    }
}

/// Closes a room, or abandons it if not all of its seats are back.
fn end_room<J: RoomId, H: Wait + Drop>(room: SharedRoom<J, H>, seats: Vec<Seat<J>>) -> Room
    requires { J.parts ≡ J.seats }
    ensures size { result.size ≡ J.size }
    ensures legal { IsLegal J.size result.journal }
{
    match room.close(seats) {
        Ok(room) => room,
        Err((room, _, _)) => room.abandon(),
    }
}

/// Attends a console at each seat, each in a thread of its own, until all of them have ended.
fn attend_seats<
    J: RoomId + Send + Sync,
    H: Wait + Drop + Send + Sync,
    R: Threads + Wait + Sync + Clock,
    D: Door + Sync,
>(
    alloc: Global,
    wait: &R,
    room: &SharedRoom<J, H>,
    seats: Vec<Seat<J>>,
    listener: &TcpListener,
    door: &D,
) -> Consoles<J>
    requires { (0 < length seats.items) × (length seats.items < 2 ^ 8) }
    ensures { CountsConsoles (length seats.items) result.count result.fault }
{
    thread::scope(
        thread::scope_env(),
        wait,
        move |scope| -> Consoles<J>
            requires { (0 < length seats.items) × (length seats.items < 2 ^ 8) }
            ensures { CountsConsoles (length seats.items) result.count result.fault }
        {
            let Started {
                threads,
                back,
                count,
                fault,
            } = start_each(scope, alloc, wait, room, seats, listener, door);
            Consoles {
                seats: join_each(wait, threads, back),
                count,
                fault,
            }
        },
    )
}

/// The threads that attend consoles, and the seats that have none.
#[derive(Drop)]
struct Started<J: RoomId> {
    threads: Vec<JoinHandle<Seat<J>>>,
    back: Vec<Seat<J>>,
    count: u8,
    fault: Option<ServeFault>,
}

/// Starts a thread for the console of each seat, as the connections come.
fn start_each<'s, E: 's, J, H, R, D>(
    scope: &Scope<'s, E>,
    alloc: Global,
    wait: &'s R,
    room: &'s SharedRoom<J, H>,
    seats: Vec<Seat<J>>,
    listener: &TcpListener,
    door: &'s D,
) -> Started<J>
where
    J: RoomId + Send + Sync + 's,
    H: Wait + Drop + Send + Sync + 's,
    R: Threads + Wait + Sync + Clock + 's,
    D: Door + Sync + 's,
    requires { (0 < length seats.items) × (length seats.items < 2 ^ 8) }
    ensures count { CountsConsoles (length seats.items) result.count result.fault }
    ensures capacity { vec_len result.threads + vec_len result.back ≤ vec_capacity result.back }
{
    let total = seats.len();
    let (Ok(mut threads), Ok(mut back)) = (
        Vec::with_capacity(alloc, total),
        Vec::with_capacity(alloc, total),
    ) else {
        return Started {
            threads: Vec::new(alloc),
            back: seats,
            count: 0,
            fault: Some(ServeFault::Thread),
        };
    };
    let mut count = 0;
    let mut fault = None;
    for seat in seats {
        if fault.is_some() {
            back.push_reserved(seat);
            continue;
        }
        let Some(stream) = accept(wait, listener) else {
            back.push_reserved(seat);
            fault = Some(ServeFault::Accept);
            continue;
        };
        match scope.spawn(move || attend_stream(alloc, wait, room, seat, stream, door)) {
            Ok(thread) => {
                threads.push_reserved(thread);
                count += 1;
            }
            Err(_) => fault = Some(ServeFault::Thread),
        }
    }
    refuse_after(listener, fault);
    Started {
        threads,
        back,
        count,
        fault,
    }
}

/// After a fault, whoever connects is refused, and doesn't wait.
fn refuse_after(listener: &TcpListener, fault: Option<ServeFault>) {
    if fault.is_some() {
        shut_down(listener);
    }
}

/// Waits for the next connection. One that was gone before it could be accepted is passed over; if one can't be
/// accepted for any other reason, there is none.
fn accept<R: Wait + Clock>(rt: &R, listener: &TcpListener) -> Option<TcpStream> {
    let mut pause = Pause::new();
    for _ in rt.forever() {
        match listener.accept() {
            Ok((stream, _)) => return Some(stream),
            Err(error) if is_gone(&error) => pause.sleep(rt),
            Err(_) => return None,
        }
    }
    unreachable!()
}

/// Waits for these threads, and adds their seats to those that are back.
fn join_each<J: RoomId + Send, R: Threads>(
    wait: &R,
    threads: Vec<JoinHandle<Seat<J>>>,
    back: Vec<Seat<J>>,
) -> Vec<Seat<J>>
    requires { vec_len threads + vec_len back ≤ vec_capacity back }
{
    let mut back = back;
    for thread in threads {
        back.push_reserved(thread.join(wait));
    }
    back
}

/// Attends the console of a connection. When it ends, the peer has a second to take its last replies.
fn attend_stream<J: RoomId, H: Wait + Drop, R: Wait + Clock, D: Door>(
    alloc: Global,
    wait: &R,
    room: &SharedRoom<J, H>,
    seat: Seat<J>,
    stream: TcpStream,
    door: &D,
) -> Seat<J> {
    // Replies are sent at once. If the system refuses this, they only come later.
    let _sent_at_once = stream.set_nodelay(true);
    let mut reader = FromReader::new(ahead_of(alloc, &stream));
    let mut writer = ToWriter::new(&stream);
    let (seat, _) = attend(alloc, wait, room, seat, &mut reader, &mut writer, door);
    linger(wait, &stream);
    seat
}
