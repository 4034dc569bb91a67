//! Rooms that listen on the loopback.
ghost use Rattle.std.specs.Prelude.{◌≡◌, ◌<◌};

use crate::rooms::show_room;
use crate::shared::show_not_started;
use crate::trial::Trial;
use console_1401::{Door, Served, serve as serve_seats};
use room_1401::{Opened, RoomId, SharedRoom};
use std::alloc::Global;
use std::io;
use std::io::{Read, Write};
use std::marker::Brand;
use std::net::{Ipv4Addr, Net, Shutdown, TcpListener, TcpStream};
use std::sync::Wait;
use std::sync::atomic::Ordering::SeqCst;
use std::sync::atomic::{AtomicBool, AtomicU64};
use std::thread::{Threads, yield_now};
use std::time::Clock;

/// How often a held console looks whether it may go on.
const TURNS: u32 = 1_000_000;

/// Holds the first line of each seat until that of the next seat is answered, for a while. The last seat isn't held.
#[derive(Drop)]
struct LastFirst {
    turn: AtomicU64,
    gave_up: AtomicBool,
}

impl Door for LastFirst {
    fn before(&self, seat: u8, line: u64) {
        for _ in 0..TURNS {
            if line != 1 || self.turn.load(SeqCst) == u64::from(seat) {
                return;
            }
            yield_now();
        }
        self.gave_up.store(true, SeqCst);
    }

    fn after(&self, seat: u8, line: u64) {
        if line == 1 {
            self.turn.store(u64::from(seat).saturating_sub(1), SeqCst);
        }
    }
}

/// A connection to the listener that has sent these lines, and sends nothing more.
fn send_lines<R: Net<Listener = TcpListener, Stream = TcpStream>>(
    rt: &R,
    listener: &TcpListener,
    lines: &str,
) -> io::Result<TcpStream> {
    let mut stream = TcpStream::connect(rt, listener.local_addr()?)?;
    stream.write_all(lines.as_bytes())?;
    stream.shutdown(Shutdown::Write)?;
    Ok(stream)
}

/// A listener, and a connection to it for each of these consoles, which has sent its lines.
fn listen<R: Net<Listener = TcpListener, Stream = TcpStream>>(
    rt: &R,
    alloc: Global,
    consoles: &[&str],
) -> io::Result<(TcpListener, Vec<TcpStream>)> {
    let listener = TcpListener::bind(rt, (Ipv4Addr::LOCALHOST, 0))?;
    let mut streams = Vec::new(alloc);
    for lines in consoles {
        streams.push(send_lines(rt, &listener, lines)?)?;
    }
    Ok((listener, streams))
}

/// Shows all that was sent back on a connection, or that it was reset.
fn show_replies(trial: &mut Trial, stream: &mut TcpStream) {
    let mut bytes = [0; 100];
    for _ in 0..100 {
        match stream.read(&mut bytes) {
            Ok(0) => break,
            Ok(count) => trial.put(&bytes[..count.min(100)]),
            Err(_) => {
                trial.tell("END by a reset");
                return;
            }
        }
    }
    trial.tell("END");
}

/// What is left of a room of this name that has served consoles from this listener, if it started.
fn serve_row<
    J: RoomId + Send + Sync,
    R: Threads + Wait + Sync + Clock + Net<Listener = TcpListener, Stream = TcpStream>,
>(
    rt: &R,
    trial: &mut Trial,
    opened: Opened,
    size: u16,
    seats: u8,
    listener: &TcpListener,
) -> Option<Served>
    requires history { opened.book ≡ J.book }
    requires ledger { (opened.ledger ≡ J.name) × (opened.parts ≡ J.parts) × (J.parts ≡ J.seats) }
    requires named { (size ≡ J.size) × (seats ≡ J.seats) }
    requires count { 0 < seats }
{
    let door = LastFirst {
        turn: AtomicU64::new(u64::from(seats)),
        gave_up: AtomicBool::new(false),
    };
    match SharedRoom::<J, &R>::power_on(rt, trial.alloc, size, seats, opened) {
        Ok((room, seats)) => {
            let served = serve_seats(trial.alloc, rt, room, seats, listener, &door);
            trial.show("gave up", &door.gave_up.load(SeqCst));
            Some(served)
        }
        Err(fault) => {
            show_not_started(trial, fault);
            None
        }
    }
}

/// Serves consoles that have sent their lines before the room listens. The first line of each is carried out when that of
/// the next one is answered. Shows how that ended, the replies, the journal and the machine.
pub fn serve<R: Threads + Wait + Sync + Clock + Net<Listener = TcpListener, Stream = TcpStream>>(
    rt: &R,
    trial: &mut Trial,
    size: u16,
    seats: u8,
    consoles: &[&str],
)
    requires { 0 < seats }
{
    match listen(rt, trial.alloc, consoles) {
        Ok((listener, mut streams)) => {
            let served = serve_row::<Brand, _>(
                rt,
                trial,
                Opened::new(seats),
                size,
                seats,
                &listener,
            );
            drop(listener);
            if let Some(
                Served {
                    room,
                    consoles,
                    fault,
                },
            ) = served
            {
                trial.tell(format_args!("CONSOLES {consoles} {fault:?}"));
                for stream in streams.as_mut_slice() {
                    show_replies(trial, stream);
                }
                show_room(trial, &room);
            }
        }
        Err(_) => trial.refuse("for connections"),
    }
}
