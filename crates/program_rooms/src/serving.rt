//! What the subcommand `serve` does.
ghost use Rattle.std.specs.Prelude.{◌≡◌};
ghost use Rattle.program_rooms.specs.Outcome.{service_outcome, start_fault};

use crate::HoldFault;
use crate::ending::tell_end;
use crate::entrances::listener_at;
use crate::fault::OpenFault;
use console_1401::{ServeFault, Served, serve};
use program_arguments::PlainService;
use room_1401::{Opened, RoomId, SharedRoom, StartFault};
use serving_room::TakingTurns;
use std::alloc::Global;
use std::marker::Brand;
use std::net::{Net, TcpListener, TcpStream};
use std::rt::Clock;
use std::sync::Wait;
use std::thread::Threads;

/// What a room that couldn't be opened means for the program. The command line asks for no other seats than 1 to 8, so
/// that there are places for their readers, or there are none.
pub(crate) fn start_fault(fault: StartFault) -> OpenFault
    ensures { result ≡ start_fault fault }
{
    match fault {
        StartFault::Size => OpenFault::Hold(HoldFault::Size),
        StartFault::Seats | StartFault::NoReader => OpenFault::NoReader,
        StartFault::Memory => OpenFault::Hold(HoldFault::Memory),
    }
}

/// What the end of the service means for the program.
///
/// # Errors
///
/// Where not each seat had its console.
fn service_outcome(fault: Option<ServeFault>) -> Result<(), OpenFault>
    ensures { result ≡ service_outcome fault }
{
    match fault {
        None => Ok(()),
        Some(ServeFault::Accept) => Err(OpenFault::Accept),
        Some(ServeFault::Thread) => Err(OpenFault::Thread),
    }
}

/// Opens a new machine to operators, a console for each seat, and reports on standard output when it listens, and at the
/// end how many commands the journal has.
///
/// # Errors
///
/// `NoReader`, or `Hold` with `Size` or `Memory`, if there is no such room; `Port` if the port is refused; `Hold` with
/// `Output` if standard output takes nothing; or `Accept` or `Thread` if not each seat had its console.
pub fn open_room<
    R: Threads
        + Wait
        + Sync
        + Clock
        + Print
        + AllocGlobal
        + Net<Listener = TcpListener, Stream = TcpStream>,
>(rt: &R, service: PlainService) -> Result<(), OpenFault> {
    serve_room::<Brand, R>(rt, rt.alloc(), service, Opened::new(service.seats))
}

/// The same for a room of this name.
fn serve_room<
    J: RoomId + Send + Sync,
    R: Threads + Wait + Sync + Clock + Print + Net<Listener = TcpListener, Stream = TcpStream>,
>(rt: &R, alloc: Global, service: PlainService, opened: Opened) -> Result<(), OpenFault>
    requires history { opened.book ≡ J.book }
    requires ledger { (opened.ledger ≡ J.name) × (opened.parts ≡ J.parts) × (J.parts ≡ J.seats) }
    requires named { (service.size ≡ J.size) × (service.seats ≡ J.seats) }
{
    let PlainService { size, seats, port } = service;
    match SharedRoom::<J, &R>::power_on(rt, alloc, size, seats, opened) {
        Ok((room, seats)) => {
            let listening = match listener_at(rt, port) {
                Ok(listening) => listening,
                Err(fault) => return Err(fault),
            };
            if println!(rt; "READY").is_err() {
                return Err(OpenFault::Hold(HoldFault::Output));
            }
            let door = TakingTurns::new(rt);
            let Served { room, fault, .. } = serve(
                alloc,
                rt,
                room,
                seats,
                listening.listener(),
                &door,
            );
            tell_end(rt, room.journal().len(), service_outcome(fault))
        }
        Err(fault) => Err(start_fault(fault)),
    }
}
