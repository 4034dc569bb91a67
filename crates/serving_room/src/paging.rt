//! The pages of a service: each at a port of its own, for a seat of its own.
ghost use Rattle.std.specs.Prelude.{◌≡◌, ◌<◌, ◌≤◌};

use crate::arrivals::{Asked, accept_arrivals};
use crate::crowd::{Crowd, MOST_INSIDE};
use crate::fault::SeatsFault;
use crate::ports::Listening;
use crate::room_pages::{PageOfRoom, Serving};
use crate::visits::Visits;
use crossbeam_channel::{Receiver, Sender, bounded};
use room_1401::{Keeper, RoomId, Seat, SharedRoom};
use serving_page::document::document;
use serving_page::{RoomShown, SeatPage, Site, TakenPage, answer_each, answer_page};
use std::alloc::AllocGlobal;
use std::random::RandomSource;
use std::sync::Wait;
use std::thread;
use std::thread::{Scope, Threads};
use std::time::Clock;

/// Where the page of a seat is served.
#[derive(Drop)]
pub struct PagePort {
    /// The number of its seat.
    pub seat: u8,
    /// The port on 127.0.0.1, as a browser names it, and the origin outside, if there is one.
    pub site: Site,
    /// The listener at that port.
    pub listening: Listening,
}

/// Starts the thread of each page. One of a seat that the room hasn't is not served, nor one whose thread is refused.
pub(crate) fn start_pages<'s, E: 's, J, H, K, R>(
    scope: &Scope<'s, E>,
    serving: &'s Serving<'s, J, R>,
    room: &'s SharedRoom<J, H, K>,
    pages: &'s [PagePort],
)
where
    J: RoomId + Send + Sync + 's,
    H: Wait + Drop + Send + Sync + 's,
    K: Keeper + Drop + Send + Sync + 's,
    R: Threads + Wait + Sync + Clock + AllocGlobal + RandomSource + 's,
{
    for port in pages {
        if port.seat < 1 || serving.service.seats() < port.seat {
            continue;
        }
        if scope
            .spawn(
                move ||
                    requires { (0 < port.now.seat) × (port.now.seat ≤ J.seats) }
                { serve_page(serving, room, port) },
            )
            .is_err()
        {
            serving.give_up(port, SeatsFault::Thread);
        }
    }
}

/// Serves a page until the room is being closed.
fn serve_page<J, H, K, R>(serving: &Serving<'_, J, R>, room: &SharedRoom<J, H, K>, port: &PagePort)
where
    J: RoomId + Send + Sync,
    H: Wait + Drop + Send + Sync,
    K: Keeper + Drop + Send + Sync,
    R: Threads + Wait + Sync + Clock + AllocGlobal + RandomSource,
    requires { (0 < port.now.seat) × (port.now.seat ≤ J.seats) }
{
    let alloc = serving.rt.alloc();
    let (Ok((asked, receiver)), Ok(crowd), Some(name)) = (
        bounded(alloc, MOST_INSIDE),
        Crowd::new(alloc),
        &serving.pages.name,
    ) else {
        serving.give_up(port, SeatsFault::Memory);
        return;
    };
    let page = PageOfRoom {
        serving,
        port,
        name,
        crowd: &crowd,
    };
    answer_all(room, &page, asked, receiver);
}

/// Answers the requests of a page, whose connections are accepted in a thread of their own.
fn answer_all<J, H, K, R>(
    room: &SharedRoom<J, H, K>,
    page: &PageOfRoom<'_, J, R>,
    asked: Sender<Asked>,
    receiver: Receiver<Asked>,
)
where
    J: RoomId + Send + Sync,
    H: Wait + Drop + Send + Sync,
    K: Keeper + Drop + Send + Sync,
    R: Threads + Wait + Sync + Clock + AllocGlobal + RandomSource,
    requires { (0 < page.now.port.now.seat) × (page.now.port.now.seat ≤ J.seats) }
{
    thread::scope(
        thread::scope_env(),
        page.serving.rt,
        move |scope|
            requires { (0 < page.now.port.now.seat) × (page.now.port.now.seat ≤ J.seats) }
        { accept_and_answer(scope, room, page, asked, receiver) },
    );
}

/// Accepts in a thread, and answers here.
fn accept_and_answer<'s, E: 's, J, H, K, R>(
    scope: &Scope<'s, E>,
    room: &'s SharedRoom<J, H, K>,
    page: &'s PageOfRoom<'s, J, R>,
    asked: Sender<Asked>,
    receiver: Receiver<Asked>,
)
where
    J: RoomId + Send + Sync + 's,
    H: Wait + Drop + Send + Sync + 's,
    K: Keeper + Drop + Send + Sync + 's,
    R: Threads + Wait + Sync + Clock + AllocGlobal + RandomSource + 's,
    requires { (0 < page.now.port.now.seat) × (page.now.port.now.seat ≤ J.seats) }
{
    let serving = page.serving;
    if scope.spawn(move || accept_arrivals(page, asked)).is_err() {
        serving.give_up(page.port, SeatsFault::Thread);
        return;
    }
    answer_visits(
        room,
        page,
        &mut Visits::new(serving.rt, serving.service, receiver),
    );
}

/// Answers the requests of a page one after the other. While a console sits at its seat, the page's text is served, and
/// all other requests are refused. A request that finds the seat free has it until it is answered; a visit has it for
/// all that follow.
fn answer_visits<J, H, K, R>(
    room: &SharedRoom<J, H, K>,
    page: &PageOfRoom<'_, J, R>,
    visits: &mut Visits<'_, J, R>,
)
where
    J: RoomId,
    H: Wait + Drop,
    K: Keeper + Drop,
    R: Wait + Clock + AllocGlobal + RandomSource,
    requires { (0 < page.now.port.now.seat) × (page.now.port.now.seat ≤ J.seats) }
{
    let rt = page.serving.rt;
    let service = page.serving.service;
    for _ in rt.forever() {
        if !visits.wait() {
            return;
        }
        match service.take_free(rt, page.port.seat) {
            Some(seat) => {
                let seats = service.seats();
                let seat = answer_at(room, page, seat, seats, visits);
                service.put_back(rt, seat);
            }
            None => {
                let mut taken = TakenPage::new(&page.port.site, &document());
                answer_each(rt, &mut taken, visits);
            }
        }
        visits.leave();
    }
}

/// Answers requests at the page of a seat, until the page gives the seat back.
fn answer_at<J, H, K, R>(
    room: &SharedRoom<J, H, K>,
    page: &PageOfRoom<'_, J, R>,
    seat: Seat<J>,
    seats: u8,
    visits: &mut Visits<'_, J, R>,
) -> Seat<J>
where
    J: RoomId,
    H: Wait + Drop,
    K: Keeper + Drop,
    R: Wait + Clock + AllocGlobal + RandomSource,
    requires seats { seats ≡ J.seats }
    requires seat { seat.number ≡ page.now.port.now.seat }
    ensures { result.number ≡ seat.number }
{
    let rt = page.serving.rt;
    let shown = RoomShown {
        seats,
        name: page.name.as_slice(),
    };
    let mut page = SeatPage::new(rt, room, seat, shown, &page.port.site, &document(), page);
    answer_page(rt, &mut page, visits);
    page.into_seat()
}
