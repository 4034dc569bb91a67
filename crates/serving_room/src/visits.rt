//! The requests of a page, as they are answered at its seat, and how long it keeps the seat.

use crate::arrivals::Asked;
use crate::service::SeatService;
use crossbeam_channel::{Receiver, RecvTimeoutError, Sender};
use room_1401::RoomId;
use serving_page::{Requests, WholeRequest, is_accepted};
use std::sync::Wait;
use std::sync::atomic::Ordering::SeqCst;
use std::time::{Clock, Duration, Instant};

/// After how many seconds without a visit a page gives its seat back, if all others are taken.
const MOST_IDLE: u64 = 60;

/// How often it looks whether they are, in seconds.
const LOOK: u64 = 1;

/// The requests that wait at a page. A page keeps its seat from the first visit on that is accepted: a request for a
/// picture, or one that brings a line, from the page itself.
#[derive(Drop)]
pub(crate) struct Visits<'a, J: RoomId, R: Wait + Clock> {
    rt: &'a R,
    service: &'a SeatService<J>,
    asked: Receiver<Asked>,
    // The request that is answered next.
    next: Option<Asked>,
    // Whether the request that is being answered is a visit, and where its answer goes.
    current: Option<(bool, Sender<Vec<u8>>)>,
    // When the last visit was accepted, if the page keeps its seat.
    visited: Option<Instant>,
    // An answer that is sent once the page has given its seat back, and where it goes.
    kept_back: Option<(Vec<u8>, Sender<Vec<u8>>)>,
}

impl<'a, J: RoomId, R: Wait + Clock> Visits<'a, J, R> {
    /// Those that are received here.
    pub(crate) fn new(
        rt: &'a R,
        service: &'a SeatService<J>,
        asked: Receiver<Asked>,
    ) -> Visits<'a, J, R> {
        Visits {
            rt,
            service,
            asked,
            next: None,
            current: None,
            visited: None,
            kept_back: None,
        }
    }

    /// Waits for a request, which is answered next, and returns whether there is one; there is none once the room is
    /// being closed.
    pub(crate) fn wait(&mut self) -> bool {
        self.next = match self.asked.recv(self.rt) {
            Ok(asked) => Some(asked),
            Err(_) => None,
        };
        self.next.is_some() && !self.service.is_closing()
    }

    /// Waits for a request while the page keeps its seat.
    fn wait_seated(&mut self) -> Option<Asked> {
        for _ in self.rt.forever() {
            if self.is_left() || self.service.is_closing() {
                return None;
            }
            match self.asked.recv_timeout(self.rt, Duration::from_secs(LOOK)) {
                Ok(asked) => return Some(asked),
                Err(RecvTimeoutError::Timeout) => {}
                Err(RecvTimeoutError::Disconnected) => return None,
            }
        }
        None
    }

    /// Whether the page gives its seat back: it was never visited, or it wasn't visited for a minute, and no other seat
    /// is free.
    fn is_left(&self) -> bool {
        let Some(visited) = self.visited else {
            return true;
        };
        let Ok(now) = Instant::now(self.rt) else {
            return false;
        };
        now.saturating_duration_since(visited) >= Duration::from_secs(MOST_IDLE)
            && !self.service.has_free(self.rt)
    }

    /// Notes that the page has given its seat back. So a peer has its answer only when the seat is free.
    pub(crate) fn leave(&mut self) {
        self.visited = None;
        self.next = None;
        self.current = None;
        if let Some((answer, reply)) = self.kept_back.take() {
            let _sent = reply.send(self.rt, answer);
        }
    }
}

impl<J: RoomId, R: Wait + Clock> Requests for Visits<'_, J, R> {
    fn next_request(&mut self) -> Option<Vec<u8>> {
        let asked = match self.next.take() {
            Some(asked) => asked,
            None => self.wait_seated()?,
        };
        let Asked { request, reply } = asked;
        let WholeRequest { bytes, is_visit } = request;
        self.current = Some((is_visit, reply));
        Some(bytes)
    }

    fn take_answer(&mut self, answer: Option<Vec<u8>>) {
        let (Some((is_visit, reply)), Some(answer)) = (self.current.take(), answer) else {
            return;
        };
        if is_visit && is_accepted(answer.as_slice()) {
            self.visited = Instant::now(self.rt).ok();
        }
        if self.visited.is_none() {
            self.kept_back = Some((answer, reply));
            return;
        }

        // The connection may be closed meanwhile.
        let _sent = reply.send(self.rt, answer);
    }
}
