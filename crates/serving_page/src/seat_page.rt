//! The page of a seat: a service of HTTP over the seat.
ghost use Rattle.std.specs.Prelude.{◌≡◌, ◌++◌, IsTrue, IfOk, IfErr, OnOk, OnErr};
ghost use Rattle.http.specs.Request.{body_of, head_of};
ghost use Rattle.http_header.specs.FieldValue.{is_visible_text};
ghost use Rattle.http_server.specs.Response.{IsBlank};
ghost use Rattle.serving_page.specs.SeatPage.{site_of, with_seat};
ghost use Rattle.serving_page.specs.Taking.{GoesOn, HasLost, IsAnswered, IsNotAnswered, Takes};

use crate::elsewhere::tell_address;
use crate::gate::Gate;
use crate::many_lines::answer_lines;
use crate::showing::show_picture;
use crate::taking::{Brought, Replied, tell_outcome};
use bytes::Bytes;
use console_1401::{Unanswered, answer_line};
use http::{Request, StatusCode};
use http_server::{Response, Service};
use room_1401::{Keeper, RoomId, Seat, SharedRoom};
use serving_http::{
    Document, MOST_LINE_BYTES, Route, Site, begin_text, is_ambiguous, is_for_room, is_for_site,
    is_from_site, is_next, put_page, refuse, route_of,
};
use std::alloc::{AllocError, AllocGlobal, Global};
use std::marker::Model;
use std::sync::Wait;

/// The room of a page, as its pictures show it.
#[derive(Clone, Copy)]
pub struct RoomShown<'a> {
    /// How many seats it has.
    pub seats: u8,
    /// Its name.
    pub name: &'a [u8],
}

/// The page of a seat, at a port of the loopback, and perhaps at an origin outside. Contracts see how many seats there
/// are, the port, that origin, the room's name, the page with what its browser may do with it, and what the seat knows.
#[derive(Drop)]
pub struct SeatPage<'a, J: RoomId, R: Wait + Drop, P: Keeper + Drop, W: Wait, G: Gate> {
    alloc: Global,
    wait: &'a W,
    room: &'a SharedRoom<J, R, P>,
    seat: Seat<J>,
    seats: u8,
    site: &'a Site,
    name: &'a [u8],
    document: Document,
    gate: &'a G,
}

impl<'a, J: RoomId, R: Wait + Drop, P: Keeper + Drop, W: Wait, G: Gate> Model
    for SeatPage<'a, J, R, P, W, G> {
    ghost use Rattle.std.specs.Prelude.{◌++◌, IsTrue};
    ghost use Rattle.http_header.specs.FieldValue.{is_visible_text};
    ghost use Rattle.serving_page.specs.SeatPage.{PageView};

    ghost Value = { PageView };

    ghost view = { λ s. record {
      seats = s.seats;
      port = s.site.now.port;
      outside = s.site.now.outside;
      name = s.name.now;
      page = s.document.first.now ++ s.document.rest.now;
      policy = s.document.policy.now;
      seat = s.seat;
    } };

    ghost invariant = { λ s. IsTrue (is_visible_text s.document.policy.now) };
}

impl<'a, J: RoomId, R: Wait + Drop, P: Keeper + Drop, W: Wait, G: Gate> SeatPage<
    'a,
    J,
    R,
    P,
    W,
    G,
> {
    /// The page of a seat of the room that is shown so, which is served where this site is, and nowhere else. The gate
    /// says of each line whether it is carried out.
    pub fn new(
        wait: &'a W,
        room: &'a SharedRoom<J, R, P>,
        seat: Seat<J>,
        shown: RoomShown<'a>,
        site: &'a Site,
        document: &Document,
        gate: &'a G,
    ) -> SeatPage<'a, J, R, P, W, G>
    where
        W: AllocGlobal,
        requires { IsTrue (is_visible_text document.now.policy.now) }
        ensures { result ≡ record {
          seats = shown.entry.seats;
          port = site.now.port;
          outside = site.now.outside;
          name = shown.entry.name.now;
          page = document.now.first.now ++ document.now.rest.now;
          policy = document.now.policy.now;
          seat = seat;
        } }
    {
        SeatPage {
            alloc: wait.alloc(),
            wait,
            room,
            seat,
            seats: shown.seats,
            site,
            name: shown.name,
            document: *document,
            gate,
        }
    }

    /// The seat, with all that it made at its page.
    pub fn into_seat(self) -> Seat<J>
        ensures { result ≡ self.entry.seat }
    {
        let SeatPage {
            alloc: _,
            wait: _,
            room: _,
            seat,
            seats: _,
            site: _,
            name: _,
            document: _,
            gate: _,
        } = self;
        seat
    }

    /// Carries out what a request brings, unless it is held off, and gives the reply.
    ///
    /// # Errors
    ///
    /// Why there is none, though it was carried out.
    #[tactic(auto, using(crate::proofs::TakingLemmas::reason))]
    fn answer(&mut self, brought: Brought, body: &[u8]) -> Result<Replied, Unanswered>
        ensures ok { IfOk result (λ replied.
            IsAnswered brought J.size G.says self.old.seat body.now replied self.new.seat) }
        ensures err { IfErr result (λ why. IsNotAnswered brought J.size G.says
            (HasLost P.has_failed P.kept P.first P.form J.size) self.old.seat body.now why self.new.seat) }
        ensures page { self.new ≡ with_seat self.old self.new.seat }
        ensures seat { GoesOn self.old.seat self.new.seat }
    {
        let seat = &mut self.seat;
        match brought {
            Brought::Line => match self.gate.keeps_off(body) {
                Some(why) => Ok(Replied::KeptOff(why)),
                None => {
                    let reply = answer_line(self.alloc, self.wait, self.room, seat, body)?;
                    Ok(Replied::Whole(reply))
                }
            },
            Brought::Lines => answer_lines(self.alloc, self.wait, self.room, self.gate, seat, body),
        }
    }

    /// Answers a request that brings lines: it has to come from the page itself, to be for this room if it names one,
    /// and to go on from what the seat made.
    fn take(
        &mut self,
        brought: Brought,
        request: &Request<Bytes>,
        response: &mut Response,
    ) -> Result<(), AllocError>
        requires { IsBlank response.old }
        ensures ok { OnOk result (Takes brought J.size G.says (HasLost P.has_failed P.kept P.first P.form J.size)
            (site_of self.old) self.old.name (head_of request.now) (body_of request.now) self.old.seat response.new
            self.new.seat × (self.new ≡ with_seat self.old self.new.seat)) }
        ensures err { OnErr result (self.new ≡ self.old) }
    {
        if !is_from_site(request, self.site) {
            return refuse(response, StatusCode::FORBIDDEN);
        }
        if !is_for_room(request, self.name) {
            return refuse(response, StatusCode::CONFLICT);
        }
        if !is_next(request, self.seat.made()) {
            return refuse(response, StatusCode::CONFLICT);
        }
        begin_text(response)?;
        let outcome = self.answer(brought, request.body().as_slice());
        tell_outcome(response, outcome);
        Ok(())
    }
}

impl<J: RoomId, R: Wait + Drop, P: Keeper + Drop, W: Wait, G: Gate> Service
    for SeatPage<'_, J, R, P, W, G> {
    ghost use Rattle.serving_page.specs.SeatPage.{Answers};
    ghost use Rattle.serving_page.specs.Taking.{HasLost};

    ghost answers = { Answers J.size G.says (HasLost P.has_failed P.kept P.first P.form J.size) };

    fn call(
        &mut self,
        request: &Request<Bytes>,
        response: &mut Response,
    ) -> Result<(), AllocError> {
        if !is_for_site(request, self.site) {
            return tell_address(self.alloc, self.site, response);
        }
        if is_ambiguous(request) {
            return refuse(response, StatusCode::BAD_REQUEST);
        }
        match route_of(request.method().as_str(), request.uri().path()) {
            Route::Page => put_page(response, &self.document),
            Route::Picture => {
                show_picture(
                    self.alloc,
                    &mut self.seat,
                    self.seats,
                    self.name,
                    request.uri().query(),
                    response,
                )
            }
            Route::Line => {
                if request.body().len() > MOST_LINE_BYTES {
                    return refuse(response, StatusCode::PAYLOAD_TOO_LARGE);
                }
                self.take(Brought::Line, request, response)
            }
            Route::Lines => self.take(Brought::Lines, request, response),
            Route::WrongMethod => refuse(response, StatusCode::METHOD_NOT_ALLOWED),
            Route::Unknown => refuse(response, StatusCode::NOT_FOUND),
        }
    }
}
