//! The place of a seat.
ghost use Rattle.std.specs.Prelude.{◌≡◌, IfSome};
ghost use Rattle.serving_room.specs.Places.{free_place, free_seat, given, has_seat as is_there};
ghost use Rattle.serving_room.specs.Places.{is_free as is_free_place};
ghost use Rattle.serving_room.specs.Places.{taken_back, with_seat, without_free_seat, without_seat};

use room_1401::{RoomId, Seat};
use std::marker::Model;

/// The place of a seat. It is free, or it is given to a connection, whose thread then takes the seat.
#[derive(Drop)]
pub(crate) struct SeatPlace<J: RoomId> {
    number: u8,
    seat: Option<Seat<J>>,
    is_given: bool,
}

impl<J: RoomId> Model for SeatPlace<J> {
    ghost use Rattle.std.specs.Prelude.{◌≡◌, IfSome};
    ghost use Rattle.serving_room.specs.Places.{PlaceView};

    ghost Value = { PlaceView };

    ghost view = { λ place. record {
      number = place.number;
      seat = place.seat;
      is_given = place.is_given;
    } };

    ghost invariant = { λ place. IfSome place.seat (λ seat. seat.number ≡ place.number) };
}

impl<J: RoomId> SeatPlace<J> {
    /// The free place of a seat.
    pub(crate) fn new(seat: Seat<J>) -> SeatPlace<J>
        ensures { result ≡ free_place seat }
    {
        SeatPlace {
            number: seat.number(),
            seat: Some(seat),
            is_given: false,
        }
    }

    /// The number of its seat.
    pub(crate) fn number(&self) -> u8
        ensures { result ≡ self.now.number }
    {
        self.number
    }

    /// Whether the seat is there, and no connection has it.
    pub(crate) fn is_free(&self) -> bool
        ensures { result ≡ is_free_place self.now }
    {
        self.seat.is_some() && !self.is_given
    }

    /// Whether the seat is there.
    pub(crate) fn has_seat(&self) -> bool
        ensures { result ≡ is_there self.now }
    {
        self.seat.is_some()
    }

    /// Gives it to a connection.
    pub(crate) fn give(&mut self)
        ensures { self.new ≡ given self.old }
    {
        self.is_given = true;
    }

    /// Takes the seat, if it is there.
    pub(crate) fn take_seat(&mut self) -> Option<Seat<J>>
        ensures seat { result ≡ self.old.seat }
        ensures taken { self.new ≡ without_seat self.old }
        ensures number { IfSome result (λ seat. seat.number ≡ self.old.number) }
    {
        self.seat.take()
    }

    /// Takes the seat, if it is there and no connection has the place.
    pub(crate) fn take_free(&mut self) -> Option<Seat<J>>
        ensures seat { result ≡ free_seat self.old }
        ensures taken { self.new ≡ without_free_seat self.old }
        ensures number { IfSome result (λ seat. seat.number ≡ self.old.number) }
    {
        if self.is_given {
            return None;
        }
        self.seat.take()
    }

    /// Puts the seat back.
    pub(crate) fn put_back(&mut self, seat: Seat<J>)
        requires { seat.number ≡ self.old.number }
        ensures { self.new ≡ with_seat seat self.old }
    {
        self.seat = Some(seat);
        self.is_given = false;
    }

    /// Takes it back from the connection, which has no thread.
    pub(crate) fn take_back(&mut self)
        ensures { self.new ≡ taken_back self.old }
    {
        self.is_given = false;
    }

    /// The seat, if it is there.
    pub(crate) fn into_seat(self) -> Option<Seat<J>>
        ensures seat { result ≡ self.seat }
        ensures number { IfSome result (λ seat. seat.number ≡ self.number) }
    {
        let SeatPlace {
            number: _,
            seat,
            is_given: _,
        } = self;
        seat
    }
}
