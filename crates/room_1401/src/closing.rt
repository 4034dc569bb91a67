//! Whether all seats of a shared room are back, and what they made together.
ghost use Rattle.std.specs.Prelude.{◌≡◌, ◌+◌, ◌≤◌, MatchBool, length};
ghost use Rattle.room_1401.specs.Closing.{AllFit, OneBeyond, back_of, has_seat, made_of};

use crate::history::SeenPrefix;
use crate::naming::RoomId;
use crate::seat::Seat;
use std::sync::ledger::Share;

/// Whether a seat of this number is there.
fn is_there<J: RoomId>(seats: &[Seat<J>], number: u8) -> bool
    ensures { result ≡ has_seat number seats.now }
{
    match seats {
        [] => false,
        [first, rest @ ..] => first.number() == number || is_there(rest, number),
    }
}

/// How many of the numbers from 1 to this one have a seat there.
pub(crate) fn count_back<J: RoomId>(seats: &[Seat<J>], total: u8) -> u8
    ensures back { result ≡ back_of total seats.now }
    ensures bound { result ≤ total }
{
    let mut back = 0;
    for number in 0..total {
        if is_there(seats, number + 1) {
            back += 1;
        }
    }
    back
}

/// Whether no seat has seen more than these commands; each has then seen a prefix of them.
pub(crate) fn all_fit<J: RoomId>(seats: &[Seat<J>], front: &SeenPrefix<J>) -> bool
    ensures { MatchBool result (AllFit front.now seats.now) (OneBeyond front.now seats.now) }
{
    match seats {
        [] => true,
        [first, rest @ ..] => first.fits(front) && all_fit(rest, front),
    }
}

/// All parts of the ledger that the seats have, with what they made.
pub(crate) fn merge_all<J: RoomId>(seats: Vec<Seat<J>>, rest: Share<J>) -> Share<J>
    requires { (rest.parts ≡ 0) × (rest.amount ≡ 0) }
    ensures parts { (result.parts ≡ length seats.items) × (result.parts ≤ J.parts) }
    ensures amount { result.amount ≡ made_of seats.items }
{
    let mut all = rest;
    for seat in seats {
        all.merge(seat.into_share());
    }
    all
}
