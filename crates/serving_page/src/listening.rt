//! The requests of a page, one after the other.
ghost use Rattle.serving_http.specs.Exchange.{Follows};
ghost use Rattle.serving_page.specs.SeatPage.{Answers};
ghost use Rattle.serving_page.specs.Taking.{GoesOn, HasLost};

use crate::gate::Gate;
use crate::seat_page::SeatPage;
use room_1401::{Keeper, RoomId};
use serving_http::{Requests, answer_each};
use std::alloc::AllocGlobal;
use std::random::RandomSource;
use std::sync::Wait;

/// Answers the requests of a seat's page one after the other, as `answer_each` does.
pub fn answer_page<
    R: AllocGlobal + RandomSource + Wait,
    J: RoomId,
    H: Wait + Drop,
    P: Keeper + Drop,
    W: Wait,
    G: Gate,
    Q: Requests,
>(rt: &R, page: &mut SeatPage<'_, J, H, P, W, G>, requests: &mut Q)
    ensures follows { Follows (Answers J.size G.says (HasLost P.has_failed P.kept P.first P.form J.size)) page.old page.new }

    // So no picture, and no reply, is of fewer of the room's commands than one before.
    ensures seat { GoesOn page.old.seat page.new.seat }
{
    answer_each(rt, page, requests);
}
