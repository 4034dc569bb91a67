//! The page in a browser that an operator of the IBM 1401 has at a seat: requests of HTTP, answered at the seat.
//!
//! ```text
//! let site = Site::new(alloc, 8080, None)?;              // at http://127.0.0.1:8080/
//! let shown = RoomShown { seats: 8, name: name.as_slice() };
//! let mut page = SeatPage::new(rt, &room, seat, shown, &site, &document(), &gate);
//! answer_page(rt, &mut page, &mut requests);             // its requests in turn, to the last one
//! page.into_seat()                                       // the seat, with all that it made
//! ```
#![tactic(auto)]

// a text in pieces, and which picture a request asks for
pub mod asked;
mod pieces;

// what requests are answered at a seat, what keeps lines off, and requests for another host
pub mod elsewhere;
pub mod gate;
mod many_lines;
pub mod picture_lines;
pub mod showing;
mod taking;

// the page's own text, and the policy under which a browser runs it
pub mod document;

// the page of a seat, and all its requests; and the page of a seat at which a console sits
pub mod listening;
pub mod seat_page;
pub mod taken_page;

pub use asked::{Asked, asked_by};
pub use elsewhere::tell_address;
pub use gate::Gate;
pub use listening::answer_page;
pub use picture_lines::put_picture;
pub use seat_page::{RoomShown, SeatPage};
pub use serving_http::{
    Document, Origin, Requests, RoomName, Route, Site, WholeRequest, answer, answer_bytes,
    answer_each, has_begun, is_accepted, linger, page_config, read_request, route_of, send_answer,
};
pub use taken_page::TakenPage;
