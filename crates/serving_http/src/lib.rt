//! Exchanges with a browser: the requests of HTTP that a page's connections bring, what they ask for, and what they are
//! answered.
//!
//! ```text
//! read_request(rt, &site, &stream)?                      // a connection's request, once it has come whole
//! answer_each(rt, &mut service, &mut requests);          // such requests in turn, to the last one
//! route_of("GET", "/picture")                            // Route::Picture
//! put_page(&mut response, html, policy)?;                // 200, with the page
//! ```
#![tactic(auto)]

// a connection as a whole, one request after the other, how long a peer is waited for, and a request that comes bit by
// bit
pub mod exchange;
pub mod listening;
pub mod reading;

// what a request asks for, where it comes from, and what it goes on from
pub mod fields;
pub mod numbers;
pub mod origins;
pub mod room_name;
pub mod route;
pub mod sites;

// what it is answered, also while a console sits at the seat
pub mod responses;
pub mod taken;

pub use bytes_descriptors::{has_begun, linger};
pub use exchange::answer;
pub use fields::{has_field, is_ambiguous, is_for, is_for_room, is_next};
pub use listening::{MOST_LINE_BYTES, Requests, answer_bytes, answer_each, page_config};
pub use numbers::number;
pub use origins::{Origin, OriginFault, Scheme, origin_after, put_origin, read_origin};
pub use reading::{WholeRequest, is_accepted, is_visit, read_request, send_answer};
pub use responses::{Document, begin_text, end_with, end_without, put_page, refuse};
pub use room_name::RoomName;
pub use route::{Route, route_of};
pub use sites::{Site, is_for_site, is_from_site};
pub use taken::refuse_taken;
