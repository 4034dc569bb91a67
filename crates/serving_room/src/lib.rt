//! A shared room that is served until it is closed: a connection has the lowest free seat, and its end frees the
//! seat; a seat may have a page in a browser too, and then it goes to whoever comes first.
//!
//! ```text
//! // until the input says QUIT
//! let listeners = Listeners { consoles: Some(&listener), pages: &[] };
//! let served = serve_seats(rt, room, seats, listeners, &watch, input, &OpenDoor);
//! served.room.journal()       // all that the consoles did
//! served.fault                // None: nothing was refused, and the room was closed with all of its seats
//! ```
#![tactic(auto)]

// what a room comes to, and how it is noted; when a new one follows, and the input until then
pub mod noting;
pub mod until_renewed;
pub mod watch;

// what went wrong, and what the seats of a room do before its operators come
pub mod fault;
pub mod giving;

// the input that closes the room, and what a console reads and writes until then
mod input;
mod until_closing;
mod while_open;

// the place of each seat, what the lock of a service keeps, and what its threads share
mod desk;
mod place;
mod service;

// the consoles that come to seats, and the door at which they take turns at the machine
mod consoles;
pub mod taking_turns;

// who holds the machine, and what pages are answered of that and of a new room
mod errand;
mod hold;
mod hold_text;
mod last;
mod room_page;
mod room_pages;
mod room_state;

// where a room listens
pub mod ports;

// the connections of a page, its requests at its seat, and the pages of all seats
mod arrivals;
mod crowd;
pub mod paging;
mod visits;

// the service
pub mod serving;

pub use fault::SeatsFault;
pub use giving::{GiveFault, foreign_seat, give, give_entries};
pub use noting::NotingKeeper;
pub use paging::PagePort;
pub use ports::Listening;
pub use serving::{Listeners, SeatsServed, serve_seats};
pub use taking_turns::TakingTurns;
pub use until_renewed::UntilRenewed;
pub use watch::Watch;
