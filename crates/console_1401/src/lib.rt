//! The consoles of the IBM 1401: at a room that one has alone, as `room_alone` has them, and at the seats of a room
//! that operators share; and an image put into a room.
//!
//! ```text
//! attend(alloc, rt, &room, &mut seat, &mut reader, &mut writer, &OpenDoor)   // SessionEnd::Quit
//! serve(alloc, rt, room, seats, &listener, &OpenDoor)     // a console for each connection, until all have ended
//! put_image(&mut room, &image)?                           // its cells and its entry, by commands
//! ```
#![tactic(auto)]

// an image put into a room
pub mod image_loading;

// consoles at the seats of a shared room
pub mod ahead;
pub mod attending;
pub mod door;
pub mod serving;

pub use ahead::ahead_of;
pub use attending::{Unanswered, answer_line, attend};
pub use door::{Door, OpenDoor};
pub use image_loading::{put_command, put_features, put_image, put_lent_image};
pub use room_alone::{
    Failed, FromReader, Line, LineFault, SessionEnd, Sink, Source, ToWriter, parse_line,
    reply_text, session,
};
pub use serving::{ServeFault, Served, serve};
