//! The room that operators share: one machine, the journal that explains it, and the seats from which commands are
//! given, each in a thread of its own. Glances and pictures wait for nobody.
//!
//! ```text
//! let (room, mut seats) = SharedRoom::<J, &R>::power_on(rt, alloc, 4000, 2, opened)?;
//! room.command(rt, &mut seats[0], Command::Registers)?   // as `carry` of a room, for seat 1
//! seats[1].glance(500)?                                  // the cell at 500, after 0 commands or 1
//! seats[1].picture(Window { core: 400, paper: 0 })?      // registers, cells, cards and lines, all of one moment
//! room.close(seats)                                      // the room, whose journal explains every answer
//! ```
#![tactic(auto)]

// why a room isn't made, or isn't closed
pub mod fault;

// a shared room's history of commands, as far as somebody has reached it, and what names the room
pub mod history;
pub mod naming;

// a machine on the heap, what readers are shown, the rule that each step keeps, and the writer
mod heap_machine;
mod published;
mod publisher;
mod rule;

// the room with what follows its journal, and a machine for long runs
mod ahead;
mod recording;

// what a seat has and sees, what the lock keeps, and how a room is opened, shared and closed
mod closing;
mod locked;
pub mod paper;
pub mod picture;
pub mod seat;
pub mod shared_room;

pub use cpu_1401::{Answer, Command, Refusal, SwitchName, carry_out};
pub use fault::{CloseFault, StartFault};
pub use history::Opened;
pub use naming::RoomId;
pub use paper::{PaperLines, WINDOW_LINES};
pub use picture::{Picture, WINDOW_CELLS, Window};
pub use room_alone::{
    Carried, Entry, Glance, GlanceFault, Keeper, NoKeeper, Room, RoomFault, Unkept,
};
pub use seat::{Seat, Told};
pub use shared_room::SharedRoom;
