//! A room with one console: a machine, the commands that it was given, the journal that records them, and the sessions
//! at its console.
//!
//! ```text
//! let mut room = Room::power_on(alloc, 4000)?;
//! room.carry(0, Command::Run { limit: 1 })?   // Answer::Ran { steps: 0, stop: Stop::NoMark, i: 0 }
//! room.journal()                              // one entry: the command and its answer
//! let mut reader = FromReader::new(b"EXAMINE 0500\nQUIT\n".as_slice());
//! let mut writer = ToWriter::new(Vec::new(alloc));
//! session(alloc, &mut room, &mut reader, &mut writer)     // SessionEnd::Quit
//! writer.into_inner()                                     // " \nBYE\n": a blank, and the end
//! ```
//!
//! The operator's console is a function of its bytes: lines are read from a source, and answered to a sink, one after
//! the other, by whatever carries them out.
//!
//! ```text
//! let mut reader = FromReader::new(b"EXAMINE 0500\nQUIT\n".as_slice());
//! let mut writer = ToWriter::new(Vec::new(alloc));
//! answer_lines(alloc, &mut responder, &mut reader, &mut writer)   // SessionEnd::Quit
//! writer.into_inner()                                             // its reply, and "BYE\n"
//! ```
//!
//! A session at a terminal begins with a machine at power-on, and its end is for a program to report.
//!
//! ```text
//! let mut reader = FromReader::new(rt.reader());
//! let mut writer = ToWriter::new(io::writer(rt));
//! console(rt.alloc(), 4_000, &mut reader, &mut writer)?   // lines in, replies out, until QUIT
//! ```
#![tactic(auto)]

// the journal, and the room that it explains
pub mod entry;
pub mod room;

// what keeps a journal outside of its room, and a room that is kept
pub mod keeper;
pub mod kept_room;

// the console of a room, kept or not
pub mod kept_sessions;
pub mod sessions;

// a line's bytes, what carries it out, and the reply
mod line_buffer;
pub mod reply;
pub mod responder;

// lines answered one after the other, and how that ends
pub mod answering;
pub mod session_end;

// how a session ends but by QUIT, and why none is held
pub mod terminal_fault;

// a session on a new machine
pub mod terminal;

pub use answering::answer_lines;
pub use bytes_streams::{Failed, FromReader, Sink, Source, ToWriter, put_all};
pub use console_text::{LINE_LIMIT, Line, LineFault, parse_line, reply_text};
pub use cpu_1401::{Answer, Command};
pub use entry::{Entry, SeatedCommand};
pub use keeper::{Carried, Keeper, NoKeeper, Unkept};
pub use kept_room::KeptRoom;
pub use kept_sessions::session_kept;
pub use machine_commands::{Glance, GlanceFault, RoomFault};
pub use reply::{Reply, reply_bytes};
pub use responder::Responder;
pub use room::Room;
pub use session_end::SessionEnd;
pub use sessions::{OWN_SEAT, session};
pub use terminal::console;
pub use terminal_fault::{ConsoleFault, SessionFault, ended};
