//! A person's room: a machine with its scout, where each line of a person began in the journal, and the cards that are
//! still in hand.
//!
//! ```text
//! let mut sitting = Sitting::new(alloc, room)?;       // what the room has by now loaded the program
//! sitting.begin_line()?;
//! sitting.hold(&cards)?;                              // 1,200 cards
//! sitting.tend()?;                                    // 500 of them are in the hopper
//! sitting.begin_line()?;
//! sitting.run_until(&mut test, MOST_STEPS)?;          // up to the step that reads the last of these, if not before
//! let earlier = sitting.undone(alloc, 1, &mut listener, &mut console)?;   // the machine before that run
//! let sitting = sitting.take_over(earlier, &mut cutter)?;
//! ```
//!
//! How far the machine goes before something happens, found out at a twin of it, the scout: one command of a room then
//! comes to the same machine.
//!
//! ```text
//! let scout = room.room().machine().copy(alloc)?;
//! let mut paired = Paired::new(room, scout);
//! let mut test = Break::new(419, Always);
//! paired.run_until(&mut test, MOST_STEPS)?   // 18 steps, to the break: the journal has RUN 18
//! paired.machine()                           // the machine before the instruction at 419
//! ```
//!
//! Back in time: a room whose journal is shorter, and whose machine is an earlier one.
//!
//! ```text
//! // RUN 18, at the journal's end, is RUN 14 now
//! let earlier = carry_back(alloc, room, 4, &mut listener, &mut console)?;
//! earlier.machine()   // the machine four instructions before
//! ```
#![tactic(auto)]

// where lines began, and the cards of decks
pub mod notes;

// what full devices want
mod tending;

// what keeps the text of a shorter journal
pub mod cutter;

// an earlier room, and the sitting
pub mod earlier;
pub mod sitting;

// a search, and what is asked after each of its steps
pub mod search;

// what may be asked
pub mod any_of;
pub mod breaks;
pub mod device_watch;
pub mod full_devices;
pub mod one_of;
pub mod place_watch;

// a room and its scout
pub mod paired;

// who may interrupt it
pub mod interrupter;

// the first entries carried out again, and instructions taken back
pub mod again;
pub mod back;

pub use again::{BackFault, carry_entries};
pub use any_of::{begin_each, see_by_each};
pub use back::{carry_back, instructions_of, whole_entries};
pub use breaks::{Always, Break, Condition};
pub use cutter::Cutter;
pub use device_watch::{Device, DeviceWatch};
pub use earlier::{Earlier, Origin, PastFault};
pub use full_devices::{FullDevices, wants_hands};
pub use interrupter::Interrupter;
pub use notes::Mark;
pub use one_of::OneOf;
pub use paired::{Paired, RunEnd};
pub use place_watch::PlaceWatch;
pub use search::{Found, MOST_STEPS, SearchEnd, Test, run_limit, seek};
pub use sitting::{Sitting, Tended};
