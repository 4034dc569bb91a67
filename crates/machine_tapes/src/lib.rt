//! The machine with up to six tape units.
//!
//! ```text
//! let mut taped = TapedMachine { machine, tapes: Tapes::none(alloc)? };
//! taped.tapes.mount(1, reel, false);                          // unit 1, without the ring that allows writing
//! taped.run(1_000)                                            // Ran { steps: 12, stop: Stop::Tape }: no more to read
//! write_tap(alloc, &taped.tapes.unit(1).reel.records())?      // the reel as a text
//! ```
//!
//! Reels of magnetic tape: records around a head, and the text in which SIMH keeps a reel.
//!
//! ```text
//! let mut reel = Reel::new(alloc, 4_000_000)?;    // room for four million characters
//! reel.write_record(&characters)?;                // a record at the head, which moves past it
//! reel.write_tape_mark()?;
//! reel.rewind();
//! reel.next_record()?.char(0)                     // the first character of the first record
//! reel.pass();                                    // past that record
//! write_tap(alloc, &reel.records())?              // the text of a .tap file
//! read_tap(alloc, text, 4_000_000)?               // the reel of such a text
//! ```
#![tactic(auto)]

// a unit with its reel, all six, and what an instruction asks of one
pub mod drive;
pub mod instruction;
pub mod tapes;
pub mod work;

// records between core and tape, and what else a unit does
pub mod reading;
mod registers;
mod tape_text;
mod working;
pub mod writing;

// the machine with its units: steps until it stops, the key that loads from tape, and what holds of steps and runs
pub mod law;
pub mod load_key;
pub mod running;
pub mod taped_machine;

// a reel, its records, their bytes, and why it takes no record
mod blocks;
pub mod fault;
pub mod records;
pub mod reel;

// its text, both ways
pub mod tap_reading;
pub mod tap_writing;

pub use drive::Drive;
pub use fault::{ReelFull, TapFault};
pub use instruction::tape_instruction;
pub use law::{taped_step_law, tapes_law};
pub use load_key::loading;
pub use reading::has_places;
pub use records::{TapeRecord, TapeRecords};
pub use reel::{MOST_CHARACTERS, Reel};
pub use tap_reading::read_tap;
pub use tap_writing::write_tap;
pub use taped_machine::TapedMachine;
pub use tapes::Tapes;
pub use work::{TapeInstruction, TapeMode, TapeWork};
pub use writing::{record_len, text_len};
