//! What a step of the machine did, and why the machine stops, in words with the places.
//!
//! ```text
//! stop_reason(&machine)                   // why the next step stops the machine: a Reason, or None
//! reason_told(&machine, stop)             // why a run ended so
//! reason.stop()                           // the Stop that it is reported as
//! taped_reason_told(&taped, stop)         // the same of a machine with its tape units
//! halt_address(&machine)                  // where the halt is that was carried out last
//! format!("{reason}")                     // no word mark from 010 down to 000 in the A field
//! ```
//!
//! A trace has a line for each step, with what it changed.
//!
//! ```text
//! let mut before = Snapshot::of(alloc, &machine)?;
//! let stop = machine.step();
//! before.put_line(&mut text, &machine, work, stop);
//! // 00453  ~M510509  MCW  510,509  00507  00506  00507|000|275, with tabs between
//! ```
#![tactic(auto)]

// the reasons and their texts
pub mod field_reason;
pub mod reason;
mod words;

// why the operations on fields can't be carried out
mod fields;
mod products;

// the instruction at the I register, and why it stops the machine
mod devices;
pub mod stopping;

// the same where a tape unit may stop the machine
pub mod taped;

// the instruction that has halted
pub mod halting;

// an instruction in core
mod fetched;

// what changed in core
mod blocks;
pub mod changes;

// a line of the trace
mod line;
pub mod snapshot;
pub mod work;

pub use changes::next_change;
pub use field_reason::{FieldReason, Operand, Span};
pub use halting::{halt_address, instruction_len};
pub use reason::Reason;
pub use snapshot::Snapshot;
pub use stopping::{reason_told, stop_reason};
pub use taped::{load_reason, load_reason_told, taped_reason_told, taped_stop_reason};
pub use work::{TapeMark, Work};
