//! Core storage of the IBM 1401: cells by address, their fields, their word marks by words, and the three characters of
//! an address.
//!
//! ```text
//! let mut core = Core::power_on(alloc, 4000)?;
//! core.put_mark(699, true);
//! core.field_len(700)                     // Some(2)
//! core.mark_words()[10] == 1 << 59        // the word mark of 699
//! decode(encode(3999))                    // (3999, 0): the value, and no index register
//! ```
#![tactic(auto)]

// addresses: their three characters, and index registers
pub mod address;
mod address_tables;
pub mod indexing;

// core storage: its characters, the words of marks beside them, and how both are read and written
pub mod block_ops;
pub mod cells;
pub mod copying;
pub mod eight_cells;
pub mod fault;
pub mod lending;
pub mod mark_words;
pub mod place_set;
mod short_copies;
pub mod storage;

// where a field or an instruction ends
pub mod lengths;

pub use address::{ADDRESSES, decode, encode};
pub use cells::{Cells, MOST_CELLS};
pub use eight_cells::EightCells;
pub use fault::CoreFault;
pub use place_set::PlaceSet;
pub use storage::{Core, LEAST_SIZE, SIZES};
