//! What is printed of a source whose lines have no fault, once all of it is placed: its listing, its symbol table and
//! its cross-reference.
//!
//! ```text
//! let all = place_all(alloc, hashing, &chains, lines)?;       // by `autocoder_placing`
//! make_listing(alloc, &all, source, lines)?                   // the lines with their addresses and cells
//! let ready = ready_listing(alloc, &all, source, lines)?;     // the same, made a page after the other
//! write_listing(ready, source, &mut writer)?
//! make_rows(alloc, &all, lines)?.line_of(alloc, at, &cells)?  // the line that placed cells
//! last_placing(alloc, &all, lines, at, &cells)?               // the same, without the rows
//! make_symbols(alloc, &all, lines)?                           // each label with its address
//! make_tables(alloc, hashing, &all, lines)?.symbols           // a line for each label
//! ```
//!
//! The image of the same lines is made by `autocoder_image`.
#![tactic(auto)]

mod printing; // the parts of a line of the listing
pub mod listing; // the source with its addresses and cells
pub mod source_listing; // the same, line by line
pub mod rows; // what has an address in it
pub mod placing_line; // the line that placed cells
mod heads; // what the lines have besides the source
pub mod pages; // a text that goes to a sink a page after the other
pub mod writing; // the listing, written as it is made
pub mod symbol_table; // each label with its address, its length and its line
mod cross_reference; // the lines that name each label
pub mod tables; // both as texts

pub use listing::{Listing, ListingLine};
pub use placing_line::last_placing;
pub use rows::{Row, Rows, make_rows};
pub use source_listing::make_listing;
pub use symbol_table::{Symbol, make_symbols};
pub use tables::{Tables, make_tables};
pub use writing::{ReadyListing, ready_listing, write_listing};
