//! Bytes in and out: a source that gives them one by one, and a sink that receives them.
//!
//! ```text
//! let mut reader = FromReader::new(b"QUIT\n".as_slice());
//! let mut writer = ToWriter::new(Vec::new(alloc));
//! reader.next_byte()?                     // Some(b'Q')
//! put_all(&mut writer, b"BYE\n")?;        // all of it, or a beginning of it and a failure
//! ```
//!
//! After a failed read or write there is no other one.
//!
//! A text of any length, written a page after the other through one page that is reserved before.
//!
//! ```text
//! let mut page = Vec::with_capacity(alloc, PAGE)?;
//! put_through(&mut page, b"0001 00333", &mut writer)?;    // in the page, which is written first if it is full
//! put_all(&mut writer, page.as_slice())?;                 // the last page
//! ```
//!
//! Nothing here asks for memory.
#![tactic(auto)]

// a source, a sink, and what has failed
pub mod failure;
pub mod from_reader;
pub mod sink;
pub mod source;
pub mod to_writer;

// a page of a text that goes to a sink
pub mod page;

pub use failure::Failed;
pub use from_reader::FromReader;
pub use page::{PAGE, make_room, put_through};
pub use sink::{Sink, put_all};
pub use source::Source;
pub use to_writer::ToWriter;
