//! Files and sockets. Files are read whole, and written whole or not at all.
//!
//! ```text
//! let source = read_whole(rt, "sales.source")?;       // its bytes, or why not
//! put_whole(rt, "sales.image", text.as_slice())?      // the old file, or the new one
//! put_new(rt, "sales.tap", text.as_slice())?          // the same, unless there is a file of the name
//! put_back(rt, "sales.tap", &read.metadata, text.as_slice())?  // the same, if it is still the file that was read
//! is_one_file(rt, "one", "./one")?                    // true, whether it is there or not
//! ```
//!
//! Those who come to a room's ports are waited for: at a listener until they are accepted, and a peer that is slow.
//!
//! ```text
//! lengthen_queue(&listener);                  // 1,024 connections may wait until they are accepted
//! if passes(&error) { pause.sleep(clock); }   // and then the next connection is accepted
//! linger(clock, &stream);                     // the peer has a second to take what it was sent
//! ```
#![tactic(auto)]

// files, their names, and how much of one may be written
pub mod closed_streams;
pub mod fault;
pub mod limited;
pub mod names;
pub mod new_file;
pub mod reading;
pub mod writing;

// a listener: its queue, and a connection that it couldn't accept
pub mod accepting;

// a peer
pub mod patience;

pub use accepting::{Pause, is_gone, lengthen_queue, passes, shut_down};
pub use closed_streams::{HeldStreams, hold_closed_streams};
pub use fault::{FileFault, NewFault, WriteFault};
pub use limited::{LimitedFile, size_limit};
pub use names::{end_of_links, is_named, is_one_file, is_there, remove_own};
pub use new_file::{check_new, put_beside, put_new};
pub use patience::{Patient, has_begun, has_unread, linger};
pub use reading::{ReadFile, read_whole, read_whole_reel};
pub use writing::{
    CreatedFile, WholeFile, begin_whole, check_create, check_whole, create, create_beside,
    create_new, end_whole, keep_rights, put_back, put_whole,
};
