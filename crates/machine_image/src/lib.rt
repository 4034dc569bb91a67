//! Core images of the IBM 1401: the contents of core storage before a program is started, and the text in which it is
//! kept.
//!
//! ```text
//! let image = read_image(alloc, b"IMAGE2 04000\n00400 02 ~HI\nEND 00400\n")?;
//! image.segments.as_slice()               // one segment: H with a word mark at 400, I at 401
//! lend_image(text)?.split_first()         // one segment after the other, none of them stored
//! write_image(alloc, &image)?             // the same text
//! put_segment(&mut text, Version::Two, &segment)?     // one line of it
//! ```
//!
//! An operator fits the machine with features, and loads an image, by commands:
//!
//! ```text
//! let mut commands = LoadCommands::of_lent(&lend_image(b"IMAGE2 04000\n00400 02 ~HI\nEND 00400\n")?);
//! commands.next()   // Command::Deposit { address: 400, cells }: H with a word mark, and I
//! commands.next()   // Command::SetI { address: 400 }
//! commands.next()   // None
//! fit_command(Features::NONE)   // None
//! ```
#![tactic(auto)]

// an image, the version of its text, and why a text is none
pub mod fault;
pub mod image;
pub mod version;

// its text, both ways
pub mod reading;
pub mod writing;

// the commands that fit a machine, and load an image
pub mod commands;
pub mod fitting;

pub use commands::LoadCommands;
pub use fault::ImageFault;
pub use fitting::fit_command;
pub use image::{Image, Segment, Segments};
pub use reading::{LentImage, lend_image, read_image};
pub use version::Version;
pub use writing::{MOST_IN_LINE, put_end, put_header, put_segment, write_image};
