//! The lines of a file.

/// The lines of a file that are done one after the other, up to the first fault.
#[derive(Drop)]
pub struct Script {
    /// The name of the file, as it is typed.
    pub name: Vec<u8>,
    /// The lines, each but perhaps the last with a line feed.
    pub text: Vec<u8>,
}
