//! How a sitting begins.

use crate::script::Script;

/// How a sitting begins, before a line is read.
#[derive(Drop)]
pub struct Beginning<'a> {
    /// What a person is greeted with; empty if with nothing.
    pub greeting: &'a [u8],
    /// The lines of a file that are done first, if there are some.
    pub first: Option<Script>,
}
