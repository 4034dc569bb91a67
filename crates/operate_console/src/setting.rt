//! What all lines of a sitting have in common.

use crate::manner::Manner;
use operate_program::Program;
use std::alloc::Global;

/// What every line of a sitting is given, and no line changes.
#[derive(Clone, Copy)]
pub struct Setting<'a> {
    /// Where memory comes from.
    pub alloc: Global,
    /// The program whose labels and statements a person names.
    pub program: &'a Program,
    /// How a person is spoken to.
    pub manner: &'a Manner,
}
