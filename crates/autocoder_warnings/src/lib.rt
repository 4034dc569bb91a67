//! What a source says and hardly means, though its lines have no fault.
//!
//! ```text
//! source_warnings(alloc, language, source, 4_000, Features::NONE)?    // a line each, with what it is about
//! lost_warnings(alloc, language, source)?     // those of what isn't read or started
//! ```
//!
//! What the lines say of labels is collected by `autocoder_diagnostics`, and core storage is filled with their cells by
//! `autocoder_placing`.
#![tactic(auto)]

mod fitted_notes; // what the lines say on a machine with features
pub mod loss; // operands that are lost after a text or the last column
pub mod overlap; // places that two lines fill
pub mod warning; // what a source without a fault says and hardly means

pub use loss::Loss;
pub use overlap::Overlap;
pub use warning::{Warning, WarningKind, lost_warnings, source_warnings};
