//! All faults of a source but those that only follow from others, what is wrong at each, and what the lines say of
//! labels.
//!
//! ```text
//! source_faults(alloc, language, source)?                     // all that don't only follow from one told before
//! source_explanations(alloc, language, source)?               // each with what is wrong, and in which columns
//! explanation_pages(alloc, language, source)?                 // the same, taken a page after the other
//! ```
//!
//! `notes` collects what the lines say of labels, for warnings of sources without a fault.
//!
//! The first line of a source with a fault, and the lowest kind of fault on it.
//!
//! ```text
//! let symbols = declared(alloc, hashing, language, &lines)?;  // what the lines declare, by `autocoder_symbols`
//! first_fault(&symbols, &lines)                               // what the assembler tells, of kinds 2 to 8, 10 and 11
//! FaultlessLines::read(alloc, language, source)?              // the lines of a source that has none of these
//! ```
//!
//! Kind 9, what isn't in core, shows only once all is placed: see `autocoder_placing`.
#![tactic(auto)]

mod declarations; // what is declared, by the lines up to END and by all
pub mod own_fault; // which faults only follow from one told before
pub mod told_faults; // all faults of lines but those
pub mod explanation; // what is wrong at a fault, and in which columns
pub mod explained_lines; // the same faults, each with what is wrong
pub mod notes; // what lines say of labels, and which indicators they can set
pub mod first_fault; // faults of kinds 2 to 8, 10 and 11
pub mod faultless; // the lines of a source without any of them

pub use explained_lines::{ExplanationPages, explanation_pages, source_explanations};
pub use explanation::{Cause, Explanation, WHOLE_LINE};
pub use faultless::FaultlessLines;
pub use first_fault::symbol_in;
pub use notes::{LabelSet, Notes};
pub use told_faults::source_faults;
