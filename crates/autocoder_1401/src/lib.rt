//! The Autocoder assembler: the core image and the listing of a source, or the first line with a fault.
//!
//! ```text
//! let assembly = assemble(alloc, source, 4_000)?;
//! assembly.image                          // the size, the segments and the place where the program starts
//! assembly.listing.as_slice()             // the lines of the source with their addresses and cells
//! assemble_in(alloc, Language::Ibm, source, 4_000)?       // the same of a source in the wider language
//! ```
//!
//! The passes are in `assembly`. What they are made of is in crates of its own: `autocoder_symbols` reads the lines and
//! follows the chains of EQUs, `autocoder_diagnostics` looks for the first fault, `autocoder_diagnostics` for all of them,
//! `autocoder_placing` places lines and makes their cells, `autocoder_image` makes the image, `autocoder_listing` what
//! is printed, and `autocoder_warnings` reports likely mistakes in a source that assembles. What a source is refused
//! for, and what is wrong at a fault, is handed on from there; images and their texts from `machine_image`.
#![tactic(auto)]

pub mod assembly; // the passes, in their order
pub mod tables; // an assembly with its symbol table and its cross-reference
pub mod packed; // an image in few bytes
pub mod program; // an image with the rows of its listing and its symbols
pub mod placing_line; // the line that placed cells
pub mod listed; // the listing, ready to be written
pub mod all_faults; // all faults of a source
pub mod explaining; // all faults of a source, each with what is wrong
pub mod outside; // what of a line isn't in core
pub mod warning; // likely mistakes in a source without a fault
pub mod messages; // what is wrong at a fault, and warnings as editors read them
pub mod fault_texts; // faults as editors read them

pub use all_faults::faults;
pub use assembly::{Assembly, assemble, assemble_image, assemble_in};
pub use autocoder_diagnostics::explanation::{Cause, Explanation};
pub use autocoder_image::packed_image::PackedImage;
pub use autocoder_image::ready_image::{ReadyImage, write_packed};
pub use autocoder_image::segments_left::SegmentsLeft;
pub use autocoder_listing::listing::{Listing, ListingLine};
pub use autocoder_listing::rows::{Row, Rows};
pub use autocoder_listing::symbol_table::Symbol;
pub use autocoder_listing::writing::{ReadyListing, write_listing};
pub use autocoder_statements::Language;
pub use autocoder_symbols::fault::{AsmFault, AsmKind};
pub use explaining::explained_faults;
pub use fault_texts::{FaultPages, fault_help, fault_lines};
pub use listed::assemble_listing;
pub use machine_image::{
    Image, ImageFault, LentImage, Segment, Segments, lend_image, read_image, write_image,
};
pub use messages::warning_lines;
pub use packed::assemble_packed;
pub use placing_line::line_placing;
pub use program::{AssemblyProgram, assemble_program};
pub use tables::{AssemblyTables, assemble_with_tables};
pub use warning::{Warning, WarningKind, lost_warnings, warnings};
