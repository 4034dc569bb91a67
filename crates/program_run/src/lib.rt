//! A program run with its deck, from files to files: source or image in, paper, punched cards and trace out.
//!
//! ```text
//! run_file(rt, ErrorOutput::Other, job)?  // the paper on standard output, how it ended on standard error
//! ```
//!
//! `run_started` is the part that knows no file: a machine with its tape units, cards, and sinks for what goes out.
#![tactic(auto)]

// what a run begins with
pub mod card_lists;
mod inputs;
mod loaded_image;
mod one_file;
pub mod programs;
mod reels;
mod source_reports;

// the files of its reels, which are written when it has ended
pub mod reel_files;

// a machine run with a deck; where what comes goes, and who hears of it
pub mod deck_running;
pub mod outputs;
pub mod punch_file;
pub mod tracing;
pub mod watching;

// how a run ended, in words
pub mod ending;
pub mod fault;
pub mod job_report;
pub mod running;
pub mod stopped_at;

pub use card_lists::list_cards;
pub use deck_running::{Broken, run_started};
pub use ending::Ending;
pub use fault::{RunFault, job_outcome};
pub use inputs::{read_cards, read_program_text, report_source, tell_small_letters};
pub use job_report::JobReport;
pub use outputs::Outputs;
pub use program_arguments::{is_refused, size_for};
pub use programs::{image_machine, is_image, loaded_machine, program_of};
pub use punch_file::PunchFile;
pub use reel_files::{NamedFiles, ReelFiles};
pub use running::{ErrorOutput, run_file, run_job, tell_ending};
pub use stopped_at::RunSource;
pub use tracing::Trace;
pub use watching::{HowFar, Shown, Unwatched, Watch};
