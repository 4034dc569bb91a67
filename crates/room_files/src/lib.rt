//! Journals of the IBM 1401 that are kept in files: each entry is a line, written before its command's reply.
//!
//! ```text
//! let made = create_journal(rt, name, Durability::Disk)?;                      // new, and locked
//! keep_session::<J, _, _, _>(alloc, room, made.file, &mut reader, &mut writer) // each command is kept, then answered
//! ```
//!
//! The text of a journal is written, and read again:
//!
//! ```text
//! write_journal(alloc, 4000, room.journal())?   // JOURNAL1 4000, and a line for each entry
//! read_journal(alloc, text)?                    // the room that has the journal of this text
//! list_journal(alloc, room.journal(), view)?    // 1 seat 0  REGS  .., in columns
//! ```
#![tactic(auto)]

// why a journal isn't kept, or isn't taken up
pub mod fault;

// a keeper that writes the text of a journal, a room with it, and sessions there
pub mod keeping;
pub mod sessions;
pub mod text_keeper;

// a sink for the text of a journal whose commands are carried out again
pub mod verifier;

// the files of journals, and new ones
pub mod files;
pub mod journal_file;
pub mod new_file;

// a file that has a journal, and is to have another
pub mod rewriting;

// a journal shown or checked
pub mod showing;

// why a text is no journal's
pub mod journal_fault;

// the text of a journal, and the room of a text
pub mod reading;
pub mod writing;

// a room that has some of a journal's commands
pub mod choosing;

// a journal in columns
pub mod listing;

pub use choosing::carry_chosen;
pub use fault::{JournalFileFault, KeepFault, TextFault};
pub use files::{
    FoundJournal, TakenUp, find_journal, read_journal_file, read_room, take_up_journal,
};
pub use journal_fault::{JournalFault, Wrong};
pub use journal_file::{Durability, JournalFile};
pub use keeping::{begin_text, keep_room, take_up_room, verify_journal};
pub use listing::{View, list_journal};
pub use new_file::{MadeJournal, MadeName, begin_journal, create_journal};
pub use reading::{read_journal, recover_journal};
pub use rewriting::rewrite_journal;
pub use sessions::{keep_session, resume_session};
pub use showing::{ShowFault, check_journal, show_journal};
pub use text_keeper::{Beginning, TextKeeper};
pub use verifier::Verifier;
pub use writing::write_journal;
