//! The text of a journal.
ghost use Rattle.std.specs.Prelude.{◌≡◌, IfOk};
ghost use Rattle.bytes_text.specs.Written.{Adds};
ghost use Rattle.console_text.specs.AnswerText.{answer_text};
ghost use Rattle.console_text.specs.CommandText.{command_text};
ghost use Rattle.room_files.specs.JournalText.{entry_text, header_text, journal_text};

use bytes_text::{Piece, Text};
use console_text::{put_command, reply_text};
use room_alone::{Answer, Command, Entry};
use std::alloc::{AllocError, Global};

/// The text of a journal of a machine of this size.
///
/// # Errors
///
/// If the memory for the text is refused.
pub fn write_journal(alloc: Global, size: u16, journal: &[Entry]) -> Result<Vec<u8>, AllocError>
    ensures { IfOk result (λ text. text.items ≡ journal_text size journal.now) }
{
    let mut text = Text::new(alloc);
    put_header(&mut text, size);
    for (i, entry) in journal.iter().enumerate() {
        put_entry(alloc, &mut text, i as u64 + 1, entry);
    }
    text.into_bytes()
}

/// Adds the first line.
pub(crate) fn put_header(text: &mut Text, size: u16)
    ensures { Adds text.old text.new (header_text size) }
{
    text.put_pieces(&[
        Piece::Text(b"JOURNAL1 "),
        Piece::Number(1, size),
        Piece::Byte(b'\n'),
    ]);
}

/// Adds the line of an entry: its number in the journal, its seat, its command and its answer, parted by tabs, and a
/// line feed (own).
#[tactic(auto, unfolding(crate::specs::JournalText::entry_text))]
pub(crate) fn put_entry(alloc: Global, text: &mut Text, number: u64, entry: &Entry)
    ensures { Adds text.old text.new (entry_text number entry.now) }
{
    text.put_pieces(&[
        Piece::Count(number),
        Piece::Byte(b'\t'),
        Piece::Small(entry.seat),
        Piece::Byte(b'\t'),
    ]);
    put_said(text, &entry.command);
    text.put_byte(b'\t');
    put_answer(alloc, text, &entry.answer);
    text.put_byte(b'\n');
}

/// Adds a command's own text.
pub(crate) fn put_said(text: &mut Text, command: &Command)
    ensures { Adds text.old text.new (command_text command.now) }
{
    let mut bytes = text.take();
    let added = put_command(&mut bytes, command);
    text.put_back(bytes, added);
}

/// Adds the text of an answer.
pub(crate) fn put_answer(alloc: Global, text: &mut Text, answer: &Answer)
    ensures { Adds text.old text.new (answer_text answer.now) }
{
    match reply_text(alloc, answer) {
        Ok(reply) => text.put(reply.as_slice()),
        Err(_) => text.fail(),
    }
}
