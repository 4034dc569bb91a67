//! A journal in columns, to be read by people.
ghost use Rattle.std.specs.Prelude.{◌≡◌, IfOk};
ghost use Rattle.bytes_text.specs.Written.{Adds};
ghost use Rattle.console_text.specs.CommandText.{command_text};
ghost use Rattle.room_files.specs.Listing.{is_seat, listed, listed_line, listing_text, to_command_columns};

use crate::writing::{put_answer, put_said};
use bytes_text::{Piece, Text};
use room_alone::{Command, Entry};
use std::alloc::{AllocError, Global};

/// The least number of columns that a command has.
const COMMAND_COLUMNS: usize = 27;

/// Which entries of a journal are listed.
#[derive(Clone, Copy)]
pub struct View {
    /// The seat whose entries are listed; without one those of each seat.
    pub seat: Option<u8>,
    /// The number of the first entry that may be listed; the first of all has 1.
    pub from: u64,
}

/// The entries that are asked for, a line each: the number, the seat, the command and the answer.
///
/// # Errors
///
/// If the memory for the text is refused.
pub fn list_journal(alloc: Global, journal: &[Entry], view: View) -> Result<Vec<u8>, AllocError>
    ensures { IfOk result (λ text. text.items ≡ listing_text view journal.now) }
{
    let mut text = Text::new(alloc);
    for (i, entry) in journal.iter().enumerate() {
        put_listed(alloc, &mut text, view, i as u64 + 1, entry);
    }
    text.into_bytes()
}

/// Adds the line of an entry, if it is asked for.
#[tactic(auto, unfolding(crate::specs::Listing::listed))]
fn put_listed(alloc: Global, text: &mut Text, view: View, number: u64, entry: &Entry)
    ensures { Adds text.old text.new (listed view number entry.now) }
{
    if number >= view.from && is_seat(view.seat, entry.seat) {
        put_line(alloc, text, number, entry);
    }
}

/// Whether a seat is listed.
fn is_seat(named: Option<u8>, seat: u8) -> bool
    ensures { result ≡ is_seat named seat }
{
    match named {
        Some(named) => seat == named,
        None => true,
    }
}

/// Adds the line of an entry.
#[tactic(auto, unfolding(crate::specs::Listing::listed_line, crate::specs::Listing::front_columns), using(bytes_text::proofs::AddsLemmas::adds_padded))]
fn put_line(alloc: Global, text: &mut Text, number: u64, entry: &Entry)
    ensures { Adds text.old text.new (listed_line number entry.now) }
{
    text.put_pieces(&[
        Piece::Count(number),
        Piece::Text(b" seat "),
        Piece::Small(entry.seat),
        Piece::Text(b"  "),
    ]);
    put_command_columns(text, &entry.command);
    text.put(b"  ");
    put_answer(alloc, text, &entry.answer);
    text.put_byte(b'\n');
}

/// Adds a command's text, followed by blanks up to the columns of a command.
#[tactic(auto, using(bytes_text::proofs::AddsLemmas::adds_padded))]
fn put_command_columns(text: &mut Text, command: &Command)
    ensures { Adds text.old text.new (to_command_columns (command_text command.now)) }
{
    let from = text.len();
    put_said(text, command);
    text.pad(from, COMMAND_COLUMNS);
}
