//! The room of a journal's text.
ghost use Rattle.std.specs.Prelude.{◌≡◌, ◌+◌, ◌==◌, ◌≤◌, ℕ, [], List, length, IfOk, IfErr};
ghost use Rattle.std.specs.Option.{ok_or};
ghost use Rattle.std.specs.List.{position_or_len};
ghost use Rattle.machine_notation.specs.Digits.{digits_in};
ghost use Rattle.machine_notation.specs.Prefix.{after_prefix};
ghost use Rattle.console_text.specs.AnswerText.{answer_text};
ghost use Rattle.console_text.specs.CommandText.{command_text};
ghost use Rattle.room_alone.specs.declared.entry.Entry.{Entry};
ghost use Rattle.room_alone.specs.Journal.{IsLegal, most_entries};
ghost use Rattle.room_files.specs.JournalText.{header_text, tab, with_feed, with_tab};
ghost use Rattle.room_files.specs.Reading.{HasHeader, IsNoHeader, IsRefused, IsRefusedIn, IsTextOf, IsThat, IsWhy};
ghost use Rattle.room_files.specs.Reading.{Takes, command_at, command_in, entry_at, field, has_line, number_at, seat_at};
ghost use Rattle.room_files.specs.Reading.{seat_in, size_among};

use crate::journal_fault::{JournalFault, Wrong};
use crate::writing::{put_answer, put_header, put_said};
use bytes_text::{Piece, Text};
use console_text::{Line, parse_fit, parse_line};
use core_1401::SIZES;
use machine_notation::read_digits;
use room_alone::{Answer, Command, Room, RoomFault};
use std::alloc::{AllocError, Global};

/// The room that has the journal of a text: its storage, registers and devices are those of the machine that carries
/// out the text's commands from power-on, and answers each as the text says.
///
/// # Errors
///
/// The first line that no journal has, and what is wrong with it; `Unfinished` if the text ends before its last line
/// does. `Memory` if memory was refused before that was known.
pub fn read_journal(alloc: Global, text: &[u8]) -> Result<Room, JournalFault>
    // What is read is the room whose journal's text this is.
    ensures read { IfOk result (λ room. IsTextOf text.now room.size room.journal []) }

    // A journal's text is read as the room that has it, unless memory is refused.
    ensures again { (size : ℕ) (journal : List Entry) → IsTextOf text.now size journal []
        → IfOk result (λ room. IsThat room.size room.journal [] size journal []) }
    ensures memory { (size : ℕ) (journal : List Entry) → IsTextOf text.now size journal []
        → IfErr result (λ fault. fault.why ≡ Wrong.Memory) }

    // Any other text is refused for its first wrong line.
    ensures fault { IfErr result (IsRefused text.now) }
{
    let (room, rest) = match recover_journal(alloc, text) {
        Ok(found) => found,
        Err(fault) => return Err(fault),
    };
    if rest.is_empty() {
        Ok(room)
    } else {
        Err(JournalFault {
            line: line_due(&room),
            why: Wrong::Unfinished,
        })
    }
}

/// As `read_journal`, but the last line may be unfinished: also gives what there is of it, which has no line feed.
///
/// # Errors
///
/// As those of `read_journal`; `Unfinished` for the first line alone.
pub fn recover_journal(alloc: Global, text: &[u8]) -> Result<(Room, &[u8]), JournalFault>
    ensures read { IfOk result (λ found. IsTextOf text.now found.0.size found.0.journal found.1.now) }
    ensures again { (size : ℕ) (journal : List Entry) (rest : List ℕ) → IsTextOf text.now size journal rest
        → IfOk result (λ found. IsThat found.0.size found.0.journal found.1.now size journal rest) }
    ensures memory { (size : ℕ) (journal : List Entry) (rest : List ℕ) → IsTextOf text.now size journal rest
        → IfErr result (λ fault. fault.why ≡ Wrong.Memory) }
    ensures fault { IfErr result (IsRefused text.now) }
{
    let (size, beyond) = match split_first(alloc, text) {
        Ok(header) => header,
        Err(why) => return Err(JournalFault { line: 1, why }),
    };
    let Ok(mut room) = Room::power_on(alloc, size) else {
        let why = Wrong::Memory;
        return Err(JournalFault { line: 1, why });
    };
    let _machine = room.machine();
    let mut rest = beyond;
    'lines: while has_line(rest) {
        let line = line_due(&room);
        match read_entry(alloc, &mut room, rest) {
            Ok(beyond) => rest = beyond,
            Err(why) => return Err(JournalFault { line, why }),
        }
    }
    Ok((room, rest))
}

/// The number of the line that the next entry has.
fn line_due(room: &Room) -> u32
    ensures { result ≡ length room.now.journal + 2 }
{
    room.journal().len() as u32 + 2
}

/// Whether a line feed is left.
fn has_line(text: &[u8]) -> bool
    ensures { result ≡ has_line text.now }
{
    text.contains(&b'\n')
}

/// The size that the first line names, and what follows that line.
#[tactic(auto, unfolding(crate::specs::Reading::size_at))]
fn split_first(alloc: Global, text: &[u8]) -> Result<(u16, &[u8]), Wrong>
    ensures ok { IfOk result (λ found. HasHeader text.now found.0 found.1.now) }
    ensures err { IfErr result (IsRefusedIn text.now 1) }
{
    if !has_line(text) {
        return Err(Wrong::Unfinished);
    }
    match split_header(alloc, text, &SIZES) {
        Ok(found) => Ok(found),
        Err(why) => Err(why),
    }
}

/// The size, of these, that the first line names, and what follows that line.
fn split_header<'a>(alloc: Global, text: &'a [u8], sizes: &[u16]) -> Result<(u16, &'a [u8]), Wrong>
    ensures size { IfOk result (λ found. size_among sizes.now text.now ≡ Some found.0) }
    ensures rest { IfOk result (λ found. after_prefix (header_text found.0) text.now ≡ Some found.1.now) }
    ensures err { IfErr result (IsNoHeader sizes.now text.now) }
{
    let [size, more @ ..] = sizes else {
        return Err(Wrong::Header);
    };
    let mut front = Text::new(alloc);
    put_header(&mut front, *size);
    let Ok(front) = front.into_bytes() else {
        return Err(Wrong::Memory);
    };
    match text.strip_prefix(front.as_slice()) {
        Some(rest) => Ok((*size, rest)),
        None => split_header(alloc, text, more),
    }
}

/// Reads the entry that a text begins with, has the machine carry its command out, and compares the answer. Gives what
/// follows its line.
#[tactic(auto, unfolding(crate::specs::Reading::entry_at, crate::specs::Reading::answer_at))]
fn read_entry<'a>(alloc: Global, room: &mut Room, text: &'a [u8]) -> Result<&'a [u8], Wrong>
    ensures read { IfOk result (λ rest. Takes room.old.size room.old.journal text.now room.new.journal rest.now) }
    ensures why { IfErr result (IsWhy (entry_at room.old.size room.old.journal text.now)) }
    ensures size { room.new.size ≡ room.old.size }
    ensures legal { IsLegal room.new.size room.new.journal }
    ensures bound { length room.new.journal ≤ most_entries }
{
    let number = room.journal().len() as u64 + 1;
    let text = match split_number(alloc, number, text) {
        Ok(text) => text,
        Err(why) => return Err(why),
    };
    let (seat, text) = match split_seat(alloc, text) {
        Ok(found) => found,
        Err(why) => return Err(why),
    };
    let (command, text) = match split_command(alloc, text) {
        Ok(found) => found,
        Err(why) => return Err(why),
    };
    let carried = room.carry(seat, command);
    let _journal = room.journal();
    match carried {
        Ok(answer) => match split_answer(alloc, &answer, text) {
            Ok(rest) => Ok(rest),
            Err(why) => Err(why),
        },
        Err(RoomFault::JournalFull) => Err(Wrong::Full),
        Err(RoomFault::Memory | RoomFault::NoReading | RoomFault::Unkept) => Err(Wrong::Memory),
    }
}

/// The number of bytes before the first tab.
fn bytes_before_tab(text: &[u8]) -> usize
    ensures value { result ≡ position_or_len (λ byte. byte == tab) text.now }
    ensures bound { result ≤ length text.now }
{
    text.iter().take_while(|byte| **byte != b'\t').count()
}

/// What is before the first tab.
fn field(text: &[u8]) -> &[u8]
    ensures { result.now ≡ field text.now }
{
    &text[..bytes_before_tab(text)]
}

/// What follows the number that is due and its tab.
#[tactic(auto, unfolding(crate::specs::Reading::number_at))]
fn split_number(alloc: Global, number: u64, text: &[u8]) -> Result<&[u8], Wrong>
    ensures ok { IfOk result (λ rest. number_at number text.now ≡ Ok rest.now) }
    ensures why { IfErr result (IsWhy (number_at number text.now)) }
{
    let Ok(front) = number_front(alloc, number) else {
        return Err(Wrong::Memory);
    };
    text.strip_prefix(front.as_slice()).ok_or(Wrong::Number)
}

/// A number and its tab.
fn number_front(alloc: Global, number: u64) -> Result<Vec<u8>, AllocError>
    ensures { IfOk result (λ text. text.items ≡ with_tab (digits_in 1 number)) }
{
    let mut text = Text::new(alloc);
    text.put_pieces(&[Piece::Count(number), Piece::Byte(b'\t')]);
    text.into_bytes()
}

/// A seat, and what follows it and its tab.
#[tactic(auto, unfolding(crate::specs::Reading::seat_at))]
fn split_seat(alloc: Global, text: &[u8]) -> Result<(u8, &[u8]), Wrong>
    ensures ok { IfOk result (λ found. seat_at text.now ≡ Ok (found.0, found.1.now)) }
    ensures why { IfErr result (IsWhy (seat_at text.now)) }
{
    let Some(seat) = seat(field(text)) else {
        return Err(Wrong::Seat);
    };
    let Ok(front) = number_front(alloc, u64::from(seat)) else {
        return Err(Wrong::Memory);
    };
    match text.strip_prefix(front.as_slice()) {
        Some(rest) => Ok((seat, rest)),
        None => Err(Wrong::Seat),
    }
}

/// The seat that a field names.
#[tactic(auto, unfolding(crate::specs::Reading::seat_in))]
fn seat(text: &[u8]) -> Option<u8>
    ensures { result ≡ seat_in text.now }
{
    if text.len() > 3 {
        return None;
    }
    match read_digits(text) {
        Some(number) if number < 256 => Some(number as u8),
        _ => None,
    }
}

/// A command in its own text, and what follows it and its tab.
#[tactic(auto, unfolding(crate::specs::Reading::command_at))]
fn split_command(alloc: Global, text: &[u8]) -> Result<(Command, &[u8]), Wrong>
    ensures ok { IfOk result (λ found. command_at text.now ≡ Ok (found.0, found.1.now)) }
    ensures why { IfErr result (IsWhy (command_at text.now)) }
{
    let Some(command) = command(field(text)) else {
        return Err(Wrong::Command);
    };
    let mut front = Text::new(alloc);
    put_said(&mut front, &command);
    front.put_byte(b'\t');
    let Ok(front) = front.into_bytes() else {
        return Err(Wrong::Memory);
    };
    match text.strip_prefix(front.as_slice()) {
        Some(rest) => Ok((command, rest)),
        None => Err(Wrong::Command),
    }
}

/// The command that a field has: what fits a machine, which no line at a console says, or a line's.
fn command(text: &[u8]) -> Option<Command>
    ensures { result ≡ command_in text.now }
{
    if let Some(features) = parse_fit(text) {
        return Some(Command::Fit(features));
    }
    match parse_line(text) {
        Ok(Line::Command(command)) => Some(command),
        _ => None,
    }
}

/// What follows an answer and its line feed.
fn split_answer<'a>(alloc: Global, answer: &Answer, text: &'a [u8]) -> Result<&'a [u8], Wrong>
    ensures ok { IfOk result (λ rest. after_prefix (with_feed (answer_text answer.now)) text.now ≡ Some rest.now) }
    ensures why { IfErr result
        (IsWhy (ok_or (after_prefix (with_feed (answer_text answer.now)) text.now) Wrong.Answer)) }
{
    let mut front = Text::new(alloc);
    put_answer(alloc, &mut front, answer);
    front.put_byte(b'\n');
    let Ok(front) = front.into_bytes() else {
        return Err(Wrong::Memory);
    };
    text.strip_prefix(front.as_slice()).ok_or(Wrong::Answer)
}
