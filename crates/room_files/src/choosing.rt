//! A room that has carried out some of a journal's commands.
ghost use Rattle.std.specs.Prelude.{◌≡◌, ◌+◌, ◌<◌, ◌≤◌, ◌==◌, ◌||◌, ◌++◌, ℕ, true, false, length, get_or};
ghost use Rattle.std.specs.Prelude.{◌&&◌, not, nat_lt, IfOk, IfErr, OnOk};
ghost use Rattle.std.specs.List.{list_any};
ghost use Rattle.core_1401.specs.Storage.{is_core_size};
ghost use Rattle.room_alone.specs.Journal.{pairs_of, refusal_of};
ghost use Rattle.room_files.specs.Choice.{IsWhyNotCarried, chosen, if_chosen};

use core_1401::CoreFault;
use room_alone::{Entry, Room, RoomFault};
use std::alloc::{AllocError, Global};

/// A new room in which each seat has given its commands of a journal again, in their order: those up to a number,
/// without some. Answers may differ from the journal's if a command before them is missing.
///
/// # Errors
///
/// `Memory` if there is no room for the machine, for an entry or for a mark for each; `JournalFull` if more entries are
/// chosen than a journal has.
pub fn carry_chosen(
    alloc: Global,
    size: u16,
    journal: &[Entry],
    until: u64,
    without: &[u64],
) -> Result<Room, RoomFault>
    requires { is_core_size size ≡ true }
    ensures commands { IfOk result (λ room. pairs_of room.journal ≡ chosen until without.now journal.now) }
    ensures size { IfOk result (λ room. room.size ≡ size) }
    ensures fault { IfErr result (IsWhyNotCarried (chosen until without.now journal.now)) }
{
    let Ok(left_out) = mark_numbers(alloc, journal.len(), without) else {
        return Err(RoomFault::Memory);
    };
    let mut room = match Room::power_on(alloc, size) {
        Ok(room) => room,
        Err(CoreFault::Memory | CoreFault::Size) => return Err(RoomFault::Memory),
    };
    for (i, entry) in journal.iter().enumerate() {
        let chosen = is_chosen(until, left_out[i + 1], i as u64);
        match carry_if_chosen(&mut room, entry, chosen) {
            Ok(()) => {}
            Err(fault) => return Err(fault),
        }
    }
    Ok(room)
}

/// For each number up to this one, whether it is among these.
fn mark_numbers(alloc: Global, last: usize, numbers: &[u64]) -> Result<Vec<bool>, AllocError>
    ensures count { IfOk result (λ marks. length marks.items ≡ last + 1) }
    ensures marks { IfOk result (λ marks. (n : ℕ) → n ≤ last
        → get_or marks.items n false ≡ list_any (λ number. number == n) numbers.now) }
{
    let mut marks = vec![in alloc; false; last]?;
    marks.push(false)?;
    for number in numbers {
        mark_number(&mut marks, *number);
    }
    Ok(marks)
}

/// Marks a number, if there is a mark for it.
fn mark_number(marks: &mut Vec<bool>, number: u64)
    ensures count { length marks.new.items ≡ length marks.old.items }
    ensures marks { (n : ℕ) → n < length marks.old.items
        → get_or marks.new.items n false ≡ (get_or marks.old.items n false || number == n) }
{
    if number < marks.len() as u64 {
        marks[number as usize] = true;
    }
}

/// Whether the command of the entry at this place is chosen; its number is one more.
fn is_chosen(until: u64, is_left_out: bool, place: u64) -> bool
    ensures { result ≡ (nat_lt place until && not is_left_out) }
{
    place < until && !is_left_out
}

/// Carries out the command of an entry, if it is chosen.
fn carry_if_chosen(room: &mut Room, entry: &Entry, chosen: bool) -> Result<(), RoomFault>
    ensures commands { OnOk result (pairs_of room.new.journal
        ≡ pairs_of room.old.journal ++ if_chosen chosen entry.now) }
    ensures size { room.new.size ≡ room.old.size }
    ensures fault { IfErr result (λ fault. fault ≡ refusal_of room.old.journal) }
    ensures chosen { IfErr result (λ fault. chosen ≡ true) }
{
    if !chosen {
        return Ok(());
    }
    match room.carry(entry.seat, entry.command) {
        Ok(_) => Ok(()),
        Err(fault) => Err(fault),
    }
}
