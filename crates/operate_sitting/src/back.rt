//! Instructions taken back.
ghost use Rattle.std.specs.Prelude.{◌≡◌, ◌+◌, ◌-◌, ◌≤◌, ◌↔◌, ◌++◌, true, None, Some, length, take, IfOk, OnOk};
ghost use Rattle.room_alone.specs.Journal.{most_entries, pairs_of, state_of};
ghost use Rattle.room_alone.specs.Replay.{state_after};
ghost use Rattle.operate_sitting.specs.Back.{back_of, gone_from, instructions_of, part_in, part_of, steps_in, whole_in};
ghost use Rattle.operate_sitting.specs.Back.{whole_of};
ghost use Rattle.operate_sitting.specs.Machines.{machines_after, machines_of};

use crate::again::{BackFault, carry_entries};
use crate::interrupter::Interrupter;
use cpu_1401::{Answer, Command};
use room_alone::{Entry, Room, RoomFault};
use std::alloc::Global;

/// The room as it was this many instructions ago: a new room that carries out again what is left of the journal without
/// them. Commands after the instruction that was the last one then are gone, but for those before the next instruction.
///
/// # Errors
///
/// `TooFew` if fewer instructions were carried out, else as those of `carry_entries`.
pub fn carry_back<C, I: Interrupter<C>>(
    alloc: Global,
    room: &Room,
    count: u64,
    interrupter: &mut I,
    console: &mut C,
) -> Result<Room, BackFault>
    requires { I.is_sound interrupter.old console.old ≡ true }
    ensures commands { IfOk result (λ earlier. Some (pairs_of earlier.journal) ≡ back_of count room.now.journal) }
    ensures size { IfOk result (λ earlier. earlier.size ≡ room.now.size) }
    ensures too_few { (result ≡ Err BackFault.TooFew) ↔ (back_of count room.now.journal ≡ None) }
    ensures sound { I.is_sound interrupter.new console.new ≡ true }

    // So many instructions fewer were carried out, and after each of the others the machine was the same.
    ensures instructions { IfOk result (λ earlier.
        instructions_of earlier.journal + count ≡ instructions_of room.now.journal) }
    ensures machines { IfOk result (λ earlier. machines_of earlier.size earlier.journal
        ≡ take (instructions_of earlier.journal) (machines_of room.now.size room.now.journal)) }

    // What is gone leads from the earlier machine to the room's, by so many instructions.
    ensures gone { IfOk result (λ earlier. state_after (state_of earlier.size earlier.journal)
        (gone_from count room.now.journal) ≡ state_of room.now.size room.now.journal) }
    ensures by { IfOk result (λ earlier. length (machines_after (state_of earlier.size earlier.journal)
        (gone_from count room.now.journal)) ≡ count) }
{
    let total = instructions_of(room.journal());
    if count > total {
        return Err(BackFault::TooFew);
    }
    let cut = cut_after(room.journal(), total - count);
    let mut earlier = match carry_entries(alloc, room, cut.whole, interrupter, console) {
        Ok(earlier) => earlier,
        Err(fault) => return Err(fault),
    };
    // Its journal is never full: it has no entry more than the room's.
    if carry_part(&mut earlier, cut.seat, cut.limit).is_err() {
        return Err(BackFault::Memory);
    }
    let _legal = earlier.journal();
    Ok(earlier)
}

/// How many entries of a journal stay as they are when so many instructions are taken back; all if there are fewer.
pub fn whole_entries(journal: &[Entry], count: u64) -> usize
    requires { length journal.now ≤ most_entries }
    ensures { result ≡ whole_of count journal.now }
{
    let total = instructions_of(journal);
    cut_after(journal, total.saturating_sub(count)).whole
}

/// How many instructions the runs of a journal carried out.
pub fn instructions_of(journal: &[Entry]) -> u64
    requires { length journal.now ≤ most_entries }
    ensures { result ≡ instructions_of journal.now }
{
    let mut count = 0;
    for entry in journal {
        count += u64::from(steps_in(&entry.answer));
    }
    count
}

/// How many instructions an answer reports: those that a run carried out.
fn steps_in(answer: &Answer) -> u32
    ensures { result ≡ steps_in answer.now }
{
    match *answer {
        Answer::Ran { steps, .. } => steps,
        _ => 0,
    }
}

/// Where a journal is cut: so many entries stay whole, and what stays of the next one is a run of this seat with this
/// limit, or nothing if that is 0.
#[derive(Clone, Copy)]
struct Cut {
    whole: usize,
    seat: u8,
    limit: u32,
}

/// Where a journal is cut that keeps its first instructions, this many.
fn cut_after(journal: &[Entry], count: u64) -> Cut
    ensures whole { result.whole ≡ whole_in count journal.now }
    ensures part { part_of result.seat result.limit ≡ part_in count journal.now }
{
    let mut left = count;
    for (whole, entry) in journal.iter().enumerate() {
        let steps = u64::from(steps_in(&entry.answer));
        if steps > left {
            let limit = left as u32;
            let seat = entry.seat;
            return Cut { whole, seat, limit };
        }
        left -= steps;
    }
    Cut {
        whole: journal.len(),
        seat: 0,
        limit: 0,
    }
}

/// Carries out so many instructions of a run, if there are any.
fn carry_part(room: &mut Room, seat: u8, limit: u32) -> Result<(), RoomFault>
    ensures commands { OnOk result (pairs_of room.new.journal
        ≡ pairs_of room.old.journal ++ part_of seat limit) }
    ensures size { room.new.size ≡ room.old.size }
{
    if limit == 0 {
        return Ok(());
    }
    match room.carry(seat, Command::Run { limit }) {
        Ok(_) => Ok(()),
        Err(fault) => Err(fault),
    }
}
