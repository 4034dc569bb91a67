//! What a step did, in words.
ghost use Rattle.std.specs.Prelude.{◌≡◌, ◌<◌, ◌≤◌, length};

use crate::counted::{ADDRESS_DIGITS, label_at, put_span};
use autocoder_statements::word_in;
use bytes_text::Text;
use core_1401::{ADDRESSES, Core};
use cpu_1401::Machine;
use devices_1401::{Card, Movement};
use job_steps::next_change;
use operate_program::Program;
use operate_views::{cells_down, put_change, put_comparison, put_labelled};
use std::alloc::Global;

/// The most places that are shown before and after a step.
const MOST_SHOWN: u16 = 60;

/// The most bytes after which more effects are still added.
const MOST_BYTES: usize = 200;

/// The first place after the area into which cards are read.
const BEYOND_READ: u16 = 81;

/// The operation that compares.
const COMPARE: u8 = b'C';

/// The operation that does nothing, and goes on with the instruction after it, however long it is.
const NO_OPERATION: u8 = b'N';

/// Begins an effect with these words, after what parts it from the one before it.
fn begin(effect: &mut Text, words: &[u8]) {
    if !effect.is_empty() {
        effect.put(b"; ");
    }
    effect.put(words);
}

/// Adds a word, and then a card without the blanks at its end.
fn put_card(effect: &mut Text, word: &[u8], card: &Card) {
    begin(effect, word);
    let len = effect.len();
    effect.put_characters(card.0.as_slice());
    if effect.len() == len {
        effect.put(b"a blank card");
    }
}

/// Adds the movement that waits for the next print, if another one did before the step; where the carriage is, if the
/// step moved it without a print; what a comparison found, if the step was one; and where the machine goes on, if it was
/// a branch that was taken.
fn put_outcome(effect: &mut Text, program: &Program, before: &Machine, after: &Machine) {
    let pending = after.pending_movement();
    if pending != before.pending_movement() {
        match pending {
            None => {}
            Some(Movement::SpaceBy(spaces)) => {
                begin(effect, b"carriage waits: space ");
                effect.put_number(1, u64::from(spaces.count()));
            }
            Some(Movement::SkipTo(hole)) => {
                begin(effect, b"carriage waits: skip to line ");
                effect.put_number(1, u64::from(hole.line()));
            }
        }
    }
    let (old, new) = (before.regs(), after.regs());
    if new.paper == old.paper && (new.line != old.line || new.form != old.form) {
        begin(effect, b"carriage goes to line ");
        effect.put_number(1, u64::from(new.line));
        effect.put(b" of form ");
        effect.put_number(1, u64::from(new.form));
    }
    let Some(cells) = before.next_instruction() else {
        return;
    };
    let [first, ..] = cells.as_slice() else {
        return;
    };
    let len = cells.as_slice().len();
    let operation = first.char.graphic();
    if operation == COMPARE {
        // One of one character leaves the indicators if it finds its fields equal.
        let is_same = old.unequal == new.unequal && old.low == new.low && old.high == new.high;
        let words: &[u8] = if len == 1 && is_same {
            b"the comparison stays "
        } else {
            b"finds "
        };
        begin(effect, words);
        put_comparison(effect, &new);
    }
    let beyond = usize::from(old.i) + len;
    if operation != NO_OPERATION && beyond % usize::from(ADDRESSES) != usize::from(new.i) {
        begin(effect, b"goes to ");
        let label = label_at(program, new.i);
        put_labelled(effect, new.i, word_in(label.as_slice()));
    }
}

/// The end of the places from one on that have no word mark but at the first.
fn beyond_unmarked(core: &Core, at: u16) -> u16
    requires { at < length core.now }
    ensures some { at < result }
    ensures most { result ≤ length core.now }
{
    let size = core.size();
    for end in at + 1..size {
        if core.get(end).mark {
            return end;
        }
    }
    size
}

/// Adds what the places from a low one up to another held and hold, the upper ones first.
fn put_held(alloc: Global, effect: &mut Text, before: &Core, after: &Core, low: u16, end: u16)
    requires before_in { end ≤ length before.now }
    requires after_in { end ≤ length after.now }
{
    if low >= end {
        return;
    }
    let old = cells_down(alloc, before, end - 1, end - low);
    let new = cells_down(alloc, after, end - 1, end - low);
    match (old, new) {
        (Ok(old), Ok(new)) => put_change(effect, &[], old.as_slice(), new.as_slice()),
        _ => effect.fail(),
    }
}

/// Adds the characters of a field before and after a step, if they changed: all of a field with a label, else from the
/// first place that changed to the last; and of many places only that they change.
fn put_rewritten(
    alloc: Global,
    effect: &mut Text,
    program: &Program,
    before: &Core,
    after: &Core,
    low: u16,
    end: u16,
)
    requires before_in { end ≤ length before.now }
    requires after_in { end ≤ length after.now }
{
    let (mut first, mut beyond) = (end, low);
    for at in low..end {
        if before.get(at).char != after.get(at).char {
            first = first.min(at);
            beyond = at + 1;
        }
    }
    if first == end {
        return;
    }
    let label = label_at(program, end.saturating_sub(1));
    let label = word_in(label.as_slice());
    if !label.is_empty() && end.saturating_sub(low) <= MOST_SHOWN {
        begin(effect, label);
        put_held(alloc, effect, before, after, low, end);
        return;
    }
    begin(effect, &[]);
    put_span(effect, first, beyond.saturating_sub(1));
    if beyond.saturating_sub(first) > MOST_SHOWN {
        effect.put(b" change");
    } else {
        put_held(alloc, effect, before, after, first, beyond.min(end));
    }
}

/// Adds the word marks that places get and lose.
fn put_marks(effect: &mut Text, before: &Core, after: &Core, low: u16, end: u16)
    requires before_in { end ≤ length before.now }
    requires after_in { end ≤ length after.now }
{
    for at in low..end {
        let mark = after.get(at).mark;
        if before.get(at).mark != mark && effect.len() <= MOST_BYTES {
            begin(effect, &[]);
            effect.put_number(ADDRESS_DIGITS, u64::from(at));
            let words: &[u8] = if mark {
                b" gets a word mark"
            } else {
                b" loses its word mark"
            };
            effect.put(words);
        }
    }
}

/// Adds what changed in core storage, from a place on.
fn put_changes(
    alloc: Global,
    effect: &mut Text,
    program: &Program,
    before: &Core,
    after: &Core,
    from: u16,
)
    requires { length before.now ≡ length after.now }
{
    let size = after.size();
    let mut at = next_change(before, after, from.min(size));
    for _ in 0..size {
        if at >= size {
            return;
        }
        let low = match after.field_len(at) {
            Some(len) => at + 1 - len,
            None => 0,
        };
        let end = beyond_unmarked(after, at);
        if effect.len() > MOST_BYTES {
            effect.put(b"; ..");
            return;
        }
        put_rewritten(alloc, effect, program, before, after, low, end);
        put_marks(effect, before, after, low, end);
        at = next_change(before, after, end);
    }
}

/// What a step did, by the machine before and after it: the card that it read, what changed in core storage but for the
/// places of that card, the card that it punched, where the carriage is or goes next, what a comparison found, and
/// where a branch led.
pub(crate) fn effect_of(alloc: Global, program: &Program, before: &Machine, after: &Machine) -> Text
    requires { length before.now.storage ≡ length after.now.storage }
{
    let mut effect = Text::new(alloc);
    let mut from = 0;
    if after.devices().hopper() < before.devices().hopper() {
        from = BEYOND_READ;
        if let Some(card) = before.devices().next_card() {
            put_card(&mut effect, b"reads ", &card);
        }
    }
    put_changes(
        alloc,
        &mut effect,
        program,
        before.core(),
        after.core(),
        from,
    );
    if after.devices().stacker() > before.devices().stacker() {
        if let Some(card) = after.devices().last_punched() {
            put_card(&mut effect, b"punches ", &card);
        }
    }
    put_outcome(&mut effect, program, before, after);
    effect
}
