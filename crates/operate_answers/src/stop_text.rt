//! Breaks and watches in words: as they are set, as they are met, and all of them.
ghost use Rattle.std.specs.Prelude.{◌≡◌};
ghost use Rattle.bytes_text.specs.Written.{Adds};
ghost use Rattle.operate_answers.specs.StopText.{name_text, no_instruction_text, nth_text, often_text, other_text, others_text};
ghost use Rattle.operate_answers.specs.StopText.{printed_with_text, there_too_text, terms_text, times_text, watched_text};

use crate::counted::{label_at, put_count, put_some_cells, put_span};
use crate::stop_test::StopTest;
use crate::stops::{NumberedStop, Said, Stops};
use crate::there::put_address;
use crate::typed::{put_quoted, put_typed_condition, put_typed_range};
use autocoder_statements::word_in;
use bcd_1401::Cell;
use bytes_text::Text;
use core_1401::Core;
use operate_orders::{Condition, Watched};
use operate_program::Program;
use operate_sitting::PlaceWatch;
use operate_views::put_labelled;
use std::alloc::Global;

/// The most places of a watch whose cells are all shown when it is met; of more, those that changed.
const MOST_WHOLE: usize = 40;

/// Adds at which visit a break stops, if not at each.
fn put_nth(text: &mut Text, after: Option<u32>)
    ensures { Adds text.old text.new (nth_text after) }
{
    if let Some(visits) = after {
        text.put(b" after ");
        text.put_number(1, u64::from(visits));
    }
}

/// Adds `after N` and `if CONDITION`, as far as a break has them.
fn put_terms(text: &mut Text, after: Option<u32>, condition: &Option<Condition>)
    ensures { Adds text.old text.new (terms_text after condition.now) }
{
    put_nth(text, after);
    if let Some(condition) = condition {
        text.put(b" if ");
        put_typed_condition(text, condition);
    }
}

/// Adds a printed line with a text.
#[tactic(auto, unfolding(crate::specs::StopText::printed_with_text))]
fn put_printed_with(text: &mut Text, printed: &[u8])
    ensures { Adds text.old text.new (printed_with_text printed.now) }
{
    text.put(b"a printed line with ");
    put_quoted(text, printed);
}

/// Adds what is watched.
fn put_watched(text: &mut Text, watched: &Watched)
    ensures { Adds text.old text.new (watched_text watched.now) }
{
    match watched {
        Watched::Places(range) => put_typed_range(text, range),
        Watched::Paper(None) => text.put(b"a printed line"),
        Watched::Paper(Some(printed)) => put_printed_with(text, printed.as_slice()),
        Watched::Reader => text.put(b"a card that is read"),
        Watched::Punch => text.put(b"a card that is punched"),
    }
}

/// Adds what kind of a stop it is, and its number.
fn put_name(text: &mut Text, stop: &NumberedStop)
    ensures { Adds text.old text.new (name_text stop.now) }
{
    match &stop.said {
        Said::Break { .. } => {
            text.put(b"break ");
            text.put_number(1, u64::from(stop.number));
        }
        Said::Watch(_) => {
            text.put(b"watch ");
            text.put_number(1, u64::from(stop.number));
        }
    }
}

/// The address of a break.
fn address_of(test: &StopTest) -> u16 {
    match test {
        StopTest::Arrival(test) => test.address,
        StopTest::Places(_) | StopTest::Device(_) => 0,
    }
}

/// The address so many places above another, as far as there are addresses.
fn place_above(from: u16, by: usize) -> u16 {
    match u16::try_from(by) {
        Ok(by) => from.saturating_add(by),
        Err(_) => u16::MAX,
    }
}

/// Adds that no instruction begins at an address, if there is no word mark.
#[tactic(auto, unfolding(crate::specs::StopText::no_instruction_text))]
fn put_no_instruction(text: &mut Text, core: &Core, at: u16)
    ensures { Adds text.old text.new (no_instruction_text core.now at) }
{
    if core.in_core(at) && core.get(at).mark {
        return;
    }
    text.put(b"; no instruction begins there now");
}

/// Adds that the break of this number is there too.
#[tactic(auto, unfolding(crate::specs::StopText::there_too_text))]
fn put_there_too(text: &mut Text, number: u32)
    ensures { Adds text.old text.new (there_too_text number) }
{
    text.put(b"; break ");
    text.put_number(1, number as u64);
    text.put(b" is there too");
}

/// Adds a break that is at an address, if it has another number.
fn put_other_at(text: &mut Text, stop: &NumberedStop, number: u32, at: u16)
    ensures { Adds text.old text.new (other_text number at stop.now) }
{
    if stop.number != number && stop.is_break_at(at) {
        put_there_too(text, stop.number);
    }
}

/// Adds which other breaks are at an address.
fn put_others_at(text: &mut Text, stops: &[NumberedStop], number: u32, at: u16)
    ensures { Adds text.old text.new (others_text number at stops.now) }
{
    for stop in stops {
        put_other_at(text, stop, number, at);
    }
}

/// Adds the line of the break or the watch that was set last, if there is one: of a break where it is, when it stops,
/// whether an instruction begins there, and which other breaks are there; of a watch what is watched, and what its
/// places hold.
pub fn put_set(alloc: Global, text: &mut Text, program: &Program, core: &Core, stops: &Stops) {
    let Some(stop) = stops.stops().last() else {
        return;
    };
    put_name(text, stop);
    match &stop.said {
        Said::Break { after, condition } => {
            let at = address_of(&stop.test);
            text.put(b" at ");
            put_address(alloc, text, program, core, at);
            put_terms(text, *after, condition);
            put_no_instruction(text, core, at);
            put_others_at(text, stops.stops(), stop.number, at);
        }
        Said::Watch(watched) => {
            text.put(b", ");
            put_watched(text, watched);
            if let StopTest::Places(watch) = &stop.test {
                let cells = watch.cells();
                let low = watch.from();
                text.put(b", ");
                put_span(text, low, place_above(low, cells.len().saturating_sub(1)));
                text.put(b": ");
                put_some_cells(text, cells);
            }
        }
    }
    text.put_byte(b'\n');
}

/// Adds cells before and after a step.
fn put_both(text: &mut Text, before: &[Cell], after: &[Cell]) {
    text.put(b": ");
    put_some_cells(text, before);
    text.put(b" -> ");
    put_some_cells(text, after);
}

/// Adds what the places of a watch held before the step that met it, and hold after it: of many those that changed.
fn put_seen(text: &mut Text, watch: &PlaceWatch) {
    let before = watch.before();
    let after = watch.cells();
    if after.len() <= MOST_WHOLE || before.len() != after.len() {
        put_both(text, before, after);
        return;
    }
    let (mut first, mut end) = (before.len(), 0);
    for i in 0..before.len() {
        if before.get(i) != after.get(i) {
            first = first.min(i);
            end = i + 1;
        }
    }
    let first = first.min(before.len());
    let end = end.max(first).min(before.len());
    let low = place_above(watch.from(), first);
    text.put(b", ");
    put_span(text, low, place_above(watch.from(), end.saturating_sub(1)));
    put_both(text, &before[first..end], &after[first..end]);
}

/// Adds the break or the watch that ended a run.
pub(crate) fn put_met(text: &mut Text, stop: &NumberedStop) {
    put_name(text, stop);
    match &stop.said {
        Said::Break { condition, .. } => {
            if let Some(condition) = condition {
                text.put(b", ");
                put_typed_condition(text, condition);
            }
        }
        Said::Watch(watched) => {
            text.put(b", ");
            put_watched(text, watched);
            if let StopTest::Places(watch) = &stop.test {
                put_seen(text, watch);
            }
        }
    }
}

/// Adds that a break or a watch ended so many runs.
#[tactic(auto, unfolding(crate::specs::StopText::often_text))]
fn put_often(text: &mut Text, times: u64)
    ensures { Adds text.old text.new (often_text times) }
{
    text.put(b", met ");
    put_count(text, times, b"time");
    text.put(b"\n");
}

/// Adds how often a break or a watch ended a run.
#[tactic(auto, unfolding(crate::specs::StopText::times_text))]
fn put_times(text: &mut Text, times: u64)
    ensures { Adds text.old text.new (times_text times) }
{
    if times == 0 {
        text.put(b", never met\n");
    } else if times == 1 {
        text.put(b", met once\n");
    } else {
        put_often(text, times);
    }
}

/// Adds all breaks and watches, a line each with how often it was met.
pub(crate) fn put_breaks(text: &mut Text, program: &Program, stops: &Stops) {
    if stops.stops().is_empty() {
        text.put(b"no break is set, and no watch\n");
    }
    for stop in stops.stops() {
        text.put_number(1, u64::from(stop.number));
        text.put(b"  ");
        match &stop.said {
            Said::Break { after, condition } => {
                let at = address_of(&stop.test);
                let label = label_at(program, at);
                text.put(b"break at ");
                put_labelled(text, at, word_in(label.as_slice()));
                put_terms(text, *after, condition);
            }
            Said::Watch(watched) => {
                text.put(b"watch ");
                put_watched(text, watched);
            }
        }
        put_times(text, stop.times);
    }
}
