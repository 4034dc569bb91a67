//! What a person looks at.

use crate::counted::{label_at, put_count};
use crate::entries::{put_cards, put_journal};
use crate::fault::LookFault;
use crate::fields::put_field_lines;
use crate::listing::put_listing;
use crate::source_lines::{put_source, put_symbols};
use crate::stop_text::put_breaks;
use crate::stops::Stops;
use crate::there::instruction_at;
use autocoder_statements::word_in;
use bytes_text::Text;
use core_1401::{ADDRESSES, encode};
use cpu_1401::Machine;
use machine_tables::Feature;
use operate_orders::Look;
use operate_program::Program;
use operate_views::{put_core, put_paper, put_registers};
use room_alone::Entry;
use std::alloc::Global;

/// How many printed lines are shown if no number says how many.
const LAST_LINES: usize = 20;

/// What there is to look at, besides the program.
#[derive(Clone, Copy)]
pub struct Seen<'a> {
    /// The machine.
    pub machine: &'a Machine,
    /// What was recorded.
    pub journal: &'a [Entry],
    /// How many cards of decks are in hand.
    pub hand: usize,
    /// The breaks and watches.
    pub stops: &'a Stops,
    /// Why the last run ended, as `put_why` said it; empty if there was none.
    pub why: &'a [u8],
}

/// Adds the registers in words, what the machine is fitted with, how many commands are recorded, and how many cards are
/// in hand, if some are.
fn put_panel(alloc: Global, text: &mut Text, program: &Program, seen: &Seen<'_>) {
    let machine = seen.machine;
    let regs = machine.regs();
    let a_label = label_at(program, regs.a);
    let b_label = label_at(program, regs.b);
    let there = instruction_at(alloc, program, machine.core(), regs.i);
    text.rests_on(&there);
    put_registers(
        text,
        machine,
        there.as_slice(),
        word_in(a_label.as_slice()),
        word_in(b_label.as_slice()),
    );
    let mut is_fitted = false;
    for feature in Feature::ALL {
        if machine.features().has(feature) {
            let before: &[u8] = if is_fitted { b", " } else { b"fitted: " };
            text.put(before);
            text.put(feature.name().as_bytes());
            is_fitted = true;
        }
    }
    if is_fitted {
        text.put_byte(b'\n');
    }
    put_count(text, seen.journal.len() as u64, b"command");
    text.put(b" recorded");
    if seen.hand > 0 {
        text.put(b"; ");
        put_count(text, seen.hand as u64, b"card");
        text.put(b" in hand");
    }
    text.put_byte(b'\n');
}

/// Adds a number, and the three characters that spell it as an address, if it is one.
fn put_spelled(text: &mut Text, number: u64) {
    text.put_number(1, number);
    if number < u64::from(ADDRESSES) {
        text.put(b", spelled ");
        for char in encode(number as u16) {
            text.put_byte(char.graphic());
        }
    }
    text.put_byte(b'\n');
}

/// Adds what a look shows.
///
/// # Errors
///
/// `Place`, `Field`, `NoSource` or `NotOfSource` if what it names isn't there; `Memory`. Some of the text may have been
/// added then.
pub fn put_look(
    alloc: Global,
    text: &mut Text,
    program: &Program,
    seen: &Seen<'_>,
    look: &Look,
) -> Result<(), LookFault> {
    let machine = seen.machine;
    let devices = machine.devices();
    match look {
        Look::Examine(range) => match program.range(machine, range) {
            Err(fault) => return Err(LookFault::Place(fault)),
            Ok((first, count)) => {
                // No core storage has more places than there are addresses.
                let _ = machine.core().size();
                put_core(alloc, text, machine.core(), first, first + count);
            }
        },
        Look::List(range) => return put_listing(alloc, text, program, machine, seen.stops, range),
        Look::Print(fields) => return put_field_lines(alloc, text, program, machine, fields),
        Look::Source(place) => return put_source(alloc, text, program, machine, place),
        Look::Evaluate(place) => match program.value(machine, place) {
            Err(fault) => return Err(LookFault::Place(fault)),
            Ok(number) => put_spelled(text, number),
        },
        Look::Registers => put_panel(alloc, text, program, seen),
        Look::Cards => put_cards(text, devices, seen.journal, seen.hand),
        Look::Paper(_) if devices.paper() == 0 => text.put(b"no line is on the paper\n"),
        Look::Paper(None) => put_paper(alloc, text, devices, LAST_LINES),
        Look::Paper(Some(most)) => put_paper(alloc, text, devices, *most as usize),
        Look::Symbols(letters) => put_symbols(text, program, letters.as_slice()),
        Look::Breaks => put_breaks(text, program, seen.stops),
        Look::Why if seen.why.is_empty() => text.put(b"nothing has run yet\n"),
        Look::Why => {
            text.put(seen.why);
            text.put_byte(b'\n');
        }
        Look::Journal(most) => put_journal(alloc, text, seen.journal, *most),
    }
    Ok(())
}
