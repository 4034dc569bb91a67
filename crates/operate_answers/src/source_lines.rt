//! The source around a place, and its labels.

use crate::counted::{ADDRESS_DIGITS, put_count};
use crate::fault::LookFault;
use autocoder_statements::word_in;
use bytes_text::Text;
use cpu_1401::Machine;
use operate_orders::{Base, Place};
use operate_program::{PlaceFault, Program};
use std::alloc::Global;

/// How many lines are shown before a line, and after it.
const LINES_AROUND: u64 = 5;

/// The columns of a line, from 0 on, that are shown: from the label to the end of the operands.
const FIRST_COLUMN: usize = 5;

const END_COLUMN: usize = 72;

/// The columns of a label.
const LABEL_COLUMNS: usize = 8;

/// The number of the line that a place names: itself, the line that declares a label, or the line that made the cells at
/// an address.
fn line_named(
    alloc: Global,
    program: &Program,
    machine: &Machine,
    place: &Place,
) -> Result<u64, LookFault> {
    if place.adjustments[0].is_none() {
        match &place.base {
            Base::Line(line) => return Ok(u64::from(*line)),
            Base::Label(label) => {
                return match program.symbol(label.as_slice()) {
                    Some(symbol) => Ok(symbol.line),
                    None => Err(LookFault::Place(PlaceFault::Label(*label))),
                };
            }
            Base::Number(_) | Base::Index(_) | Base::Held(_) => {}
        }
    }
    match program.address(machine, place) {
        Err(fault) => Err(LookFault::Place(fault)),
        Ok(at) => match program.line_at(alloc, machine.core(), at) {
            Err(_) => Err(LookFault::Memory),
            Ok(Some(number)) => Ok(number),
            Ok(None) => Err(LookFault::NotOfSource { at }),
        },
    }
}

/// Adds the source around a place, or around the next instruction, whose line has a mark in front. The number of a line
/// is in four columns, from the right.
pub(crate) fn put_source(
    alloc: Global,
    text: &mut Text,
    program: &Program,
    machine: &Machine,
    place: &Option<Place>,
) -> Result<(), LookFault> {
    if program.lines() == 0 {
        return Err(LookFault::NoSource);
    }
    let at = machine.regs().i;
    let here = match program.line_at(alloc, machine.core(), at) {
        Err(_) => return Err(LookFault::Memory),
        Ok(here) => here,
    };
    let number = match (place, here) {
        (Some(place), _) => match line_named(alloc, program, machine, place) {
            Err(fault) => return Err(fault),
            Ok(number) => number,
        },
        (None, Some(number)) => number,
        (None, None) => return Err(LookFault::NotOfSource { at }),
    };
    let first = number.saturating_sub(LINES_AROUND).max(1);
    let last = number.saturating_add(LINES_AROUND).min(program.lines());
    for each in first..last.saturating_add(1) {
        text.put_byte(if here == Some(each) { b'>' } else { b' ' });
        let blanks = if each < 10 {
            3
        } else if each < 100 {
            2
        } else if each < 1000 {
            1
        } else {
            0
        };
        text.put_blanks(blanks);
        text.put_number(1, each);
        text.put(b"  ");
        let line = program.source_line(each);
        let (from, end) = (FIRST_COLUMN.min(line.len()), END_COLUMN.min(line.len()));
        text.put(line[from..end].trim_ascii_end());
        text.put_byte(b'\n');
    }
    Ok(())
}

/// Adds the labels that begin with some letters, a line each: the address, the line, and how many places it names.
pub(crate) fn put_symbols(text: &mut Text, program: &Program, letters: &[u8]) {
    let mut is_any = false;
    for symbol in program.symbols() {
        if symbol.label.text.as_slice().starts_with(letters) {
            let label = word_in(symbol.label.text.as_slice());
            text.put(label);
            text.put_blanks(LABEL_COLUMNS.saturating_sub(label.len()));
            if symbol.value < 0 {
                text.put_byte(b'-');
            }
            text.put_number(ADDRESS_DIGITS, symbol.value.unsigned_abs());
            text.put(b"  line ");
            text.put_number(1, symbol.line);
            if let Some(places) = symbol.length {
                text.put(b", ");
                put_count(text, u64::from(places), b"place");
            }
            text.put_byte(b'\n');
            is_any = true;
        }
    }
    if !is_any {
        text.put(b"no label begins so\n");
    }
}
