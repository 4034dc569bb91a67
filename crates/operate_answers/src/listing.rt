//! Core storage as instructions.

use crate::fault::LookFault;
use crate::stops::Stops;
use bytes_text::Text;
use cpu_1401::Machine;
use operate_orders::Range;
use operate_program::Program;
use operate_views::{listed_places, put_listed};
use std::alloc::Global;

/// How many lines are listed if no range says up to where.
const LINES: u16 = 10;

/// Adds the lines of the places from one on up to another, so many at most: in front `>` at the I register, `b` at a
/// break.
fn put_list(
    alloc: Global,
    text: &mut Text,
    program: &Program,
    machine: &Machine,
    stops: &Stops,
    extent: (u16, u16, u16),
) {
    let (first, end, most) = extent;
    let core = machine.core();
    let end = end.min(core.size());
    let mut at = first;
    for _ in 0..most {
        if at >= end {
            return;
        }
        let mark = if machine.regs().i == at {
            b'>'
        } else if stops.has_break_at(at) {
            b'b'
        } else {
            b' '
        };
        match program.listed_at(alloc, core, at) {
            Err(_) => {
                text.fail();
                return;
            }
            Ok(statement) => {
                let places = listed_places(core, at, statement.is_some());
                put_listed(alloc, text, core, mark, at, statement);
                at = at.saturating_add(places);
            }
        }
    }
}

/// Adds the lines of instructions: ten from I on if no range says from where, ten from a place on, or those of a range.
/// A label alone names all places of its own, and the first of them is meant.
pub(crate) fn put_listing(
    alloc: Global,
    text: &mut Text,
    program: &Program,
    machine: &Machine,
    stops: &Stops,
    range: &Option<Range>,
) -> Result<(), LookFault> {
    let size = machine.core().size();
    let extent = match range {
        None => (machine.regs().i, size, LINES),
        Some(range) => match program.range(machine, range) {
            Err(fault) => return Err(LookFault::Place(fault)),
            Ok((first, count)) => match range {
                Range::At(_) => (first, size, LINES),
                Range::Area(_) | Range::Between { .. } | Range::Counted { .. } => {
                    (first, first + count, count)
                }
            },
        },
    };
    put_list(alloc, text, program, machine, stops, extent);
    Ok(())
}
