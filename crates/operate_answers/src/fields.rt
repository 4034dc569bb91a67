//! Fields as they are shown, and conditions that aren't so.

use crate::fault::LookFault;
use crate::typed::put_typed_condition;
use bytes_text::Text;
use cpu_1401::Machine;
use operate_orders::{Base, Condition, MOST_LISTED, Place};
use operate_program::{Program, index_name};
use operate_views::put_field;
use std::alloc::Global;

/// Adds the field that a place names, without a line feed: in front of it the label or the index register, if one names
/// it.
pub(crate) fn put_named_field(
    alloc: Global,
    text: &mut Text,
    program: &Program,
    machine: &Machine,
    place: &Place,
) -> Result<(), LookFault> {
    let name: &[u8] = match &place.base {
        _ if place.adjustments[0].is_some() => &[],
        Base::Label(label) => label.as_slice(),
        Base::Index(register) => index_name(*register),
        Base::Number(_) | Base::Line(_) | Base::Held(_) => &[],
    };
    match program.field(machine, place) {
        Err(fault) => Err(LookFault::Place(fault)),
        Ok(field) => match field.cells(alloc, machine.core()) {
            Err(fault) => Err(LookFault::Field(fault)),
            Ok(cells) => {
                put_field(text, name, field.units(), cells.as_slice());
                Ok(())
            }
        },
    }
}

/// Adds the lines of fields.
pub(crate) fn put_field_lines(
    alloc: Global,
    text: &mut Text,
    program: &Program,
    machine: &Machine,
    places: &[Option<Place>; MOST_LISTED],
) -> Result<(), LookFault> {
    for i in 0..MOST_LISTED {
        if let Some(place) = &places[i] {
            if let Err(fault) = put_named_field(alloc, text, program, machine, place) {
                return Err(fault);
            }
            text.put_byte(b'\n');
        }
    }
    Ok(())
}

/// Adds that a condition isn't so, and the field, without a line feed: the fault of an assertion, which follows a
/// question mark.
///
/// # Errors
///
/// `Place` or `Field` if there is no such field; `Memory`. Some of the text may have been added then.
pub fn put_not_so(
    alloc: Global,
    text: &mut Text,
    program: &Program,
    machine: &Machine,
    condition: &Condition,
) -> Result<(), LookFault> {
    text.put(b"not so: ");
    put_typed_condition(text, condition);
    text.put(b"; ");
    put_named_field(alloc, text, program, machine, &condition.field)
}
