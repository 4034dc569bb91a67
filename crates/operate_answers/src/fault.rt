//! Why nothing can be shown, and why a break or a watch can't be set.

use bytes_text::Text;
use operate_program::{PlaceFault, Program, put_place_fault};
use operate_views::FieldFault;
use std::alloc::Global;

/// Why nothing can be shown, and why a break or a watch can't be set or taken away.
#[derive(Clone, Copy)]
pub enum LookFault {
    /// A place or a range isn't there.
    Place(PlaceFault),
    /// No field ends at a place.
    Field(FieldFault),
    /// There is no source.
    NoSource,
    /// No line of the source made the cells at a place.
    NotOfSource {
        /// The place.
        at: u16,
    },
    /// No break and no watch has this number.
    NoStop {
        /// The number.
        number: u32,
    },
    /// As many breaks are set as are at a time.
    Breaks,
    /// As many watches are set as are at a time.
    Watches,
    /// Memory was refused.
    Memory,
}

/// Adds the text of a fault, which follows a question mark, without a line feed.
pub fn put_look_fault(alloc: Global, text: &mut Text, program: &Program, fault: &LookFault) {
    match fault {
        LookFault::Place(why) => put_place_fault(alloc, text, program, why),
        LookFault::Field(why) => match format!(in alloc; "{why}") {
            Ok(shown) => text.put(shown.as_bytes()),
            Err(_) => text.fail(),
        },
        LookFault::NoSource => text.put(b"there is no source"),
        LookFault::NotOfSource { at } => {
            text.put(b"no line of the source made what is at ");
            text.put_number(4, u64::from(*at));
        }
        LookFault::NoStop { number } => {
            text.put(b"no break and no watch has the number ");
            text.put_number(1, u64::from(*number));
        }
        LookFault::Breaks => text.put(b"at most 100 breaks are set at a time"),
        LookFault::Watches => text.put(b"at most 100 watches are set at a time"),
        LookFault::Memory => text.put(b"out of memory"),
    }
}
