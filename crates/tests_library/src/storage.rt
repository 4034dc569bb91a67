//! Core storage, addresses, and sets of places.

use crate::fields::{Row, make_call};
use crate::trial::Trial;
use bcd_1401::{Cell, Char};
use console_1401::{Line, parse_line};
use core_1401::{
    ADDRESSES, Cells, Core, CoreFault, LEAST_SIZE, MOST_CELLS, PlaceSet, SIZES, decode, encode,
};
use fields_1401::{count_replaceable, step_down};
use room_1401::Command;

/// What is done in new core storage.
#[derive(Drop)]
pub enum Work {
    /// Its size is shown.
    Size,
    /// One place gets a word mark, the fields of some places are measured, and the shorter one of two.
    Measure(u16, &'static [u16], (u16, u16)),
    /// One place gets a word mark, and each field is measured by a walk as well.
    Walk(u16),
    /// Places are copied, cleared and lent, and addresses are read.
    Blocks,
    /// An operation on fields, by its call or by the call for places in core.
    Operate(&'static Row, bool),
}

/// Reports why no core storage was made.
pub fn show_no_core(trial: &mut Trial, fault: CoreFault) {
    match fault {
        CoreFault::Memory => trial.refuse("for core storage"),
        CoreFault::Size => trial.show("no core storage", &fault),
    }
}

/// Does this work in new core storage of this size.
pub fn work_in_core(trial: &mut Trial, size: u16, work: &Work) {
    match Core::power_on(trial.alloc, size) {
        Ok(mut core) => match work {
            Work::Size => trial.show("places", &core.size()),
            Work::Measure(mark, places, pair) => measure(trial, &mut core, *mark, places, *pair),
            Work::Walk(mark) => walk(trial, &mut core, *mark),
            Work::Blocks => use_blocks(trial, &mut core),
            Work::Operate(row, is_within) => make_call(trial, &mut core, row, *is_within),
        },
        Err(fault) => show_no_core(trial, fault),
    }
}

/// Shows how long fields are when one place has a word mark.
fn measure(trial: &mut Trial, core: &mut Core, mark: u16, places: &[u16], (a, b): (u16, u16)) {
    if core.in_core(mark) {
        core.put_mark(mark, true);
    }
    for at in places {
        if core.in_core(*at) {
            trial.tell(format_args!("the field at {at}: {:?}", core.field_len(*at)));
        }
    }
    if core.in_core(a) && core.in_core(b) {
        trial.tell(format_args!("the fields at {a} and {b}: {:?}", core.pair_len(a, b)));
    }
}

/// Shows how many fields are as long as a walk over the places finds them when one place has a word mark, and which words
/// hold it.
fn walk(trial: &mut Trial, core: &mut Core, mark: u16) {
    if core.in_core(mark) {
        core.put_mark(mark, true);
    }
    let (mut walked, mut alike) = (None, 0u16);
    for at in 0..core.size() {
        walked = match walked {
            _ if core.get(at).mark => Some(1u16),
            Some(len) => Some(len.saturating_add(1)),
            None => None,
        };
        if core.field_len(at) == walked {
            alike = alike.saturating_add(1);
        }
    }
    trial.tell(format_args!(
        "a mark at {mark}: {alike} fields as walked, in words {:?}",
        core.mark_words()
    ));
}

/// Puts the cells of a `DEPOSIT` into core storage.
pub fn deposit(core: &mut Core, line: &str) {
    if let Ok(Line::Command(command)) = parse_line(line.as_bytes()) {
        if let Command::Deposit { address, cells } = &command {
            let mut at = *address;
            for cell in cells.as_slice() {
                if core.in_core(at) {
                    core.put_char(at, cell.char);
                    core.put_mark(at, cell.mark);
                }
                at = at.saturating_add(1);
            }
        }
    }
}

/// Shows the cells from one place to another, which isn't shown.
pub fn show_cells(trial: &mut Trial, core: &Core, from: u16, to: u16) {
    for at in from..to {
        if core.in_core(at) {
            trial.cells(&[core.get(at)]);
        }
    }
    trial.tell("|");
}

fn use_blocks(trial: &mut Trial, core: &mut Core) {
    for line in [
        "DEPOSIT 0600 AB~CD",
        "DEPOSIT 0720 ~   ,  0.  &CR",
        "DEPOSIT 0087 003",
        "DEPOSIT 0800 IZI",
    ] {
        deposit(core, line);
    }
    if core.in_core(802) {
        let read = (
            core.decode_at(800),
            core.effective(800),
            core.indexed(15_999, 1),
        );
        trial.show("I9I with the first index register, which has 3", &read);
        trial.show(
            "characters to be replaced",
            &count_replaceable(core, 732, 13),
        );
        trial.show(
            "eight cells",
            &(core.eight_cells(600), core.eight_codes(600)),
        );
        trial.show("the next mark from 600", &core.next_mark(600, 64));
        trial.show("the shorter of 601 and 603", &core.pair_len(601, 603));
        core.copy_chars(601, 611, 2);
    }
    if core.in_core(613) {
        if let Some(len) = core.field_len(603) {
            core.copy_field(603, 613, len);
        }
    }
    show_cells(trial, core, 610, 614);
    if core.in_core(613) {
        trial.show("others at 613 than at 603", &core.chars_differ(603, 613, 4));
        core.clear(601, 2);
    }
    if core.in_core(603) {
        core.clear_marks(603, 4);
    }
    show_cells(trial, core, 600, 604);
    core.chars_mut().fill(Char::of_digit(5, 2));
    let is_lent = core.chars().get(601) == Some(&Char::of_digit(5, 2));
    trial.show("lent", &is_lent);
}

/// Shows the sizes, and addresses as they are spelled.
pub fn show_addresses(trial: &mut Trial) {
    trial.show(
        "sizes",
        &(SIZES, Core::is_size(LEAST_SIZE), Core::is_size(1_401)),
    );
    let [hundreds, tens, units] = encode(ADDRESSES - 1);
    let spelled = [hundreds.graphic(), tens.graphic(), units.graphic()];
    trial.tell(format_args!("15999 is {}", spelled.escape_ascii()));
    trial.show(
        "read with a zone over the tens",
        &decode([hundreds, tens.with_zone(1), units]),
    );
    trial.show("one place below 0", &step_down(0, 1));
    let cells = [Cell::BLANK; MOST_CELLS + 1];
    let none = [Cells::from_slice(&cells), Cells::from_slice(&[])] == [None; 2];
    trial.show("no cells and 41 are refused", &none);
}

/// Shows whether a set has 600, any of the 50 places up to 650, and any of the 64 up to 700.
fn show_places(trial: &mut Trial, what: &str, set: &PlaceSet) {
    let found = [
        set.has(600),
        !set.has_none(650, 50),
        !set.has_none_near(700),
    ];
    trial.show(what, &found);
}

/// Shows a set of places.
pub fn show_set(trial: &mut Trial) {
    let mut set = PlaceSet::none();
    show_places(trial, "no places", &set);
    set.insert(600);
    set.insert(650);
    show_places(trial, "600 and 650", &set);
    let mut copy = PlaceSet::none();
    copy.copy_from(&set);
    set.remove(640, 660);
    show_places(trial, "without 640 to 660", &set);
    show_places(trial, "as before", &copy);
}
