//! The registers, the indicators and the devices in words.
ghost use Rattle.std.specs.Prelude.{◌≡◌, ◌+◌, ◌<◌, length};
ghost use Rattle.bytes_text.specs.Written.{Adds};
ghost use Rattle.devices_1401.specs.Movement.{pending_of};
ghost use Rattle.operate_views.specs.Registers.{addresses_text, comparison_text, devices_text, index_at};
ghost use Rattle.operate_views.specs.Registers.{indicators_text, labelled_text, letters_on, or_none};
ghost use Rattle.operate_views.specs.Registers.{pending_text, place_text, registers_text, switches_text};

use bcd_1401::Char;
use bytes_text::{Piece, Text};
use core_1401::Core;
use cpu_1401::{Machine, Regs};
use devices_1401::Movement;

/// How many digits an address has in a sentence.
const PLACE_DIGITS: u8 = 4;

/// How many digits an address has in a column.
const ADDRESS_DIGITS: u8 = 5;

/// Adds an address, and what is there, if anything is known of it.
#[tactic(auto, unfolding(crate::specs::Registers::place_text))]
pub fn put_place(text: &mut Text, at: u16, there: &[u8])
    ensures { Adds text.old text.new (place_text at there.now) }
{
    text.put_number(PLACE_DIGITS, u64::from(at));
    if !there.is_empty() {
        text.put_pieces(&[Piece::Text(b" ("), Piece::Text(there), Piece::Text(b")")]);
    }
}

/// Adds an address, and its label if it has one.
#[tactic(auto, unfolding(crate::specs::Registers::labelled_text))]
pub fn put_labelled(text: &mut Text, at: u16, label: &[u8])
    ensures { Adds text.old text.new (labelled_text at label.now) }
{
    text.put_number(PLACE_DIGITS, u64::from(at));
    if !label.is_empty() {
        text.put_byte(b' ');
        text.put(label);
    }
}

/// Adds what the last compare found.
#[tactic(auto, unfolding(crate::specs::Registers::comparison_text))]
pub fn put_comparison(text: &mut Text, regs: &Regs)
    ensures { Adds text.old text.new (comparison_text regs.now) }
{
    let found: &[u8] = match (regs.unequal, regs.low, regs.high) {
        (false, _, _) => b"equal",
        (true, true, _) => b"unequal, B low",
        (true, false, true) => b"unequal, B high",
        (true, false, false) => b"unequal",
    };
    text.put(found);
}

/// Adds the letters of the switches that are on.
fn put_letters(text: &mut Text, switches: &[bool; 7])
    ensures { Adds text.old text.new (letters_on 65 switches.now) }
{
    for i in 0..7 {
        if switches[i] {
            text.put_byte(b'A' + i as u8);
        }
    }
}

/// Adds the letters of the switches that are on, or that none is.
fn put_switches_on(text: &mut Text, switches: &[bool; 7])
    ensures { Adds text.old text.new (or_none (letters_on 65 switches.now)) }
{
    let from = text.len();
    put_letters(text, switches);
    if text.len() == from {
        text.put(b"none");
    }
}

/// Adds the line of the sense switches that are on.
#[tactic(auto, unfolding(crate::specs::Registers::switches_text))]
pub fn put_switches(text: &mut Text, switches: &[bool; 7])
    ensures { Adds text.old text.new (switches_text switches.now) }
{
    text.put(b"switches on: ");
    put_switches_on(text, switches);
    text.put_byte(b'\n');
}

/// Adds an index register by its number and its first place, unless it is blank.
#[tactic(auto, unfolding(crate::specs::Registers::index_at))]
fn put_index(text: &mut Text, core: &Core, number: u8, at: u16)
    requires { at + 2 < length core.now }
    ensures { Adds text.old text.new (index_at core.now number at) }
{
    // No core storage is so large that a place above another has no address.
    let _ = core.size();
    if core.get(at).char == Char::BLANK
        && core.get(at + 1).char == Char::BLANK
        && core.get(at + 2).char == Char::BLANK
    {
        return;
    }
    text.put_pieces(&[
        Piece::Text(b"X"),
        Piece::Small(number),
        Piece::Text(b" "),
        Piece::Number(ADDRESS_DIGITS, at),
        Piece::Text(b"-"),
        Piece::Number(ADDRESS_DIGITS, at + 2),
        Piece::Text(b"  "),
        Piece::Cell(core.get(at)),
        Piece::Cell(core.get(at + 1)),
        Piece::Cell(core.get(at + 2)),
        Piece::Text(b" = "),
        Piece::Number(1, core.decode_at(at).0),
        Piece::Text(b"\n"),
    ]);
}

/// Adds what the carriage does after the next print, if it isn't one space.
#[tactic(auto, unfolding(crate::specs::Registers::pending_text))]
fn put_pending(text: &mut Text, pending: Option<Movement>)
    ensures { Adds text.old text.new (pending_text (pending_of pending)) }
{
    match pending {
        None => (),
        Some(Movement::SpaceBy(spaces)) => {
            text.put(b"; after the next print it spaces ");
            text.put_number(1, u64::from(spaces.count()));
        }
        Some(Movement::SkipTo(hole)) => {
            text.put(b"; after the next print it skips to line ");
            text.put_number(1, u64::from(hole.line()));
        }
    }
}

/// Adds the I register with what is there, and the A and the B register with their labels.
#[tactic(auto, unfolding(crate::specs::Registers::addresses_text))]
fn put_addresses(text: &mut Text, regs: &Regs, there: &[u8], a_label: &[u8], b_label: &[u8])
    ensures { Adds text.old text.new (addresses_text regs.now there.now a_label.now b_label.now) }
{
    text.put(b"I  ");
    put_place(text, regs.i, there);
    text.put(b"\nA  ");
    put_labelled(text, regs.a, a_label);
    text.put(b", B  ");
    put_labelled(text, regs.b, b_label);
    text.put_byte(b'\n');
}

/// Adds what the last compare found, and whether there was an overflow.
#[tactic(auto, unfolding(crate::specs::Registers::indicators_text))]
fn put_indicators(text: &mut Text, regs: &Regs)
    ensures { Adds text.old text.new (indicators_text regs.now) }
{
    text.put(b"last comparison: ");
    put_comparison(text, regs);
    if regs.overflow {
        text.put(b"; overflow: yes\n");
    } else {
        text.put(b"; overflow: no\n");
    }
}

/// Adds how full the devices are, and where the carriage is.
#[tactic(auto, unfolding(crate::specs::Registers::devices_text))]
fn put_devices(text: &mut Text, regs: &Regs, pending: Option<Movement>)
    ensures { Adds text.old text.new (devices_text regs.now (pending_of pending)) }
{
    text.put_pieces(&[
        Piece::Text(b"hopper "),
        Piece::Number(1, regs.hopper),
        Piece::Text(b", stacker "),
        Piece::Number(1, regs.stacker),
        Piece::Text(b", paper "),
        Piece::Number(1, regs.paper),
        Piece::Text(b"; the carriage is at line "),
        Piece::Small(regs.line),
        Piece::Text(b" of form "),
        Piece::Number(1, regs.form),
    ]);
    put_pending(text, pending);
    text.put_byte(b'\n');
}

/// Adds the registers, the indicators, the switches that are on, the index registers that aren't blank, and the
/// devices, a line each. `there` is what is known of the place in the I register, `a_label` and `b_label` the labels of
/// those in A and B; they are empty if nothing is known.
#[tactic(auto, unfolding(crate::specs::Registers::registers_text, crate::specs::Registers::index_text))]
pub fn put_registers(
    text: &mut Text,
    machine: &Machine,
    there: &[u8],
    a_label: &[u8],
    b_label: &[u8],
)
    ensures { Adds text.old text.new (registers_text machine.now there.now a_label.now b_label.now) }
{
    let regs = machine.regs();
    let core = machine.core();
    // The smallest core storage has the places of all three index registers.
    let _ = core.size();
    put_addresses(text, &regs, there, a_label, b_label);
    put_indicators(text, &regs);
    put_switches(text, &regs.switches);
    put_index(text, core, 1, 87);
    put_index(text, core, 2, 92);
    put_index(text, core, 3, 97);
    put_devices(text, &regs, machine.pending_movement());
}
