//! What an act has done, as it is shown afterwards.
ghost use Rattle.std.specs.Prelude.{◌≡◌};
ghost use Rattle.bytes_text.specs.Written.{Adds};
ghost use Rattle.operate_answers.specs.Done.{deck_text, dropped_text, fed_text};

use crate::counted::{ADDRESS_DIGITS, put_count};
use crate::fault::LookFault;
use crate::fields::put_named_field;
use crate::there::{put_address, put_next};
use bcd_1401::Cell;
use bytes_text::Text;
use core_1401::Core;
use cpu_1401::Machine;
use machine_commands::Command;
use operate_orders::{Act, Base, Place};
use operate_program::Program;
use operate_views::put_switches;
use std::alloc::Global;

/// Adds the cells that are now at an address and above it, in a line; blanks for those that aren't in core.
fn put_cells_at(text: &mut Text, core: &Core, address: u16, count: usize) {
    text.put_number(ADDRESS_DIGITS, u64::from(address));
    text.put(b"  ");
    let mut at = address;
    for _ in 0..count {
        let cell = if core.in_core(at) {
            core.get(at)
        } else {
            Cell::BLANK
        };
        text.put_cell(cell);
        at = at.saturating_add(1);
    }
    text.put_byte(b'\n');
}

/// Adds how many cards are in the hopper, and how many are in hand until there is room for them, if some are.
#[tactic(auto, unfolding(crate::specs::Done::fed_text))]
pub fn put_fed(text: &mut Text, machine: &Machine, hand: usize)
    ensures { Adds text.old text.new (fed_text machine.now hand) }
{
    text.put(b"hopper: ");
    text.put_number(1, u64::from(machine.devices().hopper()));
    if hand == 0 {
        text.put(b"\n");
    } else {
        text.put(b"; in hand: ");
        text.put_number(1, hand as u64);
        text.put(b"\n");
    }
}

/// Adds what an act has done: what is now where it put cells, the field that it set, or the switches that are on.
/// `commands` are those that it stood for, and the machine has carried them out. Nothing is added for a run, for cards
/// and for the load key.
///
/// # Errors
///
/// `Field` if the field that was set doesn't end at its place any more; `Memory`. Some of the text may have been added
/// then.
pub fn put_done(
    alloc: Global,
    text: &mut Text,
    program: &Program,
    machine: &Machine,
    act: &Act,
    commands: &[Command],
) -> Result<(), LookFault> {
    match act {
        Act::Deposit { .. } | Act::Mark(_) | Act::Unmark(_) => {
            for command in commands {
                if let Command::Deposit { address, cells } = command {
                    put_cells_at(text, machine.core(), *address, cells.as_slice().len());
                }
            }
        }
        Act::Set { field, .. } => {
            // An address may have an index register in it, which the act itself may have set. So the field is now named
            // by the last place that got a cell.
            let mut place = *field;
            if place.adjustments[0].is_some() {
                if let Some(Command::Deposit { address, cells }) = commands.last() {
                    let above = cells.as_slice().len().saturating_sub(1) as u32;
                    place = Place {
                        base: Base::Number(u32::from(*address).saturating_add(above)),
                        adjustments: [None; 3],
                    };
                }
            }
            if let Err(fault) = put_named_field(alloc, text, program, machine, &place) {
                return Err(fault);
            }
            text.put_byte(b'\n');
        }
        Act::Start(_) => put_next(alloc, text, program, machine),
        Act::Switch { .. } => put_switches(text, &machine.regs().switches),
        Act::Feed(_) | Act::Deck(_) | Act::Load => {}
        Act::Step(_) | Act::Continue(_) | Act::Until(_) | Act::Go(_) => {}
    }
    Ok(())
}

/// Adds that a deck of so many cards was read from a file, and then what `put_fed` adds.
#[tactic(auto, unfolding(crate::specs::Done::deck_text))]
pub fn put_deck(text: &mut Text, name: &[u8], cards: u64, machine: &Machine, hand: usize)
    ensures { Adds text.old text.new (deck_text name.now cards machine.now hand) }
{
    text.put(name);
    text.put(b": ");
    put_count(text, cards, b"card");
    text.put(b"; ");
    put_fed(text, machine, hand);
}

/// Adds the line with which a sitting begins: what is loaded, if something is, how many places core storage has, and
/// which instruction is next.
pub fn put_head(
    alloc: Global,
    text: &mut Text,
    program: &Program,
    machine: &Machine,
    name: Option<&[u8]>,
) {
    if let Some(name) = name {
        text.put(name);
        text.put(b": ");
    }
    put_count(text, u64::from(machine.core().size()), b"place");
    text.put(b"; next is ");
    put_address(alloc, text, program, machine.core(), machine.regs().i);
    text.put(b"; help lists the words\n");
}

/// Adds how many commands were taken back, and with them how many cards in hand, if some were; the name of the journal's
/// file if they are gone from there too, and which instruction is next.
pub fn put_undone(
    alloc: Global,
    text: &mut Text,
    program: &Program,
    machine: &Machine,
    commands: u64,
    cards: u64,
    file: Option<&[u8]>,
) {
    put_count(text, commands, b"command");
    if cards > 0 {
        text.put(b" and ");
        put_count(text, cards, b"card");
        text.put(b" in hand");
    }
    text.put(b" taken back");
    if let Some(file) = file {
        text.put(b", in ");
        text.put(file);
        text.put(b" too");
    }
    text.put(b"; ");
    put_next(alloc, text, program, machine);
}

/// Adds that cards in hand are gone, if some were.
#[tactic(auto, unfolding(crate::specs::Done::dropped_text))]
pub fn put_dropped(text: &mut Text, hand: usize)
    ensures { Adds text.old text.new (dropped_text hand) }
{
    if hand == 0 {
        return;
    }
    put_count(text, hand as u64, b"card");
    text.put(b" in hand, in no journal, ");
    if hand == 1 {
        text.put(b"is gone\n");
    } else {
        text.put(b"are gone\n");
    }
}

/// Adds that a journal of so many commands was written to a file, and how many cards in hand are in no journal, if some
/// are.
pub fn put_saved(text: &mut Text, commands: u64, file: &[u8], hand: usize) {
    put_count(text, commands, b"command");
    let is_in: &[u8] = if commands == 1 {
        b" is in "
    } else {
        b" are in "
    };
    text.put(is_in);
    text.put(file);
    if hand > 0 {
        text.put(b", without ");
        put_count(text, hand as u64, b"card");
        text.put(b" in hand");
    }
    text.put_byte(b'\n');
}
