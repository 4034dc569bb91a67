//! The commands that acts stand for.
ghost use Rattle.std.specs.Prelude.{◌≡◌, ◌+◌, ◌<◌, ◌≤◌, ◌∷◌, [], length, IfOk};
ghost use Rattle.core_1401.specs.Storage.{cell_at};
ghost use Rattle.operate_program.specs.Act.{Gives, commands_of, deposit_commands, if_place, mark_commands};
ghost use Rattle.operate_program.specs.Act.{start_commands, value_commands};
ghost use Rattle.operate_program.specs.Value.{address_of};

use crate::commands::{held, one};
use crate::fault::ActFault;
use crate::fields::set_commands;
use crate::program::Program;
use crate::ranges::places_in_core;
use crate::statements::statement_commands;
use bcd_1401::Cell;
use cpu_1401::Machine;
use machine_commands::Command;
use operate_orders::{Act, Deposited, Place, Value};
use std::alloc::Global;

/// The address that a place means.
fn address(program: &Program, machine: &Machine, place: &Place) -> Result<u16, ActFault>
    ensures value { result ≡ if_place (address_of program.now machine.now place.now) }
    ensures inside { IfOk result (λ at. at < length machine.now.storage) }
{
    match program.address(machine, place) {
        Ok(at) => Ok(at),
        Err(fault) => Err(ActFault::Place(fault)),
    }
}

/// The commands of a deposit.
#[tactic(auto, unfolding(crate::specs::Act::deposit_commands, crate::specs::Act::cells_commands))]
fn deposit_commands(
    alloc: Global,
    program: &Program,
    machine: &Machine,
    place: &Place,
    what: &Deposited,
) -> Result<Vec<Command>, ActFault>
    ensures { Gives (λ commands. commands.items) result
        (deposit_commands program.now machine.now place.now what.now) }
{
    let at = address(program, machine, place)?;
    let core = machine.core();
    match what {
        Deposited::Cells(cells) => match places_in_core(core, at, cells.as_slice().len() as u32) {
            Ok(_) => Ok(one(
                alloc,
                &Command::Deposit {
                    address: at,
                    cells: *cells,
                },
            )?),
            Err(fault) => Err(ActFault::Place(fault)),
        },
        Deposited::Statement(statement) => {
            statement_commands(alloc, program, core.size(), at, statement)
        }
    }
}

/// The command that sets or clears a word mark: the character of the place stays.
#[tactic(auto, unfolding(crate::specs::Act::mark_commands))]
fn mark_commands(
    alloc: Global,
    program: &Program,
    machine: &Machine,
    place: &Place,
    mark: bool,
) -> Result<Vec<Command>, ActFault>
    ensures { Gives (λ commands. commands.items) result (mark_commands program.now machine.now place.now mark) }
{
    let at = address(program, machine, place)?;
    let cell = Cell {
        char: machine.core().get(at).char,
        mark,
    };
    let cells = held([cell].as_slice());
    Ok(one(alloc, &Command::Deposit { address: at, cells })?)
}

/// The command that sets the I register.
#[tactic(auto, unfolding(crate::specs::Act::start_commands))]
fn start_commands(
    alloc: Global,
    program: &Program,
    machine: &Machine,
    place: &Place,
) -> Result<Vec<Command>, ActFault>
    ensures { Gives (λ commands. commands.items) result (start_commands program.now machine.now place.now) }
{
    let address = address(program, machine, place)?;
    Ok(one(alloc, &Command::SetI { address })?)
}

/// The commands that put a value into a field.
#[tactic(auto, unfolding(crate::specs::Act::value_commands))]
fn value_commands(
    alloc: Global,
    program: &Program,
    machine: &Machine,
    place: &Place,
    value: &Value,
) -> Result<Vec<Command>, ActFault>
    ensures { Gives (λ commands. commands.items) result (value_commands program.now machine.now place.now value.now) }
{
    match program.field(machine, place) {
        Ok(field) => set_commands(alloc, machine.core(), field, value),
        Err(fault) => Err(ActFault::Place(fault)),
    }
}

/// The commands that an act stands for, at this machine; none is carried out here. A run stands for none of its own:
/// where it ends shows only when it runs. Neither do cards, which come into the hand, and are fed when there is room for
/// them; nor the load key, before which that is done. `go` stands for its start.
///
/// # Errors
///
/// `Place`, `Field` or `Value` if something isn't there or doesn't fit; `Literal`, `NoCells` or `Statement` of a
/// statement; `Memory`. Other text than `parse_order` takes is `NoValue`.
pub fn commands_of(
    alloc: Global,
    program: &Program,
    machine: &Machine,
    act: &Act,
) -> Result<Vec<Command>, ActFault>
    ensures { Gives (λ commands. commands.items) result (commands_of program.now machine.now act.now) }
{
    match act {
        Act::Deposit { place, what } => deposit_commands(alloc, program, machine, place, what),
        Act::Set { field, value } => value_commands(alloc, program, machine, field, value),
        Act::Mark(place) => mark_commands(alloc, program, machine, place, true),
        Act::Unmark(place) => mark_commands(alloc, program, machine, place, false),
        Act::Start(place) | Act::Go(place) => start_commands(alloc, program, machine, place),
        Act::Switch { switch, on } => Ok(one(
            alloc,
            &Command::Switch {
                n: *switch,
                on: *on,
            },
        )?),
        Act::Feed(_) | Act::Deck(_) | Act::Load => Ok(Vec::new(alloc)),
        Act::Step(_) | Act::Continue(_) | Act::Until(_) => Ok(Vec::new(alloc)),
    }
}
