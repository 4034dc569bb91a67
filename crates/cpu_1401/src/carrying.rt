//! A command carried out on the machine.
ghost use Rattle.std.specs.Prelude.{◌≡◌, ◌+◌, ◌<◌, ◌≤◌, ◌^◌, IsTrue, length};
ghost use Rattle.core_1401.specs.Cells.{most_cells};
ghost use Rattle.cpu_1401.specs.CarryOut.{are_in_core, carry_out, deposit, deposited, examine, examined};
ghost use Rattle.cpu_1401.specs.CarryOut.{feed, load_key, run, set_i, take_card, take_line};

use crate::Machine;
use bcd_1401::Cell;
use core_1401::{Cells, Core, MOST_CELLS};
use devices_1401::Card;
use machine_commands::{Answer, Command, Refusal};

/// The most instructions of a run.
const MOST_STEPS: u32 = 1_000_000;

/// Carries a command out on a machine, and gives its answer. A refused command leaves the machine as it was, and no
/// command changes the size of core storage.
#[tactic(auto, unfolding(crate::specs::CarryOut::carry_out))]
pub fn carry_out(machine: &mut Machine, command: &Command) -> Answer
    ensures state { machine.new ≡ (carry_out machine.old command.now).state }
    ensures answer { result ≡ (carry_out machine.old command.now).answer }
    ensures size { length machine.new.storage ≡ length machine.old.storage }
{
    match *command {
        Command::Deposit { address, cells } => deposit(machine, address, cells.as_slice()),
        Command::Examine { address, count } => examine(machine.core(), address, count),
        Command::Registers => Answer::Regs(machine.regs()),
        Command::SetI { address } => set_i(machine, address),
        Command::Switch { n, on } => {
            machine.switch(n.number(), on);
            Answer::Done
        }
        Command::Feed { card } => feed(machine, card),
        Command::LoadKey => load_key(machine),
        Command::Run { limit } => run(machine, limit),
        Command::TakeLine => take_line(machine),
        Command::TakeCard => take_card(machine),
        Command::Fit(features) => {
            machine.fit(features);
            Answer::Done
        }
    }
}

/// Whether these places, from an address on, are in core.
fn are_in_core(core: &Core, address: u16, count: usize) -> bool
    requires { count ≤ most_cells }
    ensures value { result ≡ are_in_core core.now address count }
    ensures most { IsTrue result → address + count < 2 ^ 16 }
{
    usize::from(address) + count <= usize::from(core.size())
}

/// Puts cells at an address and the ones above it, if all of these places are in core.
fn deposit(machine: &mut Machine, address: u16, cells: &[Cell]) -> Answer
    requires { length cells.now ≤ most_cells }
    ensures state { machine.new ≡ (deposit address cells.now machine.old).state }
    ensures answer { result ≡ (deposit address cells.now machine.old).answer }
    ensures size { length machine.new.storage ≡ length machine.old.storage }
{
    if !are_in_core(machine.core(), address, cells.len()) {
        return Answer::Refused(Refusal::Address);
    }
    put_cells(machine, address, cells);
    Answer::Done
}

/// Puts cells at an address and the ones above it.
fn put_cells(machine: &mut Machine, address: u16, cells: &[Cell])
    requires inside { address + length cells.now ≤ length machine.old.storage }
    requires most { address + length cells.now < 2 ^ 16 }
    ensures value { machine.new ≡ record machine.old { storage = deposited machine.old.storage address cells.now } }
    ensures size { length machine.new.storage ≡ length machine.old.storage }
{
    for (i, cell) in cells.iter().enumerate() {
        machine.put(address + i as u16, *cell);
    }
}

/// The cells from an address on, or why there are none: the count is looked at before the places.
fn examine(core: &Core, address: u16, count: u32) -> Answer
    ensures { result ≡ examine core.now address count }
{
    let count = count as usize;
    if count < 1 || count > MOST_CELLS {
        return Answer::Refused(Refusal::Count);
    }
    if !are_in_core(core, address, count) {
        return Answer::Refused(Refusal::Address);
    }
    Answer::Cells(cells_from(core, address, count))
}

/// The cells from an address on.
fn cells_from(core: &Core, address: u16, count: usize) -> Cells
    requires some { 1 ≤ count }
    requires few { count ≤ most_cells }
    requires inside { address + count ≤ length core.now }
    requires most { address + count < 2 ^ 16 }
    ensures { result ≡ examined core.now address count }
{
    let mut cells = [Cell::BLANK; MOST_CELLS];
    for i in 0..count {
        cells[i] = core.get(address + i as u16);
    }
    match Cells::from_slice(&cells[..count]) {
        Some(cells) => cells,
        None => unreachable!(),
    }
}

/// Sets the I register to an address that is in core.
fn set_i(machine: &mut Machine, address: u16) -> Answer
    ensures state { machine.new ≡ (set_i address machine.old).state }
    ensures answer { result ≡ (set_i address machine.old).answer }
    ensures size { length machine.new.storage ≡ length machine.old.storage }
{
    if !machine.core().in_core(address) {
        return Answer::Refused(Refusal::Address);
    }
    machine.set_i(address);
    Answer::Done
}

/// Puts a card into the hopper, if there is room for it.
fn feed(machine: &mut Machine, card: Card) -> Answer
    ensures state { machine.new ≡ (feed card machine.old).state }
    ensures answer { result ≡ (feed card machine.old).answer }
    ensures size { length machine.new.storage ≡ length machine.old.storage }
{
    match machine.feed(Card(card.0)) {
        Ok(()) => Answer::Done,
        Err(_) => Answer::Refused(Refusal::Hopper),
    }
}

/// Presses the load key, if there is a card.
fn load_key(machine: &mut Machine) -> Answer
    ensures state { machine.new ≡ (load_key machine.old).state }
    ensures answer { result ≡ (load_key machine.old).answer }
    ensures size { length machine.new.storage ≡ length machine.old.storage }
{
    match machine.load_key() {
        Ok(()) => Answer::Done,
        Err(_) => Answer::Refused(Refusal::Reader),
    }
}

/// Runs the machine, if the limit is one that a run has.
fn run(machine: &mut Machine, limit: u32) -> Answer
    ensures state { machine.new ≡ (run limit machine.old).state }
    ensures answer { result ≡ (run limit machine.old).answer }
    ensures size { length machine.new.storage ≡ length machine.old.storage }
{
    if limit < 1 || limit > MOST_STEPS {
        return Answer::Refused(Refusal::Limit);
    }
    let ran = machine.run(limit);
    Answer::Ran {
        steps: ran.steps,
        stop: ran.stop,
        i: machine.regs().i,
    }
}

/// Takes the oldest printed line, if there is one.
fn take_line(machine: &mut Machine) -> Answer
    ensures state { machine.new ≡ (take_line machine.old).state }
    ensures answer { result ≡ (take_line machine.old).answer }
    ensures size { length machine.new.storage ≡ length machine.old.storage }
{
    match machine.take_line() {
        Some(line) => Answer::Line(line),
        None => Answer::Refused(Refusal::Empty),
    }
}

/// Takes the oldest punched card, if there is one.
fn take_card(machine: &mut Machine) -> Answer
    ensures state { machine.new ≡ (take_card machine.old).state }
    ensures answer { result ≡ (take_card machine.old).answer }
    ensures size { length machine.new.storage ≡ length machine.old.storage }
{
    match machine.take_card() {
        Some(card) => Answer::Card(card),
        None => Answer::Refused(Refusal::Empty),
    }
}
