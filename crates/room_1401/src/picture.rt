//! What an operator sees of the machine at one moment.
ghost use Rattle.std.specs.Prelude.{◌≡◌, ◌+◌, ◌≤◌, ◌^◌, ◌<◌, length};
ghost use Rattle.cpu_1401.specs.CarryOut.{examined};
ghost use Rattle.room_1401.specs.Picture.{picture_of, window_cells};

use crate::paper::{PaperLines, lines_from};
use bcd_1401::Cell;
use core_1401::Core;
use cpu_1401::{InstructionCells, Machine, Regs};
use devices_1401::Card;

/// How many places of core storage a picture shows.
pub const WINDOW_CELLS: usize = 600;

/// What of the machine a picture shows.
#[derive(Clone, Copy, Debug, PartialEq, Eq)]
pub struct Window {
    /// The first of the 600 places of core storage.
    pub core: u16,
    /// The first of the printed lines, by its index from the oldest that isn't taken yet, 0.
    pub paper: u16,
}

/// The machine after some of the room's commands. All of it is of that one moment.
#[derive(Debug, Drop)]
pub struct Picture {
    /// After how many commands.
    pub after: u64,
    /// How many places core storage has.
    pub size: u16,
    /// The registers and indicators, how full the devices are, and where the carriage is.
    pub regs: Regs,
    /// The instruction at the I register; `None` if no word mark is there.
    pub next: Option<InstructionCells>,
    /// The characters of the read area, places 1 to 80, into which a card is read.
    pub read: Card,
    /// The card that is read next; `None` if the hopper is empty.
    pub hopper: Option<Card>,
    /// The card that was punched last; `None` if the stacker is empty.
    pub punched: Option<Card>,
    /// The first place of core storage that is shown.
    pub core: u16,
    /// The cells from there on.
    pub cells: [Cell; WINDOW_CELLS],
    /// The index of the first printed line that is asked for.
    pub paper: u16,
    /// The printed lines from there on, at most 66.
    pub lines: PaperLines,
}

/// The cells of a window, from its first place on.
fn cells_from(core: &Core, address: u16) -> [Cell; WINDOW_CELLS]
    requires inside { address + window_cells ≤ length core.now }
    requires most { address + window_cells < 2 ^ 16 }
    ensures { result ≡ examined core.now address window_cells }
{
    let mut cells = [Cell::BLANK; WINDOW_CELLS];
    for i in 0..WINDOW_CELLS {
        cells[i] = core.get(address + i as u16);
    }
    cells
}

/// The picture of a machine after this number of commands.
pub(crate) fn picture_of(machine: &Machine, after: u64, window: Window) -> Picture
    requires { window.core + window_cells ≤ length machine.now.storage }
    ensures { result ≡ picture_of machine.now after window }
{
    let core = machine.core();
    let devices = machine.devices();
    let size = core.size();
    Picture {
        after,
        size,
        regs: machine.regs(),
        next: machine.next_instruction(),
        read: machine.read_area(),
        hopper: devices.next_card(),
        punched: devices.last_punched(),
        core: window.core,
        cells: cells_from(core, window.core),
        paper: window.paper,
        lines: lines_from(devices, window.paper),
    }
}
