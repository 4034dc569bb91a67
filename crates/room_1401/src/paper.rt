//! The printed lines that a picture shows.
ghost use Rattle.std.specs.Prelude.{◌≡◌, ◌≤◌, length};
ghost use Rattle.room_1401.specs.Paper.{lines_from, window_lines};

use bcd_1401::Char;
use devices_1401::{Devices, PrintLine};
use std::marker::Model;

/// How many printed lines a picture shows at most, as many as a form has.
pub const WINDOW_LINES: usize = 66;

/// What is held after the last of the lines.
const NO_LINE: PrintLine = PrintLine {
    form: 0,
    line: 0,
    text: [Char::BLANK; 132],
};

/// Printed lines, at most 66. Contracts see the list of them.
#[derive(Debug, Drop)]
pub struct PaperLines {
    lines: [PrintLine; WINDOW_LINES],
    len: usize,
}

impl Model for PaperLines {
    ghost use Rattle.std.specs.Prelude.{◌≤◌, List, take};
    ghost use Rattle.devices_1401.specs.declared.print_line.PrintLine.{PrintLine};
    ghost use Rattle.room_1401.specs.Paper.{window_lines};

    ghost Value = { List PrintLine };

    ghost view = { λ shown. take shown.len shown.lines };

    ghost invariant = { λ shown. shown.len ≤ window_lines };
}

impl PaperLines {
    /// The lines, oldest first.
    pub fn as_slice(&self) -> &[PrintLine]
        ensures value { result.now ≡ self.now }
        ensures most { length self.now ≤ window_lines }
    {
        &self.lines[..self.len]
    }
}

/// The printed lines from an index on, which counts from the oldest, 0.
pub(crate) fn lines_from(devices: &Devices, at: u16) -> PaperLines
    ensures { result ≡ lines_from devices.now.paper at }
{
    let at = usize::from(at);
    let len = usize::from(devices.paper())
        .saturating_sub(at)
        .min(WINDOW_LINES);
    let mut lines = [NO_LINE; WINDOW_LINES];
    for i in 0..len {
        let Some(line) = devices.printed_line(at + i) else {
            unreachable!();
        };
        lines[i] = line;
    }
    PaperLines { lines, len }
}
