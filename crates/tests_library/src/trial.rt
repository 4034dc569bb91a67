//! What a trial is given, and the lines that it shows.

use bcd_1401::Cell;
use std::alloc::Global;
use std::fmt::{Debug, Display};
use std::io;
use std::io::{Stdin, Stdout};

/// Shows lines on standard output, up to the first that can't be written. After that one nothing is shown.
#[derive(Drop)]
pub struct Trial {
    /// Standard input.
    pub input: Stdin,
    /// Standard output.
    pub output: Stdout,
    /// Where memory comes from.
    pub alloc: Global,
    written: io::Result<()>,
    /// Whether a call was refused memory.
    pub is_refused: bool,
}

impl Trial {
    /// A trial that has shown nothing yet.
    pub fn new(input: Stdin, output: Stdout, alloc: Global) -> Trial {
        Trial {
            input,
            output,
            alloc,
            written: Ok(()),
            is_refused: false,
        }
    }

    /// Whether all was shown, or the fault after which nothing was.
    pub fn into_written(self) -> io::Result<()> {
        let Trial { written, .. } = self;
        written
    }

    /// Shows a line.
    pub fn tell(&mut self, line: impl Display + Drop) {
        if self.written.is_ok() {
            self.written = self.output.println(line);
        }
    }

    /// Shows the beginning of a line.
    pub fn print(&mut self, text: impl Display + Drop) {
        if self.written.is_ok() {
            self.written = self.output.print(text);
        }
    }

    /// Shows what a call gave.
    pub fn show(&mut self, what: &str, given: &impl Debug) {
        self.tell(format_args!("{what}: {given:?}"));
    }

    /// Shows bytes as they are.
    pub fn put(&mut self, bytes: &[u8]) {
        if self.written.is_ok() {
            self.written = self.output.write_all(bytes);
        }
    }

    /// Shows cells, each with a tilde before it if it has a word mark.
    pub fn cells(&mut self, cells: &[Cell]) {
        for cell in cells {
            self.put(if cell.mark { b"~" } else { b"" });
            self.put(&[cell.char.graphic()]);
        }
    }

    /// Shows a text, and the end of its line if it has none.
    pub fn text(&mut self, text: &[u8]) {
        self.put(text);
        if !text.ends_with(b"\n") {
            self.tell("");
        }
    }

    /// Reports that a call was refused memory, which has to be made once more.
    pub fn refuse(&mut self, what: &str) {
        self.tell(format_args!("refused Memory {what}"));
        self.is_refused = true;
    }
}
