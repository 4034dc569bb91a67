//! What is noted next to the sitting.
ghost use Rattle.std.specs.Prelude.{◌≡◌, ◌+◌, ◌<◌, ◌≤◌, ◌^◌, false};
ghost use Rattle.operate_answers.specs.Stops.{no_stops};
ghost use Rattle.operate_console.specs.Line.{faults_with};
ghost use Rattle.operate_console.specs.Run.{faulted, unfaulted};

use crate::page::{Page, Paint};
use crate::waiting::Waiting;
use cpu_1401::Machine;
use operate_answers::{Stops, put_lines_from};
use std::alloc::{AllocError, Global};
use std::marker::Model;

/// What is noted next to the sitting: breaks and watches, why the last run ended, lines that wait, the answer that is
/// being made, how many lines on the paper were shown, and whether the line that is being done had a fault.
#[derive(Drop)]
pub(crate) struct Notebook {
    pub(crate) stops: Stops,
    pub(crate) why: Vec<u8>,
    pub(crate) waiting: Waiting,
    pub(crate) page: Page,
    pub(crate) shown: u16,
    pub(crate) is_faulted: bool,
}

impl Model for Notebook {
    ghost use Rattle.operate_console.specs.Run.{NotebookAccount};

    ghost Value = { NotebookAccount };

    ghost view = { λ it. record {
      stops = it.stops;
      is_faulted = it.is_faulted;
      has_ended = it.waiting.has_ended;
    } };
}

impl Notebook {
    /// As a sitting begins at this machine: what is on its paper by now isn't shown.
    pub(crate) fn new(alloc: Global, machine: &Machine) -> Notebook
        ensures fault { result.is_faulted ≡ false }
        ensures ended { result.has_ended ≡ false }
        ensures stops { result.stops ≡ no_stops }
    {
        Notebook {
            stops: Stops::new(alloc),
            why: Vec::new(alloc),
            waiting: Waiting::new(alloc),
            page: Page::new(alloc),
            shown: machine.devices().paper(),
            is_faulted: false,
        }
    }

    /// Adds the lines on the paper that weren't shown.
    pub(crate) fn put_printed(&mut self, alloc: Global, machine: &Machine) -> Result<(), AllocError>
        ensures { self.new ≡ self.old }
    {
        let from = self.shown;
        self.pass_paper(machine);
        put_lines_from(alloc, &mut self.page.text, machine.devices(), from);
        self.page.written()
    }

    /// What is on the paper by now was shown, or isn't to be.
    pub(crate) fn pass_paper(&mut self, machine: &Machine)
        ensures { self.new ≡ self.old }
    {
        self.shown = machine.devices().paper();
    }

    /// A line begins, which has no fault yet.
    pub(crate) fn begin_line(&mut self)
        ensures { self.new ≡ unfaulted self.old }
    {
        self.is_faulted = false;
    }

    /// How many lines had a fault, with this one, after so many before it.
    pub(crate) fn faults_with(&self, faults: u32) -> u32
        requires { faults < 2 ^ 31 }
        ensures faults { result ≡ faults_with faults self.now.is_faulted }
        ensures few { result ≤ faults + 1 }
    {
        if self.is_faulted { faults + 1 } else { faults }
    }

    /// A fault begins: no line of a file is done any more. If the line is one of a file, its text says which. Answers
    /// where it begins.
    pub(crate) fn begin_fault(&mut self) -> Result<usize, AllocError>
        ensures { self.new ≡ faulted self.old }
    {
        self.is_faulted = true;
        self.waiting.end_files();
        let from = self.page.here();
        self.page.put(b"? ".as_slice())?;
        self.page.put(self.waiting.place())?;
        Ok(from)
    }

    /// The fault that began there ends.
    pub(crate) fn end_fault(&mut self, from: usize) -> Result<(), AllocError>
        ensures { self.new ≡ self.old }
    {
        self.page.paint_from(from, Paint::Red);
        self.page.put(b"\n".as_slice())
    }

    /// Adds a fault with this text.
    pub(crate) fn put_fault(&mut self, fault: &[u8]) -> Result<(), AllocError>
        ensures { self.new ≡ faulted self.old }
    {
        let from = self.begin_fault()?;
        self.page.put(fault)?;
        self.end_fault(from)
    }
}
