//! The trace of a run: a line for each step, in a file.
ghost use Rattle.std.specs.Prelude.{◌≡◌, ◌≢◌, ◌<◌, IfErr, OnOk, OnErr, is_some, option_and_then};
ghost use Rattle.std.specs.Io.KnownBytes.{Appends};
ghost use Rattle.bytes_streams.specs.Sink.{AppendsPart};
ghost use Rattle.program_run.specs.RunDeck.{failed_of};
ghost use Rattle.program_run.specs.RunTrace.{IsOfSize, IsWhyUntraced, lines_after, most_at_once, seen_if};

use crate::deck_running::Broken;
use bytes_streams::{Sink, put_all};
use bytes_text::Text;
use cpu_1401::{Machine, Stop};
use job_runner::STRETCH;
use job_steps::{Snapshot, Work};
use std::alloc::Global;

/// Room for most lines, in bytes; a longer one takes more.
const USUAL_LINE: usize = 128;

/// The trace of a run, if there is one.
#[derive(Drop)]
pub struct Trace<F> {
    /// Its file.
    pub file: Option<F>,
    /// The machine before the step that comes next.
    pub before: Option<Snapshot>,
}

impl<F: Sink> Trace<F> {
    /// A trace into this file, or none.
    pub fn new(file: Option<F>) -> Trace<F>
        ensures { result.file ≡ file }
    {
        Trace { file, before: None }
    }

    /// Looks at the machine before the first step.
    pub fn begin(&mut self, alloc: Global, machine: &Machine) -> Result<(), Broken>
        ensures file { self.new.file ≡ self.old.file }
        ensures before { OnOk result (self.new.before ≡ seen_if (is_some self.old.file) machine.now) }
        ensures err { IfErr result (λ why. why ≡ Broken.Memory) }
    {
        self.before = match &self.file {
            Some(_) => match Snapshot::of(alloc, machine) {
                Ok(snapshot) => Some(snapshot),
                Err(_) => return Err(Broken::Memory),
            },
            None => None,
        };
        Ok(())
    }

    /// Whether there is a trace.
    pub fn is_on(&self) -> bool
        ensures { result ≡ is_some self.now.before }
    {
        self.before.is_some()
    }

    /// How many steps are carried out at once: one if there is a trace.
    pub fn most_at_once(&self) -> u32
        ensures { result ≡ most_at_once (is_some self.now.before) }
    {
        if self.before.is_some() { 1 } else { STRETCH }
    }

    /// Writes the line of a step, if one was to be carried out.
    pub fn put_line(
        &mut self,
        alloc: Global,
        steps: u32,
        machine: &Machine,
        work: Work,
        stop: Option<Stop>,
    ) -> Result<(), Broken>
        requires size { IsOfSize self.old.before machine.now }
        requires file { is_some self.old.before ≡ is_some self.old.file }
        ensures text { OnOk result (Appends (option_and_then F.received self.old.file)
            (option_and_then F.received self.new.file) (lines_after steps self.old.before work stop machine.now)) }
        ensures before { OnOk result (0 < steps → self.new.before ≡ seen_if (is_some self.old.before) machine.now) }
        ensures file { is_some self.new.file ≡ is_some self.old.file }
        ensures part { OnErr result (AppendsPart (option_and_then F.received self.old.file)
            (option_and_then F.received self.new.file) (lines_after steps self.old.before work stop machine.now)) }
        ensures good { OnOk result (failed_of F.has_failed self.new.file ≡ failed_of F.has_failed self.old.file) }
        ensures why { IfErr result (λ why. IsWhyUntraced why (failed_of F.has_failed self.old.file)
            (failed_of F.has_failed self.new.file)) }
        ensures told { IfErr result (λ why. (why ≢ Broken.Paper) × (why ≢ Broken.Punch)) }
    {
        if steps == 0 {
            return Ok(());
        }
        let Some(before) = &mut self.before else {
            return Ok(());
        };
        let Some(file) = &mut self.file else {
            return Ok(());
        };
        let Ok(bytes) = Vec::with_capacity(alloc, USUAL_LINE) else {
            return Err(Broken::Memory);
        };
        let mut text = Text::of(bytes);
        before.put_line(&mut text, machine, work, stop);
        let Ok(line) = text.into_bytes() else {
            return Err(Broken::Memory);
        };
        match put_all(file, line.as_slice()) {
            Ok(()) => Ok(()),
            Err(_) => Err(Broken::Trace),
        }
    }
}
