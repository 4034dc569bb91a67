//! The machine as it was before a step.
ghost use Rattle.std.specs.Prelude.{◌≡◌, ◌++◌, length, IfErr, IfOk};
ghost use Rattle.bytes_text.specs.Written.{Adds};
ghost use Rattle.cpu_1401.specs.State.{regs_of};
ghost use Rattle.devices_1401.specs.Movement.{pending_of};
ghost use Rattle.job_steps.specs.TraceLine.{carriage_text, devices_text, fetched_text, line_of, pending_text};
ghost use Rattle.job_steps.specs.TraceLine.{print_text, registers_text, seen_of, text_if, work_text};

use crate::changes::{copy_of, put_changes};
use crate::fetched::put_fetched;
use crate::line::{is_same_movement, put_end, put_if, put_position, put_tape, put_waiting};
use crate::work::Work;
use bytes_text::{Piece, Text};
use core_1401::{Core, CoreFault};
use cpu_1401::{Machine, Stop};
use devices_1401::Movement;
use std::alloc::Global;
use std::marker::Model;

/// What a line of the trace compares the machine with: core storage, the I register, the position of the carriage, and
/// the movement that waits for the next print, all as they were before the step.
#[derive(Drop)]
pub struct Snapshot {
    core: Core,
    i: u16,
    form: u16,
    line: u8,
    pending: Option<Movement>,
}

impl Model for Snapshot {
    ghost use Rattle.devices_1401.specs.Movement.{pending_of};
    ghost use Rattle.job_steps.specs.TraceLine.{Seen};

    ghost Value = { Seen };

    ghost view = { λ s. record {
      storage = s.core;
      i = s.i;
      form = s.form;
      line = s.line;
      pending = pending_of s.pending;
    } };
}

impl Snapshot {
    /// The machine as it is.
    ///
    /// # Errors
    ///
    /// `Memory` if there is no room for core storage.
    pub fn of(alloc: Global, machine: &Machine) -> Result<Snapshot, CoreFault>
        ensures ok { IfOk result (λ snapshot. snapshot ≡ seen_of machine.now) }
        ensures err { IfErr result (λ why. why ≡ CoreFault.Memory) }
    {
        let regs = machine.regs();
        Ok(Snapshot {
            core: copy_of(alloc, machine.core())?,
            i: regs.i,
            form: regs.form,
            line: regs.line,
            pending: machine.pending_movement(),
        })
    }

    /// Adds the line of a step, by what it did at the devices, why it stopped, and the machine after it. Then the
    /// snapshot is that of the machine.
    #[tactic(auto, unfolding(crate::specs::TraceLine::line_of))]
    pub fn put_line(&mut self, text: &mut Text, machine: &Machine, work: Work, stop: Option<Stop>)
        requires { length self.old.storage ≡ length machine.now.storage }
        ensures line { Adds text.old text.new (line_of self.old work stop machine.now) }
        ensures seen { self.new ≡ seen_of machine.now }
    {
        self.put_step(text, machine, work);
        put_changes(text, &mut self.core, machine.core());
        put_end(text, stop);
        let regs = machine.regs();
        self.i = regs.i;
        self.form = regs.form;
        self.line = regs.line;
        self.pending = machine.pending_movement();
    }

    /// Adds the instruction, the registers, what the devices did, and where the carriage then is and what waits, if
    /// that is another than before.
    #[tactic(auto, unfolding(crate::specs::TraceLine::devices_text, crate::specs::TraceLine::registers_text))]
    fn put_step(&self, text: &mut Text, machine: &Machine, work: Work)
        ensures { Adds text.old text.new
            (fetched_text self.now.storage self.now.i ++ registers_text machine.now.a machine.now.b
            ++ devices_text self.now (seen_of machine.now) work) }
    {
        let regs = machine.regs();
        put_fetched(text, &self.core, self.i);
        text.put_pieces(&[
            Piece::Text(b"\t"),
            Piece::Number(5, regs.a),
            Piece::Text(b"\t"),
            Piece::Number(5, regs.b),
        ]);
        self.put_work(text, work);
        self.put_carriage(text, regs.form, regs.line);
        self.put_pending(text, machine.pending_movement());
    }

    /// Adds where the carriage is, if it moved.
    #[tactic(auto, unfolding(crate::specs::TraceLine::carriage_text, crate::specs::TraceLine::moved_text))]
    fn put_carriage(&self, text: &mut Text, form: u16, line: u8)
        ensures { Adds text.old text.new (carriage_text self.now form line) }
    {
        if self.form == form && self.line == line {
            return;
        }
        put_position(text, b"\tCARRIAGE ", form, line)
    }

    /// Adds the movement that waits for the next print, if it didn't before.
    fn put_pending(&self, text: &mut Text, pending: Option<Movement>)
        ensures { Adds text.old text.new (pending_text self.now.pending (pending_of pending)) }
    {
        match (self.pending, pending) {
            (_, None) => (),
            (None, Some(movement)) => put_waiting(text, movement),
            (Some(old), Some(movement)) => {
                if is_same_movement(old, movement) {
                    return;
                }
                put_waiting(text, movement)
            }
        }
    }

    /// Adds what the devices and the tape units did.
    #[tactic(auto, unfolding(crate::specs::TraceLine::work_text))]
    fn put_work(&self, text: &mut Text, work: Work)
        ensures { Adds text.old text.new (work_text self.now work) }
    {
        self.put_printed(text, work.printed);
        put_if(text, work.read, b"\tREAD");
        put_if(text, work.punched, b"\tPUNCH");
        put_tape(text, work.tape)
    }

    /// Adds where a line was printed, if one was.
    #[tactic(auto, unfolding(crate::specs::TraceLine::print_text))]
    fn put_printed(&self, text: &mut Text, printed: bool)
        ensures { Adds text.old text.new (text_if printed (print_text self.now.form self.now.line)) }
    {
        if printed {
            put_position(text, b"\tPRINT ", self.form, self.line)
        }
    }
}
