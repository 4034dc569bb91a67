//! The lines of steps, and the lines that are printed meanwhile.
use crate::effects::effect_of;
use bytes_text::Text;
use cpu_1401::{Machine, instruction_cells};
use devices_1401::Devices;
use operate_program::Program;
use operate_views::{put_printed, put_step};
use std::alloc::Global;

/// Adds the lines on the paper from one on, counted from the oldest, 0: those that a run has printed, if it began with
/// so many.
pub fn put_lines_from(alloc: Global, text: &mut Text, devices: &Devices, from: u16) {
    for at in from..devices.paper() {
        if let Some(line) = devices.printed_line(usize::from(at)) {
            put_printed(alloc, text, &line);
        }
    }
}

/// Has a machine carry out so many instructions, and adds a line for each with what it did, and after it the lines that
/// it printed. The machine is a copy from before the run.
pub fn put_steps(
    alloc: Global,
    text: &mut Text,
    program: &Program,
    machine: &mut Machine,
    steps: u32,
) {
    let Ok(mut after) = machine.copy(alloc) else {
        text.fail();
        return;
    };
    for _ in 0..steps {
        let _done = after.run(1);
        let (at, core) = (machine.regs().i, machine.core());
        if core.size() == after.core().size() {
            let effect = effect_of(alloc, program, machine, &after);
            let cells = instruction_cells(core, at);
            text.rests_on(&effect);
            match program.statement_at(alloc, core, at) {
                Err(_) => text.fail(),
                Ok(said) => put_step(alloc, text, at, said, cells.as_slice(), effect.as_slice()),
            }
            put_lines_from(alloc, text, after.devices(), machine.devices().paper());
        }
        let _done = machine.run(1);
    }
}
