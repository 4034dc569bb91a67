//! A machine by itself.

use crate::storage::show_no_core;
use crate::trial::Trial;
use bcd_1401::Char;
use console_1401::{Line, parse_line, reply_text};
use cpu_1401::{Feature, Features, Machine, instruction_cells, step_law};
use room_1401::{Answer, carry_out};

/// Shows all of a machine: its registers, and each place of core storage that isn't blank.
pub fn show_machine(trial: &mut Trial, machine: &Machine) {
    trial.show("registers", &machine.regs());
    let core = machine.core();
    for at in 0..core.size() {
        let cell = core.get(at);
        if cell.mark || cell.char != Char::BLANK {
            trial.print(format_args!("{at} "));
            trial.cells(&[cell]);
            trial.tell("");
        }
    }
}

/// A new machine, and what it does.
pub fn show_processor(trial: &mut Trial) {
    match Machine::power_on(trial.alloc, 4_000) {
        Ok(mut machine) => {
            show_machine(trial, &machine);
            step_and_run(trial, &mut machine);
            copy(trial, &mut machine);
        }
        Err(fault) => show_no_core(trial, fault),
    }
}

/// Has a line's command carried out.
fn carry_line(machine: &mut Machine, line: &str) -> Option<Answer> {
    match parse_line(line.as_bytes()) {
        Ok(Line::Command(command)) => Some(carry_out(machine, &command)),
        _ => None,
    }
}

/// Steps and runs from 600 and from 604 on.
fn step_and_run(trial: &mut Trial, machine: &mut Machine) {
    for line in ["DEPOSIT 0600 ~,I9I~,600~FI~.~.", "START 0600"] {
        carry_line(machine, line);
    }
    step_law();
    trial.show(
        "the instruction at 604",
        &instruction_cells(machine.core(), 604).as_slice().len(),
    );
    trial.show(
        "an instruction is next",
        &machine.next_instruction().is_some(),
    );
    trial.show("step beyond core", &machine.step());
    carry_line(machine, "START 0604");
    trial.show("step", &machine.step());
    trial.show("run", &machine.run(2));
    trial.show("pending", &machine.pending_movement());
    trial.show("I", &machine.regs().i);
}

/// A copy goes on as its machine does, and takes over what it did.
fn copy(trial: &mut Trial, machine: &mut Machine) {
    match machine.copy(trial.alloc) {
        Ok(mut copy) => {
            trial.show(
                "a copy",
                &(copy.regs() == machine.regs(), copy.pending_movement()),
            );
            machine.fit(Features::NONE.with(Feature::Lengths));
            trial.show("step", &machine.step());
            if copy.core().size() == machine.core().size() {
                copy.copy_from(machine);
            }
            trial.show(
                "copied again",
                &(
                    copy.regs() == machine.regs(),
                    copy.features() == machine.features(),
                ),
            );
            trial.show("its line", &copy.devices().line());
        }
        Err(_) => trial.refuse("for a copy"),
    }
}

/// Lines. The machine refuses what some of them ask for.
pub const COMMANDS: &[&str] = &[
    "DEPOSIT 0500 ~0K",
    "EXAMINE 0500 2",
    "DEPOSIT 0600 ~A500500~.",
    "START 0600",
    "RUN 2",
    "REGS",
    "SWITCH C ON",
    "FEED CARD",
    "LOAD",
    "EXAMINE 4000",
    "LINE",
    "CARD",
];

/// The replies to all commands at a new machine.
pub fn show_replies(trial: &mut Trial) {
    match Machine::power_on(trial.alloc, 4_000) {
        Ok(mut machine) => {
            for line in COMMANDS {
                if let Some(answer) = carry_line(&mut machine, line) {
                    reply(trial, &answer);
                }
            }
        }
        Err(fault) => show_no_core(trial, fault),
    }
}

/// The reply to an answer, asked for a second time if it was refused.
fn reply(trial: &mut Trial, answer: &Answer) {
    for _ in 0..2 {
        if let Ok(text) = reply_text(trial.alloc, answer) {
            trial.text(text.as_slice());
            return;
        }
        trial.tell("refused Memory for a reply");
    }
}
