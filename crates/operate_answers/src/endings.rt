//! How a run ended, and why.

use crate::counted::{put_after, put_count};
use crate::stop_text::put_met;
use crate::stops::{Said, Stops};
use crate::there::{put_address, put_next};
use bytes_text::Text;
use cpu_1401::{Machine, Stop};
use job_steps::{Reason, halt_address, reason_told};
use operate_program::Program;
use std::alloc::Global;

/// How a run ended.
#[derive(Clone, Copy)]
pub enum Ended {
    /// The machine stopped.
    Stopped(Stop),
    /// A step met a break or a watch, or came to the address up to which the run was to go.
    Met,
    /// As many instructions as were asked for were carried out.
    Counted,
    /// A person interrupted it.
    Interrupted,
    /// Nobody can stop it, and it has had as many steps as it may have.
    Unattended,
}

/// Adds the stop of a machine, where, and why, if there is more to say than the name of the stop.
fn put_stopped(alloc: Global, text: &mut Text, program: &Program, machine: &Machine, stop: Stop) {
    let at = match stop {
        Stop::Halt => halt_address(machine),
        _ => machine.regs().i,
    };
    text.put(stop.name().as_bytes());
    text.put(b" at ");
    put_address(alloc, text, program, machine.core(), at);
    let Some(reason) = reason_told(machine, stop) else {
        return;
    };
    match format!(in alloc; ": {reason}") {
        Ok(why) => text.put(why.as_bytes()),
        Err(_) => text.fail(),
    }
    if let Reason::NoSuchLength { len: 8, .. } = reason {
        let at = u64::from(machine.regs().i);
        text.put(b"; no word mark from ");
        text.put_number(3, at + 1);
        text.put(b" to ");
        text.put_number(3, at + 7);
        text.put(b" ends this one");
    }
}

/// Adds why a run ended, without a line feed: what `why` shows.
pub fn put_why(
    alloc: Global,
    text: &mut Text,
    program: &Program,
    machine: &Machine,
    stops: &Stops,
    ended: Ended,
) {
    match ended {
        Ended::Stopped(stop) => put_stopped(alloc, text, program, machine, stop),
        Ended::Met => match stops.met() {
            Some(stop) => put_met(text, stop),
            None => text.put(b"the instruction that the run was to come to"),
        },
        Ended::Counted => text.put(b"as many steps as were asked for"),
        Ended::Interrupted => text.put(b"interrupted"),
        Ended::Unattended => text.put(b"LIMIT: nobody is at a terminal"),
    }
}

/// Adds how a run of this many steps ended, and which instruction is next, or that a refused instruction did nothing.
/// The machine is as it was left, and the stops have seen its last step.
pub fn put_ended(
    alloc: Global,
    text: &mut Text,
    program: &Program,
    machine: &Machine,
    stops: &Stops,
    ended: Ended,
    steps: u64,
) {
    match ended {
        Ended::Stopped(stop) => {
            put_stopped(alloc, text, program, machine, stop);
            put_after(text, steps);
            match stop {
                Stop::Limit | Stop::Halt => text.put_byte(b'\n'),
                _ => {
                    text.put(b"\nthe machine is as it was before that instruction\n");
                    return;
                }
            }
        }
        Ended::Met => {
            if let Some(stop) = stops.met() {
                put_met(text, stop);
                if let Said::Break {
                    condition: Some(_),
                    ..
                } = &stop.said
                {
                    text.put_byte(b',');
                }
                put_after(text, steps);
                text.put_byte(b'\n');
            }
        }
        Ended::Counted => {}
        Ended::Interrupted => {
            text.put(b"interrupted");
            put_after(text, steps);
            text.put_byte(b'\n');
        }
        Ended::Unattended => {
            text.put(b"LIMIT: ");
            put_count(text, steps, b"step");
            text.put(b" were carried out, and nobody is at a terminal to stop it\n");
        }
    }
    put_next(alloc, text, program, machine);
}
