//! What a job carried out, read and wrote, in words.

use cpu_1401::Stop;
use std::fmt;

/// How a job ended, and what it read and wrote.
#[derive(Clone, Copy, Debug)]
pub struct JobReport {
    /// Why the machine stopped.
    pub stop: Stop,
    /// The I register.
    pub i: u16,
    /// How many instructions were carried out.
    pub steps: u32,
    /// How many cards were read.
    pub read: u64,
    /// How many lines were printed.
    pub printed: u64,
    /// How many cards were punched.
    pub punched: u64,
}

/// A number of things, by their name: `1 card`, `2 cards`.
#[derive(Clone, Copy)]
struct Count<'a> {
    count: u64,
    name: &'a str,
}

fn counted(count: u64, name: &str) -> Count<'_> {
    Count { count, name }
}

impl fmt::Display for Count<'_> {
    fn fmt<W: fmt::Write>(&self, f: &mut fmt::Formatter<W>) -> fmt::Result {
        let end = if self.count == 1 { "" } else { "s" };
        write!(f, "{} {}{end}", self.count, self.name)
    }
}

impl fmt::Display for JobReport {
    fn fmt<W: fmt::Write>(&self, f: &mut fmt::Formatter<W>) -> fmt::Result {
        let steps = counted(u64::from(self.steps), "step");
        let read = counted(self.read, "card");
        let printed = counted(self.printed, "line");
        let punched = counted(self.punched, "card");
        write!(
            f,
            "{steps}; {read} read, {printed} printed, {punched} punched"
        )
    }
}
