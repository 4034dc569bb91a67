//! How far a run is, shown while it goes on.

use machine_tables::TAPE_UNITS;
use machine_tapes::Tapes;
use std::cell::Cell;
use std::io;
use std::io::Write;
use std::rt::Clock;
use std::time::{Duration, Instant};

/// How far a run is.
#[derive(Clone, Copy)]
pub struct HowFar {
    /// How many instructions were carried out.
    pub steps: u32,
    /// How many cards are left to be read.
    pub cards: u64,
    /// How many lines were printed.
    pub printed: u64,
}

/// Hears now and then how far a run is.
pub trait Watch {
    /// Sees how far the run is, and how far the reels are.
    fn saw(&mut self, how_far: HowFar, tapes: &Tapes);
}

/// Reports to nobody.
#[derive(Drop)]
pub struct Unwatched;

impl Watch for Unwatched {
    fn saw(&mut self, _how_far: HowFar, _tapes: &Tapes) {}
}

/// How many times a run is seen before the clock is asked again.
const BETWEEN_LOOKS: u32 = 16;

/// How many seconds a run goes on before it is shown how far it is, and again each time.
const BETWEEN_LINES: u64 = 1;

/// Takes the line away that shows how far a run is, if it is there.
fn take_away(rt: &impl Eprint, is_shown: &Cell<bool>) {
    if is_shown.get() {
        let _ = eprint!(rt; "\r\x1b[K");
        is_shown.set(false);
    }
}

/// Shows how far the run is each second, on one line of the terminal that standard error is.
#[derive(Drop)]
pub struct Shown<'a, R> {
    rt: &'a R,
    seen: u32,
    last: Option<Instant>,
    is_shown: &'a Cell<bool>,
}

impl<'a, R: Clock + Eprint> Shown<'a, R> {
    /// A run that begins now. The cell says whether the line is there.
    pub fn new(rt: &'a R, is_shown: &'a Cell<bool>) -> Shown<'a, R> {
        Shown {
            rt,
            seen: 0,
            last: Instant::now(rt).ok(),
            is_shown,
        }
    }

    /// Shows how many records the head has passed on each unit that is ready.
    fn show_reels(&self, tapes: &Tapes) {
        for number in 1..TAPE_UNITS + 1 {
            let drive = tapes.unit(number);
            if drive.is_ready {
                let passed = drive.reel.records_passed();
                let _ = eprint!(self.rt; ", tape {number} at record {passed}");
            }
        }
    }

    /// Takes the line away again.
    pub fn end(&self) {
        take_away(self.rt, self.is_shown);
    }
}

/// What is written where the line may be, which is taken away before: the two may be on one terminal.
#[derive(Drop)]
pub struct AboveLine<'a, R, W> {
    rt: &'a R,
    is_shown: Option<&'a Cell<bool>>,
    output: W,
}

impl<'a, R, W> AboveLine<'a, R, W> {
    /// Writes to this output. Without a cell there is no line.
    pub fn new(rt: &'a R, is_shown: Option<&'a Cell<bool>>, output: W) -> AboveLine<'a, R, W> {
        AboveLine {
            rt,
            is_shown,
            output,
        }
    }
}

impl<R: Eprint, W: Write> Write for AboveLine<'_, R, W> {
    fn write(&mut self, buf: &[u8]) -> io::Result<usize> {
        if let Some(is_shown) = self.is_shown {
            take_away(self.rt, is_shown);
        }
        self.output.write(buf)
    }

    fn flush(&mut self) -> io::Result<()> {
        self.output.flush()
    }
}

impl<R: Clock + Eprint> Watch for Shown<'_, R> {
    fn saw(&mut self, how_far: HowFar, tapes: &Tapes) {
        self.seen = self.seen.wrapping_add(1);
        if self.seen % BETWEEN_LOOKS != 0 {
            return;
        }
        let (Some(last), Ok(now)) = (self.last, Instant::now(self.rt)) else {
            return;
        };
        if now.saturating_duration_since(last) < Duration::from_secs(BETWEEN_LINES) {
            return;
        }
        let HowFar {
            steps,
            cards,
            printed,
        } = how_far;
        let _ = eprint!(self.rt; "\r{steps} steps, {cards} cards left, {printed} lines");
        self.show_reels(tapes);
        let _ = eprint!(self.rt; "\x1b[K");
        self.last = Some(now);
        self.is_shown.set(true);
    }
}
