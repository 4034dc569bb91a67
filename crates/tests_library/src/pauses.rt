//! How long a console waits after a command that took long.

use crate::trial::Trial;
use console_1401::Door;
use serving_room::TakingTurns;
use std::sync::Wait;
use std::sync::atomic::Ordering::SeqCst;
use std::sync::atomic::{AtomicBool, AtomicU64};
use std::thread::{Threads, yield_now};
use std::time::{Clock, Duration};
use std::{io, thread};

/// How often a thread looks whether it may go on.
const TURNS: u32 = 1_000_000;

/// A clock that a trial sets, in nanoseconds, and how long was slept by it. When that comes to `hands_over`, the sleep
/// lasts until another operator has had a turn.
#[derive(Drop)]
struct SetClock {
    now: AtomicU64,
    slept: AtomicU64,
    hands_over: u64,
    sleeps: AtomicBool,
    had_turn: AtomicBool,
}

impl SetClock {
    /// A clock at 0.
    fn new(hands_over: u64) -> SetClock {
        SetClock {
            now: AtomicU64::new(0),
            slept: AtomicU64::new(0),
            hands_over,
            sleeps: AtomicBool::new(false),
            had_turn: AtomicBool::new(false),
        }
    }
}

/// Waits for a while until this is so.
fn wait_until(flag: &AtomicBool) {
    for _ in 0..TURNS {
        if flag.load(SeqCst) {
            return;
        }
        yield_now();
    }
}

impl Clock for SetClock {
    fn monotonic(&self) -> io::Result<Duration> {
        Ok(Duration::from_nanos(self.now.load(SeqCst)))
    }

    fn since_1970(&self) -> io::Result<Duration> {
        Ok(Duration::from_nanos(0))
    }

    fn sleep(&self, duration: Duration) {
        let nanos = u64::try_from(duration.as_nanos()).unwrap_or(u64::MAX);
        let before = self.slept.fetch_add(nanos, SeqCst);
        if before.checked_add(nanos) == Some(self.hands_over) {
            self.sleeps.store(true, SeqCst);
            wait_until(&self.had_turn);
        }
    }
}

/// What happens at a door: the clock's time in nanoseconds, a seat, and whether its line is answered then, or else
/// begins.
type Event = (u64, u8, bool);

/// Lets this happen at a door, and shows how long was slept by its clock in all.
fn happen(trial: &mut Trial, clock: &SetClock, door: &TakingTurns<'_, SetClock>, event: &Event) {
    let (now, seat, is_answered) = *event;
    clock.now.store(now, SeqCst);
    if is_answered {
        door.after(seat, 1);
        trial.tell(format_args!("seat {seat} at {now}: slept {}", clock.slept.load(SeqCst)));
    } else {
        door.before(seat, 1);
    }
}

/// Lets this happen at a new door, one after the other.
fn happen_all(trial: &mut Trial, events: &[Event]) {
    let clock = SetClock::new(u64::MAX);
    let door = TakingTurns::new(&clock);
    for event in events {
        happen(trial, &clock, &door, event);
    }
}

/// A seat, when its line begins and is answered, and when that of seat 2 begins, which isn't answered.
const PAUSES: &[(u8, u64, u64, u64)] = &[
    (1, 0, 1_000_001, 0),
    (1, 0, 1_000_002, 0),
    (1, 5_000_000, 6_000_000, 5_000_000),
    (1, 5_000_000, 6_000_001, 5_000_000),
    (8, 5_000_000, 6_000_000, 5_000_000),
    (8, 5_000_000, 9_000_000, 5_000_000),
    (1, 5_000_000, 4_000_000, 5_000_000),
    (0, 0, 9_000_000, 0),
    (9, 0, 9_000_000, 0),
    (1, 900_000_000, 1_000_001_000, 1_000),
    (1, 900_000_000, 1_000_001_000, 1_001),
    (1, 900_000_000, 1_000_001_000, 1_000_001_000),
    (1, 900_000_000, 1_000_001_000, 1_000_001_001),
    (1, 0, u64::MAX, 0),
];

/// A pause is for other lines that aren't answered.
const OTHERS: &[Event] = &[
    // no other line
    (1, 1, false),
    (9_000_000, 1, true),
    // an answered line counts no more
    (9_000_000, 3, false),
    (9_000_000, 1, false),
    (9_000_000, 3, true),
    (19_000_000, 1, true),
    // each seat has its own time
    (20_000_001, 1, false),
    (20_900_000, 2, false),
    (21_800_000, 2, true),
    (21_800_000, 2, false),
    (21_800_000, 1, true),
];

/// The end of a long line of seat 1, or that of seat 2 once seat 1 sleeps for the third time. Returns the seat.
fn end_line(clock: &SetClock, door: &TakingTurns<'_, SetClock>, seat: u8) -> u8 {
    if seat == 2 {
        wait_until(&clock.sleeps);
    }
    door.after(seat, 1);
    if seat == 2 {
        clock.had_turn.store(true, SeqCst);
    }
    seat
}

/// Shows how long the console of seat 1 sleeps after a long line, if that of seat 2 is answered during the third sleep.
fn show_third_sleep<R: Threads + Wait + Sync>(rt: &R, trial: &mut Trial) {
    let clock = SetClock::new(300_000);
    let door = TakingTurns::new(&clock);
    door.before(2, 1);
    door.before(1, 1);
    clock.now.store(9_000_000, SeqCst);
    match Vec::from_slice(trial.alloc, &[1, 2]) {
        Ok(seats) => {
            let ended = thread::map_vec(rt, seats, &|seat| end_line(&clock, &door, seat));
            trial.show("both ended", &ended.is_ok());
            trial.show(
                "slept until the other is answered",
                &clock.slept.load(SeqCst),
            );
        }
        Err(_) => trial.refuse("for two seats"),
    }
}

/// Shows all pauses.
pub fn show_pauses<R: Threads + Wait + Sync>(rt: &R, trial: &mut Trial) {
    for (seat, begun, ended, other) in PAUSES {
        happen_all(
            trial,
            &[
                (*other, 2, false),
                (*begun, *seat, false),
                (*ended, *seat, true),
            ],
        );
    }
    happen_all(trial, OTHERS);
    show_third_sleep(rt, trial);
}
