//! A search: steps of the scout until a test is met, the machine stops, or the limit.
ghost use Rattle.std.specs.Prelude.{◌≡◌, ◌≢◌, ◌+◌, ◌<◌, ◌≤◌, ℕ, Bool, true, false, length, None, Some};
ghost use Rattle.cpu_1401.specs.Fitting.{fitted_step};
ghost use Rattle.cpu_1401.specs.Run.{carried_out_by, most_steps};
ghost use Rattle.cpu_1401.specs.State.{State};
ghost use Rattle.operate_sitting.specs.Search.{limit_of, memory_after, memory_at, search};

use cpu_1401::{Machine, Stop};

/// The most steps of a search, which are those of one run.
pub const MOST_STEPS: u32 = 1_000_000;

/// What is asked after each step of a search. It may have a memory: it sees the machine as the search begins, and then
/// after each instruction that was carried out.
pub trait Test {
    // What it remembers as a search begins at this machine.
    ghost begun: { Self → State → Self };

    // What it remembers after a step to this machine.
    ghost seen: { Self → State → Self };

    // Whether the last step it saw meets it.
    ghost is_met: { Self → Bool };

    /// Sees the machine at which a search begins. It isn't asked there.
    fn begin(&mut self, machine: &Machine)
        ensures { self.new ≡ begun self.old machine.now };

    /// Sees the machine after a step; true if the step meets the test.
    fn see(&mut self, machine: &Machine) -> bool
        ensures memory { self.new ≡ seen self.old machine.now }
        ensures met { result ≡ is_met self.new };
}

/// Why a search ends.
#[derive(Clone, Copy)]
pub enum SearchEnd {
    /// The machine stopped: a halt was carried out, or an instruction can't be.
    Stop(Stop),
    /// The last instruction that was carried out meets the test.
    Met,
    /// As many instructions were carried out as the search has at most, and none of them meets the test.
    Limit,
}

/// How a search ended.
#[derive(Clone, Copy)]
pub struct Found {
    /// How many instructions were carried out, a halt included.
    pub steps: u32,
    /// Why it ended. A machine that stops at its halt has stopped, whether or not that meets the test.
    pub end: SearchEnd,
}

/// The limit of the run that comes to the machine to which a search came, and ends as it did: it asks for one
/// instruction more if that one can't be carried out.
pub fn run_limit(found: Found) -> u32
    requires { found.steps ≤ most_steps }
    ensures { result ≡ limit_of found }
{
    match found.end {
        SearchEnd::Stop(stop) => {
            if is_refused(stop) {
                found.steps + 1
            } else {
                found.steps
            }
        }
        SearchEnd::Met | SearchEnd::Limit => found.steps,
    }
}

/// Carries out instructions until one meets the test or stops the machine, or until this many were carried out. The
/// test isn't asked before the first.
pub fn seek<T: Test>(scout: &mut Machine, test: &mut T, most: u32) -> Found
    requires { most ≤ most_steps }
    ensures search { search T.seen T.is_met most (T.begun test.old scout.old) scout.old
        ≡ record { state = scout.new; memory = test.new; found = result } }

    // No step before the last one meets the test.
    ensures first { (k : ℕ) → 0 < k → k < result.steps
        → T.is_met (memory_after T.seen k (T.begun test.old scout.old) scout.old) ≡ false }
    ensures met { result.end ≡ SearchEnd.Met → T.is_met test.new ≡ true }
    ensures limit { result.end ≡ SearchEnd.Limit → result.steps ≡ most }
    ensures most { limit_of result ≤ most }
    ensures some { 0 < most → 0 < limit_of result }
    ensures steps { result.steps ≤ limit_of result }
    ensures size { length scout.new.storage ≡ length scout.old.storage }
{
    test.begin(scout);
    advance(scout, test, most)
}

/// The same for a test that has seen the machine.
#[inline(never)]
fn advance<T: Test>(scout: &mut Machine, test: &mut T, most: u32) -> Found
    requires { most ≤ most_steps }
    ensures search { search T.seen T.is_met most test.old scout.old
        ≡ record { state = scout.new; memory = test.new; found = result } }
    ensures size { length scout.new.storage ≡ length scout.old.storage }
{
    // Counted down, as a run does.
    let mut left = most;
    while left > 0 {
        if let Some(stop) = step(scout) {
            return stopped(scout, test, most - left, stop);
        }
        left -= 1;
        if test.see(scout) {
            return Found {
                steps: most - left,
                end: SearchEnd::Met,
            };
        }
    }
    Found {
        steps: most,
        end: SearchEnd::Limit,
    }
}

/// One instruction, as `Machine::step`, by a run of one: so `run` is the one place in a program into which a step is
/// compiled, and all that it calls with it.
fn step(scout: &mut Machine) -> Option<Stop>
    ensures stop { result ≡ (fitted_step scout.old).stop }
    ensures state { scout.new ≡ (fitted_step scout.old).state }
    ensures size { length scout.new.storage ≡ length scout.old.storage }
{
    let ran = scout.run(1);
    stop_of(ran.stop)
}

/// The stop of a step, if a run of one ended so.
fn stop_of(stop: Stop) -> Option<Stop>
    ensures limit { stop ≡ Stop.Limit → result ≡ None }
    ensures other { stop ≢ Stop.Limit → result ≡ Some stop }
{
    if stop == Stop::Limit {
        None
    } else {
        Some(stop)
    }
}

/// The end of a search whose machine stops after this many steps. The test sees a halt, which is carried out.
fn stopped<T: Test>(scout: &Machine, test: &mut T, steps: u32, stop: Stop) -> Found
    requires { steps < most_steps }
    ensures found { result ≡ record { steps = steps + carried_out_by stop; end = SearchEnd.Stop stop } }
    ensures memory { test.new ≡ memory_at T.seen stop test.old scout.now }
{
    let end = SearchEnd::Stop(stop);
    if is_refused(stop) {
        return Found { steps, end };
    }
    test.see(scout);
    Found {
        steps: steps + 1,
        end,
    }
}

/// Whether the instruction that stops the machine wasn't carried out.
fn is_refused(stop: Stop) -> bool
    ensures refused { result ≡ true → carried_out_by stop ≡ 0 }
    ensures carried_out { result ≡ false → carried_out_by stop ≡ 1 }
{
    match stop {
        Stop::Halt => false,
        Stop::Limit
        | Stop::Reader
        | Stop::Forms
        | Stop::Stacker
        | Stop::NoMark
        | Stop::OpCode
        | Stop::Length
        | Stop::Address
        | Stop::Overlap
        | Stop::Carriage
        | Stop::NotFitted
        | Stop::DChar
        | Stop::Tape => true,
    }
}
