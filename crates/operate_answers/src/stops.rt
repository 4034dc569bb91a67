//! Breaks and watches, with their numbers.
ghost use Rattle.std.specs.Prelude.{◌≡◌, ◌⊎◌, ◌+◌, ◌<◌, ◌≤◌, ◌++◌, ◌∷◌, [], not, length, map, filter, option_map, Ok, Err, IfErr, OnOk, OnErr};
ghost use Rattle.std.specs.List.{find, list_any};
ghost use Rattle.operate_answers.specs.Answers.{Gives};
ghost use Rattle.operate_answers.specs.Stops.{asked_by, break_added, break_test, device_test, first_missing, has_number};
ghost use Rattle.operate_answers.specs.Stops.{if_place, is_break, is_break_at, is_listed, is_said_break, is_stop_met};
ghost use Rattle.operate_answers.specs.Stops.{next_number, no_stops, one_more, places_of_field, places_test, range_test};
ghost use Rattle.operate_answers.specs.Stops.{stop_counted, stops_counted, stops_deleted, watch_added, watch_test};
ghost use Rattle.operate_answers.specs.Stops.{watched_places};
ghost use Rattle.operate_program.specs.Range.{range_of};

use crate::asked::Asked;
use crate::fault::LookFault;
use crate::stop_test::StopTest;
use cpu_1401::Machine;
use operate_orders::{Condition, MOST_LISTED, Place, Range, Watched};
use operate_program::Program;
use operate_sitting::{Break, Device, DeviceWatch, PlaceWatch, Test, begin_each, see_by_each};
use operate_views::FieldFault;
use std::alloc::Global;
use std::marker::Model;

/// The most breaks that are set at a time, and the most watches.
const MOST_OF_A_KIND: usize = 100;

/// A break or a watch, as it is typed.
#[derive(Clone, Copy)]
pub enum Said {
    /// `break ADDRESS [after N] [if CONDITION]`.
    Break {
        /// Which visit it stops at, counted from 1; each visit if there is none.
        after: Option<u32>,
        /// Where it stops, if not always.
        condition: Option<Condition>,
    },
    /// `watch ..`.
    Watch(Watched),
}

impl Said {
    /// Whether it is a break.
    fn is_break(&self) -> bool
        ensures { result ≡ is_said_break self.now }
    {
        matches!(*self, Said::Break { .. })
    }
}

/// A break or a watch with its number.
#[derive(Drop)]
pub struct NumberedStop {
    /// The number, from 1.
    pub number: u32,
    /// As it is typed.
    pub said: Said,
    /// How many runs it ended.
    pub times: u64,
    /// Its test.
    pub test: StopTest,
}

impl NumberedStop {
    /// Whether it is a break at this address.
    pub(crate) fn is_break_at(&self, at: u16) -> bool
        ensures { result ≡ is_break_at at self.now }
    {
        match &self.test {
            StopTest::Arrival(test) => test.address == at,
            StopTest::Places(_) | StopTest::Device(_) => false,
        }
    }
}

impl Test for NumberedStop {
    ghost use Rattle.operate_answers.specs.StopTest.{is_test_met};
    ghost use Rattle.operate_answers.specs.Stops.{stop_begun, stop_seen};

    ghost begun = { λ it s. stop_begun it s };

    ghost seen = { λ it s. stop_seen it s };

    ghost is_met = { λ it. is_test_met it.test };

    fn begin(&mut self, machine: &Machine) {
        self.test.begin(machine);
    }

    fn see(&mut self, machine: &Machine) -> bool {
        self.test.see(machine)
    }
}

/// Breaks and watches in the order in which they were set. As a test they are met by a step that meets any of them.
#[derive(Drop)]
pub struct Stops {
    stops: Vec<NumberedStop>,
    last: u32,
}

impl Model for Stops {
    ghost use Rattle.operate_answers.specs.Stops.{AllStops};

    ghost Value = { AllStops };

    ghost view = { λ it. record {
      stops = it.stops.items;
      last = it.last;
    } };
}

impl Test for Stops {
    ghost use Rattle.operate_answers.specs.Stops.{is_any_met, stops_begun, stops_seen};

    ghost begun = { λ it s. stops_begun it s };

    ghost seen = { λ it s. stops_seen it s };

    ghost is_met = { λ it. is_any_met it };

    fn begin(&mut self, machine: &Machine) {
        begin_each(self.stops.as_mut_slice(), machine);
    }

    fn see(&mut self, machine: &Machine) -> bool {
        see_by_each(self.stops.as_mut_slice(), machine)
    }
}

/// The places of the field that a place names: the lowest, and how many.
#[tactic(auto, unfolding(crate::specs::Stops::places_of_field))]
fn places_of_field(
    alloc: Global,
    program: &Program,
    machine: &Machine,
    place: &Place,
) -> Result<(u16, u16), LookFault>
    ensures { Gives (λ places. places) result (places_of_field program.now machine.now place.now) }
{
    let field = match program.field(machine, place) {
        Ok(field) => field,
        Err(fault) => return Err(LookFault::Place(fault)),
    };
    // No core storage is so large that one of its places has no address.
    let _ = machine.core().size();
    match field.cells(alloc, machine.core()) {
        Ok(cells) => {
            let count = cells.len() as u16;
            Ok((field.units() + 1 - count, count))
        }
        Err(FieldFault::Memory) => Err(LookFault::Memory),
        Err(fault) => Err(LookFault::Field(fault)),
    }
}

/// The places of a range: the lowest, and how many.
fn places_of_range(
    program: &Program,
    machine: &Machine,
    range: &Range,
) -> Result<(u16, u16), LookFault>
    ensures { result ≡ if_place (range_of program.now machine.now range.now) }
{
    match program.range(machine, range) {
        Ok(places) => Ok(places),
        Err(fault) => Err(LookFault::Place(fault)),
    }
}

/// The lowest of the places that a watch names, and how many there are: those of a field, or of a range.
fn watched_places(
    alloc: Global,
    program: &Program,
    machine: &Machine,
    range: &Range,
) -> Result<(u16, u16), LookFault>
    ensures { Gives (λ places. places) result (watched_places program.now machine.now range.now) }
{
    match range {
        Range::At(place) => places_of_field(alloc, program, machine, place),
        Range::Area(_) | Range::Between { .. } | Range::Counted { .. } => {
            places_of_range(program, machine, range)
        }
    }
}

/// A watch on so many places from one on, which has seen what they hold.
fn places_test(
    alloc: Global,
    machine: &Machine,
    from: u16,
    count: u16,
) -> Result<StopTest, LookFault>
    ensures { Gives (λ test. test) result (places_test machine.now (from, count)) }
{
    match PlaceWatch::new(alloc, from, count) {
        Ok(mut watch) => {
            watch.begin(machine);
            Ok(StopTest::Places(watch))
        }
        Err(_) => Err(LookFault::Memory),
    }
}

/// A watch on the places that a range names, which has seen what they hold.
#[tactic(auto, unfolding(crate::specs::Stops::range_test))]
fn range_test(
    alloc: Global,
    program: &Program,
    machine: &Machine,
    range: &Range,
) -> Result<StopTest, LookFault>
    ensures { Gives (λ test. test) result (range_test program.now machine.now range.now) }
{
    match watched_places(alloc, program, machine, range) {
        Ok((from, count)) => places_test(alloc, machine, from, count),
        Err(fault) => Err(fault),
    }
}

/// The test of a watch on a device.
fn device_test(device: Device, asked: Asked) -> StopTest
    ensures { result ≡ device_test device asked }
{
    StopTest::Device(DeviceWatch::new(device, asked))
}

/// The test of a watch.
fn watch_test(
    alloc: Global,
    program: &Program,
    machine: &Machine,
    watched: &Watched,
) -> Result<StopTest, LookFault>
    ensures { Gives (λ test. test) result (watch_test program.now machine.now watched.now) }
{
    match watched {
        Watched::Places(range) => range_test(alloc, program, machine, range),
        Watched::Paper(None) => Ok(device_test(Device::Printer, Asked::Anything)),
        Watched::Paper(Some(text)) => Ok(device_test(Device::Printer, Asked::Printed(*text))),
        Watched::Reader => Ok(device_test(Device::Reader, Asked::Anything)),
        Watched::Punch => Ok(device_test(Device::Punch, Asked::Anything)),
    }
}

/// What must hold where a break is come to.
fn asked_by(
    program: &Program,
    machine: &Machine,
    condition: &Option<Condition>,
) -> Result<Asked, LookFault>
    ensures { result ≡ asked_by program.now machine.now condition.now }
{
    match condition {
        None => Ok(Asked::Anything),
        Some(condition) => match program.comparison(machine, condition) {
            Ok(comparison) => Ok(Asked::Compared(comparison)),
            Err(fault) => Err(LookFault::Place(fault)),
        },
    }
}

/// The test of a break at an address, at the visit of this number, or at each.
fn break_test(address: u16, nth: Option<u32>, asked: Asked) -> StopTest
    ensures { result ≡ break_test address nth asked }
{
    StopTest::Arrival(Break {
        address,
        condition: asked,
        only: nth,
        is_met: false,
    })
}

/// Whether a number is among those that are listed.
fn is_listed(numbers: &[Option<u32>; MOST_LISTED], number: u32) -> bool
    ensures { result ≡ is_listed numbers.now number }
{
    numbers.iter().any(|listed| *listed == Some(number))
}

/// Whether a break or a watch has this number.
fn has_number(stops: &[NumberedStop], number: u32) -> bool
    ensures { result ≡ has_number stops.now number }
{
    stops.iter().any(|stop| stop.number == number)
}

/// The first of the numbers that none of the breaks and watches has.
fn first_missing(stops: &[NumberedStop], numbers: &[Option<u32>]) -> Option<u32>
    ensures { result ≡ first_missing stops.now numbers.now }
{
    let [number, more @ ..] = numbers else {
        return None;
    };
    match number {
        None => first_missing(stops, more),
        Some(number) => {
            if has_number(stops, *number) {
                first_missing(stops, more)
            } else {
                Some(*number)
            }
        }
    }
}

/// Removes the breaks and watches that are listed.
fn remove_listed(stops: &mut Vec<NumberedStop>, numbers: &[Option<u32>; MOST_LISTED])
    ensures { stops.new.items ≡ filter (λ stop. not (is_listed numbers.now stop.number)) stops.old.items }
{
    stops.retain(|stop| !is_listed(numbers, stop.number));
}

/// How many of them are breaks.
fn count_breaks(stops: &[NumberedStop]) -> usize
    ensures { result ≡ length (filter is_break stops.now) }
{
    let mut count = 0;
    for stop in stops {
        if stop.said.is_break() {
            count += 1;
        }
    }
    count
}

/// A break or a watch counts one run more, if the last step met it.
fn count(stop: &mut NumberedStop)
    ensures { stop.new ≡ stop_counted stop.old }
{
    if stop.test.is_met() {
        stop.times = stop.times.saturating_add(1);
    }
}

/// Each of the breaks and watches that the last step met counts one run more.
fn count_each(stops: &mut [NumberedStop])
    ensures { stops.new ≡ map stop_counted stops.old }
{
    for stop in stops.iter_mut() {
        count(stop);
    }
}

impl Stops {
    /// None.
    pub fn new(alloc: Global) -> Stops
        ensures { result ≡ no_stops }
    {
        Stops {
            stops: Vec::new(alloc),
            last: 0,
        }
    }

    /// The breaks and watches, in the order in which they were set.
    pub fn stops(&self) -> &[NumberedStop]
        ensures { result.now ≡ self.now.stops }
    {
        self.stops.as_slice()
    }

    /// The number of the next break or watch: 1 if there is none, else the one after the last that was given.
    fn next_number(&self) -> u32
        ensures { result ≡ next_number self.now }
    {
        if self.stops.is_empty() {
            1
        } else {
            self.last.saturating_add(1)
        }
    }

    /// Adds a break or a watch.
    ///
    /// # Errors
    ///
    /// `Breaks` or `Watches` if there are as many as are set at a time; `Memory`. Nothing has changed then.
    fn add(&mut self, said: Said, test: StopTest) -> Result<(), LookFault>
        ensures ok { OnOk result (one_more said test self.old ≡ Ok self.new) }
        ensures err { OnErr result (self.new ≡ self.old) }
        ensures why { IfErr result (λ why. (why ≡ LookFault.Memory) ⊎ (one_more said test self.old ≡ Err why)) }
    {
        let breaks = count_breaks(self.stops.as_slice());
        if said.is_break() {
            if breaks >= MOST_OF_A_KIND {
                return Err(LookFault::Breaks);
            }
        } else if self.stops.len().saturating_sub(breaks) >= MOST_OF_A_KIND {
            return Err(LookFault::Watches);
        }
        let number = self.next_number();
        let stop = NumberedStop {
            number,
            said,
            times: 0,
            test,
        };
        if self.stops.push(stop).is_err() {
            return Err(LookFault::Memory);
        }
        self.last = number;
        Ok(())
    }

    /// Adds a break at the end, at the address that its place means now.
    ///
    /// # Errors
    ///
    /// `Place` if it means none, or if the condition names no field; `Breaks` if there are 100; `Memory`. Nothing has
    /// changed then.
    #[tactic(auto, unfolding(crate::specs::Stops::break_added))]
    pub fn add_break(
        &mut self,
        program: &Program,
        machine: &Machine,
        place: &Place,
        after: Option<u32>,
        condition: Option<Condition>,
    ) -> Result<(), LookFault>
        ensures ok { OnOk result
            (break_added program.now machine.now place.now after condition self.old ≡ Ok self.new) }
        ensures err { OnErr result (self.new ≡ self.old) }
        ensures why { IfErr result (λ why. (why ≡ LookFault.Memory)
            ⊎ (break_added program.now machine.now place.now after condition self.old ≡ Err why)) }
    {
        let address = match program.address(machine, place) {
            Ok(address) => address,
            Err(fault) => return Err(LookFault::Place(fault)),
        };
        let asked = match asked_by(program, machine, &condition) {
            Ok(asked) => asked,
            Err(fault) => return Err(fault),
        };
        self.add(
            Said::Break { after, condition },
            break_test(address, after, asked),
        )
    }

    /// Adds a watch at the end.
    ///
    /// # Errors
    ///
    /// `Place` or `Field` if the places aren't in core, or if no field ends there; `Watches` if there are 100; `Memory`.
    /// Nothing has changed then.
    #[tactic(auto, unfolding(crate::specs::Stops::watch_added))]
    pub fn add_watch(
        &mut self,
        alloc: Global,
        program: &Program,
        machine: &Machine,
        watched: &Watched,
    ) -> Result<(), LookFault>
        ensures ok { OnOk result (watch_added program.now machine.now watched.now self.old ≡ Ok self.new) }
        ensures err { OnErr result (self.new ≡ self.old) }
        ensures why { IfErr result (λ why. (why ≡ LookFault.Memory)
            ⊎ (watch_added program.now machine.now watched.now self.old ≡ Err why)) }
    {
        match watch_test(alloc, program, machine, watched) {
            Ok(test) => self.add(Said::Watch(*watched), test),
            Err(fault) => Err(fault),
        }
    }

    /// Takes the breaks and watches with these numbers away, or all if none is listed.
    ///
    /// # Errors
    ///
    /// `NoStop` with the first number that none has. Nothing has changed then.
    #[tactic(auto, unfolding(crate::specs::Stops::stops_deleted))]
    pub fn delete(&mut self, numbers: &[Option<u32>; MOST_LISTED]) -> Result<(), LookFault>
        ensures ok { OnOk result (stops_deleted numbers.now self.old ≡ Ok self.new) }
        ensures err { OnErr result (self.new ≡ self.old) }
        ensures why { IfErr result (λ why. stops_deleted numbers.now self.old ≡ Err why) }
    {
        if numbers[0].is_none() {
            self.stops.clear();
            return Ok(());
        }
        if let Some(number) = first_missing(self.stops.as_slice(), numbers.as_slice()) {
            return Err(LookFault::NoStop { number });
        }
        remove_listed(&mut self.stops, numbers);
        Ok(())
    }

    /// Counts a run that ended because a step met one of the breaks and watches.
    pub fn count_met(&mut self)
        ensures { self.new ≡ stops_counted self.old }
    {
        count_each(self.stops.as_mut_slice());
    }

    /// The first of the breaks and watches that the last step met; `None` if it met none of them.
    pub fn met(&self) -> Option<&NumberedStop>
        ensures { option_map (λ stop. stop.now) result ≡ find is_stop_met self.now.stops }
    {
        self.stops.iter().find(|stop| stop.test.is_met())
    }

    /// Whether there is a break at an address.
    pub fn has_break_at(&self, at: u16) -> bool
        ensures { result ≡ list_any (is_break_at at) self.now.stops }
    {
        self.stops.iter().any(|stop| stop.is_break_at(at))
    }
}
