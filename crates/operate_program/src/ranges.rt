//! The places of ranges.
ghost use Rattle.std.specs.Prelude.{◌≡◌, ◌+◌, ◌<◌, ◌≤◌, ◌^◌, length, IfOk, IfSome};
ghost use Rattle.core_1401.specs.Address.{addresses};
ghost use Rattle.operate_program.specs.Range.{area_of, between, count_named, counted, first_named, is_first_of};
ghost use Rattle.operate_program.specs.Range.{index_places, lone, one_place, places_in_core, places_named};
ghost use Rattle.operate_program.specs.Range.{range_of, unadjusted};

use crate::fault::PlaceFault;
use crate::program::Program;
use crate::values::{index_name, is_unadjusted, place_of, units_place};
use autocoder_listing::{Row, Symbol};
use core_1401::Core;
use cpu_1401::Machine;
use operate_orders::{Area, Base, IndexRegister, Place, Range, Text};

/// The places of an area: the first, and how many.
fn area_of(area: Area) -> (u16, u16)
    ensures value { result ≡ area_of area }
    ensures inside { result.0 + result.1 ≤ 1400 }
{
    match area {
        Area::Read => (1, 80),
        Area::Punch => (101, 80),
        Area::Print => (201, 132),
    }
}

/// So many places, if they are in core.
#[tactic(auto, unfolding(crate::specs::Range::places_in_core))]
pub(crate) fn places_in_core(core: &Core, first: u16, count: u32) -> Result<(u16, u16), PlaceFault>
    requires { 0 < count }
    ensures value { result ≡ places_in_core core.now first count }
    ensures inside { IfOk result (λ places. places.0 + places.1 ≤ length core.now) }
{
    let size = core.size();
    let end = u64::from(first) + u64::from(count);
    if end <= u64::from(size) {
        Ok((first, count as u16))
    } else {
        Err(PlaceFault::NotInCore { at: end - 1, size })
    }
}

/// Whether the line of a symbol begins at its value, which is the first place of what it names then, and else the last.
fn is_first_of(rows: &[Row], symbol: &Symbol) -> bool
    ensures { result ≡ is_first_of rows.now symbol.now }
{
    rows.iter().any(|row| row.number == symbol.line && row.address == symbol.value)
}

/// How many places a symbol names: one if it names a value alone.
fn count_named(symbol: &Symbol) -> u32
    ensures value { result ≡ count_named symbol.now }
    ensures some { 0 < result }
{
    match symbol.length {
        Some(length) => length.max(1),
        None => 1,
    }
}

/// The first of the places that a symbol names, if this is its value.
#[tactic(auto, unfolding(crate::specs::Range::first_named))]
fn first_named(rows: &[Row], symbol: &Symbol, value: u16) -> u16
    requires { value < addresses }
    ensures value { result ≡ first_named rows.now symbol.now value }
    ensures range { result ≤ value }
{
    if is_first_of(rows, symbol) {
        value
    } else {
        (u32::from(value) + 1).saturating_sub(count_named(symbol)) as u16
    }
}

/// The places that a symbol names.
#[tactic(auto, unfolding(crate::specs::Range::places_named))]
fn places_named(
    core: &Core,
    rows: &[Row],
    label: &Text,
    symbol: &Symbol,
) -> Result<(u16, u16), PlaceFault>
    ensures value { result ≡ places_named core.now rows.now label.now symbol.now }
    ensures inside { IfOk result (λ places. places.0 + places.1 ≤ length core.now) }
{
    match place_of(symbol.value) {
        Some(value) => {
            places_in_core(
                core,
                first_named(rows, symbol, value as u16),
                count_named(symbol),
            )
        }
        None => Err(PlaceFault::NoPlace(*label)),
    }
}

impl Program {
    /// The three places of an index register, or those of a label with its name.
    #[tactic(auto, unfolding(crate::specs::Range::index_places))]
    fn index_places(&self, core: &Core, register: IndexRegister) -> Result<(u16, u16), PlaceFault>
        ensures value { result ≡ index_places self.now core.now register }
        ensures inside { IfOk result (λ places. places.0 + places.1 ≤ length core.now) }
    {
        let name = index_name(register);
        match self.symbol(name) {
            Some(symbol) => places_named(
                core,
                self.rows.as_slice(),
                &Text::as_typed(name),
                &symbol,
            ),
            None => {
                // Core storage of any size has the places of all three.
                let _ = core.size();
                Ok((units_place(register) - 2, 3))
            }
        }
    }

    /// The places from one to another.
    #[tactic(auto, unfolding(crate::specs::Range::between))]
    fn between(
        &self,
        machine: &Machine,
        first: &Place,
        last: &Place,
    ) -> Result<(u16, u16), PlaceFault>
        ensures value { result ≡ between self.now machine.now first.now last.now }
        ensures inside { IfOk result (λ places. places.0 + places.1 ≤ length machine.now.storage) }
    {
        let first = self.address(machine, first)?;
        let last = self.address(machine, last)?;
        // No core storage is so large that a place above another has no address.
        let _ = machine.core().size();
        if last < first {
            return Err(PlaceFault::Backwards { first, last });
        }
        Ok((first, last - first + 1))
    }

    /// So many places, from one on.
    #[tactic(auto, unfolding(crate::specs::Range::counted))]
    fn counted(
        &self,
        machine: &Machine,
        first: &Place,
        count: u32,
    ) -> Result<(u16, u16), PlaceFault>
        ensures value { result ≡ counted self.now machine.now first.now count }
        ensures inside { IfOk result (λ places. places.0 + places.1 ≤ length machine.now.storage) }
    {
        let first = self.address(machine, first)?;
        places_in_core(machine.core(), first, count.max(1))
    }

    /// The place that an address means.
    #[tactic(auto, unfolding(crate::specs::Range::one_place))]
    fn one_place(&self, machine: &Machine, place: &Place) -> Result<(u16, u16), PlaceFault>
        ensures value { result ≡ one_place self.now machine.now place.now }
        ensures inside { IfOk result (λ places. places.0 + places.1 ≤ length machine.now.storage) }
    {
        let at = self.address(machine, place)?;
        Ok((at, 1))
    }

    /// A place without an adjustment: all places of a label, or of an index register.
    #[tactic(auto, unfolding(crate::specs::Range::label_places))]
    fn unadjusted(&self, machine: &Machine, place: &Place) -> Result<(u16, u16), PlaceFault>
        ensures value { result ≡ unadjusted self.now machine.now place.now place.now.base }
        ensures inside { IfOk result (λ places. places.0 + places.1 ≤ length machine.now.storage) }
    {
        match &place.base {
            Base::Label(label) => match self.symbol(label.as_slice()) {
                Some(symbol) => {
                    places_named(machine.core(), self.rows.as_slice(), label, &symbol)
                }
                None => Err(PlaceFault::Label(*label)),
            },
            Base::Index(register) => self.index_places(machine.core(), *register),
            Base::Number(_) | Base::Line(_) | Base::Held(_) => self.one_place(machine, place),
        }
    }

    /// A place alone: all places of a label, or of an index register.
    fn lone(&self, machine: &Machine, place: &Place) -> Result<(u16, u16), PlaceFault>
        ensures value { result ≡ lone self.now machine.now place.now }
        ensures inside { IfOk result (λ places. places.0 + places.1 ≤ length machine.now.storage) }
    {
        if is_unadjusted(place) {
            self.unadjusted(machine, place)
        } else {
            self.one_place(machine, place)
        }
    }

    /// The places of a range now: the first, and how many.
    ///
    /// # Errors
    ///
    /// As `address`; `NotInCore` if one of the places isn't in core; `Backwards`.
    pub fn range(&self, machine: &Machine, range: &Range) -> Result<(u16, u16), PlaceFault>
        ensures value { result ≡ range_of self.now machine.now range.now }
        ensures inside { IfOk result (λ places. places.0 + places.1 ≤ length machine.now.storage) }
    {
        // Core storage of any size has the areas.
        let _ = machine.core().size();
        match range {
            Range::Area(area) => Ok(area_of(*area)),
            Range::Between { first, last } => self.between(machine, first, last),
            Range::Counted { first, count } => self.counted(machine, first, *count),
            Range::At(place) => self.lone(machine, place),
        }
    }
}
