//! Places that two lines fill, and phases that are overwritten before they are entered.
ghost use Rattle.std.specs.Prelude.{◌≡◌, ◌+◌, ◌-◌, ◌<◌, ◌≤◌, ◌^◌, length, take, slice_index_or, drop};
ghost use Rattle.std.specs.Prelude.{IfOk, IfErr, OnOk};
ghost use Rattle.autocoder_symbols.specs.Fault.{IsMemory};
ghost use Rattle.autocoder_warnings.specs.Overlap.{first_filled, with_filler, enters_phase, is_entry_line, entry_from};
ghost use Rattle.autocoder_warnings.specs.Overlap.{overlap_at, first_overlap};

use autocoder_placing::FilledPlaces;
use autocoder_statements::{Addressing, Line, Statement};
use autocoder_symbols::{AsmFault, Lines};

/// A place that two lines fill.
#[derive(Clone, Copy, Debug)]
pub struct Overlap {
    /// The first such place.
    pub place: usize,
    /// The number of the line that fills it first.
    pub line: u32,
    /// The number of the first line between the two that would enter the phase of the first: an EX or XFR.
    pub entered: Option<u64>,
}

/// The number of the line that fills a place, 0 if none does.
fn filler_of(fillers: &[u32], place: usize) -> u32
    ensures { result ≡ slice_index_or fillers.now place 0 }
{
    fillers.get(place).copied().unwrap_or(0)
}

/// The first of places that a line fills.
#[tactic(auto, using(crate::proofs::OverlapLemmas::one_place_more))]
fn first_filled(fillers: &[u32], first: u16, count: usize) -> Result<Option<usize>, AsmFault>
    ensures ok { IfOk result (λ place. place ≡ first_filled fillers.now first count) }
    ensures err { IfErr result IsMemory }
{
    let mut at = usize::from(first);
    let mut left = count;
    while left > 0 {
        if filler_of(fillers, at) != 0 {
            return Ok(Some(at));
        }
        at = at.checked_add(1).ok_or(AsmFault::MEMORY)?;
        left -= 1;
    }
    Ok(None)
}

/// Has places filled by the line of this number; those that aren't in core are left out.
#[tactic(auto, using(crate::proofs::OverlapLemmas::one_filler_more))]
fn put_filler(fillers: &mut [u32], first: u16, count: usize, number: u32) -> Result<(), AsmFault>
    ensures ok { OnOk result (fillers.new ≡ with_filler number first count fillers.old) }
    ensures err { IfErr result IsMemory }
{
    let mut at = usize::from(first);
    let mut left = count;
    while left > 0 {
        if at < fillers.len() {
            fillers[at] = number;
        }
        at = at.checked_add(1).ok_or(AsmFault::MEMORY)?;
        left -= 1;
    }
    Ok(())
}

/// Whether a statement with this addressing would enter a phase: EX and XFR.
pub(crate) fn enters_phase(addressing: Addressing) -> bool
    ensures { result ≡ enters_phase addressing }
{
    match addressing {
        Addressing::Value(_) => true,
        Addressing::Nothing
        | Addressing::Addresses(_)
        | Addressing::EarlierValue(_)
        | Addressing::Equal(_)
        | Addressing::Entry(_) => false,
    }
}

/// Whether a line would enter a phase.
fn is_entry_line(line: &Line) -> bool
    ensures { result ≡ is_entry_line line.now }
{
    match line.statement {
        Some(Statement { body, .. }) => enters_phase(body.describe().addressing),
        None => false,
    }
}

/// The number of the first of these lines that would enter a phase, counting them from this one.
fn entry_from(number: u32, lines: &Lines<'_>) -> Option<u64>
    requires { length lines.now < 2 ^ 32 }
    ensures { result ≡ entry_from number lines.now }
{
    let mut at = u64::from(number);
    for i in 0..lines.len() {
        if is_entry_line(&lines.line(i)) {
            return Some(at);
        }
        at += 1;
    }
    None
}

/// The lines from the one of this number on.
fn lines_from<'a>(number: u32, lines: &Lines<'a>) -> Lines<'a>
    ensures value { result ≡ drop (number - 1) lines.now }
    ensures count { length result ≤ length lines.now }
{
    lines.from((number as usize).saturating_sub(1))
}

/// The overlap at a place, for a line below these.
fn overlap_at(fillers: &[u32], above: &Lines<'_>, place: usize) -> Overlap
    requires { length above.now < 2 ^ 32 }
    ensures { result ≡ overlap_at fillers.now above.now place }
{
    let line = filler_of(fillers, place);
    Overlap {
        place,
        line,
        entered: entry_from(line, &lines_from(line, above)),
    }
}

/// The first overlap of a line that fills these places, below these lines.
fn first_overlap(
    fillers: &[u32],
    above: &Lines<'_>,
    places: FilledPlaces,
) -> Result<Option<Overlap>, AsmFault>
    requires { length above.now < 2 ^ 32 }
    ensures ok { IfOk result (λ overlap. overlap ≡ first_overlap fillers.now above.now places) }
    ensures err { IfErr result IsMemory }
{
    match first_filled(fillers, places.first, places.count)? {
        Some(place) => Ok(Some(overlap_at(fillers, above, place))),
        None => Ok(None),
    }
}

/// The overlap of the line that fills these places, with this many lines above it. They are filled by it afterwards.
pub(crate) fn put_places(
    fillers: &mut [u32],
    lines: &Lines<'_>,
    n: usize,
    places: FilledPlaces,
) -> Result<Option<Overlap>, AsmFault>
    requires few { length lines.now < 2 ^ 32 }
    requires line { n < length lines.now }
    ensures overlap { IfOk result (λ overlap. overlap ≡ first_overlap fillers.old (take n lines.now) places) }
    ensures fillers { OnOk result (fillers.new ≡ with_filler (n + 1) places.first places.count fillers.old) }
    ensures err { IfErr result IsMemory }
{
    let overlap = first_overlap(fillers, &lines.above(n), places)?;
    put_filler(fillers, places.first, places.count, n as u32 + 1)?;
    Ok(overlap)
}
