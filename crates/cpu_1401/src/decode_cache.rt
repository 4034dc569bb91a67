//! A cache of decoded instructions: one that is carried out again isn't decoded again.
ghost use Rattle.std.specs.Prelude.{◌≡◌, ◌≢◌, ◌⊎◌, ℕ, ◌+◌, ◌%◌, ◌<◌, ◌≤◌, Bool, List, false, true, IfOk, IfSome, length};
ghost use Rattle.core_1401.specs.Address.{addresses};
ghost use Rattle.core_1401.specs.PlaceSet.{has_place};
ghost use Rattle.cpu_1401.specs.declared.cache_entry.CacheEntry.{CacheEntry};
ghost use Rattle.cpu_1401.specs.Decoded.{Says};
ghost use Rattle.cpu_1401.specs.DecodeCache.{AreMarks, IsApart, IsCurrent, IsCached, IsPart, entry_count, lowest_written};
ghost use Rattle.cpu_1401.specs.DecodeCache.{no_place};
ghost use Rattle.cpu_1401.specs.NeededPlaces.{HasPlaces};
ghost use Rattle.fields_1401.specs.Places.{marks_of};

use crate::cache_entry::{CacheEntry, NO_PLACE};
use crate::decoded::Decoded;
use core_1401::{ADDRESSES, Core, PlaceSet};
use std::alloc::{AllocError, Global};
use std::marker::Model;

/// How many instructions are cached at most: 32 KB of them. A loop of up to that many places is cached whole.
const ENTRIES: u16 = 1024;

/// How many cells an entry has after its first.
const MORE_CELLS: u16 = 7;

/// How many places `has_none_near` answers for.
const NEAR_PLACES: u16 = 64;

/// A decode cache: the instructions decoded last, each with its eight cells, in the entry of its place. Places with the
/// same remainder by the number of entries share one. None is cached at the last eight places, so the next instruction
/// begins at a place too.
///
/// An instruction is found by its place and its characters, so changing a word mark in its cells must invalidate its
/// entry. A bit for each place says whether it may be a cell of a cached instruction. Contracts see the entries, and the
/// size of the core that they are of.
#[derive(Drop)]
pub(crate) struct DecodeCache {
    entries: Vec<CacheEntry>,
    covered: PlaceSet,
    // No cached instruction has a cell below the first place, nor above the last. Most of what a program writes
    // is on one side of its instructions.
    first: u16,
    last: u16,
    size: u16,
}

impl Model for DecodeCache {
    ghost use Rattle.std.specs.Prelude.{◌≡◌, length};
    ghost use Rattle.cpu_1401.specs.DecodeCache.{AreBetween, AreCovered, AreInside, CacheView, entry_count};

    ghost Value = { CacheView };

    ghost view = { λ cache. record { entries = cache.entries.items; size = cache.size } };

    ghost invariant = { λ cache.
        (length cache.entries.items ≡ entry_count) × AreCovered cache.entries.items cache.covered
        × AreInside cache.entries.items cache.size × AreBetween cache.entries.items cache.first cache.last };
}

impl DecodeCache {
    /// A cache that keeps nothing, of a core of this size.
    ///
    /// # Errors
    ///
    /// An allocation that was refused.
    pub(crate) fn none(alloc: Global, size: u16) -> Result<DecodeCache, AllocError>
        ensures size { IfOk result (λ cache. cache.size ≡ size) }
        ensures current { IfOk result (λ cache. (marks : List Bool) → IsCurrent cache.entries marks) }
    {
        let entries = vec![in alloc; CacheEntry::empty(); usize::from(ENTRIES)]?;
        Ok(DecodeCache {
            entries,
            covered: PlaceSet::none(),
            first: NO_PLACE,
            last: 0,
            size,
        })
    }

    /// Copies all that another cache keeps.
    pub(crate) fn copy_from(&mut self, other: &DecodeCache)
        ensures { self.new ≡ other.now }
    {
        self.entries.copy_from_slice(&other.entries);
        self.covered.copy_from(&other.covered);
        self.first = other.first;
        self.last = other.last;
        self.size = other.size;
    }

    /// The instruction at a place, if it was decoded there from the same cells that are there now, and its addresses
    /// are ready: if it needs them to be those of places, they are.
    #[inline(always)]
    pub(crate) fn find_ready(&self, core: &Core, at: u16) -> Option<&Decoded>
        requires place { at < addresses }
        requires size { self.now.size ≤ length core.now }
        requires current { IsCurrent self.now.entries (marks_of core.now) }
        ensures says { IfSome result (λ decoded. Says core.now at decoded.now) }
        ensures ready { IfSome result (λ decoded. decoded.now.is_ready ≡ true) }
        ensures inside { IfSome result (λ decoded. at + decoded.now.len < addresses) }
        ensures places { IfSome result (λ decoded.
            HasPlaces decoded.now.operation decoded.now.a.value decoded.now.b.value (length core.now)) }
    {
        let entry = &self.entries[entry_of(at)];
        if entry.ready_at != at {
            return None;
        }
        prove!(core.size() <= ADDRESSES);
        said_there(entry, core, at)
    }

    /// The instruction at a place, if it was decoded there from the same cells that are there now.
    #[inline(always)]
    pub(crate) fn find(&self, core: &Core, at: u16) -> Option<&Decoded>
        requires place { at < addresses }
        requires size { self.now.size ≤ length core.now }
        requires current { IsCurrent self.now.entries (marks_of core.now) }
        ensures says { IfSome result (λ decoded. Says core.now at decoded.now) }
        ensures inside { IfSome result (λ decoded. at + decoded.now.len < addresses) }
    {
        let entry = &self.entries[entry_of(at)];
        if entry.at != at {
            return None;
        }
        prove!(core.size() <= ADDRESSES);
        said_there(entry, core, at)
    }

    /// Keeps the instruction at a place, but not at the last eight places.
    #[tactic(auto, using(crate::proofs::DecodedLemmas::always_say))]
    pub(crate) fn keep(&mut self, core: &Core, at: u16, decoded: &Decoded)
        requires size { self.old.size ≤ length core.now }
        requires place { at < addresses }
        requires says { Says core.now at decoded.now }
        requires current { IsCurrent self.old.entries (marks_of core.now) }
        ensures size { self.new.size ≡ self.old.size }
        ensures current { IsCurrent self.new.entries (marks_of core.now) }
    {
        prove!(core.size() <= ADDRESSES);
        if at + 8 >= self.size {
            return;
        }
        let cells = core.eight_cells(at);
        cover_eight(&mut self.covered, at);
        self.first = self.first.min(at);
        self.last = self.last.max(at + MORE_CELLS);
        self.entries[entry_of(at)] = CacheEntry {
            codes: cells.codes,
            decoded: *decoded,
            at,
            ready_at: ready_place(decoded, at, self.size),
            marks: cells.marks,
        };
    }

    /// Whether a place may be among the eight cells of a cached instruction.
    #[inline(always)]
    fn covers(&self, at: u16) -> bool
        requires { at < addresses }
        ensures { result ≡ false → IsApart self.now.entries at at }
    {
        self.covered.has(at)
    }

    /// Forgets each instruction that has this place among its eight cells.
    #[inline(always)]
    pub(crate) fn forget_at(&mut self, at: u16)
        requires { at < addresses }
        ensures part { IsPart self.old.entries self.new.entries }
        ensures apart { IsApart self.new.entries at at }
        ensures size { self.new.size ≡ self.old.size }
    {
        if self.covers(at) {
            self.forget(at, at);
        }
    }

    /// Forgets each instruction that has one of two places among its eight cells.
    #[inline(always)]
    pub(crate) fn forget_two(&mut self, a: u16, b: u16)
        requires a { a < addresses }
        requires b { b < addresses }
        ensures part { IsPart self.old.entries self.new.entries }
        ensures apart_a { IsApart self.new.entries a a }
        ensures apart_b { IsApart self.new.entries b b }
        ensures size { self.new.size ≡ self.old.size }
    {
        if self.covers(a) || self.covers(b) {
            self.forget_both(a, b);
        }
    }

    /// The same, whether or not the places may be cells of any.
    #[cold]
    #[inline(never)]
    fn forget_both(&mut self, a: u16, b: u16)
        requires a { a < addresses }
        requires b { b < addresses }
        ensures part { IsPart self.old.entries self.new.entries }
        ensures apart_a { IsApart self.new.entries a a }
        ensures apart_b { IsApart self.new.entries b b }
        ensures size { self.new.size ≡ self.old.size }
    {
        self.forget(a, a);
        self.forget(b, b);
    }

    /// Forgets each instruction that has one of the places among its eight cells that an operation wrote: from its
    /// units down to the place above its register afterwards.
    #[inline(always)]
    pub(crate) fn forget_down(&mut self, units: u16, below: u16)
        requires { units < addresses }
        ensures part { IsPart self.old.entries self.new.entries }
        ensures apart { IsApart self.new.entries (lowest_written units below) units }
        ensures size { self.new.size ≡ self.old.size }
    {
        let is_above = self.last <= below && below < units;
        if units < self.first || is_above {
            return;
        }
        let beside_units = units.wrapping_sub(below).wrapping_sub(1);
        if beside_units >= NEAR_PLACES || !self.covered.has_none_near(units) {
            self.forget_written(units, below);
        }
    }

    /// The same, with the places that were written counted.
    #[cold]
    #[inline(never)]
    fn forget_written(&mut self, units: u16, below: u16)
        requires { units < addresses }
        ensures part { IsPart self.old.entries self.new.entries }
        ensures apart { IsApart self.new.entries (lowest_written units below) units }
        ensures size { self.new.size ≡ self.old.size }
    {
        let n = if below < units {
            units - below
        } else {
            units + 1
        };
        if !self.covered.has_none(units, n) {
            self.forget(units + 1 - n, units);
        }
    }

    /// Forgets each instruction that has one of the places from low to high among its eight cells.
    #[cold]
    #[inline(never)]
    fn forget(&mut self, low: u16, high: u16)
        requires order { low ≤ high }
        requires high { high < addresses }
        ensures part { IsPart self.old.entries self.new.entries }
        ensures apart { IsApart self.new.entries low high }
        ensures size { self.new.size ≡ self.old.size }
    {
        empty_entries(&mut self.entries, low - low.min(MORE_CELLS), high + 1);
        self.covered.remove(low, high);
    }
}

/// The entry of a place.
#[inline(always)]
fn entry_of(at: u16) -> usize
    ensures { result ≡ at % entry_count }
{
    usize::from(at % ENTRIES)
}

/// The instruction of an entry, if its codes are at a place, where its word marks are.
#[inline(always)]
fn said_there<'e>(entry: &'e CacheEntry, core: &Core, at: u16) -> Option<&'e Decoded>
    requires inside { at + 8 ≤ length core.now }
    requires marks { AreMarks (marks_of core.now) at entry.now.marks }
    ensures says { IfSome result (λ decoded. Says core.now at decoded.now) }
    ensures own { IfSome result (λ decoded. decoded.now ≡ entry.now.decoded) }
{
    if core.eight_codes(at) != entry.codes {
        return None;
    }
    Some(&entry.decoded)
}

/// The place of an instruction, if its addresses are ready, and in core storage of this size if they have to be.
fn ready_place(decoded: &Decoded, at: u16, size: u16) -> u16
    ensures there { result ≢ no_place → result ≡ at }
    ensures ready { result ≢ no_place → decoded.now.is_ready ≡ true }
    ensures places { result ≢ no_place →
        HasPlaces decoded.now.operation decoded.now.a.value decoded.now.b.value size }
{
    let is_inside = decoded.a.value < size && decoded.b.value < size;
    if decoded.is_ready && (is_inside || !decoded.operation.needs_places()) {
        at
    } else {
        NO_PLACE
    }
}

/// Empties the entries of the instructions that are cached at the places from one up to another.
fn empty_entries(entries: &mut [CacheEntry], from: u16, to: u16)
    requires order { from ≤ to }
    requires places { to ≤ addresses }
    requires all { length entries.old ≡ entry_count }
    ensures count { length entries.new ≡ length entries.old }
    ensures part { IsPart entries.old entries.new }
    ensures beside { (at : ℕ) → (entry : CacheEntry) → IsCached entries.new at entry → (at < from) ⊎ (to ≤ at) }
{
    for place in from..to {
        let entry = &mut entries[entry_of(place)];
        if entry.at == place {
            entry.ready_at = NO_PLACE;
            entry.at = NO_PLACE;
        }
    }
}

/// Adds eight places from one up.
fn cover_eight(covered: &mut PlaceSet, at: u16)
    requires { at + 8 ≤ addresses }
    ensures there { (i : ℕ) → i < 8 → has_place covered.new (at + i) ≡ true }
    ensures more { (place : ℕ) → has_place covered.old place ≡ true → has_place covered.new place ≡ true }
{
    for i in 0..=MORE_CELLS {
        covered.insert(at + i);
    }
}
