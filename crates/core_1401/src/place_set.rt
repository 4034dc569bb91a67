//! A set of places, a bit for each.
ghost use Rattle.std.specs.Prelude.{◌≡◌, ◌≢◌, ℕ, ◌+◌, ◌/◌, ◌<◌, ◌≤◌, ◌↔◌, true, false, IsTrue, length};
ghost use Rattle.core_1401.specs.Address.{addresses};
ghost use Rattle.core_1401.specs.PlaceSet.{has_place, HasNone};

use crate::mark_words::{WORDS, clear_marks, first_mark, has_bit, no_marks, window_down, with_bit};
use std::marker::Model;

/// A set of places, of a core of any size. Contracts see it as its words, and ask `has_place` of them.
#[derive(Drop)]
pub struct PlaceSet {
    words: [u64; WORDS],
}

impl Model for PlaceSet {
    ghost use Rattle.std.specs.Prelude.{◌≡◌, ℕ, List, length};

    ghost Value = { List ℕ };

    ghost view = { λ set. set.words };

    ghost invariant = { λ set. length set.words ≡ 252 };
}

impl PlaceSet {
    /// The set of no place.
    pub fn none() -> PlaceSet
        ensures { (at : ℕ) → has_place result at ≡ false }
    {
        PlaceSet { words: no_marks() }
    }

    /// Copies all places of another set, and has no others.
    pub fn copy_from(&mut self, other: &PlaceSet)
        ensures { self.new ≡ other.now }
    {
        self.words = other.words;
    }

    /// Whether a place is in the set.
    #[inline(always)]
    pub fn has(&self, at: u16) -> bool
        requires { at < addresses }
        ensures { result ≡ has_place self.now at }
    {
        let place = usize::from(at);
        has_bit(self.words[place / 64 + 1], place % 64)
    }

    /// True only if none of the 64 places from one down is in the set: what is asked first, since it takes the least.
    #[inline(always)]
    pub fn has_none_near(&self, at: u16) -> bool
        requires { at < addresses }
        ensures { IsTrue result → HasNone self.now at 64 }
    {
        window_down(&self.words, usize::from(at)) == 0
    }

    /// Whether none of the n places from one down is in the set.
    #[inline(always)]
    pub fn has_none(&self, at: u16, n: u16) -> bool
        requires at { at < addresses }
        requires some { 0 < n }
        requires n { n ≤ at + 1 }
        ensures { IsTrue result ↔ HasNone self.now at n }
    {
        if n <= 64 {
            return none_near(&self.words, usize::from(at), usize::from(n));
        }
        self.has_none_of_many(at, n)
    }

    /// The same of more than 64 places.
    #[inline(never)]
    fn has_none_of_many(&self, at: u16, n: u16) -> bool
        requires at { at < addresses }
        requires some { 0 < n }
        requires n { n ≤ at + 1 }
        ensures { IsTrue result ↔ HasNone self.now at n }
    {
        first_mark(&self.words, usize::from(at)) >= usize::from(n)
    }

    /// Adds a place.
    pub fn insert(&mut self, at: u16)
        requires { at < addresses }
        ensures there { has_place self.new at ≡ true }
        ensures others { (place : ℕ) → place ≢ at → has_place self.new place ≡ has_place self.old place }
    {
        let place = usize::from(at);
        self.words[place / 64 + 1] = with_bit(self.words[place / 64 + 1], place % 64, true);
    }

    /// Removes the places from low to high.
    pub fn remove(&mut self, low: u16, high: u16)
        requires order { low ≤ high }
        requires high { high < addresses }
        ensures inside { (place : ℕ) → low ≤ place → place ≤ high → has_place self.new place ≡ false }
        ensures below { (place : ℕ) → place < low → has_place self.new place ≡ has_place self.old place }
        ensures above { (place : ℕ) → high < place → has_place self.new place ≡ has_place self.old place }
    {
        clear_marks(&mut self.words, usize::from(low), usize::from(high));
    }
}

/// Whether none of the n places from one down, at most 64, has its bit set.
#[inline(always)]
fn none_near(words: &[u64], at: usize, n: usize) -> bool
    requires within { at / 64 + 1 < length words.now }
    requires some { 0 < n }
    requires most { n ≤ 64 }
    requires places { n ≤ at + 1 }
    ensures { IsTrue result ↔ HasNone words.now at n }
{
    window_down(words, at) >> (64 - n) == 0
}
