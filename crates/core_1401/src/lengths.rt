//! The lengths of fields, and the next word mark above a place.
ghost use Rattle.std.specs.Prelude.{◌≡◌, ◌+◌, ◌-◌, ◌≤◌, ◌<◌, ◌||◌, true, min, IfSome, length};
ghost use Rattle.core_1401.specs.Field.{field_len_of, pair_len_of, next_mark_from};
ghost use Rattle.core_1401.specs.Storage.{cell_at};

use crate::mark_words::{first_mark, first_pair, next_mark};
use crate::storage::Core;

impl Core {
    /// The length of the field with its units at this place: up to and including the first word mark; none if there
    /// is no word mark down to address 0.
    #[inline]
    #[tactic(auto, using(crate::proofs::HeldLemmas::length_held))]
    pub fn field_len(&self, at: u16) -> Option<u16>
        requires { at < length self.now }
        ensures value { result ≡ field_len_of self.now at }
        ensures bounds { IfSome result (λ n. (0 < n) × (n ≤ at + 1)) }
    {
        let distance = first_mark(&self.words, usize::from(at));
        if distance <= usize::from(at) {
            Some((distance + 1) as u16)
        } else {
            None
        }
    }

    /// How many places two fields have, down to and including the first word mark in either; none if one of them
    /// comes to address 0 first.
    #[inline]
    #[tactic(auto, using(crate::proofs::HeldLemmas::length_held))]
    pub fn pair_len(&self, a: u16, b: u16) -> Option<u16>
        requires a_in { a < length self.now }
        requires b_in { b < length self.now }
        ensures value { result ≡ pair_len_of self.now a b }
        ensures bounds { IfSome result (λ n. (0 < n) × (n ≤ a + 1) × (n ≤ b + 1)) }

        // The last pair has a word mark, in one of its cells or in both.
        ensures marked { IfSome result (λ n.
            ((cell_at self.now (a + 1 - n)).mark || (cell_at self.now (b + 1 - n)).mark) ≡ true) }
    {
        let (a, b) = (usize::from(a), usize::from(b));
        let distance = first_pair(&self.words, a, b);
        if distance <= a && distance <= b {
            Some((distance + 1) as u16)
        } else {
            None
        }
    }

    /// How many places it is from one to the next above it with a word mark, or to the end of core; but this most, 1 to
    /// 64.
    #[inline]
    #[tactic(auto, using(crate::proofs::HeldLemmas::length_held))]
    pub fn next_mark(&self, at: u16, most: u16) -> u16
        requires at { at < length self.now }
        requires some { 0 < most }
        requires most { most ≤ 64 }
        ensures value { result ≡ min most (next_mark_from self.now at) }
        ensures some { 0 < result }
        ensures inside { at + result ≤ length self.now }
    {
        let ahead = next_mark(&self.words, usize::from(at), usize::from(most));
        ahead.min(self.chars.len() - usize::from(at)) as u16
    }
}
