//! Core storage: one cell for each address.
ghost use Rattle.std.specs.Prelude.{◌≡◌, ◌<◌, ◌≤◌, ◌↔◌, true, false, length, IfOk};
ghost use Rattle.core_1401.specs.Address.{addresses};
ghost use Rattle.core_1401.specs.Storage.{cell_at, with_char, with_mark, blanks, is_in_core, core_sizes, is_core_size};
ghost use Rattle.core_1401.specs.Storage.{least_core_size};

use crate::fault::CoreFault;
use crate::mark_words::{WORDS, has_bit, no_marks, with_bit};
use bcd_1401::{Cell, Char};
use std::alloc::Global;
use std::marker::Model;

/// The sizes that core storage is made in, the smallest first.
pub const SIZES: [u16; 6] = [1_400, 2_000, 4_000, 8_000, 12_000, 16_000];

/// The smallest of them.
pub const LEAST_SIZE: u16 = SIZES[0];

/// Core storage. Contracts see it as the list of its cells by address.
#[derive(Drop)]
pub struct Core {
    pub(crate) chars: Vec<Char>,
    pub(crate) words: [u64; WORDS],
}

impl Model for Core {
    ghost use Rattle.std.specs.Prelude.{List};
    ghost use Rattle.bcd_1401.specs.declared.cell.Cell.{Cell};
    ghost use Rattle.core_1401.specs.MarkWords.{held, IsWhole};

    ghost Value = { List Cell };

    ghost view = { λ core. held core.chars.items core.words };

    ghost invariant = { λ core. IsWhole core.chars.items core.words };
}

impl Core {
    /// Whether core storage is made in this size.
    pub fn is_size(size: u16) -> bool
        ensures value { result ≡ is_core_size size }
        ensures sizes { SIZES ≡ core_sizes }
    {
        SIZES.contains(&size)
    }

    /// Core storage as it is at power-on: blank, and without a word mark.
    ///
    /// # Errors
    ///
    /// `Size` if no core storage of that size is made, else `Memory` if there is no room for it.
    #[tactic(auto, using(crate::proofs::HeldLemmas::held_blank))]
    pub fn power_on(alloc: Global, size: u16) -> Result<Core, CoreFault>
        ensures ok { IfOk result (λ core. core ≡ blanks size) }
        ensures size { (result ≡ Err CoreFault.Size) ↔ (is_core_size size ≡ false) }
    {
        if !Core::is_size(size) {
            return Err(CoreFault::Size);
        }
        match vec![in alloc; Char::BLANK; usize::from(size)] {
            Ok(chars) => Ok(Core {
                chars,
                words: no_marks(),
            }),
            Err(_) => Err(CoreFault::Memory),
        }
    }

    /// How many places there are.
    #[inline]
    #[tactic(auto, using(crate::proofs::HeldLemmas::length_held))]
    pub fn size(&self) -> u16
        ensures value { result ≡ length self.now }
        ensures core { is_core_size result ≡ true }
        ensures least { least_core_size ≤ result }
        ensures most { result ≤ addresses }
    {
        self.chars.len() as u16
    }

    /// Whether the address is that of a place.
    #[inline]
    pub fn in_core(&self, at: u16) -> bool
        ensures { result ≡ is_in_core self.now at }
    {
        at < self.size()
    }

    /// What is at a place.
    #[inline]
    #[tactic(auto, using(crate::proofs::HeldLemmas::length_held))]
    pub fn get(&self, at: u16) -> Cell
        requires { at < length self.now }
        ensures { result ≡ cell_at self.now at }
    {
        let place = usize::from(at);
        Cell {
            char: self.chars[place],
            mark: has_bit(self.words[place / 64 + 1], place % 64),
        }
    }

    /// Puts a character at a place. The word mark there stays.
    #[inline]
    #[tactic(auto, using(crate::proofs::HeldLemmas::length_held))]
    pub fn put_char(&mut self, at: u16, char: Char)
        requires { at < length self.old }
        ensures { self.new ≡ with_char self.old at char }
    {
        self.chars[usize::from(at)] = char;
    }

    /// Sets or clears the word mark of a place. The character there stays.
    #[inline]
    #[tactic(auto, using(crate::proofs::HeldLemmas::length_held))]
    pub fn put_mark(&mut self, at: u16, mark: bool)
        requires { at < length self.old }
        ensures { self.new ≡ with_mark self.old at mark }
    {
        let place = usize::from(at);
        self.words[place / 64 + 1] = with_bit(self.words[place / 64 + 1], place % 64, mark);
    }
}
