//! What a machine is fitted with, and a cache of the instructions that features claim: one that is carried out again
//! isn't decoded again.
ghost use Rattle.std.specs.Prelude.{◌≡◌, ◌≢◌, ◌+◌, ◌%◌, ◌<◌, ◌≤◌, IfOk, IfSome, length, nat_lt, true};
ghost use Rattle.core_1401.specs.Address.{addresses};
ghost use Rattle.cpu_1401.specs.DecodedFitted.{SaysFitted, fitted_entry_count};
ghost use Rattle.machine_tables.specs.declared.fitted.Fitted.{Fitted};
ghost use Rattle.machine_tables.specs.Features.{no_features};

use crate::decoded_fitted::DecodedFitted;
use crate::fitted_entry::FittedEntry;
use core_1401::Core;
use machine_tables::Features;
use std::alloc::{AllocError, Global};
use std::marker::Model;

/// How many instructions are cached at most: 8 KB of them.
const ENTRIES: u16 = 256;

/// The features of a machine, and the instructions that they claim, those decoded last, each with its eight cells, in
/// the entry of its place. Places with the same remainder by the number of entries share one. Contracts see the
/// features.
///
/// An instruction is found by its characters and its word marks, and while the features stay these say all of it. So
/// nothing that is written to core storage makes an entry wrong.
#[derive(Drop)]
pub(crate) struct FittedCache {
    features: Features,
    entries: Vec<FittedEntry>,
}

impl Model for FittedCache {
    ghost use Rattle.std.specs.Prelude.{◌≡◌, length};
    ghost use Rattle.cpu_1401.specs.DecodedFitted.{AreSaying, fitted_entry_count};
    ghost use Rattle.machine_tables.specs.declared.features.Features.{Features};

    ghost Value = { Features };

    ghost view = { λ cache. cache.features };

    ghost invariant = { λ cache.
        (length cache.entries.items ≡ fitted_entry_count) × AreSaying cache.features cache.entries.items };
}

impl FittedCache {
    /// A cache that keeps nothing, of a machine without features.
    ///
    /// # Errors
    ///
    /// An allocation that was refused.
    pub(crate) fn none(alloc: Global) -> Result<FittedCache, AllocError>
        ensures { IfOk result (λ cache. cache ≡ no_features) }
    {
        let entries = vec![in alloc; FittedEntry::empty(); usize::from(ENTRIES)]?;
        Ok(FittedCache {
            features: Features::NONE,
            entries,
        })
    }

    /// Copies all that another cache keeps.
    pub(crate) fn copy_from(&mut self, other: &FittedCache)
        ensures { self.new ≡ other.now }
    {
        self.entries.copy_from_slice(&other.entries);
        self.features = other.features;
    }

    /// The features.
    #[inline(always)]
    pub(crate) fn features(&self) -> Features
        ensures { result ≡ self.now }
    {
        self.features
    }

    /// Takes these features in place of the others, and forgets each instruction.
    pub(crate) fn fit(&mut self, features: Features)
        ensures { self.new ≡ features }
    {
        self.entries.fill(FittedEntry::empty());
        self.features = features;
    }

    /// What the instruction at a place says, if one was decoded from such cells.
    #[inline(always)]
    pub(crate) fn find(&self, core: &Core, at: u16) -> Option<&DecodedFitted>
        requires { at < addresses }
        ensures says { IfSome result (λ said. SaysFitted core.now at self.now said.now) }
        ensures own { IfSome result (λ said. said.now.fitted ≢ Fitted.OnCell) }
        ensures inside { IfSome result (λ said. at + said.now.len < addresses) }
    {
        if !has_nine(core, at) {
            return None;
        }
        let entry = &self.entries[entry_of(at)];
        let cells = core.eight_cells(at);
        if cells.codes != entry.codes || cells.marks != entry.marks {
            return None;
        }
        Some(&entry.decoded)
    }

    /// Keeps the instruction at a place, but not at the last eight places.
    pub(crate) fn keep(&mut self, core: &Core, at: u16, decoded: &DecodedFitted)
        requires place { at < addresses }
        requires says { SaysFitted core.now at self.old decoded.now }
        requires own { decoded.now.fitted ≢ Fitted.OnCell }
        ensures { self.new ≡ self.old }
    {
        if !has_nine(core, at) {
            return;
        }
        let cells = core.eight_cells(at);
        self.entries[entry_of(at)] = FittedEntry {
            codes: cells.codes,
            marks: cells.marks,
            decoded: *decoded,
        };
    }
}

/// Whether the eight places from one up are in core, and one more, so that the next instruction begins at a place too.
#[inline(always)]
fn has_nine(core: &Core, at: u16) -> bool
    requires { at < addresses }
    ensures value { result ≡ nat_lt (at + 8) (length core.now) }
    ensures inside { result ≡ true → at + 8 ≤ length core.now }
    ensures beyond { result ≡ true → at + 8 < addresses }
{
    at + 8 < core.size()
}

/// The entry of a place.
#[inline(always)]
fn entry_of(at: u16) -> usize
    ensures { result ≡ at % fitted_entry_count }
{
    usize::from(at % ENTRIES)
}
