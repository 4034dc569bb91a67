//! Fields by the places that name them.
ghost use Rattle.std.specs.Prelude.{◌≡◌, ◌+◌, ◌<◌, ◌≤◌, length, None, Some, IfOk, IfErr, IfSome};
ghost use Rattle.fields_1401.specs.Number.{places_down};
ghost use Rattle.operate_program.specs.Field.{IsFaultOf, cells_of, field_of, register_at, register_named, units_of};

use crate::fault::PlaceFault;
use crate::program::Program;
use crate::values::{index_name, is_unadjusted, units_place};
use bcd_1401::Cell;
use core_1401::Core;
use cpu_1401::Machine;
use operate_orders::{Base, IndexRegister, Place};
use operate_views::{FieldFault, cells_down, field_cells};
use std::alloc::{AllocError, Global};

/// How many places an index register has (A24-1403, "Indexing").
const INDEX_PLACES: u16 = 3;

/// A field of core storage.
#[derive(Clone, Copy)]
pub enum Field {
    /// The one with its units at this address: it goes down to its word mark.
    Marked(u16),
    /// An index register: it has its three places, wherever there are word marks.
    Index(IndexRegister),
}

/// The cells of an index register, units first.
fn index_cells(alloc: Global, core: &Core, register: IndexRegister) -> Result<Vec<Cell>, AllocError>
    ensures cells { IfOk result (λ cells. cells_of core.now (Field.Index register) ≡ Some cells.items) }
    ensures count { IfOk result (λ cells. length cells.items ≡ 3) }
{
    // Core storage of any size has the places of all three.
    let _ = core.size();
    cells_down(alloc, core, units_place(register), INDEX_PLACES)
}

impl Field {
    /// Its units place.
    pub fn units(self) -> u16
        ensures { result ≡ units_of self }
    {
        match self {
            Field::Marked(at) => at,
            Field::Index(register) => units_place(register),
        }
    }

    /// How many places it has; none if there is no word mark, or if its units place isn't in core.
    #[tactic(auto, unfolding(fields_1401::specs::Number::places_down))]
    pub fn len(self, core: &Core) -> Option<u16>
        ensures cells { IfSome result (λ len. cells_of core.now self ≡ Some (places_down core.now (units_of self) len)) }
        ensures some { IfSome result (λ len. 0 < len) }
        ensures places { IfSome result (λ len. len ≤ units_of self + 1) }
        ensures units { IfSome result (λ len. units_of self < length core.now) }
        ensures none { result ≡ None → cells_of core.now self ≡ None }
    {
        match self {
            Field::Marked(at) => {
                if core.in_core(at) {
                    core.field_len(at)
                } else {
                    None
                }
            }
            Field::Index(_) => {
                // Core storage of any size has the places of all three.
                let _ = core.size();
                Some(INDEX_PLACES)
            }
        }
    }

    /// Its cells, the units first.
    ///
    /// # Errors
    ///
    /// If there is no such field, or if there is no room for the cells.
    pub fn cells(self, alloc: Global, core: &Core) -> Result<Vec<Cell>, FieldFault>
        ensures ok { IfOk result (λ cells. cells_of core.now self ≡ Some cells.items) }
        ensures some { IfOk result (λ cells. 0 < length cells.items) }
        ensures places { IfOk result (λ cells. length cells.items ≤ units_of self + 1) }
        ensures err { IfErr result (IsFaultOf core.now self) }
    {
        match self {
            Field::Marked(at) => field_cells(alloc, core, at),
            Field::Index(register) => match index_cells(alloc, core, register) {
                Ok(cells) => Ok(cells),
                Err(_) => Err(FieldFault::Memory),
            },
        }
    }
}

impl Program {
    /// The index register whose name an address begins with, unless it is that of a label.
    fn register_at(&self, base: &Base) -> Option<IndexRegister>
        ensures { result ≡ register_at self.now.symbols base.now }
    {
        match base {
            Base::Index(register) => match self.symbol(index_name(*register)) {
                None => Some(*register),
                Some(_) => None,
            },
            Base::Number(_) | Base::Label(_) | Base::Line(_) | Base::Held(_) => None,
        }
    }

    /// The index register that a place is by its name alone.
    #[tactic(auto, unfolding(crate::specs::Field::register_named))]
    fn register_named(&self, place: &Place) -> Option<IndexRegister>
        ensures { result ≡ register_named self.now.symbols place.now }
    {
        if is_unadjusted(place) {
            self.register_at(&place.base)
        } else {
            None
        }
    }

    /// The field that a place names now: the index register of that name, or else the field with its units at the
    /// address that the place means.
    ///
    /// # Errors
    ///
    /// As `address`.
    #[tactic(auto, unfolding(crate::specs::Field::field_of))]
    pub fn field(&self, machine: &Machine, place: &Place) -> Result<Field, PlaceFault>
        ensures value { result ≡ field_of self.now machine.now place.now }
        ensures inside { IfOk result (λ field. units_of field < length machine.now.storage) }
    {
        match self.register_named(place) {
            Some(register) => {
                // Core storage of any size has the places of all three.
                let _ = machine.core().size();
                Ok(Field::Index(register))
            }
            None => {
                let at = self.address(machine, place)?;
                Ok(Field::Marked(at))
            }
        }
    }
}
