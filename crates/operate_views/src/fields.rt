//! The cells of a field.
ghost use Rattle.std.specs.Prelude.{◌≡◌, ◌+◌, ◌<◌, ◌≤◌, length, take, Some, IfOk, IfErr};
ghost use Rattle.core_1401.specs.Field.{cells_down, field_at};
ghost use Rattle.operate_views.specs.FieldFault.{IsFieldFault};

use crate::fault::FieldFault;
use bcd_1401::Cell;
use core_1401::Core;
use std::alloc::{AllocError, Global};

/// The cells of so many places, from one down.
///
/// # Errors
///
/// If there is no room for them.
#[tactic(auto, using(crate::proofs::FieldLemmas::cells_from))]
pub fn cells_down(alloc: Global, core: &Core, at: u16, len: u16) -> Result<Vec<Cell>, AllocError>
    requires at { at < length core.now }
    requires len { len ≤ at + 1 }
    ensures cells { IfOk result (λ cells. cells.items ≡ take len (cells_down core.now at)) }
    ensures count { length (take len (cells_down core.now at)) ≡ len }
{
    let mut cells = Vec::new(alloc);
    for i in 0..len {
        cells.push(core.get(at - i))?;
    }
    Ok(cells)
}

/// The cells of the field with its units at an address, the units first, down to the first word mark.
///
/// # Errors
///
/// If no field ends there, or if there is no room for the cells.
pub fn field_cells(alloc: Global, core: &Core, at: u16) -> Result<Vec<Cell>, FieldFault>
    ensures ok { IfOk result (λ cells. field_at core.now at ≡ Some cells.items) }
    ensures some { IfOk result (λ cells. 0 < length cells.items) }
    ensures places { IfOk result (λ cells. length cells.items ≤ at + 1) }
    ensures err { IfErr result (IsFieldFault core.now at) }
{
    if !core.in_core(at) {
        return Err(FieldFault::NotInCore {
            at,
            size: core.size(),
        });
    }
    match core.field_len(at) {
        Some(len) => Ok(cells_down(alloc, core, at, len)?),
        None => Err(FieldFault::NoMark { at }),
    }
}
