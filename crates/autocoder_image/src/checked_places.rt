//! Whether all of lines is in core, once all is placed: nothing is made of them.
ghost use Rattle.std.specs.Prelude.{◌≡◌, ◌<◌, ◌^◌, ◌⊎◌, length, None, Some, IfErr, OnOk};
ghost use Rattle.autocoder_symbols.specs.Fault.{IsMemory};
ghost use Rattle.autocoder_placing.specs.Laws.{IsFirstOutside};
ghost use Rattle.autocoder_placing.specs.Placement.{placed};
ghost use Rattle.autocoder_placing.specs.Values.{first_outside, first_outside_from};
ghost use Rattle.autocoder_placing.specs.View.{places_of};

use autocoder_placing::Placing;
use autocoder_symbols::{AsmFault, AsmKind, Lines};
use std::alloc::Global;

/// Looks whether all of lines here is in core, and places them.
fn check_lines<'a>(
    all: &Placing<'a>,
    so_far: &mut Placing<'a>,
    size: u16,
    lines: &Lines<'_>,
) -> Result<(), AsmFault>
    requires few { length lines.now < 2 ^ 32 }
    ensures inside { OnOk result
        (first_outside_from size (places_of all.now) 1 (places_of so_far.old) lines.now ≡ None) }
    ensures err { IfErr result (λ fault. IsMemory fault
        ⊎ (first_outside_from size (places_of all.now) 1 (places_of so_far.old) lines.now ≡ Some fault)) }
{
    for i in 0..lines.len() {
        let line = lines.line(i);
        let Some(statement) = &line.statement else {
            continue;
        };
        let row = statement.body.describe();
        if so_far.is_row_outside(size, all, &row)? {
            return Err(AsmFault {
                line: i as u64 + 1,
                kind: AsmKind::OutOfCore,
            });
        }
        so_far.place_row(statement, &row)?;
    }
    Ok(())
}

/// Looks whether all of lines is in core storage of this size, once all is placed.
///
/// # Errors
///
/// `OutOfCore` for the first line with something that isn't in core; `Memory` if there is no room.
pub fn check_places(
    alloc: Global,
    all: &Placing<'_>,
    lines: &Lines<'_>,
    size: u16,
) -> Result<(), AsmFault>
    requires few { length lines.now < 2 ^ 32 }
    requires placed { places_of all.now ≡ placed lines.now }
    ensures inside { OnOk result (first_outside size lines.now ≡ None) }
    ensures outside { IfErr result (λ fault. IsMemory fault
        ⊎ ((first_outside size lines.now ≡ Some fault) × IsFirstOutside size lines.now fault)) }
{
    let mut so_far = all.again(alloc);
    check_lines(all, &mut so_far, size, lines)?;
    Ok(())
}
