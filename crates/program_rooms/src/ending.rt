//! How rooms end.
ghost use Rattle.std.specs.Prelude.{◌≡◌, Ok, OnOk};

use crate::fault::{OpenFault, not_told};

/// Reports on standard output how many commands the journal of a room has that ended so.
///
/// # Errors
///
/// How it ended; else `Hold` with `Output` if standard output takes nothing.
pub(crate) fn tell_end(
    rt: &impl Print,
    commands: usize,
    outcome: Result<(), OpenFault>,
) -> Result<(), OpenFault>
    ensures { OnOk result (outcome ≡ Ok tt) }
{
    let told = println!(rt; "JOURNAL {commands}").map_err(not_told);
    match outcome {
        Ok(()) => told,
        Err(fault) => Err(fault),
    }
}
