//! Sums of places and values.
ghost use Rattle.std.specs.Prelude.{◌≡◌, ◌+ℤ◌, IfOk, IfErr};
ghost use Rattle.autocoder_symbols.specs.Fault.{IsMemory};

use crate::fault::AsmFault;

/// Adds; an overflow, far beyond any core, is reported as `Memory`.
pub fn checked_sum(one: i64, other: i64) -> Result<i64, AsmFault>
    ensures sum { IfOk result (λ sum. sum ≡ one +ℤ other) }
    ensures err { IfErr result IsMemory }
{
    match one.checked_add(other) {
        Some(sum) => Ok(sum),
        None => Err(AsmFault::MEMORY),
    }
}
