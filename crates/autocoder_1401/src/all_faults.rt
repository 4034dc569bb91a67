//! All faults of a source, but for those that only follow from one told before.
ghost use Rattle.std.specs.Prelude.{◌≡◌, ◌<◌, All, IfOk, IfErr, OnOk};
ghost use Rattle.autocoder_symbols.specs.Reading.{lines_in};
ghost use Rattle.autocoder_symbols.specs.Fault.{IsMemory};
ghost use Rattle.autocoder_diagnostics.specs.ToldFaults.{line_faults, first_in};
ghost use Rattle.autocoder_1401.specs.AllFaults.{all_faults, fault_in, IsTold};
ghost use Rattle.autocoder_1401.specs.Assembly.{assembly_in};
ghost use Rattle.autocoder_1401.specs.Languages.{AgreesWithPlain};

use crate::assembly::assemble_image;
use autocoder_diagnostics::source_faults;
use autocoder_statements::Language;
use autocoder_symbols::{AsmFault, AsmKind};
use std::alloc::Global;

/// The fault that the assembler tells.
pub(crate) fn fault_of(
    alloc: Global,
    language: Language,
    source: &[u8],
    size: u16,
) -> Result<Option<AsmFault>, AsmFault>
    ensures ok { IfOk result (λ fault. fault ≡ fault_in (assembly_in language size source.now)) }
    ensures err { IfErr result IsMemory }
{
    match assemble_image(alloc, language, source, size) {
        Ok(_) => Ok(None),
        Err(fault) if matches!(fault.kind, AsmKind::Memory) => Err(AsmFault::MEMORY),
        Err(fault) => Ok(Some(fault)),
    }
}

/// Adds what isn't in core to a source's faults, if there are no others.
fn add_outside(
    alloc: Global,
    language: Language,
    source: &[u8],
    size: u16,
    faults: &mut Vec<AsmFault>,
) -> Result<(), AsmFault>
    requires { faults.old.items ≡ line_faults language (lines_in language source.now) }
    ensures ok { OnOk result (faults.new.items ≡ all_faults language size (lines_in language source.now)) }
    ensures err { IfErr result IsMemory }
{
    if faults.is_empty() {
        let outside = fault_of(alloc, language, source, size)?;
        if let Some(fault) = outside {
            faults.push(fault)?;
        }
    }
    Ok(())
}

/// All faults of a source in this language for core storage of this size, in the order of its lines. A fault that only
/// follows from one told before isn't told: fields under a DA that can't be read, a symbol that only lines after END
/// declare, the second line after END and those below it, and that there is no END if the last statement's operation
/// isn't known. What isn't in core is looked for in a source without other faults, and its first line told.
///
/// # Errors
///
/// `Memory` if memory is refused or the source is too long.
pub fn faults(
    alloc: Global,
    language: Language,
    source: &[u8],
    size: u16,
) -> Result<Vec<AsmFault>, AsmFault>
    ensures ok { IfOk result (λ faults. faults.items ≡ all_faults language size (lines_in language source.now)) }

    // The first of them is the fault that the assembler tells; there is none exactly if it assembles.
    ensures first { IfOk result (λ faults. first_in faults.items ≡ fault_in (assembly_in language size source.now)) }

    // What the plain language takes has no fault in another.
    ensures plain { AgreesWithPlain language size source.now }

    // Each is a fault of the line that it names.
    ensures each { IfOk result (λ faults. All (IsTold language size (lines_in language source.now)) faults.items) }
    ensures err { IfErr result IsMemory }
{
    let mut faults = source_faults(alloc, language, source)?;
    add_outside(alloc, language, source, size, &mut faults)?;
    Ok(faults)
}
