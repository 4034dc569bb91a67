//! All faults of a source, each with what is wrong and the columns in which it is.
ghost use Rattle.std.specs.Prelude.{◌≡◌, ◌<◌, All, IfOk, IfErr, OnOk};
ghost use Rattle.autocoder_statements.specs.SourceLine.{lines_of};
ghost use Rattle.autocoder_symbols.specs.Reading.{lines_in};
ghost use Rattle.autocoder_symbols.specs.Fault.{IsMemory};
ghost use Rattle.autocoder_diagnostics.specs.ToldFaults.{first_in};
ghost use Rattle.autocoder_diagnostics.specs.Explanation.{explained_lines, faults_of};
ghost use Rattle.autocoder_diagnostics.specs.declared.explanation.Cause.TheVariants.{OutOfCore};
ghost use Rattle.autocoder_1401.specs.AllFaults.{all_faults, fault_in, IsTold};
ghost use Rattle.autocoder_1401.specs.Assembly.{assembly_in};
ghost use Rattle.autocoder_1401.specs.Explaining.{all_explained};
ghost use Rattle.autocoder_1401.specs.Languages.{AgreesWithPlain};

use crate::all_faults::fault_of;
use autocoder_diagnostics::{Cause, Explanation, WHOLE_LINE, source_explanations};
use autocoder_statements::Language;
use autocoder_symbols::AsmFault;
use std::alloc::Global;

/// Adds what isn't in core, if there is no other fault.
fn add_outside_explained(
    alloc: Global,
    language: Language,
    source: &[u8],
    size: u16,
    explanations: &mut Vec<Explanation>,
) -> Result<(), AsmFault>
    requires { explanations.old.items ≡ explained_lines language (lines_of source.now) }
    ensures ok { OnOk result (explanations.new.items ≡ all_explained language size (lines_of source.now)) }
    ensures err { IfErr result IsMemory }
{
    if explanations.is_empty() {
        let outside = fault_of(alloc, language, source, size)?;
        if let Some(fault) = outside {
            explanations.push(Explanation {
                fault,
                columns: WHOLE_LINE,
                cause: Cause::OutOfCore,
            })?;
        }
    }
    Ok(())
}

/// All faults of a source in this language for core storage of this size, as `faults` tells them, each with what is
/// wrong and the columns of its line in which it is. For an unknown operation and for a symbol that no line declares
/// there is the mnemonic or the label that may be meant: the first that differs by one letter, or else by two. A word
/// may differ by a letter for each two that it has. Labels are looked for in a source of at most 4,000 lines.
///
/// # Errors
///
/// `Memory` if memory is refused or the source is too long.
pub fn explained_faults(
    alloc: Global,
    language: Language,
    source: &[u8],
    size: u16,
) -> Result<Vec<Explanation>, AsmFault>
    ensures ok { IfOk result (λ v. v.items ≡ all_explained language size (lines_of source.now)) }

    // They are all faults of the source.
    ensures faults { IfOk result (λ v. faults_of v.items ≡ all_faults language size (lines_in language source.now)) }

    // The first of them is the fault that the assembler tells; there is none exactly if it assembles.
    ensures first { IfOk result (λ v. first_in (faults_of v.items) ≡ fault_in (assembly_in language size source.now)) }

    // What the plain language takes has no fault in another.
    ensures plain { AgreesWithPlain language size source.now }

    // Each is a fault of the line that it names.
    ensures each { IfOk result (λ v. All (IsTold language size (lines_in language source.now)) (faults_of v.items)) }
    ensures err { IfErr result IsMemory }
{
    let mut explanations = source_explanations(alloc, language, source)?;
    add_outside_explained(alloc, language, source, size, &mut explanations)?;
    Ok(explanations)
}
