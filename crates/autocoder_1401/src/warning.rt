//! What a source without a fault says and hardly means.
ghost use Rattle.std.specs.Prelude.{◌≡◌, All, Contains, IfOk, IfErr};
ghost use Rattle.machine_tables.specs.Features.{no_features};
ghost use Rattle.autocoder_symbols.specs.Reading.{lines_in};
ghost use Rattle.autocoder_symbols.specs.Fault.{IsMemory};
ghost use Rattle.autocoder_warnings.specs.Warnings.{all_warnings, PlainIsCarriedOut};
ghost use Rattle.autocoder_1401.specs.Languages.{AgreesWithPlain};

use autocoder_statements::Language;
use autocoder_symbols::AsmFault;
use autocoder_warnings::source_warnings;
pub use autocoder_warnings::{Warning, WarningKind, lost_warnings};
use machine_tables::Features;
use std::alloc::Global;

/// The warnings of a source in this language, for core storage of this size on a machine with these features: in the
/// order of its lines, and those of a line in the order of the kinds. They speak of a source that assembles: in one with a
/// fault they may only follow from it, as that of a label which a misspelled operand should name.
///
/// # Errors
///
/// `Memory` if memory is refused or the source is too long.
pub fn warnings(
    alloc: Global,
    language: Language,
    source: &[u8],
    size: u16,
    features: Features,
) -> Result<Vec<Warning>, AsmFault>
    ensures ok { IfOk result (λ warnings. warnings.items
        ≡ all_warnings features size source.now (lines_in language source.now)) }

    // What the plain language takes says the same in each language, and so is warned of the same.
    ensures plain { AgreesWithPlain language size source.now }

    // Each machine carries out each instruction of what the plain language takes: no warning says otherwise.
    ensures carried_out { IfOk result (λ warnings. PlainIsCarriedOut source.now warnings.items) }

    // Features add none: each is one of those for a machine without features.
    ensures fewer { IfOk result (λ warnings. All
        (Contains (all_warnings no_features size source.now (lines_in language source.now))) warnings.items) }
    ensures err { IfErr result IsMemory }
{
    source_warnings(alloc, language, source, size, features)
}
