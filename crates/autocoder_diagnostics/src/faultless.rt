//! The lines of a source without a fault.
ghost use Rattle.std.specs.Prelude.{◌≡◌, ◌<◌, ◌^◌, ◌⊎◌, length, None, Some, IfOk, IfErr, OnOk, IfNone};
ghost use Rattle.std.specs.Prelude.{IfSome};
ghost use Rattle.autocoder_statements.specs.SourceLine.{lines_of};
ghost use Rattle.autocoder_symbols.specs.Chains.{chains_of};
ghost use Rattle.autocoder_symbols.specs.Fault.{IsMemory};
ghost use Rattle.autocoder_symbols.specs.Known.{declared_at};
ghost use Rattle.autocoder_symbols.specs.Reading.{lines_in};
ghost use Rattle.autocoder_symbols.specs.Symbols.{sites_of};
ghost use Rattle.autocoder_symbols.specs.View.{chains_view, symbols_view};
ghost use Rattle.autocoder_diagnostics.specs.FirstFault.{first_fault, IsFaultless, IsFirstFault};

use crate::first_fault::first_fault;
use autocoder_statements::Language;
use autocoder_symbols::{
    AsmFault, Chains, KeptLines, Lines, SourceHashing, Symbols, declared, read_lines,
};
use std::alloc::Global;

/// The lines of a source without a fault.
#[derive(Drop)]
pub struct FaultlessLines<'s> {
    /// The lines.
    pub lines: KeptLines<'s>,
    /// How their labels and literals are hashed.
    pub hashing: SourceHashing,
    /// Their chains of EQUs.
    pub chains: Chains,
}

/// The first line with a fault, and its lowest kind.
fn scan(symbols: &Symbols, language: Language, lines: &Lines<'_>) -> Option<AsmFault>
    requires few { length lines.now < 2 ^ 32 }
    requires declared { symbols_view symbols.now ≡ declared_at language lines.now }
    ensures fault { result ≡ first_fault language lines.now }
    ensures faultless { IfNone result (IsFaultless (declared_at language lines.now) lines.now) }
    ensures first { IfSome result (λ f. IsFirstFault (declared_at language lines.now) lines.now f) }
{
    first_fault(symbols, lines)
}

/// The chains of EQUs of lines without a fault, or the first line with one.
fn faultless_chains(
    alloc: Global,
    hashing: SourceHashing,
    language: Language,
    lines: &Lines<'_>,
) -> Result<Chains, AsmFault>
    requires { length lines.now < 2 ^ 32 }
    ensures ok { IfOk result (λ chains. chains_view chains ≡ chains_of (sites_of lines.now) lines.now) }
    ensures none { OnOk result (first_fault language lines.now ≡ None) }
    ensures faultless { OnOk result (IsFaultless (declared_at language lines.now) lines.now) }
    ensures first { IfErr result (λ fault. IsMemory fault
        ⊎ ((first_fault language lines.now ≡ Some fault)
        × IsFirstFault (declared_at language lines.now) lines.now fault)) }
{
    let symbols = declared(alloc, hashing, language, lines)?;
    if let Some(fault) = scan(&symbols, language, lines) {
        return Err(fault);
    }
    Ok(symbols.chains)
}

impl<'s> FaultlessLines<'s> {
    /// The lines of a source in this language.
    ///
    /// # Errors
    ///
    /// The first line with a fault, and its lowest kind; `Memory` if memory is refused or the source is too long.
    pub fn read(
        alloc: Global,
        language: Language,
        source: &'s [u8],
    ) -> Result<FaultlessLines<'s>, AsmFault>
        ensures lines { IfOk result (λ this. this.lines ≡ lines_in language source.now) }
        ensures as_many { IfOk result (λ this. length this.lines ≡ length (lines_of source.now)) }
        ensures few { IfOk result (λ this. length this.lines < 2 ^ 32) }
        ensures chains { IfOk result (λ this.
            chains_view this.chains ≡ chains_of (sites_of this.lines) this.lines) }
        ensures none { IfOk result (λ this. first_fault language this.lines ≡ None) }
        ensures faultless { OnOk result
            (IsFaultless (declared_at language (lines_in language source.now)) (lines_in language source.now)) }
        ensures first { IfErr result (λ fault. IsMemory fault
            ⊎ ((first_fault language (lines_in language source.now) ≡ Some fault)
            × IsFirstFault (declared_at language (lines_in language source.now)) (lines_in language source.now) fault)) }
    {
        let lines = read_lines(alloc, language, source)?;
        let hashing = SourceHashing::from_source(source);
        let chains = faultless_chains(alloc, hashing, language, &lines.lend())?;
        Ok(FaultlessLines {
            lines,
            hashing,
            chains,
        })
    }
}
