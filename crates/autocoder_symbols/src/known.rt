//! What the lines of a source declare, and from which line on the value of a symbol is known.
ghost use Rattle.std.specs.Prelude.{◌≡◌, ◌<◌, ◌^◌, length, IfOk, IfErr};
ghost use Rattle.indexmap.specs.IndexMap.{get};
ghost use Rattle.autocoder_symbols.specs.Fault.{IsMemory};
ghost use Rattle.autocoder_symbols.specs.Known.{declared_at, known_alone, known_beyond, known_by_chain, known_as};
ghost use Rattle.autocoder_symbols.specs.Known.{known_of};
ghost use Rattle.autocoder_symbols.specs.Known.{is_known_before, is_known_at_end};
ghost use Rattle.autocoder_symbols.specs.Chains.{link_of};
ghost use Rattle.autocoder_symbols.specs.Symbols.{same_label};
ghost use Rattle.autocoder_symbols.specs.View.{symbols_view};

use crate::chains::{Chains, Link, chains_in};
use crate::fault::AsmFault;
use crate::hashing::SourceHashing;
use crate::kept_lines::Lines;
use crate::symbols::{Declaration, Sites, sites_of};
use autocoder_statements::{Label, Language};
use std::alloc::Global;

/// From where on the value of a symbol is known.
#[derive(Clone, Copy)]
pub enum Known {
    /// From this line on.
    From(u64),
    /// Once literals are placed.
    WhenPlaced,
    /// Never: its chain of EQUs has no end.
    Never,
}

/// What the lines of a source declare.
#[derive(Drop)]
pub struct Symbols {
    /// The language of the source.
    pub language: Language,
    /// Where each symbol is declared.
    pub sites: Sites,
    /// The chains of EQUs.
    pub chains: Chains,
}

impl Declaration {
    /// From where on the value is known, if no EQU gives it.
    fn known(self) -> Known
        ensures { result ≡ known_alone self }
    {
        match self.area {
            Some(_) => Known::WhenPlaced,
            None => Known::From(u64::from(self.line)),
        }
    }
}

impl Known {
    /// The same, but not before this line.
    fn beyond(self, last: u64) -> Known
        ensures { result ≡ known_beyond last self }
    {
        match self {
            Known::From(line) => Known::From(last.max(line)),
            Known::WhenPlaced | Known::Never => self,
        }
    }
}

/// From where on the value of a label is known by its chain.
fn known_by_chain(sites: &Sites, link: Link) -> Known
    ensures { result ≡ known_by_chain (get same_label sites.now) link }
{
    if link.next.is_some() {
        return Known::Never;
    }
    match sites.get(&link.to).copied() {
        Some(root) => root.known().beyond(u64::from(link.last)),
        None => Known::From(u64::from(link.last)),
    }
}

/// Whether a value is known above the line of this number.
pub fn is_known_before(number: u64, known: Option<Known>) -> bool
    ensures { result ≡ is_known_before number known }
{
    match known {
        Some(Known::From(line)) => line < number,
        Some(Known::WhenPlaced | Known::Never) | None => false,
    }
}

/// Whether a value is known once all is placed.
pub fn is_known_at_end(known: Option<Known>) -> bool
    ensures { result ≡ is_known_at_end known }
{
    match known {
        Some(Known::From(_) | Known::WhenPlaced) => true,
        Some(Known::Never) | None => false,
    }
}

impl Symbols {
    /// From where on the value of a symbol is known that is declared here.
    pub fn known_as(&self, label: Label, declaration: Declaration) -> Known
        ensures { result
            ≡ known_as (symbols_view self.now) (link_of (symbols_view self.now).chains label) declaration }
    {
        match self.chains.link_of(label) {
            Some(link) => known_by_chain(&self.sites, link),
            None => declaration.known(),
        }
    }

    /// From where on the value of a symbol is known, if it is declared.
    pub fn known(&self, label: Label) -> Option<Known>
        ensures { result ≡ known_of (symbols_view self.now) label }
    {
        match self.sites.get(&label).copied() {
            Some(declaration) => Some(self.known_as(label, declaration)),
            None => None,
        }
    }
}

/// What lines in this language declare.
///
/// # Errors
///
/// `Memory` if there is no room for it.
pub fn declared(
    alloc: Global,
    hashing: SourceHashing,
    language: Language,
    lines: &Lines<'_>,
) -> Result<Symbols, AsmFault>
    requires { length lines.now < 2 ^ 32 }
    ensures ok { IfOk result (λ symbols. symbols_view symbols ≡ declared_at language lines.now) }
    ensures err { IfErr result IsMemory }
{
    let sites = sites_of(alloc, hashing, lines)?;
    let chains = chains_in(alloc, hashing, language, &sites, lines)?;
    Ok(Symbols {
        language,
        sites,
        chains,
    })
}
