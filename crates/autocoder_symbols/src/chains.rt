//! Chains of EQUs: what a label stands for whose EQU names one without a value so far.
ghost use Rattle.std.specs.Prelude.{◌≡◌, ◌<◌, ◌^◌, length, map, max, position, Some, IfOk, IfErr, OnOk};
ghost use Rattle.indexmap.specs.IndexMap.{get};
ghost use Rattle.autocoder_statements.specs.Statement.{is_end};
ghost use Rattle.autocoder_symbols.specs.Chains.{no_chains, has_value, link_in_base, link_in, is_declared_here};
ghost use Rattle.autocoder_symbols.specs.Chains.{with_link};
ghost use Rattle.autocoder_symbols.specs.Chains.{with_line, links_from, joined, chained, onward, go_on, twice, twice_over};
ghost use Rattle.autocoder_symbols.specs.Chains.{doublings, followed, chains_in, link_of, unfollowed, AreFollowed};
ghost use Rattle.autocoder_symbols.specs.Fault.{IsMemory};
ghost use Rattle.autocoder_symbols.specs.Symbols.{same_label, up_to_end};
ghost use Rattle.autocoder_symbols.specs.View.{chains_view};

use crate::fault::AsmFault;
use crate::hashing::SourceHashing;
use crate::kept_lines::Lines;
use crate::sums::checked_sum;
use crate::symbols::{Sites, is_label_before};
use autocoder_statements::{
    Address, Addressing, Base, Label, LabelField, Language, Line, Operand, OperandField, Statement,
};
use indexmap::IndexSet;
use std::alloc::Global;

/// What the label of an EQU stands for that names a symbol without a value so far: the value of a symbol, with
/// something added.
#[derive(Clone, Copy)]
pub struct Link {
    /// The symbol.
    pub to: Label,
    /// The index of the link whose label that is. If a chain has one after all its links it never ends.
    pub next: Option<u32>,
    /// What is added to the symbol's value.
    pub added: i64,
    /// The number of the index register that goes before the symbol's, 0 for none; nothing if the symbol's stays.
    pub index: Option<u8>,
    /// The last of the lines that say so.
    pub last: u32,
}

/// The EQUs that name a symbol without a value so far.
#[derive(Drop)]
pub struct Chains {
    /// Their labels, in the order of their lines.
    pub labels: IndexSet<Label, SourceHashing>,
    /// What each says of its label.
    pub links: Vec<Link>,
}

/// The greatest index of a link.
const MOST_LINKS: usize = 4_294_967_295;

/// How often each link is followed twice as far: a source has fewer than 2 ^ 32 lines.
const DOUBLINGS: usize = 32;

impl Link {
    /// The link with another after it.
    fn chained(self, that: Link) -> Result<Link, AsmFault>
        ensures link { IfOk result (λ link. link ≡ chained self that) }
        ensures err { IfErr result IsMemory }
    {
        let added = checked_sum(self.added, that.added)?;
        Ok(Link {
            to: that.to,
            next: that.next,
            added,
            index: self.index.or(that.index),
            last: self.last.max(that.last),
        })
    }

    /// The link with the one that it goes on at, if it goes on.
    fn onward(self, links: &[Link]) -> Result<Link, AsmFault>
        ensures link { IfOk result (λ link. link ≡ onward links.now self) }
        ensures err { IfErr result IsMemory }
    {
        let Some(next) = self.next else {
            return Ok(self);
        };
        match links.get(next as usize) {
            Some(that) => self.chained(*that),
            None => Ok(self),
        }
    }
}

/// Each link with the one that it goes on at.
fn twice(alloc: Global, links: &[Link]) -> Result<Vec<Link>, AsmFault>
    ensures links { IfOk result (λ further. further.items ≡ twice links.now) }
    ensures err { IfErr result IsMemory }
{
    let mut further = Vec::with_capacity(alloc, links.len())?;
    for link in links {
        let onward = link.onward(links)?;
        further.push(onward)?;
    }
    Ok(further)
}

/// Whether one of the links goes on at another.
fn go_on(links: &[Link]) -> bool
    ensures { result ≡ go_on links.now }
{
    for link in links {
        if link.next.is_some() {
            return true;
        }
    }
    false
}

/// Each link as far as its chain goes. Where none goes on, they aren't copied.
fn far(alloc: Global, links: Vec<Link>) -> Result<Vec<Link>, AsmFault>
    ensures links { IfOk result (λ far. far.items ≡ twice_over doublings links.items) }
    ensures err { IfErr result IsMemory }
{
    let mut far = links;
    for round in 0..DOUBLINGS {
        if !go_on(&far) {
            return Ok(far);
        }
        far = twice(alloc, &far)?;
    }
    Ok(far)
}

/// Whether a symbol has a value where a line of this number stands.
fn has_value(
    sites: &Sites,
    labels: &IndexSet<Label, SourceHashing>,
    number: u32,
    symbol: Label,
) -> bool
    ensures { result ≡ has_value (get same_label sites.now) labels.now.keys number symbol }
{
    is_label_before(u64::from(number), sites.get(&symbol).copied()) && !labels.contains(&symbol)
}

/// What an EQU on the line of this number says of its label, if it is a link.
fn link_to_address(
    sites: &Sites,
    labels: &IndexSet<Label, SourceHashing>,
    number: u32,
    address: Address,
) -> Option<Link>
    ensures { result ≡ link_in_base (get same_label sites.now) labels.now.keys number address address.base }
{
    match address.base {
        Base::Symbol(symbol) => {
            if has_value(sites, labels, number, symbol) {
                None
            } else {
                Some(Link {
                    to: symbol,
                    next: None,
                    added: i64::from(address.adjustment),
                    index: address.index,
                    last: number,
                })
            }
        },
        Base::Number(_) | Base::Here | Base::Register(_) | Base::NextHundred => None,
    }
}

/// The link that an EQU on the line of this number is.
fn link_in(
    sites: &Sites,
    labels: &IndexSet<Label, SourceHashing>,
    number: u32,
    addressing: &Addressing,
) -> Option<Link>
    ensures { result ≡ link_in (get same_label sites.now) labels.now.keys number addressing.now }
{
    let Addressing::Equal(operands) = *addressing else {
        return None;
    };
    match operands.a {
        OperandField::Operand(Operand::Address(address)) => {
            link_to_address(sites, labels, number, address)
        },
        OperandField::Operand(Operand::Literal(_) | Operand::Unit(_))
        | OperandField::Absent
        | OperandField::Malformed => None,
    }
}

/// Whether a symbol is declared on the line of this number.
fn is_declared_here(sites: &Sites, number: u32, label: Label) -> bool
    ensures { result ≡ is_declared_here number (get same_label sites.now label) }
{
    match sites.get(&label).copied() {
        Some(declaration) => declaration.line == number,
        None => false,
    }
}

/// The index of the link whose label this is, if there is one.
fn link_named(
    labels: &IndexSet<Label, SourceHashing>,
    label: Label,
) -> Result<Option<u32>, AsmFault>
    ensures ok { IfOk result (λ next. next ≡ position (same_label label) labels.now.keys) }
    ensures err { IfErr result IsMemory }
{
    match labels.get_index_of(&label) {
        Some(next) if next <= MOST_LINKS => Ok(Some(next as u32)),
        Some(_) => Err(AsmFault::MEMORY),
        None => Ok(None),
    }
}

/// Says of each link which link goes on.
fn join(labels: &IndexSet<Label, SourceHashing>, links: &mut [Link]) -> Result<(), AsmFault>
    ensures ok { OnOk result (links.new ≡ map (joined labels.now.keys) links.old) }
    ensures err { IfErr result IsMemory }
{
    for link in links.iter_mut() {
        link.next = link_named(labels, link.to)?;
    }
    Ok(())
}

impl Chains {
    /// None, with room for this many links. A source has few of them or very many, and links that grow leave pieces of
    /// memory that nothing else fits.
    pub(crate) fn with_capacity(
        alloc: Global,
        hashing: SourceHashing,
        capacity: usize,
    ) -> Result<Chains, AsmFault>
        ensures ok { IfOk result (λ chains. chains_view chains ≡ no_chains) }
        ensures err { IfErr result IsMemory }
    {
        Ok(Chains {
            labels: IndexSet::with_hasher(alloc, hashing),
            links: Vec::with_capacity(alloc, capacity)?,
        })
    }

    /// Makes room for as many labels as there is room for links, if there is none so far: labels that grow leave such
    /// pieces too.
    fn make_room(&mut self) -> Result<(), AsmFault>
        ensures same { OnOk result (chains_view self.new ≡ chains_view self.old) }
        ensures err { IfErr result IsMemory }
    {
        if self.links.is_empty() {
            self.labels.reserve(self.links.capacity())?;
        }
        Ok(())
    }

    /// Adds a link, unless its label is that of one.
    fn push(&mut self, label: Label, link: Link) -> Result<(), AsmFault>
        ensures ok { OnOk result (chains_view self.new ≡ with_link (chains_view self.old) label (Some link)) }
        ensures err { IfErr result IsMemory }
    {
        if self.labels.insert(label)? {
            self.links.push(link)?;
        }
        Ok(())
    }

    /// The same, if there is one.
    fn add(&mut self, label: Label, link: Option<Link>) -> Result<(), AsmFault>
        ensures ok { OnOk result (chains_view self.new ≡ with_link (chains_view self.old) label link) }
        ensures err { IfErr result IsMemory }
    {
        let Some(link) = link else {
            return Ok(());
        };
        self.make_room()?;
        self.push(label, link)
    }

    /// Adds the link that a line of this number is, and says whether it is END.
    fn add_line(&mut self, sites: &Sites, number: u32, line: &Line) -> Result<bool, AsmFault>
        ensures ok { OnOk result
            (chains_view self.new ≡ with_line (get same_label sites.now) number (chains_view self.old) line.now) }
        ensures end { IfOk result (λ end. end ≡ is_end line.now) }
        ensures err { IfErr result IsMemory }
    {
        let Some(Statement { label, body }) = &line.statement else {
            return Ok(false);
        };
        let row = body.describe();
        if let LabelField::Label(label) = *label {
            if is_declared_here(sites, number, label) {
                let link = link_in(sites, &self.labels, number, &row.addressing);
                self.add(label, link)?;
            }
        }
        Ok(row.is_end())
    }

    /// Adds the links that lines are, up to END.
    fn add_lines(&mut self, sites: &Sites, lines: &Lines<'_>) -> Result<(), AsmFault>
        requires { length lines.now < 2 ^ 32 }
        ensures ok { OnOk result (chains_view self.new
            ≡ links_from (get same_label sites.now) 1 (chains_view self.old) (up_to_end lines.now)) }
        ensures err { IfErr result IsMemory }
    {
        for i in 0..lines.len() {
            let line = lines.line(i);
            let is_end = self.add_line(sites, i as u32 + 1, &line)?;
            if is_end {
                return Ok(());
            }
        }
        Ok(())
    }

    /// Each link as far as its chain goes.
    fn followed(self, alloc: Global) -> Result<Chains, AsmFault>
        ensures ok { IfOk result (λ chains. chains_view chains ≡ followed (chains_view self)) }
        ensures err { IfErr result IsMemory }
    {
        let Chains { labels, mut links } = self;
        join(&labels, &mut links)?;
        let links = far(alloc, links)?;
        Ok(Chains { labels, links })
    }

    /// The link that gives a label its value. If there is none, no label is hashed.
    #[tactic(auto, using(crate::proofs::ChainLinksLemmas::none_linked))]
    pub fn link_of(&self, label: Label) -> Option<Link>
        ensures { result ≡ link_of (chains_view self.now) label }
    {
        if self.links.is_empty() {
            return None;
        }
        let i = self.labels.get_index_of(&label)?;
        self.links.get(i).copied()
    }
}

/// The chains of lines in a language, whose symbols are declared there.
///
/// # Errors
///
/// `Memory` if there is no room for them.
pub(crate) fn chains_in(
    alloc: Global,
    hashing: SourceHashing,
    language: Language,
    sites: &Sites,
    lines: &Lines<'_>,
) -> Result<Chains, AsmFault>
    requires { length lines.now < 2 ^ 32 }
    ensures ok { IfOk result
        (λ chains. chains_view chains ≡ chains_in language (get same_label sites.now) lines.now) }

    // Each link is followed to the end of its chain, one by one.
    ensures followed { IfOk result
        (λ chains. AreFollowed (unfollowed language (get same_label sites.now) lines.now) (chains_view chains)) }
    ensures err { IfErr result IsMemory }
{
    match language {
        Language::Plain => Chains::with_capacity(alloc, hashing, 0),
        Language::Ibm => {
            let mut chains = Chains::with_capacity(alloc, hashing, sites.len())?;
            chains.add_lines(sites, lines)?;
            let followed = chains.followed(alloc)?;
            Ok(followed)
        },
    }
}
