//! The literals that are used so far.
ghost use Rattle.std.specs.Prelude.{◌≡◌, ◌∷◌, ◌+◌, ◌<◌, length, drop, map, IfOk, IfErr, OnOk};
ghost use Rattle.std.specs.List.{list_any};
ghost use Rattle.autocoder_symbols.specs.Fault.{IsMemory};
ghost use Rattle.autocoder_placing.specs.Literals.{key_of};
ghost use Rattle.autocoder_placing.specs.UsedLiterals.{front_used, is_one, none_used, units_of, with_units, with_use};

use crate::kept_literal::KeptLiteral;
use crate::literal_table::{LiteralTable, TableFront};
use autocoder_statements::Literal;
use autocoder_symbols::{AsmFault, SourceHashing};
use std::alloc::Global;
use std::marker::Model;

/// The literals that are used, in the order of their first use. When lines are placed again, each literal is used and
/// placed as it was before: then these are the first of the table that is there, and take no memory. Contracts see how
/// each was first written, and the units places of those that are placed.
#[derive(Drop)]
pub struct UsedLiterals<'a> {
    /// The first of another table, as long as literals are used and placed as there.
    front: Option<TableFront<'a>>,
    /// The table of their own, if they aren't the first of another.
    own: LiteralTable,
    /// Where the memory of a long literal comes from.
    alloc: Global,
}

impl<'a> Model for UsedLiterals<'a> {
    ghost use Rattle.autocoder_placing.specs.UsedLiterals.{Used, used_in};

    ghost Value = { Used };

    ghost view = { λ literals. used_in literals.front literals.own };
}

impl<'a> UsedLiterals<'a> {
    /// None.
    pub(crate) fn new(alloc: Global, hashing: SourceHashing) -> UsedLiterals<'a>
        ensures { result ≡ none_used }
    {
        UsedLiterals {
            front: None,
            own: LiteralTable::new(alloc, hashing),
            alloc,
        }
    }

    /// None, where these are expected to be used and placed again.
    pub(crate) fn again<'b>(&'b self, hashing: SourceHashing) -> UsedLiterals<'b>
        ensures { result ≡ none_used }
    {
        UsedLiterals {
            front: Some(TableFront {
                used: 0,
                placed: 0,
                ..self.as_front()
            }),
            own: LiteralTable::new(self.alloc, hashing),
            alloc: self.alloc,
        }
    }

    /// These as the first of a table.
    fn as_front(&self) -> TableFront<'_>
        ensures { front_used result ≡ self.now }
    {
        match self.front {
            Some(front) => front,
            None => TableFront {
                table: &self.own,
                used: self.own.literals.len(),
                placed: self.own.addresses.len(),
            },
        }
    }

    /// How many there are.
    pub(crate) fn len(&self) -> usize
        ensures { result ≡ length self.now.spellings }
    {
        let front = self.as_front();
        front.used.min(front.table.literals.len())
    }

    /// How many are placed.
    pub(crate) fn placed(&self) -> usize
        ensures { result ≡ length self.now.addresses }
    {
        let front = self.as_front();
        front.placed.min(front.table.addresses.len())
    }

    /// The literal with this index, as it was first written.
    pub(crate) fn literal(&self, i: usize) -> Literal
        requires { i < length self.now.spellings }
        ensures spelling { drop i self.now.spellings ≡ result ∷ drop (i + 1) self.now.spellings }
        ensures key { drop i (map key_of self.now.spellings)
            ≡ key_of result ∷ drop (i + 1) (map key_of self.now.spellings) }
    {
        self.as_front().literal(i)
    }

    /// Whether a literal is used.
    ///
    /// # Errors
    ///
    /// `Memory` if there is no room for a long one.
    pub(crate) fn contains(&self, literal: Literal) -> Result<bool, AsmFault>
        ensures ok { IfOk result (λ used. used ≡ list_any (is_one literal) self.now.spellings) }
        ensures err { IfErr result IsMemory }
    {
        let kept = KeptLiteral::new(self.alloc, literal)?;
        Ok(self.as_front().index_of(&kept).is_some())
    }

    /// The units place of a literal, if it is placed.
    ///
    /// # Errors
    ///
    /// `Memory` if there is no room for a long one.
    pub(crate) fn units_of(&self, literal: Literal) -> Result<Option<i64>, AsmFault>
        ensures ok { IfOk result (λ units. units ≡ units_of self.now literal) }
        ensures err { IfErr result IsMemory }
    {
        let kept = KeptLiteral::new(self.alloc, literal)?;
        Ok(self.as_front().units_of(&kept))
    }

    /// Notes that a literal is used.
    ///
    /// # Errors
    ///
    /// `Memory` if there is no room for it.
    pub(crate) fn note(&mut self, literal: Literal) -> Result<(), AsmFault>
        ensures ok { OnOk result (self.new ≡ with_use self.old literal) }
        ensures err { IfErr result IsMemory }
    {
        let kept = KeptLiteral::new(self.alloc, literal)?;
        if let Some(front) = self.front {
            if let Some(more) = front.with_use(&kept) {
                self.front = Some(more);
                return Ok(());
            }
            front.copy_to(&mut self.own)?;
            self.front = None;
        }
        self.own.note(kept)
    }

    /// Notes the units place of the next of them.
    ///
    /// # Errors
    ///
    /// `Memory` if there is no room for it.
    pub(crate) fn place(&mut self, units: i64) -> Result<(), AsmFault>
        ensures ok { OnOk result (self.new ≡ with_units self.old units) }
        ensures err { IfErr result IsMemory }
    {
        if let Some(front) = self.front {
            if let Some(more) = front.with_units(units) {
                self.front = Some(more);
                return Ok(());
            }
            front.copy_to(&mut self.own)?;
            self.front = None;
        }
        self.own.place(units)
    }
}
