//! A table of literals, and the first of one.
ghost use Rattle.std.specs.Prelude.{◌≡◌, ◌∷◌, ◌+◌, ◌<◌, length, drop, position, IfSome, IfErr, OnOk};
ghost use Rattle.autocoder_symbols.specs.Fault.{IsMemory};
ghost use Rattle.autocoder_placing.specs.UsedLiterals.{front_used, is_one, none_used, table_used};
ghost use Rattle.autocoder_placing.specs.UsedLiterals.{units_of, with_units, with_use};

use crate::alike::are_alike;
use crate::kept_literal::KeptLiteral;
use autocoder_statements::Literal;
use autocoder_symbols::{AsmFault, SourceHashing};
use indexmap::IndexSet;
use std::alloc::Global;

/// Literals in the order of their first use.
#[derive(Drop)]
pub(crate) struct LiteralTable {
    /// As each was first written.
    pub literals: IndexSet<KeptLiteral, SourceHashing>,
    /// The units places of the first of them, which are placed.
    pub addresses: Vec<i64>,
}

/// The first literals of a table.
#[derive(Clone, Copy)]
pub(crate) struct TableFront<'a> {
    /// The table.
    pub table: &'a LiteralTable,
    /// How many they are.
    pub used: usize,
    /// How many of them are placed.
    pub placed: usize,
}

impl LiteralTable {
    /// No literal.
    pub(crate) fn new(alloc: Global, hashing: SourceHashing) -> LiteralTable
        ensures { table_used result ≡ none_used }
    {
        LiteralTable {
            literals: IndexSet::with_hasher(alloc, hashing),
            addresses: Vec::new(alloc),
        }
    }

    /// Notes that a literal is used.
    pub(crate) fn note(&mut self, literal: KeptLiteral) -> Result<(), AsmFault>
        ensures ok { OnOk result (table_used self.new ≡ with_use (table_used self.old) literal) }
        ensures err { IfErr result IsMemory }
    {
        self.literals.insert(literal)?;
        Ok(())
    }

    /// Notes the units place of the next literal.
    pub(crate) fn place(&mut self, units: i64) -> Result<(), AsmFault>
        ensures ok { OnOk result (table_used self.new ≡ with_units (table_used self.old) units) }
        ensures err { IfErr result IsMemory }
    {
        self.addresses.push(units)?;
        Ok(())
    }
}

impl<'a> TableFront<'a> {
    /// The index of a literal, if it is one of them.
    pub(crate) fn index_of(self, literal: &KeptLiteral) -> Option<usize>
        ensures { result ≡ position (is_one literal.now) (front_used self.entry).spellings }
    {
        match self.table.literals.get_index_of(literal) {
            Some(i) if i < self.used => Some(i),
            Some(_) | None => None,
        }
    }

    /// The units place of a literal, if it is placed.
    pub(crate) fn units_of(self, literal: &KeptLiteral) -> Option<i64>
        ensures { result ≡ units_of (front_used self.entry) literal.now }
    {
        let i = self.index_of(literal)?;
        if i < self.placed {
            self.table.addresses.get(i).copied()
        } else {
            None
        }
    }

    /// The literal with this index.
    pub(crate) fn literal(self, i: usize) -> Literal
        requires { i < length (front_used self).spellings }
        ensures { drop i (front_used self.entry).spellings ≡ result ∷ drop (i + 1) (front_used self.entry).spellings }
    {
        match self.table.literals.get_index(i) {
            Some(literal) => literal.literal(),
            None => unreachable!(),
        }
    }

    /// The same with the use of a literal, if it is one of them, or the next of the table.
    pub(crate) fn with_use(self, literal: &KeptLiteral) -> Option<TableFront<'a>>
        ensures { IfSome result (λ front. front_used front ≡ with_use (front_used self.entry) literal.now) }
    {
        let (i, found) = self.table.literals.get_full(literal)?;
        if i < self.used {
            return Some(self);
        }
        if i == self.used && are_alike(found.literal(), literal.literal()) {
            Some(TableFront {
                used: i.checked_add(1)?,
                ..self
            })
        } else {
            None
        }
    }

    /// The same with the next literal placed, if it is placed here in the table.
    pub(crate) fn with_units(self, units: i64) -> Option<TableFront<'a>>
        ensures { IfSome result (λ front. front_used front ≡ with_units (front_used self.entry) units) }
    {
        match self.table.addresses.get(self.placed) {
            Some(found) if *found == units => Some(TableFront {
                placed: self.placed + 1,
                ..self
            }),
            Some(_) | None => None,
        }
    }

    /// Has another table hold these alone.
    pub(crate) fn copy_to(self, table: &mut LiteralTable) -> Result<(), AsmFault>
        ensures ok { OnOk result (table_used table.new ≡ front_used self.entry) }
        ensures err { IfErr result IsMemory }
    {
        table.literals = self.table.literals.clone()?;
        table.literals.truncate(self.used);
        table.addresses = self.table.addresses.clone()?;
        table.addresses.truncate(self.placed);
        Ok(())
    }
}
