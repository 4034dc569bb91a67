//! The values that labels have so far.
ghost use Rattle.std.specs.Prelude.{◌≡◌, [], IsTrue, IfSome, IfErr, OnOk};
ghost use Rattle.std.specs.Map.{lookup};
ghost use Rattle.indexmap.specs.IndexMap.{insert_entry};
ghost use Rattle.autocoder_symbols.specs.Fault.{IsMemory};
ghost use Rattle.autocoder_symbols.specs.Symbols.{same_label};
ghost use Rattle.autocoder_placing.specs.LabelValues.{front_values};

use crate::symbol_values::SymbolValue;
use autocoder_statements::Label;
use autocoder_symbols::{AsmFault, SourceHashing};
use indexmap::IndexMap;
use std::alloc::Global;
use std::marker::Model;

/// Labels with their values, in the order in which they got them.
type Table = IndexMap<Label, SymbolValue, SourceHashing>;

/// The first of a table.
#[derive(Clone, Copy)]
pub(crate) struct Front<'a> {
    /// The table.
    pub table: &'a Table,
    /// How many they are.
    pub count: usize,
}

/// The values of labels. When lines are placed again, each label gets the value that it got before: then these are the
/// first of the table that is there, and take no memory. Contracts see the list of labels with their values.
#[derive(Drop)]
pub struct LabelValues<'a> {
    /// The first of another table, as long as labels get the values that they have there.
    front: Option<Front<'a>>,
    /// The table of their own, if they aren't the first of another.
    own: Table,
}

impl<'a> Model for LabelValues<'a> {
    ghost use Rattle.std.specs.Prelude.{List};
    ghost use Rattle.autocoder_statements.specs.declared.label.Label.{Label};
    ghost use Rattle.autocoder_placing.specs.declared.symbol_values.SymbolValue.{SymbolValue};

    ghost Value = { List (Label × SymbolValue) };

    ghost use Rattle.autocoder_placing.specs.LabelValues.{values_in};

    ghost view = { λ values. values_in values.front values.own };
}

/// Whether a label with its value is this one with this value.
fn is_entry(key: Label, found: SymbolValue, label: Label, value: SymbolValue) -> bool
    ensures { IsTrue result → (key ≡ label) × (found ≡ value) }
{
    key == label && found == value
}

impl<'a> Front<'a> {
    /// The value of a label.
    fn get(self, label: Label) -> Option<SymbolValue>
        ensures { result ≡ lookup (same_label label) (front_values self.entry) }
    {
        match self.table.get_full(&label) {
            Some((i, _, value)) if i < self.count => Some(*value),
            Some(_) | None => None,
        }
    }

    /// The same with a label more, if it is the next of the table and has this value there.
    fn with(self, label: Label, value: SymbolValue) -> Option<Front<'a>>
        ensures { IfSome result
            (λ front. front_values front ≡ insert_entry same_label (front_values self.entry) label value) }
    {
        let (i, key, next) = self.table.get_full(&label)?;
        if i == self.count && is_entry(*key, *next, label, value) {
            Some(Front {
                table: self.table,
                count: self.count.checked_add(1)?,
            })
        } else {
            None
        }
    }

    /// Has another table hold these alone.
    fn copy_to(self, table: &mut Table) -> Result<(), AsmFault>
        ensures ok { OnOk result (table.new.entries ≡ front_values self.entry) }
        ensures err { IfErr result IsMemory }
    {
        *table = self.table.clone()?;
        table.truncate(self.count);
        Ok(())
    }
}

impl<'a> LabelValues<'a> {
    /// None.
    pub(crate) fn new(alloc: Global, hashing: SourceHashing) -> LabelValues<'a>
        ensures { result ≡ [] }
    {
        LabelValues {
            front: None,
            own: IndexMap::with_hasher(alloc, hashing),
        }
    }

    /// None, where labels are expected to get these values again.
    pub(crate) fn again<'b>(&'b self, alloc: Global, hashing: SourceHashing) -> LabelValues<'b>
        ensures { result ≡ [] }
    {
        let table = match self.front {
            Some(front) => front.table,
            None => &self.own,
        };
        LabelValues {
            front: Some(Front { table, count: 0 }),
            own: IndexMap::with_hasher(alloc, hashing),
        }
    }

    /// The value of a label, if it has one.
    pub(crate) fn get(&self, label: Label) -> Option<SymbolValue>
        ensures { result ≡ lookup (same_label label) self.now }
    {
        match self.front {
            Some(front) => front.get(label),
            None => self.own.get(&label).copied(),
        }
    }

    /// Makes room for the values of so many labels more.
    ///
    /// # Errors
    ///
    /// `Memory` if there is none.
    pub(crate) fn make_room(&mut self, labels: usize) -> Result<(), AsmFault>
        ensures same { OnOk result (self.new ≡ self.old) }
        ensures err { IfErr result IsMemory }
    {
        self.own.reserve(labels)?;
        Ok(())
    }

    /// Gives a label its value.
    ///
    /// # Errors
    ///
    /// `Memory` if there is no room for it.
    pub(crate) fn insert(&mut self, label: Label, value: SymbolValue) -> Result<(), AsmFault>
        ensures ok { OnOk result (self.new ≡ insert_entry same_label self.old label value) }
        ensures err { IfErr result IsMemory }
    {
        if let Some(front) = self.front {
            if let Some(more) = front.with(label, value) {
                self.front = Some(more);
                return Ok(());
            }
            front.copy_to(&mut self.own)?;
            self.front = None;
        }
        self.own.insert(label, value)?;
        Ok(())
    }
}
