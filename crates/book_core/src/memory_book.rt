ghost use Rattle.std.specs.Prelude.{◌≡◌, ◌<◌, ◌||◌, false, length, OnErr, OnOk};
ghost use Rattle.std.specs.Option.{option_copied};
ghost use Rattle.value_core.specs.declared.position.CellReferenceIndex.{CellReferenceIndex};
ghost use Rattle.book_core.specs.Contents.{IsAddedSheet, IsSetCell, no_cells, no_contents, same_cell};
ghost use Rattle.book_core.specs.Held.{IsSameBook, contents_of, held_at, holds, key_of};

use crate::book::{Book, Reads};
use crate::cells::MemoryBook;
use crate::held::Held;
use call_core::Steps;
use std::alloc::Global;
use std::collections::BTreeMap;
use value_core::{ArrayNode, CellReferenceIndex, Memory, Text, Texts};

fn key(cell: CellReferenceIndex) -> (u32, (i32, i32))
    ensures { result ≡ key_of cell }
{
    (cell.sheet, (cell.row, cell.column))
}

impl MemoryBook {
    /// A book without sheets and cells. It takes no memory.
    pub fn new(alloc: Global) -> MemoryBook
        ensures contents { contents_of result ≡ no_contents }
        ensures none { (cell : CellReferenceIndex) → holds result cell ≡ false }
    {
        MemoryBook {
            sheets: Texts::new(alloc),
            cells: BTreeMap::new(alloc),
            blank: ArrayNode::Empty,
        }
    }

    /// A book with sheets of these names, and without cells. It takes no memory.
    pub fn with_sheets(alloc: Global, sheets: Texts) -> MemoryBook
        requires { length sheets < 4294967296 }
        ensures contents { contents_of result ≡ no_cells sheets }
        ensures none { (cell : CellReferenceIndex) → holds result cell ≡ false }
    {
        MemoryBook {
            sheets,
            cells: BTreeMap::new(alloc),
            blank: ArrayNode::Empty,
        }
    }

    /// Adds a sheet behind the others. For want of memory the book stays as it was.
    pub fn add_sheet(&mut self, name: Text) -> Result<(), Memory>
        requires { length self.old.sheets < 4294967295 }
        ensures done { OnOk result (IsAddedSheet (contents_of self.old) (contents_of self.new) name) }
        ensures held { holds self.new ≡ holds self.old }
        ensures kept { OnErr result (IsSameBook self.old self.new) }
    {
        match self.sheets.push(name) {
            Ok(()) => Ok(()),
            Err(name) => {
                drop(name);
                Err(Memory)
            }
        }
    }

    /// Puts in what a cell holds, in place of what it held. For want of memory the book stays as it was.
    pub fn set(
        &mut self,
        cell: CellReferenceIndex,
        value: ArrayNode,
        num_fmt: Option<Text>,
        formula: Option<Text>,
    ) -> Result<(), Memory>
        ensures done { OnOk result (IsSetCell (contents_of self.old) (contents_of self.new) cell value num_fmt formula) }
        ensures held { OnOk result ((other : CellReferenceIndex) → holds self.new other ≡ (same_cell cell other || holds self.old other)) }
        ensures kept { OnErr result (IsSameBook self.old self.new) }
    {
        let held = Held {
            value,
            num_fmt,
            formula,
        };
        self.cells.insert(key(cell), held)?;
        Ok(())
    }

    /// Whether something was set for a cell.
    pub fn holds(&self, cell: CellReferenceIndex) -> bool
        ensures { result ≡ holds self.now cell }
    {
        self.held(cell).is_some()
    }

    fn held(&self, cell: CellReferenceIndex) -> Option<&Held>
        ensures { option_copied result ≡ held_at self.now.cells.entries cell }
    {
        let key = key(cell);
        self.cells.get(&key)
    }
}

impl Book for MemoryBook {
    ghost contents = { contents_of };

    fn num_fmt(&self, cell: CellReferenceIndex) -> Option<&str> {
        match self.held(cell) {
            Some(held) => match &held.num_fmt {
                Some(text) => Some(text.as_str()),
                None => None,
            },
            None => None,
        }
    }

    fn formula(&self, cell: CellReferenceIndex) -> Option<&str> {
        match self.held(cell) {
            Some(held) => match &held.formula {
                Some(text) => Some(text.as_str()),
                None => None,
            },
            None => None,
        }
    }

    fn sheet_count(&self) -> u32 {
        self.sheets.len() as u32
    }

    fn sheet_name(&self, sheet: u32) -> Option<&str> {
        match self.sheets.get(sheet as usize) {
            Some(text) => Some(text.as_str()),
            None => None,
        }
    }
}

impl<L> Reads<L> for MemoryBook {
    fn value(&self, cell: CellReferenceIndex, steps: &mut Steps<L>) -> &ArrayNode {
        steps.tick();
        match self.held(cell) {
            Some(held) => &held.value,
            None => &self.blank,
        }
    }
}
