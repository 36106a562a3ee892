ghost use Rattle.std.specs.Prelude.{◌≡◌, ◌↔◌, ◌++◌, [], ◌∷◌, IsTrue, IfOk, OnOk, OnErr, length};
ghost use Rattle.key_core.specs.Key.{row_key_of};

use crate::key::{CellKey, cell_key};
use own_items::Items;
use std::alloc::Global;
use std::hash::{Hash, Hasher};
use std::marker::Model;
use value_core::{ArrayNode, Memory};

/// By what a row, or a column, is told apart from others: the keys of its elements in their order. A contract sees their list.
#[derive(Debug, Drop)]
pub struct RowKey {
    cells: Items<CellKey>,
}

impl Model for RowKey {
    ghost use Rattle.std.specs.Prelude.{List};
    ghost use Rattle.key_core.specs.declared.key.CellKey.{CellKey};

    ghost Value = { List CellKey };

    ghost view = { λ key. key.cells };
}

impl RowKey {
    /// The key of no elements. It takes no memory.
    pub fn new(alloc: Global) -> RowKey
        ensures { result ≡ [] }
    {
        RowKey {
            cells: Items::new(alloc),
        }
    }

    /// Puts the key of an element behind the others. For want of memory the list stays.
    pub fn push(&mut self, key: CellKey) -> Result<(), Memory>
        ensures done { OnOk result (self.new ≡ self.old ++ key ∷ []) }
        ensures kept { OnErr result (self.new ≡ self.old) }
    {
        match self.cells.push(key) {
            Ok(()) => Ok(()),
            Err(_) => Err(Memory),
        }
    }

    /// Of how many elements it is the key.
    pub fn len(&self) -> usize
        ensures { result ≡ length self.now }
    {
        self.cells.len()
    }

    /// Whether the two keys are one: what `==` tells, with one clause.
    pub fn is(&self, other: &RowKey) -> bool
        ensures { IsTrue result ↔ (self.now ≡ other.now) }
    {
        are_keys(self.cells.as_slice(), other.cells.as_slice())
    }
}

fn are_keys(keys: &[CellKey], others: &[CellKey]) -> bool
    ensures { IsTrue result ↔ (keys.now ≡ others.now) }
{
    if keys.len() != others.len() {
        return false;
    }
    for (index, key) in keys.iter().enumerate() {
        if !key.is(&others[index]) {
            return false;
        }
    }
    true
}

impl PartialEq for RowKey {
    ghost use Rattle.key_core.specs.Row.{one_row, one_row-laws};

    ghost eq = { one_row };

    ghost laws = { one_row-laws };

    /// Whether the two keys are one.
    fn eq(&self, other: &RowKey) -> bool
        ensures same_value { IsTrue result ↔ (self.now ≡ other.now) }
        ensures same_code { result ≡ one_row self.now other.now }
    {
        self.is(other)
    }
}

impl Eq for RowKey {
    ghost use Rattle.key_core.specs.Row.{one_row-equivalence};

    ghost laws = { one_row-equivalence };
}

impl Hash for RowKey {
    ghost use Rattle.key_core.specs.Row.{row_input, one_row-alike};

    ghost hash_input = { row_input };

    ghost respects_eq = { one_row-alike };

    fn hash<H: Hasher>(&self, state: &mut H) {
        CellKey::hash_slice(self.cells.as_slice(), state);
    }
}

/// The key of a row, or of a column, of these elements.
pub fn row_key(alloc: Global, elements: &[ArrayNode]) -> Result<RowKey, Memory>
    ensures { IfOk result (λ key. key ≡ row_key_of elements.now) }
{
    let mut row = RowKey::new(alloc);
    for element in elements {
        let key = cell_key(alloc, element)?;
        row.push(key)?;
    }
    Ok(row)
}
