ghost use Rattle.std.specs.Prelude.{◌≡◌, [], ◌∷◌, ◌++◌, ◌≤◌, length, slice_get, slice_set, option_map, ◌↔◌, IsTrue, IsNone, OnOk, OnErr, IfErr};
ghost use Rattle.std.specs.Option.{option_copied};

use std::alloc::{AllocError, Global};
use std::marker::Model;

/// Some values in a row, which can grow. A contract sees the list of them, and neither the pointer, the room nor the allocator.
#[derive(Debug, Drop)]
pub struct Items<T> {
    held: Vec<T>,
}

impl<T> Model for Items<T> {
    ghost use Rattle.std.specs.Prelude.{List};
    ghost use Rattle.std.specs.Coded.{coded_list};

    ghost Value = { List T };

    ghost coded = { coded_list T.code };

    ghost view = { λ owner. owner.held.items };
}

impl<T> Items<T> {
    ghost use Rattle.std.specs.Borrow.{sem, LendsIf};
    ghost use Rattle.own_items.specs.contracts.items.Items.{the_row};

    /// No values. It takes no memory.
    pub fn new(alloc: Global) -> Items<T>
        ensures { result ≡ [] }
    {
        let held = Vec::new(alloc);
        Items { held }
    }

    /// Adds a value at the end. The error means want of memory: it hands the value back, and the list is as it was.
    pub fn push(&mut self, item: T) -> Result<(), T>
        ensures done { OnOk result (self.new ≡ self.old ++ item ∷ []) }
        ensures handed_back { IfErr result (λ back. back ≡ item) }
        ensures kept { OnErr result (self.new ≡ self.old) }
    {
        match self.held.push(item) {
            Ok(()) => Ok(()),
            Err(refused) => Err(refused.value),
        }
    }

    /// How many values there are.
    pub fn len(&self) -> usize
        ensures { result ≡ length self.now }
    {
        self.held.len()
    }

    /// Whether there are no values.
    pub fn is_empty(&self) -> bool
        ensures { IsTrue result ↔ (self.now ≡ []) }
    {
        self.held.is_empty()
    }

    /// The value with this index, counted from 0. None past the end.
    pub fn get(&self, index: usize) -> Option<&T>
        ensures element { option_copied result ≡ slice_get self.now index }
        ensures past_the_end { IsNone result ↔ (length self.now ≤ index) }
    {
        self.held.get(index)
    }

    /// The value with this index, borrowed for writing: what is left behind the borrow then stands in its place. None past the end.
    pub fn get_mut(&mut self, index: usize) -> Option<&mut T>
        ensures* writes_back { sem 𝓛 (LendsIf (the_row T.row) T.row self.entry result (slice_set self.old index) self.old) }
        ensures element { option_map (λ item. item.now) result ≡ slice_get self.old index }
        ensures past_the_end { IsNone result ↔ (length self.old ≤ index) }
    {
        self.held.get_mut(index)
    }

    /// The values, borrowed.
    pub fn as_slice(&self) -> &[T]
        ensures { result.now ≡ self.now }
    {
        self.held.as_slice()
    }
}

impl<T: Drop> Items<T> {
    /// Adds a value at the end. The error means want of memory: the value is dropped, and the list is as it was.
    pub fn add(&mut self, item: T) -> Result<(), AllocError>
        ensures done { OnOk result (self.new ≡ self.old ++ item ∷ []) }
        ensures kept { OnErr result (self.new ≡ self.old) }
    {
        self.held.push(item)?;
        Ok(())
    }
}
