ghost use Rattle.std.specs.Prelude.{◌≡◌, [], ◌∷◌, ◌++◌, OnOk, OnErr, length, slice_get};

use std::alloc::Global;
use std::marker::Model;
use value_core::Memory;

/// Whole numbers in a row. A contract sees the list of them.
#[derive(Debug, Drop)]
pub struct Numbers {
    held: Vec<i64>,
}

impl Model for Numbers {
    ghost use Rattle.std.specs.Prelude.{ℤ, List};

    ghost Value = { List ℤ };

    ghost view = { λ numbers. numbers.held.items };
}

impl Numbers {
    /// No number. It takes no memory.
    pub fn new(alloc: Global) -> Numbers
        ensures { result ≡ [] }
    {
        let held = Vec::new(alloc);
        Numbers { held }
    }

    /// Puts a number behind the others. For want of memory the list stays.
    pub fn push(&mut self, number: i64) -> Result<(), Memory>
        ensures done { OnOk result (self.new ≡ self.old ++ number ∷ []) }
        ensures kept { OnErr result (self.new ≡ self.old) }
    {
        match self.held.push(number) {
            Ok(()) => Ok(()),
            Err(_) => Err(Memory),
        }
    }

    /// How many numbers there are.
    pub fn len(&self) -> usize
        ensures { result ≡ length self.now }
    {
        self.held.len()
    }

    /// A number by its index, from 0; `None` exactly past the last one.
    pub fn get(&self, index: usize) -> Option<i64>
        ensures { result ≡ slice_get self.now index }
    {
        self.held.get(index).copied()
    }

    /// The numbers, borrowed.
    pub fn as_slice(&self) -> &[i64]
        ensures { result.now ≡ self.now }
    {
        self.held.as_slice()
    }
}
