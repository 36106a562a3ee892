ghost use Rattle.std.specs.Prelude.{◌≡◌, ◌↔◌, IsTrue, IfOk};

use crate::grid::Grid;
use std::alloc::Global;
use value_core::{ArrayNode, Memory};

/// A value: one element, a missing argument, or a rectangle.
#[derive(Debug, Drop)]
pub enum Value {
    One(ArrayNode),
    Missing,
    Grid(Grid),
}

impl Value {
    /// An equal value.
    pub fn try_clone(&self, alloc: Global) -> Result<Value, Memory>
        ensures { IfOk result (λ copy. copy ≡ self.now) }
    {
        match self {
            Value::One(element) => Ok(Value::One(element.try_clone(alloc)?)),
            Value::Missing => Ok(Value::Missing),
            Value::Grid(grid) => Ok(Value::Grid(grid.try_clone(alloc)?)),
        }
    }

    /// Whether the two values are one: what `==` tells, with one clause.
    pub fn is(&self, other: &Value) -> bool
        ensures { IsTrue result ↔ (self.now ≡ other.now) }
    {
        match (self, other) {
            (Value::One(element), Value::One(other)) => element.is(other),
            (Value::Missing, Value::Missing) => true,
            (Value::Grid(grid), Value::Grid(other)) => grid.is(other),
            _ => false,
        }
    }
}

impl PartialEq for Value {
    ghost use Rattle.own_items.specs.Sameness.{same, same-laws};
    ghost use Rattle.rectangle_core.specs.contracts.value.Value.{the_row};

    ghost eq = { same the_row.coded };

    ghost laws = { same-laws the_row.coded };

    /// Whether the two values are one. One element and a rectangle of it are two values.
    fn eq(&self, other: &Value) -> bool
        ensures same_value { IsTrue result ↔ (self.now ≡ other.now) }
        ensures same_code { result ≡ same the_row.coded self.now other.now }
    {
        self.is(other)
    }
}
