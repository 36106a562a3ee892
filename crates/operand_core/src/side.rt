ghost use Rattle.std.specs.Prelude.{◌≡◌, ◌≤◌};
ghost use Rattle.std.specs.Option.{option_copied};
ghost use Rattle.rectangle_core.specs.Rectangle.{height, width};
ghost use Rattle.operand_core.specs.Side.{line, side, spread};

use rectangle_core::Value;
use std::marker::Model;
use value_core::ArrayNode;

/// A value as the side of an operator. A contract sees the rectangle that it is.
#[derive(Drop)]
pub struct Side<'a> {
    value: &'a Value,
    missing: &'a ArrayNode,
}

impl<'a> Model for Side<'a> {
    ghost use Rattle.std.specs.Prelude.{List};
    ghost use Rattle.value_core.specs.declared.array.ArrayNode.{ArrayNode};
    ghost use Rattle.operand_core.specs.Side.{side};

    ghost Value = { List (List ArrayNode) };

    ghost view = { λ inside. side inside.missing.now inside.value.now };
}

impl<'a> Side<'a> {
    /// A value, which counts as some element where it is missing.
    pub fn new(value: &'a Value, missing: &'a ArrayNode) -> Side<'a>
        ensures { result ≡ side missing.now value.now }
    {
        Side { value, missing }
    }

    /// How many rows it has.
    pub fn rows(&self) -> usize
        ensures count { result ≡ height self.now }
        ensures some { 1 ≤ result }
    {
        match self.value {
            Value::Grid(grid) => grid.rows(),
            _ => 1,
        }
    }

    /// How many columns it has.
    pub fn columns(&self) -> usize
        ensures count { result ≡ width self.now }
        ensures some { 1 ≤ result }
    {
        match self.value {
            Value::Grid(grid) => grid.columns(),
            _ => 1,
        }
    }

    /// The element that stands at a place of the result, by its row and column from 0: a single row or column is repeated.
    pub fn get(&self, row: usize, column: usize) -> Option<&ArrayNode>
        ensures { option_copied result ≡ spread self.now row column }
    {
        match self.value {
            Value::One(element) => Some(element),
            Value::Missing => Some(self.missing),
            Value::Grid(grid) => grid.get(line(grid.rows(), row), line(grid.columns(), column)),
        }
    }
}

fn line(count: usize, index: usize) -> usize
    ensures { result ≡ line count index }
{
    if count == 1 { 0 } else { index }
}
