ghost use Rattle.std.specs.Prelude.{◌≡◌, IfOk, map};
ghost use Rattle.value_core.specs.declared.array.ArrayNode.{ArrayNode};
ghost use Rattle.rectangle_core.specs.Rectangle.{element_at, height, or_blank, width};
ghost use Rattle.operand_core.specs.Each.{each_of};

use call_core::{Plain, Steps};
use rectangle_core::{Grid, Value, View, grid_of};
use std::alloc::Global;
use value_core::{ArrayNode, Memory};

/// What is made of an element.
pub trait ElementRule {
    ghost made_of: { Self → ArrayNode → ArrayNode };

    /// The element that is made of an element.
    fn apply(&self, element: &ArrayNode) -> ArrayNode
        ensures { result ≡ made_of self.now element.now };
}

/// A rectangle under a rule.
#[derive(Drop)]
struct Each<'a, R> {
    rule: &'a R,
    grid: &'a Grid,
}

impl<'a, R: ElementRule, L> View<L> for Each<'a, R> {
    ghost row_count = { λ each. height each.grid.now };

    ghost column_count = { λ each. width each.grid.now };

    ghost element = { λ each i j. R.made_of each.rule.now (or_blank (element_at each.grid.now i j)) };

    fn rows(&self) -> usize {
        self.grid.rows()
    }

    fn columns(&self) -> usize {
        self.grid.columns()
    }

    fn at(
        &self,
        _alloc: Global,
        row: usize,
        column: usize,
        _steps: &mut Steps<L>,
    ) -> Result<ArrayNode, Memory> {
        match self.grid.get(row, column) {
            Some(element) => Ok(self.rule.apply(element)),
            None => Ok(self.rule.apply(&ArrayNode::Empty)),
        }
    }
}

/// The value of what a rule makes of each element of a value: a missing one is one blank.
pub fn each_of<R: ElementRule>(alloc: Global, rule: &R, value: &Value) -> Result<Value, Memory>
    ensures { IfOk result (λ made. made ≡ each_of (R.made_of rule.now) value.now) }
{
    match value {
        Value::One(element) => Ok(Value::One(rule.apply(element))),
        Value::Missing => Ok(Value::One(rule.apply(&ArrayNode::Empty))),
        Value::Grid(grid) => Ok(Value::Grid(each_in(alloc, rule, grid)?)),
    }
}

fn each_in<R: ElementRule>(alloc: Global, rule: &R, grid: &Grid) -> Result<Grid, Memory>
    ensures { IfOk result (λ made. made ≡ map (λ row. map (R.made_of rule.now) row) grid.now) }
{
    let _rectangle = grid.rows();
    let mut steps = Steps::new(Plain);
    let made = grid_of(alloc, &Each { rule, grid }, &mut steps)?;
    Ok(made)
}
