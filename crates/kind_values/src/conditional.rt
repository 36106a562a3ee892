ghost use Rattle.std.specs.Prelude.{◌≡◌, IfOk, max};
ghost use Rattle.std.specs.Option.{option_copied};
ghost use Rattle.rectangle_core.specs.Rectangle.{height, width};
ghost use Rattle.operand_core.specs.Side.{side, spread};
ghost use Rattle.kind_values.specs.Choice.{choice, chosen_at, chosen_over, or_not_available, or_zero};

use call_core::{Plain, Steps};
use operand_core::{Side, cast_to_bool, cast_value_to_bool};
use rectangle_core::{Grid, Value, View, grid_of};
use std::alloc::Global;
use value_core::{ArrayNode, Error, Memory};

/// The first value where a condition holds, else the second, place by place where the condition is a rectangle.
pub(crate) fn choice(
    alloc: Global,
    condition: &Value,
    first: &Value,
    second: &Value,
) -> Result<Value, Memory>
    ensures { IfOk result (λ value. value ≡ choice condition.now first.now second.now) }
{
    match condition {
        Value::Grid(_) => Ok(Value::Grid(chosen_grid(
            alloc,
            &ArrayNode::Number(0),
            condition,
            first,
            second,
        )?)),
        _ => match cast_value_to_bool(condition) {
            Ok(true) => or_zero(alloc, first),
            Ok(false) => or_zero(alloc, second),
            Err(error) => Ok(Value::One(ArrayNode::Error(error))),
        },
    }
}

fn or_zero(alloc: Global, value: &Value) -> Result<Value, Memory>
    ensures { IfOk result (λ copy. copy ≡ or_zero value.now) }
{
    match value {
        Value::Missing => Ok(Value::One(ArrayNode::Number(0))),
        _ => value.try_clone(alloc),
    }
}

/// A condition for each place, and the two values that are chosen from.
#[derive(Drop)]
struct Choices<'a> {
    condition: &'a Side<'a>,
    first: &'a Side<'a>,
    second: &'a Side<'a>,
}

impl<'a, L> View<L> for Choices<'a> {
    ghost row_count = { λ all. max (height all.condition.now) (max (height all.first.now) (height all.second.now)) };

    ghost column_count = { λ all. max (width all.condition.now) (max (width all.first.now) (width all.second.now)) };

    ghost element = { λ all i j. chosen_at (spread all.condition.now i j) (spread all.first.now i j) (spread all.second.now i j) };

    fn rows(&self) -> usize {
        self.condition
            .rows()
            .max(self.first.rows().max(self.second.rows()))
    }

    fn columns(&self) -> usize {
        self.condition
            .columns()
            .max(self.first.columns().max(self.second.columns()))
    }

    fn at(
        &self,
        alloc: Global,
        row: usize,
        column: usize,
        _steps: &mut Steps<L>,
    ) -> Result<ArrayNode, Memory> {
        chosen_at(
            alloc,
            self.condition.get(row, column),
            self.first.get(row, column),
            self.second.get(row, column),
        )
    }
}

fn chosen_at(
    alloc: Global,
    condition: Option<&ArrayNode>,
    first: Option<&ArrayNode>,
    second: Option<&ArrayNode>,
) -> Result<ArrayNode, Memory>
    ensures { IfOk result (λ made. made ≡ chosen_at (option_copied condition.entry) (option_copied first.entry) (option_copied second.entry)) }
{
    match condition {
        Some(condition) => match cast_to_bool(condition) {
            Ok(true) => or_not_available(alloc, first),
            Ok(false) => or_not_available(alloc, second),
            Err(error) => Ok(ArrayNode::Error(error)),
        },
        None => Ok(ArrayNode::Error(Error::NA)),
    }
}

fn or_not_available(alloc: Global, element: Option<&ArrayNode>) -> Result<ArrayNode, Memory>
    ensures { IfOk result (λ made. made ≡ or_not_available (option_copied element.entry)) }
{
    match element {
        Some(element) => element.try_clone(alloc),
        None => Ok(ArrayNode::Error(Error::NA)),
    }
}

/// Such a choice, where a value that is missing counts as some element.
fn chosen_grid(
    alloc: Global,
    missing: &ArrayNode,
    condition: &Value,
    first: &Value,
    second: &Value,
) -> Result<Grid, Memory>
    ensures { IfOk result (λ grid. grid ≡ chosen_over (side missing.now condition.now) (side missing.now first.now) (side missing.now second.now)) }
{
    let condition = Side::new(condition, missing);
    let first = Side::new(first, missing);
    let second = Side::new(second, missing);
    let choices = Choices {
        condition: &condition,
        first: &first,
        second: &second,
    };
    let mut steps = Steps::new(Plain);
    let grid = grid_of(alloc, &choices, &mut steps)?;
    Ok(grid)
}
