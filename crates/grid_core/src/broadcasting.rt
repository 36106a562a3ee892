ghost use Rattle.std.specs.Prelude.{◌≡◌, IfOk, max};
ghost use Rattle.std.specs.Option.{option_copied};
ghost use Rattle.rectangle_core.specs.Rectangle.{height, width};
ghost use Rattle.value_core.specs.declared.array.ArrayNode.TheVariants.{Empty};
ghost use Rattle.operand_core.specs.Side.{side, spread};
ghost use Rattle.grid_core.specs.Broadcast.{broadcast, is_grid, met, over_sides, single, spread_over, whole_error};

use crate::combining::combine;
use call_core::{Plain, Steps};
use operand_core::Side;
use rectangle_core::{Grid, Value, View, grid_of};
use std::alloc::Global;
use value_core::{ArrayNode, Error, Memory, Operator};

/// Two values under an operator: the left error that is a side as a whole is the answer, then the right one. Else single
/// values are combined, and rectangles element by element, each repeated to the other's size where it has a single row or
/// column; `#N/A` stands where a side has no element.
pub fn broadcast(
    alloc: Global,
    operator: Operator,
    left: Value,
    right: Value,
) -> Result<Value, Memory>
    ensures { IfOk result (λ value. value ≡ broadcast operator left right) }
{
    let value = broadcast_of(alloc, operator, &left, &right)?;
    Ok(value)
}

fn broadcast_of(
    alloc: Global,
    operator: Operator,
    left: &Value,
    right: &Value,
) -> Result<Value, Memory>
    ensures { IfOk result (λ value. value ≡ broadcast operator left.now right.now) }
{
    if let Some(error) = whole_error(left) {
        return Ok(Value::One(ArrayNode::Error(error)));
    }
    if let Some(error) = whole_error(right) {
        return Ok(Value::One(ArrayNode::Error(error)));
    }
    over_sides(alloc, operator, left, right)
}

fn whole_error(value: &Value) -> Option<Error>
    ensures { result ≡ whole_error value.now }
{
    match value {
        Value::One(ArrayNode::Error(error)) => Some(*error),
        _ => None,
    }
}

fn over_sides(
    alloc: Global,
    operator: Operator,
    left: &Value,
    right: &Value,
) -> Result<Value, Memory>
    ensures { IfOk result (λ value. value ≡ over_sides operator left.now right.now) }
{
    let blank = &ArrayNode::Empty;
    if is_grid(left) || is_grid(right) {
        let grid = grid_over(alloc, operator, blank, left, right)?;
        Ok(Value::Grid(grid))
    } else {
        let element = combine(alloc, operator, single(left, blank), single(right, blank))?;
        Ok(Value::One(element))
    }
}

fn is_grid(value: &Value) -> bool
    ensures { result ≡ is_grid value.now }
{
    match value {
        Value::Grid(_) => true,
        _ => false,
    }
}

fn single<'a>(value: &'a Value, blank: &'a ArrayNode) -> &'a ArrayNode
    requires { blank.now ≡ Empty }
    ensures { result.now ≡ single value.now }
{
    match value {
        Value::One(element) => element,
        _ => blank,
    }
}

/// Two sides under an operator, each repeated to the other's size.
#[derive(Drop)]
struct Sides<'a> {
    operator: Operator,
    left: &'a Side<'a>,
    right: &'a Side<'a>,
}

impl<'a, L> View<L> for Sides<'a> {
    ghost row_count = { λ sides. max (height sides.left.now) (height sides.right.now) };

    ghost column_count = { λ sides. max (width sides.left.now) (width sides.right.now) };

    ghost element = { λ sides i j. met sides.operator (spread sides.left.now i j) (spread sides.right.now i j) };

    fn rows(&self) -> usize {
        self.left.rows().max(self.right.rows())
    }

    fn columns(&self) -> usize {
        self.left.columns().max(self.right.columns())
    }

    fn at(
        &self,
        alloc: Global,
        row: usize,
        column: usize,
        _steps: &mut Steps<L>,
    ) -> Result<ArrayNode, Memory> {
        met(
            alloc,
            self.operator,
            self.left.get(row, column),
            self.right.get(row, column),
        )
    }
}

fn met(
    alloc: Global,
    operator: Operator,
    left: Option<&ArrayNode>,
    right: Option<&ArrayNode>,
) -> Result<ArrayNode, Memory>
    ensures { IfOk result (λ element. element ≡ met operator (option_copied left.entry) (option_copied right.entry)) }
{
    match (left, right) {
        (Some(left), Some(right)) => combine(alloc, operator, left, right),
        _ => Ok(ArrayNode::Error(Error::NA)),
    }
}

/// Two values as rectangles under an operator, where a value that is missing counts as some element.
fn grid_over(
    alloc: Global,
    operator: Operator,
    missing: &ArrayNode,
    left: &Value,
    right: &Value,
) -> Result<Grid, Memory>
    ensures { IfOk result (λ grid. grid ≡ spread_over operator (side missing.now left.now) (side missing.now right.now)) }
{
    let left = Side::new(left, missing);
    let right = Side::new(right, missing);
    let sides = Sides {
        operator,
        left: &left,
        right: &right,
    };
    let mut steps = Steps::new(Plain);
    let grid = grid_of(alloc, &sides, &mut steps)?;
    Ok(grid)
}
