ghost use Rattle.std.specs.Prelude.{◌≡◌, ◌++◌, IfOk};
ghost use Rattle.operand_core.specs.Cast.{element_of};
ghost use Rattle.grid_core.specs.Combine.{combine, compared, concatenated, holds, reckoned, with_numbers};

use crate::order::compare_values;
use number_core::{add_numbers, divide_numbers, multiply_numbers, power_numbers, subtract_numbers};
use operand_core::{cast_to_number, cast_to_string};
use std::alloc::Global;
use value_core::{ArrayNode, Error, Memory, OpCompare, OpProduct, OpSum, Operator, Text};

/// Two single values under an operator, after their casts; the left cast's error comes first. A comparison has no casts, and
/// an error is its answer, the left one first.
pub fn combine(
    alloc: Global,
    operator: Operator,
    left: &ArrayNode,
    right: &ArrayNode,
) -> Result<ArrayNode, Memory>
    ensures { IfOk result (λ element. element ≡ combine operator left.now right.now) }
{
    match operator {
        Operator::Concatenate => concatenated(alloc, left, right),
        Operator::Compare(kind) => compared(alloc, kind, left, right),
        Operator::Sum(_) | Operator::Product(_) | Operator::Power => Ok(with_numbers(
            operator, left, right,
        )),
    }
}

fn with_numbers(operator: Operator, left: &ArrayNode, right: &ArrayNode) -> ArrayNode
    ensures { result ≡ with_numbers operator left.now right.now }
{
    match (cast_to_number(left), cast_to_number(right)) {
        (Ok(left), Ok(right)) => element_of(reckoned(operator, left, right)),
        (Ok(_), Err(error)) => ArrayNode::Error(error),
        (Err(error), _) => ArrayNode::Error(error),
    }
}

fn element_of(number: Result<i64, Error>) -> ArrayNode
    ensures { result ≡ element_of number }
{
    match number {
        Ok(number) => ArrayNode::Number(number),
        Err(error) => ArrayNode::Error(error),
    }
}

/// Two numbers under an operator on numbers.
fn reckoned(operator: Operator, left: i64, right: i64) -> Result<i64, Error>
    ensures { result ≡ reckoned operator left right }
{
    match operator {
        Operator::Sum(OpSum::Add) => add_numbers(left, right),
        Operator::Sum(OpSum::Minus) => subtract_numbers(left, right),
        Operator::Product(OpProduct::Times) => multiply_numbers(left, right),
        Operator::Product(OpProduct::Divide) => divide_numbers(left, right),
        Operator::Power => power_numbers(left, right),
        Operator::Concatenate | Operator::Compare(_) => Err(Error::VALUE),
    }
}

fn concatenated(alloc: Global, left: &ArrayNode, right: &ArrayNode) -> Result<ArrayNode, Memory>
    ensures { IfOk result (λ element. element ≡ concatenated left.now right.now) }
{
    let left = cast_to_string(alloc, left)?;
    let right = cast_to_string(alloc, right)?;
    match (left, right) {
        (Ok(left), Ok(right)) => Ok(ArrayNode::String(joined(alloc, &left, &right)?)),
        (Ok(_), Err(error)) => Ok(ArrayNode::Error(error)),
        (Err(error), _) => Ok(ArrayNode::Error(error)),
    }
}

fn joined(alloc: Global, left: &Text, right: &Text) -> Result<Text, Memory>
    ensures { IfOk result (λ text. text ≡ left.now ++ right.now) }
{
    let mut string = String::from_str(alloc, left.as_str())?;
    string.push_str(right.as_str())?;
    let text = Text::from_text(alloc, string.as_str())?;
    Ok(text)
}

fn compared(
    alloc: Global,
    kind: OpCompare,
    left: &ArrayNode,
    right: &ArrayNode,
) -> Result<ArrayNode, Memory>
    ensures { IfOk result (λ element. element ≡ compared kind left.now right.now) }
{
    match (left, right) {
        (ArrayNode::Error(error), _) => Ok(ArrayNode::Error(*error)),
        (_, ArrayNode::Error(error)) => Ok(ArrayNode::Error(*error)),
        _ => {
            let order = compare_values(alloc, left, right)?;
            Ok(ArrayNode::Boolean(holds(kind, order)))
        }
    }
}

fn holds(kind: OpCompare, order: i32) -> bool
    ensures { result ≡ holds kind order }
{
    match kind {
        OpCompare::LessThan => order < 0,
        OpCompare::GreaterThan => order > 0,
        OpCompare::Equal => order == 0,
        OpCompare::LessOrEqualThan => order <= 0,
        OpCompare::GreaterOrEqualThan => order >= 0,
        OpCompare::NonEqual => order != 0,
    }
}
