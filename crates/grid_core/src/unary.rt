ghost use Rattle.std.specs.Prelude.{◌≡◌, IfOk};
ghost use Rattle.operand_core.specs.Each.{each_of};
ghost use Rattle.grid_core.specs.Combine.{combine_one, reckoned_one};

use number_core::{negate_number, percent_number};
use operand_core::{ElementRule, cast_to_number, each_of};
use rectangle_core::Value;
use std::alloc::Global;
use value_core::{ArrayNode, Error, Memory, OpUnary};

/// One single value under an operator, after its cast to a number.
pub fn combine_one(operator: OpUnary, element: &ArrayNode) -> ArrayNode
    ensures { result ≡ combine_one operator element.now }
{
    match cast_to_number(element) {
        Ok(number) => match reckoned_one(operator, number) {
            Ok(number) => ArrayNode::Number(number),
            Err(error) => ArrayNode::Error(error),
        },
        Err(error) => ArrayNode::Error(error),
    }
}

fn reckoned_one(operator: OpUnary, number: i64) -> Result<i64, Error>
    ensures { result ≡ reckoned_one operator number }
{
    match operator {
        OpUnary::Minus => negate_number(number),
        OpUnary::Percentage => Ok(percent_number(number)),
    }
}

/// An operator as a rule over elements.
#[derive(Drop)]
struct Unary {
    operator: OpUnary,
}

impl ElementRule for Unary {
    ghost use Rattle.grid_core.specs.Combine.{combine_one};

    ghost made_of = { λ rule. combine_one rule.operator };

    fn apply(&self, element: &ArrayNode) -> ArrayNode {
        combine_one(self.operator, element)
    }
}

/// A value under an operator, element by element; an error stands in its place, and a missing value is a blank.
pub fn broadcast_unary(alloc: Global, operator: OpUnary, right: Value) -> Result<Value, Memory>
    ensures { IfOk result (λ value. value ≡ each_of (combine_one operator) right) }
{
    let value = each_of(alloc, &Unary { operator }, &right)?;
    Ok(value)
}
