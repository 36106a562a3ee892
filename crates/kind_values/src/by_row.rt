ghost use Rattle.std.specs.Prelude.{◌≡◌, IfOk};
ghost use Rattle.kind_values.specs.KindValue.{chosen_value, constant, error_value, each_number, kind_value, over_numbers};

use crate::conditional::choice;
use crate::counting::{Counting, numbers_from};
use crate::number_rule::NumberRule;
use crate::reckoning::{Reckoning, reckoned};
use crate::row::{Row, row_of};
use crate::value_rule::ValueRule;
use operand_core::each_of;
use rectangle_core::Value;
use std::alloc::Global;
use value_core::{ArrayNode, Error, Memory};

/// The value of a call by its rule, over the values of its arguments. `#ERROR!` is the value of a wrong number of arguments,
/// `#NIMPL!` that of a kind that isn't implemented.
pub fn kind_value(alloc: Global, rule: ValueRule, values: &[Value]) -> Result<Value, Memory>
    ensures { IfOk result (λ value. value ≡ kind_value rule values.now) }
{
    match row_of(rule) {
        Row::Reckoned(counting, reckoning) => over_numbers(alloc, counting, reckoning, values),
        Row::Constant(truth) => Ok(constant(truth, values)),
        Row::EachNumber(rule) => each_number(alloc, rule, values),
        Row::Choice => chosen_value(alloc, values),
        Row::NotImplemented => Ok(error_value(Error::NIMPL)),
    }
}

fn error_value(error: Error) -> Value
    ensures { result ≡ error_value error }
{
    Value::One(ArrayNode::Error(error))
}

fn over_numbers(
    alloc: Global,
    counting: Counting,
    reckoning: Reckoning,
    values: &[Value],
) -> Result<Value, Memory>
    ensures { IfOk result (λ value. value ≡ over_numbers counting reckoning values.now) }
{
    match numbers_from(alloc, counting, values)? {
        Ok(numbers) => Ok(Value::One(reckoned(reckoning, numbers.as_slice()))),
        Err(error) => Ok(error_value(error)),
    }
}

fn constant(truth: bool, values: &[Value]) -> Value
    ensures { result ≡ constant truth values.now }
{
    if values.is_empty() {
        Value::One(ArrayNode::Boolean(truth))
    } else {
        error_value(Error::ERROR)
    }
}

fn each_number(alloc: Global, rule: NumberRule, values: &[Value]) -> Result<Value, Memory>
    ensures { IfOk result (λ value. value ≡ each_number rule values.now) }
{
    match values {
        [value] => each_of(alloc, &rule, value),
        _ => Ok(error_value(Error::ERROR)),
    }
}

fn chosen_value(alloc: Global, values: &[Value]) -> Result<Value, Memory>
    ensures { IfOk result (λ value. value ≡ chosen_value values.now) }
{
    match values {
        [condition, first] => choice(
            alloc,
            condition,
            first,
            &Value::One(ArrayNode::Boolean(false)),
        ),
        [condition, first, second] => choice(alloc, condition, first, second),
        _ => Ok(error_value(Error::ERROR)),
    }
}
