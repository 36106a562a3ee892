ghost use Rattle.std.specs.Prelude.{◌≡◌, false, IfOk};
ghost use Rattle.kind_values.specs.Counting.{counted, fold_ok, number_counted, numbers_from, result_map, some_number, some_truth, truth_counted, with_counted, with_value};

use operand_core::{cast_to_bool, cast_to_number};
use rectangle_core::Value;
use std::alloc::Global;
use value_core::{ArrayNode, Error, Memory};

/// Which elements count, and as which numbers.
#[derive(Clone, Copy, Debug)]
pub(crate) enum Counting {
    /// Numbers, and what a single value says.
    Numbers,
    /// The same, but errors and unreadable texts are skipped.
    ReadableNumbers,
    /// Everything but blanks.
    Filled,
    /// Truth values, numbers by whether they are 0, and what a single text says.
    Truths,
}

/// The numbers that count among some values, one value after another and each by its rows, or the first error.
#[tactic(auto, using(crate::proofs::Folds::folds))]
pub(crate) fn numbers_from(
    alloc: Global,
    counting: Counting,
    values: &[Value],
) -> Result<Result<Vec<i64>, Error>, Memory>
    ensures { IfOk result (λ numbers. result_map (λ list. list.items) numbers ≡ numbers_from counting values.now) }
{
    let mut numbers = Vec::new(alloc);
    for value in values {
        match with_value(counting, numbers, value)? {
            Ok(next) => numbers = next,
            Err(error) => return Ok(Err(error)),
        }
    }
    Ok(Ok(numbers))
}

fn with_value(
    counting: Counting,
    numbers: Vec<i64>,
    value: &Value,
) -> Result<Result<Vec<i64>, Error>, Memory>
    ensures { IfOk result (λ next. result_map (λ list. list.items) next ≡ with_value counting numbers.items value.now) }
{
    match value {
        Value::One(element) => with_counted(counting, true, numbers, element),
        Value::Missing => Ok(Ok(numbers)),
        Value::Grid(grid) => with_elements(counting, numbers, grid.elements()),
    }
}

#[tactic(auto, using(crate::proofs::Folds::folds))]
fn with_elements(
    counting: Counting,
    before: Vec<i64>,
    elements: &[ArrayNode],
) -> Result<Result<Vec<i64>, Error>, Memory>
    ensures { IfOk result (λ next. result_map (λ list. list.items) next ≡ fold_ok (with_counted counting false) before.items elements.now) }
{
    let mut numbers = before;
    for element in elements {
        match with_counted(counting, false, numbers, element)? {
            Ok(next) => numbers = next,
            Err(error) => return Ok(Err(error)),
        }
    }
    Ok(Ok(numbers))
}

fn with_counted(
    counting: Counting,
    alone: bool,
    mut numbers: Vec<i64>,
    element: &ArrayNode,
) -> Result<Result<Vec<i64>, Error>, Memory>
    ensures { IfOk result (λ next. result_map (λ list. list.items) next ≡ with_counted counting alone numbers.items element.now) }
{
    match counted(counting, alone, element) {
        Ok(Some(number)) => {
            numbers.push(number)?;
            Ok(Ok(numbers))
        }
        Ok(None) => Ok(Ok(numbers)),
        Err(error) => Ok(Err(error)),
    }
}

/// The number that an element counts as, alone or in a rectangle; `None` where it is skipped.
fn counted(counting: Counting, alone: bool, element: &ArrayNode) -> Result<Option<i64>, Error>
    ensures { result ≡ counted counting alone element.now }
{
    match counting {
        Counting::Numbers => number_counted(alone, element),
        Counting::ReadableNumbers => match number_counted(alone, element) {
            Ok(number) => Ok(number),
            Err(_) => Ok(None),
        },
        Counting::Filled => match element {
            ArrayNode::Empty => Ok(None),
            _ => Ok(Some(1000000)),
        },
        Counting::Truths => truth_counted(alone, element),
    }
}

fn number_counted(alone: bool, element: &ArrayNode) -> Result<Option<i64>, Error>
    ensures { result ≡ number_counted alone element.now }
{
    match element {
        ArrayNode::Number(_) | ArrayNode::Error(_) => some_number(cast_to_number(element)),
        ArrayNode::Boolean(_) | ArrayNode::String(_) => {
            if alone {
                some_number(cast_to_number(element))
            } else {
                Ok(None)
            }
        }
        ArrayNode::Empty => Ok(None),
    }
}

fn some_number(cast: Result<i64, Error>) -> Result<Option<i64>, Error>
    ensures { result ≡ some_number cast }
{
    match cast {
        Ok(number) => Ok(Some(number)),
        Err(error) => Err(error),
    }
}

fn truth_counted(alone: bool, element: &ArrayNode) -> Result<Option<i64>, Error>
    ensures { result ≡ truth_counted alone element.now }
{
    match element {
        ArrayNode::Number(_) | ArrayNode::Boolean(_) | ArrayNode::Error(_) => some_truth(
            cast_to_bool(element),
        ),
        ArrayNode::String(_) => {
            if alone {
                some_truth(cast_to_bool(element))
            } else {
                Ok(None)
            }
        }
        ArrayNode::Empty => Ok(None),
    }
}

fn some_truth(cast: Result<bool, Error>) -> Result<Option<i64>, Error>
    ensures { result ≡ some_truth cast }
{
    match cast {
        Ok(true) => Ok(Some(1000000)),
        Ok(false) => Ok(Some(0)),
        Err(error) => Err(error),
    }
}
