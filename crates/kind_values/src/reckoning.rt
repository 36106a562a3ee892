ghost use Rattle.std.specs.Prelude.{◌≡◌, ◌+ℤ◌, ◌*◌, length, pos, FitsSigned};
ghost use Rattle.std.specs.List.{fold, list_all, list_any};
ghost use Rattle.std.specs.Int.{int_max, int_min, w128};
ghost use Rattle.number_core.specs.Number.{in_range};
ghost use Rattle.operand_core.specs.Cast.{element_of};
ghost use Rattle.kind_values.specs.Reckoning.{greatest, is_true, least, reckoned, total};

use number_core::number_in_range;
use value_core::{ArrayNode, Error};

/// What is made of the numbers that count.
#[derive(Clone, Copy, Debug)]
pub(crate) enum Reckoning {
    Total,
    Least,
    Greatest,
    Count,
    All,
    Any,
}

/// What is made of some numbers.
pub(crate) fn reckoned(reckoning: Reckoning, numbers: &[i64]) -> ArrayNode
    ensures { result ≡ reckoned reckoning numbers.now }
{
    match reckoning {
        Reckoning::Total => number_element(total(numbers)),
        Reckoning::Least => ArrayNode::Number(least(numbers)),
        Reckoning::Greatest => ArrayNode::Number(greatest(numbers)),
        Reckoning::Count => number_element(millionths(numbers)),
        Reckoning::All => {
            if numbers.is_empty() {
                ArrayNode::Error(Error::VALUE)
            } else {
                ArrayNode::Boolean(are_true(numbers))
            }
        }
        Reckoning::Any => {
            if numbers.is_empty() {
                ArrayNode::Error(Error::VALUE)
            } else {
                ArrayNode::Boolean(is_any_true(numbers))
            }
        }
    }
}

fn number_element(number: i128) -> ArrayNode
    ensures { result ≡ element_of (in_range number) }
{
    match number_in_range(number) {
        Ok(number) => ArrayNode::Number(number),
        Err(error) => ArrayNode::Error(error),
    }
}

/// The exact sum.
fn total(numbers: &[i64]) -> i128
    ensures { result ≡ total numbers.now }
{
    let mut total = 0;
    for number in numbers {
        total = with_number(total, *number);
    }
    total
}

fn with_number(total: i128, number: i64) -> i128
    requires { FitsSigned w128 (total +ℤ number) }
    ensures { result ≡ total +ℤ number }
{
    total + i128::from(number)
}

/// How many numbers there are, in millionths.
fn millionths(numbers: &[i64]) -> i128
    ensures { result ≡ pos (length numbers.now * 1000000) }
{
    numbers.len() as i128 * 1000000
}

fn least(numbers: &[i64]) -> i64
    ensures { result ≡ least numbers.now }
{
    match numbers.first() {
        Some(first) => least_from(*first, &numbers[1..]),
        None => 0,
    }
}

fn least_from(first: i64, numbers: &[i64]) -> i64
    ensures { result ≡ fold int_min first numbers.now }
{
    let mut found = first;
    for number in numbers {
        found = found.min(*number);
    }
    found
}

fn greatest(numbers: &[i64]) -> i64
    ensures { result ≡ greatest numbers.now }
{
    match numbers.first() {
        Some(first) => greatest_from(*first, &numbers[1..]),
        None => 0,
    }
}

fn greatest_from(first: i64, numbers: &[i64]) -> i64
    ensures { result ≡ fold int_max first numbers.now }
{
    let mut found = first;
    for number in numbers {
        found = found.max(*number);
    }
    found
}

fn are_true(numbers: &[i64]) -> bool
    ensures { result ≡ list_all is_true numbers.now }
{
    numbers.iter().all(|number| *number != 0)
}

fn is_any_true(numbers: &[i64]) -> bool
    ensures { result ≡ list_any is_true numbers.now }
{
    numbers.iter().any(|number| *number != 0)
}
