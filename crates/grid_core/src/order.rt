ghost use Rattle.std.specs.Prelude.{◌≡◌, IfOk, string_bytes};
ghost use Rattle.std.specs.Ordering.{nat_cmp, int_cmp};
ghost use Rattle.grid_core.specs.Order.{compare_values, error_place, folded, kind_place, sign_of, text_order};

use caseless::default_case_fold_str;
use std::alloc::Global;
use std::cmp::Ordering;
use value_core::{ArrayNode, Error, Memory};

/// The order of two elements: -1, 0 or 1. Numbers come before texts, texts before truth values, truth values before errors.
/// Texts are compared without case, by their bytes. A blank counts against a number as 0, against a text as empty, against a
/// truth value as false; it equals a blank, and comes before an error.
pub fn compare_values(alloc: Global, left: &ArrayNode, right: &ArrayNode) -> Result<i32, Memory>
    ensures { IfOk result (λ order. order ≡ compare_values left.now right.now) }
{
    let order = match (left, right) {
        (ArrayNode::Number(left), ArrayNode::Number(right)) => left.cmp(right),
        (ArrayNode::Number(left), ArrayNode::Empty) => left.cmp(&0),
        (ArrayNode::Empty, ArrayNode::Number(right)) => 0i64.cmp(right),
        (ArrayNode::String(left), ArrayNode::String(right)) => text_order(
            alloc,
            left.as_str(),
            right.as_str(),
        )?,
        (ArrayNode::String(left), ArrayNode::Empty) => text_order(alloc, left.as_str(), "")?,
        (ArrayNode::Empty, ArrayNode::String(right)) => text_order(alloc, "", right.as_str())?,
        (ArrayNode::Boolean(left), ArrayNode::Boolean(right)) => left.cmp(right),
        (ArrayNode::Boolean(left), ArrayNode::Empty) => left.cmp(&false),
        (ArrayNode::Empty, ArrayNode::Boolean(right)) => false.cmp(right),
        (ArrayNode::Error(left), ArrayNode::Error(right)) => error_place(*left).cmp(&error_place(
            *right,
        )),
        _ => kind_place(left).cmp(&kind_place(right)),
    };
    Ok(sign_of(order))
}

fn folded(alloc: Global, text: &str) -> Result<String, Memory>
    ensures { IfOk result (λ text'. string_bytes text' ≡ folded text.now) }
{
    let folded = default_case_fold_str(alloc, text)?;
    Ok(folded)
}

fn text_order(alloc: Global, left: &str, right: &str) -> Result<Ordering, Memory>
    ensures { IfOk result (λ order. order ≡ text_order left.now right.now) }
{
    let left = folded(alloc, left)?;
    let right = folded(alloc, right)?;
    Ok(left.as_str().cmp(right.as_str()))
}

fn error_place(error: Error) -> u8
    ensures { result ≡ error_place error }
{
    match error {
        Error::REF => 0,
        Error::NAME => 1,
        Error::VALUE => 2,
        Error::DIV => 3,
        Error::NA => 4,
        Error::NUM => 5,
        Error::ERROR => 6,
        Error::NIMPL => 7,
        Error::SPILL => 8,
        Error::CALC => 9,
        Error::CIRC => 10,
        Error::NULL => 11,
    }
}

fn kind_place(element: &ArrayNode) -> u8
    ensures { result ≡ kind_place element.now }
{
    match element {
        ArrayNode::Empty => 0,
        ArrayNode::Number(_) => 1,
        ArrayNode::String(_) => 2,
        ArrayNode::Boolean(_) => 3,
        ArrayNode::Error(_) => 4,
    }
}

fn sign_of(order: Ordering) -> i32
    ensures { result ≡ sign_of order }
{
    match order {
        Ordering::Less => -1,
        Ordering::Equal => 0,
        Ordering::Greater => 1,
    }
}
