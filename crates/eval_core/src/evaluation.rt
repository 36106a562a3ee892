ghost use Rattle.std.specs.Prelude.{◌≡◌, ◌++◌, [], ◌∷◌, IfOk, map};
ghost use Rattle.tree_core.specs.Formula.{tree_of};
ghost use Rattle.tree_core.specs.Label.{binary, unary};
ghost use Rattle.eval_core.specs.Answer.{called};
ghost use Rattle.eval_core.specs.Meaning.{call_found, found_of, passed_found, value_in};
ghost use Rattle.eval_core.specs.Setting.{setting};

use crate::evaluator::Evaluator;
use crate::leaf::leaf_found;
use crate::room::try_room;
use book_core::{Book, Reads};
use call_core::{Function, Steps};
use grid_core::{CalcResult, broadcast, broadcast_unary};
use kind_table::Kinds;
use own_functions::{own_found, own_result};
use rectangle_core::Value;
use result_core::{Found, intersection_found, of_value, span_of, wrong};
use std::alloc::Global;
use tree_core::{Closed, Node, Nodes, View};
use value_core::{CellReferenceIndex, Error, Memory, OpUnary, Operator};

/// What a formula in a cell comes to, in both ways of being evaluated.
#[cycle(evaluation)]
#[tactic(auto, using(crate::proofs::Founds::founds))]
pub(crate) fn found_of<K: Kinds, B: Reads<L>, L>(
    evaluator: &Evaluator<K, B>,
    alloc: Global,
    node: &Node,
    cell: CellReferenceIndex,
    steps: &mut Steps<L>,
) -> Result<Found, Memory>
    ensures { IfOk result (λ found. found ≡ found_of (setting (K.table evaluator.now.kinds.now) (B.contents evaluator.now.book.now) evaluator.now.limit cell) (tree_of node.now)) }
{
    match node.view() {
        View::Leaf(leaf) => {
            let found = leaf_found(alloc, cell, leaf)?;
            Ok(found)
        }
        View::Closed(Closed::RangeOperator { left, right }) => {
            let left = found_of(evaluator, alloc, left, cell, steps)?;
            let right = found_of(evaluator, alloc, right, cell, steps)?;
            Ok(Found::Same(span_of(cell, left.into_reference(), right.into_reference())))
        }
        View::Closed(_) | View::Spill { .. } => Ok(Found::Same(wrong(cell, Error::NIMPL))),
        View::Unary { kind, right } => {
            let right = found_of(evaluator, alloc, right, cell, steps)?;
            let found = unary_found(evaluator, alloc, cell, kind, right, steps)?;
            Ok(found)
        }
        View::Binary {
            operator,
            left,
            right,
        } => {
            let left = found_of(evaluator, alloc, left, cell, steps)?;
            let right = found_of(evaluator, alloc, right, cell, steps)?;
            let found = binary_found(evaluator, alloc, cell, operator, left, right, steps)?;
            Ok(found)
        }
        View::Call { kind, args } => {
            let args = found_all(evaluator, alloc, args, cell, steps)?;
            let found = call_found(evaluator, alloc, cell, kind, args, steps)?;
            Ok(found)
        }
        View::Intersection { child, .. } => {
            let child = found_of(evaluator, alloc, child, cell, steps)?;
            let found = intersection_found(alloc, cell, child.into_reference())?;
            Ok(found)
        }
    }
}

/// What each of some formulas comes to, from left to right.
#[cycle(evaluation)]
pub(crate) fn found_all<K: Kinds, B: Reads<L>, L>(
    evaluator: &Evaluator<K, B>,
    alloc: Global,
    args: &Nodes,
    cell: CellReferenceIndex,
    steps: &mut Steps<L>,
) -> Result<Vec<Found>, Memory>
    ensures { IfOk result (λ all. all.items ≡ map (λ arg. found_of (setting (K.table evaluator.now.kinds.now) (B.contents evaluator.now.book.now) evaluator.now.limit cell) (tree_of arg)) args.now) }
{
    let mut all = Vec::new(alloc);
    for arg in args.as_slice() {
        let found = found_of(evaluator, alloc, arg, cell, steps)?;
        all.push(found)?;
    }
    Ok(all)
}

fn binary_found<K: Kinds, B: Reads<L>, L>(
    evaluator: &Evaluator<K, B>,
    alloc: Global,
    cell: CellReferenceIndex,
    operator: Operator,
    left: Found,
    right: Found,
    steps: &mut Steps<L>,
) -> Result<Found, Memory>
    ensures { IfOk result (λ found. found ≡ passed_found (setting (K.table evaluator.now.kinds.now) (B.contents evaluator.now.book.now) evaluator.now.limit cell) (binary operator) (left ∷ right ∷ [])) }
{
    try_room(alloc, &left, &right)?;
    let left = left.into_value(alloc, evaluator.book, cell, steps)?;
    let right = right.into_value(alloc, evaluator.book, cell, steps)?;
    let value = broadcast(alloc, operator, left, right)?;
    Ok(Found::Same(of_value(cell, value)))
}

fn unary_found<K: Kinds, B: Reads<L>, L>(
    evaluator: &Evaluator<K, B>,
    alloc: Global,
    cell: CellReferenceIndex,
    operator: OpUnary,
    operand: Found,
    steps: &mut Steps<L>,
) -> Result<Found, Memory>
    ensures { IfOk result (λ found. found ≡ passed_found (setting (K.table evaluator.now.kinds.now) (B.contents evaluator.now.book.now) evaluator.now.limit cell) (unary operator) (operand ∷ [])) }
{
    let operand = operand.into_value(alloc, evaluator.book, cell, steps)?;
    let value = broadcast_unary(alloc, operator, operand)?;
    Ok(Found::Same(of_value(cell, value)))
}

fn call_found<K: Kinds, B: Reads<L>, L>(
    evaluator: &Evaluator<K, B>,
    alloc: Global,
    cell: CellReferenceIndex,
    kind: Function,
    args: Vec<Found>,
    steps: &mut Steps<L>,
) -> Result<Found, Memory>
    ensures { IfOk result (λ found. found ≡ call_found (setting (K.table evaluator.now.kinds.now) (B.contents evaluator.now.book.now) evaluator.now.limit cell) kind args.items) }
{
    match kind {
        Function::Other(id) => {
            let values = values_in(evaluator, alloc, cell, args, steps)?;
            let value = evaluator.kinds.value(alloc, id, values.as_slice())?;
            Ok(Found::Same(of_value(cell, value)))
        }
        _ => {
            let found = own_found(
                alloc,
                evaluator.book,
                evaluator.limit,
                cell,
                kind,
                args,
                steps,
            )?;
            Ok(found)
        }
    }
}

fn values_in<K: Kinds, B: Reads<L>, L>(
    evaluator: &Evaluator<K, B>,
    alloc: Global,
    cell: CellReferenceIndex,
    args: Vec<Found>,
    steps: &mut Steps<L>,
) -> Result<Vec<Value>, Memory>
    ensures { IfOk result (λ values. values.items ≡ map (value_in (setting (K.table evaluator.now.kinds.now) (B.contents evaluator.now.book.now) evaluator.now.limit cell)) args.items) }
{
    let mut values = Vec::new(alloc);
    for arg in args {
        let value = arg.into_value(alloc, evaluator.book, cell, steps)?;
        values.push(value)?;
    }
    Ok(values)
}

/// What a call of a kind with rules of its own answers over its arguments.
pub(crate) fn called<K: Kinds, B: Reads<L>, L>(
    evaluator: &Evaluator<K, B>,
    alloc: Global,
    kind: Function,
    args: &Nodes,
    cell: CellReferenceIndex,
    steps: &mut Steps<L>,
) -> Result<CalcResult, Memory>
    ensures { IfOk result (λ made. made ≡ called (setting (K.table evaluator.now.kinds.now) (B.contents evaluator.now.book.now) evaluator.now.limit cell) kind args.now) }
{
    let args = found_all(evaluator, alloc, args, cell, steps)?;
    let made = own_result(
        alloc,
        evaluator.book,
        evaluator.limit,
        cell,
        kind,
        args,
        steps,
    )?;
    Ok(made)
}
