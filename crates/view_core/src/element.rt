ghost use Rattle.std.specs.Prelude.{◌≡◌, ◌+◌, ◌<◌, ◌≤◌, ◌^◌, IfOk, IsTrue, length};
ghost use Rattle.std.specs.Option.{option_copied};
ghost use Rattle.rectangle_core.specs.Rectangle.{element_at, one_by_one};
ghost use Rattle.value_core.specs.declared.array.ArrayNode.TheVariants as item;
ghost use Rattle.tree_core.specs.Count.{size_of};
ghost use Rattle.tree_core.specs.Formula.{tree_of};
ghost use Rattle.validity_core.specs.Place.{bad_place};
ghost use Rattle.eval_core.specs.Meaning.{mean};
ghost use Rattle.eval_core.specs.Setting.{setting};
ghost use Rattle.nest_core.specs.Plain.{is_plain_nest};
ghost use Rattle.view_core.specs.Viewed.{Judges, value_at};

use crate::compiling::compile;
use crate::evaluator::ViewEvaluator;
use argument_core::Stop;
use book_core::Reads;
use call_core::Steps;
use eval_core::{Fault, valid};
use kind_table::Kinds;
use nest_core::is_plain_nest;
use std::alloc::Global;
use tree_core::Node;
use value_core::{ArrayNode, CellReferenceIndex, Error, Memory};

/// The element of a formula's value at a row and column, from 1; `None` exactly outside. Of a plain nest (see
/// `nest_core::is_plain_nest`) at most one cell is read, and the whole is not made. `limit` is the greatest number of cells of an
/// array that a function makes. `BadRequest` exactly where the formula isn't valid in its cell, with the first bad place; then it
/// takes no memory.
pub fn value_at<K: Kinds, B: Reads<L>, L>(
    alloc: Global,
    kinds: &K,
    book: &B,
    limit: usize,
    cell: CellReferenceIndex,
    node: &Node,
    row: usize,
    column: usize,
    steps: &mut Steps<L>,
) -> Result<Option<ArrayNode>, Fault>
    requires limited { limit ≤ 16777216 }
    requires countable { size_of (tree_of node.now) < 2 ^ 64 }
    ensures value { IfOk result (λ found. found ≡ value_at (mean (setting (K.table kinds.now) (B.contents book.now) limit cell) (tree_of node.now)) row column) }
    ensures judged { Judges result (bad_place (K.table kinds.now) (length (B.contents book.now).sheets) cell (tree_of node.now)) }
    ensures counted { IsTrue (is_plain_nest (tree_of node.now)) → steps.new ≤ steps.old + 1 }
{
    match valid(kinds, book, cell, node) {
        Some(place) => Err(Fault::BadRequest(place)),
        None => {
            let evaluator = ViewEvaluator { kinds, book, limit };
            let found = element_of(alloc, &evaluator, cell, node, row, column, steps)?;
            Ok(found)
        }
    }
}

/// The same of any formula, valid or not.
fn element_of<K: Kinds, B: Reads<L>, L>(
    alloc: Global,
    evaluator: &ViewEvaluator<K, B>,
    cell: CellReferenceIndex,
    node: &Node,
    row: usize,
    column: usize,
    steps: &mut Steps<L>,
) -> Result<Option<ArrayNode>, Memory>
    ensures value { IfOk result (λ found. found ≡ value_at (mean (setting (K.table evaluator.now.kinds.now) (B.contents evaluator.now.book.now) evaluator.now.limit cell) (tree_of node.now)) row column) }
    ensures counted { IsTrue (is_plain_nest (tree_of node.now)) → steps.new ≤ steps.old + 1 }
{
    if row == 0 || column == 0 {
        return Ok(None);
    }
    if is_plain_nest(node) {
        element_of_nest(alloc, evaluator, cell, node, row - 1, column - 1, steps)
    } else {
        let grid = evaluator.formula_value(alloc, node, cell, steps)?;
        clone_if_any(alloc, grid.get(row - 1, column - 1))
    }
}

/// The element of a plain nest at a row and column, from 0.
fn element_of_nest<K: Kinds, B: Reads<L>, L>(
    alloc: Global,
    evaluator: &ViewEvaluator<K, B>,
    cell: CellReferenceIndex,
    node: &Node,
    row: usize,
    column: usize,
    steps: &mut Steps<L>,
) -> Result<Option<ArrayNode>, Memory>
    requires { IsTrue (is_plain_nest (tree_of node.now)) }
    ensures value { IfOk result (λ found. found ≡ element_at (mean (setting (K.table evaluator.now.kinds.now) (B.contents evaluator.now.book.now) evaluator.now.limit cell) (tree_of node.now)) row column) }
    ensures counted { steps.new ≤ steps.old + 1 }
{
    match compile(alloc, evaluator.limit, cell, node) {
        Ok(nest) => nest.get(alloc, evaluator.book, row, column, steps),
        Err(Stop::Wrong(error)) => Ok(element_of_error(error, row, column)),
        Err(Stop::Memory) => Err(Memory),
    }
}

/// The element at a row and column, from 0, of the one element that an error is.
fn element_of_error(error: Error, row: usize, column: usize) -> Option<ArrayNode>
    ensures { result ≡ element_at (one_by_one (item.Error error)) row column }
{
    if row == 0 && column == 0 {
        Some(ArrayNode::Error(error))
    } else {
        None
    }
}

fn clone_if_any(alloc: Global, element: Option<&ArrayNode>) -> Result<Option<ArrayNode>, Memory>
    ensures { IfOk result (λ made. made ≡ option_copied element.entry) }
{
    match element {
        Some(element) => {
            let element = element.try_clone(alloc)?;
            Ok(Some(element))
        }
        None => Ok(None),
    }
}
