ghost use Rattle.std.specs.Prelude.{◌≡◌, ◌++◌, ◌+◌, ◌≤◌, ◌<◌, IfOk, OnOk, drop, length, map, slice_get, slice_set};
ghost use Rattle.tree_core.specs.Count.{calls_of, calls_of_all};
ghost use Rattle.tree_core.specs.Formula.{tree_of};
ghost use Rattle.tree_core.specs.Preorder.{nodes, nodes_of_all};
ghost use Rattle.tree_core.specs.Tree.{forest};
ghost use Rattle.tree_core.specs.View.{parts_in};
ghost use Rattle.shape_core.specs.Shape.{shape};

use crate::analysis::call_shape;
use crate::leaf::leaf_shape;
use crate::shapes::Shapes;
use kind_table::{Asks, StaticResult};
use std::alloc::Global;
use tree_core::{Memory, Node, Steps, View};

/// The shapes of a formula and of all its parts, by the numbers of its nodes. The table is asked at most once for each call.
pub fn analyse_all<K: Asks<L>, L>(
    alloc: Global,
    node: &Node,
    kinds: &K,
    steps: &mut Steps<L>,
) -> Result<Shapes, Memory>
    ensures value { IfOk result (λ all. all ≡ map (shape (K.table kinds.now)) (nodes (tree_of node.now))) }
    ensures counted { steps.new ≤ steps.old + calls_of (tree_of node.now) }
{
    let mut all = Vec::new(alloc);
    push_shapes(alloc, node, kinds, steps, &mut all)?;
    Ok(Shapes { all })
}

/// Puts the shapes of a formula and of its parts behind those that are there, and gives that of the formula.
#[cycle(shapes)]
#[tactic(auto, using(crate::proofs::AllShapes::wholes))]
fn push_shapes<K: Asks<L>, L>(
    alloc: Global,
    node: &Node,
    kinds: &K,
    steps: &mut Steps<L>,
    all: &mut Vec<StaticResult>,
) -> Result<StaticResult, Memory>
    ensures value { IfOk result (λ found. found ≡ shape (K.table kinds.now) (tree_of node.now)) }
    ensures row { OnOk result (all.new.items ≡ all.old.items ++ map (shape (K.table kinds.now)) (nodes (tree_of node.now))) }
    ensures counted { steps.new ≤ steps.old + calls_of (tree_of node.now) }
{
    let at = all.len();
    all.push(StaticResult::Scalar)?;
    let found = push_shapes_below(alloc, node, kinds, steps, all)?;
    put_at(all, at, found);
    Ok(found)
}

/// So with the shapes of the parts alone.
#[cycle(shapes)]
#[tactic(auto, using(crate::proofs::AllShapes::parts, crate::proofs::Forest::shaped))]
fn push_shapes_below<K: Asks<L>, L>(
    alloc: Global,
    node: &Node,
    kinds: &K,
    steps: &mut Steps<L>,
    all: &mut Vec<StaticResult>,
) -> Result<StaticResult, Memory>
    ensures value { IfOk result (λ found. found ≡ shape (K.table kinds.now) (tree_of node.now)) }
    ensures row { OnOk result (all.new.items ≡ all.old.items ++ map (shape (K.table kinds.now)) (drop 1 (nodes (tree_of node.now)))) }
    ensures counted { steps.new ≤ steps.old + calls_of (tree_of node.now) }
{
    let view = node.view();
    match view {
        View::Leaf(leaf) => Ok(leaf_shape(leaf)),
        View::Closed(_) => {
            push_parts(alloc, view, kinds, steps, all)?;
            Ok(StaticResult::Unknown)
        }
        View::Unary { right, .. } => {
            let found = push_shapes(alloc, right, kinds, steps, all)?;
            Ok(found)
        }
        View::Binary { left, right, .. } => {
            let left = push_shapes(alloc, left, kinds, steps, all)?;
            let right = push_shapes(alloc, right, kinds, steps, all)?;
            Ok(left.combined(right))
        }
        View::Spill { child } => {
            push_shapes(alloc, child, kinds, steps, all)?;
            Ok(StaticResult::Unknown)
        }
        View::Call { kind, args } => {
            let found = push_parts(alloc, view, kinds, steps, all)?;
            Ok(call_shape(kind, args, found.as_slice(), kinds, steps))
        }
        View::Intersection { child, .. } => {
            push_shapes(alloc, child, kinds, steps, all)?;
            Ok(StaticResult::Scalar)
        }
    }
}

/// So with each part in their order, whose shapes are given.
#[cycle(shapes)]
#[tactic(auto, using(crate::proofs::AllShapes::ons, tree_core::proofs::Views::falls))]
fn push_parts<K: Asks<L>, L>(
    alloc: Global,
    view: View,
    kinds: &K,
    steps: &mut Steps<L>,
    all: &mut Vec<StaticResult>,
) -> Result<Vec<StaticResult>, Memory>
    ensures value { IfOk result (λ found. found.items ≡ map (λ part. shape (K.table kinds.now) (tree_of part)) (parts_in view.entry)) }
    ensures row { OnOk result (all.new.items ≡ all.old.items ++ map (shape (K.table kinds.now)) (nodes_of_all (forest (map tree_of (parts_in view.entry))))) }
    ensures counted { steps.new ≤ steps.old + calls_of_all (forest (map tree_of (parts_in view.entry))) }
{
    let mut found = Vec::new(alloc);
    for index in 0..view.part_count() {
        let shape = push_shapes(alloc, view.part(index), kinds, steps, all)?;
        found.push(shape)?;
    }
    Ok(found)
}

fn put_at(all: &mut Vec<StaticResult>, at: usize, shape: StaticResult)
    requires { at < length all.old.items }
    ensures { all.new.items ≡ slice_set all.old.items at shape }
{
    all[at] = shape;
}
