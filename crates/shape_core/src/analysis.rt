ghost use Rattle.std.specs.Prelude.{◌≡◌, ◌+◌, ◌≤◌, IfOk, map};
ghost use Rattle.tree_core.specs.Count.{calls_of, calls_of_all};
ghost use Rattle.tree_core.specs.Formula.{tree_of};
ghost use Rattle.tree_core.specs.Tree.{forest};
ghost use Rattle.shape_core.specs.Shape.{call_shape, shape, shapes, shown_all};

use crate::leaf::leaf_shape;
use crate::own::own_shape;
use kind_table::{Asks, StaticResult};
use std::alloc::Global;
use tree_core::{Function, Memory, Node, Nodes, Steps, View};

/// The shape of a formula by a table of kinds, which is asked at most once for each call.
#[cycle(analysis)]
#[tactic(auto, using(crate::proofs::Forest::shaped))]
pub fn run_static_analysis_on_node<K: Asks<L>, L>(
    alloc: Global,
    node: &Node,
    kinds: &K,
    steps: &mut Steps<L>,
) -> Result<StaticResult, Memory>
    ensures value { IfOk result (λ found. found ≡ shape (K.table kinds.now) (tree_of node.now)) }
    ensures counted { steps.new ≤ steps.old + calls_of (tree_of node.now) }
{
    match node.view() {
        View::Leaf(leaf) => Ok(leaf_shape(leaf)),
        View::Closed(_) => Ok(StaticResult::Unknown),
        View::Unary { right, .. } => {
            let found = run_static_analysis_on_node(alloc, right, kinds, steps)?;
            Ok(found)
        }
        View::Binary { left, right, .. } => {
            let left = run_static_analysis_on_node(alloc, left, kinds, steps)?;
            let right = run_static_analysis_on_node(alloc, right, kinds, steps)?;
            Ok(left.combined(right))
        }
        View::Spill { .. } => Ok(StaticResult::Unknown),
        View::Call { kind, args } => {
            let found = shapes_of(alloc, args, kinds, steps)?;
            Ok(call_shape(kind, args, found.as_slice(), kinds, steps))
        }
        View::Intersection { .. } => Ok(StaticResult::Scalar),
    }
}

/// The shape of each of some formulas, in their order. The table is asked at most once for each call.
#[cycle(analysis)]
pub fn shapes_of<K: Asks<L>, L>(
    alloc: Global,
    args: &Nodes,
    kinds: &K,
    steps: &mut Steps<L>,
) -> Result<Vec<StaticResult>, Memory>
    ensures value { IfOk result (λ found. found.items ≡ map (λ arg. shape (K.table kinds.now) (tree_of arg)) args.now) }
    ensures counted { steps.new ≤ steps.old + calls_of_all (forest (map tree_of args.now)) }
{
    let mut found = Vec::new(alloc);
    for arg in args.as_slice() {
        found.push(run_static_analysis_on_node(alloc, arg, kinds, steps)?)?;
    }
    Ok(found)
}

/// The shape of a call over its arguments and the shape of each, in their order. The table is asked at most once.
pub fn call_shape<K: Asks<L>, L>(
    kind: Function,
    args: &Nodes,
    shapes: &[StaticResult],
    kinds: &K,
    steps: &mut Steps<L>,
) -> StaticResult
    ensures value { result ≡ call_shape (K.table kinds.now) kind (shown_all (forest (map tree_of args.now))) shapes.now }
    ensures counted { steps.new ≤ steps.old + 1 }
{
    match kind {
        Function::Other(id) => kinds.shape(id, shapes, steps),
        _ => own_shape(kind, args, shapes),
    }
}
