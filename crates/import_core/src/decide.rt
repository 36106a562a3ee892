//! What import decides, before anything is built: so each node is built once.
ghost use Rattle.std.specs.Prelude.{◌≡◌, [], ◌++◌, ◌∷◌, ◌+◌, ◌*◌, ◌<◌, ◌≤◌, IfOk, OnOk, length, map, slice_set};
ghost use Rattle.tree_core.specs.Count.{calls_of, calls_of_all};
ghost use Rattle.tree_core.specs.Formula.{tree_of};
ghost use Rattle.tree_core.specs.Label.{call};
ghost use Rattle.tree_core.specs.Tree.{tree, forest};
ghost use Rattle.shape_core.specs.Shape.{shape};
ghost use Rattle.import_core.specs.After.{after, wants_argument};
ghost use Rattle.import_core.specs.Decisions.{argument_shapes, call_decisions, decisions, import_shapes};

use crate::context::{is_range_like_call, is_range_like_leaf, is_range_operator, wants_one};
use crate::import_shapes::ImportShapes;
use crate::rule::ImportRule;
use kind_table::{Asks, StaticResult};
use shape_core::{call_shape, leaf_shape};
use std::alloc::Global;
use tree_core::{Function, Memory, Node, Nodes, Steps, View};

/// The shape of an argument as given, and after import in its context.
#[derive(Clone, Copy)]
struct ArgumentShape {
    given: StaticResult,
    imported: StaticResult,
}

/// So of all arguments of a call, in their order.
#[derive(Drop)]
struct ArgumentShapes {
    given: Vec<StaticResult>,
    imported: Vec<StaticResult>,
}

/// Puts what is decided of a formula behind what is there, and gives its shapes. The table is asked at most twice for each call.
#[cycle(decide)]
#[tactic(auto, using(crate::proofs::Decides::classes))]
pub(crate) fn decide<K: Asks<L>, L>(
    alloc: Global,
    node: &Node,
    kinds: &K,
    rule: ImportRule,
    decided: &mut Vec<bool>,
    steps: &mut Steps<L>,
) -> Result<ImportShapes, Memory>
    ensures value { IfOk result (λ found. found ≡ import_shapes rule (K.table kinds.now) (tree_of node.now)) }
    ensures decided { OnOk result (decided.new.items ≡ decided.old.items ++ decisions rule (K.table kinds.now) (tree_of node.now)) }
    ensures counted { steps.new ≤ steps.old + 2 * calls_of (tree_of node.now) }
{
    match node.view() {
        View::Leaf(leaf) => {
            let shape = leaf_shape(leaf);
            Ok(ImportShapes::of(shape, shape, is_range_like_leaf(leaf)))
        }
        View::Closed(closed) => Ok(ImportShapes::of(
            StaticResult::Unknown,
            StaticResult::Unknown,
            is_range_operator(closed),
        )),
        View::Unary { right, .. } => {
            let found = decide(alloc, right, kinds, rule, decided, steps)?;
            Ok(found)
        }
        View::Binary { left, right, .. } => {
            let left = decide(alloc, left, kinds, rule, decided, steps)?;
            let right = decide(alloc, right, kinds, rule, decided, steps)?;
            Ok(left.combine(right))
        }
        View::Spill { child } => {
            decide(alloc, child, kinds, rule, decided, steps)?;
            Ok(ImportShapes::constant(StaticResult::Unknown))
        }
        View::Call { kind, args } => {
            let found = decide_call(alloc, kind, args, kinds, rule, decided, steps)?;
            Ok(found)
        }
        View::Intersection { child, .. } => {
            decide(alloc, child, kinds, rule, decided, steps)?;
            Ok(ImportShapes::constant(StaticResult::Scalar))
        }
    }
}

/// So of a call of a kind over its arguments.
#[cycle(decide)]
fn decide_call<K: Asks<L>, L>(
    alloc: Global,
    kind: Function,
    args: &Nodes,
    kinds: &K,
    rule: ImportRule,
    decided: &mut Vec<bool>,
    steps: &mut Steps<L>,
) -> Result<ImportShapes, Memory>
    ensures value { IfOk result (λ found. found ≡ import_shapes rule (K.table kinds.now) (tree [] (call kind) (forest (map tree_of args.now)))) }
    ensures decided { OnOk result (decided.new.items ≡ decided.old.items ++ decisions rule (K.table kinds.now) (tree [] (call kind) (forest (map tree_of args.now)))) }
    ensures counted { steps.new ≤ steps.old + 2 + 2 * calls_of_all (forest (map tree_of args.now)) }
{
    let at = decided.len();
    decided.push(false)?;
    let shapes = decide_arguments(alloc, kind, args, kinds, rule, decided, steps)?;
    let given = call_shape(kind, args, shapes.given.as_slice(), kinds, steps);
    let imported = call_shape(kind, args, shapes.imported.as_slice(), kinds, steps);
    let like = is_range_like_call(kind, imported);
    put_at(decided, at, like);
    Ok(ImportShapes::of(given, imported, like))
}

/// So of the arguments of a call, each in its context.
#[cycle(decide)]
fn decide_arguments<K: Asks<L>, L>(
    alloc: Global,
    kind: Function,
    args: &Nodes,
    kinds: &K,
    rule: ImportRule,
    decided: &mut Vec<bool>,
    steps: &mut Steps<L>,
) -> Result<ArgumentShapes, Memory>
    ensures given { IfOk result (λ found. found.given.items ≡ map (λ arg. shape (K.table kinds.now) (tree_of arg)) args.now) }
    ensures imported { IfOk result (λ found. found.imported.items ≡ argument_shapes rule (K.table kinds.now) kind args.now) }
    ensures decided { OnOk result (decided.new.items ≡ decided.old.items ++ call_decisions rule (K.table kinds.now) kind (forest (map tree_of args.now))) }
    ensures counted { steps.new ≤ steps.old + 2 * calls_of_all (forest (map tree_of args.now)) }
{
    let mut given = Vec::new(alloc);
    let mut imported = Vec::new(alloc);
    let count = args.len();
    for (index, arg) in args.as_slice().iter().enumerate() {
        let found = decide_argument(alloc, kind, count, index, arg, kinds, rule, decided, steps)?;
        given.push(found.given)?;
        imported.push(found.imported)?;
    }
    Ok(ArgumentShapes { given, imported })
}

/// So of one of so many arguments, by its number from 0.
#[cycle(decide)]
#[tactic(auto, using(crate::proofs::Decides::argument))]
fn decide_argument<K: Asks<L>, L>(
    alloc: Global,
    kind: Function,
    count: usize,
    index: usize,
    arg: &Node,
    kinds: &K,
    rule: ImportRule,
    decided: &mut Vec<bool>,
    steps: &mut Steps<L>,
) -> Result<ArgumentShape, Memory>
    ensures given { IfOk result (λ found. found.given ≡ shape (K.table kinds.now) (tree_of arg.now)) }
    ensures imported { IfOk result (λ found. found.imported ≡ after rule (K.table kinds.now) (wants_argument rule (K.table kinds.now) kind count index (shape (K.table kinds.now) (tree_of arg.now))) (tree_of arg.now)) }
    ensures decided { OnOk result (decided.new.items ≡ decided.old.items ++ (wants_argument rule (K.table kinds.now) kind count index (shape (K.table kinds.now) (tree_of arg.now))) ∷ decisions rule (K.table kinds.now) (tree_of arg.now)) }
    ensures counted { steps.new ≤ steps.old + 2 * calls_of (tree_of arg.now) }
{
    let at = decided.len();
    decided.push(false)?;
    let found = decide(alloc, arg, kinds, rule, decided, steps)?;
    let one = wants_one(kinds, rule, kind, count, index, found.given);
    put_at(decided, at, one);
    Ok(ArgumentShape {
        given: found.given,
        imported: if one { found.wanted } else { found.unwanted },
    })
}

fn put_at(decided: &mut Vec<bool>, at: usize, decision: bool)
    requires { at < length decided.old.items }
    ensures { decided.new.items ≡ slice_set decided.old.items at decision }
{
    decided[at] = decision;
}
