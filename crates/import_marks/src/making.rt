ghost use Rattle.std.specs.Prelude.{◌≡◌, ◌&&◌, [], ◌+◌, ◌*◌, ◌≤◌, IfOk, map};
ghost use Rattle.tree_core.specs.Count.{calls_of, calls_of_all};
ghost use Rattle.tree_core.specs.Formula.{tree_of};
ghost use Rattle.tree_core.specs.Label.{call};
ghost use Rattle.tree_core.specs.Tree.{tree, forest};
ghost use Rattle.shape_core.specs.Shape.{shape};
ghost use Rattle.import_core.specs.After.{after, argument_contexts, wants_argument};
ghost use Rattle.import_core.specs.Decisions.{argument_shapes};
ghost use Rattle.export_marks.specs.Trial.{settle, settles};
ghost use Rattle.import_marks.specs.Marks.{marks};
ghost use Rattle.import_marks.specs.Made.{made_of, parts_of};

use crate::made::{Made, Parts};
use crate::told::Told;
use import_core::{ImportRule, is_range_like_call, wants_one};
use kind_table::{Asks, StaticResult};
use mark_core::{Form, Mark};
use own_items::Items;
use shape_core::call_shape;
use std::alloc::Global;
use tree_core::{Function, Memory, Node, Nodes, Steps, View};

/// The marks of an imported formula. The table is asked at most twice for each call.
#[tactic(auto, using(crate::proofs::Classes::marked))]
pub fn marks_of<K: Asks<L>, L>(
    alloc: Global,
    import: &Node,
    kinds: &K,
    rule: ImportRule,
    steps: &mut Steps<L>,
) -> Result<Mark, Memory>
    ensures value { IfOk result (λ mark. mark ≡ marks rule (K.table kinds.now) (tree_of import.now) (tree_of import.now)) }
    ensures counted { steps.new ≤ steps.old + 2 * calls_of (tree_of import.now) }
{
    let found = make(alloc, import, kinds, rule, steps)?;
    Ok(found.mark())
}

/// An argument of a call, its shape after import in its context, and whether it is its own import there.
#[derive(Drop)]
struct Argument {
    made: Made,
    imported: StaticResult,
    settled: bool,
}

/// So of all arguments of a call, in their order, and whether all are.
#[derive(Drop)]
struct Arguments {
    parts: Parts,
    imported: Items<StaticResult>,
    settled: bool,
}

#[cycle(make)]
#[tactic(auto, using(crate::proofs::Classes::classes))]
fn make<K: Asks<L>, L>(
    alloc: Global,
    node: &Node,
    kinds: &K,
    rule: ImportRule,
    steps: &mut Steps<L>,
) -> Result<Made, Memory>
    ensures value { IfOk result (λ made. made ≡ made_of rule (K.table kinds.now) (tree_of node.now)) }
    ensures counted { steps.new ≤ steps.old + 2 * calls_of (tree_of node.now) }
{
    match node.view() {
        View::Leaf(leaf) => Ok(Made::leaf(alloc, leaf)),
        View::Closed(closed) => Ok(Made::closed(alloc, closed)),
        View::Unary { right, .. } => {
            let right = make(alloc, right, kinds, rule, steps)?;
            let found = right.unary(alloc)?;
            Ok(found)
        }
        View::Binary { left, right, .. } => {
            let left = make(alloc, left, kinds, rule, steps)?;
            let right = make(alloc, right, kinds, rule, steps)?;
            let found = left.between(alloc, right)?;
            Ok(found)
        }
        View::Spill { child } => {
            let child = make(alloc, child, kinds, rule, steps)?;
            let found = child.spill(alloc)?;
            Ok(found)
        }
        View::Call { kind, args } => {
            let found = make_call(alloc, kind, args, kinds, rule, steps)?;
            Ok(found)
        }
        View::Intersection { child, .. } => {
            let child = make(alloc, child, kinds, rule, steps)?;
            Ok(child.under())
        }
    }
}

/// So of a call of a kind over its arguments.
#[cycle(make)]
fn make_call<K: Asks<L>, L>(
    alloc: Global,
    kind: Function,
    args: &Nodes,
    kinds: &K,
    rule: ImportRule,
    steps: &mut Steps<L>,
) -> Result<Made, Memory>
    ensures value { IfOk result (λ made. made ≡ made_of rule (K.table kinds.now) (tree [] (call kind) (forest (map tree_of args.now)))) }
    ensures counted { steps.new ≤ steps.old + 2 + 2 * calls_of_all (forest (map tree_of args.now)) }
{
    let found = make_arguments(alloc, kind, args, kinds, rule, steps)?;
    let given = call_shape(kind, args, found.parts.shapes.as_slice(), kinds, steps);
    let imported = call_shape(kind, args, found.imported.as_slice(), kinds, steps);
    let like = is_range_like_call(kind, imported);
    Ok(Made {
        told: Told::call(like, given, imported, found.settled),
        form: Form::Call(kind),
        parts: found.parts,
    })
}

/// So of the arguments of a call, each in its context.
#[cycle(make)]
fn make_arguments<K: Asks<L>, L>(
    alloc: Global,
    kind: Function,
    args: &Nodes,
    kinds: &K,
    rule: ImportRule,
    steps: &mut Steps<L>,
) -> Result<Arguments, Memory>
    ensures parts { IfOk result (λ found. found.parts ≡ parts_of rule (K.table kinds.now) (forest (map tree_of args.now))) }
    ensures imported { IfOk result (λ found. found.imported ≡ argument_shapes rule (K.table kinds.now) kind args.now) }
    ensures settled { IfOk result (λ found. found.settled ≡ settle rule (K.table kinds.now) (argument_contexts rule (K.table kinds.now) kind (forest (map tree_of args.now))) (forest (map tree_of args.now))) }
    ensures counted { steps.new ≤ steps.old + 2 * calls_of_all (forest (map tree_of args.now)) }
{
    let mut parts = Parts::new(alloc);
    let mut imported = Items::new(alloc);
    let mut settled = true;
    let count = args.len();
    for (index, arg) in args.as_slice().iter().enumerate() {
        let found = make_argument(alloc, kind, count, index, arg, kinds, rule, steps)?;
        settled = both(settled, found.settled);
        imported.add(found.imported)?;
        parts.add(found.made)?;
    }
    Ok(Arguments {
        parts,
        imported,
        settled,
    })
}

/// So of one of so many arguments, by its number from 0.
#[cycle(make)]
#[tactic(auto, using(crate::proofs::Classes::argument))]
fn make_argument<K: Asks<L>, L>(
    alloc: Global,
    kind: Function,
    count: usize,
    index: usize,
    arg: &Node,
    kinds: &K,
    rule: ImportRule,
    steps: &mut Steps<L>,
) -> Result<Argument, Memory>
    ensures made { IfOk result (λ found. found.made ≡ made_of rule (K.table kinds.now) (tree_of arg.now)) }
    ensures imported { IfOk result (λ found. found.imported ≡ after rule (K.table kinds.now) (wants_argument rule (K.table kinds.now) kind count index (shape (K.table kinds.now) (tree_of arg.now))) (tree_of arg.now)) }
    ensures settled { IfOk result (λ found. found.settled ≡ settles rule (K.table kinds.now) (wants_argument rule (K.table kinds.now) kind count index (shape (K.table kinds.now) (tree_of arg.now))) (tree_of arg.now)) }
    ensures counted { steps.new ≤ steps.old + 2 * calls_of (tree_of arg.now) }
{
    let made = make(alloc, arg, kinds, rule, steps)?;
    let told = made.told;
    let one = wants_one(kinds, rule, kind, count, index, told.given);
    Ok(Argument {
        made,
        imported: told.imported(one),
        settled: told.settles(one),
    })
}

fn both(first: bool, second: bool) -> bool
    ensures { result ≡ (first && second) }
{
    first && second
}
