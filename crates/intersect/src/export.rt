ghost use Rattle.std.specs.Prelude.{◌≡◌, ◌+◌, ◌*◌, ◌<◌, ◌≤◌, ◌^◌, IfOk, OnOk, OnErr};
ghost use Rattle.tree_core.specs.Count.{ats_of, calls_of, size_of};
ghost use Rattle.tree_core.specs.Formula.{tree_of};
ghost use Rattle.import_core.specs.declared.rule.ImportRule.TheVariants.{AsCrate};
ghost use Rattle.import_core.specs.ComesBack.{ComesBack};
ghost use Rattle.import_core.specs.Exported.{Exported};
ghost use Rattle.import_core.specs.ImportRule.{import_rule};
ghost use Rattle.import_marks.specs.Marks.{marks};
ghost use Rattle.intersect.specs.First.{IsFirst};

use import_core::ImportRule;
use import_marks::marks_of;
use kind_table::Asks;
use mark_core::{Mark, drop_what_can};
use mark_places::{candidates, left_of};
use mark_return::comes_back;
use mark_runs::{leave_out_put, put_again};
use std::alloc::Global;
use tree_core::{Memory, Node, Plain, Steps};

/// Drops `@`s of an imported formula: its import is then that formula again, flags aside, and after any single further drop it
/// is not. `add` says whether one value is wanted of the whole formula. For want of memory the formula stays.
///
/// The formula is its own import, flags aside, and has fewer than 2^64 nodes.
pub fn remove_redundant_implicit_intersection<K: Asks<Plain>>(
    alloc: Global,
    node: &mut Node,
    add: bool,
    kinds: &K,
) -> Result<(), Memory>
    requires own_import { ComesBack AsCrate (K.table kinds.now) add (tree_of node.old) (tree_of node.old) }
    requires countable { size_of (tree_of node.old) < 2 ^ 64 }
    ensures ok { OnOk result (Exported (import_rule AsCrate (K.table kinds.now)) add (tree_of node.old) (tree_of node.new)) }
    ensures memory { OnErr result (node.new ≡ node.old) }
{
    let mut steps = Steps::new(Plain);
    export_counted(alloc, node, add, kinds, ImportRule::AsCrate, &mut steps)?;
    Ok(())
}

/// The same by either rule, with a counter of questions to the table: it is asked at most twice for each call, in each of
/// `(n + 1) * (n + 1)` imports, where n is how many `@`s the formula has.
pub fn export_counted<K: Asks<L>, L>(
    alloc: Global,
    node: &mut Node,
    add: bool,
    kinds: &K,
    rule: ImportRule,
    steps: &mut Steps<L>,
) -> Result<(), Memory>
    requires own_import { ComesBack rule (K.table kinds.now) add (tree_of node.old) (tree_of node.old) }
    requires countable { size_of (tree_of node.old) < 2 ^ 64 }
    ensures ok { OnOk result (Exported (import_rule rule (K.table kinds.now)) add (tree_of node.old) (tree_of node.new)) }
    ensures memory { OnErr result (node.new ≡ node.old) }
    ensures counted { steps.new ≤ steps.old + 2 * calls_of (tree_of node.old) * (ats_of (tree_of node.old) + 1) * (ats_of (tree_of node.old) + 1) }
{
    let export = exported(alloc, node, add, kinds, rule, steps)?;
    *node = export;
    Ok(())
}

/// The same as a new formula, which leaves the given one as it is.
#[tactic(auto, using(crate::proofs::Exports::exports))]
pub fn exported<K: Asks<L>, L>(
    alloc: Global,
    node: &Node,
    add: bool,
    kinds: &K,
    rule: ImportRule,
    steps: &mut Steps<L>,
) -> Result<Node, Memory>
    requires own_import { ComesBack rule (K.table kinds.now) add (tree_of node.now) (tree_of node.now) }
    requires countable { size_of (tree_of node.now) < 2 ^ 64 }
    ensures ok { IfOk result (λ export. Exported (import_rule rule (K.table kinds.now)) add (tree_of node.now) (tree_of export)) }
    ensures counted { steps.new ≤ steps.old + 2 * calls_of (tree_of node.now) * (ats_of (tree_of node.now) + 1) * (ats_of (tree_of node.now) + 1) }
{
    if node.at_count() == 0 {
        let copy = node.try_clone(alloc)?;
        return Ok(copy);
    }
    let mut mark = marks_of(alloc, node, kinds, rule, steps)?;
    begin(&mut mark, node, add, kinds, rule, steps);
    let places = candidates(alloc, &mark, add, kinds, rule)?;
    drop_what_can(&mut mark, places.as_slice(), add, rule, kinds, steps);
    let export = left_of(alloc, node, &mark)?;
    Ok(export)
}

/// All `@`s that import put are dropped at once, if the formula comes back then.
fn begin<K: Asks<L>, L>(
    mark: &mut Mark,
    import: &Node,
    add: bool,
    kinds: &K,
    rule: ImportRule,
    steps: &mut Steps<L>,
)
    requires own_import { ComesBack rule (K.table kinds.now) add (tree_of import.now) (tree_of import.now) }
    requires told { mark.old ≡ marks rule (K.table kinds.now) (tree_of import.now) (tree_of import.now) }
    ensures first { IsFirst rule (K.table kinds.now) add (tree_of import.now) mark.new }
    ensures counted { steps.new ≤ steps.old + 2 * calls_of (tree_of import.now) }
{
    leave_out_put(mark, import, kinds, steps);
    let back = comes_back(mark, import, add, rule, kinds);
    if !back {
        put_again(mark, import, kinds, steps);
    }
}
