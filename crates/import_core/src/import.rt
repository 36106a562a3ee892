ghost use Rattle.std.specs.Prelude.{◌≡◌, ◌+◌, ◌*◌, ◌≤◌, IfOk, OnOk, OnErr};
ghost use Rattle.tree_core.specs.Count.{calls_of, size_of};
ghost use Rattle.tree_core.specs.Formula.{tree_of};
ghost use Rattle.import_core.specs.declared.rule.ImportRule.TheVariants.{AsCrate};
ghost use Rattle.import_core.specs.ComesBack.{ComesBack};
ghost use Rattle.import_core.specs.ImportOf.{import_of};
ghost use Rattle.import_core.specs.ImportRule.{import_rule};
ghost use Rattle.import_core.specs.Imported.{Imported};

use crate::build::build;
use crate::decide::decide;
use crate::rule::ImportRule;
use kind_table::Asks;
use std::alloc::Global;
use tree_core::{Memory, Node, Plain, Steps};

/// Puts an automatic `@` over each range-like node where one value is wanted and makes one `@` of each other run of them, at
/// every place that import reaches. `add` says whether one value is wanted of the whole formula. For want of memory the
/// formula stays.
///
/// The imported formula is its own import, and has at most twice as many nodes.
pub fn add_implicit_intersection<K: Asks<Plain>>(
    alloc: Global,
    node: &mut Node,
    add: bool,
    kinds: &K,
) -> Result<(), Memory>
    ensures ok { OnOk result (Imported (import_rule AsCrate (K.table kinds.now)) add (tree_of node.old) (tree_of node.new)) }
    ensures own_import { OnOk result (ComesBack AsCrate (K.table kinds.now) add (tree_of node.new) (tree_of node.new)) }
    ensures size { OnOk result (size_of (tree_of node.new) ≤ 2 * size_of (tree_of node.old)) }
    ensures memory { OnErr result (node.new ≡ node.old) }
{
    let mut steps = Steps::new(Plain);
    import_counted(alloc, node, add, kinds, ImportRule::AsCrate, &mut steps)?;
    Ok(())
}

/// The same by either rule, with a counter of questions to the table: it is asked at most twice for each call.
pub fn import_counted<K: Asks<L>, L>(
    alloc: Global,
    node: &mut Node,
    add: bool,
    kinds: &K,
    rule: ImportRule,
    steps: &mut Steps<L>,
) -> Result<(), Memory>
    ensures ok { OnOk result (Imported (import_rule rule (K.table kinds.now)) add (tree_of node.old) (tree_of node.new)) }
    ensures own_import { OnOk result (ComesBack rule (K.table kinds.now) add (tree_of node.new) (tree_of node.new)) }
    ensures size { OnOk result (size_of (tree_of node.new) ≤ 2 * size_of (tree_of node.old)) }
    ensures memory { OnErr result (node.new ≡ node.old) }
    ensures counted { steps.new ≤ steps.old + 2 * calls_of (tree_of node.old) }
{
    let import = imported(alloc, node, add, kinds, rule, steps)?;
    *node = import;
    Ok(())
}

/// The same as a new formula, which leaves the given one as it is.
pub fn imported<K: Asks<L>, L>(
    alloc: Global,
    node: &Node,
    add: bool,
    kinds: &K,
    rule: ImportRule,
    steps: &mut Steps<L>,
) -> Result<Node, Memory>
    ensures ok { IfOk result (λ import. Imported (import_rule rule (K.table kinds.now)) add (tree_of node.now) (tree_of import)) }
    ensures own_import { IfOk result (λ import. ComesBack rule (K.table kinds.now) add (tree_of import) (tree_of import)) }
    ensures size { IfOk result (λ import. size_of (tree_of import) ≤ 2 * size_of (tree_of node.now)) }
    ensures counted { steps.new ≤ steps.old + 2 * calls_of (tree_of node.now) }
{
    let import = import_of(alloc, node, add, kinds, rule, steps)?;
    Ok(import)
}

/// The same, said of the one formula that it is.
pub fn import_of<K: Asks<L>, L>(
    alloc: Global,
    node: &Node,
    add: bool,
    kinds: &K,
    rule: ImportRule,
    steps: &mut Steps<L>,
) -> Result<Node, Memory>
    ensures tree { IfOk result (λ import. tree_of import ≡ import_of (import_rule rule (K.table kinds.now)) add (tree_of node.now)) }
    ensures counted { steps.new ≤ steps.old + 2 * calls_of (tree_of node.now) }
{
    let mut decided = Vec::new(alloc);
    decide(alloc, node, kinds, rule, &mut decided, steps)?;
    let built = build(alloc, node, add, kinds, rule, decided.as_slice(), 0)?;
    Ok(built.node)
}
