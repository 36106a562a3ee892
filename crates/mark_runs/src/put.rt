ghost use Rattle.std.specs.Prelude.{◌≡◌, ◌+◌, ◌≤◌};
ghost use Rattle.tree_core.specs.Formula.{tree_of};
ghost use Rattle.import_core.specs.declared.rule.ImportRule.{ImportRule};
ghost use Rattle.mark_core.specs.Mark.{calls_in};
ghost use Rattle.import_marks.specs.Marks.{marks};
ghost use Rattle.mark_return.specs.Put.{without_put};

use crate::turn::turn;
use kind_table::Asks;
use mark_core::Mark;
use tree_core::{Node, Steps};

/// From the marks of an imported formula, beside itself, to those of the formula without the `@`s that import put. The table is
/// asked at most once for each call.
pub fn leave_out_put<K: Asks<L>, L>(mark: &mut Mark, import: &Node, kinds: &K, steps: &mut Steps<L>)
    ensures told { (which : ImportRule) → mark.old ≡ marks which (K.table kinds.now) (tree_of import.now) (tree_of import.now) → mark.new ≡ marks which (K.table kinds.now) (without_put (tree_of import.now)) (tree_of import.now) }
    ensures counted { steps.new ≤ steps.old + calls_in mark.old }
{
    turn(mark, import, true, kinds, steps);
}

/// Back from the marks of the formula without the `@`s that import put to those of the imported formula. The table is asked at most
/// once for each call.
pub fn put_again<K: Asks<L>, L>(mark: &mut Mark, import: &Node, kinds: &K, steps: &mut Steps<L>)
    ensures told { (which : ImportRule) → mark.old ≡ marks which (K.table kinds.now) (without_put (tree_of import.now)) (tree_of import.now) → mark.new ≡ marks which (K.table kinds.now) (tree_of import.now) (tree_of import.now) }
    ensures counted { steps.new ≤ steps.old + calls_in mark.old }
{
    turn(mark, import, false, kinds, steps);
}
