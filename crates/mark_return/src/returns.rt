ghost use Rattle.std.specs.Prelude.{◌≡◌, ◌↔◌, ◌&&◌, false, not, map, IsTrue};
ghost use Rattle.std.specs.Option.{option_copied, option_map_or};
ghost use Rattle.tree_core.specs.Formula.{tree_of};
ghost use Rattle.tree_core.specs.Tree.{forest, run_of};
ghost use Rattle.import_core.specs.ComesBack.{ComesBack};
ghost use Rattle.import_core.specs.ImportOf.{is_bare};
ghost use Rattle.export_marks.specs.Trial.{run_settles};
ghost use Rattle.mark_core.specs.Mark.{known_of, parts_of};
ghost use Rattle.import_marks.specs.Marks.{marks};
ghost use Rattle.mark_return.specs.Put.{without_put};
ghost use Rattle.mark_return.specs.Return.{returns_from, returns_of, returns_part, returns_parts, returns_run};

use import_core::ImportRule;
use kind_table::Kinds;
use mark_core::{Mark, wants_part};
use tree_core::{Node, Nodes, View};

/// Whether an imported formula without the `@`s that import puts comes back: its import is the imported formula, flags aside.
/// The marks are those of the formula without these `@`s. `wanted` says whether one value is wanted of the whole formula.
///
/// No shape is asked of the table, only how calls take their arguments.
pub fn comes_back<K: Kinds>(
    mark: &Mark,
    import: &Node,
    wanted: bool,
    rule: ImportRule,
    kinds: &K,
) -> bool
    requires told { mark.now ≡ marks rule (K.table kinds.now) (without_put (tree_of import.now)) (tree_of import.now) }
    ensures { IsTrue result ↔ ComesBack rule (K.table kinds.now) wanted (tree_of import.now) (without_put (tree_of import.now)) }
{
    returns(mark, import, wanted, rule, kinds)
}

/// Whether a formula comes back, by its marks and by the imported formula.
#[cycle(returns)]
pub(crate) fn returns<K: Kinds>(
    mark: &Mark,
    import: &Node,
    wanted: bool,
    rule: ImportRule,
    kinds: &K,
) -> bool
    ensures { result ≡ returns_of rule (K.table kinds.now) wanted mark.now (tree_of import.now) }
{
    if mark.known.bare {
        let put = wanted && mark.known.range_like;
        return put == is_covered(import) && parts_return(mark, import, wanted, rule, kinds);
    }
    if wanted {
        mark.known.settles
    } else {
        is_merged(import)
    }
}

/// So of the parts of a node, where import enters them.
#[cycle(returns)]
fn parts_return<K: Kinds>(
    mark: &Mark,
    import: &Node,
    wanted: bool,
    rule: ImportRule,
    kinds: &K,
) -> bool
    ensures { result ≡ returns_parts rule (K.table kinds.now) wanted mark.now (tree_of import.now) }
{
    match import.view() {
        View::Leaf(_) | View::Closed(_) => true,
        View::Unary { right, .. } => part_returns(mark, 0, right, wanted, rule, kinds),
        View::Binary { left, right, .. } => {
            part_returns(mark, 0, left, wanted, rule, kinds)
                && part_returns(mark, 1, right, wanted, rule, kinds)
        }
        View::Spill { child } => part_returns(mark, 0, child, wanted, rule, kinds),
        View::Call { args, .. } => arguments_return(mark, args, wanted, rule, kinds),
        View::Intersection { child, .. } => parts_return(mark, child, wanted, rule, kinds),
    }
}

/// So of the arguments of a call.
#[cycle(returns)]
fn arguments_return<K: Kinds>(
    mark: &Mark,
    args: &Nodes,
    wanted: bool,
    rule: ImportRule,
    kinds: &K,
) -> bool
    ensures { result ≡ returns_from rule (K.table kinds.now) wanted mark.now 0 (forest (map tree_of args.now)) }
{
    for (index, arg) in args.as_slice().iter().enumerate() {
        if !part_returns(mark, index, arg, wanted, rule, kinds) {
            return false;
        }
    }
    true
}

/// So of one part, by its number from 0; one without a mark does.
#[cycle(returns)]
fn part_returns<K: Kinds>(
    mark: &Mark,
    index: usize,
    import: &Node,
    wanted: bool,
    rule: ImportRule,
    kinds: &K,
) -> bool
    ensures { result ≡ returns_part rule (K.table kinds.now) wanted mark.now index (tree_of import.now) }
{
    match mark.parts.get(index) {
        None => true,
        Some(part) => {
            let form = mark.known.form;
            let count = mark.parts.len();
            let next = wants_part(form, wanted, count, index, part.known.shape, rule, kinds);
            returns(part, import, next, rule, kinds)
        }
    }
}

/// Whether an `@` stands over a node.
fn is_covered(node: &Node) -> bool
    ensures { result ≡ not (is_bare (run_of (tree_of node.now))) }
{
    matches!(node.view(), View::Intersection { .. })
}

/// Whether no more than one does, as import leaves it.
fn is_merged(node: &Node) -> bool
    ensures { result ≡ run_settles false (run_of (tree_of node.now)) }
{
    match node.view() {
        View::Intersection { child, .. } => !is_covered(child),
        _ => true,
    }
}
