ghost use Rattle.std.specs.Prelude.{◌≡◌, ◌<◌, ◌+◌, ◌^◌};
ghost use Rattle.tree_core.specs.Count.{size_of};
ghost use Rattle.tree_core.specs.Formula.{tree_of};
ghost use Rattle.tree_core.specs.Preorder.{nodes};
ghost use Rattle.validity_core.specs.Good.{is_bad};
ghost use Rattle.validity_core.specs.Place.{passed};

use crate::good::is_bad;
use kind_table::Kinds;
use tree_core::Node;

/// The number after that of the last node of a formula whose root has a number, where none is bad; else the first bad one.
#[tactic(auto, using(crate::proofs::Passes::passes))]
pub(crate) fn scan<K: Kinds>(
    kinds: &K,
    sheets: u32,
    node: &Node,
    number: usize,
) -> Result<usize, usize>
    requires { number + size_of (tree_of node.now) < 2 ^ 64 }
    ensures { result ≡ passed (is_bad (K.table kinds.now) sheets) number (nodes (tree_of node.now)) }
{
    let view = node.view();
    if is_bad(kinds, sheets, view) {
        return Err(number);
    }
    let mut next = number + 1;
    for index in 0..view.part_count() {
        next = scan(kinds, sheets, view.part(index), next)?;
    }
    Ok(next)
}
