ghost use Rattle.std.specs.Prelude.{◌≡◌, ◌&&◌, map, slice_get};
ghost use Rattle.kind_table.specs.OwnRow.{own_row, shows_of};
ghost use Rattle.tree_core.specs.Formula.{tree_of, bare_leaf};
ghost use Rattle.tree_core.specs.Tree.{forest};
ghost use Rattle.tree_core.specs.View.{leaf_in};
ghost use Rattle.shape_core.specs.Shape.{same_flag, same_line, shown, shown_all};

use kind_table::{Shown, Shows, StaticResult, own_row};
use tree_core::{Function, Leaf, Node, Nodes, View};

/// The shape of a call of an own kind, by what its arguments show of themselves and by the shape of each, in their order.
/// `Unknown` for `Other`.
pub fn own_shape(kind: Function, args: &Nodes, shapes: &[StaticResult]) -> StaticResult
    ensures { result ≡ own_row kind (shown_all (forest (map tree_of args.now))) shapes.now }
{
    own_row(kind, shows_of(args), shapes)
}

#[tactic(auto, using(crate::proofs::Rows::rows))]
fn shows_of(args: &Nodes) -> Shows
    ensures { result ≡ shows_of (shown_all (forest (map tree_of args.now))) }
{
    Shows {
        count: args.len(),
        first: shown_at(args, 0),
        fourth: shown_at(args, 3),
        fifth: shown_at(args, 4),
    }
}

#[tactic(auto, using(crate::proofs::Rows::rows))]
fn shown_at(args: &Nodes, index: usize) -> Option<Shown>
    ensures { result ≡ slice_get (shown_all (forest (map tree_of args.now))) index }
{
    match args.get(index) {
        Some(node) => Some(shown(node)),
        None => None,
    }
}

/// What an argument shows of itself.
fn shown(node: &Node) -> Shown
    ensures { result ≡ shown (tree_of node.now) }
{
    match node.view() {
        View::Leaf(leaf) => shown_leaf(leaf),
        _ => Shown::Nothing,
    }
}

/// What a bare node without children shows of itself.
pub fn shown_leaf(leaf: Leaf) -> Shown
    ensures { result ≡ shown (bare_leaf (leaf_in leaf.entry)) }
{
    match leaf {
        Leaf::Number(1000000) => Shown::One,
        Leaf::Reference { .. } => Shown::Reference,
        Leaf::Range { left, right, .. } => Shown::Range {
            same_row: is_line(left.absolute_row, right.absolute_row, left.row, right.row),
            same_column: is_line(
                left.absolute_column,
                right.absolute_column,
                left.column,
                right.column,
            ),
        },
        _ => Shown::Nothing,
    }
}

/// Whether two ends lie in one row or column.
fn is_line(absolute1: bool, absolute2: bool, first: i32, last: i32) -> bool
    ensures { result ≡ (same_flag absolute1 absolute2 && same_line first last) }
{
    if absolute1 == absolute2 {
        first <= last && last <= first
    } else {
        false
    }
}
