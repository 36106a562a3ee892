ghost use Rattle.std.specs.Prelude.{◌≡◌, map};
ghost use Rattle.tree_core.specs.Formula.{tree_of};
ghost use Rattle.tree_core.specs.Tree.{forest};
ghost use Rattle.tree_core.specs.View.{leaf_in};
ghost use Rattle.nest_core.specs.Plain.{are_arguments, arrays_of, is_argument, is_array_leaf, is_bare_literal, is_literal, is_literal_leaf, is_nest_kind, is_plain_nest, is_sequence};

use tree_core::{Function, Leaf, Node, OpUnary, View};

fn is_literal_leaf(leaf: Leaf) -> bool
    ensures { result ≡ is_literal_leaf (leaf_in leaf.entry) }
{
    matches!(
        leaf,
        Leaf::Boolean(_) | Leaf::Number(_) | Leaf::Text(_) | Leaf::Error(_) | Leaf::Empty
    )
}

#[tactic(auto, using(crate::proofs::Plains::plains))]
fn is_bare_literal(node: &Node) -> bool
    ensures { result ≡ is_bare_literal (tree_of node.now) }
{
    match node.view() {
        View::Leaf(leaf) => is_literal_leaf(leaf),
        View::Closed(_)
        | View::Unary { .. }
        | View::Binary { .. }
        | View::Spill { .. }
        | View::Call { .. }
        | View::Intersection { .. } => false,
    }
}

/// Whether a formula is a truth value, a number, a text, an error, a missing argument, or a minus over one of them.
#[tactic(auto, using(crate::proofs::Plains::plains))]
fn is_literal(node: &Node) -> bool
    ensures { result ≡ is_literal (tree_of node.now) }
{
    match node.view() {
        View::Leaf(leaf) => is_literal_leaf(leaf),
        View::Unary {
            kind: OpUnary::Minus,
            right,
        } => is_bare_literal(right),
        View::Unary {
            kind: OpUnary::Percentage,
            ..
        } => false,
        View::Closed(_)
        | View::Binary { .. }
        | View::Spill { .. }
        | View::Call { .. }
        | View::Intersection { .. } => false,
    }
}

fn is_array_leaf(leaf: Leaf) -> bool
    ensures { result ≡ is_array_leaf (leaf_in leaf.entry) }
{
    matches!(leaf, Leaf::Range { .. } | Leaf::Array(_))
}

/// Whether a plain nest may call functions of a kind.
pub fn is_nest_kind(kind: Function) -> bool
    ensures { result ≡ is_nest_kind kind }
{
    match kind {
        Function::Sequence
        | Function::Take
        | Function::Drop
        | Function::Transpose
        | Function::Expand
        | Function::Hstack
        | Function::Vstack
        | Function::Choosecols
        | Function::Chooserows
        | Function::Wrapcols
        | Function::Wraprows => true,
        _ => false,
    }
}

/// Whether a kind is SEQUENCE, which has no array among its arguments.
pub(crate) fn is_sequence(kind: Function) -> bool
    ensures { result ≡ is_sequence kind }
{
    match kind {
        Function::Sequence => true,
        _ => false,
    }
}

/// How many of so many arguments of a call are arrays: the first ones.
pub fn arrays_of(kind: Function, count: usize) -> usize
    ensures { result ≡ arrays_of kind count }
{
    match kind {
        Function::Sequence => 0,
        Function::Hstack | Function::Vstack => count,
        _ => 1,
    }
}

/// Whether a formula is a plain nest: a range, an array literal, or a call of SEQUENCE, TAKE, DROP, TRANSPOSE, EXPAND, HSTACK,
/// VSTACK, CHOOSECOLS, CHOOSEROWS, WRAPCOLS or WRAPROWS whose arrays are plain nests and whose other arguments are literals:
/// truth values, numbers, texts, errors, missing arguments, or a minus over one of these. All arguments of HSTACK and VSTACK
/// are arrays, none of SEQUENCE, and the first one of the others. No `@` and no reference to a single cell stands in it. It
/// takes no memory.
#[cycle(plain)]
#[tactic(auto, using(crate::proofs::Plains::plains))]
pub fn is_plain_nest(node: &Node) -> bool
    ensures { result ≡ is_plain_nest (tree_of node.now) }
{
    match node.view() {
        View::Leaf(leaf) => is_array_leaf(leaf),
        View::Call { kind, args } => {
            if is_nest_kind(kind) {
                are_arguments(arrays_of(kind, args.len()), args.as_slice())
            } else {
                false
            }
        }
        View::Closed(_)
        | View::Unary { .. }
        | View::Binary { .. }
        | View::Spill { .. }
        | View::Intersection { .. } => false,
    }
}

/// Whether the first so many of some formulas are plain nests, and those behind them literals.
#[cycle(plain)]
#[tactic(auto, using(crate::proofs::Plains::plains))]
fn are_arguments(arrays: usize, nodes: &[Node]) -> bool
    ensures { result ≡ are_arguments (forest (map tree_of nodes.now)) arrays }
{
    for (index, node) in nodes.iter().enumerate() {
        if !is_argument(index < arrays, node) {
            return false;
        }
    }
    true
}

#[cycle(plain)]
fn is_argument(among_arrays: bool, node: &Node) -> bool
    ensures { result ≡ is_argument among_arrays (tree_of node.now) }
{
    if among_arrays {
        is_plain_nest(node)
    } else {
        is_literal(node)
    }
}
