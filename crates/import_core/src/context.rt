ghost use Rattle.std.specs.Prelude.{◌≡◌, ◌&&◌, not};
ghost use Rattle.kind_table.specs.Table.{Table};
ghost use Rattle.tree_core.specs.Formula.{tree_of};
ghost use Rattle.tree_core.specs.Tree.{label_of};
ghost use Rattle.tree_core.specs.View.{closed_in, leaf_in};
ghost use Rattle.import_core.specs.After.{binds, is_large, is_range_like_leaf, is_range_operator, may_be_range_like, signature_of, takes_every, wants_argument};

use crate::range_text::is_range_reference;
use crate::rule::ImportRule;
use kind_table::{Kinds, Signature, StaticResult, own_signature};
use tree_core::{Closed, Function, Leaf, Node, View};

/// Whether a shape may be that of many values.
pub(crate) fn is_large(shape: StaticResult) -> bool
    ensures { result ≡ is_large shape }
{
    match shape {
        StaticResult::Scalar | StaticResult::Array(..) => false,
        StaticResult::Range(..) | StaticResult::Unknown => true,
    }
}

/// LET and LAMBDA, which bind names.
pub(crate) fn binds(kind: Function) -> bool
    ensures { result ≡ binds kind }
{
    kind == Function::Let || kind == Function::Lambda
}

/// Whether a call that has this shape may stand for many values, and import may put an `@` over it.
pub fn is_range_like_call(kind: Function, shape: StaticResult) -> bool
    ensures { result ≡ (not (binds kind) && is_large shape) }
{
    !binds(kind) && is_large(shape)
}

/// Whether one value is wanted of one of so many arguments, by its number from 0 and by its given shape.
pub fn wants_one<K: Kinds>(
    kinds: &K,
    rule: ImportRule,
    kind: Function,
    count: usize,
    index: usize,
    given: StaticResult,
) -> bool
    ensures { result ≡ wants_argument rule (K.table kinds.now) kind count index given }
{
    let scalar = match signature_of(kinds, kind, count, index) {
        Signature::Scalar => true,
        Signature::Vector | Signature::Error => false,
    };
    scalar && (takes_every(rule, kind) || is_large(given))
}

fn takes_every(rule: ImportRule, kind: Function) -> bool
    ensures { result ≡ takes_every rule kind }
{
    match rule {
        ImportRule::AsCrate => false,
        ImportRule::EveryScalar => !binds(kind),
    }
}

fn signature_of<K: Kinds>(kinds: &K, kind: Function, count: usize, index: usize) -> Signature
    ensures { result ≡ signature_of (K.table kinds.now) kind count index }
{
    match kind {
        Function::Other(id) => kinds.signature(id, count, index),
        _ => own_signature(kind, count, index),
    }
}

/// Whether import may put an `@` over a formula, or over the node under its `@`s.
#[tactic(auto, using(crate::proofs::Classes::labels))]
pub fn may_be_range_like(node: &Node) -> bool
    ensures { result ≡ may_be_range_like (label_of (tree_of node.now)) }
{
    match node.view() {
        View::Leaf(leaf) => is_range_like_leaf(leaf),
        View::Closed(closed) => is_range_operator(closed),
        View::Call { kind, .. } => !binds(kind),
        View::Intersection { child, .. } => may_be_range_like(child),
        View::Unary { .. } | View::Binary { .. } | View::Spill { .. } => false,
    }
}

/// Whether a node without children may stand for many values.
pub fn is_range_like_leaf(leaf: Leaf) -> bool
    ensures { result ≡ is_range_like_leaf (leaf_in leaf.entry) }
{
    match leaf {
        Leaf::Range { .. } | Leaf::Variable { .. } => true,
        Leaf::DefinedName(name) => is_range_reference(name.2.as_str()),
        Leaf::Boolean(_)
        | Leaf::Number(_)
        | Leaf::Text(_)
        | Leaf::Error(_)
        | Leaf::Empty
        | Leaf::Reference { .. }
        | Leaf::WrongReference { .. }
        | Leaf::WrongRange { .. }
        | Leaf::Array(_)
        | Leaf::TableName(_)
        | Leaf::ParseError { .. } => false,
    }
}

pub fn is_range_operator(closed: Closed) -> bool
    ensures { result ≡ is_range_operator (closed_in closed.entry) }
{
    match closed {
        Closed::RangeOperator { .. } => true,
        Closed::NamedCall { .. } | Closed::Lambda { .. } | Closed::LambdaCall { .. } => false,
    }
}
