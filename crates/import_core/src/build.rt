//! The imported formula, by what was decided.
ghost use Rattle.std.specs.Prelude.{◌≡◌, ◌&&◌, [], ◌∷◌, ◌+◌, ◌<◌, ◌≤◌, ◌^◌, true, not, if◌then◌else◌, IfOk, length, map};
ghost use Rattle.tree_core.specs.Formula.{tree_of, one, between};
ghost use Rattle.tree_core.specs.Label.{passing, unary, spill, call};
ghost use Rattle.tree_core.specs.Tree.{tree, forest, under, run_of};
ghost use Rattle.import_core.specs.Decisions.{StandsAt, argument_decision_count, argument_imports, call_decisions, decision_count, decisions};
ghost use Rattle.import_core.specs.ImportOf.{import_of, is_bare};
ghost use Rattle.import_core.specs.ImportRule.{import_rule};

use crate::context::{is_range_like_leaf, is_range_operator};
use crate::rule::ImportRule;
use kind_table::Kinds;
use std::alloc::Global;
use tree_core::{Function, Memory, Node, Nodes, OpUnary, Operator, View};

/// A formula after import, and the number of the first decision behind those that are of it.
#[derive(Drop)]
pub(crate) struct Built {
    pub(crate) node: Node,
    pub(crate) next: usize,
}

/// So of some formulas.
#[derive(Drop)]
pub(crate) struct BuiltAll {
    pub(crate) nodes: Nodes,
    pub(crate) next: usize,
}

/// The import of a formula, by what was decided of it: that stands from a number on. The table of kinds and the rule are those by
/// which it was decided; the contracts speak of them, and nothing is asked of them.
#[cycle(build)]
#[tactic(auto, using(crate::proofs::Classes::classes, crate::proofs::Builds::builds))]
pub(crate) fn build<K: Kinds>(
    alloc: Global,
    node: &Node,
    add: bool,
    kinds: &K,
    rule: ImportRule,
    decided: &[bool],
    at: usize,
) -> Result<Built, Memory>
    requires start { at ≤ length decided.now }
    requires stands { StandsAt decided.now at (decisions rule (K.table kinds.now) (tree_of node.now)) }
    ensures tree { IfOk result (λ built. tree_of built.node ≡ import_of (import_rule rule (K.table kinds.now)) add (tree_of node.now)) }
    ensures next { IfOk result (λ built. built.next ≡ at + length (decisions rule (K.table kinds.now) (tree_of node.now))) }
    ensures within { IfOk result (λ built. built.next ≤ length decided.now) }
{
    match node.view() {
        View::Leaf(leaf) => {
            let built = build_whole(alloc, node, add && is_range_like_leaf(leaf), at)?;
            Ok(built)
        }
        View::Closed(closed) => {
            let built = build_whole(alloc, node, add && is_range_operator(closed), at)?;
            Ok(built)
        }
        View::Unary { kind, right } => {
            let right = build(alloc, right, add, kinds, rule, decided, at)?;
            let built = unary(alloc, kind, right)?;
            Ok(built)
        }
        View::Binary {
            operator,
            left,
            right,
        } => {
            let left = build(alloc, left, add, kinds, rule, decided, at)?;
            let right = build(alloc, right, add, kinds, rule, decided, left.next)?;
            let built = between(alloc, operator, left, right)?;
            Ok(built)
        }
        View::Spill { child } => {
            let child = build(alloc, child, add, kinds, rule, decided, at)?;
            let built = spill(alloc, child)?;
            Ok(built)
        }
        View::Call { kind, args } => {
            let built = build_call(alloc, kind, args, add, kinds, rule, decided, at)?;
            Ok(built)
        }
        View::Intersection { child, .. } => {
            if gives_way(child, add, kinds, rule, decided, at) {
                let built = build(alloc, child, add, kinds, rule, decided, at)?;
                return Ok(built);
            }
            let next = at + decision_count(child);
            let built = build_whole(alloc, node, false, next)?;
            Ok(built)
        }
    }
}

/// A call over its imported arguments.
#[cycle(build)]
fn build_call<K: Kinds>(
    alloc: Global,
    kind: Function,
    args: &Nodes,
    add: bool,
    kinds: &K,
    rule: ImportRule,
    decided: &[bool],
    at: usize,
) -> Result<Built, Memory>
    requires start { at ≤ length decided.now }
    requires stands { StandsAt decided.now at (decisions rule (K.table kinds.now) (tree [] (call kind) (forest (map tree_of args.now)))) }
    ensures tree { IfOk result (λ built. tree_of built.node ≡ import_of (import_rule rule (K.table kinds.now)) add (tree [] (call kind) (forest (map tree_of args.now)))) }
    ensures next { IfOk result (λ built. built.next ≡ at + length (decisions rule (K.table kinds.now) (tree [] (call kind) (forest (map tree_of args.now))))) }
    ensures within { IfOk result (λ built. built.next ≤ length decided.now) }
{
    let like = decided[at];
    let args = build_arguments(alloc, kind, args, kinds, rule, decided, at + 1)?;
    let built = call_over(alloc, kind, args, add, like)?;
    Ok(built)
}

/// The imports of the arguments of a call, each in its context.
#[cycle(build)]
fn build_arguments<K: Kinds>(
    alloc: Global,
    kind: Function,
    args: &Nodes,
    kinds: &K,
    rule: ImportRule,
    decided: &[bool],
    at: usize,
) -> Result<BuiltAll, Memory>
    requires start { at ≤ length decided.now }
    requires stands { StandsAt decided.now at (call_decisions rule (K.table kinds.now) kind (forest (map tree_of args.now))) }
    ensures trees { IfOk result (λ built. map tree_of built.nodes ≡ argument_imports rule (K.table kinds.now) kind args.now) }
    ensures next { IfOk result (λ built. built.next ≡ at + length (call_decisions rule (K.table kinds.now) kind (forest (map tree_of args.now)))) }
    ensures within { IfOk result (λ built. built.next ≤ length decided.now) }
{
    let mut nodes = Nodes::new(alloc);
    let mut next = at;
    for (index, arg) in args.as_slice().iter().enumerate() {
        let built = build(alloc, arg, decided[next], kinds, rule, decided, next + 1)?;
        next = built.next;
        nodes.add(built.node)?;
    }
    Ok(BuiltAll { nodes, next })
}

/// Whether an `@` over a formula gives way to one that is below: to one that is given, or to one that import puts there.
#[tactic(auto, using(crate::proofs::Builds::bares))]
fn gives_way<K: Kinds>(
    child: &Node,
    add: bool,
    kinds: &K,
    rule: ImportRule,
    decided: &[bool],
    at: usize,
) -> bool
    requires { StandsAt decided.now at (decisions rule (K.table kinds.now) (tree_of child.now)) }
    ensures { result ≡ not (is_bare (run_of (import_of (import_rule rule (K.table kinds.now)) add (tree_of child.now)))) }
{
    match child.view() {
        View::Intersection { .. } => true,
        View::Leaf(leaf) => add && is_range_like_leaf(leaf),
        View::Closed(closed) => add && is_range_operator(closed),
        View::Call { .. } => add && decided[at],
        View::Unary { .. } | View::Binary { .. } | View::Spill { .. } => false,
    }
}

/// How many decisions are of a formula.
#[cycle(decision_count)]
#[tactic(auto, using(crate::proofs::Builds::counts))]
fn decision_count(node: &Node) -> usize
    requires { decision_count (tree_of node.now) < 2 ^ 64 }
    ensures { result ≡ decision_count (tree_of node.now) }
{
    match node.view() {
        View::Leaf(_) | View::Closed(_) => 0,
        View::Unary { right: child, .. }
        | View::Spill { child }
        | View::Intersection { child, .. } => decision_count(child),
        View::Binary { left, right, .. } => decision_count(left) + decision_count(right),
        View::Call { args, .. } => argument_decision_count(args) + 1,
    }
}

#[cycle(decision_count)]
#[tactic(auto, using(crate::proofs::Builds::counts))]
fn argument_decision_count(args: &Nodes) -> usize
    requires { argument_decision_count (forest (map tree_of args.now)) < 2 ^ 64 }
    ensures { result ≡ argument_decision_count (forest (map tree_of args.now)) }
{
    let mut count = 0;
    for arg in args.as_slice() {
        count += decision_count(arg) + 1;
    }
    count
}

/// A formula as it is given, under an `@` that import puts or not.
fn build_whole(alloc: Global, node: &Node, put: bool, next: usize) -> Result<Built, Memory>
    ensures tree { IfOk result (λ built. tree_of built.node ≡ (if put then under true (tree_of node.now) else tree_of node.now)) }
    ensures next { IfOk result (λ built. built.next ≡ next) }
{
    let copy = node.try_clone(alloc)?;
    let node = under_if(alloc, put, copy)?;
    Ok(Built { node, next })
}

fn under_if(alloc: Global, put: bool, node: Node) -> Result<Node, Memory>
    ensures { IfOk result (λ over. tree_of over ≡ (if put then under true (tree_of node) else tree_of node)) }
{
    if put {
        Node::intersection(alloc, true, node)
    } else {
        Ok(node)
    }
}

fn unary(alloc: Global, kind: OpUnary, right: Built) -> Result<Built, Memory>
    ensures tree { IfOk result (λ built. tree_of built.node ≡ tree [] (passing (unary kind)) (one (tree_of right.node))) }
    ensures next { IfOk result (λ built. built.next ≡ right.next) }
{
    let next = right.next;
    let node = Node::unary(alloc, kind, right.node)?;
    Ok(Built { node, next })
}

fn between(alloc: Global, operator: Operator, left: Built, right: Built) -> Result<Built, Memory>
    ensures tree { IfOk result (λ built. tree_of built.node ≡ between operator (tree_of left.node) (tree_of right.node)) }
    ensures next { IfOk result (λ built. built.next ≡ right.next) }
{
    let next = right.next;
    let node = Node::binary(alloc, operator, left.node, right.node)?;
    Ok(Built { node, next })
}

fn spill(alloc: Global, child: Built) -> Result<Built, Memory>
    ensures tree { IfOk result (λ built. tree_of built.node ≡ tree [] spill (one (tree_of child.node))) }
    ensures next { IfOk result (λ built. built.next ≡ child.next) }
{
    let next = child.next;
    let node = Node::spill(alloc, child.node)?;
    Ok(Built { node, next })
}

fn call_over(
    alloc: Global,
    kind: Function,
    args: BuiltAll,
    add: bool,
    like: bool,
) -> Result<Built, Memory>
    ensures tree { IfOk result (λ built. tree_of built.node ≡ tree (if add && like then true ∷ [] else []) (call kind) (forest (map tree_of args.nodes))) }
    ensures next { IfOk result (λ built. built.next ≡ args.next) }
{
    let next = args.next;
    let node = under_if(alloc, add && like, Node::call(kind, args.nodes))?;
    Ok(Built { node, next })
}
