ghost use Rattle.std.specs.Prelude.{◌≡◌, [], IfOk, map};
ghost use Rattle.tree_core.specs.Formula.{tree_of, between};
ghost use Rattle.tree_core.specs.Label.{closed};
ghost use Rattle.tree_core.specs.Tree.{tree, forest};
ghost use Rattle.tree_core.specs.View.{closed_in, closed_parts};

use crate::node::{Node, Nodes};
use crate::view::{Closed, View};
use own_items::Items;
use std::alloc::Global;
use value_core::{Memory, Operator};

impl Node {
    /// An equal formula.
    #[cycle(clones)]
    #[tactic(auto, using(crate::proofs::Readback::one_tree))]
    pub fn try_clone(&self, alloc: Global) -> Result<Node, Memory>
        ensures { IfOk result (λ copy. copy ≡ self.now) }
    {
        match self.view() {
            View::Leaf(leaf) => leaf.to_node(alloc),
            View::Closed(closed) => clone_closed(alloc, closed),
            View::Unary { kind, right } => Node::unary(alloc, kind, right.try_clone(alloc)?),
            View::Binary {
                operator,
                left,
                right,
            } => clone_binary(alloc, operator, left, right),
            View::Spill { child } => Node::spill(alloc, child.try_clone(alloc)?),
            View::Call { kind, args } => Ok(Node::call(kind, clone_nodes(alloc, args)?)),
            View::Intersection { automatic, child } => {
                Node::intersection(alloc, automatic, child.try_clone(alloc)?)
            }
        }
    }
}

#[cycle(clones)]
fn clone_binary(
    alloc: Global,
    operator: Operator,
    left: &Node,
    right: &Node,
) -> Result<Node, Memory>
    ensures { IfOk result (λ copy. tree_of copy ≡ between operator (tree_of left.now) (tree_of right.now)) }
{
    let left = left.try_clone(alloc)?;
    let right = right.try_clone(alloc)?;
    Node::binary(alloc, operator, left, right)
}

#[cycle(clones)]
fn clone_closed(alloc: Global, node: Closed) -> Result<Node, Memory>
    ensures { IfOk result (λ copy. tree_of copy ≡ tree [] (closed (closed_in node.entry)) (forest (map tree_of (closed_parts node.entry)))) }
{
    match node {
        Closed::RangeOperator { left, right } => {
            let left = left.try_clone(alloc)?;
            let right = right.try_clone(alloc)?;
            Node::range_operator(alloc, left, right)
        }
        Closed::NamedCall { name, id, args } => {
            let name = name.try_clone(alloc)?;
            let args = clone_nodes(alloc, args)?;
            Ok(Node::named_call(name, id, args))
        }
        Closed::Lambda { parameters, body } => {
            let parameters = parameters.try_clone(alloc)?;
            let body = body.try_clone(alloc)?;
            Node::lambda(alloc, parameters, body)
        }
        Closed::LambdaCall { lambda, args } => {
            let lambda = lambda.try_clone(alloc)?;
            let args = clone_nodes(alloc, args)?;
            Node::lambda_call(alloc, lambda, args)
        }
    }
}

/// Equal formulas, in their order.
#[cycle(clones)]
pub fn clone_nodes(alloc: Global, nodes: &Nodes) -> Result<Nodes, Memory>
    ensures { IfOk result (λ copy. copy ≡ nodes.now) }
{
    let mut copy = Items::new(alloc);
    for (index, node) in nodes.as_slice().iter().enumerate() {
        let node = node.try_clone(alloc)?;
        copy.add(node)?;
    }
    Ok(copy)
}
