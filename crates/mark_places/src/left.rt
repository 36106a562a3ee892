ghost use Rattle.std.specs.Prelude.{◌≡◌, IfOk, map};
ghost use Rattle.std.specs.Option.{option_copied};
ghost use Rattle.tree_core.specs.Formula.{tree_of};
ghost use Rattle.mark_places.specs.Left.{left_of, left_of_all, left_of_part};

use mark_core::Mark;
use own_items::Items;
use std::alloc::Global;
use tree_core::{Memory, Node, Nodes, View};

/// The formula that marks tell of, from one that has at least its `@`s: those over a node that is marked as bare are left out.
#[cycle(left)]
#[tactic(auto, using(crate::proofs::Lefts::lefts))]
pub fn left_of(alloc: Global, node: &Node, mark: &Mark) -> Result<Node, Memory>
    ensures { IfOk result (λ left. tree_of left ≡ left_of (tree_of node.now) mark.now) }
{
    match node.view() {
        View::Leaf(_) | View::Closed(_) => {
            let copy = node.try_clone(alloc)?;
            Ok(copy)
        }
        View::Unary { kind, right } => {
            let right = left_of_part(alloc, right, mark.parts.get(0))?;
            let left = Node::unary(alloc, kind, right)?;
            Ok(left)
        }
        View::Binary {
            operator,
            left,
            right,
        } => {
            let left = left_of_part(alloc, left, mark.parts.get(0))?;
            let right = left_of_part(alloc, right, mark.parts.get(1))?;
            let left = Node::binary(alloc, operator, left, right)?;
            Ok(left)
        }
        View::Spill { child } => {
            let child = left_of_part(alloc, child, mark.parts.get(0))?;
            let left = Node::spill(alloc, child)?;
            Ok(left)
        }
        View::Call { kind, args } => {
            let args = left_of_all(alloc, args, &mark.parts)?;
            Ok(Node::call(kind, args))
        }
        View::Intersection { automatic, child } => {
            let left = left_of(alloc, child, mark)?;
            if mark.known.bare {
                return Ok(left);
            }
            let left = Node::intersection(alloc, automatic, left)?;
            Ok(left)
        }
    }
}

/// So of a part; one without a mark stays as it is.
#[cycle(left)]
fn left_of_part(alloc: Global, node: &Node, mark: Option<&Mark>) -> Result<Node, Memory>
    ensures { IfOk result (λ left. tree_of left ≡ left_of_part (tree_of node.now) (option_copied mark.entry)) }
{
    match mark {
        None => {
            let copy = node.try_clone(alloc)?;
            Ok(copy)
        }
        Some(mark) => {
            let left = left_of(alloc, node, mark)?;
            Ok(left)
        }
    }
}

/// So of some parts.
#[cycle(left)]
fn left_of_all(alloc: Global, args: &Nodes, marks: &Items<Mark>) -> Result<Nodes, Memory>
    ensures { IfOk result (λ left. map tree_of left ≡ left_of_all (map tree_of args.now) marks.now) }
{
    let mut left = Nodes::new(alloc);
    for (index, arg) in args.as_slice().iter().enumerate() {
        let part = left_of_part(alloc, arg, marks.get(index))?;
        left.add(part)?;
    }
    Ok(left)
}
