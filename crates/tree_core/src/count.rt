ghost use Rattle.std.specs.Prelude.{◌≡◌, ◌<◌, ◌≤◌, ◌^◌, ◌↔◌, IsTrue};
ghost use Rattle.tree_core.specs.Count.{size_of, calls_of, ats_of, count_of, count_here, IsLeft};
ghost use Rattle.tree_core.specs.Formula.{tree_of};
ghost use Rattle.tree_core.specs.View.{here_in};

use crate::node::Node;
use crate::view::View;

/// What is counted in a formula.
#[derive(Clone, Copy)]
pub(crate) enum Counted {
    Nodes,
    Calls,
    Ats,
}

impl Node {
    /// How many nodes the formula has, its `@`s among them.
    pub fn node_count(&self) -> usize
        requires { size_of (tree_of self.now) < 2 ^ 64 }
        ensures { result ≡ size_of (tree_of self.now) }
    {
        count(self, Counted::Nodes)
    }

    /// How many calls of functions the formula has.
    pub fn call_count(&self) -> usize
        requires { size_of (tree_of self.now) < 2 ^ 64 }
        ensures exact { result ≡ calls_of (tree_of self.now) }
        ensures within { result ≤ size_of (tree_of self.now) }
    {
        count(self, Counted::Calls)
    }

    /// How many `@`s the formula has.
    pub fn at_count(&self) -> usize
        requires { size_of (tree_of self.now) < 2 ^ 64 }
        ensures exact { result ≡ ats_of (tree_of self.now) }
        ensures within { result ≤ size_of (tree_of self.now) }
    {
        count(self, Counted::Ats)
    }

    /// Whether the formula has at most so many nodes, its `@`s among them.
    pub fn has_at_most(&self, most: usize) -> bool
        ensures { IsTrue result ↔ (size_of (tree_of self.now) ≤ most) }
    {
        left_of(self, Counted::Nodes, most).is_some()
    }
}

#[tactic(auto, using(crate::proofs::Counts::within))]
fn count(node: &Node, counted: Counted) -> usize
    requires { size_of (tree_of node.now) < 2 ^ 64 }
    ensures exact { result ≡ count_of counted (tree_of node.now) }
    ensures within { result ≤ size_of (tree_of node.now) }
{
    match left_of(node, counted, usize::MAX) {
        Some(left) => usize::MAX - left,
        None => unreachable!(),
    }
}

/// What is left of a number after what is counted in a formula; `None` exactly where that is more.
#[tactic(auto, using(crate::proofs::Counts::counts))]
fn left_of(node: &Node, counted: Counted, most: usize) -> Option<usize>
    ensures { IsLeft (count_of counted (tree_of node.now)) most result }
{
    let view = node.view();
    let mut left = most.checked_sub(count_here(view, counted))?;
    for index in 0..view.part_count() {
        left = left_of(view.part(index), counted, left)?;
    }
    Some(left)
}

fn count_here(view: View, counted: Counted) -> usize
    ensures { result ≡ count_here counted (here_in view.entry) }
{
    match (counted, view) {
        (Counted::Nodes, _)
        | (Counted::Calls, View::Call { .. })
        | (Counted::Ats, View::Intersection { .. }) => 1,
        _ => 0,
    }
}
