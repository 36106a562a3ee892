//! Whether two formulas are one, with or without the flags of their `@`s.
ghost use Rattle.std.specs.Prelude.{◌≡◌, ◌↔◌, IsTrue};
ghost use Rattle.tree_core.specs.Flags.{Alike, told, told_here};
ghost use Rattle.tree_core.specs.Formula.{tree_of};
ghost use Rattle.tree_core.specs.View.{closed_in, here_in, leaf_in};

use crate::node::Node;
use crate::view::{Closed, Leaf, View};
use value_core::Text;

impl PartialEq for Node {
    ghost use Rattle.own_items.specs.Sameness.{same, same-laws};
    ghost use Rattle.tree_core.specs.contracts.node.Node.{the_row};

    ghost eq = { same the_row.coded };

    ghost laws = { same-laws the_row.coded };

    /// Whether the two formulas are one, the flags of their `@`s included.
    fn eq(&self, other: &Node) -> bool
        ensures same_value { IsTrue result ↔ (self.now ≡ other.now) }
        ensures same_code { result ≡ same the_row.coded self.now other.now }
    {
        is(self, other)
    }
}

impl Node {
    /// Whether the formulas are one but for the flags of their `@`s.
    #[tactic(auto, using(crate::proofs::Told::told_alike))]
    pub fn same_but_flags(&self, other: &Node) -> bool
        ensures { IsTrue result ↔ Alike (tree_of self.now) (tree_of other.now) }
    {
        is_same(self, other, false)
    }
}

#[tactic(auto, using(crate::proofs::Told::told_one))]
fn is(node: &Node, other: &Node) -> bool
    ensures { IsTrue result ↔ (node.now ≡ other.now) }
{
    is_same(node, other, true)
}

/// Whether the formulas are one, with the flags of their `@`s or without.
#[tactic(auto, using(crate::proofs::Told::sames))]
fn is_same(node: &Node, other: &Node, flags: bool) -> bool
    ensures { IsTrue result ↔ (told flags (tree_of node.now) ≡ told flags (tree_of other.now)) }
{
    let view = node.view();
    let other = other.view();
    let count = view.part_count();
    if !is_same_here(view, other, flags) {
        return false;
    }
    if count != other.part_count() {
        return false;
    }
    for index in 0..count {
        if !is_same(view.part(index), other.part(index), flags) {
            return false;
        }
    }
    true
}

/// Whether the same stands at two nodes, their parts aside.
fn is_same_here(view: View, other: View, flags: bool) -> bool
    ensures { IsTrue result ↔ (told_here flags (here_in view.entry) ≡ told_here flags (here_in other.entry)) }
{
    match (view, other) {
        (View::Leaf(leaf), View::Leaf(other)) => is_leaf(leaf, other),
        (View::Closed(closed), View::Closed(other)) => is_closed(closed, other),
        (View::Unary { kind, .. }, View::Unary { kind: other, .. }) => kind == other,
        (
            View::Binary { operator, .. },
            View::Binary {
                operator: other,
                ..
            },
        ) => operator == other,
        (View::Spill { .. }, View::Spill { .. }) => true,
        (View::Call { kind, .. }, View::Call { kind: other, .. }) => kind == other,
        (
            View::Intersection { automatic, .. },
            View::Intersection {
                automatic: other,
                ..
            },
        ) => !flags || automatic == other,
        _ => false,
    }
}

fn is_closed(closed: Closed, other: Closed) -> bool
    ensures { IsTrue result ↔ (closed_in closed.entry ≡ closed_in other.entry) }
{
    match (closed, other) {
        (Closed::RangeOperator { .. }, Closed::RangeOperator { .. })
        | (Closed::LambdaCall { .. }, Closed::LambdaCall { .. }) => true,
        (
            Closed::NamedCall { name, id, .. },
            Closed::NamedCall {
                name: other_name,
                id: other_id,
                ..
            },
        ) => name.is(other_name) && id == other_id,
        (
            Closed::Lambda { parameters, .. },
            Closed::Lambda {
                parameters: other,
                ..
            },
        ) => parameters.is(other),
        _ => false,
    }
}

fn is_leaf(leaf: Leaf, other: Leaf) -> bool
    ensures { IsTrue result ↔ (leaf_in leaf.entry ≡ leaf_in other.entry) }
{
    match (leaf, other) {
        (Leaf::Boolean(value), Leaf::Boolean(other)) => value == other,
        (Leaf::Number(number), Leaf::Number(other)) => number == other,
        (Leaf::Text(text), Leaf::Text(other)) => text.is(other),
        (Leaf::Error(error), Leaf::Error(other)) => error == other,
        (Leaf::Empty, Leaf::Empty) => true,
        (
            Leaf::Reference {
                sheet_name,
                sheet_index,
                corner,
            },
            Leaf::Reference {
                sheet_name: other_name,
                sheet_index: other_index,
                corner: other_corner,
            },
        ) => {
            is_name(sheet_name, other_name) && sheet_index == other_index && corner.is(other_corner)
        }
        (
            Leaf::Range {
                sheet_name,
                sheet_index,
                left,
                right,
            },
            Leaf::Range {
                sheet_name: other_name,
                sheet_index: other_index,
                left: other_left,
                right: other_right,
            },
        ) => {
            is_name(sheet_name, other_name)
                && sheet_index == other_index
                && left.is(other_left)
                && right.is(other_right)
        }
        (
            Leaf::WrongReference { sheet_name, corner },
            Leaf::WrongReference {
                sheet_name: other_name,
                corner: other_corner,
            },
        ) => is_name(sheet_name, other_name) && corner.is(other_corner),
        (
            Leaf::WrongRange {
                sheet_name,
                left,
                right,
            },
            Leaf::WrongRange {
                sheet_name: other_name,
                left: other_left,
                right: other_right,
            },
        ) => is_name(sheet_name, other_name) && left.is(other_left) && right.is(other_right),
        (Leaf::Array(rows), Leaf::Array(other)) => rows.is(other),
        (Leaf::DefinedName(name), Leaf::DefinedName(other)) => name.is(other),
        (Leaf::TableName(name), Leaf::TableName(other)) => name.is(other),
        (
            Leaf::Variable { name, id },
            Leaf::Variable {
                name: other_name,
                id: other_id,
            },
        ) => name.is(other_name) && id == other_id,
        (
            Leaf::ParseError {
                formula,
                message,
                position,
            },
            Leaf::ParseError {
                formula: other_formula,
                message: other_message,
                position: other_position,
            },
        ) => formula.is(other_formula) && message.is(other_message) && position == other_position,
        _ => false,
    }
}

fn is_name(name: &Option<Text>, other: &Option<Text>) -> bool
    ensures { IsTrue result ↔ (name.now ≡ other.now) }
{
    match (name, other) {
        (Some(name), Some(other)) => name.is(other),
        (None, None) => true,
        _ => false,
    }
}
