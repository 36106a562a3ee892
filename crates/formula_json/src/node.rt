//! A formula, over all its nodes.
//!
//! A reader for a tag takes the whole array, so that a child is always an element of what it was given.
ghost use Rattle.std.specs.Prelude.{map};
ghost use Rattle.serde_json.specs.View.{view};
ghost use Rattle.tree_core.specs.Formula.{tree_of};
ghost use Rattle.tree_core.specs.Label.{passing, unary, binary, spill, closed, range_operator};
ghost use Rattle.tree_core.specs.View.{here_in};
ghost use Rattle.value_json.specs.Piece.{Writes, data_tokens, list_tokens};
ghost use Rattle.value_json.specs.Reading.{GivesBy};
ghost use Rattle.formula_json.specs.Formula.{one_of, two_of, node_of, node_in, node_seen, child_at, arguments_from, call_of, named_call_of, intersection_of, lambda_of, lambda_call_of, node_data, here_own};

use crate::kind::{read_kind, write_kind};
use crate::leaf::{read_leaf, write_leaf};
use crate::tag::{Tag, read_tag, tag_name};
use json::Writer;
use serde_json::Value;
use std::alloc::Global;
use tree_core::{Closed, Memory, Node, Nodes, OpUnary, Operator, View};
use value_json::{
    FormError, begin, check_length, end, read_id, read_item, read_own_text, read_texts, read_truth,
    write_number_or_null, write_texts,
};

/// The formula that a value is.
#[cycle(node)]
#[tactic(auto, unfolding(crate::specs::Formula::node_of))]
pub fn read_node(alloc: Global, value: &Value) -> Result<Node, FormError>
    ensures { GivesBy tree_of result (node_of (view value.now)) }
{
    match value {
        Value::Array(items) => read_tagged(alloc, items),
        _ => Err(FormError::NotOfForm),
    }
}

#[cycle(node)]
#[tactic(auto, unfolding(crate::specs::Formula::node_in, crate::specs::Formula::node_with))]
fn read_tagged(alloc: Global, items: &[Value]) -> Result<Node, FormError>
    ensures { GivesBy tree_of result (node_in (map view items.now) (map node_seen items.now)) }
{
    match read_tag(items, 0)? {
        Tag::Leaf(leaf) => read_leaf(alloc, items, leaf),
        Tag::RangeOperator => read_range_operator(alloc, items),
        Tag::Binary(operator) => read_binary(alloc, items, operator),
        Tag::Unary(kind) => read_unary(alloc, items, kind),
        Tag::Spill => read_spill(alloc, items),
        Tag::Call => read_call(alloc, items),
        Tag::NamedCall => read_named_call(alloc, items),
        Tag::Intersection => read_intersection(alloc, items),
        Tag::Lambda => read_lambda(alloc, items),
        Tag::LambdaCall => read_lambda_call(alloc, items),
    }
}

#[cycle(node)]
#[tactic(auto, unfolding(crate::specs::Formula::child_at))]
fn read_child(alloc: Global, items: &[Value], place: usize) -> Result<Node, FormError>
    ensures { GivesBy tree_of result (child_at place (map node_seen items.now)) }
{
    if place < items.len() {
        let node = read_node(alloc, &items[place])?;
        Ok(node)
    } else {
        Err(FormError::NotOfForm)
    }
}

#[cycle(node)]
#[tactic(auto, using(value_json::proofs::Traversal::appended), unfolding(crate::specs::Formula::arguments_from))]
fn read_arguments(alloc: Global, items: &[Value], from: usize) -> Result<Nodes, FormError>
    ensures { GivesBy (map tree_of) result (arguments_from from (map node_seen items.now)) }
{
    let mut arguments = Nodes::new(alloc);
    for index in from..items.len() {
        let argument = read_node(alloc, &items[index])?;
        arguments.add(argument)?;
    }
    Ok(arguments)
}

#[cycle(node)]
#[tactic(auto, unfolding(crate::specs::Formula::two_of))]
fn read_binary(alloc: Global, items: &[Value], operator: Operator) -> Result<Node, FormError>
    ensures { GivesBy tree_of result (two_of (passing (binary operator)) (map view items.now) (map node_seen items.now)) }
{
    check_length(items, 3)?;
    let left = read_child(alloc, items, 1)?;
    let right = read_child(alloc, items, 2)?;
    let node = Node::binary(alloc, operator, left, right)?;
    Ok(node)
}

#[cycle(node)]
#[tactic(auto, unfolding(crate::specs::Formula::two_of))]
fn read_range_operator(alloc: Global, items: &[Value]) -> Result<Node, FormError>
    ensures { GivesBy tree_of result (two_of (closed range_operator) (map view items.now) (map node_seen items.now)) }
{
    check_length(items, 3)?;
    let left = read_child(alloc, items, 1)?;
    let right = read_child(alloc, items, 2)?;
    let node = Node::range_operator(alloc, left, right)?;
    Ok(node)
}

#[cycle(node)]
#[tactic(auto, unfolding(crate::specs::Formula::one_of))]
fn read_unary(alloc: Global, items: &[Value], kind: OpUnary) -> Result<Node, FormError>
    ensures { GivesBy tree_of result (one_of (passing (unary kind)) (map view items.now) (map node_seen items.now)) }
{
    check_length(items, 2)?;
    let child = read_child(alloc, items, 1)?;
    let node = Node::unary(alloc, kind, child)?;
    Ok(node)
}

#[cycle(node)]
#[tactic(auto, unfolding(crate::specs::Formula::one_of))]
fn read_spill(alloc: Global, items: &[Value]) -> Result<Node, FormError>
    ensures { GivesBy tree_of result (one_of spill (map view items.now) (map node_seen items.now)) }
{
    check_length(items, 2)?;
    let child = read_child(alloc, items, 1)?;
    let node = Node::spill(alloc, child)?;
    Ok(node)
}

#[cycle(node)]
#[tactic(auto, unfolding(crate::specs::Formula::call_of))]
fn read_call(alloc: Global, items: &[Value]) -> Result<Node, FormError>
    ensures { GivesBy tree_of result (call_of (map view items.now) (map node_seen items.now)) }
{
    let kind = read_kind(items, 1)?;
    let args = read_arguments(alloc, items, 2)?;
    Ok(Node::call(kind, args))
}

#[cycle(node)]
#[tactic(auto, unfolding(crate::specs::Formula::named_call_of))]
fn read_named_call(alloc: Global, items: &[Value]) -> Result<Node, FormError>
    ensures { GivesBy tree_of result (named_call_of (map view items.now) (map node_seen items.now)) }
{
    let name = read_own_text(alloc, items, 1)?;
    let id = read_id(items, 2)?;
    let args = read_arguments(alloc, items, 3)?;
    Ok(Node::named_call(name, id, args))
}

#[cycle(node)]
#[tactic(auto, unfolding(crate::specs::Formula::intersection_of))]
fn read_intersection(alloc: Global, items: &[Value]) -> Result<Node, FormError>
    ensures { GivesBy tree_of result (intersection_of (map view items.now) (map node_seen items.now)) }
{
    check_length(items, 3)?;
    let automatic = read_truth(items, 1)?;
    let child = read_child(alloc, items, 2)?;
    let node = Node::intersection(alloc, automatic, child)?;
    Ok(node)
}

#[cycle(node)]
#[tactic(auto, unfolding(crate::specs::Formula::lambda_of))]
fn read_lambda(alloc: Global, items: &[Value]) -> Result<Node, FormError>
    ensures { GivesBy tree_of result (lambda_of (map view items.now) (map node_seen items.now)) }
{
    check_length(items, 3)?;
    let parameters = read_texts(alloc, read_item(items, 1)?)?;
    let body = read_child(alloc, items, 2)?;
    let node = Node::lambda(alloc, parameters, body)?;
    Ok(node)
}

#[cycle(node)]
#[tactic(auto, unfolding(crate::specs::Formula::lambda_call_of))]
fn read_lambda_call(alloc: Global, items: &[Value]) -> Result<Node, FormError>
    ensures { GivesBy tree_of result (lambda_call_of (map node_seen items.now)) }
{
    let lambda = read_child(alloc, items, 1)?;
    let args = read_arguments(alloc, items, 2)?;
    let node = Node::lambda_call(alloc, lambda, args)?;
    Ok(node)
}

/// Writes the JSON form of a formula: each node is an array of its tag, of what is its own, and of its parts.
pub fn write_node(writer: &mut Writer, node: &Node) -> Result<(), Memory>
    ensures { Writes result writer.old writer.new (data_tokens (node_data node.now)) }
{
    let view = node.view();
    begin(writer, tag_name(view))?;
    write_own(writer, view)?;
    for index in 0..view.part_count() {
        write_node(writer, view.part(index))?;
    }
    end(writer)?;
    Ok(())
}

/// Writes what stands at a node besides its tag and its parts.
fn write_own(writer: &mut Writer, view: View) -> Result<(), Memory>
    ensures { Writes result writer.old writer.new (list_tokens (here_own (here_in view.entry))) }
{
    match view {
        View::Leaf(leaf) => write_leaf(writer, leaf)?,
        View::Closed(Closed::NamedCall { name, id, .. }) => {
            writer.string(name.as_str())?;
            write_number_or_null(writer, id)?;
        }
        View::Closed(Closed::Lambda { parameters, .. }) => write_texts(writer, parameters)?,
        View::Call { kind, .. } => write_kind(writer, kind)?,
        View::Intersection { automatic, .. } => writer.boolean(automatic)?,
        View::Closed(Closed::RangeOperator { .. })
        | View::Closed(Closed::LambdaCall { .. })
        | View::Unary { .. }
        | View::Binary { .. }
        | View::Spill { .. } => {}
    }
    Ok(())
}
