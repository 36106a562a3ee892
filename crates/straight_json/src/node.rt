//! A formula: an array, whose first element is the tag of a node. A reader for a tag goes on behind it, to the bracket that
//! closes the array.
ghost use Rattle.std.specs.Prelude.{IfOk};
ghost use Rattle.formula_json.specs.declared.tag.Tag.TheVariants.{Binary, Call, Intersection, Lambda, LambdaCall, NamedCall, RangeOperator, Spill, Unary};
ghost use Rattle.straight_json.specs.Straight.{AreNodes, IsNode, IsTagged};

use crate::field::{take_end, take_id, take_kind, take_tag, take_text, take_truth};
use crate::leaf::read_leaf;
use crate::unread::Unread;
use crate::value::read_value;
use formula_json::Tag;
use json::Reader;
use std::alloc::Global;
use tree_core::{Node, Nodes, OpUnary, Operator};
use value_json::read_texts;

/// The formula that the next value is, if arrays and objects nest in it no deeper than that.
#[cycle(node)]
pub fn read_node(alloc: Global, reader: &mut Reader<'_>, depth: usize) -> Result<Node, Unread>
    ensures { IfOk result (λ node. IsNode depth reader.old node reader.new) }
{
    let tag = take_tag(reader)?;
    if depth == 0 {
        return Err(Unread::Other);
    }
    let node = read_tagged(alloc, reader, depth - 1, tag)?;
    Ok(node)
}

#[cycle(node)]
fn read_tagged(
    alloc: Global,
    reader: &mut Reader<'_>,
    depth: usize,
    tag: Tag,
) -> Result<Node, Unread>
    ensures { IfOk result (λ node. IsTagged depth tag reader.old node reader.new) }
{
    match tag {
        Tag::Leaf(leaf) => read_leaf(alloc, reader, depth, leaf),
        Tag::RangeOperator => read_range_operator(alloc, reader, depth),
        Tag::Binary(operator) => read_binary(alloc, reader, depth, operator),
        Tag::Unary(kind) => read_unary(alloc, reader, depth, kind),
        Tag::Spill => read_spill(alloc, reader, depth),
        Tag::Call => read_call(alloc, reader, depth),
        Tag::NamedCall => read_named_call(alloc, reader, depth),
        Tag::Intersection => read_intersection(alloc, reader, depth),
        Tag::Lambda => read_lambda(alloc, reader, depth),
        Tag::LambdaCall => read_lambda_call(alloc, reader, depth),
    }
}

/// The formulas up to the bracket that closes an array.
#[cycle(node)]
fn read_arguments(alloc: Global, reader: &mut Reader<'_>, depth: usize) -> Result<Nodes, Unread>
    ensures { IfOk result (λ arguments. AreNodes depth reader.old arguments reader.new) }
{
    let mut arguments = Nodes::new(alloc);
    'arguments: while !reader.take_end_array() {
        let argument = read_node(alloc, reader, depth)?;
        arguments.add(argument)?;
    }
    Ok(arguments)
}

#[cycle(node)]
fn read_binary(
    alloc: Global,
    reader: &mut Reader<'_>,
    depth: usize,
    operator: Operator,
) -> Result<Node, Unread>
    ensures { IfOk result (λ node. IsTagged depth (Binary operator) reader.old node reader.new) }
{
    let left = read_node(alloc, reader, depth)?;
    let right = read_node(alloc, reader, depth)?;
    take_end(reader)?;
    let node = Node::binary(alloc, operator, left, right)?;
    Ok(node)
}

#[cycle(node)]
fn read_range_operator(alloc: Global, reader: &mut Reader<'_>, depth: usize) -> Result<Node, Unread>
    ensures { IfOk result (λ node. IsTagged depth RangeOperator reader.old node reader.new) }
{
    let left = read_node(alloc, reader, depth)?;
    let right = read_node(alloc, reader, depth)?;
    take_end(reader)?;
    let node = Node::range_operator(alloc, left, right)?;
    Ok(node)
}

#[cycle(node)]
fn read_unary(
    alloc: Global,
    reader: &mut Reader<'_>,
    depth: usize,
    kind: OpUnary,
) -> Result<Node, Unread>
    ensures { IfOk result (λ node. IsTagged depth (Unary kind) reader.old node reader.new) }
{
    let child = read_node(alloc, reader, depth)?;
    take_end(reader)?;
    let node = Node::unary(alloc, kind, child)?;
    Ok(node)
}

#[cycle(node)]
fn read_spill(alloc: Global, reader: &mut Reader<'_>, depth: usize) -> Result<Node, Unread>
    ensures { IfOk result (λ node. IsTagged depth Spill reader.old node reader.new) }
{
    let child = read_node(alloc, reader, depth)?;
    take_end(reader)?;
    let node = Node::spill(alloc, child)?;
    Ok(node)
}

#[cycle(node)]
fn read_call(alloc: Global, reader: &mut Reader<'_>, depth: usize) -> Result<Node, Unread>
    ensures { IfOk result (λ node. IsTagged depth Call reader.old node reader.new) }
{
    let kind = take_kind(reader)?;
    let arguments = read_arguments(alloc, reader, depth)?;
    Ok(Node::call(kind, arguments))
}

#[cycle(node)]
fn read_named_call(alloc: Global, reader: &mut Reader<'_>, depth: usize) -> Result<Node, Unread>
    ensures { IfOk result (λ node. IsTagged depth NamedCall reader.old node reader.new) }
{
    let name = take_text(alloc, reader)?;
    let id = take_id(reader)?;
    let arguments = read_arguments(alloc, reader, depth)?;
    Ok(Node::named_call(name, id, arguments))
}

#[cycle(node)]
fn read_intersection(alloc: Global, reader: &mut Reader<'_>, depth: usize) -> Result<Node, Unread>
    ensures { IfOk result (λ node. IsTagged depth Intersection reader.old node reader.new) }
{
    let automatic = take_truth(reader)?;
    let child = read_node(alloc, reader, depth)?;
    take_end(reader)?;
    let node = Node::intersection(alloc, automatic, child)?;
    Ok(node)
}

#[cycle(node)]
fn read_lambda(alloc: Global, reader: &mut Reader<'_>, depth: usize) -> Result<Node, Unread>
    ensures { IfOk result (λ node. IsTagged depth Lambda reader.old node reader.new) }
{
    let value = read_value(alloc, reader, depth)?;
    let parameters = read_texts(alloc, &value)?;
    let body = read_node(alloc, reader, depth)?;
    take_end(reader)?;
    let node = Node::lambda(alloc, parameters, body)?;
    Ok(node)
}

#[cycle(node)]
fn read_lambda_call(alloc: Global, reader: &mut Reader<'_>, depth: usize) -> Result<Node, Unread>
    ensures { IfOk result (λ node. IsTagged depth LambdaCall reader.old node reader.new) }
{
    let lambda = read_node(alloc, reader, depth)?;
    let arguments = read_arguments(alloc, reader, depth)?;
    let node = Node::lambda_call(alloc, lambda, arguments)?;
    Ok(node)
}
