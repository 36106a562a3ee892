//! The nodes without children, behind their tags. Those that formulas are mostly made of are read with no JSON value between.
ghost use Rattle.std.specs.Prelude.{ℕ, IfOk};
ghost use Rattle.formula_json.specs.declared.tag.LeafTag.TheVariants.{Boolean, Number, Range, Reference, Text, Variable};
ghost use Rattle.formula_json.specs.declared.tag.Tag.TheVariants.{Leaf};
ghost use Rattle.straight_json.specs.Straight.{IsTagged};

use crate::field::{
    take_corner, take_end, take_i64, take_id, take_name, take_text, take_truth, take_u32,
};
use crate::unread::Unread;
use crate::value::read_items;
use formula_json::LeafTag;
use json::Reader;
use serde_json::Value;
use std::alloc::Global;
use tree_core::Node;

/// A node without children.
pub(crate) fn read_leaf(
    alloc: Global,
    reader: &mut Reader<'_>,
    depth: usize,
    leaf: LeafTag,
) -> Result<Node, Unread>
    ensures { IfOk result (λ node. IsTagged depth (Leaf leaf) reader.old node reader.new) }
{
    match leaf {
        LeafTag::Boolean => read_boolean(reader),
        LeafTag::Number => read_number(reader),
        LeafTag::Text => read_text(alloc, reader),
        LeafTag::Reference => read_reference(alloc, reader),
        LeafTag::Range => read_range(alloc, reader),
        LeafTag::Variable => read_variable(alloc, reader),
        _ => read_other(alloc, reader, depth, leaf),
    }
}

/// The node of any tag, by the JSON values behind it.
fn read_other(
    alloc: Global,
    reader: &mut Reader<'_>,
    depth: usize,
    leaf: LeafTag,
) -> Result<Node, Unread>
    ensures { IfOk result (λ node. IsTagged depth (Leaf leaf) reader.old node reader.new) }
{
    let mut items = read_items(alloc, reader, depth)?;
    // What stands at the place of the tag counts no more.
    items.insert(0, Value::Null)?;
    let node = formula_json::read_leaf(alloc, &items, leaf)?;
    Ok(node)
}

fn read_boolean(reader: &mut Reader<'_>) -> Result<Node, Unread>
    ensures { (depth : ℕ) → IfOk result (λ node. IsTagged depth (Leaf Boolean) reader.old node reader.new) }
{
    let truth = take_truth(reader)?;
    take_end(reader)?;
    Ok(Node::BooleanKind(truth))
}

fn read_number(reader: &mut Reader<'_>) -> Result<Node, Unread>
    ensures { (depth : ℕ) → IfOk result (λ node. IsTagged depth (Leaf Number) reader.old node reader.new) }
{
    let millionths = take_i64(reader)?;
    take_end(reader)?;
    Ok(Node::NumberKind(millionths))
}

fn read_text(alloc: Global, reader: &mut Reader<'_>) -> Result<Node, Unread>
    ensures { (depth : ℕ) → IfOk result (λ node. IsTagged depth (Leaf Text) reader.old node reader.new) }
{
    let text = take_text(alloc, reader)?;
    take_end(reader)?;
    Ok(Node::StringKind(text))
}

fn read_reference(alloc: Global, reader: &mut Reader<'_>) -> Result<Node, Unread>
    ensures { (depth : ℕ) → IfOk result (λ node. IsTagged depth (Leaf Reference) reader.old node reader.new) }
{
    let sheet_index = take_u32(reader)?;
    let sheet_name = take_name(alloc, reader)?;
    let corner = take_corner(reader)?;
    take_end(reader)?;
    Ok(Node::ReferenceKind {
        sheet_name,
        sheet_index,
        absolute_row: corner.absolute_row,
        absolute_column: corner.absolute_column,
        row: corner.row,
        column: corner.column,
    })
}

fn read_range(alloc: Global, reader: &mut Reader<'_>) -> Result<Node, Unread>
    ensures { (depth : ℕ) → IfOk result (λ node. IsTagged depth (Leaf Range) reader.old node reader.new) }
{
    let sheet_index = take_u32(reader)?;
    let sheet_name = take_name(alloc, reader)?;
    let left = take_corner(reader)?;
    let right = take_corner(reader)?;
    take_end(reader)?;
    Ok(Node::RangeKind {
        sheet_name,
        sheet_index,
        absolute_row1: left.absolute_row,
        absolute_column1: left.absolute_column,
        row1: left.row,
        column1: left.column,
        absolute_row2: right.absolute_row,
        absolute_column2: right.absolute_column,
        row2: right.row,
        column2: right.column,
    })
}

fn read_variable(alloc: Global, reader: &mut Reader<'_>) -> Result<Node, Unread>
    ensures { (depth : ℕ) → IfOk result (λ node. IsTagged depth (Leaf Variable) reader.old node reader.new) }
{
    let name = take_text(alloc, reader)?;
    let id = take_id(reader)?;
    take_end(reader)?;
    Ok(Node::NamedVariableKind { name, id })
}
