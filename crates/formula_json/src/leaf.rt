//! The nodes without children.
ghost use Rattle.std.specs.Prelude.{map, option_map, ◌<◌};
ghost use Rattle.serde_json.specs.View.{view};
ghost use Rattle.value_json.specs.Reading.{Finds, GivesBy};
ghost use Rattle.tree_core.specs.Formula.{bare_leaf, tree_of};
ghost use Rattle.tree_core.specs.View.{leaf_in};
ghost use Rattle.value_json.specs.Piece.{Writes, list_tokens};
ghost use Rattle.formula_json.specs.Leaves.{corner_data, leaf_own};
ghost use Rattle.formula_json.specs.Leaves.{corner_at, boolean_of, number_of, text_of, error_of, empty_of, reference_of, range_of, wrong_reference_of, wrong_range_of, array_of, defined_name_of, table_of, variable_of, parse_error_of, leaf_of};

use crate::tag::LeafTag;
use json::Writer;
use serde_json::Value;
use std::alloc::Global;
use tree_core::{Corner, DefinedNameS, Leaf, Memory, Node};
use value_json::{
    FormError, check_length, read_error, read_i32, read_i64, read_id, read_item, read_name,
    read_own_text, read_rows, read_truth, read_u32, write_number_or_null, write_rows,
    write_text_or_null, write_whole,
};

/// A node without children.
#[tactic(auto, using(tree_core::proofs::Trees::trees), unfolding(crate::specs::Leaves::leaf_of))]
pub fn read_leaf(alloc: Global, items: &[Value], leaf: LeafTag) -> Result<Node, FormError>
    ensures { GivesBy tree_of result (option_map bare_leaf (leaf_of leaf (map view items.now))) }
{
    match leaf {
        LeafTag::Boolean => read_boolean(items),
        LeafTag::Number => read_number(items),
        LeafTag::Text => read_string(alloc, items),
        LeafTag::Error => read_error_value(items),
        LeafTag::Empty => read_empty(items),
        LeafTag::Reference => read_reference(alloc, items),
        LeafTag::Range => read_range(alloc, items),
        LeafTag::WrongReference => read_wrong_reference(alloc, items),
        LeafTag::WrongRange => read_wrong_range(alloc, items),
        LeafTag::Array => read_array_literal(alloc, items),
        LeafTag::DefinedName => read_defined_name(alloc, items),
        LeafTag::Table => read_table(alloc, items),
        LeafTag::Variable => read_variable(alloc, items),
        LeafTag::ParseError => read_parse_error(alloc, items),
    }
}

#[tactic(auto, using(tree_core::proofs::Trees::trees), unfolding(crate::specs::Leaves::boolean_of))]
fn read_boolean(items: &[Value]) -> Result<Node, FormError>
    ensures { GivesBy tree_of result (option_map bare_leaf (boolean_of (map view items.now))) }
{
    check_length(items, 2)?;
    let truth = read_truth(items, 1)?;
    Ok(Node::BooleanKind(truth))
}

/// A number, in millionths.
#[tactic(auto, using(tree_core::proofs::Trees::trees), unfolding(crate::specs::Leaves::number_of))]
fn read_number(items: &[Value]) -> Result<Node, FormError>
    ensures { GivesBy tree_of result (option_map bare_leaf (number_of (map view items.now))) }
{
    check_length(items, 2)?;
    let millionths = read_i64(items, 1)?;
    Ok(Node::NumberKind(millionths))
}

#[tactic(auto, using(tree_core::proofs::Trees::trees), unfolding(crate::specs::Leaves::text_of))]
fn read_string(alloc: Global, items: &[Value]) -> Result<Node, FormError>
    ensures { GivesBy tree_of result (option_map bare_leaf (text_of (map view items.now))) }
{
    check_length(items, 2)?;
    let text = read_own_text(alloc, items, 1)?;
    Ok(Node::StringKind(text))
}

#[tactic(auto, using(tree_core::proofs::Trees::trees), unfolding(crate::specs::Leaves::error_of))]
fn read_error_value(items: &[Value]) -> Result<Node, FormError>
    ensures { GivesBy tree_of result (option_map bare_leaf (error_of (map view items.now))) }
{
    check_length(items, 2)?;
    let error = read_error(items, 1)?;
    Ok(Node::ErrorKind(error))
}

#[tactic(auto, using(tree_core::proofs::Trees::trees), unfolding(crate::specs::Leaves::empty_of))]
fn read_empty(items: &[Value]) -> Result<Node, FormError>
    ensures { GivesBy tree_of result (option_map bare_leaf (empty_of (map view items.now))) }
{
    check_length(items, 1)?;
    Ok(Node::EmptyArgKind)
}

/// A reference to a cell.
#[tactic(auto, using(tree_core::proofs::Trees::trees), unfolding(crate::specs::Leaves::reference_of))]
fn read_reference(alloc: Global, items: &[Value]) -> Result<Node, FormError>
    ensures { GivesBy tree_of result (option_map bare_leaf (reference_of (map view items.now))) }
{
    check_length(items, 7)?;
    let sheet_index = read_u32(items, 1)?;
    let sheet_name = read_name(alloc, items, 2)?;
    let corner = read_corner(items, 3)?;
    Ok(Node::ReferenceKind {
        sheet_name,
        sheet_index,
        absolute_row: corner.absolute_row,
        absolute_column: corner.absolute_column,
        row: corner.row,
        column: corner.column,
    })
}

/// A reference to a range of cells, by two corners.
#[tactic(auto, using(tree_core::proofs::Trees::trees), unfolding(crate::specs::Leaves::range_of))]
fn read_range(alloc: Global, items: &[Value]) -> Result<Node, FormError>
    ensures { GivesBy tree_of result (option_map bare_leaf (range_of (map view items.now))) }
{
    check_length(items, 11)?;
    let sheet_index = read_u32(items, 1)?;
    let sheet_name = read_name(alloc, items, 2)?;
    let left = read_corner(items, 3)?;
    let right = read_corner(items, 7)?;
    Ok(Node::RangeKind {
        sheet_name,
        sheet_index,
        absolute_row1: left.absolute_row,
        absolute_column1: left.absolute_column,
        row1: left.row,
        column1: left.column,
        absolute_row2: right.absolute_row,
        absolute_column2: right.absolute_column,
        row2: right.row,
        column2: right.column,
    })
}

#[tactic(auto, using(tree_core::proofs::Trees::trees), unfolding(crate::specs::Leaves::wrong_reference_of))]
fn read_wrong_reference(alloc: Global, items: &[Value]) -> Result<Node, FormError>
    ensures { GivesBy tree_of result (option_map bare_leaf (wrong_reference_of (map view items.now))) }
{
    check_length(items, 6)?;
    let sheet_name = read_name(alloc, items, 1)?;
    let corner = read_corner(items, 2)?;
    Ok(Node::WrongReferenceKind {
        sheet_name,
        absolute_row: corner.absolute_row,
        absolute_column: corner.absolute_column,
        row: corner.row,
        column: corner.column,
    })
}

#[tactic(auto, using(tree_core::proofs::Trees::trees), unfolding(crate::specs::Leaves::wrong_range_of))]
fn read_wrong_range(alloc: Global, items: &[Value]) -> Result<Node, FormError>
    ensures { GivesBy tree_of result (option_map bare_leaf (wrong_range_of (map view items.now))) }
{
    check_length(items, 10)?;
    let sheet_name = read_name(alloc, items, 1)?;
    let left = read_corner(items, 2)?;
    let right = read_corner(items, 6)?;
    Ok(Node::WrongRangeKind {
        sheet_name,
        absolute_row1: left.absolute_row,
        absolute_column1: left.absolute_column,
        row1: left.row,
        column1: left.column,
        absolute_row2: right.absolute_row,
        absolute_column2: right.absolute_column,
        row2: right.row,
        column2: right.column,
    })
}

#[tactic(auto, using(tree_core::proofs::Trees::trees), unfolding(crate::specs::Leaves::array_of))]
fn read_array_literal(alloc: Global, items: &[Value]) -> Result<Node, FormError>
    ensures { GivesBy tree_of result (option_map bare_leaf (array_of (map view items.now))) }
{
    check_length(items, 2)?;
    let rows = read_rows(alloc, read_item(items, 1)?)?;
    Ok(Node::ArrayKind(rows))
}

#[tactic(auto, using(tree_core::proofs::Trees::trees), unfolding(crate::specs::Leaves::defined_name_of))]
fn read_defined_name(alloc: Global, items: &[Value]) -> Result<Node, FormError>
    ensures { GivesBy tree_of result (option_map bare_leaf (defined_name_of (map view items.now))) }
{
    check_length(items, 4)?;
    let name = read_own_text(alloc, items, 1)?;
    let sheet = read_id(items, 2)?;
    let formula = read_own_text(alloc, items, 3)?;
    Ok(Node::DefinedNameKind(DefinedNameS(name, sheet, formula)))
}

#[tactic(auto, using(tree_core::proofs::Trees::trees), unfolding(crate::specs::Leaves::table_of))]
fn read_table(alloc: Global, items: &[Value]) -> Result<Node, FormError>
    ensures { GivesBy tree_of result (option_map bare_leaf (table_of (map view items.now))) }
{
    check_length(items, 2)?;
    let name = read_own_text(alloc, items, 1)?;
    Ok(Node::TableNameKind(name))
}

#[tactic(auto, using(tree_core::proofs::Trees::trees), unfolding(crate::specs::Leaves::variable_of))]
fn read_variable(alloc: Global, items: &[Value]) -> Result<Node, FormError>
    ensures { GivesBy tree_of result (option_map bare_leaf (variable_of (map view items.now))) }
{
    check_length(items, 3)?;
    let name = read_own_text(alloc, items, 1)?;
    let id = read_id(items, 2)?;
    Ok(Node::NamedVariableKind { name, id })
}

#[tactic(auto, using(tree_core::proofs::Trees::trees), unfolding(crate::specs::Leaves::parse_error_of))]
fn read_parse_error(alloc: Global, items: &[Value]) -> Result<Node, FormError>
    ensures { GivesBy tree_of result (option_map bare_leaf (parse_error_of (map view items.now))) }
{
    check_length(items, 4)?;
    let formula = read_own_text(alloc, items, 1)?;
    let message = read_own_text(alloc, items, 2)?;
    let position = read_u32(items, 3)?;
    Ok(Node::ParseErrorKind {
        formula,
        message,
        position,
    })
}

/// Where an end of a reference lies, by the four places from one on.
#[tactic(auto, unfolding(crate::specs::Leaves::corner_at))]
fn read_corner(items: &[Value], place: usize) -> Result<Corner, FormError>
    requires { place < 16 }
    ensures { Finds result (corner_at place (map view items.now)) }
{
    let absolute_row = read_truth(items, place)?;
    let absolute_column = read_truth(items, place + 1)?;
    let row = read_i32(items, place + 2)?;
    let column = read_i32(items, place + 3)?;
    Ok(Corner::new(absolute_row, absolute_column, row, column))
}

/// Writes what a node without children holds.
pub fn write_leaf(writer: &mut Writer, leaf: Leaf) -> Result<(), Memory>
    ensures { Writes result writer.old writer.new (list_tokens (leaf_own (leaf_in leaf.entry))) }
{
    match leaf {
        Leaf::Boolean(truth) => writer.boolean(truth)?,
        Leaf::Number(number) => write_whole(writer, number)?,
        Leaf::Text(text) | Leaf::TableName(text) => writer.string(text.as_str())?,
        Leaf::Error(error) => writer.string(error.name())?,
        Leaf::Empty => {}
        Leaf::Reference {
            sheet_name,
            sheet_index,
            corner,
        } => {
            write_whole(writer, i64::from(sheet_index))?;
            write_text_or_null(writer, sheet_name)?;
            write_corner(writer, corner)?;
        }
        Leaf::Range {
            sheet_name,
            sheet_index,
            left,
            right,
        } => {
            write_whole(writer, i64::from(sheet_index))?;
            write_text_or_null(writer, sheet_name)?;
            write_corner(writer, left)?;
            write_corner(writer, right)?;
        }
        Leaf::WrongReference { sheet_name, corner } => {
            write_text_or_null(writer, sheet_name)?;
            write_corner(writer, corner)?;
        }
        Leaf::WrongRange {
            sheet_name,
            left,
            right,
        } => {
            write_text_or_null(writer, sheet_name)?;
            write_corner(writer, left)?;
            write_corner(writer, right)?;
        }
        Leaf::Array(rows) => write_rows(writer, rows)?,
        Leaf::DefinedName(DefinedNameS(name, sheet, formula)) => {
            writer.string(name.as_str())?;
            write_number_or_null(writer, *sheet)?;
            writer.string(formula.as_str())?;
        }
        Leaf::Variable { name, id } => {
            writer.string(name.as_str())?;
            write_number_or_null(writer, id)?;
        }
        Leaf::ParseError {
            formula,
            message,
            position,
        } => {
            writer.string(formula.as_str())?;
            writer.string(message.as_str())?;
            write_whole(writer, i64::from(position))?;
        }
    }
    Ok(())
}

fn write_corner(writer: &mut Writer, corner: Corner) -> Result<(), Memory>
    ensures { Writes result writer.old writer.new (list_tokens (corner_data corner)) }
{
    writer.boolean(corner.absolute_row)?;
    writer.boolean(corner.absolute_column)?;
    write_whole(writer, i64::from(corner.row))?;
    write_whole(writer, i64::from(corner.column))?;
    Ok(())
}
