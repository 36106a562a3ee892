//! A formula with a node of each variant.
use super::at;
use crate::{
    ArrayNode, DefinedNameS, Error, Function, Memory, Node, Nodes, OpCompare, OpProduct, OpSum,
    OpUnary, Rows, Text, Texts,
};
use own_items::{Boxed, Items};
use std::alloc::Global;

/// What the fields of the formula are: each text, each number, each flag, and that of its `@`.
pub struct Fields<'a> {
    pub text: &'a str,
    pub number: i32,
    pub flag: bool,
    pub automatic: bool,
}

/// The formula.
pub fn every(alloc: Global, fields: &Fields<'static>) -> Result<Node, Memory> {
    let mut args = Items::new(alloc);
    put_values(alloc, &mut args, fields)?;
    put_names(alloc, &mut args, fields)?;
    put_references(alloc, &mut args, fields)?;
    put_ranges(alloc, &mut args, fields)?;
    put_operators(alloc, &mut args)?;
    put_operators_of_kind(alloc, &mut args)?;
    put_wrappers(alloc, &mut args, fields)?;
    put_calls(alloc, &mut args, fields)?;
    Ok(Node::FunctionKind {
        kind: Function::Other(7),
        args,
    })
}

fn boxed(alloc: Global, number: i64) -> Result<Boxed<Node>, Memory> {
    let child = Boxed::new(alloc, Node::NumberKind(number))?;
    Ok(child)
}

pub fn texts(alloc: Global, text: &str) -> Result<Texts, Memory> {
    let mut texts = Texts::new(alloc);
    for _ in 0..2 {
        let text = Text::from_text(alloc, text)?;
        if let Err(_) = texts.push(text) {
            return Err(Memory);
        }
    }
    Ok(texts)
}

/// A row with an element of each variant, and an empty row.
pub fn rows(alloc: Global, fields: &Fields<'static>) -> Result<Rows, Memory> {
    let mut elements = Vec::new(alloc);
    elements.push(ArrayNode::Number(i64::from(fields.number)))?;
    elements.push(ArrayNode::Boolean(fields.flag))?;
    elements.push(ArrayNode::String(Text::from_text(alloc, fields.text)?))?;
    elements.push(ArrayNode::Error(Error::NA))?;
    elements.push(ArrayNode::Empty)?;
    let mut rows = Rows::new(alloc);
    for row in [elements, Vec::new(alloc)] {
        if let Err(_) = rows.push(row) {
            return Err(Memory);
        }
    }
    Ok(rows)
}

fn put_values(alloc: Global, nodes: &mut Nodes, fields: &Fields<'static>) -> Result<(), Memory> {
    nodes.add(Node::BooleanKind(fields.flag))?;
    nodes.add(Node::NumberKind(i64::from(fields.number)))?;
    nodes.add(Node::StringKind(Text::from_text(alloc, fields.text)?))?;
    nodes.add(Node::ErrorKind(Error::CALC))?;
    nodes.add(Node::EmptyArgKind)?;
    nodes.add(Node::ArrayKind(rows(alloc, fields)?))?;
    Ok(())
}

fn put_names(alloc: Global, nodes: &mut Nodes, fields: &Fields<'static>) -> Result<(), Memory> {
    let name = Text::from_text(alloc, fields.text)?;
    let formula = Text::from_text(alloc, "A1")?;
    nodes.add(Node::DefinedNameKind(DefinedNameS(name, Some(3), formula)))?;
    nodes.add(Node::TableNameKind(Text::from_text(alloc, fields.text)?))?;
    let name = Text::from_text(alloc, "x")?;
    nodes.add(Node::NamedVariableKind { name, id: None })?;
    let formula = Text::from_text(alloc, "1+")?;
    let message = Text::from_text(alloc, fields.text)?;
    nodes.add(Node::ParseErrorKind {
        formula,
        message,
        position: 2,
    })?;
    Ok(())
}

fn put_references(
    alloc: Global,
    nodes: &mut Nodes,
    fields: &Fields<'static>,
) -> Result<(), Memory> {
    let sheet_name = Some(Text::from_text(alloc, fields.text)?);
    nodes.add(Node::ReferenceKind {
        sheet_name,
        sheet_index: 4,
        absolute_row: fields.flag,
        absolute_column: false,
        row: fields.number,
        column: -7,
    })?;
    nodes.add(Node::WrongReferenceKind {
        sheet_name: None,
        absolute_row: false,
        absolute_column: fields.flag,
        row: 1,
        column: fields.number,
    })?;
    Ok(())
}

fn put_ranges(alloc: Global, nodes: &mut Nodes, fields: &Fields<'static>) -> Result<(), Memory> {
    let sheet_name = Some(Text::from_text(alloc, fields.text)?);
    nodes.add(Node::RangeKind {
        sheet_name: None,
        sheet_index: 0,
        absolute_row1: true,
        absolute_column1: fields.flag,
        row1: 1,
        column1: -2,
        absolute_row2: false,
        absolute_column2: true,
        row2: fields.number,
        column2: 4,
    })?;
    nodes.add(Node::WrongRangeKind {
        sheet_name,
        absolute_row1: true,
        absolute_column1: false,
        row1: 1,
        column1: -2,
        absolute_row2: fields.flag,
        absolute_column2: true,
        row2: 9,
        column2: fields.number,
    })?;
    Ok(())
}

fn put_operators(alloc: Global, nodes: &mut Nodes) -> Result<(), Memory> {
    let (left, right) = (boxed(alloc, 1)?, boxed(alloc, 2)?);
    nodes.add(Node::OpRangeKind { left, right })?;
    let (left, right) = (boxed(alloc, 3)?, boxed(alloc, 4)?);
    nodes.add(Node::OpConcatenateKind { left, right })?;
    let (left, right) = (boxed(alloc, 5)?, boxed(alloc, 6)?);
    nodes.add(Node::OpPowerKind { left, right })?;
    Ok(())
}

fn put_operators_of_kind(alloc: Global, nodes: &mut Nodes) -> Result<(), Memory> {
    let (left, right) = (boxed(alloc, 1)?, boxed(alloc, 2)?);
    let kind = OpSum::Minus;
    nodes.add(Node::OpSumKind { kind, left, right })?;
    let (left, right) = (boxed(alloc, 3)?, boxed(alloc, 4)?);
    let kind = OpProduct::Divide;
    nodes.add(Node::OpProductKind { kind, left, right })?;
    let (left, right) = (boxed(alloc, 5)?, boxed(alloc, 6)?);
    let kind = OpCompare::NonEqual;
    nodes.add(Node::CompareKind { kind, left, right })?;
    Ok(())
}

fn put_wrappers(alloc: Global, nodes: &mut Nodes, fields: &Fields<'static>) -> Result<(), Memory> {
    let kind = OpUnary::Percentage;
    let right = boxed(alloc, 1)?;
    nodes.add(Node::UnaryKind { kind, right })?;
    nodes.add(at(alloc, fields.automatic, Node::NumberKind(2))?)?;
    let child = boxed(alloc, 3)?;
    nodes.add(Node::SpillRangeOperator { child })?;
    let parameters = texts(alloc, fields.text)?;
    let body = boxed(alloc, 4)?;
    nodes.add(Node::LambdaDefKind { parameters, body })?;
    Ok(())
}

fn put_calls(alloc: Global, nodes: &mut Nodes, fields: &Fields<'static>) -> Result<(), Memory> {
    let mut args = Items::new(alloc);
    args.add(Node::EmptyArgKind)?;
    let name = Text::from_text(alloc, fields.text)?;
    let id = Some(9);
    nodes.add(Node::NamedFunctionKind { name, id, args })?;
    let lambda = boxed(alloc, 1)?;
    let args = Items::new(alloc);
    nodes.add(Node::LambdaCallKind { lambda, args })?;
    Ok(())
}
