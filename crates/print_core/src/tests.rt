use crate::{Answer, answer_line, value_line};
use kind_table::StaticResult;
use rectangle_core::Grid;
use std::alloc::Global;
use std::test::Fail;
use tree_core::{ArrayNode, Node};
use units_core::Units;
use value_core::{Error, Memory, Text};

const LINE: &str =
    "{\"exported\":[\"bool\",true],\"given_shape\":\"Array(3,16384)\",\"imported\":[\"at\",true,[\"num\",-2]],\"imported_shape\":\"Scalar\",\"legacy\":[[-2]],\"spilled\":[[null]],\"unit\":{\"currency\":\"€\",\"group_separator\":true,\"kind\":\"Currency\",\"num_fmt\":\"0.0 €\",\"precision\":-1}}\n";

fn euros(alloc: Global) -> Result<Units, Memory> {
    let num_fmt = Text::from_text(alloc, "0.0 €")?;
    let currency = Text::from_text(alloc, "€")?;
    Ok(Units::Currency {
        group_separator: true,
        precision: -1,
        num_fmt,
        currency,
    })
}

#[test]
fn an_answer_is_one_line(rt: HostRuntime) -> Result<(), Fail> {
    let alloc = rt.alloc();
    let answer = Answer {
        exported: Node::BooleanKind(true),
        given_shape: StaticResult::Array(3, 16384),
        imported: Node::intersection(alloc, true, Node::NumberKind(-2))?,
        imported_shape: StaticResult::Scalar,
        legacy: Grid::of_one(alloc, ArrayNode::Number(-2))?,
        spilled: Grid::of_one(alloc, ArrayNode::Empty)?,
        unit: Some(euros(alloc)?),
    };
    let line = answer_line(alloc, &answer)?;
    assert_eq!(rt; line.as_slice(), LINE.as_bytes());
    Ok(())
}

#[test]
fn one_value_is_one_line(rt: HostRuntime) -> Result<(), Fail> {
    let alloc = rt.alloc();
    let none = value_line(alloc, None)?;
    let error = value_line(alloc, Some(&ArrayNode::Error(Error::NA)))?;
    assert_eq!(rt; none.as_slice(), b"none\n".as_slice());
    assert_eq!(rt; error.as_slice(), b"{\"error\":\"#N/A\"}\n".as_slice());
    Ok(())
}
