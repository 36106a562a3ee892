use super::*;
use book_core::Reads;
use request_core::Request;
use std::alloc::Global;
use std::test::Fail;
use tree_core::{Plain, Steps};
use value_core::{ArrayNode, CellReferenceIndex, Memory, Text};

/// Seeds, rows and columns, and what stands there: a text after a quote, `t` and `f` for truth values, nothing for a blank, else the
/// whole number.
static CELLS: [(u32, i32, i32, &str); 13] = [
    (0, 1, 1, "'item-7"),
    (0, 1, 2, "t"),
    (0, 1, 3, "31"),
    (0, 1, 4, ""),
    (0, 0, 1, ""),
    (0, 50, 1, "'item-0"),
    (0, 1000, 1, "'item-0"),
    (0, 1000, 3, "0"),
    (0, 1001, 1, ""),
    (1, 1, 2, "f"),
    (1, 3, 2, "t"),
    (999999, 43, 1, "'item-0"),
    (999999, 1000, 3, "999"),
];

#[test]
fn a_request_comes_from_a_number(rt: HostRuntime) -> Result<(), Fail> {
    let alloc = rt.alloc();
    for &(seed, row, column, wanted) in &CELLS {
        let request = generated_request(alloc, seed)?;
        assert!(rt;
            holds(alloc, &request, row, column, wanted)?,
            "{seed} {row} {column}"
        );
    }
    Ok(())
}

fn holds(
    alloc: Global,
    request: &Request,
    row: i32,
    column: i32,
    wanted: &str,
) -> Result<bool, Memory> {
    let cell = CellReferenceIndex {
        sheet: 0,
        row,
        column,
    };
    let element = element_in(alloc, wanted)?;
    Ok(*request.book.value(cell, &mut Steps::new(Plain)) == element)
}

fn element_in(alloc: Global, written: &str) -> Result<ArrayNode, Memory> {
    if let Some(text) = written.strip_prefix('\'') {
        return Ok(ArrayNode::String(Text::from_text(alloc, text)?));
    }
    Ok(match written {
        "t" => ArrayNode::Boolean(true),
        "f" => ArrayNode::Boolean(false),
        "" => ArrayNode::Empty,
        "0" => ArrayNode::Number(0),
        "31" => ArrayNode::Number(31000000),
        _ => ArrayNode::Number(999000000),
    })
}
