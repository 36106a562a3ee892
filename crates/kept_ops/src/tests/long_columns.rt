use super::{CELL, unique};
use grid_core::CalcResult;
use rectangle_core::Grid;
use std::alloc::Global;
use std::test::Fail;
use value_core::{ArrayNode, Error, Memory, Rows, Text};

const NUMBERS: usize = 60000;

const TEXTS: usize = 15000;

/// Keys are looked up and not compared by pairs: otherwise this takes hours.
#[test]
fn long_columns_are_kept_by_their_keys(rt: HostRuntime) -> Result<(), Fail> {
    let alloc = rt.alloc();
    let apart = numbers(alloc)?.ok_or("no rectangle")?;
    assert!(rt; keeps(alloc, &apart, false, NUMBERS)?, "each number once");
    assert!(rt;
        keeps(alloc, &apart, true, NUMBERS)?,
        "each number exactly once"
    );
    let alike = texts(alloc)?.ok_or("no rectangle")?;
    assert!(rt; keeps(alloc, &alike, false, 1)?, "one text in two cases");
    let answer = unique(alloc, CELL, &alike, false, true)?;
    assert!(rt; is_none_kept(&answer), "no text exactly once");
    Ok(())
}

/// Whether UNIQUE keeps so many rows, the first ones.
fn keeps(alloc: Global, column: &Grid, exactly_once: bool, count: usize) -> Result<bool, Memory> {
    match unique(alloc, CELL, column, false, exactly_once)? {
        CalcResult::Array(kept) => Ok(kept.rows() == count && begins_with(column, &kept)),
        _other => Ok(false),
    }
}

fn begins_with(column: &Grid, kept: &Grid) -> bool {
    for (index, element) in kept.elements().iter().enumerate() {
        if column.get(index, 0) != Some(element) {
            return false;
        }
    }
    true
}

fn is_none_kept(answer: &CalcResult) -> bool {
    match answer {
        CalcResult::Error { error, origin } => *error == Error::CALC && *origin == CELL,
        _ => false,
    }
}

/// The whole numbers 1, 2 and so on, one a row.
fn numbers(alloc: Global) -> Result<Option<Grid>, Memory> {
    let mut rows = Rows::new(alloc);
    let mut number = 0;
    for _ in 0..NUMBERS {
        number = i64::saturating_add(number, 1000000);
        push_row(alloc, &mut rows, ArrayNode::Number(number))?;
    }
    Grid::from_rows(alloc, rows)
}

/// `x` and `X` in turn, one a row.
fn texts(alloc: Global) -> Result<Option<Grid>, Memory> {
    let mut rows = Rows::new(alloc);
    for _ in 0..TEXTS {
        push_row(
            alloc,
            &mut rows,
            ArrayNode::String(Text::from_text(alloc, "x")?),
        )?;
        push_row(
            alloc,
            &mut rows,
            ArrayNode::String(Text::from_text(alloc, "X")?),
        )?;
    }
    Grid::from_rows(alloc, rows)
}

fn push_row(alloc: Global, rows: &mut Rows, element: ArrayNode) -> Result<(), Memory> {
    let mut row = Vec::new(alloc);
    row.push(element)?;
    match rows.push(row) {
        Ok(()) => Ok(()),
        Err(_back) => Err(Memory),
    }
}
