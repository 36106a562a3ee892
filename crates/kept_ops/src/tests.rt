use super::*;
use grid_core::CalcResult;
use rectangle_core::Grid;
use std::alloc::Global;
use std::test::Fail;
use value_core::{ArrayNode, CellReferenceIndex, Error, Memory, Rows, Text};

mod long_columns;

static CELL: CellReferenceIndex = CellReferenceIndex {
    sheet: 0,
    row: 1,
    column: 2,
};

/// Rectangles, whether by columns, whether exactly once, and what UNIQUE comes to. Rows are set apart by semicolons and elements by
/// commas. A quote begins a text, `t` and `f` are truth values, `!` and `?` errors, a digit is a number, and nothing a blank.
static UNIQUES: [(&str, bool, bool, &str); 9] = [
    ("1;2;1", false, true, "2"),
    (
        "'North;'south;'East;'SOUTH",
        false,
        false,
        "'North;'south;'East",
    ),
    ("'North;'south;'East;'SOUTH", false, true, "'North;'East"),
    ("1;t;'1;", false, false, "1;t;'1;"),
    ("1,2;1,3;1,2", false, false, "1,2;1,3"),
    ("1,2,1;3,3,3", true, false, "1,2;3,3"),
    ("1,2,1;3,3,3", true, true, "2;3"),
    (
        "'x;'X;'x;'X;'x;'X;'x;'X;'x;'X;'x;'X;'x;'X;'x;'X;'x;'X;'x;'X",
        false,
        false,
        "'x",
    ),
    (
        "'x;'X;'x;'X;'x;'X;'x;'X;'x;'X;'x;'X;'x;'X;'x;'X;'x;'X;'x;'X",
        false,
        true,
        "#CALC!",
    ),
];

#[test]
fn lines_are_kept_by_their_keys(rt: HostRuntime) -> Result<(), Fail> {
    let alloc = rt.alloc();
    for &(rows, by_column, exactly_once, wanted) in &UNIQUES {
        let grid = grid_in(alloc, rows)?.ok_or("no rectangle")?;
        let answer = unique(alloc, CELL, &grid, by_column, exactly_once)?;
        assert!(rt; is_answer(alloc, &answer, wanted)?, "of {rows}");
    }
    what_is_unique_stays();
    Ok(())
}

/// Rectangles, masks, and what FILTER comes to; `-` is nothing.
static FILTERS: [(&str, &str, &str); 11] = [
    ("1;2;3", "0;0;0", "-"),
    ("1;2;3", "1", "1;2;3"),
    ("1;2;3", "1;0;1", "1;3"),
    ("1;2;3", "1,0,t", "1;3"),
    ("1;2;3", ";t;f", "2"),
    ("1,2;3,4", "1,0", "1,2"),
    ("1,2;3,4;5,6", "0,1", "2;4;6"),
    ("1,2,3", "0;t;1", "2,3"),
    ("1;2;3", "1;'a;!", "#VALUE!"),
    ("1;2;3", "1;!;'a", "#DIV/0!"),
    ("1;2;3", "1;1", "#VALUE!"),
];

#[test]
fn masks_keep_rows_or_columns(rt: HostRuntime) -> Result<(), Fail> {
    let alloc = rt.alloc();
    for &(rows, mask, wanted) in &FILTERS {
        let grid = grid_in(alloc, rows)?.ok_or("no rectangle")?;
        let include = grid_in(alloc, mask)?.ok_or("no rectangle")?;
        let answer = filter(alloc, &grid, &include)?;
        assert!(rt; is_filtered(alloc, answer, wanted)?, "of {rows} by {mask}");
    }
    Ok(())
}

fn is_filtered(alloc: Global, answer: Filtered, wanted: &str) -> Result<bool, Memory> {
    match answer {
        Filtered::Kept(grid) => is_answer(alloc, &CalcResult::Array(grid), wanted),
        Filtered::Nothing => Ok(wanted == "-"),
        Filtered::Wrong(error) => Ok(error.name() == wanted),
    }
}

/// Rectangles, what is left out of them, whether by columns, whether as a column, and what comes of it.
static FLATTENED: [(&str, i64, bool, bool, &str); 8] = [
    ("1,2;4,5", 0, true, true, "1;4;2;5"),
    ("1,2;4,5", 0, false, true, "1;2;4;5"),
    ("1,2,3,6;4,5,6,", 1, false, false, "1,2,3,6,4,5,6"),
    ("1,!;,2", 2, false, true, "1;;2"),
    ("1,!;,2", 3, true, true, "1;2"),
    ("1", 4, false, true, "#VALUE!"),
    ("1", -1, false, true, "#VALUE!"),
    (",", 1, false, true, "#CALC!"),
];

#[test]
fn elements_are_laid_in_one_line(rt: HostRuntime) -> Result<(), Fail> {
    let alloc = rt.alloc();
    for &(rows, ignore, by_column, as_column, wanted) in &FLATTENED {
        let grid = grid_in(alloc, rows)?.ok_or("no rectangle")?;
        let answer = flatten(alloc, CELL, &grid, ignore, by_column, as_column)?;
        assert!(rt; is_answer(alloc, &answer, wanted)?, "of {rows}");
    }
    columns_are_the_rows_of_the_transposed();
    Ok(())
}

/// Rectangles, the modes of their rows and of their columns, and what TRIMRANGE comes to.
static TRIMMED: [(&str, i32, i32, &str); 10] = [
    ("1,2,3,6;4,5,6,;,,,", 3, 3, "1,2,3,6;4,5,6,"),
    (";", 3, 3, "#REF!"),
    (";", 0, 0, ";"),
    (";1;;2;", 3, 3, "1;;2"),
    (";1;", 1, 0, "1;"),
    (";1;", 2, 0, ";1"),
    (",1,", 0, 1, "1,"),
    (",1,", 0, 2, ",1"),
    ("1", 4, 0, "#VALUE!"),
    ("1", 0, -1, "#VALUE!"),
];

#[test]
fn blank_lines_at_the_ends_are_left_out(rt: HostRuntime) -> Result<(), Fail> {
    let alloc = rt.alloc();
    for &(rows, rows_mode, columns_mode, wanted) in &TRIMMED {
        let grid = grid_in(alloc, rows)?.ok_or("no rectangle")?;
        let answer = trim(alloc, CELL, &grid, rows_mode, columns_mode)?;
        assert!(rt; is_answer(alloc, &answer, wanted)?, "of {rows}");
    }
    Ok(())
}

fn is_answer(alloc: Global, answer: &CalcResult, wanted: &str) -> Result<bool, Memory> {
    match answer {
        CalcResult::Error { error, origin } => Ok(error.name() == wanted && *origin == CELL),
        CalcResult::Array(grid) => match grid_in(alloc, wanted)? {
            Some(wanted) => Ok(*grid == wanted),
            None => Ok(false),
        },
        _ => Ok(false),
    }
}

fn grid_in(alloc: Global, written: &str) -> Result<Option<Grid>, Memory> {
    let mut rows = Rows::new(alloc);
    for line in written.split(';') {
        let row = row_in(alloc, line)?;
        if let Err(_) = rows.push(row) {
            return Err(Memory);
        }
    }
    Grid::from_rows(alloc, rows)
}

fn row_in(alloc: Global, line: &str) -> Result<Vec<ArrayNode>, Memory> {
    let mut row = Vec::new(alloc);
    for element in line.split(',') {
        row.push(element_in(alloc, element)?)?;
    }
    Ok(row)
}

fn element_in(alloc: Global, written: &str) -> Result<ArrayNode, Memory> {
    if let Some(text) = written.strip_prefix('\'') {
        return Ok(ArrayNode::String(Text::from_text(alloc, text)?));
    }
    Ok(match written.chars().next() {
        Some('t') => ArrayNode::Boolean(true),
        Some('f') => ArrayNode::Boolean(false),
        Some('!') => ArrayNode::Error(Error::DIV),
        Some('?') => ArrayNode::Error(Error::NA),
        Some(digit) => ArrayNode::Number(number_in(digit)),
        None => ArrayNode::Empty,
    })
}

fn number_in(digit: char) -> i64 {
    match digit {
        '1' => 1000000,
        '2' => 2000000,
        '3' => 3000000,
        '4' => 4000000,
        '5' => 5000000,
        '6' => 6000000,
        _ => 0,
    }
}
