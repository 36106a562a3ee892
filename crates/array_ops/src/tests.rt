use super::*;
use grid_core::{CalcResult, Grid};
use std::alloc::Global;
use std::test::Fail;
use value_core::{ArrayNode, CellReferenceIndex, Error, Memory, Rows};

/// Calls of one array by their words and two numbers, and what they answer. The pad is 0.
static ANSWERS: [(&str, &str, i64, i64, &str); 17] = [
    ("take", "123/456", 1, -2, "23"),
    ("rows", "123/456", 0, 0, "CALC"),
    ("rows", "123/456", i64::MIN / 1000000, 0, "123/456"),
    ("drop", "123/456", 1, 0, "456"),
    ("drop", "123/456", -1, 2, "3"),
    ("drop", "123/456", 2, 0, "CALC"),
    ("expand", "1/2", 3, 2, "10/20/00"),
    ("expand", "1/2/3", 2, 1, "VALUE"),
    ("expand", "1", 1000, 1001, "ERROR"),
    ("columns", "123/456", 1, 3, "13/46"),
    ("columns", "123/456", 3, -3, "31/64"),
    ("chosen", "123/456", -1, 1, "456/123"),
    ("chosen", "1/4", 1, 5, "VALUE"),
    ("wrapped", "12345", 3, 0, "123/450"),
    ("wrapped", "12/45", 2, 0, "VALUE"),
    ("folded", "123", 2, 0, "13/20"),
    ("folded", "1/2/3", 0, 0, "VALUE"),
];

#[test]
fn calls_of_one_array_answer_what_stands_in_the_rows(rt: HostRuntime) -> Result<(), Fail> {
    for &(word, array, first, second, wanted) in &ANSWERS {
        let array = grid_of_digits(rt.alloc(), array)?.ok_or("no array")?;
        let answer = answer(rt.alloc(), word, &array, first, second)?;
        let wanted = result_of(rt.alloc(), wanted)?;
        assert!(rt; answer == wanted, "{word} {first} {second}");
    }
    Ok(())
}

fn answer(
    alloc: Global,
    word: &str,
    array: &Grid,
    first: i64,
    second: i64,
) -> Result<CalcResult, Memory> {
    let count = first.unsigned_abs() as usize;
    let columns = second.unsigned_abs() as usize;
    let pad = ArrayNode::Number(0);
    match word {
        "take" => take(alloc, cell(), array, first, Some(second)),
        "rows" => take(alloc, cell(), array, first, None),
        "drop" => drop_rows_columns(alloc, cell(), array, first, Some(second)),
        "columns" => choose_columns(alloc, cell(), array, &[first, second]),
        "chosen" => choose_rows(alloc, cell(), array, &[first, second]),
        "expand" => expand(alloc, cell(), array, count, columns, &pad, 1000000),
        "wrapped" => wrap_rows(alloc, cell(), array, count, &pad, 1000000),
        _ => wrap_columns(alloc, cell(), array, count, &pad, 1000000),
    }
}

/// Two arrays, and both side by side and below each other.
static STACKS: [(&str, &str, &str, &str); 3] = [
    ("1/4", "3", "13/4?", "1/4/3"),
    ("12", "4", "124", "12/4?"),
    ("12/45", "123", "12123/45???", "12?/45?/123"),
];

#[test]
fn stacks_have_the_greatest_size(rt: HostRuntime) -> Result<(), Fail> {
    let alloc = rt.alloc();
    for &(first, second, wanted_beside, wanted_below) in &STACKS {
        let (beside, below) = stacks(alloc, first, second)?;
        assert!(rt; is(alloc, &beside, wanted_beside)?, "{first} {second}");
        assert!(rt; is(alloc, &below, wanted_below)?, "{first} {second}");
    }
    Ok(())
}

/// Two arrays side by side, and below each other.
fn stacks(alloc: Global, first: &str, second: &str) -> Result<(Grid, Grid), Fail> {
    let mut arrays = Vec::new(alloc);
    arrays.push(grid_of_digits(alloc, first)?.ok_or("no array")?)?;
    arrays.push(grid_of_digits(alloc, second)?.ok_or("no array")?)?;
    let beside = hstack(alloc, arrays.as_slice())?;
    let below = vstack(alloc, arrays.as_slice())?;
    Ok((beside, below))
}

#[test]
fn rows_become_columns(rt: HostRuntime) -> Result<(), Fail> {
    let answer = transposed(rt.alloc(), "123/456")?;
    assert!(rt; is(rt.alloc(), &answer, "14/25/36")?);
    Ok(())
}

fn transposed(alloc: Global, text: &str) -> Result<Grid, Fail> {
    let array = grid_of_digits(alloc, text)?.ok_or("no array")?;
    match transpose_array(alloc, array) {
        Ok(answer) => Ok(answer),
        Err(_back) => Err("no memory".into()),
    }
}

fn is(alloc: Global, grid: &Grid, text: &str) -> Result<bool, Memory> {
    match grid_of_digits(alloc, text)? {
        Some(wanted) => Ok(*grid == wanted),
        None => Ok(false),
    }
}

/// Rows, columns, starts and steps in whole numbers, and the answers.
static SEQUENCES: [(i64, i64, i64, i64, &str); 9] = [
    (2, 2, 10, -3, "a7/41"),
    (1, 3, 5, 0, "555"),
    (3, 1, 9223372036854, 9223372036854, "v/#/#"),
    (1000, 1001, 1, 1, "ERROR"),
    (1, 16385, 1, 1, "VALUE"),
    (0, -1, 1, 1, "CALC"),
    (-1, 0, 1, 1, "VALUE"),
    (1, 0, 1, 1, "CALC"),
    (1, -1, 1, 1, "VALUE"),
];

#[test]
fn sequences_answer_what_stands_in_the_rows(rt: HostRuntime) -> Result<(), Fail> {
    let alloc = rt.alloc();
    for &(rows, columns, start, step, wanted) in &SEQUENCES {
        let start = millionths(start);
        let step = millionths(step);
        let answer = sequence(alloc, cell(), rows, columns, start, step, 1000000)?;
        assert!(rt; answer == result_of(alloc, wanted)?, "{rows} {columns}");
    }
    assert!(rt; ends_in_the_greatest_whole_number(alloc)?);
    Ok(())
}

/// Whether so large a step is exact where it is no number itself.
fn ends_in_the_greatest_whole_number(alloc: Global) -> Result<bool, Memory> {
    let start = millionths(-9223372036854);
    let step = millionths(9223372036854);
    match sequence(alloc, cell(), 1, 3, start, step, 1000000)? {
        CalcResult::Array(grid) => Ok(matches!(
            grid.get(0, 2),
            Some(ArrayNode::Number(9223372036854000000))
        )),
        _other => Ok(false),
    }
}

fn millionths(number: i64) -> i64 {
    number.saturating_mul(1000000)
}

fn cell() -> CellReferenceIndex {
    CellReferenceIndex {
        sheet: 0,
        row: 1,
        column: 6,
    }
}

/// An error by its name, or an array.
fn result_of(alloc: Global, text: &str) -> Result<CalcResult, Memory> {
    let error = match text {
        "CALC" => Error::CALC,
        "VALUE" => Error::VALUE,
        "ERROR" => Error::ERROR,
        _ => {
            return match grid_of_digits(alloc, text)? {
                Some(grid) => Ok(CalcResult::Array(grid)),
                None => Ok(CalcResult::EmptyArg),
            };
        }
    };
    Ok(CalcResult::Error {
        error,
        origin: cell(),
    })
}

/// Rows of elements, each of which is a digit, `?`, which is not available, `#`, which is out of range, or `v`, the greatest
/// whole number.
fn grid_of_digits(alloc: Global, text: &str) -> Result<Option<Grid>, Memory> {
    let mut rows = Rows::new(alloc);
    for line in text.split('/') {
        let row = row_of(alloc, line)?;
        if let Err(_) = rows.push(row) {
            return Err(Memory);
        }
    }
    Grid::from_rows(alloc, rows)
}

fn row_of(alloc: Global, line: &str) -> Result<Vec<ArrayNode>, Memory> {
    let mut row = Vec::new(alloc);
    for letter in line.chars() {
        row.push(element_of(letter))?;
    }
    Ok(row)
}

fn element_of(letter: char) -> ArrayNode {
    match letter {
        '?' => ArrayNode::Error(Error::NA),
        '#' => ArrayNode::Error(Error::NUM),
        'v' => ArrayNode::Number(9223372036854000000),
        _ => ArrayNode::Number(i64::from(letter.to_digit(16).unwrap_or(0)) * 1000000),
    }
}
