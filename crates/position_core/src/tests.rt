ghost use Rattle.std.specs.Prelude.{◌<◌, length};

use super::*;
use std::alloc::Global;
use std::test::Fail;
use value_core::{ArrayNode, Error, Memory};

/// Rows and columns, and what an array of them answers under a limit.
static LIMITS: [(usize, usize, usize, Option<(Error, SizeLimit)>); 8] = [
    (1, 16385, 1000000, Some((Error::VALUE, SizeLimit::Columns))),
    (
        1048577,
        16385,
        1000000,
        Some((Error::VALUE, SizeLimit::Columns)),
    ),
    (1048577, 1, 1000000, Some((Error::VALUE, SizeLimit::Rows))),
    (
        1000,
        1001,
        1000000,
        Some((Error::ERROR, SizeLimit::Cells(1000000))),
    ),
    (1000, 1000, 1000000, None),
    (2, 2, 3, Some((Error::ERROR, SizeLimit::Cells(3)))),
    (1048576, 16, 16777216, None),
    (1024, 16384, 16777216, None),
];

#[test]
fn arrays_are_checked_against_limits(rt: HostRuntime) {
    for &(rows, columns, limit, wanted) in &LIMITS {
        assert!(rt; check_array_limit(rows, columns, limit) == wanted);
    }
    assert!(rt; check_array_size(1, 16385) == Some((Error::VALUE, SizeLimit::Columns)));
    assert!(rt; check_array_size(1000, 1001) == Some((Error::ERROR, SizeLimit::Cells(1000000))));
    assert!(rt; check_array_size(1000, 1000) == None);
}

/// Limits, and how they are told.
static LIMIT_TEXTS: [(SizeLimit, &str); 3] = [
    (SizeLimit::Columns, "columns exceeds sheet limit of 16384"),
    (SizeLimit::Rows, "rows exceeds sheet limit of 1048576"),
    (
        SizeLimit::Cells(1000000),
        "rows * columns exceeds matrix size limit of 1000000",
    ),
];

#[test]
fn limits_are_told(rt: HostRuntime) -> Result<(), Fail> {
    for &(limit, wanted) in &LIMIT_TEXTS {
        let text = format!(in rt.alloc(); "{limit}")?;
        assert_eq!(rt; text.as_str(), wanted);
    }
    Ok(())
}

/// Calls by their words and two numbers, the rows and columns of two arrays, and of the answer.
static SIZES: [(
    &str,
    i64,
    i64,
    [(usize, usize); 2],
    Result<(usize, usize), Error>,
); 27] = [
    ("take", 1, -2, [(2, 3), (1, 1)], Ok((1, 2))),
    (
        "take",
        i64::MIN / 1000000,
        i64::MIN,
        [(2, 3), (1, 1)],
        Ok((2, 3)),
    ),
    ("take", 1, 0, [(2, 3), (1, 1)], Err(Error::CALC)),
    ("rows", 0, 0, [(2, 3), (1, 1)], Err(Error::CALC)),
    ("rows", -1, 0, [(2, 3), (1, 1)], Ok((1, 3))),
    ("drop", 1, 0, [(2, 3), (1, 1)], Ok((1, 3))),
    ("drop", -1, -2, [(2, 3), (1, 1)], Ok((1, 1))),
    ("drop", 2, 0, [(2, 3), (1, 1)], Err(Error::CALC)),
    ("drop", 0, i64::MIN, [(2, 3), (1, 1)], Err(Error::CALC)),
    ("expand", 3, 2, [(2, 1), (1, 1)], Ok((3, 2))),
    ("expand", 2, 1, [(3, 1), (1, 1)], Err(Error::VALUE)),
    ("expand", 3, 1, [(2, 2), (1, 1)], Err(Error::VALUE)),
    ("expand", 1000, 1001, [(2, 2), (1, 1)], Err(Error::ERROR)),
    ("expand", 2, 16385, [(2, 2), (1, 1)], Err(Error::VALUE)),
    ("hstack", 0, 0, [(2, 1), (1, 1)], Ok((2, 2))),
    ("vstack", 0, 0, [(1, 2), (1, 1)], Ok((2, 2))),
    ("columns", 1, 3, [(2, 3), (1, 1)], Ok((2, 2))),
    ("columns", 1, 0, [(2, 3), (1, 1)], Err(Error::VALUE)),
    ("chosen", -1, -2, [(2, 3), (1, 1)], Ok((2, 3))),
    ("chosen", 1, 5, [(2, 3), (1, 1)], Err(Error::VALUE)),
    ("chosen", 1, -3, [(2, 3), (1, 1)], Err(Error::VALUE)),
    ("transpose", 0, 0, [(2, 3), (1, 1)], Ok((3, 2))),
    ("wrapped", 3, 0, [(5, 1), (1, 1)], Ok((2, 3))),
    ("wrapped", 2, 0, [(2, 2), (1, 1)], Err(Error::VALUE)),
    ("wrapped", 0, 0, [(1, 3), (1, 1)], Err(Error::VALUE)),
    ("wrapped", 16385, 0, [(1, 3), (1, 1)], Err(Error::VALUE)),
    ("folded", 2, 0, [(1, 3), (1, 1)], Ok((2, 2))),
];

#[test]
fn sizes_or_errors_are_those_of_the_rows(rt: HostRuntime) -> Result<(), Fail> {
    for &(word, first, second, arrays, wanted) in &SIZES {
        let reshape = call(rt.alloc(), word, first, second)?;
        let found = match reshaped_size(&reshape, &sizes_of(arrays), 1000000) {
            Fitted::Size(size) => Some(Ok((size.rows, size.columns))),
            Fitted::Wrong(error) => Some(Err(error)),
            Fitted::TooLong => None,
        };
        assert!(rt; found == Some(wanted), "{word} {first} {second}");
    }
    let long = sizes_of([(1, usize::MAX), (1, 1)]);
    assert!(rt; reshaped_size(&Reshape::Hstack, &long, 1000000) == Fitted::TooLong);
    assert!(rt; reshaped_size(&Reshape::Vstack, &long, 1000000) != Fitted::TooLong);
    Ok(())
}

/// Calls by their words and two numbers, the rows and columns of two arrays `a` and `b`, a place, and its position: a place in
/// one of them, the pad `p`, or `n`, which is not available.
static POSITIONS: [(
    &str,
    i64,
    i64,
    [(usize, usize); 2],
    (usize, usize),
    (char, usize, usize),
); 22] = [
    ("take", 1, -2, [(2, 3), (1, 1)], (0, 1), ('a', 0, 2)),
    ("rows", -1, 0, [(2, 3), (1, 1)], (0, 1), ('a', 1, 1)),
    ("take", i64::MIN, 1, [(2, 3), (1, 1)], (1, 0), ('a', 1, 0)),
    ("drop", 1, 0, [(2, 3), (1, 1)], (0, 2), ('a', 1, 2)),
    ("drop", -1, 1, [(2, 3), (1, 1)], (0, 0), ('a', 0, 1)),
    ("expand", 3, 2, [(2, 1), (1, 1)], (1, 0), ('a', 1, 0)),
    ("expand", 3, 2, [(2, 1), (1, 1)], (1, 1), ('p', 0, 0)),
    ("expand", 3, 2, [(2, 1), (1, 1)], (2, 0), ('p', 0, 0)),
    ("hstack", 0, 0, [(2, 1), (1, 1)], (1, 0), ('a', 1, 0)),
    ("hstack", 0, 0, [(2, 1), (1, 1)], (0, 1), ('b', 0, 0)),
    ("hstack", 0, 0, [(2, 1), (1, 1)], (1, 1), ('n', 0, 0)),
    ("vstack", 0, 0, [(1, 2), (1, 1)], (0, 1), ('a', 0, 1)),
    ("vstack", 0, 0, [(1, 2), (1, 1)], (1, 0), ('b', 0, 0)),
    ("vstack", 0, 0, [(1, 2), (1, 1)], (1, 1), ('n', 0, 0)),
    ("columns", 1, -1, [(2, 3), (1, 1)], (1, 1), ('a', 1, 2)),
    ("chosen", -1, -2, [(2, 3), (1, 1)], (0, 2), ('a', 1, 2)),
    ("transpose", 0, 0, [(2, 3), (1, 1)], (2, 1), ('a', 1, 2)),
    ("wrapped", 3, 0, [(5, 1), (1, 1)], (1, 1), ('a', 4, 0)),
    ("wrapped", 3, 0, [(5, 1), (1, 1)], (1, 2), ('p', 0, 0)),
    ("folded", 2, 0, [(1, 3), (1, 1)], (0, 1), ('a', 0, 2)),
    ("folded", 2, 0, [(1, 3), (1, 1)], (1, 0), ('a', 0, 1)),
    ("folded", 2, 0, [(1, 3), (1, 1)], (1, 1), ('p', 0, 0)),
];

#[test]
fn positions_are_those_of_the_rows(rt: HostRuntime) -> Result<(), Fail> {
    for &(word, first, second, arrays, place, wanted) in &POSITIONS {
        let reshape = call(rt.alloc(), word, first, second)?;
        let found = position_at(&reshape, &sizes_of(arrays), place.0, place.1);
        assert!(rt;
            found == Some(position_of(wanted)),
            "{word} {first} {second}"
        );
    }
    Ok(())
}

fn position_of(wanted: (char, usize, usize)) -> Position {
    let (letter, row, column) = wanted;
    match letter {
        'a' => Position::Part {
            index: 0,
            row,
            column,
        },
        'b' => Position::Part {
            index: 1,
            row,
            column,
        },
        'p' => Position::Pad,
        _ => Position::NotAvailable,
    }
}

fn sizes_of(arrays: [(usize, usize); 2]) -> [Size; 2] {
    [size_of(arrays[0]), size_of(arrays[1])]
}

fn size_of(array: (usize, usize)) -> Size {
    Size {
        rows: array.0,
        columns: array.1,
    }
}

fn position_at(reshape: &Reshape, sizes: &[Size], row: usize, column: usize) -> Option<Position>
    requires { 0 < length sizes.now }
{
    match reshaped_size(reshape, sizes, 1000000) {
        Fitted::Size(size) => {
            if row < size.rows && column < size.columns {
                Some(position_in(reshape, sizes, row, column))
            } else {
                None
            }
        }
        _ => None,
    }
}

fn call(alloc: Global, word: &str, first: i64, second: i64) -> Result<Reshape, Memory> {
    let count = first.unsigned_abs() as usize;
    let call = match word {
        "take" => Reshape::Take {
            rows: first,
            columns: Some(second),
        },
        "rows" => Reshape::Take {
            rows: first,
            columns: None,
        },
        "drop" => Reshape::DropOff {
            rows: first,
            columns: Some(second),
        },
        "expand" => Reshape::Expand {
            rows: count,
            columns: second.unsigned_abs() as usize,
        },
        "wrapped" => Reshape::WrapRows { count },
        "folded" => Reshape::WrapColumns { count },
        "columns" => Reshape::ChooseColumns {
            numbers: numbers(alloc, first, second)?,
        },
        "chosen" => Reshape::ChooseRows {
            numbers: numbers(alloc, first, second)?,
        },
        "hstack" => Reshape::Hstack,
        "vstack" => Reshape::Vstack,
        _ => Reshape::Transpose,
    };
    Ok(call)
}

fn numbers(alloc: Global, first: i64, second: i64) -> Result<Numbers, Memory> {
    let mut numbers = Numbers::new(alloc);
    numbers.push(first)?;
    numbers.push(second)?;
    Ok(numbers)
}

#[test]
fn numbers_keep_what_was_put_in(rt: HostRuntime) -> Result<(), Fail> {
    let numbers = numbers(rt.alloc(), i64::MIN, 2)?;
    assert_eq!(rt; numbers.len(), 2);
    assert!(rt; numbers.get(0) == Some(i64::MIN));
    assert!(rt; numbers.get(2) == None);
    assert_eq!(rt; numbers.as_slice(), [i64::MIN, 2].as_slice());
    Ok(())
}

/// Indices, starts and steps in millionths, and the elements; none where they are out of range.
static ELEMENTS: [(usize, i64, i64, Option<i64>); 6] = [
    (3, 10000000, -3000000, Some(1000000)),
    (
        2,
        -9223372036854000000,
        9223372036854000000,
        Some(9223372036854000000),
    ),
    (1, i64::MAX, 1, None),
    (1, i64::MIN, -1, None),
    (usize::MAX, i64::MIN, i64::MIN, None),
    (usize::MAX, 5, 0, Some(5)),
];

#[test]
fn elements_of_sequences_are_exact(rt: HostRuntime) {
    for &(index, start, step, wanted) in &ELEMENTS {
        let wanted = match wanted {
            Some(number) => ArrayNode::Number(number),
            None => ArrayNode::Error(Error::NUM),
        };
        assert!(rt; sequence_element(index, start, step) == wanted);
    }
}
