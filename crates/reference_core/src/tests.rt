use super::*;
use value_core::{CellReferenceIndex, Error, Range};

/// Rows and columns, the numbers of a row and of a column, whether the first of them stands alone, and what they name: the first
/// and the last row, the first and the last column.
static NAMED: [(
    (usize, usize),
    (usize, usize),
    bool,
    Option<(usize, usize, usize, usize)>,
); 12] = [
    ((2, 3), (0, 2), false, Some((1, 2, 2, 2))),
    ((2, 3), (2, 3), false, Some((2, 2, 3, 3))),
    ((2, 3), (0, 0), false, Some((1, 2, 1, 3))),
    ((2, 3), (3, 1), false, None),
    ((2, 3), (1, 4), false, None),
    ((1, 3), (3, 1), false, None),
    ((1, 3), (3, 0), true, Some((1, 1, 3, 3))),
    ((1, 3), (0, 0), true, Some((1, 1, 1, 3))),
    ((1, 3), (4, 0), true, None),
    ((3, 1), (3, 0), true, Some((3, 3, 1, 1))),
    ((2, 3), (2, 9), true, Some((2, 2, 1, 3))),
    ((2, 3), (3, 0), true, None),
];

fn is_named(selection: Selection, named: (usize, usize, usize, usize)) -> bool {
    selection.row1 == named.0
        && selection.row2 == named.1
        && selection.column1 == named.2
        && selection.column2 == named.3
}

#[test]
fn two_numbers_name_rows_and_columns(rt: HostRuntime) {
    for &(size, numbers, alone, named) in &NAMED {
        let found = index_of(size.0, size.1, numbers.0, numbers.1, alone);
        assert_eq!(rt; found.is_some(), named.is_some());
        if let (Some(found), Some(named)) = (found, named) {
            assert!(rt; is_named(found, named));
        }
    }
}

fn cell(row: i32, column: i32) -> CellReferenceIndex {
    CellReferenceIndex {
        sheet: 3,
        row,
        column,
    }
}

fn range(rows: (i32, i32), columns: (i32, i32)) -> Range {
    Range {
        left: cell(rows.0, columns.0),
        right: cell(rows.1, columns.1),
    }
}

/// Rows and columns of a reference, then rows and columns from it, a height and a width, all in millionths, and the rows and
/// columns of the range there.
static MOVED: [(
    ((i32, i32), (i32, i32)),
    (i64, i64),
    (Option<i64>, Option<i64>),
    Result<((i32, i32), (i32, i32)), Error>,
); 19] = [
    (
        ((1, 1), (1, 1)),
        (1000000, 1000000),
        (Some(1000000), Some(2000000)),
        Ok(((2, 2), (2, 3))),
    ),
    (
        ((1, 1), (1, 1)),
        (0, 0),
        (Some(500000), None),
        Ok(((1, 1), (1, 1))),
    ),
    (((1, 1), (1, 1)), (0, 0), (Some(0), None), Err(Error::REF)),
    (
        ((1, 1), (1, 1)),
        (0, 0),
        (Some(-1000000), None),
        Err(Error::VALUE),
    ),
    (
        ((1, 1), (1, 1)),
        (-1000000, 0),
        (None, None),
        Err(Error::REF),
    ),
    (
        ((2, 5), (2, 3)),
        (1900000, -1900000),
        (None, None),
        Ok(((3, 6), (1, 2))),
    ),
    (
        ((2, 5), (2, 3)),
        (-999999, 0),
        (Some(2999999), Some(1000001)),
        Ok(((2, 3), (2, 2))),
    ),
    (
        ((1, 1), (1, 1)),
        (0, 0),
        (Some(-500000), None),
        Err(Error::REF),
    ),
    (
        ((1, 1), (1, 1)),
        (0, 0),
        (Some(1), Some(1)),
        Ok(((1, 1), (1, 1))),
    ),
    (
        ((1, 1), (1, 1)),
        (0, 0),
        (Some(-1000000), Some(0)),
        Err(Error::REF),
    ),
    (
        ((1, 1), (1, 1)),
        (-1000000, 0),
        (Some(3000000), Some(-1000000)),
        Err(Error::VALUE),
    ),
    (
        ((1, 1), (1, 1)),
        (1048575000000, 16383000000),
        (None, None),
        Ok(((1048576, 1048576), (16384, 16384))),
    ),
    (
        ((1, 1), (1, 1)),
        (1048576000000, 0),
        (None, None),
        Err(Error::REF),
    ),
    (
        ((1, 1), (1, 1)),
        (0, 16384000000),
        (None, None),
        Err(Error::REF),
    ),
    (
        ((1, 1), (1, 1)),
        (0, 0),
        (Some(1048576000000), None),
        Ok(((1, 1048576), (1, 1))),
    ),
    (
        ((1, 1), (1, 1)),
        (0, 0),
        (Some(1048577000000), None),
        Err(Error::REF),
    ),
    (
        ((1, 1), (1, 1)),
        (0, 0),
        (None, Some(16385000000)),
        Err(Error::REF),
    ),
    (
        ((1, 1), (1, 1)),
        (i64::MAX, i64::MIN),
        (Some(i64::MAX), None),
        Err(Error::REF),
    ),
    (
        ((1, 1), (1, 1)),
        (0, 0),
        (Some(i64::MIN), Some(i64::MIN)),
        Err(Error::VALUE),
    ),
];

#[test]
fn a_range_lies_so_many_rows_and_columns_from_another(rt: HostRuntime) {
    for &(reference, numbers, sizes, expected) in &MOVED {
        let reference = range(reference.0, reference.1);
        let moved = offset_of(reference, numbers.0, numbers.1, sizes.0, sizes.1);
        let expected = expected.map(|(rows, columns)| range(rows, columns));
        assert_eq!(rt; moved, expected);
    }
}

#[test]
fn a_range_has_at_least_one_row_and_one_column(rt: HostRuntime) {
    let wide = range((2, 4), (1, 7));
    assert_eq!(rt; rows_of(wide), 3);
    assert_eq!(rt; columns_of(wide), 7);
    let out_of_order = range((4, 2), (7, 1));
    assert_eq!(rt; rows_of(out_of_order), 1);
    assert_eq!(rt; columns_of(out_of_order), 1);
}
