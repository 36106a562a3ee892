ghost use Rattle.std.specs.Prelude.{◌≡◌, pos, ◌+ℤ◌, ◌-ℤ◌, ◌≤ℤ◌};
ghost use Rattle.std.specs.Int.{int_max, int_min};
ghost use Rattle.tree_core.specs.View.{leaf_in};
ghost use Rattle.shape_core.specs.Shape.{extent, dimension, leaf_shape, literal_shape, range_shape};

use kind_table::StaticResult;
use tree_core::{Corner, Leaf, Rows};

const LAST_ROW: i32 = 1048576;

const LAST_COLUMN: i32 = 16384;

/// The shape of a bare node without children.
pub fn leaf_shape(leaf: Leaf) -> StaticResult
    ensures { result ≡ leaf_shape (leaf_in leaf.entry) }
{
    match leaf {
        Leaf::Range { left, right, .. } => range_shape(left, right),
        Leaf::Array(rows) => literal_shape(rows),
        Leaf::DefinedName(_) | Leaf::TableName(_) => StaticResult::Unknown,
        Leaf::Boolean(_)
        | Leaf::Number(_)
        | Leaf::Text(_)
        | Leaf::Error(_)
        | Leaf::Empty
        | Leaf::Reference { .. }
        | Leaf::WrongReference { .. }
        | Leaf::WrongRange { .. }
        | Leaf::Variable { .. }
        | Leaf::ParseError { .. } => StaticResult::Scalar,
    }
}

fn literal_shape(rows: &Rows) -> StaticResult
    ensures { result ≡ literal_shape rows.now }
{
    let columns = match rows.get(0) {
        Some(row) => row.len(),
        None => 0,
    };
    StaticResult::Array(dimension(rows.len()), dimension(columns))
}

/// The shape of a range between two ends.
pub fn range_shape(left: Corner, right: Corner) -> StaticResult
    ensures { result ≡ range_shape left right }
{
    StaticResult::Range(
        extent(
            left.absolute_row,
            right.absolute_row,
            left.row,
            right.row,
            LAST_ROW,
        ),
        extent(
            left.absolute_column,
            right.absolute_column,
            left.column,
            right.column,
            LAST_COLUMN,
        ),
    )
}

/// How many rows or columns lie between two ends, of at most so many.
fn extent(absolute1: bool, absolute2: bool, first: i32, last: i32, most: i32) -> i32
    ensures { result ≡ extent absolute1 absolute2 first last most }
{
    if absolute1 == absolute2 {
        at_most(count_between(first, last), most)
    } else {
        most
    }
}

fn count_between(first: i32, last: i32) -> i64
    ensures value { result ≡ int_max first last -ℤ int_min first last +ℤ pos 1 }
    ensures positive { pos 1 ≤ℤ result }
{
    if first <= last {
        count_up(first, last)
    } else {
        count_up(last, first)
    }
}

fn count_up(first: i32, last: i32) -> i64
    requires { first ≤ℤ last }
    ensures value { result ≡ last -ℤ first +ℤ pos 1 }
    ensures positive { pos 1 ≤ℤ result }
{
    last as i64 - first as i64 + 1
}

fn at_most(count: i64, most: i32) -> i32
    requires { pos 1 ≤ℤ count }
    ensures { result ≡ int_min count most }
{
    if count < most as i64 {
        count as i32
    } else {
        most
    }
}

/// A dimension of an array literal of so many rows or columns.
fn dimension(count: usize) -> i32
    ensures { result ≡ dimension count }
{
    if count == 0 {
        1
    } else if count < 2147483647 {
        count as i32
    } else {
        2147483647
    }
}
