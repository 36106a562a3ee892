ghost use Rattle.std.specs.Prelude.{◌≡◌, ◌<◌, ◌^◌, SomeIff, if◌then◌else◌};
ghost use Rattle.position_core.specs.Sized.{greatest_columns, greatest_rows, total_columns, total_rows};
ghost use Rattle.position_core.specs.Position.{below, beside, IsWithin};

use crate::position::Position;
use crate::reshape::Size;

/// The rows of arrays below each other; `None` exactly where a `usize` doesn't count them.
pub(crate) fn total_rows(sizes: &[Size]) -> Option<usize>
    ensures { SomeIff result (total_rows sizes.now < 2 ^ 64) (total_rows sizes.now) }
{
    let mut total: usize = 0;
    for size in sizes {
        match total.checked_add(size.rows) {
            Some(sum) => total = sum,
            None => return None,
        }
    }
    Some(total)
}

/// The columns of arrays beside each other; `None` exactly where a `usize` doesn't count them.
pub(crate) fn total_columns(sizes: &[Size]) -> Option<usize>
    ensures { SomeIff result (total_columns sizes.now < 2 ^ 64) (total_columns sizes.now) }
{
    let mut total: usize = 0;
    for size in sizes {
        match total.checked_add(size.columns) {
            Some(sum) => total = sum,
            None => return None,
        }
    }
    Some(total)
}

/// The rows of the array that has most.
pub(crate) fn greatest_rows(sizes: &[Size]) -> usize
    ensures { result ≡ greatest_rows sizes.now }
{
    let mut greatest = 0;
    for size in sizes {
        if greatest < size.rows {
            greatest = size.rows;
        }
    }
    greatest
}

/// The columns of the array that has most.
pub(crate) fn greatest_columns(sizes: &[Size]) -> usize
    ensures { result ≡ greatest_columns sizes.now }
{
    let mut greatest = 0;
    for size in sizes {
        if greatest < size.columns {
            greatest = size.columns;
        }
    }
    greatest
}

/// The place in one of the arrays beside each other.
pub(crate) fn beside(sizes: &[Size], row: usize, column: usize) -> Position
    ensures value { result ≡ beside sizes.now 0 row column }
    ensures within { IsWithin result sizes.now }
{
    let mut rest = column;
    for (index, size) in sizes.iter().enumerate() {
        if rest < size.columns {
            return part_if(row < size.rows, index, row, rest);
        }
        rest -= size.columns;
    }
    Position::NotAvailable
}

/// The place in one of the arrays below each other.
pub(crate) fn below(sizes: &[Size], row: usize, column: usize) -> Position
    ensures value { result ≡ below sizes.now 0 row column }
    ensures within { IsWithin result sizes.now }
{
    let mut rest = row;
    for (index, size) in sizes.iter().enumerate() {
        if rest < size.rows {
            return part_if(column < size.columns, index, rest, column);
        }
        rest -= size.rows;
    }
    Position::NotAvailable
}

fn part_if(there: bool, index: usize, row: usize, column: usize) -> Position
    ensures { result ≡ if there then Position.Part index row column else Position.NotAvailable }
{
    if there {
        Position::Part { index, row, column }
    } else {
        Position::NotAvailable
    }
}
