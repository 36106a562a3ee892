ghost use Rattle.std.specs.Prelude.{◌≡◌, ◌≤◌, length};
ghost use Rattle.std.specs.Int.{int_max, int_min};
ghost use Rattle.std.specs.List.{position_or_len};
ghost use Rattle.reader_core.specs.Spot.{is_colon, range_in, range_of};

use value_core::{CellReferenceIndex, Range};

/// A cell of some sheet, by its row and column from 1.
#[derive(Clone, Copy)]
pub(crate) struct Spot {
    pub(crate) row: i32,
    pub(crate) column: i32,
}

/// Two corners of a range, in any order.
#[derive(Clone, Copy)]
pub(crate) struct Ends {
    pub(crate) one: Spot,
    pub(crate) other: Spot,
}

fn lesser(a: i32, b: i32) -> i32
    ensures { result ≡ int_min a b }
{
    if b < a { b } else { a }
}

fn greater(a: i32, b: i32) -> i32
    ensures { result ≡ int_max a b }
{
    if a < b { b } else { a }
}

fn range_of(sheet: u32, ends: Ends) -> Range
    ensures { result ≡ range_of sheet ends }
{
    let left = CellReferenceIndex {
        sheet,
        row: lesser(ends.one.row, ends.other.row),
        column: lesser(ends.one.column, ends.other.column),
    };
    let right = CellReferenceIndex {
        sheet,
        row: greater(ends.one.row, ends.other.row),
        column: greater(ends.one.column, ends.other.column),
    };
    Range { left, right }
}

/// The range between two corners on a sheet, where there are both.
pub(crate) fn range_in(sheet: Option<u32>, ends: Option<Ends>) -> Option<Range>
    ensures { result ≡ range_in sheet ends }
{
    match (sheet, ends) {
        (Some(sheet), Some(ends)) => Some(range_of(sheet, ends)),
        _ => None,
    }
}

/// How many bytes of a text stand before its first `:`, or all of them.
pub(crate) fn colon_place(text: &[u8]) -> usize
    ensures place { result ≡ position_or_len is_colon text.now }
    ensures within { result ≤ length text.now }
{
    text.iter().take_while(|byte| **byte != b':').count()
}
