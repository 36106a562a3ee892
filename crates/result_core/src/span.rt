ghost use Rattle.std.specs.Prelude.{◌≡◌};
ghost use Rattle.std.specs.Int.{int_max, int_min};
ghost use Rattle.result_core.specs.Span.{IsNoError, greatest, least, range_between, span_of};

use crate::found::wrong;
use grid_core::CalcResult;
use value_core::{CellReferenceIndex, Error};

fn lesser_line(a: i32, b: i32) -> i32
    ensures { result ≡ int_min a b }
{
    if b < a { b } else { a }
}

fn greater_line(a: i32, b: i32) -> i32
    ensures { result ≡ int_max a b }
{
    if a < b { b } else { a }
}

fn least(a: CellReferenceIndex, b: CellReferenceIndex) -> CellReferenceIndex
    ensures { result ≡ least a b }
{
    CellReferenceIndex {
        sheet: a.sheet,
        row: lesser_line(a.row, b.row),
        column: lesser_line(a.column, b.column),
    }
}

fn greatest(a: CellReferenceIndex, b: CellReferenceIndex) -> CellReferenceIndex
    ensures { result ≡ greatest a b }
{
    CellReferenceIndex {
        sheet: a.sheet,
        row: greater_line(a.row, b.row),
        column: greater_line(a.column, b.column),
    }
}

/// The range of two ends on one sheet, which may be in any order on each axis.
pub fn range_between(a: CellReferenceIndex, b: CellReferenceIndex) -> CalcResult
    ensures { result ≡ range_between a b }
{
    CalcResult::Range {
        left: least(a, b),
        right: greatest(a, b),
    }
}

/// The range operator between two results with reference: the least range that holds both. The left side's error comes first,
/// then the right one's; a side that is no range, and two sheets, are `#REF!`.
pub fn span_of(cell: CellReferenceIndex, left: CalcResult, right: CalcResult) -> CalcResult
    ensures { result ≡ span_of cell left right }
{
    match left {
        CalcResult::Error { error, origin } => {
            drop(right);
            CalcResult::Error { error, origin }
        }
        left => match right {
            CalcResult::Error { error, origin } => {
                drop(left);
                CalcResult::Error { error, origin }
            }
            right => span_of_ranges(cell, left, right),
        },
    }
}

fn span_of_ranges(cell: CellReferenceIndex, left: CalcResult, right: CalcResult) -> CalcResult
    requires left { IsNoError left }
    requires right { IsNoError right }
    ensures { result ≡ span_of cell left right }
{
    match (left, right) {
        (CalcResult::Range { left: a, right: b }, CalcResult::Range { left: c, right: d }) => {
            if a.sheet == c.sheet {
                CalcResult::Range {
                    left: least(a, c),
                    right: greatest(b, d),
                }
            } else {
                wrong(cell, Error::REF)
            }
        }
        (left, right) => {
            drop(left);
            drop(right);
            wrong(cell, Error::REF)
        }
    }
}
