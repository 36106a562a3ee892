ghost use Rattle.std.specs.Prelude.{◌≡◌, ◌≤ℤ◌, pos, negsuc};
ghost use Rattle.reference_core.specs.Offset.{cell_on_sheet, extent_asked, extent_of, extents_of, extents_refused, first_cell, first_line, last_cell, last_line, moved_range, offset_of, range_on_sheet};

use number_core::{floor, trunc};
use value_core::{CellReferenceIndex, Error, LAST_COLUMN, LAST_ROW, Range};

/// OFFSET: the range that begins so many rows and columns from the first cell of a reference. The numbers are in millionths;
/// those of rows and columns are cut toward zero. Without a height or a width it is as high or as wide as the reference.
///
/// A height below 1 counts as its ceiling and any other as its floor, and so does a width. `#REF!` where one counts as 0, else
/// `#VALUE!` where one counts as less, and else `#REF!` where the range leaves the sheet.
#[tactic(auto, unfolding(crate::specs::Offset::offset_of))]
pub fn offset_of(
    reference: Range,
    rows: i64,
    columns: i64,
    height: Option<i64>,
    width: Option<i64>,
) -> Result<Range, Error>
    ensures { result ≡ offset_of reference rows columns height width }
{
    let extents = extents_of(reference, height, width);
    match extents_refused(extents) {
        Some(error) => Err(error),
        None => moved_range(reference.left, rows, columns, extents),
    }
}

/// How high and how wide a range is: one less than its rows, and than its columns.
#[derive(Clone, Copy)]
pub(crate) struct Extents {
    pub(crate) height: i64,
    pub(crate) width: i64,
}

fn extents_of(reference: Range, height: Option<i64>, width: Option<i64>) -> Extents
    ensures { result ≡ extents_of reference height width }
{
    Extents {
        height: extent_of(reference.left.row, reference.right.row, height),
        width: extent_of(reference.left.column, reference.right.column, width),
    }
}

/// One less than the rows or columns that a number asks for, or without a number than those from the first to the last.
fn extent_of(first: i32, last: i32, asked: Option<i64>) -> i64
    ensures { result ≡ extent_of first last asked }
{
    match asked {
        Some(number) => extent_asked(number),
        None => {
            if first < last {
                last as i64 - first as i64
            } else {
                0
            }
        }
    }
}

fn extent_asked(number: i64) -> i64
    ensures { result ≡ extent_asked number }
{
    if number < 1000000 {
        floor(number + 999999) - 1
    } else {
        floor(number) - 1
    }
}

fn extents_refused(extents: Extents) -> Option<Error>
    ensures { result ≡ extents_refused extents }
{
    if extents.height == -1 || extents.width == -1 {
        Some(Error::REF)
    } else if extents.height < -1 || extents.width < -1 {
        Some(Error::VALUE)
    } else {
        None
    }
}

fn moved_range(
    from: CellReferenceIndex,
    rows: i64,
    columns: i64,
    extents: Extents,
) -> Result<Range, Error>
    ensures { result ≡ moved_range from rows columns extents }
{
    range_on_sheet(
        first_cell(from, rows, columns),
        last_cell(from, rows, columns, extents),
    )
}

fn first_cell(from: CellReferenceIndex, rows: i64, columns: i64) -> Option<CellReferenceIndex>
    ensures { result ≡ first_cell from rows columns }
{
    let row = first_line(from.row, rows);
    let column = first_line(from.column, columns);
    cell_on_sheet(from.sheet, row, column)
}

fn last_cell(
    from: CellReferenceIndex,
    rows: i64,
    columns: i64,
    extents: Extents,
) -> Option<CellReferenceIndex>
    ensures { result ≡ last_cell from rows columns extents }
{
    let row = last_line(from.row, rows, extents.height);
    let column = last_line(from.column, columns, extents.width);
    cell_on_sheet(from.sheet, row, column)
}

/// The line so many whole lines from another, in a type that holds every sum of two numbers.
fn first_line(line: i32, number: i64) -> i128
    ensures { result ≡ first_line line number }
{
    i128::from(line) + i128::from(trunc(number))
}

fn last_line(line: i32, number: i64, extent: i64) -> i128
    ensures { result ≡ last_line line number extent }
{
    i128::from(line) + i128::from(trunc(number)) + i128::from(extent)
}

fn cell_on_sheet(sheet: u32, row: i128, column: i128) -> Option<CellReferenceIndex>
    ensures { result ≡ cell_on_sheet sheet row column }
{
    if 1 <= row && row <= LAST_ROW as i128 && 1 <= column && column <= LAST_COLUMN as i128 {
        Some(CellReferenceIndex {
            sheet,
            row: row as i32,
            column: column as i32,
        })
    } else {
        None
    }
}

fn range_on_sheet(
    left: Option<CellReferenceIndex>,
    right: Option<CellReferenceIndex>,
) -> Result<Range, Error>
    ensures { result ≡ range_on_sheet left right }
{
    match (left, right) {
        (Some(left), Some(right)) => Ok(Range { left, right }),
        _ => Err(Error::REF),
    }
}
