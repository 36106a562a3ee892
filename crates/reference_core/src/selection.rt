ghost use Rattle.std.specs.Prelude.{◌≡◌, ◌≤◌, IfSome};
ghost use Rattle.reference_core.specs.Selection.{AreAmong, IsWithin, column_asked, index_of, lines_named, row_asked, selected};

/// Rows and columns that follow on each other, by the numbers of the first and the last one, from 1.
#[derive(Clone, Copy, Debug, PartialEq, Eq)]
pub struct Selection {
    pub row1: usize,
    pub row2: usize,
    pub column1: usize,
    pub column2: usize,
}

/// Lines that follow on each other, which are rows or columns, by the numbers of the first and the last one, from 1.
#[derive(Clone, Copy)]
pub(crate) struct Lines {
    pub(crate) first: usize,
    pub(crate) last: usize,
}

/// INDEX: the rows and columns of a rectangle of a size that two numbers name, where 0 names all. `None` exactly where the
/// number of a row or of a column is past the last one.
///
/// With `two_arg`, `row` is the only number that was given: in a rectangle of one row it names a column, in any other one a row,
/// and the number of the other axis counts as 0.
pub fn index_of(
    rows: usize,
    columns: usize,
    row: usize,
    column: usize,
    two_arg: bool,
) -> Option<Selection>
    ensures named { result ≡ index_of rows columns row column two_arg }
    ensures within { 1 ≤ rows → 1 ≤ columns → IfSome result (IsWithin rows columns) }
{
    let down = lines_named(rows, row_asked(two_arg, rows, row));
    let across = lines_named(columns, column_asked(two_arg, rows, row, column));
    selected(down, across)
}

fn selected(rows: Option<Lines>, columns: Option<Lines>) -> Option<Selection>
    ensures { result ≡ selected rows columns }
{
    match (rows, columns) {
        (Some(rows), Some(columns)) => Some(Selection {
            row1: rows.first,
            row2: rows.last,
            column1: columns.first,
            column2: columns.last,
        }),
        _ => None,
    }
}

fn lines_named(count: usize, number: usize) -> Option<Lines>
    ensures named { result ≡ lines_named count number }
    ensures among { 1 ≤ count → IfSome result (AreAmong count) }
{
    if number == 0 {
        Some(Lines {
            first: 1,
            last: count,
        })
    } else if number <= count {
        Some(Lines {
            first: number,
            last: number,
        })
    } else {
        None
    }
}

fn row_asked(alone: bool, rows: usize, row: usize) -> usize
    ensures { result ≡ row_asked alone rows row }
{
    if alone && rows == 1 { 0 } else { row }
}

fn column_asked(alone: bool, rows: usize, row: usize, column: usize) -> usize
    ensures { result ≡ column_asked alone rows row column }
{
    if !alone {
        column
    } else if rows == 1 {
        row
    } else {
        0
    }
}
