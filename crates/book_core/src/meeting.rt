ghost use Rattle.std.specs.Prelude.{◌≡◌};
ghost use Rattle.book_core.specs.Meeting.{is_line_in, meets, meets_by, same_line};

use value_core::{CellReferenceIndex, Range};

fn is_one_row(range: Range) -> bool
    ensures { result ≡ same_line range.left.row range.right.row }
{
    range.left.row <= range.right.row && range.right.row <= range.left.row
}

fn is_one_column(range: Range) -> bool
    ensures { result ≡ same_line range.left.column range.right.column }
{
    range.left.column <= range.right.column && range.right.column <= range.left.column
}

fn has_row(range: Range, cell: CellReferenceIndex) -> bool
    ensures { result ≡ is_line_in range.left.row range.right.row cell.row }
{
    range.left.row <= cell.row && cell.row <= range.right.row
}

fn has_column(range: Range, cell: CellReferenceIndex) -> bool
    ensures { result ≡ is_line_in range.left.column range.right.column cell.column }
{
    range.left.column <= cell.column && cell.column <= range.right.column
}

/// How a cell lies to a range.
#[derive(Clone, Copy)]
struct Lie {
    one_sheet: bool,
    one_row: bool,
    one_column: bool,
    has_row: bool,
    has_column: bool,
}

#[tactic(auto, unfolding(crate::specs::Meeting::meets_by))]
fn meets_by(
    lie: Lie,
    cell: CellReferenceIndex,
    left: CellReferenceIndex,
) -> Option<CellReferenceIndex>
    ensures { result ≡ meets_by lie.one_sheet lie.one_row lie.one_column lie.has_row lie.has_column cell left }
{
    if !lie.one_sheet {
        None
    } else if lie.one_row && lie.one_column {
        Some(left)
    } else if lie.has_row {
        if lie.one_column {
            Some(CellReferenceIndex {
                sheet: left.sheet,
                row: cell.row,
                column: left.column,
            })
        } else {
            None
        }
    } else if lie.has_column {
        if lie.one_row {
            Some(CellReferenceIndex {
                sheet: left.sheet,
                row: left.row,
                column: cell.column,
            })
        } else {
            None
        }
    } else {
        None
    }
}

/// The cell of a range that `@` finds for a formula in a cell, whose sheet doesn't matter; `None` where it finds none.
///
/// A range of one cell gives that cell. Else the cell's row decides, where the range has it: the range's cell of that row is
/// given if the range has one column. Else the cell's column decides likewise. A range whose ends lie on two sheets gives none,
/// and one whose ends are out of order on an axis has nothing on that axis. It takes no memory.
pub fn implicit_intersection(cell: &CellReferenceIndex, range: &Range) -> Option<CellReferenceIndex>
    ensures { result ≡ meets cell.now range.now.left range.now.right }
{
    let cell = *cell;
    let range = *range;
    let lie = Lie {
        one_sheet: range.left.sheet == range.right.sheet,
        one_row: is_one_row(range),
        one_column: is_one_column(range),
        has_row: has_row(range, cell),
        has_column: has_column(range, cell),
    };
    meets_by(lie, cell, range.left)
}
