ghost use Rattle.std.specs.Prelude.{◌≡◌, ◌+ℤ◌, ◌≤ℤ◌, negsuc, pos};
ghost use Rattle.corner_core.specs.End.{end_at, line_at, on_sheet};

use tree_core::Corner;
use value_core::{CellReferenceIndex, LAST_COLUMN, LAST_ROW};

/// A row or column of a reference, counted from that of the formula's cell where it isn't absolute.
fn line_at(absolute: bool, own: i32, line: i32) -> i64
    ensures { result ≡ line_at absolute own line }
{
    if absolute {
        line as i64
    } else {
        own as i64 + line as i64
    }
}

fn on_sheet(sheet: u32, row: i64, column: i64) -> Option<CellReferenceIndex>
    ensures { result ≡ on_sheet sheet row column }
{
    if 1 <= row && row <= LAST_ROW as i64 && 1 <= column && column <= LAST_COLUMN as i64 {
        Some(CellReferenceIndex {
            sheet,
            row: row as i32,
            column: column as i32,
        })
    } else {
        None
    }
}

/// The cell where an end of a reference lies, for a formula in `cell`: `None` where its row or column is none of a sheet. It
/// takes no memory.
pub fn end_at(cell: CellReferenceIndex, sheet: u32, corner: Corner) -> Option<CellReferenceIndex>
    ensures { result ≡ end_at cell sheet corner }
{
    let row = line_at(corner.absolute_row, cell.row, corner.row);
    let column = line_at(corner.absolute_column, cell.column, corner.column);
    on_sheet(sheet, row, column)
}
