use book_core::line_count;
use grid_core::CalcResult;
use result_core::Found;
use std::alloc::Global;
use value_core::{ArrayNode, Memory};

/// Tries the room that an operator over two sides takes, before a cell of a range among them is read: a result too large for
/// the memory ends at once, and not when a large side was read.
pub(crate) fn try_room(alloc: Global, left: &Found, right: &Found) -> Result<(), Memory> {
    let (left_rows, left_columns) = size_of_found(left);
    let (right_rows, right_columns) = size_of_found(right);
    let (rows, columns) = (left_rows.max(right_rows), left_columns.max(right_columns));
    if rows == 1 && columns == 1 {
        return Ok(());
    }
    match rows.checked_mul(columns) {
        Some(count) => {
            let room: Vec<ArrayNode> = Vec::with_capacity(alloc, count)?;
            drop(room);
            Ok(())
        }
        None => Err(Memory),
    }
}

/// The rows and columns of what was found. A single value has one of each.
fn size_of_found(found: &Found) -> (usize, usize) {
    match found {
        Found::Same(CalcResult::Range { left, right }) => (
            line_count(left.row, right.row),
            line_count(left.column, right.column),
        ),
        Found::Same(CalcResult::Array(grid)) => (grid.rows(), grid.columns()),
        _ => (1, 1),
    }
}
