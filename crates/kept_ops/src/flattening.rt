ghost use Rattle.std.specs.Prelude.{◌≡◌, ◌++◌, IfOk, OnOk, map};
ghost use Rattle.std.specs.List.{filter};
ghost use Rattle.kept_ops.specs.Lines.{one_line, scan};
ghost use Rattle.kept_ops.specs.Flatten.{flatten_of, stays, strip_or_calc};

use crate::lines::Lines;
use crate::modes::{Mode, mode_of};
use crate::strip::strip_of;
use grid_core::CalcResult;
use rectangle_core::Grid;
use std::alloc::Global;
use value_core::{ArrayNode, CellReferenceIndex, Error, Memory};

/// TOCOL and TOROW: the elements of a rectangle by rows, or by columns, as one column or as one row. `ignore` 1 leaves out
/// blanks, 2 errors, 3 both, 0 neither; any other number is `#VALUE!`. Where none is left it is `#CALC!`. The cell is the
/// origin of both.
pub fn flatten(
    alloc: Global,
    cell: CellReferenceIndex,
    grid: &Grid,
    ignore: i64,
    by_column: bool,
    as_column: bool,
) -> Result<CalcResult, Memory>
    ensures { IfOk result (λ answer. answer ≡ flatten_of cell ignore by_column as_column grid.now) }
{
    let blank = ArrayNode::Empty;
    let lines = Lines::new(grid, &blank, by_column);
    match mode_of(ignore) {
        Some(ignore) => {
            let kept = staying(alloc, &lines, ignore)?;
            strip_or_calc(alloc, cell, kept.as_slice(), as_column)
        }
        None => Ok(CalcResult::Error {
            error: Error::VALUE,
            origin: cell,
        }),
    }
}

/// The elements that stay, line by line.
fn staying<'a>(alloc: Global, lines: &Lines<'a>, ignore: Mode) -> Result<Vec<&'a ArrayNode>, Memory>
    ensures { IfOk result (λ kept. map (λ e. e.now) kept.items ≡ filter (stays ignore) (scan lines.now.by_column lines.now.grid.now)) }
{
    let mut kept = Vec::new(alloc);
    for line in 0..lines.count() {
        add_staying(&mut kept, lines, line, ignore)?;
    }
    Ok(kept)
}

fn add_staying<'a>(
    kept: &mut Vec<&'a ArrayNode>,
    lines: &Lines<'a>,
    line: usize,
    ignore: Mode,
) -> Result<(), Memory>
    ensures { OnOk result (map (λ e. e.now) kept.new.items ≡ map (λ e. e.now) kept.old.items ++ filter (stays ignore) (one_line lines.now.by_column lines.now.grid.now line)) }
{
    for place in 0..lines.length() {
        let element = lines.get(line, place);
        if stays(ignore, element) {
            kept.push(element)?;
        }
    }
    Ok(())
}

fn stays(ignore: Mode, element: &ArrayNode) -> bool
    ensures { result ≡ stays ignore element.now }
{
    let is_left_out = match element {
        ArrayNode::Empty => ignore.first,
        ArrayNode::Error(_) => ignore.second,
        ArrayNode::Number(_) | ArrayNode::Boolean(_) | ArrayNode::String(_) => false,
    };
    !is_left_out
}

fn strip_or_calc(
    alloc: Global,
    cell: CellReferenceIndex,
    kept: &[&ArrayNode],
    as_column: bool,
) -> Result<CalcResult, Memory>
    ensures { IfOk result (λ answer. answer ≡ strip_or_calc cell as_column (map (λ e. e.now) kept.now)) }
{
    if kept.is_empty() {
        return Ok(CalcResult::Error {
            error: Error::CALC,
            origin: cell,
        });
    }
    let made = strip_of(alloc, kept, as_column)?;
    Ok(CalcResult::Array(made))
}
