ghost use Rattle.std.specs.Prelude.{◌≡◌, ◌-◌, IfOk, length, Some};
ghost use Rattle.std.specs.List.{list_all, prefix_len, suffix_len};
ghost use Rattle.grid_core.specs.declared.calc_result.CalcResult.TheVariants.{Error as Wrong};
ghost use Rattle.kept_ops.specs.Lines.{one_line};
ghost use Rattle.kept_ops.specs.Trim.{blank_lines, crossing_or_reference, is_blank, itself, span_of, span_within, trim_of, trimmed};

use crate::lines::Lines;
use crate::modes::{Mode, mode_of_short};
use crate::part::{Span, crossing};
use grid_core::CalcResult;
use rectangle_core::Grid;
use std::alloc::Global;
use value_core::{ArrayNode, CellReferenceIndex, Error, Memory};

/// TRIMRANGE: a rectangle without the rows and the columns at its ends that are blank throughout. A mode 1 leaves out leading
/// ones, 2 trailing ones, 3 both, 0 neither; any other mode is `#VALUE!`. Where nothing is left it is `#REF!`. The cell is the
/// origin of both.
pub fn trim(
    alloc: Global,
    cell: CellReferenceIndex,
    grid: &Grid,
    rows_mode: i32,
    columns_mode: i32,
) -> Result<CalcResult, Memory>
    ensures { IfOk result (λ answer. answer ≡ trim_of cell rows_mode columns_mode grid.now) }
{
    match (mode_of_short(rows_mode), mode_of_short(columns_mode)) {
        (Some(down), Some(right)) => trimmed(alloc, cell, grid, down, right),
        (Some(_), None) | (None, _) => Ok(wrong(Error::VALUE, cell)),
    }
}

fn trimmed(
    alloc: Global,
    cell: CellReferenceIndex,
    grid: &Grid,
    down: Mode,
    right: Mode,
) -> Result<CalcResult, Memory>
    ensures { IfOk result (λ answer. answer ≡ trimmed cell (Some down) (Some right) grid.now) }
{
    let rows = span_of(alloc, grid, false, down)?;
    let columns = span_of(alloc, grid, true, right)?;
    crossing_or_reference(alloc, cell, grid, rows, columns)
}

fn wrong(error: Error, origin: CellReferenceIndex) -> CalcResult
    ensures { result ≡ Wrong error origin }
{
    CalcResult::Error { error, origin }
}

fn crossing_or_reference(
    alloc: Global,
    cell: CellReferenceIndex,
    grid: &Grid,
    rows: Span,
    columns: Span,
) -> Result<CalcResult, Memory>
    ensures { IfOk result (λ answer. answer ≡ crossing_or_reference cell grid.now rows columns) }
{
    if rows.stop <= rows.start {
        return Ok(wrong(Error::REF, cell));
    }
    if columns.stop <= columns.start {
        return Ok(wrong(Error::REF, cell));
    }
    let made = crossing(alloc, grid, rows, columns)?;
    Ok(CalcResult::Array(made))
}

/// The lines that are left under a mode.
fn span_of(alloc: Global, grid: &Grid, by_column: bool, mode: Mode) -> Result<Span, Memory>
    ensures { IfOk result (λ span. span ≡ span_of by_column mode grid.now) }
{
    let blank = ArrayNode::Empty;
    let lines = Lines::new(grid, &blank, by_column);
    let blanks = blank_lines(alloc, &lines)?;
    let span = span_within(blanks.as_slice(), mode);
    Ok(span)
}

fn span_within(blanks: &[bool], mode: Mode) -> Span
    ensures { result ≡ span_within mode blanks.now }
{
    Span {
        start: if mode.first { leading(blanks) } else { 0 },
        stop: if mode.second {
            past_last(blanks)
        } else {
            blanks.len()
        },
    }
}

/// How many come before the first line that isn't blank.
fn leading(blanks: &[bool]) -> usize
    ensures { result ≡ prefix_len itself blanks.now }
{
    for (index, blank) in blanks.iter().enumerate() {
        if !*blank {
            return index;
        }
    }
    blanks.len()
}

/// One past the last line that isn't blank; 0 where all are.
fn past_last(blanks: &[bool]) -> usize
    ensures { result ≡ length blanks.now - suffix_len itself blanks.now }
{
    let mut stop = 0;
    for (index, blank) in blanks.iter().enumerate() {
        if !*blank {
            stop = index + 1;
        }
    }
    stop
}

/// Of each line, whether it is blank throughout.
fn blank_lines(alloc: Global, lines: &Lines) -> Result<Vec<bool>, Memory>
    ensures { IfOk result (λ blanks. blanks.items ≡ blank_lines lines.now.by_column lines.now.grid.now) }
{
    let mut blanks = Vec::new(alloc);
    for line in 0..lines.count() {
        blanks.push(is_blank_line(lines, line))?;
    }
    Ok(blanks)
}

fn is_blank_line(lines: &Lines, line: usize) -> bool
    ensures { result ≡ list_all is_blank (one_line lines.now.by_column lines.now.grid.now line) }
{
    let mut all = true;
    for place in 0..lines.length() {
        all &= is_blank(lines.get(line, place));
    }
    all
}

fn is_blank(element: &ArrayNode) -> bool
    ensures { result ≡ is_blank element.now }
{
    match element {
        ArrayNode::Empty => true,
        _ => false,
    }
}
