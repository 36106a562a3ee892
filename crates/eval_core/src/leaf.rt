ghost use Rattle.std.specs.Prelude.{◌≡◌, IfOk};
ghost use Rattle.tree_core.specs.View.{leaf_in};
ghost use Rattle.eval_core.specs.Meaning.{leaf_found, literal_found, range_ends, reference_found};

use corner_core::end_at;
use grid_core::CalcResult;
use rectangle_core::Grid;
use result_core::{Found, range_between, wrong};
use std::alloc::Global;
use tree_core::Leaf;
use validity_core::is_array;
use value_core::{CellReferenceIndex, Error, Memory, Rows};

fn reference_found(cell: CellReferenceIndex, end: Option<CellReferenceIndex>) -> Found
    ensures { result ≡ reference_found cell end }
{
    match end {
        Some(at) => Found::Cell(at),
        None => Found::Same(wrong(cell, Error::REF)),
    }
}

fn range_ends(
    cell: CellReferenceIndex,
    left: Option<CellReferenceIndex>,
    right: Option<CellReferenceIndex>,
) -> CalcResult
    ensures { result ≡ range_ends cell left right }
{
    match (left, right) {
        (Some(left), Some(right)) => range_between(left, right),
        _ => wrong(cell, Error::REF),
    }
}

#[tactic(auto, using(crate::proofs::Literals::literals))]
fn literal_found(alloc: Global, cell: CellReferenceIndex, rows: &Rows) -> Result<CalcResult, Memory>
    ensures { IfOk result (λ made. made ≡ literal_found cell rows.now) }
{
    if !is_array(rows) {
        return Ok(wrong(cell, Error::VALUE));
    }
    match Grid::copied_from_rows(alloc, rows)? {
        Some(grid) => Ok(CalcResult::Array(grid)),
        None => unreachable!(),
    }
}

/// What a node without children comes to.
pub(crate) fn leaf_found(
    alloc: Global,
    cell: CellReferenceIndex,
    leaf: Leaf,
) -> Result<Found, Memory>
    ensures { IfOk result (λ found. found ≡ leaf_found cell (leaf_in leaf.entry)) }
{
    match leaf {
        Leaf::Boolean(value) => Ok(Found::Same(CalcResult::Boolean(value))),
        Leaf::Number(number) => Ok(Found::Same(CalcResult::Number(number))),
        Leaf::Text(text) => Ok(Found::Same(CalcResult::String(text.try_clone(alloc)?))),
        Leaf::Error(error) => Ok(Found::Same(wrong(cell, error))),
        Leaf::Empty => Ok(Found::Same(CalcResult::EmptyArg)),
        Leaf::Reference {
            sheet_index,
            corner,
            ..
        } => Ok(reference_found(cell, end_at(cell, sheet_index, corner))),
        Leaf::Range {
            sheet_index,
            left,
            right,
            ..
        } => {
            let left = end_at(cell, sheet_index, left);
            let right = end_at(cell, sheet_index, right);
            Ok(Found::Same(range_ends(cell, left, right)))
        }
        Leaf::WrongReference { .. } | Leaf::WrongRange { .. } => {
            Ok(Found::Same(wrong(cell, Error::REF)))
        }
        Leaf::Array(rows) => {
            let made = literal_found(alloc, cell, rows)?;
            Ok(Found::Same(made))
        }
        Leaf::DefinedName(_) | Leaf::TableName(_) | Leaf::Variable { .. } => {
            Ok(Found::Same(wrong(cell, Error::NIMPL)))
        }
        Leaf::ParseError { .. } => Ok(Found::Same(wrong(cell, Error::ERROR))),
    }
}
