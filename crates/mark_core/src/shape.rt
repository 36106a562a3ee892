ghost use Rattle.std.specs.Prelude.{◌≡◌, ◌+◌, ◌≤◌, ◌&&◌};
ghost use Rattle.kind_table.specs.OwnRow.{shows_of};
ghost use Rattle.shape_core.specs.Shape.{passed};
ghost use Rattle.mark_core.specs.Mark.{bare_shape, calls_here, same_seen, same_shape, same_shown};

use crate::mark::{Form, Seen};
use kind_table::{Asks, Shown, Shows, StaticResult, own_row};
use tree_core::{Function, Steps};

/// The shape of a bare node over what its parts show and over their shapes. The table is asked at most once, and for a call alone.
pub fn bare_shape<K: Asks<L>, L>(
    form: Form,
    shows: &[Shown],
    shapes: &[StaticResult],
    kinds: &K,
    steps: &mut Steps<L>,
) -> StaticResult
    ensures value { result ≡ bare_shape (K.table kinds.now) form shows.now shapes.now }
    ensures counted { steps.new ≤ steps.old + calls_here form }
{
    match form {
        Form::Whole(shape) => shape,
        Form::Passing => passed(shapes),
        Form::Spill => StaticResult::Unknown,
        Form::Call(Function::Other(id)) => kinds.shape(id, shapes, steps),
        Form::Call(kind) => own_row(kind, shows_of(shows), shapes),
    }
}

/// What is asked of arguments that show this.
fn shows_of(shows: &[Shown]) -> Shows
    ensures { result ≡ shows_of shows.now }
{
    Shows {
        count: shows.len(),
        first: shows.get(0).copied(),
        fourth: shows.get(3).copied(),
        fifth: shows.get(4).copied(),
    }
}

fn passed(shapes: &[StaticResult]) -> StaticResult
    ensures { result ≡ passed shapes.now }
{
    match shapes {
        [] => StaticResult::Scalar,
        [shape] => *shape,
        [left, right, ..] => left.combined(*right),
    }
}

/// Whether the same is seen of two nodes.
pub(crate) fn same_seen(left: Seen, right: Seen) -> bool
    ensures { result ≡ same_seen left right }
{
    same_shape(left.shape, right.shape) && same_shown(left.shows, right.shows)
}

/// Whether two shapes are the same.
fn same_shape(left: StaticResult, right: StaticResult) -> bool
    ensures { result ≡ same_shape left right }
{
    match (left, right) {
        (StaticResult::Scalar, StaticResult::Scalar) => true,
        (StaticResult::Unknown, StaticResult::Unknown) => true,
        (StaticResult::Array(rows, columns), StaticResult::Array(other_rows, other_columns)) => {
            rows == other_rows && columns == other_columns
        }
        (StaticResult::Range(rows, columns), StaticResult::Range(other_rows, other_columns)) => {
            rows == other_rows && columns == other_columns
        }
        _ => false,
    }
}

/// Whether two nodes show the same.
fn same_shown(left: Shown, right: Shown) -> bool
    ensures { result ≡ same_shown left right }
{
    match (left, right) {
        (Shown::Nothing, Shown::Nothing) => true,
        (Shown::One, Shown::One) => true,
        (Shown::Reference, Shown::Reference) => true,
        (
            Shown::Range {
                same_row,
                same_column,
            },
            Shown::Range {
                same_row: other_row,
                same_column: other_column,
            },
        ) => same_row == other_row && same_column == other_column,
        _ => false,
    }
}
