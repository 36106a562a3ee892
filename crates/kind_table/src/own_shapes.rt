ghost use Rattle.std.specs.Prelude.{◌≡◌, false, option_and_then};
ghost use Rattle.std.specs.Option.{option_map_or};
ghost use Rattle.kind_table.specs.OwnRow.{is_one_if_given, is_reference, line_row, offset_row, own_row_of, same_column, same_row, unless_varied};

use crate::arguments::scalar_arguments;
use crate::shown::Shown;
use crate::static_result::StaticResult;
use call_core::Function;

/// What the arguments of a call show of themselves to the rows that ask for it: the first, the fourth and the fifth, where they
/// are given, of so many.
#[derive(Clone, Copy, Debug)]
pub struct Shows {
    pub count: usize,
    pub first: Option<Shown>,
    pub fourth: Option<Shown>,
    pub fifth: Option<Shown>,
}

/// The shape of a call of an own kind, by what its arguments show and by the shape of each. `Unknown` for `Other`.
pub fn own_row(kind: Function, shows: Shows, shapes: &[StaticResult]) -> StaticResult
    ensures { result ≡ own_row_of kind shows shapes.now }
{
    match kind {
        Function::Choose => scalar_arguments(shapes).as_range(),
        Function::Row => line_row(same_row(shows.first), shapes),
        Function::Column => line_row(same_column(shows.first), shapes),
        Function::Offset => offset_row(shows),
        Function::Rows
        | Function::Columns
        | Function::Areas
        | Function::Address
        | Function::Formulatext
        | Function::Arraytotext => StaticResult::Scalar,
        _ => StaticResult::Unknown,
    }
}

fn same_row(shown: Option<Shown>) -> Option<bool>
    ensures { result ≡ option_and_then same_row shown }
{
    match shown {
        Some(shown) => shown.same_row(),
        None => None,
    }
}

fn same_column(shown: Option<Shown>) -> Option<bool>
    ensures { result ≡ option_and_then same_column shown }
{
    match shown {
        Some(shown) => shown.same_column(),
        None => None,
    }
}

fn unless_varied(single: bool) -> StaticResult
    ensures { result ≡ unless_varied single }
{
    if single {
        StaticResult::Scalar
    } else {
        StaticResult::Unknown
    }
}

/// The shape of ROW or COLUMN: by whether a bare range as first argument stays on the axis, where it is one, and else by the
/// first argument's shape.
fn line_row(same: Option<bool>, shapes: &[StaticResult]) -> StaticResult
    ensures { result ≡ line_row same shapes.now }
{
    match (shapes.first(), same) {
        (None, _) => StaticResult::Scalar,
        (Some(_), Some(same)) => unless_varied(same),
        (Some(StaticResult::Scalar), None) => StaticResult::Scalar,
        (Some(_), None) => StaticResult::Unknown,
    }
}

/// The shape of OFFSET: by what the first, the fourth and the fifth argument show, where they are given.
fn offset_row(shows: Shows) -> StaticResult
    ensures { result ≡ offset_row shows }
{
    if shows.count < 3 {
        return StaticResult::Scalar;
    }
    unless_varied(
        shows_reference(shows.first)
            && is_one_if_given(shows.fourth)
            && is_one_if_given(shows.fifth),
    )
}

fn shows_reference(shown: Option<Shown>) -> bool
    ensures { result ≡ option_map_or is_reference shown false }
{
    match shown {
        Some(shown) => shown.is_reference(),
        None => false,
    }
}

fn is_one_if_given(shown: Option<Shown>) -> bool
    ensures { result ≡ is_one_if_given shown }
{
    match shown {
        Some(shown) => shown.is_one(),
        None => true,
    }
}
