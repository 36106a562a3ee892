ghost use Rattle.std.specs.Prelude.{◌≡◌, ◌<◌, ◌≤◌, ◌^◌, None, length};
ghost use Rattle.position_core.specs.Check.{counted, fitted, refused};
ghost use Rattle.position_core.specs.Sized.{reshaped, size};
ghost use Rattle.position_core.specs.Place.{HasPlacesIfAny, IsAsked, IsSizeOf};

use crate::axis::{dropped, dropped_if, taken, taken_if};
use crate::checks::{cells, refused};
use crate::reshape::{Fitted, Reshape, Size};
use crate::stacks::{greatest_columns, greatest_rows, total_columns, total_rows};

/// The size of what a call gives, in rows and columns, under a greatest number of elements; or the error that it answers,
/// which is that of the first check on the numbers and the sizes that isn't passed. `TooLong` exactly where a stack has more
/// rows or columns than a `usize` counts.
///
/// Where all the arrays have at least one row and one column, and a chooser at least one number, a size has at least one row
/// and one column.
pub fn reshaped_size(reshape: &Reshape, sizes: &[Size], limit: usize) -> Fitted
    requires some { 0 < length sizes.now }
    requires limit { limit ≤ 16777216 }
    ensures value { result ≡ fitted reshape.now sizes.now limit }
    ensures answer { IsSizeOf reshape.now sizes.now result }
    ensures places { IsAsked reshape.now sizes.now → HasPlacesIfAny result }
{
    match refused(reshape, sizes, limit) {
        Some(error) => Fitted::Wrong(error),
        None => size_of(reshape, sizes, limit),
    }
}

fn size_of(reshape: &Reshape, sizes: &[Size], limit: usize) -> Fitted
    requires some { 0 < length sizes.now }
    requires fits { refused reshape.now sizes.now limit ≡ None }
    ensures { result ≡ counted (reshaped reshape.now sizes.now) }
{
    let size = sizes[0];
    match reshape {
        Reshape::Take { rows, columns } => {
            sized(taken(*rows, size.rows), taken_if(*columns, size.columns))
        }
        Reshape::DropOff { rows, columns } => sized(
            dropped(*rows, size.rows),
            dropped_if(*columns, size.columns),
        ),
        Reshape::Expand { rows, columns } => sized(*rows, *columns),
        Reshape::Transpose => sized(size.columns, size.rows),
        Reshape::WrapRows { count } => sized(cells(size).div_ceil(*count), *count),
        Reshape::WrapColumns { count } => sized(*count, cells(size).div_ceil(*count)),
        Reshape::ChooseColumns { numbers } => sized(size.rows, numbers.len()),
        Reshape::ChooseRows { numbers } => sized(numbers.len(), size.columns),
        Reshape::Hstack => match total_columns(sizes) {
            Some(columns) => sized(greatest_rows(sizes), columns),
            None => Fitted::TooLong,
        },
        Reshape::Vstack => match total_rows(sizes) {
            Some(rows) => sized(rows, greatest_columns(sizes)),
            None => Fitted::TooLong,
        },
    }
}

fn sized(rows: usize, columns: usize) -> Fitted
    ensures { result ≡ counted (size rows columns) }
{
    Fitted::Size(Size { rows, columns })
}
