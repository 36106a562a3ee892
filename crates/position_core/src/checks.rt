ghost use Rattle.std.specs.Prelude.{◌≡◌, ◌<◌, length, IsTrue, if◌then◌else◌};
ghost use Rattle.position_core.specs.Check.{are_choices, checked, is_line, is_zero, is_zero_if, refused};
ghost use Rattle.position_core.specs.Sized.{cells};

use crate::axis::{dropped, dropped_if, is_choice};
use crate::limit::check_array_limit;
use crate::reshape::{Reshape, Size};
use value_core::Error;

/// The error of the first check that the numbers and the sizes don't pass.
pub(crate) fn refused(reshape: &Reshape, sizes: &[Size], limit: usize) -> Option<Error>
    requires { 0 < length sizes.now }
    ensures { result ≡ refused reshape.now sizes.now limit }
{
    let size = sizes[0];
    match reshape {
        Reshape::Take { rows, columns } => {
            error_if(is_zero(*rows) || is_zero_if(*columns), Error::CALC)
        }
        Reshape::DropOff { rows, columns } => error_if(
            dropped(*rows, size.rows) == 0 || dropped_if(*columns, size.columns) == 0,
            Error::CALC,
        ),
        Reshape::Expand { rows, columns } => {
            if *rows < size.rows || *columns < size.columns {
                Some(Error::VALUE)
            } else {
                checked(*rows, *columns, limit)
            }
        }
        Reshape::WrapRows { count } => {
            if !is_line(size) || *count == 0 {
                Some(Error::VALUE)
            } else {
                checked(cells(size).div_ceil(*count), *count, limit)
            }
        }
        Reshape::WrapColumns { count } => {
            if !is_line(size) || *count == 0 {
                Some(Error::VALUE)
            } else {
                checked(*count, cells(size).div_ceil(*count), limit)
            }
        }
        Reshape::ChooseColumns { numbers } => {
            error_if(!are_choices(numbers.as_slice(), size.columns), Error::VALUE)
        }
        Reshape::ChooseRows { numbers } => {
            error_if(!are_choices(numbers.as_slice(), size.rows), Error::VALUE)
        }
        Reshape::Transpose | Reshape::Hstack | Reshape::Vstack => None,
    }
}

fn error_if(wrong: bool, error: Error) -> Option<Error>
    ensures { result ≡ if wrong then Some error else None }
{
    if wrong { Some(error) } else { None }
}

fn is_zero(number: i64) -> bool
    ensures { result ≡ is_zero number }
{
    number.unsigned_abs() == 0
}

fn is_zero_if(number: Option<i64>) -> bool
    ensures { result ≡ is_zero_if number }
{
    match number {
        Some(number) => is_zero(number),
        None => false,
    }
}

fn are_choices(numbers: &[i64], total: usize) -> bool
    ensures { result ≡ are_choices numbers.now total }
{
    for number in numbers {
        if !is_choice(*number, total) {
            return false;
        }
    }
    true
}

/// Whether an array of a size is one row or one column.
pub(crate) fn is_line(size: Size) -> bool
    ensures { result ≡ is_line size }
{
    size.rows == 1 || size.columns == 1
}

/// How many elements one row or one column has.
pub(crate) fn cells(size: Size) -> usize
    requires { IsTrue (is_line size) }
    ensures { result ≡ cells size }
{
    if size.rows == 1 {
        size.columns
    } else {
        size.rows
    }
}

/// The error of an array of so many rows and columns that is too large, as `check_array_limit` tells it.
pub fn checked(rows: usize, columns: usize, limit: usize) -> Option<Error>
    ensures { result ≡ checked rows columns limit }
{
    match check_array_limit(rows, columns, limit) {
        Some((error, _)) => Some(error),
        None => None,
    }
}
