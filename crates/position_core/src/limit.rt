ghost use Rattle.std.specs.Prelude.{◌≡◌};
ghost use Rattle.position_core.specs.Limit.{size_check};

use std::fmt;
use value_core::Error;

/// The limit that an array passes: the columns of a sheet, its rows, or so many elements.
#[derive(Clone, Copy, Debug, PartialEq, Eq)]
pub enum SizeLimit {
    Columns,
    Rows,
    Cells(usize),
}

impl fmt::Display for SizeLimit {
    ghost use Rattle.std.specs.Prelude.{Some};
    ghost use Rattle.position_core.specs.Limit.{limit_text};

    ghost output = { λ limit. Some (limit_text limit) };

    fn fmt<W: fmt::Write>(&self, f: &mut fmt::Formatter<W>) -> fmt::Result {
        match self {
            SizeLimit::Columns => f.write_str("columns exceeds sheet limit of 16384"),
            SizeLimit::Rows => f.write_str("rows exceeds sheet limit of 1048576"),
            SizeLimit::Cells(limit) => {
                write!(f, "rows * columns exceeds matrix size limit of {limit}")
            }
        }
    }
}

/// What an array of so many rows and columns answers where it is too large, and which limit it passes: `#VALUE!` for more
/// columns than a sheet has, else `#VALUE!` for more rows, else `#ERROR!` for more elements than the limit.
pub fn check_array_limit(rows: usize, columns: usize, limit: usize) -> Option<(Error, SizeLimit)>
    ensures { result ≡ size_check rows columns limit }
{
    if columns > 16384 {
        Some((Error::VALUE, SizeLimit::Columns))
    } else if rows > 1048576 {
        Some((Error::VALUE, SizeLimit::Rows))
    } else if rows * columns > limit {
        Some((Error::ERROR, SizeLimit::Cells(limit)))
    } else {
        None
    }
}

/// The same under the limit of 1000000 elements.
pub fn check_array_size(rows: usize, columns: usize) -> Option<(Error, SizeLimit)>
    ensures { result ≡ size_check rows columns 1000000 }
{
    check_array_limit(rows, columns, 1000000)
}
