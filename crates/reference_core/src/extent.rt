ghost use Rattle.std.specs.Prelude.{◌≡◌, ◌≤◌};
ghost use Rattle.reference_core.specs.Extent.{columns_of, rows_of};

use book_core::line_count;
use value_core::Range;

/// How many rows a range has: at least one, also where its ends are out of order.
pub fn rows_of(range: Range) -> usize
    ensures { result ≡ rows_of range }
{
    line_count(range.left.row, range.right.row)
}

/// How many columns a range has: at least one, also where its ends are out of order.
pub fn columns_of(range: Range) -> usize
    ensures { result ≡ columns_of range }
{
    line_count(range.left.column, range.right.column)
}
