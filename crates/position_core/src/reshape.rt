use crate::numbers::Numbers;
use value_core::Error;

/// So many rows and columns.
#[derive(Clone, Copy, Debug, PartialEq, Eq)]
pub struct Size {
    pub rows: usize,
    pub columns: usize,
}

/// A call that moves the elements of its arrays and looks at none. Its numbers are plain counts and not millionths: a
/// negative one counts from the end. The stacks take several arrays, the others one.
#[derive(Debug, Drop)]
pub enum Reshape {
    /// TAKE: the first rows and columns, or the last ones.
    Take { rows: i64, columns: Option<i64> },
    /// DROP: all but the first rows and columns, or but the last ones.
    DropOff { rows: i64, columns: Option<i64> },
    /// EXPAND: the array, made so large with a pad.
    Expand { rows: usize, columns: usize },
    /// TRANSPOSE: rows as columns.
    Transpose,
    /// WRAPROWS: a row or column, in rows of so many.
    WrapRows { count: usize },
    /// WRAPCOLS: a row or column, in columns of so many.
    WrapColumns { count: usize },
    /// CHOOSECOLS: columns by their numbers, from 1.
    ChooseColumns { numbers: Numbers },
    /// CHOOSEROWS: rows by their numbers, from 1.
    ChooseRows { numbers: Numbers },
    /// HSTACK: the arrays beside each other.
    Hstack,
    /// VSTACK: the arrays below each other.
    Vstack,
}

/// What a call makes of the sizes of its arrays: a size, the error that it answers, or more rows or columns than a `usize`
/// counts.
#[derive(Clone, Copy, Debug, PartialEq, Eq)]
pub enum Fitted {
    Size(Size),
    Wrong(Error),
    TooLong,
}
