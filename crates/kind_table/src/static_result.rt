ghost use Rattle.std.specs.Prelude.{◌≡◌, ◌↔◌, IsTrue};
ghost use Rattle.std.specs.Int.{int_max};
ghost use Rattle.kind_table.specs.Shape.{IsAtMost, as_array, as_range, combined};

/// The shape of a value, as it is known without evaluation. Dimensions are rows, then columns.
#[derive(Clone, Copy, Debug, PartialEq)]
pub enum StaticResult {
    /// One value.
    Scalar,
    /// An array of at most this size.
    Array(i32, i32),
    /// A range of at most this size.
    Range(i32, i32),
    /// Nothing is known.
    Unknown,
}

impl StaticResult {
    /// Whether every value of this shape is also one of the other: `Scalar` is below all, `Unknown` above all, an
    /// array below the arrays and ranges that are no smaller, a range below such ranges alone.
    pub fn at_most(self, other: StaticResult) -> bool
        ensures { IsTrue result ↔ IsAtMost self other }
    {
        match (self, other) {
            (StaticResult::Scalar, _) => true,
            (_, StaticResult::Unknown) => true,
            (StaticResult::Array(rows, columns), StaticResult::Array(most_rows, most_columns)) => {
                rows <= most_rows && columns <= most_columns
            }
            (StaticResult::Array(rows, columns), StaticResult::Range(most_rows, most_columns)) => {
                rows <= most_rows && columns <= most_columns
            }
            (StaticResult::Range(rows, columns), StaticResult::Range(most_rows, most_columns)) => {
                rows <= most_rows && columns <= most_columns
            }
            _ => false,
        }
    }

    /// The shape with `Range` turned into `Array`.
    pub fn as_array(self) -> StaticResult
        ensures { result ≡ as_array self }
    {
        match self {
            StaticResult::Range(rows, columns) => StaticResult::Array(rows, columns),
            _ => self,
        }
    }

    /// The shape with `Array` turned into `Range`.
    pub fn as_range(self) -> StaticResult
        ensures { result ≡ as_range self }
    {
        match self {
            StaticResult::Array(rows, columns) => StaticResult::Range(rows, columns),
            _ => self,
        }
    }

    /// The shape of two values side by side, each repeated to the other's size: what an operator gives.
    pub fn combined(self, other: StaticResult) -> StaticResult
        ensures { result ≡ combined self other }
    {
        match (self.as_array(), other.as_array()) {
            (StaticResult::Array(rows, columns), StaticResult::Array(other_rows, other_columns)) =>
                { StaticResult::Array(greater(rows, other_rows), greater(columns, other_columns)) }
            (StaticResult::Unknown, _) => StaticResult::Unknown,
            (_, StaticResult::Unknown) => StaticResult::Unknown,
            (StaticResult::Scalar, shape) => shape,
            (shape, _) => shape,
        }
    }
}

fn greater(left: i32, right: i32) -> i32
    ensures { result ≡ int_max left right }
{
    if right < left { left } else { right }
}
