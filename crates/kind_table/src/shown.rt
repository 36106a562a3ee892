/// What an argument shows of itself, before any evaluation, to the functions that ask for it.
#[derive(Clone, Copy, Debug, PartialEq)]
pub enum Shown {
    /// A bare range: whether its ends have the same row flag and the same row number, and likewise for columns.
    Range { same_row: bool, same_column: bool },
    /// A bare reference to one cell.
    Reference,
    /// The bare number 1.
    One,
    /// Any other node, or one under an `@`.
    Nothing,
}

impl Shown {
    ghost use Rattle.std.specs.Prelude.{◌≡◌};
    ghost use Rattle.kind_table.specs.OwnRow.{is_one, is_reference, same_column, same_row};

    /// Whether a bare range stays in one row; `None` for what isn't a bare range.
    pub fn same_row(self) -> Option<bool>
        ensures { result ≡ same_row self }
    {
        match self {
            Shown::Range { same_row, .. } => Some(same_row),
            _ => None,
        }
    }

    /// Whether a bare range stays in one column; `None` for what isn't a bare range.
    pub fn same_column(self) -> Option<bool>
        ensures { result ≡ same_column self }
    {
        match self {
            Shown::Range { same_column, .. } => Some(same_column),
            _ => None,
        }
    }

    /// Whether this is a bare reference to one cell.
    pub fn is_reference(self) -> bool
        ensures { result ≡ is_reference self }
    {
        match self {
            Shown::Reference => true,
            _ => false,
        }
    }

    /// Whether this is the bare number 1.
    pub fn is_one(self) -> bool
        ensures { result ≡ is_one self }
    {
        match self {
            Shown::One => true,
            _ => false,
        }
    }
}
