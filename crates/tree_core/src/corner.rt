ghost use Rattle.std.specs.Prelude.{◌≡◌, ◌↔◌, IsTrue};
ghost use Rattle.tree_core.specs.Formula.{corner};

/// Where one end of a reference lies. Its row or column is absolute where the flag holds, else it is the difference to that of
/// the formula's cell.
#[derive(Clone, Copy, Debug, PartialEq, Eq)]
pub struct Corner {
    pub absolute_row: bool,
    pub absolute_column: bool,
    pub row: i32,
    pub column: i32,
}

impl Corner {
    pub fn new(absolute_row: bool, absolute_column: bool, row: i32, column: i32) -> Corner
        ensures { result ≡ corner absolute_row absolute_column row column }
    {
        Corner {
            absolute_row,
            absolute_column,
            row,
            column,
        }
    }

    pub(crate) fn is(self, other: Corner) -> bool
        ensures { IsTrue result ↔ (self ≡ other) }
    {
        self.absolute_row == other.absolute_row
            && self.absolute_column == other.absolute_column
            && self.row == other.row
            && self.column == other.column
    }
}
