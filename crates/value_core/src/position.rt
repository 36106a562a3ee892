ghost use Rattle.std.specs.Prelude.{◌≡◌};
ghost use Rattle.value_core.specs.Position.{is_on_sheet};

/// The last row of a sheet; rows count from 1.
pub const LAST_ROW: i32 = 1048576;

/// The last column of a sheet; columns count from 1.
pub const LAST_COLUMN: i32 = 16384;

/// A cell: the number of its sheet, from 0, and its row and column, from 1.
#[derive(Clone, Copy, Debug, PartialEq, Eq)]
pub struct CellReferenceIndex {
    pub sheet: u32,
    pub row: i32,
    pub column: i32,
}

impl CellReferenceIndex {
    /// Whether the cell lies on a sheet of a book that has so many sheets.
    pub fn is_on_sheet(self, sheet_count: u32) -> bool
        ensures { result ≡ is_on_sheet sheet_count self }
    {
        self.sheet < sheet_count
            && 1 <= self.row
            && self.row <= LAST_ROW
            && 1 <= self.column
            && self.column <= LAST_COLUMN
    }
}

/// The cells between two ends.
#[derive(Clone, Copy, Debug, PartialEq, Eq)]
pub struct Range {
    pub left: CellReferenceIndex,
    pub right: CellReferenceIndex,
}
