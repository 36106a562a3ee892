ghost use Rattle.std.specs.Prelude.{◌≡◌};
ghost use Rattle.reader_core.specs.Reading.{read_a1, read_r1c1};

use crate::a1::a1_ends;
use crate::r1c1::r1c1_ends;
use crate::sheet::{body_of, head_of, sheet_of};
use crate::spot::range_in;
use book_core::Book;
use value_core::{CellReferenceIndex, Range};

/// The range that a text means by letters and digits, as `B2`, `$A$1:C3`, `A:B` or `1:2`, its ends in order on each axis. The text
/// may begin with the name of a sheet and `!`, the name in quotes or as it is; it means the first sheet of that name, whatever the
/// case of ASCII letters. Without one the given sheet is meant.
///
/// `None` exactly for any other text, and where the book has no such sheet or the sheet no such place. It takes no memory.
pub fn read_a1<B: Book>(book: &B, sheet: u32, text: &str) -> Option<Range>
    ensures { result ≡ read_a1 (B.contents book.now).sheets sheet text.now }
{
    let text = text.as_bytes();
    let sheet = sheet_of(book, sheet, head_of(text));
    range_in(sheet, a1_ends(body_of(text)))
}

/// The range that a text means by the numbers of rows and columns as it is read in a cell, as `R1C2`, `RC[-1]` or `R1C1:R[2]C`,
/// its ends in order on each axis: behind `R` and behind `C` stands a number from 1, a number in brackets that is added to the
/// cell's own, or nothing for that one. The text may begin with the name of a sheet as in `read_a1`; without one the cell's sheet
/// is meant.
///
/// `None` exactly for any other text, and where the book has no such sheet or the sheet no such place. It takes no memory.
pub fn read_r1c1<B: Book>(book: &B, cell: CellReferenceIndex, text: &str) -> Option<Range>
    ensures { result ≡ read_r1c1 (B.contents book.now).sheets cell text.now }
{
    let text = text.as_bytes();
    let sheet = sheet_of(book, cell.sheet, head_of(text));
    range_in(sheet, r1c1_ends(cell, body_of(text)))
}
