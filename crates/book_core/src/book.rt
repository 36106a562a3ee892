ghost use Rattle.std.specs.Prelude.{◌≡◌, ◌+◌, length, option_map, slice_get};
ghost use Rattle.book_core.specs.Contents.{Contents};

use call_core::Steps;
use value_core::{ArrayNode, CellReferenceIndex};

/// A workbook of values. No call takes memory.
pub trait Book {
    ghost contents: { Self → Contents };

    /// The number format of a cell, where it has one.
    fn num_fmt(&self, cell: CellReferenceIndex) -> Option<&str>
        ensures { option_map (λ text. text.now) result ≡ (contents self.now).num_fmt cell };

    /// The text of a cell's formula, where it has one.
    fn formula(&self, cell: CellReferenceIndex) -> Option<&str>
        ensures { option_map (λ text. text.now) result ≡ (contents self.now).formula cell };

    /// How many sheets there are.
    fn sheet_count(&self) -> u32
        ensures { result ≡ length (contents self.now).sheets };

    /// The name of a sheet, by its number from 0; `None` exactly from `sheet_count` on.
    fn sheet_name(&self, sheet: u32) -> Option<&str>
        ensures { option_map (λ text. text.now) result ≡ slice_get (contents self.now).sheets sheet };
}

/// A workbook whose cells are read, each time counted in a ledger of the reader's choice.
pub trait Reads<L>: Book {
    /// The value of a cell, a blank for one that the book doesn't hold. It counts as one step and takes no memory.
    fn value(&self, cell: CellReferenceIndex, steps: &mut Steps<L>) -> &ArrayNode
        ensures value { result.now ≡ (Self.contents self.now).value cell }
        ensures counted { steps.new ≡ steps.old + 1 };
}
