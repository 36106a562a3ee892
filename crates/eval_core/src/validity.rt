ghost use Rattle.std.specs.Prelude.{◌≡◌, ◌<◌, ◌^◌, length};
ghost use Rattle.tree_core.specs.Count.{size_of};
ghost use Rattle.tree_core.specs.Formula.{tree_of};
ghost use Rattle.validity_core.specs.Place.{bad_place};

use book_core::Book;
use kind_table::Kinds;
use tree_core::Node;
use validity_core::{Place, bad_place};
use value_core::CellReferenceIndex;

/// The first bad place of a formula in a cell of a book, by a table of kinds; `None` where the formula is valid there: see
/// `validity_core::bad_place`. It takes no memory.
pub fn valid<K: Kinds, B: Book>(
    kinds: &K,
    book: &B,
    cell: CellReferenceIndex,
    node: &Node,
) -> Option<Place>
    requires { size_of (tree_of node.now) < 2 ^ 64 }
    ensures { result ≡ bad_place (K.table kinds.now) (length (B.contents book.now).sheets) cell (tree_of node.now) }
{
    bad_place(kinds, book.sheet_count(), cell, node)
}
