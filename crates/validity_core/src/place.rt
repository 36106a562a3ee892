ghost use Rattle.std.specs.Prelude.{◌≡◌, ◌<◌, ◌^◌};
ghost use Rattle.tree_core.specs.Count.{size_of};
ghost use Rattle.tree_core.specs.Formula.{tree_of};
ghost use Rattle.validity_core.specs.Place.{bad_place};

use crate::good::is_on_sheet;
use crate::scan::scan;
use kind_table::Kinds;
use tree_core::Node;
use value_core::CellReferenceIndex;

/// What is bad of a formula in a cell: the cell itself, or a node by its number, from 0 in preorder.
#[derive(Clone, Copy, Debug, PartialEq, Eq)]
pub enum Place {
    Cell,
    Node(usize),
}

/// The first bad place of a formula in a cell of a book with so many sheets; `None` where the formula is valid there.
///
/// It is `Cell` where the cell's row is not 1 to 1048576, its column not 1 to 16384, or its sheet, from 0, not one of the book.
/// Else it is the first node in preorder that is bad: a reference or a range whose sheet is not one of the book, or whose rows
/// and columns are not on the sheet where they are absolute, or not differences of two of its rows and columns where they are
/// not; an array literal that is no rectangle of at most 1048576 rows and 16384 columns; a call of a number that the table of
/// kinds doesn't know. It takes no memory.
#[tactic(auto, using(crate::proofs::Passes::passes))]
pub fn bad_place<K: Kinds>(
    kinds: &K,
    sheets: u32,
    cell: CellReferenceIndex,
    node: &Node,
) -> Option<Place>
    requires { size_of (tree_of node.now) < 2 ^ 64 }
    ensures { result ≡ bad_place (K.table kinds.now) sheets cell (tree_of node.now) }
{
    if !is_on_sheet(sheets, cell) {
        return Some(Place::Cell);
    }
    match scan(kinds, sheets, node, 0) {
        Ok(_) => None,
        Err(number) => Some(Place::Node(number)),
    }
}
