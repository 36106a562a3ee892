ghost use Rattle.std.specs.Prelude.{◌≡◌, ◌⊎◌, ◌==◌, pos, length};
ghost use Rattle.std.specs.List.{list_all};
ghost use Rattle.tree_core.specs.View.{leaf_in, tree_in};
ghost use Rattle.validity_core.specs.Good.{first_length, is_array, is_bad, is_corner, is_good_leaf, is_line, is_on_sheet, is_size, is_within};

use kind_table::Kinds;
use tree_core::{Corner, Function, Leaf, View};
use value_core::{CellReferenceIndex, LAST_COLUMN, LAST_ROW, Rows};

fn is_within(least: i32, greatest: i32, number: i32) -> bool
    ensures { result ≡ is_within least greatest number }
{
    least <= number && number <= greatest
}

fn is_line(last: i32, absolute: bool, number: i32) -> bool
    requires { last ≡ pos 1048576 ⊎ last ≡ pos 16384 }
    ensures { result ≡ is_line last absolute number }
{
    if absolute {
        is_within(1, last, number)
    } else {
        -last < number && number < last
    }
}

fn is_corner(corner: Corner) -> bool
    ensures { result ≡ is_corner corner }
{
    is_line(LAST_ROW, corner.absolute_row, corner.row)
        && is_line(LAST_COLUMN, corner.absolute_column, corner.column)
}

fn is_size(most: usize, count: usize) -> bool
    ensures { result ≡ is_size most count }
{
    1 <= count && count <= most
}

/// How many elements the first row has, 0 where there is no row.
fn first_length(rows: &Rows) -> usize
    ensures { result ≡ first_length rows.now }
{
    match rows.get(0) {
        Some(row) => row.len(),
        None => 0,
    }
}

#[tactic(auto, using(crate::proofs::Even::even))]
fn are_even(rows: &Rows, columns: usize) -> bool
    ensures { result ≡ list_all (λ row. length row == columns) rows.now }
{
    for index in 0..rows.len() {
        match rows.get(index) {
            Some(row) => {
                if row.len() != columns {
                    return false;
                }
            }
            None => unreachable!(),
        }
    }
    true
}

/// Whether the rows of an array literal are a rectangle of 1 to 1048576 rows and 1 to 16384 columns. It takes no memory.
pub fn is_array(rows: &Rows) -> bool
    ensures { result ≡ is_array rows.now }
{
    let columns = first_length(rows);
    is_size(LAST_ROW as usize, rows.len())
        && is_size(LAST_COLUMN as usize, columns)
        && are_even(rows, columns)
}

fn is_good_leaf(sheets: u32, leaf: Leaf) -> bool
    ensures { result ≡ is_good_leaf sheets (leaf_in leaf.entry) }
{
    match leaf {
        Leaf::Reference {
            sheet_index,
            corner,
            ..
        } => sheet_index < sheets && is_corner(corner),
        Leaf::Range {
            sheet_index,
            left,
            right,
            ..
        } => sheet_index < sheets && is_corner(left) && is_corner(right),
        Leaf::Array(rows) => is_array(rows),
        _ => true,
    }
}

/// Whether what stands at a node means nothing.
pub(crate) fn is_bad<K: Kinds>(kinds: &K, sheets: u32, view: View) -> bool
    ensures { result ≡ is_bad (K.table kinds.now) sheets (tree_in view.entry) }
{
    match view {
        View::Leaf(leaf) => !is_good_leaf(sheets, leaf),
        View::Call {
            kind: Function::Other(id),
            ..
        } => !kinds.knows(id),
        _ => false,
    }
}

/// Whether a cell lies on one of so many sheets.
pub(crate) fn is_on_sheet(sheets: u32, cell: CellReferenceIndex) -> bool
    ensures { result ≡ is_on_sheet sheets cell }
{
    cell.sheet < sheets
        && is_within(1, LAST_ROW, cell.row)
        && is_within(1, LAST_COLUMN, cell.column)
}
