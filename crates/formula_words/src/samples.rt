use tree_core::{Corner, Node};

/// A reference to one cell.
pub fn cell(corner: Corner) -> Node {
    Node::ReferenceKind {
        sheet_name: None,
        sheet_index: 0,
        absolute_row: corner.absolute_row,
        absolute_column: corner.absolute_column,
        row: corner.row,
        column: corner.column,
    }
}

/// A range between two ends.
pub fn range(left: Corner, right: Corner) -> Node {
    Node::RangeKind {
        sheet_name: None,
        sheet_index: 0,
        absolute_row1: left.absolute_row,
        absolute_column1: left.absolute_column,
        row1: left.row,
        column1: left.column,
        absolute_row2: right.absolute_row,
        absolute_column2: right.absolute_column,
        row2: right.row,
        column2: right.column,
    }
}
