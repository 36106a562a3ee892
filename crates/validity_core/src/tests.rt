use super::*;
use kind_table::CrateKinds;
use own_items::Items;
use std::alloc::Global;
use std::test::Fail;
use tree_core::{Corner, Error, Function, Leaf, Node, Text};
use value_core::{ArrayNode, CellReferenceIndex, Memory, Rows};

const CELL: CellReferenceIndex = CellReferenceIndex {
    sheet: 0,
    row: 3,
    column: 3,
};

/// What is bad of a formula in a cell of a book of one sheet. The formulas of these tests have few nodes.
fn place_in(cell: CellReferenceIndex, node: &Node) -> Option<Place> {
    if node.has_at_most(100) {
        bad_place(&CrateKinds, 1, cell, node)
    } else {
        Some(Place::Node(100))
    }
}

/// A row or column, whether it is absolute, and whether it may stand in a reference.
static ROWS: [(bool, i32, bool); 8] = [
    (true, 1, true),
    (true, 0, false),
    (true, 1048576, true),
    (true, 1048577, false),
    (false, 1048575, true),
    (false, 1048576, false),
    (false, -1048575, true),
    (false, -1048576, false),
];

static COLUMNS: [(bool, i32, bool); 8] = [
    (true, 1, true),
    (true, 0, false),
    (true, 16384, true),
    (true, 16385, false),
    (false, 16383, true),
    (false, 16384, false),
    (false, -16383, true),
    (false, -16384, false),
];

fn is_good_corner(alloc: Global, sheet_index: u32, corner: Corner) -> Result<bool, Memory> {
    let reference = Leaf::Reference {
        sheet_name: &None,
        sheet_index,
        corner,
    };
    let range = Leaf::Range {
        sheet_name: &None,
        sheet_index,
        left: Corner::new(true, true, 1, 1),
        right: corner,
    };
    let reference = place_in(CELL, &reference.to_node(alloc)?);
    let range = place_in(CELL, &range.to_node(alloc)?);
    Ok(reference.is_none() && range.is_none())
}

#[test]
fn a_reference_lies_on_a_sheet_of_the_book(rt: HostRuntime) -> Result<(), Fail> {
    for &(absolute, row, good) in &ROWS {
        let corner = Corner::new(absolute, true, row, 1);
        assert_eq!(rt; is_good_corner(rt.alloc(), 0, corner)?, good);
    }
    for &(absolute, column, good) in &COLUMNS {
        let corner = Corner::new(true, absolute, 1, column);
        assert_eq!(rt; is_good_corner(rt.alloc(), 0, corner)?, good);
    }
    let corner = Corner::new(true, true, 1, 1);
    assert!(rt; !is_good_corner(rt.alloc(), 1, corner)?);
    Ok(())
}

/// An array literal of rows of these lengths.
fn literal(alloc: Global, lengths: &[usize]) -> Result<Node, Memory> {
    let mut rows = Rows::new(alloc);
    for length in lengths {
        let mut row = Vec::new(alloc);
        for _ in 0..*length {
            row.push(ArrayNode::Number(1_000_000))?;
        }
        if let Err(_) = rows.push(row) {
            return Err(Memory);
        }
    }
    Ok(Node::ArrayKind(rows))
}

/// `SUM(1, literal)`.
fn sum_of(alloc: Global, literal: Node) -> Result<Node, Memory> {
    let mut args = Items::new(alloc);
    args.add(Node::NumberKind(1_000_000))?;
    args.add(literal)?;
    let id = CrateKinds::by_name("SUM").unwrap_or(65535);
    Ok(Node::call(Function::Other(id), args))
}

#[test]
fn the_first_bad_node_is_told(rt: HostRuntime) -> Result<(), Fail> {
    let alloc = rt.alloc();
    assert_eq!(rt; place_in(CELL, &literal(alloc, &[2, 2])?), None);
    assert_eq!(rt; place_in(CELL, &literal(alloc, &[])?), Some(Place::Node(0)));
    assert_eq!(rt;
        place_in(CELL, &literal(alloc, &[0])?),
        Some(Place::Node(0))
    );
    let uneven = sum_of(alloc, literal(alloc, &[2, 1])?)?;
    assert_eq!(rt; place_in(CELL, &uneven), Some(Place::Node(2)));
    let under = Node::intersection(alloc, true, uneven)?;
    assert_eq!(rt; place_in(CELL, &under), Some(Place::Node(3)));
    let unknown = Node::call(Function::Other(65535), Items::new(alloc));
    assert_eq!(rt; place_in(CELL, &unknown), Some(Place::Node(0)));
    let both = Node::range_operator(alloc, unknown, under)?;
    assert_eq!(rt; place_in(CELL, &both), Some(Place::Node(1)));
    Ok(())
}

#[test]
fn the_cell_comes_first(rt: HostRuntime) -> Result<(), Fail> {
    let unknown = Node::call(Function::Other(65535), Items::new(rt.alloc()));
    for (sheet, row, column) in [
        (1, 1, 1),
        (0, 0, 1),
        (0, 1048577, 1),
        (0, 1, 0),
        (0, 1, 16385),
    ] {
        let cell = CellReferenceIndex { sheet, row, column };
        assert_eq!(rt; place_in(cell, &unknown), Some(Place::Cell));
    }
    let last = CellReferenceIndex {
        sheet: 0,
        row: 1048576,
        column: 16384,
    };
    assert_eq!(rt; place_in(last, &unknown), Some(Place::Node(0)));
    assert_eq!(rt; place_in(last, &Node::NumberKind(0)), None);
    Ok(())
}

/// Nodes that hold anything.
#[test]
fn wrong_references_and_errors_are_good(rt: HostRuntime) -> Result<(), Fail> {
    let wrong = Leaf::WrongReference {
        sheet_name: &None,
        corner: Corner::new(true, true, 0, 0),
    };
    assert_eq!(rt; place_in(CELL, &wrong.to_node(rt.alloc())?), None);
    assert_eq!(rt; place_in(CELL, &Node::ErrorKind(Error::REF)), None);
    let text = Text::from_text(rt.alloc(), "=(")?;
    assert_eq!(rt; place_in(CELL, &Node::TableNameKind(text)), None);
    Ok(())
}
