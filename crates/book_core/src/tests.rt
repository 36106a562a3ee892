use super::*;
use call_core::{Plain, Steps};
use std::alloc::Global;
use std::test::Fail;
use value_core::{ArrayNode, CellReferenceIndex, Memory, Range, Text};

fn cell(sheet: u32, row: i32, column: i32) -> CellReferenceIndex {
    CellReferenceIndex { sheet, row, column }
}

fn text(alloc: Global, text: &str) -> Result<Text, Memory> {
    Text::from_text(alloc, text)
}

/// A book with the sheet `A`, on which A1 was set twice and B2 once.
fn book(alloc: Global) -> Result<MemoryBook, Memory> {
    let mut book = MemoryBook::new(alloc);
    book.add_sheet(text(alloc, "A")?)?;
    book.set(cell(0, 1, 1), ArrayNode::Number(1), None, None)?;
    let format = text(alloc, "0%")?;
    let formula = text(alloc, "=1+1")?;
    book.set(
        cell(0, 1, 1),
        ArrayNode::Number(2),
        Some(format),
        Some(formula),
    )?;
    book.set(cell(0, 2, 2), ArrayNode::Boolean(true), None, None)?;
    Ok(book)
}

#[test]
fn a_book_holds_what_was_set_last(rt: HostRuntime) -> Result<(), Fail> {
    let book = book(rt.alloc())?;
    let mut steps = Steps::new(Plain);
    assert!(rt; *book.value(cell(0, 1, 1), &mut steps) == ArrayNode::Number(2));
    assert!(rt; *book.value(cell(0, 2, 2), &mut steps) == ArrayNode::Boolean(true));
    assert!(rt; *book.value(cell(0, 2, 1), &mut steps) == ArrayNode::Empty);
    assert!(rt; *book.value(cell(1, 1, 1), &mut steps) == ArrayNode::Empty);
    assert_eq!(rt; book.num_fmt(cell(0, 1, 1)), Some("0%"));
    assert_eq!(rt; book.formula(cell(0, 1, 1)), Some("=1+1"));
    assert_eq!(rt; book.num_fmt(cell(0, 2, 2)), None);
    assert_eq!(rt; book.formula(cell(0, 1, 2)), None);
    assert_eq!(rt; book.sheet_count(), 1);
    assert_eq!(rt; book.sheet_name(0), Some("A"));
    assert_eq!(rt; book.sheet_name(1), None);
    assert!(rt; book.holds(cell(0, 1, 1)));
    assert!(rt; !book.holds(cell(0, 1, 2)));
    Ok(())
}

#[test]
fn a_range_is_read_cell_by_cell(rt: HostRuntime) -> Result<(), Fail> {
    let book = book(rt.alloc())?;
    let range = Range {
        left: cell(0, 1, 1),
        right: cell(0, 2, 3),
    };
    let grid = grid_of_range(rt.alloc(), &book, range, &mut Steps::new(Plain))?;
    assert_eq!(rt; grid.rows(), 2);
    assert_eq!(rt; grid.columns(), 3);
    assert!(rt; matches!(grid.get(0, 0), Some(element) if *element == ArrayNode::Number(2)));
    assert!(rt; matches!(grid.get(1, 1), Some(element) if *element == ArrayNode::Boolean(true)));
    assert!(rt; matches!(grid.get(0, 1), Some(element) if *element == ArrayNode::Empty));
    Ok(())
}

/// A cell's row and column, the rows and columns of a range's ends, and the row and column of the cell that is found.
static FOUND: [((i32, i32), (i32, i32), (i32, i32), Option<(i32, i32)>); 9] = [
    ((5, 2), (2, 1), (9, 1), Some((5, 1))),
    ((5, 2), (7, 1), (9, 1), None),
    ((5, 2), (2, 1), (2, 4), Some((2, 2))),
    ((2, 2), (2, 1), (2, 4), None),
    ((5, 2), (5, 4), (5, 4), Some((5, 4))),
    ((9, 9), (5, 4), (5, 4), Some((5, 4))),
    ((5, 2), (1, 1), (9, 4), None),
    ((5, 2), (9, 1), (2, 1), None),
    ((5, 2), (2, 2), (3, 2), None),
];

#[test]
fn an_at_finds_the_cell_of_its_row_or_column(rt: HostRuntime) {
    for &(at, left, right, found) in &FOUND {
        let range = Range {
            left: cell(0, left.0, left.1),
            right: cell(0, right.0, right.1),
        };
        let here = implicit_intersection(&cell(7, at.0, at.1), &range);
        assert_eq!(rt; here, found.map(|(row, column)| cell(0, row, column)));
    }
    let range = Range {
        left: cell(0, 5, 1),
        right: cell(1, 5, 1),
    };
    assert_eq!(rt; implicit_intersection(&cell(0, 5, 1), &range), None);
}
