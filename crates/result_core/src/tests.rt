use super::*;
use book_core::MemoryBook;
use call_core::{Plain, Steps};
use grid_core::CalcResult;
use rectangle_core::{Grid, Value};
use std::alloc::Global;
use std::test::Fail;
use value_core::{ArrayNode, CellReferenceIndex, Error, Memory, Range, Text};

/// The formula's cell, B2.
const CELL: CellReferenceIndex = CellReferenceIndex {
    sheet: 0,
    row: 2,
    column: 2,
};

fn at(row: i32, column: i32) -> CellReferenceIndex {
    CellReferenceIndex {
        sheet: 0,
        row,
        column,
    }
}

/// A1 is 1.5, A2 the text `2`.
fn book(alloc: Global) -> Result<MemoryBook, Memory> {
    let mut book = MemoryBook::new(alloc);
    book.add_sheet(Text::from_text(alloc, "A")?)?;
    book.set(at(1, 1), ArrayNode::Number(1500000), None, None)?;
    let text = Text::from_text(alloc, "2")?;
    book.set(at(2, 1), ArrayNode::String(text), None, None)?;
    Ok(book)
}

fn column() -> CalcResult {
    CalcResult::Range {
        left: at(1, 1),
        right: at(2, 1),
    }
}

fn text(alloc: Global, text: &str) -> Result<ArrayNode, Memory> {
    Ok(ArrayNode::String(Text::from_text(alloc, text)?))
}

#[test]
fn a_cell_stands_for_its_value_or_for_itself(rt: HostRuntime) -> Result<(), Fail> {
    let alloc = rt.alloc();
    let book = book(alloc)?;
    let mut steps = Steps::new(Plain);
    let made = Found::Cell(at(1, 1)).into_context(alloc, &book, CELL, &mut steps)?;
    assert!(rt; made == CalcResult::Number(1500000));
    let made = Found::Cell(at(1, 1)).into_reference();
    assert!(rt;
        made == CalcResult::Range {
            left: at(1, 1),
            right: at(1, 1)
        }
    );
    let value = Found::Cell(at(9, 9)).into_value(alloc, &book, CELL, &mut steps)?;
    assert!(rt; value == Value::One(ArrayNode::Empty));
    let made = result_of(alloc, CELL, &ArrayNode::Error(Error::NA))?;
    assert!(rt; made == wrong(CELL, Error::NA));
    Ok(())
}

/// Whether a value is a rectangle with the text `2` below its first element.
fn has_text_below(value: &Value) -> bool {
    match value {
        Value::Grid(grid) => {
            matches!(grid.get(1, 0), Some(ArrayNode::String(text)) if text.as_str() == "2")
        }
        _ => false,
    }
}

#[test]
fn a_range_is_read_as_a_value_and_as_a_rectangle(rt: HostRuntime) -> Result<(), Fail> {
    let alloc = rt.alloc();
    let book = book(alloc)?;
    let mut steps = Steps::new(Plain);
    let value = value_of(alloc, &book, column(), &mut steps)?;
    assert!(rt; has_text_below(&value));
    let grid = array_of(alloc, &book, CalcResult::EmptyCell, &mut steps)?;
    assert!(rt; matches!(&grid, Ok(grid) if *grid == Grid::of_one(alloc, ArrayNode::Number(0))?));
    let error = array_of(alloc, &book, wrong(CELL, Error::NUM), &mut steps)?;
    assert!(rt; matches!(&error, Err(Error::NUM)));
    Ok(())
}

#[test]
fn casts_go_through_the_cell_that_is_found(rt: HostRuntime) -> Result<(), Fail> {
    let alloc = rt.alloc();
    let book = book(alloc)?;
    let mut steps = Steps::new(Plain);
    let number = number_found(&book, CELL, Found::Same(column()), &mut steps);
    assert_eq!(rt; number, Ok(2000000));
    let none = number_found(&book, at(5, 5), Found::Same(column()), &mut steps);
    assert_eq!(rt; none, Err(Error::VALUE));
    let truth = bool_found(&book, CELL, Found::Cell(at(1, 1)), &mut steps);
    assert_eq!(rt; truth, Ok(true));
    let found = string_found(alloc, &book, CELL, Found::Cell(at(1, 1)), &mut steps)?;
    assert!(rt; matches!(&found, Ok(text) if text.as_str() == "1.5"));
    let array = CalcResult::Array(Grid::of_one(alloc, ArrayNode::Number(1))?);
    assert_eq!(rt;
        number_found(&book, CELL, Found::Same(array), &mut steps),
        Err(Error::NIMPL)
    );
    let range = Range {
        left: at(1, 1),
        right: at(1, 1),
    };
    assert_eq!(rt; range_found(Found::Cell(at(1, 1))), Ok(range));
    assert_eq!(rt;
        range_found(Found::Same(CalcResult::EmptyArg)),
        Err(Error::VALUE)
    );
    Ok(())
}

#[test]
fn an_at_takes_one_value_and_a_colon_spans(rt: HostRuntime) -> Result<(), Fail> {
    let alloc = rt.alloc();
    let found = intersection_found(alloc, CELL, column())?;
    assert!(rt; matches!(&found, Found::Cell(found) if *found == at(2, 1)));
    let array = CalcResult::Array(Grid::of_one(alloc, text(alloc, "x")?)?);
    let found = intersection_found(alloc, CELL, array)?;
    assert!(rt; matches!(&found, Found::Same(CalcResult::String(text)) if text.as_str() == "x"));
    let both = span_of(
        CELL,
        range_between(at(3, 1), at(1, 2)),
        range_between(at(2, 5), at(2, 5)),
    );
    assert!(rt;
        both == CalcResult::Range {
            left: at(1, 1),
            right: at(3, 5)
        }
    );
    let no_range = span_of(CELL, CalcResult::Number(1), wrong(CELL, Error::NA));
    assert!(rt; no_range == wrong(CELL, Error::NA));
    Ok(())
}
