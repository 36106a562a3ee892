use super::*;
use book_core::MemoryBook;
use call_core::{Plain, Steps};
use grid_core::CalcResult;
use rectangle_core::Grid;
use result_core::Found;
use std::alloc::Global;
use std::test::Fail;
use value_core::{ArrayNode, CellReferenceIndex, Error, Memory, Text};

const CELL: CellReferenceIndex = CellReferenceIndex {
    sheet: 0,
    row: 2,
    column: 2,
};

fn at(row: i32) -> CellReferenceIndex {
    CellReferenceIndex {
        sheet: 0,
        row,
        column: 1,
    }
}

/// A1 is -1.5, A2 the text `2`.
fn book(alloc: Global) -> Result<MemoryBook, Memory> {
    let mut book = MemoryBook::new(alloc);
    book.add_sheet(Text::from_text(alloc, "A")?)?;
    book.set(at(1), ArrayNode::Number(-1500000), None, None)?;
    let text = Text::from_text(alloc, "2")?;
    book.set(at(2), ArrayNode::String(text), None, None)?;
    Ok(book)
}

/// Words for counts of arguments, and by `1` whether they take none, one, two and so on up to seven.
static COUNTS: [(&str, &str); 12] = [
    ("none_or_one", "11000000"),
    ("one", "01000000"),
    ("one_or_two", "01100000"),
    ("one_to_three", "01110000"),
    ("one_to_four", "01111000"),
    ("two_or_three", "00110000"),
    ("two_to_four", "00111000"),
    ("two_to_five", "00111100"),
    ("two_to_six", "00111110"),
    ("three_to_five", "00011100"),
    ("at_least_one", "01111111"),
    ("at_least_two", "00111111"),
];

#[test]
fn arguments_are_counted(rt: HostRuntime) -> Result<(), Fail> {
    for &(word, taken) in &COUNTS {
        for (count, mark) in taken.bytes().enumerate() {
            let args = cells(rt.alloc(), count)?;
            assert!(rt; takes(word, args) == (mark == b'1'), "{word} of {count}");
        }
    }
    Ok(())
}

fn cells(alloc: Global, count: usize) -> Result<Vec<Found>, Memory> {
    let mut args = Vec::new(alloc);
    for _ in 0..count {
        args.push(Found::Cell(CELL))?;
    }
    Ok(args)
}

fn takes(word: &str, args: Vec<Found>) -> bool {
    match word {
        "none_or_one" => none_or_one(args).is_ok(),
        "one" => one(args).is_ok(),
        "one_or_two" => one_or_two(args).is_ok(),
        "one_to_three" => one_to_three(args).is_ok(),
        "one_to_four" => one_to_four(args).is_ok(),
        "two_or_three" => two_or_three(args).is_ok(),
        "two_to_four" => two_to_four(args).is_ok(),
        "two_to_five" => two_to_five(args).is_ok(),
        "two_to_six" => two_to_six(args).is_ok(),
        "three_to_five" => three_to_five(args).is_ok(),
        "at_least_one" => at_least_one(args).is_ok(),
        _ => at_least_two(args).is_ok(),
    }
}

#[test]
fn a_number_is_cut_and_floored(rt: HostRuntime) -> Result<(), Fail> {
    let alloc = rt.alloc();
    let book = book(alloc)?;
    let mut steps = Steps::new(Plain);
    let number = int_in(&book, CELL, Found::Cell(at(1)), &mut steps);
    assert!(rt; matches!(number, Ok(-1)));
    let number = floor_in(&book, CELL, Found::Cell(at(1)), &mut steps);
    assert!(rt; matches!(number, Ok(-2)));
    let size = size_in(&book, CELL, Found::Cell(at(1)), &mut steps);
    assert!(rt; matches!(size, Ok(0)));
    let missing = Some(Found::Same(CalcResult::EmptyArg));
    let number = or_one(&book, CELL, missing, &mut steps);
    assert!(rt; matches!(number, Ok(1000000)));
    Ok(())
}

#[test]
fn arguments_are_arrays_and_texts(rt: HostRuntime) -> Result<(), Fail> {
    let alloc = rt.alloc();
    let book = book(alloc)?;
    let mut steps = Steps::new(Plain);
    let text = text_in(alloc, &book, CELL, Found::Cell(at(2)), &mut steps);
    assert!(rt; matches!(&text, Ok(text) if text.as_str() == "2"));
    let args = cells(alloc, 2)?;
    let grids = arrays_in(alloc, &book, CELL, args, &mut steps);
    let zero = Grid::of_one(alloc, ArrayNode::Number(0))?;
    assert!(rt; matches!(&grids, Ok(grids) if grids.len() == 2 && grids[1] == zero));
    Ok(())
}

#[test]
fn a_pad_is_an_element(rt: HostRuntime) -> Result<(), Fail> {
    let alloc = rt.alloc();
    let book = book(alloc)?;
    let mut steps = Steps::new(Plain);
    let pad = pad_in(alloc, &book, CELL, None, &mut steps)?;
    assert!(rt; pad == ArrayNode::Error(Error::NA));
    let pad = pad_in(alloc, &book, CELL, Some(Found::Cell(at(9))), &mut steps)?;
    assert!(rt; pad == ArrayNode::Number(0));
    let column = CalcResult::Range {
        left: at(1),
        right: at(2),
    };
    let pad = pad_in(alloc, &book, CELL, Some(Found::Same(column)), &mut steps)?;
    assert!(rt; pad == ArrayNode::Error(Error::VALUE));
    Ok(())
}
