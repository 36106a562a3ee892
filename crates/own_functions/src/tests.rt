use super::*;
use book_core::MemoryBook;
use call_core::{Function, Plain, Steps};
use grid_core::CalcResult;
use result_core::Found;
use std::alloc::Global;
use std::test::Fail;
use value_core::{ArrayNode, CellReferenceIndex, Error, Memory, Text};

const CELL: CellReferenceIndex = CellReferenceIndex {
    sheet: 0,
    row: 1,
    column: 1,
};

/// A1 is 7.
fn book(alloc: Global) -> Result<MemoryBook, Memory> {
    let mut book = MemoryBook::new(alloc);
    book.add_sheet(Text::from_text(alloc, "A")?)?;
    book.set(CELL, ArrayNode::Number(7000000), None, None)?;
    Ok(book)
}

fn one_cell(alloc: Global) -> Result<Vec<Found>, Memory> {
    let mut args = Vec::new(alloc);
    args.push(Found::Cell(CELL))?;
    Ok(args)
}

fn wrong(error: Error) -> CalcResult {
    CalcResult::Error {
        error,
        origin: CELL,
    }
}

#[test]
fn a_call_goes_to_its_function(rt: HostRuntime) -> Result<(), Fail> {
    let alloc = rt.alloc();
    let book = book(alloc)?;
    let mut steps = Steps::new(Plain);
    let args = one_cell(alloc)?;
    let made = own_result(alloc, &book, 9, CELL, Function::Transpose, args, &mut steps)?;
    assert!(rt;
        matches!(&made, CalcResult::Array(grid) if grid.get(0, 0) == Some(&ArrayNode::Number(7000000)))
    );
    let args = one_cell(alloc)?;
    let made = own_result(alloc, &book, 9, CELL, Function::Take, args, &mut steps)?;
    assert!(rt; made == wrong(Error::ERROR));
    Ok(())
}

#[test]
fn a_kind_without_values_comes_to_an_error(rt: HostRuntime) -> Result<(), Fail> {
    let alloc = rt.alloc();
    let book = book(alloc)?;
    let mut steps = Steps::new(Plain);
    let args = one_cell(alloc)?;
    let found = own_found(alloc, &book, 9, CELL, Function::Let, args, &mut steps)?;
    assert!(rt; matches!(&found, Found::Same(made) if *made == wrong(Error::NIMPL)));
    Ok(())
}
