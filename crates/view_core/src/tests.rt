use super::*;
use book_core::MemoryBook;
use call_core::{Function, Plain, Steps};
use formula_words::{formula, range};
use grid_core::CalcResult;
use kind_table::CrateKinds;
use rectangle_core::Grid;
use std::alloc::Global;
use std::test::Fail;
use tree_core::{Corner, Node, Nodes};
use value_core::{ArrayNode, CellReferenceIndex, Error, Memory, Rows, Text};

static CELL: CellReferenceIndex = CellReferenceIndex {
    sheet: 0,
    row: 1,
    column: 3,
};

/// A1 is blank, and A2 is 2.
fn book(alloc: Global) -> Result<MemoryBook, Memory> {
    let mut book = MemoryBook::new(alloc);
    book.add_sheet(Text::from_text(alloc, "A")?)?;
    let at = CellReferenceIndex {
        sheet: 0,
        row: 2,
        column: 1,
    };
    book.set(at, ArrayNode::Number(2000000), None, None)?;
    Ok(book)
}

/// `A1:A2`.
fn area() -> Node {
    range(Corner::new(true, true, 1, 1), Corner::new(true, true, 2, 1))
}

/// `{7}`.
fn seven(alloc: Global) -> Result<Node, Memory> {
    let mut row = Vec::new(alloc);
    row.push(ArrayNode::Number(7000000))?;
    let mut rows = Rows::new(alloc);
    match rows.push(row) {
        Ok(()) => Ok(Node::ArrayKind(rows)),
        Err(_row) => Err(Memory),
    }
}

/// `HSTACK(A1:A2,{7})`.
fn beside(alloc: Global) -> Result<Node, Memory> {
    let mut args = Nodes::new(alloc);
    args.add(area())?;
    args.add(seven(alloc)?)?;
    Ok(Node::call(Function::Hstack, args))
}

#[test]
fn plain_nests_are_evaluated(rt: HostRuntime) -> Result<(), Fail> {
    let alloc = rt.alloc();
    let book = book(alloc)?;
    let evaluator = ViewEvaluator {
        kinds: &CrateKinds,
        book: &book,
        limit: 1000000,
    };
    let mut steps = Steps::new(Plain);
    let made = evaluator.evaluate_node_in_context(alloc, &area(), CELL, &mut steps)?;
    assert!(rt; matches!(made, CalcResult::Range { .. }));
    let node = beside(alloc)?;
    let made = evaluator.evaluate_node_with_reference(alloc, &node, CELL, &mut steps)?;
    assert!(rt;
        matches!(&made, CalcResult::Array(grid) if grid.rows() == 2 && grid.columns() == 2)
    );
    let value = evaluator.formula_value(alloc, &node, CELL, &mut steps)?;
    assert!(rt; value.get(1, 1) == Some(&ArrayNode::Error(Error::NA)));
    let grid = evaluator.eval_to_array(alloc, &seven(alloc)?, CELL, &mut steps)?;
    let wanted = Grid::of_one(alloc, ArrayNode::Number(7000000))?;
    assert!(rt; matches!(&grid, Ok(grid) if *grid == wanted));
    Ok(())
}

#[test]
fn other_formulas_are_evaluated(rt: HostRuntime) -> Result<(), Fail> {
    let alloc = rt.alloc();
    let book = book(alloc)?;
    let evaluator = ViewEvaluator {
        kinds: &CrateKinds,
        book: &book,
        limit: 1000000,
    };
    let mut steps = Steps::new(Plain);
    let Ok(node) = formula(alloc, "A1") else {
        return Err("no formula".into());
    };
    let made = evaluator.evaluate_node_in_context(alloc, &node, CELL, &mut steps)?;
    assert!(rt; made == CalcResult::EmptyCell);
    let made = evaluator.evaluate_node_with_reference(alloc, &node, CELL, &mut steps)?;
    assert!(rt; matches!(made, CalcResult::Range { .. }));
    let array = evaluator.eval_to_array(alloc, &node, CELL, &mut steps)?;
    assert!(rt; matches!(&array, Ok(grid) if grid.get(0, 0) == Some(&ArrayNode::Number(0))));
    let value = evaluator.formula_value(alloc, &node, CELL, &mut steps)?;
    assert!(rt; value.get(0, 0) == Some(&ArrayNode::Empty));
    Ok(())
}
