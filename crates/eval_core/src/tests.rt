use super::*;
use book_core::MemoryBook;
use call_core::{Plain, Steps};
use grid_core::CalcResult;
use kind_table::CrateKinds;
use rectangle_core::Grid;
use std::alloc::Global;
use std::test::Fail;
use tree_core::{Corner, Leaf, Node, Nodes};
use value_core::{ArrayNode, CellReferenceIndex, Error, Memory, OpSum, Operator, Text};

fn at(row: i32, column: i32) -> CellReferenceIndex {
    CellReferenceIndex {
        sheet: 0,
        row,
        column,
    }
}

/// A1 is 1, A2 is 2.
fn book(alloc: Global) -> Result<MemoryBook, Memory> {
    let mut book = MemoryBook::new(alloc);
    book.add_sheet(Text::from_text(alloc, "A")?)?;
    book.set(at(1, 1), ArrayNode::Number(1000000), None, None)?;
    book.set(at(2, 1), ArrayNode::Number(2000000), None, None)?;
    Ok(book)
}

/// `A1:A2`, absolute.
fn column(alloc: Global) -> Result<Node, Memory> {
    let range = Leaf::Range {
        sheet_name: &None,
        sheet_index: 0,
        left: Corner::new(true, true, 1, 1),
        right: Corner::new(true, true, 2, 1),
    };
    range.to_node(alloc)
}

/// The cell in the row above and the column before.
fn neighbour(alloc: Global) -> Result<Node, Memory> {
    let reference = Leaf::Reference {
        sheet_name: &None,
        sheet_index: 0,
        corner: Corner::new(false, false, -1, -1),
    };
    reference.to_node(alloc)
}

#[test]
fn a_reference_is_a_value_or_a_range(rt: HostRuntime) -> Result<(), Fail> {
    let alloc = rt.alloc();
    let book = book(alloc)?;
    let evaluator = Evaluator {
        kinds: &CrateKinds,
        book: &book,
        limit: 1000000,
    };
    let node = neighbour(alloc)?;
    let mut steps = Steps::new(Plain);
    let made = evaluator.evaluate_node_in_context(alloc, &node, at(2, 2), &mut steps)?;
    assert!(rt; made == CalcResult::Number(1000000));
    let made = evaluator.evaluate_node_with_reference(alloc, &node, at(3, 2), &mut steps)?;
    assert!(rt;
        made == CalcResult::Range {
            left: at(2, 1),
            right: at(2, 1)
        }
    );
    let made = evaluator.evaluate_node_in_context(alloc, &node, at(1, 2), &mut steps)?;
    assert!(rt;
        made == CalcResult::Error {
            error: Error::REF,
            origin: at(1, 2)
        }
    );
    Ok(())
}

#[test]
fn a_sum_over_a_range_is_an_array(rt: HostRuntime) -> Result<(), Fail> {
    let alloc = rt.alloc();
    let book = book(alloc)?;
    let evaluator = Evaluator {
        kinds: &CrateKinds,
        book: &book,
        limit: 1000000,
    };
    let sum = Operator::Sum(OpSum::Add);
    let node = Node::binary(alloc, sum, column(alloc)?, column(alloc)?)?;
    let mut steps = Steps::new(Plain);
    let grid = evaluator.formula_value(alloc, &node, at(9, 9), &mut steps)?;
    assert_eq!(rt; grid.rows(), 2);
    assert!(rt; matches!(grid.get(1, 0), Some(element) if *element == ArrayNode::Number(4000000)));
    let met = Node::intersection(alloc, false, column(alloc)?)?;
    let grid = evaluator.eval_to_array(alloc, &met, at(2, 9), &mut steps)?;
    assert!(rt;
        matches!(&grid, Ok(grid) if *grid == Grid::of_one(alloc, ArrayNode::Number(2000000))?)
    );
    let error = evaluator.eval_to_array(alloc, &met, at(9, 9), &mut steps)?;
    assert!(rt;
        matches!(
            &error,
            Err(CalcResult::Error {
                error: Error::REF,
                ..
            })
        )
    );
    Ok(())
}

#[test]
fn a_formula_is_valid_on_a_sheet_of_the_book(rt: HostRuntime) -> Result<(), Fail> {
    let alloc = rt.alloc();
    let book = book(alloc)?;
    let node = column(alloc)?;
    if node.has_at_most(1) {
        assert_eq!(rt; valid(&CrateKinds, &book, at(1, 1), &node), None);
        assert_eq!(rt;
            valid(&CrateKinds, &book, at(0, 1), &node),
            Some(Place::Cell)
        );
    }
    let text = format!(in alloc; "{}, {}", Fault::BadRequest(Place::Cell), Fault::Memory)?;
    assert_eq!(rt; text.as_str(), "bad request, memory");
    Ok(())
}

/// Functions of A1:A2 and, unless it is 0, a number, in I2: the rows and columns of what they answer, and its last element, all as
/// plain counts.
static FUNCTIONS: [(&str, i64, usize, usize, i64); 22] = [
    ("index", 2, 1, 1, 2),
    ("row", 0, 2, 1, 2),
    ("rows", 0, 1, 1, 2),
    ("column", 0, 1, 1, 1),
    ("columns", 0, 1, 1, 1),
    ("areas", 0, 1, 1, 1),
    ("unique", 0, 2, 1, 2),
    ("filter", 1, 2, 1, 2),
    ("take", 1, 1, 1, 1),
    ("drop", 1, 1, 1, 2),
    ("expand", 2, 2, 1, 2),
    ("hstack", 0, 2, 1, 2),
    ("vstack", 5, 3, 1, 5),
    ("choosecols", 1, 2, 1, 2),
    ("chooserows", 1, 1, 1, 1),
    ("tocol", 0, 2, 1, 2),
    ("torow", 0, 1, 2, 2),
    ("transpose", 0, 1, 2, 2),
    ("trimrange", 0, 2, 1, 2),
    ("wrapcols", 1, 1, 2, 2),
    ("wraprows", 1, 2, 1, 2),
    ("sequence", 0, 2, 1, 2),
];

#[test]
fn functions_are_called_by_their_names(rt: HostRuntime) -> Result<(), Fail> {
    let alloc = rt.alloc();
    let book = book(alloc)?;
    let evaluator = Evaluator {
        kinds: &CrateKinds,
        book: &book,
        limit: 1000000,
    };
    for &(word, second, rows, columns, last) in &FUNCTIONS {
        let args = args_of(alloc, second)?;
        let answer = answer_of(&evaluator, alloc, word, &args)?;
        assert!(rt; ends_in(&answer, rows, columns, last), "{word}");
    }
    Ok(())
}

/// Functions of A1:A2 and, unless it is 0, a number, and their errors.
static WRONG: [(&str, i64, Error); 6] = [
    ("offset", 1, Error::ERROR),
    ("choose", 0, Error::ERROR),
    ("formulatext", 0, Error::NIMPL),
    ("indirect", 1, Error::REF),
    ("address", 0, Error::ERROR),
    ("textsplit", 0, Error::ERROR),
];

#[test]
fn an_array_is_one_text(rt: HostRuntime) -> Result<(), Fail> {
    let alloc = rt.alloc();
    let book = book(alloc)?;
    let evaluator = Evaluator {
        kinds: &CrateKinds,
        book: &book,
        limit: 1000000,
    };
    let args = args_of(alloc, 1)?;
    let answer = reference_answer(&evaluator, alloc, "arraytotext", &args)?;
    assert!(rt; matches!(&answer, CalcResult::String(text) if text.as_str() == "{1;2}"));
    Ok(())
}

#[test]
fn functions_of_references_refuse_what_they_do_not_take(rt: HostRuntime) -> Result<(), Fail> {
    let alloc = rt.alloc();
    let book = book(alloc)?;
    let evaluator = Evaluator {
        kinds: &CrateKinds,
        book: &book,
        limit: 1000000,
    };
    for &(word, second, wanted) in &WRONG {
        let args = args_of(alloc, second)?;
        let answer = reference_answer(&evaluator, alloc, word, &args)?;
        assert!(rt; is_wrong(&answer, wanted), "{word}");
    }
    Ok(())
}

fn is_wrong(answer: &CalcResult, wanted: Error) -> bool {
    match answer {
        CalcResult::Error { error, .. } => *error == wanted,
        _ => false,
    }
}

fn args_of(alloc: Global, second: i64) -> Result<Nodes, Memory> {
    let mut args = Nodes::new(alloc);
    if let Err(_node) = args.push(column(alloc)?) {
        return Err(Memory);
    }
    if second != 0 {
        let number = Node::NumberKind(second.saturating_mul(1000000));
        if let Err(_node) = args.push(number) {
            return Err(Memory);
        }
    }
    Ok(args)
}

fn ends_in(answer: &CalcResult, rows: usize, columns: usize, last: i64) -> bool {
    match answer {
        CalcResult::Array(grid) => {
            let end = grid.get(grid.rows() - 1, grid.columns() - 1);
            let is_last =
                matches!(end, Some(ArrayNode::Number(number)) if *number / 1000000 == last);
            grid.rows() == rows && grid.columns() == columns && is_last
        }
        CalcResult::Number(number) => rows == 1 && columns == 1 && *number / 1000000 == last,
        _ => false,
    }
}

fn answer_of(
    evaluator: &Evaluator<CrateKinds, MemoryBook>,
    alloc: Global,
    word: &str,
    args: &Nodes,
) -> Result<CalcResult, Memory> {
    let mut steps = Steps::new(Plain);
    let reads = &mut steps;
    let cell = at(2, 9);
    match word {
        "unique" => fn_unique(evaluator, alloc, args, cell, reads),
        "filter" => fn_filter(evaluator, alloc, args, cell, reads),
        "take" => fn_take(evaluator, alloc, args, cell, reads),
        "drop" => fn_drop(evaluator, alloc, args, cell, reads),
        "expand" => fn_expand(evaluator, alloc, args, cell, reads),
        "hstack" => fn_hstack(evaluator, alloc, args, cell, reads),
        "vstack" => fn_vstack(evaluator, alloc, args, cell, reads),
        "choosecols" => fn_choosecols(evaluator, alloc, args, cell, reads),
        "chooserows" => fn_chooserows(evaluator, alloc, args, cell, reads),
        "tocol" => fn_tocol(evaluator, alloc, args, cell, reads),
        "torow" => fn_torow(evaluator, alloc, args, cell, reads),
        "transpose" => fn_transpose(evaluator, alloc, args, cell, reads),
        "trimrange" => fn_trimrange(evaluator, alloc, args, cell, reads),
        "wrapcols" => fn_wrapcols(evaluator, alloc, args, cell, reads),
        "wraprows" => fn_wraprows(evaluator, alloc, args, cell, reads),
        "sequence" => fn_sequence(evaluator, alloc, args, cell, reads),
        _ => reference_answer(evaluator, alloc, word, args),
    }
}

fn reference_answer(
    evaluator: &Evaluator<CrateKinds, MemoryBook>,
    alloc: Global,
    word: &str,
    args: &Nodes,
) -> Result<CalcResult, Memory> {
    let mut steps = Steps::new(Plain);
    let reads = &mut steps;
    let cell = at(2, 9);
    match word {
        "index" => fn_index(evaluator, alloc, args, cell, reads),
        "row" => fn_row(evaluator, alloc, args, cell, reads),
        "rows" => fn_rows(evaluator, alloc, args, cell, reads),
        "column" => fn_column(evaluator, alloc, args, cell, reads),
        "columns" => fn_columns(evaluator, alloc, args, cell, reads),
        "areas" => fn_areas(evaluator, alloc, args, cell, reads),
        "offset" => fn_offset(evaluator, alloc, args, cell, reads),
        "choose" => fn_choose(evaluator, alloc, args, cell, reads),
        "formulatext" => fn_formulatext(evaluator, alloc, args, cell, reads),
        "indirect" => fn_indirect(evaluator, alloc, args, cell, reads),
        "address" => fn_address(evaluator, alloc, args, cell, reads),
        "textsplit" => fn_textsplit(evaluator, alloc, args, cell, reads),
        _ => fn_arraytotext(evaluator, alloc, args, cell, reads),
    }
}
