ghost use Rattle.std.specs.Prelude.{IfOk, IsTrue};
ghost use Rattle.std.specs.List.{list_all};
ghost use Rattle.nest_core.specs.Built.{is_constant, is_constant_result};

use super::*;
use argument_core::Stop;
use book_core::MemoryBook;
use call_core::{Function, Plain, Steps};
use formula_words::formula;
use grid_core::CalcResult;
use number_core::read_number;
use rectangle_core::Grid;
use result_core::Found;
use std::alloc::Global;
use std::test::Fail;
use validity_core::is_array;
use value_core::{ArrayNode, CellReferenceIndex, Error, Memory, Range, Rows};

/// Formulas in words, and whether they are plain nests.
static FORMULAS: [(&str, bool); 12] = [
    ("A1:A3", true),
    ("A1", false),
    ("A1:A3 @", false),
    ("A1:A3 1 TAKE/2", true),
    ("A1:A3 A1 TAKE/2", false),
    ("A1:A3 1 % TAKE/2", false),
    ("TAKE/0", true),
    ("A1:A3 B1:B3 HSTACK/2", true),
    ("A1:A3 1 HSTACK/2", false),
    ("2 SEQUENCE/1", true),
    ("A1:A3 SEQUENCE/1", false),
    ("A1:A3 UNIQUE/1", false),
];

#[test]
fn formulas_are_plain_nests_or_not(rt: HostRuntime) -> Result<(), Fail> {
    for &(words, plain) in &FORMULAS {
        let Ok(node) = formula(rt.alloc(), words) else {
            return Err("no formula".into());
        };
        assert!(rt; is_plain_nest(&node) == plain, "{words}");
    }
    Ok(())
}

static CELL: CellReferenceIndex = CellReferenceIndex {
    sheet: 0,
    row: 1,
    column: 6,
};

/// Calls by their words, their arrays, their other arguments, and what they come to under a limit of 10 elements. Arrays and
/// arguments are set apart by bars, rows by semicolons, elements by commas. `?` is an error, nothing a blank.
static CALLS: [(&str, &str, &str, &str); 23] = [
    ("take", "1,2;3,4", "1", "1,2"),
    ("take", "1,2;3,4", "-1|1", "3"),
    ("take", "1,2;3,4", "0", "#CALC!"),
    ("drop", "1,2;3,4", "1|1", "4"),
    ("drop", "1,2;3,4", "2", "#CALC!"),
    ("transpose", "1,2,3", "", "1;2;3"),
    ("expand", "1,2", "2|3", "1,2,?;?,?,?"),
    ("expand", "1,2", "2||9", "#VALUE!"),
    ("expand", "1,2", "2|2|9", "1,2;9,9"),
    ("expand", "1,2", "4|3", "#ERROR!"),
    ("expand", "1,2", "4|16385", "#VALUE!"),
    ("hstack", "1;2|7", "", "1,7;2,?"),
    ("vstack", "1,2|7", "", "1,2;7,?"),
    ("choosecols", "1,2;3,4", "2|-1|1", "2,2,1;4,4,3"),
    ("chooserows", "1,2;3,4", "-1", "3,4"),
    ("chooserows", "1,2;3,4", "1|3", "#VALUE!"),
    ("wrapcols", "1,2,3", "2", "1,3;2,?"),
    ("wraprows", "1,2,3", "2|0", "1,2;3,0"),
    ("wraprows", "1,2;3,4", "?", "#VALUE!"),
    ("wraprows", "1,2,3", "?", "#N/A"),
    ("sequence", "", "2|2|5|10", "5,15;25,35"),
    ("sequence", "", "4|3", "#ERROR!"),
    ("sequence", "", "?|0", "#N/A"),
];

#[test]
fn calls_come_to_nests_or_errors(rt: HostRuntime) -> Result<(), Fail> {
    for &(word, arrays, args, wanted) in &CALLS {
        let parts = parts_in(rt.alloc(), arrays)?;
        let found = called(rt.alloc(), kind_of(word), parts, args_in(rt.alloc(), args)?);
        assert!(rt;
            is_wanted(rt.alloc(), &found, wanted)?,
            "{word} {arrays} {args}"
        );
    }
    Ok(())
}

#[test]
fn a_range_is_read_cell_by_cell(rt: HostRuntime) -> Result<(), Fail> {
    let mut book = MemoryBook::new(rt.alloc());
    book.set(CELL, ArrayNode::Number(7000000), None, None)?;
    let right = CellReferenceIndex {
        column: 16384,
        ..CELL
    };
    let nest = PlainNest::of_range(Range { left: CELL, right });
    let mut parts = Vec::new(rt.alloc());
    parts.push(nest)?;
    let Some(Ok(nest)) = called(rt.alloc(), Function::Transpose, parts, Vec::new(rt.alloc())) else {
        return Err("no nest".into());
    };
    assert!(rt; nest.size().rows == 16379 && nest.size().columns == 1);
    let mut steps = Steps::new(Plain);
    let first = nest.get(rt.alloc(), &book, 0, 0, &mut steps)?;
    assert!(rt; first == Some(ArrayNode::Number(7000000)));
    Ok(())
}

fn kind_of(word: &str) -> Function {
    match word {
        "take" => Function::Take,
        "drop" => Function::Drop,
        "transpose" => Function::Transpose,
        "expand" => Function::Expand,
        "hstack" => Function::Hstack,
        "vstack" => Function::Vstack,
        "choosecols" => Function::Choosecols,
        "chooserows" => Function::Chooserows,
        "wrapcols" => Function::Wrapcols,
        "wraprows" => Function::Wraprows,
        _ => Function::Sequence,
    }
}

/// What a call comes to, if its arguments are as many as its kind takes.
fn called(
    alloc: Global,
    kind: Function,
    parts: Vec<PlainNest>,
    args: Vec<Found>,
) -> Option<Result<PlainNest, Stop>>
    requires { IsTrue (list_all is_constant args.items) }
{
    let count = parts.len() + args.len();
    if arguments_refused(kind, count).is_some() {
        return None;
    }
    if parts.len() != arrays_of(kind, count) {
        return None;
    }
    Some(PlainNest::of_call(alloc, 10, CELL, kind, parts, args))
}

fn is_wanted(
    alloc: Global,
    found: &Option<Result<PlainNest, Stop>>,
    wanted: &str,
) -> Result<bool, Memory> {
    match found {
        Some(Ok(nest)) => {
            let book = MemoryBook::new(alloc);
            let mut steps = Steps::new(Plain);
            let grid = nest.grid(alloc, &book, &mut steps)?;
            let wanted = Grid::from_rows(alloc, rows_in(alloc, wanted)?)?;
            Ok(wanted == Some(grid))
        }
        Some(Err(Stop::Wrong(error))) => Ok(error.name() == wanted),
        Some(Err(Stop::Memory)) => Err(Memory),
        None => Ok(false),
    }
}

fn parts_in(alloc: Global, written: &str) -> Result<Vec<PlainNest>, Memory> {
    let mut parts = Vec::new(alloc);
    if written.is_empty() {
        return Ok(parts);
    }
    for array in written.split('|') {
        let rows = rows_in(alloc, array)?;
        if is_array(&rows) {
            if let Some(grid) = Grid::from_rows(alloc, rows)? {
                parts.push(PlainNest::of_array(grid))?;
            }
        }
    }
    Ok(parts)
}

fn rows_in(alloc: Global, written: &str) -> Result<Rows, Memory> {
    let mut rows = Rows::new(alloc);
    for line in written.split(';') {
        if let Err(_row) = rows.push(row_in(alloc, line)?) {
            return Err(Memory);
        }
    }
    Ok(rows)
}

fn row_in(alloc: Global, line: &str) -> Result<Vec<ArrayNode>, Memory> {
    let mut row = Vec::new(alloc);
    for element in line.split(',') {
        row.push(element_in(element))?;
    }
    Ok(row)
}

fn element_in(written: &str) -> ArrayNode {
    match read_number(written) {
        Some(number) => ArrayNode::Number(number),
        None => {
            if written.is_empty() {
                ArrayNode::Empty
            } else {
                ArrayNode::Error(Error::NA)
            }
        }
    }
}

fn args_in(alloc: Global, written: &str) -> Result<Vec<Found>, Memory>
    ensures { IfOk result (λ args. IsTrue (list_all is_constant args.items)) }
{
    let mut args = Vec::new(alloc);
    if written.is_empty() {
        return Ok(args);
    }
    for arg in written.split('|') {
        args.push(Found::Same(constant_in(arg)))?;
    }
    Ok(args)
}

fn constant_in(written: &str) -> CalcResult
    ensures { IsTrue (is_constant_result result) }
{
    match element_in(written) {
        ArrayNode::Number(number) => CalcResult::Number(number),
        ArrayNode::Empty => CalcResult::EmptyArg,
        _ => CalcResult::Error {
            error: Error::NA,
            origin: CELL,
        },
    }
}
