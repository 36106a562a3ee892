use super::*;
use argument_core::Stop;
use book_core::MemoryBook;
use call_core::{Plain, Steps};
use grid_core::CalcResult;
use number_core::read_number;
use rectangle_core::Grid;
use result_core::{Found, result_of};
use std::alloc::Global;
use std::test::Fail;
use value_core::{ArrayNode, CellReferenceIndex, Error, Memory, Rows, Text};

static CELL: CellReferenceIndex = CellReferenceIndex {
    sheet: 0,
    row: 1,
    column: 6,
};

/// Calls by their words, their arguments, and what they answer under a limit of 1000000 elements. Arguments are set apart by bars. A
/// bracket begins an array, whose rows are set apart by semicolons and whose elements by commas. A quote begins a text, `t` and
/// `f` are truth values, `!` and `?` errors, `~` is a missing argument, and nothing a blank.
static CALLS: [(&str, &str, &str); 62] = [
    ("take", "[1,2,3;4,5,6|1|-2", "[2,3"),
    ("take", "[1,2,3;4,5,6|0", "#CALC!"),
    ("take", "[1,2,3;4,5,6|0|?", "#CALC!"),
    ("take", "[1,2,3;4,5,6|1|?", "#N/A"),
    ("take", "[1,2,3;4,5,6|1|~", "#CALC!"),
    ("take", "[1,2,3;4,5,6|-1.9", "[4,5,6"),
    ("take", "[1,2", "#ERROR!"),
    ("take", "?|0", "#N/A"),
    ("drop", "[1,2,3;4,5,6|1", "[4,5,6"),
    ("drop", "[1,2,3;4,5,6|2", "#CALC!"),
    ("drop", "[1,2,3;4,5,6|-1|2", "[3"),
    ("drop", "[1,2,3;4,5,6|2|?", "#N/A"),
    ("drop", "[1,2|0|0|0", "#ERROR!"),
    ("expand", "[1;2|3|2|0", "[1,0;2,0;0,0"),
    ("expand", "[1;2;3|2", "#VALUE!"),
    ("expand", "[1;2|4", "[1;2;?;?"),
    ("expand", "[1;2|1000|1001", "#ERROR!"),
    ("expand", "[1;2|3|1|[7", "[1;2;#"),
    ("expand", "[1;2|3|1|!", "[1;2;!"),
    ("expand", "[1;2|3|1|~", "[1;2;0"),
    ("transpose", "[1,2,3;4,5,6", "[1,4;2,5;3,6"),
    ("transpose", "[1|2", "#ERROR!"),
    ("wraprows", "[1,2,3,4,5|3|0", "[1,2,3;4,5,0"),
    ("wraprows", "[1,2;4,5|2", "#VALUE!"),
    ("wraprows", "[1,2;4,5|?", "#VALUE!"),
    ("wraprows", "[1,2|0", "#VALUE!"),
    ("wraprows", "[1,2,3|2", "[1,2;3,?"),
    ("wrapcols", "[1,2,3|2|0", "[1,3;2,0"),
    ("wrapcols", "[1,2,3|-5", "#VALUE!"),
    ("choosecols", "[1,2,3;4,5,6|1|3", "[1,3;4,6"),
    ("choosecols", "[1,2,3;4,5,6|9|?", "#VALUE!"),
    ("choosecols", "[1,2,3;4,5,6|-1|?", "#N/A"),
    ("choosecols", "[1,2", "#ERROR!"),
    ("chooserows", "[1,2,3;4,5,6|-1", "[4,5,6"),
    ("chooserows", "[1;4|5", "#VALUE!"),
    ("hstack", "[1;4|[3", "[1,3;4,?"),
    ("hstack", "[1;4|!|?", "#DIV/0!"),
    ("hstack", "", "#ERROR!"),
    ("vstack", "[1,2|4", "[1,2;4,?"),
    ("unique", "[1;2;1|f|t", "[2"),
    ("unique", "['x;'X", "['x"),
    ("unique", "['x;'X|~|1", "#CALC!"),
    ("unique", "[1,2,1|t", "[1,2"),
    ("filter", "[1;2;3|[0;0;0|[8;9", "[8;9"),
    ("filter", "[1;2;3|[0;0;0", "#CALC!"),
    ("filter", "[1;2;3|[0;0;0|~", "#CALC!"),
    ("filter", "[1;2;3|[0;0;0|'none", "'none"),
    ("filter", "[1;2;3|[1", "[1;2;3"),
    ("filter", "[1;2;3|[1;1|7", "#VALUE!"),
    ("tocol", "[1,2;4,5|0|t", "[1;4;2;5"),
    ("tocol", "[1,2|4|?", "#VALUE!"),
    ("torow", "[1,2,3,6;4,5,6,|1", "[1,2,3,6,4,5,6"),
    ("trimrange", "[1,2,3,6;4,5,6,;,,,", "[1,2,3,6;4,5,6,"),
    ("trimrange", "[;", "#REF!"),
    ("trimrange", "[;|0|0", "[;"),
    ("trimrange", "[1|4|?", "#N/A"),
    ("sequence", "2|2|10|-3", "[10,7;4,1"),
    ("sequence", "1000|1001", "#ERROR!"),
    ("sequence", "1|16385", "#VALUE!"),
    ("sequence", "0|-1", "#CALC!"),
    ("sequence", "2.9|~|~|0.5", "[1;1.5"),
    ("sequence", "-0.5|?", "#VALUE!"),
];

#[test]
fn functions_of_arrays_answer_by_their_rules(rt: HostRuntime) -> Result<(), Fail> {
    let alloc = rt.alloc();
    let book = book_of_one_sheet(alloc)?;
    for &(word, args, wanted) in &CALLS {
        let args = args_in(alloc, args)?;
        let answer = answer_of(alloc, &book, word, args);
        assert!(rt; is_answer(alloc, &answer, wanted)?, "{word} gives {wanted}");
    }
    Ok(())
}

fn book_of_one_sheet(alloc: Global) -> Result<MemoryBook, Memory> {
    let mut book = MemoryBook::new(alloc);
    book.add_sheet(Text::from_text(alloc, "A")?)?;
    Ok(book)
}

fn answer_of(
    alloc: Global,
    book: &MemoryBook,
    word: &str,
    args: Vec<Found>,
) -> Result<CalcResult, Stop> {
    let mut steps = Steps::new(Plain);
    let reads = &mut steps;
    match word {
        "take" => take_call(alloc, book, CELL, args, reads),
        "drop" => drop_call(alloc, book, CELL, args, reads),
        "expand" => expand_call(alloc, book, 1000000, CELL, args, reads),
        "transpose" => transpose_call(alloc, book, CELL, args, reads),
        "wraprows" => wrap_rows_call(alloc, book, 1000000, CELL, args, reads),
        "wrapcols" => wrap_columns_call(alloc, book, 1000000, CELL, args, reads),
        "choosecols" => choose_columns_call(alloc, book, CELL, args, reads),
        "chooserows" => choose_rows_call(alloc, book, CELL, args, reads),
        "hstack" => hstack_call(alloc, book, CELL, args, reads),
        "vstack" => vstack_call(alloc, book, CELL, args, reads),
        "unique" => unique_call(alloc, book, CELL, args, reads),
        "filter" => filter_call(alloc, book, CELL, args, reads),
        "tocol" => to_column_call(alloc, book, CELL, args, reads),
        "torow" => to_row_call(alloc, book, CELL, args, reads),
        "trimrange" => trim_call(alloc, book, CELL, args, reads),
        _ => sequence_call(alloc, book, 1000000, CELL, args, reads),
    }
}

fn is_answer(
    alloc: Global,
    answer: &Result<CalcResult, Stop>,
    wanted: &str,
) -> Result<bool, Memory> {
    match answer {
        Ok(CalcResult::Error { error, origin }) => Ok(error.name() == wanted && *origin == CELL),
        Ok(made) => {
            let wanted = found_in(alloc, wanted)?;
            Ok(is_found(&wanted, made))
        }
        Err(Stop::Wrong(error)) => Ok(error.name() == wanted),
        Err(Stop::Memory) => Err(Memory),
    }
}

fn is_found(found: &Found, made: &CalcResult) -> bool {
    match found {
        Found::Same(wanted) => wanted == made,
        Found::Cell(_) => false,
    }
}

fn args_in(alloc: Global, written: &str) -> Result<Vec<Found>, Memory> {
    let mut args = Vec::new(alloc);
    if written.is_empty() {
        return Ok(args);
    }
    for arg in written.split('|') {
        args.push(found_in(alloc, arg)?)?;
    }
    Ok(args)
}

fn found_in(alloc: Global, written: &str) -> Result<Found, Memory> {
    if written == "~" {
        return Ok(Found::Same(CalcResult::EmptyArg));
    }
    if let Some(rows) = written.strip_prefix('[') {
        return Ok(Found::Same(array_of(grid_in(alloc, rows)?)));
    }
    let element = element_in(alloc, written)?;
    Ok(Found::Same(result_of(alloc, CELL, &element)?))
}

fn array_of(grid: Option<Grid>) -> CalcResult {
    match grid {
        Some(grid) => CalcResult::Array(grid),
        None => CalcResult::EmptyCell,
    }
}

fn grid_in(alloc: Global, written: &str) -> Result<Option<Grid>, Memory> {
    let mut rows = Rows::new(alloc);
    for line in written.split(';') {
        let row = row_in(alloc, line)?;
        if let Err(_row) = rows.push(row) {
            return Err(Memory);
        }
    }
    Grid::from_rows(alloc, rows)
}

fn row_in(alloc: Global, line: &str) -> Result<Vec<ArrayNode>, Memory> {
    let mut row = Vec::new(alloc);
    for element in line.split(',') {
        row.push(element_in(alloc, element)?)?;
    }
    Ok(row)
}

fn element_in(alloc: Global, written: &str) -> Result<ArrayNode, Memory> {
    if let Some(text) = written.strip_prefix('\'') {
        return Ok(ArrayNode::String(Text::from_text(alloc, text)?));
    }
    Ok(match written {
        "" => ArrayNode::Empty,
        "t" => ArrayNode::Boolean(true),
        "f" => ArrayNode::Boolean(false),
        "!" => ArrayNode::Error(Error::DIV),
        "?" => ArrayNode::Error(Error::NA),
        "#" => ArrayNode::Error(Error::VALUE),
        number => number_of(number),
    })
}

fn number_of(written: &str) -> ArrayNode {
    match read_number(written) {
        Some(number) => ArrayNode::Number(number),
        None => ArrayNode::Empty,
    }
}
