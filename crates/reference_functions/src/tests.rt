use super::*;
use argument_core::Stop;
use book_core::MemoryBook;
use call_core::{Plain, Steps};
use grid_core::CalcResult;
use number_core::read_number;
use rectangle_core::Grid;
use result_core::{Found, result_of};
use std::alloc::Global;
use std::test::Fail;
use value_core::{ArrayNode, CellReferenceIndex, Error, Memory, Rows, Text};

static CELL: CellReferenceIndex = CellReferenceIndex {
    sheet: 0,
    row: 1,
    column: 6,
};

/// Calls by their words, their arguments, and what they answer in F1 of a sheet that has 1,2,3;4,5,6 in A1:C2, 6 and a formula in
/// D1, and `#DIV/0!` in B4. Arguments are set apart by bars: a cell, or a range by two cells and a colon; after a bracket an array,
/// whose rows are set apart by semicolons and whose elements by commas; after a quote a text; the truth values `t` and `f`, the
/// errors `!`, `?`, `#` and `&`, a missing argument `~`, a number, and nothing for a blank.
static CALLS: [(&str, &str, &str); 90] = [
    ("index", "A1:C2|0|2", "B1:B2"),
    ("index", "A1:C1|3", "3"),
    ("index", "A1:C2|3|1", "#REF!"),
    ("index", "A1:C2|1|4", "#REF!"),
    ("index", "A1:C2|2", "A2:C2"),
    ("index", "A1:C2|0", "A1:C2"),
    ("index", "A1:C2|2.9|1.5", "4"),
    ("index", "A1:C2|~|3", "C1:C2"),
    ("index", "A1:C2|", "A1:C2"),
    ("index", "A1:C2|1|2|1.9", "2"),
    ("index", "A3:A4|1", ""),
    ("index", "B3:B4|2", "#DIV/0!"),
    ("index", "[1,2,3;4,5,6|0|2", "[2;5"),
    ("index", "[1,2,3;4,5,6|2|3", "6"),
    ("index", "[1,2,3;4,5,6|2", "[4,5,6"),
    ("index", "[1,2,3|2", "2"),
    ("index", "[1,2,3|0", "[1,2,3"),
    ("index", "[1;2|3", "#REF!"),
    ("index", "?|?|?|0.9", "#VALUE!"),
    ("index", "?|?|?|2", "#REF!"),
    ("index", "?|-0.5|?", "#VALUE!"),
    ("index", "?|1|-1", "#VALUE!"),
    ("index", "!|9|9", "#DIV/0!"),
    ("index", "A1|1|1", "#VALUE!"),
    ("index", "~|1", "#VALUE!"),
    ("index", "A1:C2", "#ERROR!"),
    ("offset", "A1|1|1|1|2", "B2:C2"),
    ("offset", "A1|0|0|0.5", "A1:A1"),
    ("offset", "A1|0|0|0", "#REF!"),
    ("offset", "A1|0|0|-1", "#VALUE!"),
    ("offset", "A1|-1|0", "#REF!"),
    ("offset", "A1:B2|1|1", "B2:C3"),
    ("offset", "A1|D1|0.9", "A7:A7"),
    ("offset", "A1|0|0|~", "#REF!"),
    ("offset", "5|?|0", "#VALUE!"),
    ("offset", "!|?|?", "#DIV/0!"),
    ("offset", "A1|?|!", "#N/A"),
    ("offset", "A1|0|0|-1|?", "#N/A"),
    ("offset", "A1|0", "#ERROR!"),
    ("choose", "[1;2;1;2;3|1|2", "[1;2;1;2;#"),
    ("choose", "1|[7|2", "[7"),
    ("choose", "2|A1|B2:C2", "B2:C2"),
    ("choose", "1|A1|2", "A1:A1"),
    ("choose", "1.9|'a|'b", "'a"),
    ("choose", "A2|1|2|3|'d", "'d"),
    ("choose", "0|1", "#VALUE!"),
    ("choose", "3|1|2", "#VALUE!"),
    ("choose", "-1|1", "#VALUE!"),
    ("choose", "'x|1", "#VALUE!"),
    ("choose", "!|1", "#DIV/0!"),
    ("choose", "~|1", "#VALUE!"),
    ("choose", "t|5", "5"),
    ("choose", "2|1|?", "#N/A"),
    ("choose", "1|~", "~"),
    ("choose", "1", "#ERROR!"),
    ("choose", "[1,2;'x,?|A1:C1|[8,9", "[&,8;#,?"),
    ("choose", "[1,2,3|A2|A2:A2|", "[4,4,"),
    ("choose", "[1,2,3|~|'a|!", "[,'a,!"),
    ("choose", "A1:B1|'a|t", "['a,t"),
    ("choose", "[0,4,-1,1.9,t|5", "[#,#,#,5,5"),
    ("row", "", "1"),
    ("column", "", "6"),
    ("row", "A1:A2", "[1;2"),
    ("column", "A1:C1", "[1,2,3"),
    ("row", "B2", "2"),
    ("row", "A2:C2", "2"),
    ("column", "B1:B9", "2"),
    ("row", "5", "#VALUE!"),
    ("row", "!", "#DIV/0!"),
    ("column", "~", "#VALUE!"),
    ("row", "A1|A1", "#ERROR!"),
    ("rows", "A1:C2", "2"),
    ("columns", "A1:C2", "3"),
    ("rows", "[1,2;3,4;5,6", "3"),
    ("columns", "[1,2;3,4;5,6", "2"),
    ("rows", "B4", "1"),
    ("rows", "~", "1"),
    ("rows", "!", "#DIV/0!"),
    ("columns", "?", "#N/A"),
    ("rows", "", "#ERROR!"),
    ("areas", "A1:C2", "1"),
    ("areas", "B4", "#DIV/0!"),
    ("areas", "~", "1"),
    ("formulatext", "D1", "'=SUM(A1:C1)"),
    ("formulatext", "D1:D1", "'=SUM(A1:C1)"),
    ("formulatext", "A1", "#N/A"),
    ("formulatext", "A1:A2", "#NIMPL!"),
    ("formulatext", "A1:B1", "#NIMPL!"),
    ("formulatext", "5", "#ERROR!"),
    ("formulatext", "!", "#ERROR!"),
];

#[test]
fn functions_of_references_answer_by_their_rules(rt: HostRuntime) -> Result<(), Fail> {
    let alloc = rt.alloc();
    let book = book(alloc)?;
    for &(word, args, wanted) in &CALLS {
        let args = args_in(alloc, args)?;
        let answer = answer_of(alloc, &book, word, args);
        assert!(rt; is_answer(alloc, &answer, wanted)?, "{word} gives {wanted}");
    }
    Ok(())
}

fn cell(row: i32, column: i32) -> CellReferenceIndex {
    CellReferenceIndex {
        sheet: 0,
        row,
        column,
    }
}

fn book(alloc: Global) -> Result<MemoryBook, Memory> {
    let mut book = MemoryBook::new(alloc);
    book.add_sheet(Text::from_text(alloc, "A")?)?;
    for index in 0..6 {
        let at = cell(index / 3 + 1, index % 3 + 1);
        let number = (index as i64 + 1) * 1000000;
        book.set(at, ArrayNode::Number(number), None, None)?;
    }
    let formula = Text::from_text(alloc, "=SUM(A1:C1)")?;
    book.set(cell(1, 4), ArrayNode::Number(6000000), None, Some(formula))?;
    book.set(cell(4, 2), ArrayNode::Error(Error::DIV), None, None)?;
    Ok(book)
}

fn answer_of(
    alloc: Global,
    book: &MemoryBook,
    word: &str,
    args: Vec<Found>,
) -> Result<CalcResult, Stop> {
    let mut steps = Steps::new(Plain);
    let reads = &mut steps;
    match word {
        "index" => index_call(alloc, book, CELL, args, reads),
        "offset" => offset_call(book, CELL, args, reads),
        "choose" => choose_call(alloc, book, CELL, args, reads),
        "row" => row_call(alloc, CELL, args),
        "column" => column_call(alloc, CELL, args),
        "rows" => rows_call(args),
        "columns" => columns_call(args),
        "areas" => areas_call(alloc, book, CELL, args, reads),
        _ => formula_text_call(alloc, book, args),
    }
}

fn is_answer(
    alloc: Global,
    answer: &Result<CalcResult, Stop>,
    wanted: &str,
) -> Result<bool, Memory> {
    match answer {
        Ok(CalcResult::Error { error, origin }) => Ok(error.name() == wanted && *origin == CELL),
        Ok(made) => {
            let wanted = found_in(alloc, wanted)?;
            Ok(is_found(&wanted, made))
        }
        Err(Stop::Wrong(error)) => Ok(error.name() == wanted),
        Err(Stop::Memory) => Err(Memory),
    }
}

fn is_found(found: &Found, made: &CalcResult) -> bool {
    match found {
        Found::Same(wanted) => wanted == made,
        Found::Cell(_) => false,
    }
}

fn args_in(alloc: Global, written: &str) -> Result<Vec<Found>, Memory> {
    let mut args = Vec::new(alloc);
    if written.is_empty() {
        return Ok(args);
    }
    for arg in written.split('|') {
        args.push(found_in(alloc, arg)?)?;
    }
    Ok(args)
}

fn found_in(alloc: Global, written: &str) -> Result<Found, Memory> {
    if written == "~" {
        return Ok(Found::Same(CalcResult::EmptyArg));
    }
    if let Some(rows) = written.strip_prefix('[') {
        return Ok(Found::Same(array_in(grid_in(alloc, rows)?)));
    }
    if let Some(reference) = reference_in(written) {
        return Ok(reference);
    }
    let element = element_in(alloc, written)?;
    Ok(Found::Same(result_of(alloc, CELL, &element)?))
}

/// A cell, or two cells and a colon, each a letter and a digit.
fn reference_in(written: &str) -> Option<Found> {
    match written.as_bytes() {
        [column @ b'A'..=b'Z', row @ b'1'..=b'9'] => Some(Found::Cell(cell_in(*row, *column))),
        [column1 @ b'A'..=b'Z', row1, b':', column2, row2] => Some(Found::Same(
            CalcResult::Range {
                left: cell_in(*row1, *column1),
                right: cell_in(*row2, *column2),
            },
        )),
        _ => None,
    }
}

fn cell_in(row: u8, column: u8) -> CellReferenceIndex {
    cell(
        row.wrapping_sub(b'0') as i32,
        column.wrapping_sub(b'@') as i32,
    )
}

fn array_in(grid: Option<Grid>) -> CalcResult {
    match grid {
        Some(grid) => CalcResult::Array(grid),
        None => CalcResult::EmptyCell,
    }
}

fn grid_in(alloc: Global, written: &str) -> Result<Option<Grid>, Memory> {
    let mut rows = Rows::new(alloc);
    for line in written.split(';') {
        let row = row_in(alloc, line)?;
        if let Err(_row) = rows.push(row) {
            return Err(Memory);
        }
    }
    Grid::from_rows(alloc, rows)
}

fn row_in(alloc: Global, line: &str) -> Result<Vec<ArrayNode>, Memory> {
    let mut row = Vec::new(alloc);
    for element in line.split(',') {
        row.push(element_in(alloc, element)?)?;
    }
    Ok(row)
}

fn element_in(alloc: Global, written: &str) -> Result<ArrayNode, Memory> {
    if let Some(text) = written.strip_prefix('\'') {
        return Ok(ArrayNode::String(Text::from_text(alloc, text)?));
    }
    Ok(match written {
        "" => ArrayNode::Empty,
        "t" => ArrayNode::Boolean(true),
        "f" => ArrayNode::Boolean(false),
        "!" => ArrayNode::Error(Error::DIV),
        "?" => ArrayNode::Error(Error::NA),
        "#" => ArrayNode::Error(Error::VALUE),
        "&" => ArrayNode::Error(Error::REF),
        number => number_in(number),
    })
}

fn number_in(written: &str) -> ArrayNode {
    match read_number(written) {
        Some(number) => ArrayNode::Number(number),
        None => ArrayNode::Empty,
    }
}
