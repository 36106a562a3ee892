use super::*;
use argument_core::Stop;
use book_core::MemoryBook;
use call_core::{Plain, Steps};
use grid_core::CalcResult;
use rectangle_core::Grid;
use result_core::Found;
use std::alloc::Global;
use std::test::Fail;
use value_core::{ArrayNode, CellReferenceIndex, Error, Memory, Rows, Text};

static CELL: CellReferenceIndex = CellReferenceIndex {
    sheet: 0,
    row: 1,
    column: 6,
};

/// What an argument came to.
#[derive(Clone, Copy)]
enum Arg {
    Number(i64),
    Words(&'static str),
    Truth(bool),
    Wrong(Error),
    Blank,
    Missing,
    /// An array of one row.
    Row(&'static [Item]),
}

/// An element of such a row.
#[derive(Clone, Copy)]
enum Item {
    Number(i64),
    Words(&'static str),
    Truth(bool),
    Wrong(Error),
    Blank,
}

/// One, in millionths.
const ONE: i64 = 1000000;

/// Calls by their words, their arguments and what they answer: a text or an error as it is written, a range by the rows and columns
/// of its ends, an array with bars between its elements and slashes between its rows.
static CALLS: [(&str, &[Arg], &str); 58] = [
    (
        "address",
        &[
            Arg::Number(ONE),
            Arg::Number(ONE),
            Arg::Number(ONE),
            Arg::Truth(true),
            Arg::Words(""),
        ],
        "!$A$1",
    ),
    (
        "address",
        &[
            Arg::Number(3 * ONE),
            Arg::Number(5 * ONE),
            Arg::Number(4 * ONE),
            Arg::Truth(false),
        ],
        "R[3]C[5]",
    ),
    (
        "address",
        &[Arg::Number(ONE), Arg::Number(16385 * ONE)],
        "#VALUE!",
    ),
    (
        "address",
        &[
            Arg::Number(ONE),
            Arg::Number(16385 * ONE),
            Arg::Number(2 * ONE),
            Arg::Truth(false),
        ],
        "R1C[16385]",
    ),
    (
        "address",
        &[
            Arg::Number(2900000),
            Arg::Number(27 * ONE),
            Arg::Number(2 * ONE),
        ],
        "AA$2",
    ),
    (
        "address",
        &[Arg::Number(ONE), Arg::Number(ONE), Arg::Missing],
        "#VALUE!",
    ),
    (
        "address",
        &[
            Arg::Number(ONE),
            Arg::Number(ONE),
            Arg::Number(3 * ONE),
            Arg::Missing,
        ],
        "R[1]C1",
    ),
    (
        "address",
        &[Arg::Number(0), Arg::Wrong(Error::NA)],
        "#VALUE!",
    ),
    ("address", &[Arg::Wrong(Error::NA), Arg::Number(0)], "#N/A"),
    (
        "address",
        &[Arg::Number(ONE), Arg::Number(0), Arg::Wrong(Error::NA)],
        "#VALUE!",
    ),
    (
        "address",
        &[
            Arg::Number(ONE),
            Arg::Number(ONE),
            Arg::Number(5 * ONE),
            Arg::Wrong(Error::NA),
        ],
        "#VALUE!",
    ),
    (
        "address",
        &[
            Arg::Number(ONE),
            Arg::Number(16385 * ONE),
            Arg::Number(ONE),
            Arg::Truth(true),
            Arg::Wrong(Error::NA),
        ],
        "#N/A",
    ),
    (
        "address",
        &[
            Arg::Number(ONE),
            Arg::Number(ONE),
            Arg::Number(ONE),
            Arg::Truth(true),
            Arg::Words("Été 1"),
        ],
        "'Été 1'!$A$1",
    ),
    (
        "address",
        &[
            Arg::Number(i64::MAX),
            Arg::Number(i64::MAX),
            Arg::Number(ONE),
            Arg::Truth(false),
        ],
        "R2147483647C2147483647",
    ),
    ("address", &[Arg::Number(ONE)], "#ERROR!"),
    ("indirect", &[Arg::Words("A1:B1")], "1,1:1,2"),
    (
        "indirect",
        &[Arg::Words("R1C[-3]"), Arg::Truth(false)],
        "1,3:1,3",
    ),
    ("indirect", &[Arg::Words("A0")], "#REF!"),
    ("indirect", &[Arg::Words("A1"), Arg::Missing], "#REF!"),
    ("indirect", &[Arg::Words("rc"), Arg::Number(0)], "1,6:1,6"),
    ("indirect", &[Arg::Words("a!B2")], "2,2:2,2"),
    ("indirect", &[Arg::Words("b!B2")], "#REF!"),
    (
        "indirect",
        &[Arg::Words("A1"), Arg::Wrong(Error::NA)],
        "#N/A",
    ),
    (
        "indirect",
        &[Arg::Wrong(Error::DIV), Arg::Wrong(Error::NA)],
        "#DIV/0!",
    ),
    ("indirect", &[Arg::Row(&[Item::Blank])], "#NIMPL!"),
    ("indirect", &[], "#ERROR!"),
    (
        "arraytotext",
        &[Arg::Row(&[
            Item::Words("a"),
            Item::Truth(true),
            Item::Number(1500000),
            Item::Blank,
        ])],
        "a, TRUE, 1.5, ",
    ),
    (
        "arraytotext",
        &[
            Arg::Row(&[
                Item::Words("a\""),
                Item::Truth(true),
                Item::Wrong(Error::NA),
            ]),
            Arg::Number(ONE),
        ],
        "{\"a\"\"\",TRUE,#N/A}",
    ),
    (
        "arraytotext",
        &[Arg::Words("a"), Arg::Number(1900000)],
        "\"a\"",
    ),
    ("arraytotext", &[Arg::Words("a"), Arg::Missing], "a"),
    ("arraytotext", &[Arg::Number(-ONE), Arg::Number(ONE)], "-1"),
    ("arraytotext", &[Arg::Missing, Arg::Number(ONE)], ""),
    ("arraytotext", &[Arg::Blank, Arg::Number(ONE)], ""),
    ("arraytotext", &[Arg::Wrong(Error::NA)], "#N/A"),
    (
        "arraytotext",
        &[Arg::Wrong(Error::NA), Arg::Number(-1)],
        "#VALUE!",
    ),
    (
        "arraytotext",
        &[Arg::Words("a"), Arg::Number(2 * ONE)],
        "#VALUE!",
    ),
    (
        "arraytotext",
        &[Arg::Words("a"), Arg::Blank, Arg::Blank],
        "#ERROR!",
    ),
    (
        "textsplit",
        &[Arg::Words("a,b;c"), Arg::Words(","), Arg::Words(";")],
        "a|b/c|#N/A",
    ),
    ("textsplit", &[Arg::Words("a"), Arg::Words("")], "#VALUE!"),
    (
        "textsplit",
        &[
            Arg::Words("aXéxc"),
            Arg::Words("x"),
            Arg::Missing,
            Arg::Truth(false),
            Arg::Number(ONE),
        ],
        "a|é|c",
    ),
    (
        "textsplit",
        &[
            Arg::Words("a1b2c"),
            Arg::Row(&[Item::Number(ONE), Item::Blank, Item::Words("2")]),
        ],
        "a|b|c",
    ),
    (
        "textsplit",
        &[
            Arg::Words("a"),
            Arg::Row(&[Item::Words(","), Item::Wrong(Error::NA)]),
        ],
        "#VALUE!",
    ),
    (
        "textsplit",
        &[Arg::Words("a"), Arg::Row(&[Item::Truth(true)])],
        "#VALUE!",
    ),
    (
        "textsplit",
        &[
            Arg::Words("a"),
            Arg::Row(&[Item::Words(""), Item::Words(",")]),
        ],
        "#VALUE!",
    ),
    ("textsplit", &[Arg::Words("a"), Arg::Truth(true)], "#VALUE!"),
    (
        "textsplit",
        &[Arg::Words("a"), Arg::Wrong(Error::NA)],
        "#N/A",
    ),
    ("textsplit", &[Arg::Words("a"), Arg::Missing], "#VALUE!"),
    (
        "textsplit",
        &[
            Arg::Words("a;b"),
            Arg::Blank,
            Arg::Row(&[Item::Words(""), Item::Words(";")]),
        ],
        "a/b",
    ),
    (
        "textsplit",
        &[Arg::Words("a"), Arg::Blank, Arg::Words("")],
        "#VALUE!",
    ),
    (
        "textsplit",
        &[
            Arg::Words("a;,b"),
            Arg::Words(","),
            Arg::Words(";"),
            Arg::Truth(true),
        ],
        "a/b",
    ),
    (
        "textsplit",
        &[
            Arg::Words(",,"),
            Arg::Words(","),
            Arg::Missing,
            Arg::Truth(true),
        ],
        "#VALUE!",
    ),
    (
        "textsplit",
        &[
            Arg::Words("a;b,c"),
            Arg::Words(","),
            Arg::Words(";"),
            Arg::Missing,
            Arg::Missing,
            Arg::Words("-"),
        ],
        "a|-/b|c",
    ),
    (
        "textsplit",
        &[
            Arg::Words("a;b,c"),
            Arg::Words(","),
            Arg::Words(";"),
            Arg::Missing,
            Arg::Missing,
            Arg::Missing,
        ],
        "a|#N/A/b|c",
    ),
    (
        "textsplit",
        &[
            Arg::Words("a;b,c"),
            Arg::Words(","),
            Arg::Words(";"),
            Arg::Missing,
            Arg::Missing,
            Arg::Wrong(Error::DIV),
        ],
        "a|#DIV/0!/b|c",
    ),
    (
        "textsplit",
        &[
            Arg::Words("a;b,c"),
            Arg::Words(","),
            Arg::Words(";"),
            Arg::Missing,
            Arg::Missing,
            Arg::Row(&[Item::Number(ONE)]),
        ],
        "a|#N/A/b|c",
    ),
    (
        "textsplit",
        &[
            Arg::Words("a"),
            Arg::Words(","),
            Arg::Missing,
            Arg::Words("x"),
            Arg::Wrong(Error::NA),
        ],
        "#VALUE!",
    ),
    (
        "textsplit",
        &[
            Arg::Words("a"),
            Arg::Words(","),
            Arg::Missing,
            Arg::Missing,
            Arg::Wrong(Error::NA),
        ],
        "#N/A",
    ),
    ("textsplit", &[Arg::Words("a")], "#ERROR!"),
];

#[test]
fn functions_of_texts_answer_by_their_rules(rt: HostRuntime) -> Result<(), Fail> {
    let alloc = rt.alloc();
    let book = book_of_one_sheet(alloc)?;
    for &(word, args, wanted) in &CALLS {
        let args = args_of(alloc, args)?;
        let answer = answer_of(alloc, &book, word, args);
        let shown = shown_answer(alloc, answer)?;
        assert!(rt; shown.as_str() == wanted, "{word} gives {wanted}");
    }
    Ok(())
}

fn book_of_one_sheet(alloc: Global) -> Result<MemoryBook, Memory> {
    let mut book = MemoryBook::new(alloc);
    book.add_sheet(Text::from_text(alloc, "A")?)?;
    Ok(book)
}

fn answer_of(
    alloc: Global,
    book: &MemoryBook,
    word: &str,
    args: Vec<Found>,
) -> Result<CalcResult, Stop> {
    let mut steps = Steps::new(Plain);
    let reads = &mut steps;
    match word {
        "address" => address_call(alloc, book, CELL, args, reads),
        "indirect" => indirect_call(alloc, book, CELL, args, reads),
        "arraytotext" => array_to_text_call(alloc, book, CELL, args, reads),
        _ => text_split_call(alloc, book, CELL, args, reads),
    }
}

fn args_of(alloc: Global, given: &[Arg]) -> Result<Vec<Found>, Memory> {
    let mut args = Vec::new(alloc);
    for arg in given {
        let made = result_of_arg(alloc, *arg)?;
        args.push(Found::Same(made))?;
    }
    Ok(args)
}

fn result_of_arg(alloc: Global, arg: Arg) -> Result<CalcResult, Memory> {
    match arg {
        Arg::Number(number) => Ok(CalcResult::Number(number)),
        Arg::Words(text) => Ok(CalcResult::String(Text::from_text(alloc, text)?)),
        Arg::Truth(value) => Ok(CalcResult::Boolean(value)),
        Arg::Wrong(error) => Ok(CalcResult::Error {
            error,
            origin: CELL,
        }),
        Arg::Blank => Ok(CalcResult::EmptyCell),
        Arg::Missing => Ok(CalcResult::EmptyArg),
        Arg::Row(items) => array_of(alloc, items),
    }
}

fn array_of(alloc: Global, items: &[Item]) -> Result<CalcResult, Memory> {
    let mut row = Vec::new(alloc);
    for item in items {
        let element = element_of(alloc, *item)?;
        row.push(element)?;
    }
    let mut rows = Rows::new(alloc);
    add_row(&mut rows, row)?;
    match Grid::from_rows(alloc, rows)? {
        Some(grid) => Ok(CalcResult::Array(grid)),
        None => Ok(CalcResult::EmptyArg),
    }
}

fn add_row(rows: &mut Rows, row: Vec<ArrayNode>) -> Result<(), Memory> {
    match rows.push(row) {
        Ok(()) => Ok(()),
        Err(_back) => Err(Memory),
    }
}

fn element_of(alloc: Global, item: Item) -> Result<ArrayNode, Memory> {
    match item {
        Item::Number(number) => Ok(ArrayNode::Number(number)),
        Item::Words(text) => Ok(ArrayNode::String(Text::from_text(alloc, text)?)),
        Item::Truth(value) => Ok(ArrayNode::Boolean(value)),
        Item::Wrong(error) => Ok(ArrayNode::Error(error)),
        Item::Blank => Ok(ArrayNode::Empty),
    }
}

fn shown_answer(alloc: Global, answer: Result<CalcResult, Stop>) -> Result<String, Memory> {
    match answer {
        Ok(CalcResult::String(text)) => Ok(String::from_str(alloc, text.as_str())?),
        Ok(CalcResult::Range { left, right }) => {
            let (top, first) = (left.row, left.column);
            let (bottom, last) = (right.row, right.column);
            Ok(format!(in alloc; "{top},{first}:{bottom},{last}")?)
        }
        Ok(CalcResult::Array(grid)) => shown_grid(alloc, &grid),
        Ok(other) => {
            drop(other);
            Ok(String::from_str(alloc, "other")?)
        }
        Err(Stop::Wrong(error)) => Ok(String::from_str(alloc, error.name())?),
        Err(Stop::Memory) => Err(Memory),
    }
}

fn shown_grid(alloc: Global, grid: &Grid) -> Result<String, Memory> {
    let mut shown = String::new(alloc);
    for row in 0..grid.rows() {
        if row > 0 {
            shown.push('/')?;
        }
        push_row(&mut shown, grid, row)?;
    }
    Ok(shown)
}

fn push_row(shown: &mut String, grid: &Grid, row: usize) -> Result<(), Memory> {
    for column in 0..grid.columns() {
        if column > 0 {
            shown.push('|')?;
        }
        match grid.get(row, column) {
            Some(ArrayNode::String(piece)) => shown.push_str(piece.as_str())?,
            Some(ArrayNode::Error(error)) => shown.push_str(error.name())?,
            _ => shown.push('?')?,
        }
    }
    Ok(())
}
