use super::*;
use book_core::MemoryBook;
use std::alloc::Global;
use std::test::Fail;
use value_core::{CellReferenceIndex, Memory, Range, Text, Texts};

/// The names of the sheets of the book in which all texts are read.
static SHEETS: [&str; 6] = ["Sheet1", "SHEET1", "Été", "a'B", "x!y", "Sheet 1"];

fn sheets(alloc: Global) -> Result<Texts, Memory> {
    let mut sheets = Texts::new(alloc);
    for name in &SHEETS {
        let name = Text::from_text(alloc, name)?;
        add(&mut sheets, name)?;
    }
    Ok(sheets)
}

fn add(texts: &mut Texts, text: Text) -> Result<(), Memory> {
    match texts.push(text) {
        Ok(()) => Ok(()),
        Err(_back) => Err(Memory),
    }
}

fn book(alloc: Global) -> Result<MemoryBook, Memory> {
    let sheets = sheets(alloc)?;
    if sheets.len() < 4294967296 {
        Ok(MemoryBook::with_sheets(alloc, sheets))
    } else {
        Err(Memory)
    }
}

/// What a text means: the number of a sheet, and the rows and columns of two ends.
type Meant = Option<(u32, (i32, i32), (i32, i32))>;

fn meant(range: Option<Range>) -> Meant {
    match range {
        Some(range) => Some((
            range.left.sheet,
            (range.left.row, range.left.column),
            (range.right.row, range.right.column),
        )),
        None => None,
    }
}

/// Texts by letters and digits, read on the sheet 1.
static A1_TEXTS: [(&str, Meant); 44] = [
    ("A1", Some((1, (1, 1), (1, 1)))),
    (
        "$xfd$1048576",
        Some((1, (1048576, 16384), (1048576, 16384))),
    ),
    ("B3:a$2", Some((1, (2, 1), (3, 2)))),
    ("C:A", Some((1, (1, 1), (1048576, 3)))),
    ("$2:1", Some((1, (1, 1), (2, 16384)))),
    ("B2:B2", Some((1, (2, 2), (2, 2)))),
    ("sheet1!B2", Some((0, (2, 2), (2, 2)))),
    ("SHEET1!B2", Some((0, (2, 2), (2, 2)))),
    ("'sHEET1'!B2", Some((0, (2, 2), (2, 2)))),
    ("Été!A1", Some((2, (1, 1), (1, 1)))),
    ("été!A1", None),
    ("'Été'!A:A", Some((2, (1, 1), (1048576, 1)))),
    ("'A''b'!A1", Some((3, (1, 1), (1, 1)))),
    ("a'b!A1", Some((3, (1, 1), (1, 1)))),
    ("'a'b'!A1", None),
    ("'x!y'!A1", Some((4, (1, 1), (1, 1)))),
    ("x!y!A1", None),
    ("Sheet 1!A1", Some((5, (1, 1), (1, 1)))),
    ("'Sheet 1'!A1", Some((5, (1, 1), (1, 1)))),
    ("Sheet2!A1", None),
    ("!A1", None),
    ("''!A1", None),
    ("'Sheet1!A1", None),
    ("Sheet1'!A1", None),
    ("Sheet1!", None),
    ("", None),
    ("A", None),
    ("1", None),
    ("A0", None),
    ("A01", None),
    ("XFE1", None),
    ("AAAA1", None),
    ("A1048577", None),
    ("A10000000", None),
    ("$$A1", None),
    ("A$$1", None),
    ("A1$", None),
    ("A1:B", None),
    ("A:1", None),
    ("A1:", None),
    (":A1", None),
    ("A1:B2:C3", None),
    (" A1", None),
    ("Å1", None),
];

#[test]
fn texts_by_letters_and_digits_are_read(rt: HostRuntime) -> Result<(), Fail> {
    let book = book(rt.alloc())?;
    for &(text, wanted) in &A1_TEXTS {
        assert!(rt; meant(read_a1(&book, 1, text)) == wanted);
    }
    assert!(rt; read_a1(&book, 6, "A1").is_none());
    assert!(rt; meant(read_a1(&book, 6, "Été!A1")) == Some((2, (1, 1), (1, 1))));
    Ok(())
}

/// Texts by the numbers of rows and columns, read in the cell in row 3 and column 4 of the sheet 1.
static R1C1_TEXTS: [(&str, Meant); 30] = [
    ("R1C2", Some((1, (1, 2), (1, 2)))),
    ("r1c2", Some((1, (1, 2), (1, 2)))),
    ("RC", Some((1, (3, 4), (3, 4)))),
    ("R[1]C[-3]", Some((1, (4, 1), (4, 1)))),
    ("R[-2]C", Some((1, (1, 4), (1, 4)))),
    ("RC7", Some((1, (3, 7), (3, 7)))),
    ("R01C0000002", Some((1, (1, 2), (1, 2)))),
    ("R[0]C[-0]", Some((1, (3, 4), (3, 4)))),
    (
        "R1048576C16384",
        Some((1, (1048576, 16384), (1048576, 16384))),
    ),
    ("R9C9:R[-1]C1", Some((1, (2, 1), (9, 9)))),
    ("Été!RC", Some((2, (3, 4), (3, 4)))),
    ("'a''B'!R1C1:RC", Some((3, (1, 1), (3, 4)))),
    ("R[-3]C1", None),
    ("R1C[-4]", None),
    ("R0C1", None),
    ("R1048577C1", None),
    ("R1C16385", None),
    ("R[1048574]C1", None),
    ("R1", None),
    ("C1", None),
    ("R1C1:R2", None),
    ("R-1C1", None),
    ("R[+1]C1", None),
    ("R[--1]C1", None),
    ("R[]C1", None),
    ("R[1C1", None),
    ("R[1]]C1", None),
    ("R12345678C1", None),
    ("R1C1C1", None),
    ("A1", None),
];

#[test]
fn texts_by_numbers_are_read(rt: HostRuntime) -> Result<(), Fail> {
    let book = book(rt.alloc())?;
    let cell = CellReferenceIndex {
        sheet: 1,
        row: 3,
        column: 4,
    };
    for &(text, wanted) in &R1C1_TEXTS {
        assert!(rt; meant(read_r1c1(&book, cell, text)) == wanted);
    }
    Ok(())
}
