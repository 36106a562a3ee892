use super::*;
use std::test::Fail;
use value_core::Text;

/// Names of sheets as they are, and as they stand before a `!`.
static NAMES: [(&str, &str); 22] = [
    ("Sheet1", "Sheet1"),
    ("Sheet 1", "'Sheet 1'"),
    ("Sheet1'", "'Sheet1'''"),
    ("Été", "Été"),
    ("Été!", "'Été!'"),
    ("表一", "表一"),
    ("a\u{301}", "'a\u{301}'"),
    ("A1", "'A1'"),
    ("a1", "'a1'"),
    ("A01", "A01"),
    ("B1048576", "'B1048576'"),
    ("B1048577", "B1048577"),
    ("XFD1", "'XFD1'"),
    ("XFE1", "XFE1"),
    ("AAAA1", "AAAA1"),
    ("rC", "'rC'"),
    ("R12c7", "'R12c7'"),
    ("R12c7x", "R12c7x"),
    ("R2", "'R2'"),
    ("1st", "'1st'"),
    (".a", "'.a'"),
    ("", ""),
];

#[test]
fn names_are_quoted_where_they_must_be(rt: HostRuntime) -> Result<(), Fail> {
    for &(name, text) in &NAMES {
        let quoted = quote_name(rt.alloc(), name)?;
        assert_eq!(rt; quoted.as_str(), text);
    }
    Ok(())
}

/// Numbers of columns and their letters.
static COLUMNS: [(i32, Option<&str>); 11] = [
    (1, Some("A")),
    (26, Some("Z")),
    (27, Some("AA")),
    (702, Some("ZZ")),
    (703, Some("AAA")),
    (704, Some("AAB")),
    (16384, Some("XFD")),
    (16385, None),
    (0, None),
    (-1, None),
    (i32::MIN, None),
];

#[test]
fn columns_have_letters(rt: HostRuntime) -> Result<(), Fail> {
    for &(column, letters) in &COLUMNS {
        let found = number_to_column(rt.alloc(), column)?;
        assert_eq!(rt; as_text(&found), letters);
    }
    Ok(())
}

fn as_text(text: &Option<Text>) -> Option<&str> {
    match text {
        Some(text) => Some(text.as_str()),
        None => None,
    }
}

/// Letters and digits, and the column and the row that they name.
static LINES: [(&str, Option<u32>, Option<u32>); 14] = [
    ("A", Some(1), None),
    ("xfd", Some(16384), None),
    ("XFE", None, None),
    ("AAAA", None, None),
    ("", None, None),
    ("A1", None, None),
    ("@", None, None),
    ("é", None, None),
    ("1", None, Some(1)),
    ("1048576", None, Some(1048576)),
    ("1048577", None, None),
    ("01", None, None),
    ("0", None, None),
    ("10485760", None, None),
];

#[test]
fn letters_and_digits_name_lines_of_the_sheet(rt: HostRuntime) {
    for &(text, column, row) in &LINES {
        assert_eq!(rt; column_of(text.as_bytes()), column);
        assert_eq!(rt; row_of(text.as_bytes()), row);
    }
}

/// The row, column, style and form of a cell, the name of its sheet, and its text.
static ADDRESSES: [(i32, i32, i32, bool, Option<&str>, Option<&str>); 18] = [
    (1, 1, 1, true, None, Some("$A$1")),
    (1, 1, 2, true, None, Some("A$1")),
    (1, 1, 3, true, None, Some("$A1")),
    (1, 1, 4, true, None, Some("A1")),
    (3, 5, 1, false, None, Some("R3C5")),
    (3, 5, 2, false, None, Some("R3C[5]")),
    (3, 5, 3, false, None, Some("R[3]C5")),
    (3, 5, 4, false, None, Some("R[3]C[5]")),
    (1, 1, 1, true, Some(""), Some("!$A$1")),
    (1, 1, 1, true, Some("a'b"), Some("'a''b'!$A$1")),
    (2, 3, 4, false, Some("Été"), Some("Été!R[2]C[3]")),
    (2000000, 16384, 1, true, None, Some("$XFD$2000000")),
    (1, 16385, 1, true, None, None),
    (i32::MAX, 16385, 1, false, None, Some("R2147483647C16385")),
    (0, 1, 1, true, None, None),
    (1, -1, 1, false, None, None),
    (1, 1, 0, true, None, None),
    (1, 1, 5, true, None, None),
];

#[test]
fn cells_have_addresses(rt: HostRuntime) -> Result<(), Fail> {
    for &(row, column, style, a1, sheet, text) in &ADDRESSES {
        let found = address_text(rt.alloc(), row, column, style, a1, sheet)?;
        assert_eq!(rt; as_text(&found), text);
    }
    Ok(())
}
