use super::*;
use rectangle_core::Grid;
use std::alloc::Global;
use std::test::Fail;
use value_core::{ArrayNode, Error, Memory, Text};

/// A text, the delimiters of columns and of rows, whether empty pieces are ignored and case is, and the rows: elements stand
/// between bars and rows between slashes; a pad is `#`.
static SPLITS: [(&str, &[&str], &[&str], bool, bool, &str); 25] = [
    ("a,b;c", &[","], &[";"], false, false, "a|b/c|#"),
    ("aXéxc", &["x"], &[], false, true, "a|é|c"),
    ("aXéxc", &["x"], &[], false, false, "aXé|c"),
    ("aÉb", &["é"], &[], false, true, "aÉb"),
    ("aÉb", &["é", "É"], &[], false, true, "a|b"),
    ("abc", &[], &["b"], false, false, "a/c"),
    ("", &[","], &[], false, false, ""),
    ("", &[","], &[], true, false, "none"),
    (",", &[","], &[], false, false, "|"),
    (",;", &[","], &[";"], true, false, "none"),
    (",;a,,b", &[","], &[";"], true, false, "#|#/a|b"),
    ("a--b-c", &["-", "--"], &[], false, false, "a||b|c"),
    ("a--b-c", &["--", "-"], &[], false, false, "a|b|c"),
    ("aaa", &["aa"], &[], false, false, "|a"),
    ("a€b€€", &["€"], &[], false, false, "a|b||"),
    ("Ab aB", &["ab"], &[], false, true, "| |"),
    ("表一表二", &["表"], &[], true, false, "一|二"),
    ("a,b;c", &[], &[], false, false, "a,b;c"),
    ("", &[], &[], false, true, ""),
    ("", &[], &[], true, false, "none"),
    ("aXbxc", &["X"], &[], false, true, "a|b|c"),
    ("aXbxc", &["X"], &[], false, false, "a|bxc"),
    ("1ORd2orD3", &[], &["Ord"], false, true, "1/2/3"),
    ("aéèbÉc", &["é"], &[], false, true, "a|èbÉc"),
    ("a€b¢c", &["€"], &["¢", "x"], true, false, "a|b/c|#"),
];

#[test]
fn texts_are_cut_at_their_delimiters(rt: HostRuntime) -> Result<(), Fail> {
    let alloc = rt.alloc();
    for &(text, columns, rows, ignore_empty, blind, wanted) in &SPLITS {
        let columns = texts(alloc, columns)?;
        let rows = texts(alloc, rows)?;
        let shown = shown_split(
            alloc,
            text,
            columns.as_slice(),
            rows.as_slice(),
            ignore_empty,
            blind,
        )?;
        assert_eq!(rt; shown.as_str(), wanted);
    }
    Ok(())
}

fn texts(alloc: Global, given: &[&str]) -> Result<Vec<Text>, Memory> {
    let mut texts = Vec::new(alloc);
    for text in given {
        let text = Text::from_text(alloc, text)?;
        texts.push(text)?;
    }
    Ok(texts)
}

fn shown_split(
    alloc: Global,
    text: &str,
    columns: &[Text],
    rows: &[Text],
    ignore_empty: bool,
    blind: bool,
) -> Result<String, Memory> {
    if !none_empty(columns) || !none_empty(rows) {
        return Ok(String::from_str(alloc, "empty delimiter")?);
    }
    let pad = ArrayNode::Error(Error::NA);
    match split_text(alloc, text, columns, rows, ignore_empty, blind, &pad)? {
        Some(grid) => shown(alloc, &grid),
        None => Ok(String::from_str(alloc, "none")?),
    }
}

fn shown(alloc: Global, grid: &Grid) -> Result<String, Memory> {
    let mut shown = String::new(alloc);
    for row in 0..grid.rows() {
        if row > 0 {
            shown.push('/')?;
        }
        push_row(&mut shown, grid, row)?;
    }
    Ok(shown)
}

fn push_row(shown: &mut String, grid: &Grid, row: usize) -> Result<(), Memory> {
    for column in 0..grid.columns() {
        if column > 0 {
            shown.push('|')?;
        }
        match grid.get(row, column) {
            Some(ArrayNode::String(piece)) => shown.push_str(piece.as_str())?,
            _ => shown.push('#')?,
        }
    }
    Ok(())
}
