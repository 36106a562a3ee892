use super::*;
use std::alloc::Global;
use std::test::Fail;
use value_core::{ArrayNode, Error, Memory, Text};

/// Two elements, and whether they have one key. A quote begins a text, `t` and `f` are truth values, `!` and `?` errors,
/// a digit is a number, and nothing a blank.
static PAIRS: [(&str, &str, bool); 14] = [
    ("'South", "'SOUTH", true),
    ("'Straße", "'STRASSE", true),
    ("'South", "'North", false),
    ("'", "'", true),
    ("1", "1", true),
    ("1", "2", false),
    ("1", "'1", false),
    ("1", "t", false),
    ("t", "f", false),
    ("t", "'TRUE", false),
    ("", "", true),
    ("", "0", false),
    ("", "'", false),
    ("!", "?", false),
];

#[test]
fn elements_have_one_key_where_they_are_equal_but_for_case(rt: HostRuntime) -> Result<(), Fail> {
    for &(left, right, one) in &PAIRS {
        let left_key = key_of(rt.alloc(), left)?;
        let right_key = key_of(rt.alloc(), right)?;
        assert!(rt; (left_key == right_key) == one, "{left} and {right}");
    }
    Ok(())
}

fn key_of(alloc: Global, written: &str) -> Result<CellKey, Memory> {
    let element = element_of(alloc, written)?;
    cell_key(alloc, &element)
}

fn element_of(alloc: Global, written: &str) -> Result<ArrayNode, Memory> {
    if let Some(text) = written.strip_prefix('\'') {
        return Ok(ArrayNode::String(Text::from_text(alloc, text)?));
    }
    Ok(match written.chars().next() {
        Some('t') => ArrayNode::Boolean(true),
        Some('f') => ArrayNode::Boolean(false),
        Some('!') => ArrayNode::Error(Error::DIV),
        Some('?') => ArrayNode::Error(Error::NA),
        Some('2') => ArrayNode::Number(2000000),
        Some('1') => ArrayNode::Number(1000000),
        Some(_) => ArrayNode::Number(0),
        None => ArrayNode::Empty,
    })
}

/// Rows of texts of one letter, and by `1` which of them are kept: the first of each key, and those whose key comes once.
static ROWS: [(&str, &str, &str); 5] = [
    ("", "", ""),
    ("1 2 1", "110", "010"),
    ("North south East SOUTH", "1110", "1010"),
    ("ab Ab ba abc", "1011", "0011"),
    (
        "x X x X x X x X x X x X x X x X x X x X x X x X x X x X x X x X x X x X x X x X",
        "1000000000000000000000000000000000000000",
        "0000000000000000000000000000000000000000",
    ),
];

#[test]
fn positions_are_kept_by_their_keys(rt: HostRuntime) -> Result<(), Fail> {
    for &(rows, first, once) in &ROWS {
        let keys = keys_of(rt.alloc(), rows)?;
        let kept = kept_positions(rt.alloc(), keys.as_slice(), false)?;
        assert!(rt; is_marked(kept.as_slice(), first), "first of {rows}");
        let kept = kept_positions(rt.alloc(), keys.as_slice(), true)?;
        assert!(rt; is_marked(kept.as_slice(), once), "once of {rows}");
    }
    keys_tell_elements_apart();
    Ok(())
}

/// The keys of rows of letters.
fn keys_of(alloc: Global, rows: &str) -> Result<Vec<RowKey>, Memory> {
    let mut keys = Vec::new(alloc);
    for row in rows.split_whitespace() {
        keys.push(row_of(alloc, row)?)?;
    }
    Ok(keys)
}

fn row_of(alloc: Global, letters: &str) -> Result<RowKey, Memory> {
    let mut elements = Vec::new(alloc);
    for letter in letters.chars() {
        let mut text = String::new(alloc);
        text.push(letter)?;
        elements.push(ArrayNode::String(Text::from_text(alloc, text.as_str())?))?;
    }
    row_key(alloc, elements.as_slice())
}

/// Whether the positions are those of the `1`s.
fn is_marked(kept: &[usize], marks: &str) -> bool {
    let mut rest = kept.iter();
    for (index, mark) in marks.bytes().enumerate() {
        if mark == b'1' && rest.next() != Some(&index) {
            return false;
        }
    }
    rest.next().is_none()
}

#[test]
fn the_key_of_a_row_has_the_keys_of_its_elements(rt: HostRuntime) -> Result<(), Fail> {
    let alloc = rt.alloc();
    let mut key = RowKey::new(alloc);
    assert_eq!(rt; key.len(), 0);
    key.push(key_of(alloc, "'A")?)?;
    key.push(key_of(alloc, "'b")?)?;
    assert_eq!(rt; key.len(), 2);
    assert!(rt; key == row_of(alloc, "aB")?);
    assert!(rt; key != row_of(alloc, "ba")?);
    Ok(())
}
