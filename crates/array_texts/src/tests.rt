use super::*;
use rectangle_core::Grid;
use std::alloc::Global;
use std::test::Fail;
use value_core::{ArrayNode, Error, Memory, Rows, Text};

fn text(alloc: Global, text: &str) -> Result<ArrayNode, Memory> {
    Ok(ArrayNode::String(Text::from_text(alloc, text)?))
}

/// An array of two rows: a text, TRUE and a number; a text with quotes, an error and a blank.
fn rows(alloc: Global) -> Result<Rows, Memory> {
    let mut first = Vec::new(alloc);
    first.push(text(alloc, "a")?)?;
    first.push(ArrayNode::Boolean(true))?;
    first.push(ArrayNode::Number(-1500000))?;
    let mut second = Vec::new(alloc);
    second.push(text(alloc, "é\"表")?)?;
    second.push(ArrayNode::Error(Error::NA))?;
    second.push(ArrayNode::Empty)?;
    let mut rows = Rows::new(alloc);
    add_row(&mut rows, first)?;
    add_row(&mut rows, second)?;
    Ok(rows)
}

fn add_row(rows: &mut Rows, row: Vec<ArrayNode>) -> Result<(), Memory> {
    match rows.push(row) {
        Ok(()) => Ok(()),
        Err(_back) => Err(Memory),
    }
}

fn shown(alloc: Global, strict: bool) -> Result<Option<Text>, Memory> {
    let rows = rows(alloc)?;
    match Grid::from_rows(alloc, rows)? {
        Some(grid) => Ok(Some(array_text(alloc, &grid, strict)?)),
        None => Ok(None),
    }
}

#[test]
fn an_array_is_written_in_both_forms(rt: HostRuntime) -> Result<(), Fail> {
    let loose = shown(rt.alloc(), false)?;
    assert!(rt; matches!(&loose, Some(text) if text.as_str() == "a, TRUE, -1.5, é\"表, #N/A, "));
    let strict = shown(rt.alloc(), true)?;
    assert!(rt;
        matches!(&strict, Some(text) if text.as_str() == "{\"a\",TRUE,-1.5;\"é\"\"表\",#N/A,}")
    );
    Ok(())
}

#[test]
fn an_element_is_written_in_both_forms(rt: HostRuntime) -> Result<(), Fail> {
    let quote = text(rt.alloc(), "\"")?;
    let loose = element_text(rt.alloc(), &quote, false)?;
    assert_eq!(rt; loose.as_str(), "\"");
    let strict = element_text(rt.alloc(), &quote, true)?;
    assert_eq!(rt; strict.as_str(), "\"\"\"\"");
    let word = element_text(rt.alloc(), &ArrayNode::Boolean(false), true)?;
    assert_eq!(rt; word.as_str(), "FALSE");
    Ok(())
}
