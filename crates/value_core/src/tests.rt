use super::*;
use std::alloc::Global;
use std::test::Fail;

static NAMES: [(Error, &str); 12] = [
    (Error::REF, "#REF!"),
    (Error::NAME, "#NAME?"),
    (Error::VALUE, "#VALUE!"),
    (Error::DIV, "#DIV/0!"),
    (Error::NA, "#N/A"),
    (Error::NUM, "#NUM!"),
    (Error::ERROR, "#ERROR!"),
    (Error::NIMPL, "#NIMPL!"),
    (Error::SPILL, "#SPILL!"),
    (Error::CALC, "#CALC!"),
    (Error::CIRC, "#CIRC!"),
    (Error::NULL, "#NULL!"),
];

#[test]
fn small_values_are_told_apart(rt: HostRuntime) {
    for (index, &(error, name)) in NAMES.iter().enumerate() {
        assert_eq!(rt; error.name(), name);
        for (other_index, &(other, _)) in NAMES.iter().enumerate() {
            assert_eq!(rt; error == other, index == other_index);
        }
    }
    let cell = |sheet, row, column| CellReferenceIndex { sheet, row, column };
    let range = |left, right| Range { left, right };
    let given = range(cell(0, 1, 2), cell(0, 3, 4));
    assert_eq!(rt; given, range(cell(0, 1, 2), cell(0, 3, 4)));
    assert_ne!(rt; given, range(cell(0, 3, 4), cell(0, 1, 2)));
    assert_ne!(rt; given.left, cell(1, 1, 2));
    assert_ne!(rt; given.left, cell(0, 2, 1));
}

/// The texts `a` and the empty one.
fn texts(alloc: Global) -> Result<Texts, Memory> {
    let mut texts = Texts::new(alloc);
    add_text(&mut texts, Text::from_text(alloc, "a")?)?;
    add_text(&mut texts, Text::from_text(alloc, "")?)?;
    Ok(texts)
}

fn add_text(texts: &mut Texts, text: Text) -> Result<(), Memory> {
    match texts.push(text) {
        Ok(()) => Ok(()),
        Err(_) => Err(Memory),
    }
}

/// A row of one element of each kind, and an empty row.
fn rows(alloc: Global) -> Result<Rows, Memory> {
    let mut elements = Vec::new(alloc);
    elements.push(ArrayNode::Number(-1))?;
    elements.push(ArrayNode::Boolean(true))?;
    elements.push(ArrayNode::String(Text::from_text(alloc, "x")?))?;
    elements.push(ArrayNode::Error(Error::NA))?;
    elements.push(ArrayNode::Empty)?;
    let mut rows = Rows::new(alloc);
    add_row(&mut rows, elements)?;
    add_row(&mut rows, Vec::new(alloc))?;
    Ok(rows)
}

fn add_row(rows: &mut Rows, row: Vec<ArrayNode>) -> Result<(), Memory> {
    match rows.push(row) {
        Ok(()) => Ok(()),
        Err(_) => Err(Memory),
    }
}

#[test]
fn lists_give_what_was_put_in_and_so_do_their_clones(rt: HostRuntime) -> Result<(), Fail> {
    let alloc = rt.alloc();
    let texts = texts(alloc)?.try_clone(alloc)?;
    assert_eq!(rt; texts.len(), 2);
    assert!(rt; matches!(texts.get(0), Some(text) if text.as_str() == "a"));
    assert!(rt; matches!(texts.get(1), Some(text) if text.as_str() == ""));
    assert!(rt; texts.get(2).is_none());
    let rows = rows(alloc)?.try_clone(alloc)?;
    assert_eq!(rt; rows.len(), 2);
    assert!(rt; matches!(rows.get(0), Some(elements) if elements.len() == 5));
    assert!(rt; matches!(rows.get(1), Some(elements) if elements.is_empty()));
    assert!(rt; rows.get(2).is_none());
    Ok(())
}

#[test]
fn the_clone_of_a_text_element_is_that_text(rt: HostRuntime) -> Result<(), Fail> {
    let alloc = rt.alloc();
    let clone = ArrayNode::String(Text::from_text(alloc, "x")?).try_clone(alloc)?;
    assert!(rt; matches!(&clone, ArrayNode::String(text) if text.as_str() == "x"));
    assert!(rt; clone == ArrayNode::String(Text::from_text(alloc, "x")?));
    assert!(rt; clone != ArrayNode::String(Text::from_text(alloc, "X")?));
    Ok(())
}
