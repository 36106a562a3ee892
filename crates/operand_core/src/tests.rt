use super::*;
use rectangle_core::{Grid, Value};
use std::alloc::Global;
use std::test::Fail;
use value_core::{ArrayNode, Error, Memory, Rows, Text};

/// Texts, and their casts to a number and to a truth value.
static TEXTS: [(&str, Result<i64, Error>, Result<bool, Error>); 4] = [
    ("1.5", Ok(1500000), Err(Error::VALUE)),
    ("tRuE", Err(Error::VALUE), Ok(true)),
    ("FALSE", Err(Error::VALUE), Ok(false)),
    ("", Err(Error::VALUE), Err(Error::VALUE)),
];

#[test]
fn texts_are_cast_by_what_they_say(rt: HostRuntime) -> Result<(), Fail> {
    for &(text, number, truth) in &TEXTS {
        let element = text_element(rt.alloc(), text)?;
        assert_eq!(rt; cast_to_number(&element), number);
        assert_eq!(rt; cast_to_bool(&element), truth);
        assert!(rt; is_written(rt.alloc(), &element, Ok(text))?);
    }
    Ok(())
}

fn text_element(alloc: Global, text: &str) -> Result<ArrayNode, Memory> {
    Ok(ArrayNode::String(Text::from_text(alloc, text)?))
}

fn is_written(
    alloc: Global,
    element: &ArrayNode,
    wanted: Result<&str, Error>,
) -> Result<bool, Memory> {
    match (cast_to_string(alloc, element)?, wanted) {
        (Ok(text), Ok(wanted)) => Ok(text.as_str() == wanted),
        (Err(error), Err(wanted)) => Ok(error == wanted),
        _ => Ok(false),
    }
}

/// Elements that are no texts, by a letter and a number, and their three casts.
static ELEMENTS: [(
    char,
    i64,
    Result<i64, Error>,
    Result<bool, Error>,
    Result<&str, Error>,
); 6] = [
    ('n', -2500000, Ok(-2500000), Ok(true), Ok("-2.5")),
    ('n', 0, Ok(0), Ok(false), Ok("0")),
    ('t', 1, Ok(1000000), Ok(true), Ok("TRUE")),
    ('t', 0, Ok(0), Ok(false), Ok("FALSE")),
    ('e', 0, Err(Error::DIV), Err(Error::DIV), Err(Error::DIV)),
    (' ', 0, Ok(0), Ok(false), Ok("")),
];

#[test]
fn other_elements_are_cast_by_their_kinds(rt: HostRuntime) -> Result<(), Fail> {
    for &(kind, number, as_number, as_truth, as_text) in &ELEMENTS {
        let element = element(kind, number);
        assert_eq!(rt; cast_to_number(&element), as_number);
        assert_eq!(rt; cast_to_bool(&element), as_truth);
        assert!(rt; is_written(rt.alloc(), &element, as_text)?);
    }
    Ok(())
}

fn element(kind: char, number: i64) -> ArrayNode {
    match kind {
        'n' => ArrayNode::Number(number),
        't' => ArrayNode::Boolean(number != 0),
        'e' => ArrayNode::Error(Error::DIV),
        _ => ArrayNode::Empty,
    }
}

#[test]
fn values_are_cast_by_their_element(rt: HostRuntime) -> Result<(), Fail> {
    let alloc = rt.alloc();
    let one = Value::One(ArrayNode::Number(3000000));
    assert_eq!(rt; cast_value_to_number(&one), Ok(3000000));
    assert_eq!(rt; cast_value_to_bool(&Value::Missing), Ok(false));
    assert!(rt; matches!(cast_value_to_string(alloc, &one)?, Ok(text) if text.as_str() == "3"));
    let grid = Value::Grid(Grid::of_one(alloc, ArrayNode::Number(0))?);
    assert_eq!(rt; cast_value_to_number(&grid), Err(Error::NIMPL));
    Ok(())
}

/// Makes a blank of every element.
#[derive(Drop)]
struct Blanks;

impl ElementRule for Blanks {
    ghost use Rattle.value_core.specs.declared.array.ArrayNode.TheVariants.{Empty};

    ghost made_of = { λ _ _. Empty };

    fn apply(&self, _element: &ArrayNode) -> ArrayNode {
        ArrayNode::Empty
    }
}

#[test]
fn a_rule_goes_over_each_element(rt: HostRuntime) -> Result<(), Fail> {
    let alloc = rt.alloc();
    let grid = Value::Grid(row_of(alloc, &[1, 2])?.ok_or("no rectangle")?);
    let blanks = each_of(alloc, &Blanks, &grid)?;
    assert!(rt; matches!(&blanks, Value::Grid(grid) if grid.columns() == 2));
    assert!(rt; each_of(alloc, &Blanks, &blanks)? == blanks);
    assert!(rt; each_of(alloc, &Blanks, &Value::Missing)? == Value::One(ArrayNode::Empty));
    Ok(())
}

fn row_of(alloc: Global, numbers: &[i64]) -> Result<Option<Grid>, Memory> {
    let mut row = Vec::new(alloc);
    for &number in numbers {
        row.push(ArrayNode::Number(number))?;
    }
    let mut rows = Rows::new(alloc);
    match rows.push(row) {
        Ok(()) => Grid::from_rows(alloc, rows),
        Err(_) => Err(Memory),
    }
}

#[test]
fn single_lines_are_repeated(rt: HostRuntime) -> Result<(), Fail> {
    let nothing = ArrayNode::Empty;
    let value = Value::Grid(row_of(rt.alloc(), &[1, 2])?.ok_or("no rectangle")?);
    let side = Side::new(&value, &nothing);
    assert_eq!(rt; side.rows(), 1);
    assert_eq!(rt; side.columns(), 2);
    assert!(rt; matches!(side.get(3, 1), Some(ArrayNode::Number(2))));
    assert!(rt; side.get(0, 2).is_none());
    let missing = Side::new(&Value::Missing, &nothing);
    assert!(rt; matches!(missing.get(3, 4), Some(ArrayNode::Empty)));
    Ok(())
}
