use super::*;
use std::alloc::Global;
use std::test::Fail;
use value_core::{
    ArrayNode, CellReferenceIndex, Error, Memory, OpCompare, OpProduct, OpSum, OpUnary, Rows, Text,
};

/// Operators between values, and what they make. A letter is an element, `m` a missing value, and rows of letters in
/// brackets a rectangle.
static OPERATIONS: [(char, &str, &str, &str); 25] = [
    ('+', "[12]", "[3/5]", "[45/67]"),
    ('+', "[12]", "[123]", "[24?]"),
    ('+', "x", "?", "?"),
    ('+', "!", "?", "!"),
    ('+', "[x]", "[?]", "[v]"),
    ('+', "m", "3", "3"),
    ('-', "5", "2", "3"),
    ('*', "[2/3]", "3", "[6/9]"),
    ('/', "1", "0", "!"),
    ('^', "0", "0", "#"),
    ('&', "1", "x", "j"),
    ('&', "?", "[x]", "?"),
    ('=', "x", "X", "t"),
    ('=', "b", "f", "t"),
    ('=', "?", "1", "?"),
    ('=', "[1?]", "1", "[t?]"),
    ('<', "m", "1", "t"),
    ('<', "9", "x", "t"),
    ('<', "x", "f", "t"),
    ('<', "1", "1", "f"),
    ('>', "2", "1", "t"),
    ('l', "1", "1", "t"),
    ('g', "1", "2", "f"),
    ('n', "1", "t", "t"),
    ('n', "1", "1", "f"),
];

#[test]
fn operators_make_what_stands_in_the_rows(rt: HostRuntime) -> Result<(), Fail> {
    for &(operator, left, right, wanted) in &OPERATIONS {
        assert!(rt;
            makes(rt.alloc(), operator, left, right, wanted)?,
            "{left}{operator}{right}"
        );
    }
    Ok(())
}

fn makes(
    alloc: Global,
    operator: char,
    left: &str,
    right: &str,
    wanted: &str,
) -> Result<bool, Memory> {
    let left = value_of(alloc, left)?;
    let right = value_of(alloc, right)?;
    let value = broadcast(alloc, operator_of(operator), left, right)?;
    Ok(value == value_of(alloc, wanted)?)
}

fn operator_of(letter: char) -> Operator {
    match letter {
        '+' => Operator::Sum(OpSum::Add),
        '-' => Operator::Sum(OpSum::Minus),
        '*' => Operator::Product(OpProduct::Times),
        '/' => Operator::Product(OpProduct::Divide),
        '^' => Operator::Power,
        '&' => Operator::Concatenate,
        '<' => Operator::Compare(OpCompare::LessThan),
        '>' => Operator::Compare(OpCompare::GreaterThan),
        '=' => Operator::Compare(OpCompare::Equal),
        'l' => Operator::Compare(OpCompare::LessOrEqualThan),
        'g' => Operator::Compare(OpCompare::GreaterOrEqualThan),
        _ => Operator::Compare(OpCompare::NonEqual),
    }
}

static UNARY: [(OpUnary, &str, &str); 4] = [
    (OpUnary::Minus, "[1x/?b]", "[dv/?0]"),
    (OpUnary::Minus, "t", "d"),
    (OpUnary::Percentage, "m", "0"),
    (OpUnary::Percentage, "!", "!"),
];

#[test]
fn an_operator_goes_over_each_element(rt: HostRuntime) -> Result<(), Fail> {
    for &(operator, operand, wanted) in &UNARY {
        assert!(rt;
            makes_of_one(rt.alloc(), operator, operand, wanted)?,
            "{operator:?} {operand}"
        );
    }
    Ok(())
}

fn makes_of_one(
    alloc: Global,
    operator: OpUnary,
    operand: &str,
    wanted: &str,
) -> Result<bool, Memory> {
    let operand = value_of(alloc, operand)?;
    let value = broadcast_unary(alloc, operator, operand)?;
    Ok(value == value_of(alloc, wanted)?)
}

/// Pairs of elements, and their order.
static ORDER: [(char, char, i32); 13] = [
    ('1', '2', -1),
    ('d', '0', -1),
    ('x', 'X', 0),
    ('x', 'j', 1),
    ('9', 'x', -1),
    ('x', 'f', -1),
    ('f', 't', -1),
    ('t', '!', -1),
    ('?', '!', 1),
    ('b', '1', -1),
    ('b', 'b', 0),
    ('b', '!', -1),
    ('f', 'b', 0),
];

#[test]
fn elements_are_in_order(rt: HostRuntime) -> Result<(), Fail> {
    for &(left, right, wanted) in &ORDER {
        let left = element_of(rt.alloc(), left)?;
        let right = element_of(rt.alloc(), right)?;
        assert_eq!(rt; compare_values(rt.alloc(), &left, &right)?, wanted);
        assert_eq!(rt; compare_values(rt.alloc(), &right, &left)?, -wanted);
    }
    Ok(())
}

#[test]
fn results_are_one_by_value(rt: HostRuntime) -> Result<(), Fail> {
    let alloc = rt.alloc();
    let range = |row| CalcResult::Range {
        left: cell(1, 1),
        right: cell(row, 2),
    };
    let wrong = |column| CalcResult::Error {
        error: Error::NA,
        origin: cell(1, column),
    };
    assert!(rt; range(2) == range(2));
    assert!(rt; range(2) != range(3));
    assert!(rt; wrong(1) == wrong(1));
    assert!(rt; wrong(1) != wrong(2));
    let blank = Grid::of_one(alloc, ArrayNode::Empty)?;
    assert!(rt; CalcResult::Array(blank) != CalcResult::EmptyCell);
    assert!(rt; CalcResult::EmptyArg == CalcResult::EmptyArg);
    Ok(())
}

fn cell(row: i32, column: i32) -> CellReferenceIndex {
    CellReferenceIndex {
        sheet: 0,
        row,
        column,
    }
}

fn value_of(alloc: Global, text: &str) -> Result<Value, Memory> {
    match text.strip_prefix('[') {
        Some(rows) => grid_value(alloc, rows),
        None => match text.chars().next() {
            Some('m') | None => Ok(Value::Missing),
            Some(letter) => Ok(Value::One(element_of(alloc, letter)?)),
        },
    }
}

fn grid_value(alloc: Global, text: &str) -> Result<Value, Memory> {
    let mut rows = Rows::new(alloc);
    for line in text.split('/') {
        let row = row_of(alloc, line)?;
        if let Err(_) = rows.push(row) {
            return Err(Memory);
        }
    }
    match Grid::from_rows(alloc, rows)? {
        Some(grid) => Ok(Value::Grid(grid)),
        None => Ok(Value::Missing),
    }
}

fn row_of(alloc: Global, line: &str) -> Result<Vec<ArrayNode>, Memory> {
    let mut row = Vec::new(alloc);
    for letter in line.chars() {
        if letter != ']' {
            row.push(element_of(alloc, letter)?)?;
        }
    }
    Ok(row)
}

fn element_of(alloc: Global, letter: char) -> Result<ArrayNode, Memory> {
    let element = match letter {
        't' => ArrayNode::Boolean(true),
        'f' => ArrayNode::Boolean(false),
        'b' => ArrayNode::Empty,
        'x' => ArrayNode::String(Text::from_text(alloc, "x")?),
        'X' => ArrayNode::String(Text::from_text(alloc, "X")?),
        'j' => ArrayNode::String(Text::from_text(alloc, "1x")?),
        '!' => ArrayNode::Error(Error::DIV),
        '?' => ArrayNode::Error(Error::NA),
        '#' => ArrayNode::Error(Error::NUM),
        'v' => ArrayNode::Error(Error::VALUE),
        'd' => ArrayNode::Number(-1000000),
        _ => ArrayNode::Number(i64::from(letter.to_digit(10).unwrap_or(0)) * 1000000),
    };
    Ok(element)
}
