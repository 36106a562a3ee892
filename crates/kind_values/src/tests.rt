use super::*;
use rectangle_core::{Grid, Value};
use std::alloc::Global;
use std::test::Fail;
use value_core::{ArrayNode, Error, Memory, Rows, Text};

/// Calls, and their values. A letter is an element, `m` a missing value, and rows of letters in brackets a rectangle.
static CALLS: [(ValueRule, &str, &str); 40] = [
    (ValueRule::Sum, "1 [23] t q", "9"),
    (ValueRule::Sum, "[1tx]", "1"),
    (ValueRule::Sum, "[1tx?]", "?"),
    (ValueRule::Sum, "x 1", "v"),
    (ValueRule::Sum, "! ?", "!"),
    (ValueRule::Sum, "m b 3", "3"),
    (ValueRule::Sum, "", "0"),
    (ValueRule::Sum, "g g", "#"),
    (ValueRule::Sum, "g g l l", "s"),
    (ValueRule::Min, "[32] 4", "2"),
    (ValueRule::Min, "[tx]", "0"),
    (ValueRule::Max, "n [b]", "n"),
    (ValueRule::Count, "1 [2t?] t x ? q", "4"),
    (ValueRule::Counta, "[1b/x?] m b t", "4"),
    (ValueRule::And, "[1t] t", "t"),
    (ValueRule::And, "[0t]", "f"),
    (ValueRule::And, "[x] b", "v"),
    (ValueRule::And, "t x", "v"),
    (ValueRule::Or, "[0f] f", "f"),
    (ValueRule::Or, "0 t", "t"),
    (ValueRule::Or, "", "v"),
    (ValueRule::True, "", "t"),
    (ValueRule::True, "1", "e"),
    (ValueRule::False, "", "f"),
    (ValueRule::Abs, "[n?/xt]", "[p?/v1]"),
    (ValueRule::Abs, "l", "#"),
    (ValueRule::Abs, "1 2", "e"),
    (ValueRule::Sign, "n", "d"),
    (ValueRule::Int, "n", "w"),
    (ValueRule::Int, "m", "0"),
    (ValueRule::If, "[1/0] [1/2] 9", "[1/9]"),
    (ValueRule::If, "t m", "0"),
    (ValueRule::If, "f 1", "f"),
    (ValueRule::If, "m 1 [2]", "[2]"),
    (ValueRule::If, "? 1 2", "?"),
    (ValueRule::If, "[tf] [1/2]", "[1f/2f]"),
    (ValueRule::If, "[t/f/!] [12]", "[12/ff/!!]"),
    (ValueRule::If, "[tt] [123] 1", "[12?]"),
    (ValueRule::If, "1", "e"),
    (ValueRule::NotImplemented, "1", "i"),
];

#[test]
fn calls_have_the_values_of_their_rows(rt: HostRuntime) -> Result<(), Fail> {
    for &(rule, arguments, wanted) in &CALLS {
        assert!(rt;
            has_value(rt.alloc(), rule, arguments, wanted)?,
            "{rule:?} of {arguments}"
        );
    }
    kind_values_fit(ValueRule::If);
    Ok(())
}

fn has_value(
    alloc: Global,
    rule: ValueRule,
    arguments: &str,
    wanted: &str,
) -> Result<bool, Memory> {
    let mut values = Vec::new(alloc);
    for argument in arguments.split_whitespace() {
        values.push(value_of(alloc, argument)?)?;
    }
    let value = kind_value(alloc, rule, values.as_slice())?;
    Ok(value == value_of(alloc, wanted)?)
}

fn value_of(alloc: Global, text: &str) -> Result<Value, Memory> {
    match text.strip_prefix('[') {
        Some(rows) => grid_value(alloc, rows),
        None => match text.chars().next() {
            Some('m') | None => Ok(Value::Missing),
            Some(letter) => Ok(Value::One(element_of(alloc, letter)?)),
        },
    }
}

fn grid_value(alloc: Global, text: &str) -> Result<Value, Memory> {
    let mut rows = Rows::new(alloc);
    for line in text.split('/') {
        let row = row_of(alloc, line)?;
        if let Err(_) = rows.push(row) {
            return Err(Memory);
        }
    }
    match Grid::from_rows(alloc, rows)? {
        Some(grid) => Ok(Value::Grid(grid)),
        None => Ok(Value::Missing),
    }
}

fn row_of(alloc: Global, line: &str) -> Result<Vec<ArrayNode>, Memory> {
    let mut row = Vec::new(alloc);
    for letter in line.chars() {
        if letter != ']' {
            row.push(element_of(alloc, letter)?)?;
        }
    }
    Ok(row)
}

fn element_of(alloc: Global, letter: char) -> Result<ArrayNode, Memory> {
    let element = match letter {
        't' => ArrayNode::Boolean(true),
        'f' => ArrayNode::Boolean(false),
        'b' => ArrayNode::Empty,
        'x' => ArrayNode::String(Text::from_text(alloc, "x")?),
        'q' => ArrayNode::String(Text::from_text(alloc, "2")?),
        '!' => ArrayNode::Error(Error::DIV),
        '?' => ArrayNode::Error(Error::NA),
        '#' => ArrayNode::Error(Error::NUM),
        'v' => ArrayNode::Error(Error::VALUE),
        'e' => ArrayNode::Error(Error::ERROR),
        'i' => ArrayNode::Error(Error::NIMPL),
        _ => ArrayNode::Number(number_of(letter)),
    };
    Ok(element)
}

fn number_of(letter: char) -> i64 {
    match letter {
        '1' => 1000000,
        '2' => 2000000,
        '3' => 3000000,
        '4' => 4000000,
        '9' => 9000000,
        'n' => -1500000,
        'p' => 1500000,
        'd' => -1000000,
        'w' => -2000000,
        's' => -2,
        'g' => i64::MAX,
        'l' => i64::MIN,
        _ => 0,
    }
}
