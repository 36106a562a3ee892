use super::*;
use std::alloc::Global;
use std::test::Fail;
use value_core::{Error, Memory};

/// Operations on two numbers, the right one of which some leave alone, and what they make.
static OPERATIONS: [(i64, char, i64, Result<i64, Error>); 31] = [
    (i64::MAX, '+', 1, Err(Error::NUM)),
    (i64::MIN, '+', i64::MAX, Ok(-1)),
    (i64::MIN, '-', 1, Err(Error::NUM)),
    (0, '-', i64::MIN, Err(Error::NUM)),
    (-1, '-', i64::MIN, Ok(i64::MAX)),
    (-1500000, '*', 1, Ok(-1)),
    (i64::MAX, '*', 1000000, Ok(i64::MAX)),
    (i64::MIN, '*', -1000000, Err(Error::NUM)),
    (-7000000, '/', 3000000, Ok(-2333333)),
    (1000000, '/', 0, Err(Error::DIV)),
    (i64::MIN, '/', 0, Err(Error::DIV)),
    (i64::MIN, '/', -1000000, Err(Error::NUM)),
    (9223372036854, '/', 1, Ok(9223372036854000000)),
    (9223372036855, '/', 1, Err(Error::NUM)),
    (2000000, '^', 500000, Err(Error::NUM)),
    (2000000, '^', 10000000, Ok(1024000000)),
    (2000000, '^', 1024000000, Err(Error::NUM)),
    (-1000000, '^', 1023000000, Ok(-1000000)),
    (1000000, '^', 1025000000, Err(Error::NUM)),
    (0, '^', 0, Err(Error::NUM)),
    (0, '^', 1000000, Ok(0)),
    (5000000, '^', 0, Ok(1000000)),
    (5000000, '^', -1000000, Err(Error::NUM)),
    (50000000, '%', 0, Ok(500000)),
    (-199, '%', 0, Ok(-1)),
    (i64::MIN, 'n', 0, Err(Error::NUM)),
    (i64::MAX, 'n', 0, Ok(-i64::MAX)),
    (i64::MIN, 'a', 0, Err(Error::NUM)),
    (-2500000, 's', 0, Ok(-1000000)),
    (-1500000, 'f', 0, Ok(-2000000)),
    (i64::MIN, 'f', 0, Err(Error::NUM)),
];

#[test]
fn operations_are_exact_and_then_cut(rt: HostRuntime) {
    for &(left, operator, right, wanted) in &OPERATIONS {
        assert_eq!(rt; result_of(left, operator, right), wanted);
    }
}

fn result_of(left: i64, operator: char, right: i64) -> Result<i64, Error> {
    match operator {
        '+' => add_numbers(left, right),
        '-' => subtract_numbers(left, right),
        '*' => multiply_numbers(left, right),
        '/' => divide_numbers(left, right),
        '^' => power_numbers(left, right),
        '%' => Ok(percent_number(left)),
        'n' => negate_number(left),
        'a' => absolute_number(left),
        's' => Ok(sign_number(left)),
        _ => floor_number(left),
    }
}

/// Numbers, and their whole numbers: cut toward zero, the floor, and the latter as an `i32` and as a `usize`.
static WHOLES: [(i64, i64, i64, i32, usize); 4] = [
    (1999999, 1, 1, 1, 1),
    (-1000001, -1, -2, -2, 0),
    (
        i64::MAX,
        9223372036854,
        9223372036854,
        2147483647,
        9223372036854,
    ),
    (i64::MIN, -9223372036854, -9223372036855, -2147483648, 0),
];

#[test]
fn whole_numbers_stop_at_the_ends(rt: HostRuntime) {
    for &(number, cut, below, small, count) in &WHOLES {
        assert_eq!(rt; trunc(number), cut);
        assert_eq!(rt; floor(number), below);
        assert_eq!(rt; saturating_i64_to_i32(below), small);
        assert_eq!(rt; saturating_i64_to_usize(below), count);
    }
}

static TEXTS: [(i64, &str); 8] = [
    (0, "0"),
    (-2333333, "-2.333333"),
    (500000, "0.5"),
    (10, "0.00001"),
    (1000000000000, "1000000"),
    (i64::MIN, "-9223372036854.775808"),
    (i64::MAX, "9223372036854.775807"),
    (-1, "-0.000001"),
];

#[test]
fn texts_of_numbers_are_written_and_read(rt: HostRuntime) -> Result<(), Fail> {
    for &(number, text) in &TEXTS {
        assert!(rt; is_text_of(rt.alloc(), number, text)?);
        assert_eq!(rt; read_number(text), Some(number));
    }
    number_texts_read_back(0);
    Ok(())
}

fn is_text_of(alloc: Global, number: i64, text: &str) -> Result<bool, Memory> {
    let written = number_text(alloc, number)?;
    Ok(written.as_str() == text)
}

/// Texts that no number is written as, and what is read of them.
static READINGS: [(&str, Option<i64>); 19] = [
    ("+1", Some(1000000)),
    ("-0", Some(0)),
    ("007.10", Some(7100000)),
    ("1.", None),
    (".5", None),
    ("1.1234567", None),
    ("", None),
    ("-", None),
    ("+-1", None),
    ("1.+5", None),
    ("1e3", None),
    (" 1", None),
    ("1.2.3", None),
    ("9223372036854.775808", None),
    ("-9223372036854.775808", Some(i64::MIN)),
    ("-9223372036854.775809", None),
    ("99999999999999999999999999", None),
    ("-99999999999999999999999999.1", None),
    ("00000000000000000000000000001.5", Some(1500000)),
];

#[test]
fn other_texts_are_read_or_refused(rt: HostRuntime) {
    for &(text, number) in &READINGS {
        assert_eq!(rt; read_number(text), number);
    }
}
