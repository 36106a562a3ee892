use crate::samples::{cell, range};
use kind_table::function_named;
use std::alloc::{AllocError, AllocFailed, Global};
use tree_core::{
    Corner, DefinedNameS, Function, Memory, Node, Nodes, OpSum, OpUnary, Operator, Text, Texts,
};

/// Why some words have no formula.
#[derive(Clone, Copy, Debug, PartialEq, Eq)]
pub enum WordsError {
    /// Want of memory.
    Memory,
    /// A word has too few operands, or means nothing.
    NoFormula,
}

impl From<Memory> for WordsError {
    fn from(_error: Memory) -> WordsError {
        WordsError::Memory
    }
}

impl From<AllocError> for WordsError {
    fn from(_error: AllocError) -> WordsError {
        WordsError::Memory
    }
}

impl<T: Drop> From<AllocFailed<T>> for WordsError {
    fn from(_error: AllocFailed<T>) -> WordsError {
        WordsError::Memory
    }
}

/// The ranges that have a word: the column, the first and the last row.
static RANGES: [(&str, i32, i32, i32); 5] = [
    ("A1:A3", 1, 1, 3),
    ("A1:A5", 1, 1, 5),
    ("B1:B3", 2, 1, 3),
    ("C1:C3", 3, 1, 3),
    ("J:J", 10, 1, 1048576),
];

/// The formula of some words, each operator and call behind its operands.
///
/// `@` is one that a person put, `~` one that import did. A call has the count of its arguments behind a `/`, where `f` is a
/// named call, `apply` calls the lambda that stands before its arguments, and a number is the kind of that number. A word that
/// means nothing else is a defined name with this text.
pub fn formula(alloc: Global, words: &str) -> Result<Node, WordsError> {
    let mut stack = Vec::new(alloc);
    for word in words.split_whitespace() {
        let node = match word.split_once('/') {
            Some((name, count)) => call(alloc, name, count, &mut stack)?,
            None => leaf(alloc, word, &mut stack)?,
        };
        stack.push(node)?;
    }
    operand(&mut stack)
}

fn operand(stack: &mut Vec<Node>) -> Result<Node, WordsError> {
    stack.pop().ok_or(WordsError::NoFormula)
}

fn leaf(alloc: Global, word: &str, stack: &mut Vec<Node>) -> Result<Node, WordsError> {
    for &(name, column, first, last) in &RANGES {
        if word == name {
            let top = Corner::new(true, true, first, column);
            return Ok(range(top, Corner::new(true, true, last, column)));
        }
    }
    match word {
        "A1" => Ok(cell(Corner::new(true, true, 1, 1))),
        "1" => Ok(Node::NumberKind(1000000)),
        "2" => Ok(Node::NumberKind(2000000)),
        "5" => Ok(Node::NumberKind(5000000)),
        "x" => Ok(Node::NamedVariableKind {
            name: Text::from_text(alloc, "x")?,
            id: None,
        }),
        _ => operator(alloc, word, stack),
    }
}

fn operator(alloc: Global, word: &str, stack: &mut Vec<Node>) -> Result<Node, WordsError> {
    let node = match word {
        "@" | "~" => Node::intersection(alloc, word == "~", operand(stack)?)?,
        "%" => Node::unary(alloc, OpUnary::Percentage, operand(stack)?)?,
        "#" => Node::spill(alloc, operand(stack)?)?,
        "lambda" => Node::lambda(alloc, Texts::new(alloc), operand(stack)?)?,
        "+" => sum(alloc, OpSum::Add, stack)?,
        "-" => sum(alloc, OpSum::Minus, stack)?,
        ":" => range_operator(alloc, stack)?,
        _ => name(alloc, word)?,
    };
    Ok(node)
}

fn name(alloc: Global, word: &str) -> Result<Node, WordsError> {
    let name = Text::from_text(alloc, "name")?;
    let text = Text::from_text(alloc, word)?;
    Ok(Node::DefinedNameKind(DefinedNameS(name, None, text)))
}

fn sum(alloc: Global, kind: OpSum, stack: &mut Vec<Node>) -> Result<Node, WordsError> {
    let right = operand(stack)?;
    let left = operand(stack)?;
    let sum = Node::binary(alloc, Operator::Sum(kind), left, right)?;
    Ok(sum)
}

fn range_operator(alloc: Global, stack: &mut Vec<Node>) -> Result<Node, WordsError> {
    let right = operand(stack)?;
    let left = operand(stack)?;
    let range = Node::range_operator(alloc, left, right)?;
    Ok(range)
}

fn call(alloc: Global, name: &str, count: &str, stack: &mut Vec<Node>) -> Result<Node, WordsError> {
    let Ok(count) = count.parse::<usize>() else {
        return Err(WordsError::NoFormula);
    };
    let start = stack.len().checked_sub(count).ok_or(WordsError::NoFormula)?;
    let mut args = Nodes::new(alloc);
    for node in stack.split_off(start)? {
        args.add(node)?;
    }
    match name {
        "f" => Ok(Node::named_call(Text::from_text(alloc, "f")?, None, args)),
        "apply" => {
            let called = Node::lambda_call(alloc, operand(stack)?, args)?;
            Ok(called)
        }
        _ => Ok(Node::call(kind_of(name)?, args)),
    }
}

/// The kind of a name, or of a number.
fn kind_of(name: &str) -> Result<Function, WordsError> {
    if let Ok(number) = name.parse::<u16>() {
        return Ok(Function::Other(number));
    }
    function_named(name).ok_or(WordsError::NoFormula)
}
