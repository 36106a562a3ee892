ghost use Rattle.std.specs.Prelude.{◌≡◌, IfOk};
ghost use Rattle.std.specs.Str.{str_eq_ignore_ascii_case};
ghost use Rattle.operand_core.specs.Cast.{cast_to_bool, cast_to_number, cast_to_string, number_of_text, truth_of_text, truth_text};

use number_core::{number_text, read_number};
use std::alloc::Global;
use value_core::{ArrayNode, Error, Memory, Text};

/// An element as a number, in millionths; `#VALUE!` exactly for a text that is none, and an error for itself.
pub fn cast_to_number(element: &ArrayNode) -> Result<i64, Error>
    ensures { result ≡ cast_to_number element.now }
{
    match element {
        ArrayNode::Number(number) => Ok(*number),
        ArrayNode::Boolean(value) => { if *value { Ok(1000000) } else { Ok(0) } }
        ArrayNode::String(text) => number_of_text(text.as_str()),
        ArrayNode::Error(error) => Err(*error),
        ArrayNode::Empty => Ok(0),
    }
}

fn number_of_text(text: &str) -> Result<i64, Error>
    ensures { result ≡ number_of_text text.now }
{
    match read_number(text) {
        Some(number) => Ok(number),
        None => Err(Error::VALUE),
    }
}

/// An element as a truth value; `#VALUE!` exactly for a text that is neither word, and an error for itself.
pub fn cast_to_bool(element: &ArrayNode) -> Result<bool, Error>
    ensures { result ≡ cast_to_bool element.now }
{
    match element {
        ArrayNode::Number(number) => Ok(*number != 0),
        ArrayNode::Boolean(value) => Ok(*value),
        ArrayNode::String(text) => truth_of_text(text.as_str()),
        ArrayNode::Error(error) => Err(*error),
        ArrayNode::Empty => Ok(false),
    }
}

fn truth_of_text(text: &str) -> Result<bool, Error>
    ensures { result ≡ truth_of_text text.now }
{
    if is_word(text, "TRUE") {
        Ok(true)
    } else if is_word(text, "FALSE") {
        Ok(false)
    } else {
        Err(Error::VALUE)
    }
}

fn is_word(text: &str, word: &str) -> bool
    ensures { result ≡ str_eq_ignore_ascii_case text.now word.now }
{
    text.eq_ignore_ascii_case(word)
}

/// An element as a text; an error for itself.
pub fn cast_to_string(alloc: Global, element: &ArrayNode) -> Result<Result<Text, Error>, Memory>
    ensures { IfOk result (λ cast. cast ≡ cast_to_string element.now) }
{
    match element {
        ArrayNode::Number(number) => Ok(Ok(number_text(alloc, *number)?)),
        ArrayNode::Boolean(value) => Ok(Ok(truth_text(alloc, *value)?)),
        ArrayNode::String(text) => Ok(Ok(text.try_clone(alloc)?)),
        ArrayNode::Error(error) => Ok(Err(*error)),
        ArrayNode::Empty => Ok(Ok(Text::from_text(alloc, "")?)),
    }
}

fn truth_text(alloc: Global, value: bool) -> Result<Text, Memory>
    ensures { IfOk result (λ text. text ≡ truth_text value) }
{
    if value {
        Text::from_text(alloc, "TRUE")
    } else {
        Text::from_text(alloc, "FALSE")
    }
}
