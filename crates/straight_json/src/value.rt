//! A JSON value without fractions.
ghost use Rattle.std.specs.Prelude.{◌≡◌, ◌<◌, length, map, option_map, IfSome, IfOk, OnOk, Some};
ghost use Rattle.serde_json.specs.Data.{no_members};
ghost use Rattle.serde_json.specs.Read.{number_of};
ghost use Rattle.serde_json.specs.View.{members_view, number_view, view};
ghost use Rattle.straight_json.specs.Straight.{Reads, ReadsItems, ReadsMembers};

use crate::number::{negative_whole, unsigned_whole};
use crate::unread::Unread;
use json::{Reader, Token};
use serde_json::{Map, Number, Value};
use std::alloc::Global;

/// The next value, if all its numbers are whole numbers of 64 bits, and if arrays and objects nest in it no deeper than that.
#[cycle(value)]
pub fn read_value(alloc: Global, reader: &mut Reader<'_>, depth: usize) -> Result<Value, Unread>
    ensures read { IfOk result (λ value. Reads depth reader.old (view value) reader.new) }
    ensures shorter { OnOk result (length reader.new < length reader.old) }
{
    let Some(token) = reader.next() else {
        return Err(Unread::Other);
    };
    match token {
        Token::Null => Ok(Value::Null),
        Token::Bool(truth) => Ok(Value::Bool(truth)),
        Token::Number(text) => match number(text) {
            Some(number) => Ok(Value::Number(number)),
            None => Err(Unread::Other),
        },
        Token::String(text) => Ok(Value::String(String::from_str(alloc, text)?)),
        Token::BeginArray if 0 < depth => Ok(Value::Array(read_items(alloc, reader, depth - 1)?)),
        Token::BeginObject if 0 < depth => {
            Ok(Value::Object(read_members(alloc, reader, depth - 1)?))
        }
        _ => Err(Unread::Other),
    }
}

/// The values up to the bracket that closes an array.
#[cycle(value)]
pub(crate) fn read_items(
    alloc: Global,
    reader: &mut Reader<'_>,
    depth: usize,
) -> Result<Vec<Value>, Unread>
    ensures read { IfOk result (λ values. ReadsItems depth reader.old (map view values.items) reader.new) }
    ensures shorter { OnOk result (length reader.new < length reader.old) }
{
    let mut values = Vec::new(alloc);
    'items: while !reader.take_end_array() {
        let value = read_value(alloc, reader, depth)?;
        values.push(value)?;
    }
    Ok(values)
}

#[cycle(value)]
fn read_members(
    alloc: Global,
    reader: &mut Reader<'_>,
    depth: usize,
) -> Result<Map<String, Value>, Unread>
    ensures read { IfOk result (λ found. ReadsMembers depth reader.old no_members (members_view found.entries) reader.new) }
    ensures shorter { OnOk result (length reader.new < length reader.old) }
{
    let mut found = Map::new(alloc);
    'members: loop {
        let Ok(next) = reader.next_key() else {
            return Err(Unread::Other);
        };
        let Some(name) = next else {
            return Ok(found);
        };
        let key = String::from_str(alloc, name)?;
        let value = read_value(alloc, reader, depth)?;
        drop(found.insert(key, value)?);
    }
}

fn number(text: &str) -> Option<Number>
    ensures { IfSome result (λ number. number_of text.now ≡ Some (number_view number)) }
{
    match unsigned_whole(text) {
        Some(whole) => Some(Number::from(whole)),
        None => match negative_whole(text) {
            Some(whole) if whole < 0 => Some(Number::from(whole)),
            _ => None,
        },
    }
}
