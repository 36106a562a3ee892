//! What one place of an array may hold.
ghost use Rattle.std.specs.Prelude.{◌≡◌, ◌∷◌, ℕ, List, IfOk, OnOk, Some};
ghost use Rattle.json.specs.Json.{after_end_array};
ghost use Rattle.json.specs.Token.{begin_array, string};
ghost use Rattle.serde_json.specs.Find.{as_bool, as_str};
ghost use Rattle.value_json.specs.Fields.{u32_in};
ghost use Rattle.formula_json.specs.Tags.{tag_named};
ghost use Rattle.straight_json.specs.Straight.{IsField, IsCorner, i64_in, i32_in, id_in, kind_in, name_in};

use crate::number::{unsigned_whole, whole};
use crate::unread::Unread;
use formula_json::{Tag, kind_named, tag_named};
use json::{Reader, Token};
use std::alloc::Global;
use tree_core::{Corner, Function, Text};

/// The bracket that closes an array.
#[inline(never)]
pub(crate) fn take_end(reader: &mut Reader<'_>) -> Result<(), Unread>
    ensures { OnOk result (after_end_array reader.old ≡ Some reader.new) }
{
    if reader.take_end_array() {
        Ok(())
    } else {
        Err(Unread::Other)
    }
}

/// A whole number from -2^63 to 2^63 - 1.
#[inline(never)]
#[tactic(auto, using(crate::proofs::Fields::found_fields))]
pub(crate) fn take_i64(reader: &mut Reader<'_>) -> Result<i64, Unread>
    ensures { IfOk result (λ whole. IsField i64_in reader.old whole reader.new) }
{
    match reader.next() {
        Some(Token::Number(text)) => match whole(text) {
            Some(whole) => Ok(whole),
            None => Err(Unread::Other),
        },
        _ => Err(Unread::Other),
    }
}

/// A whole number from -2^31 to 2^31 - 1.
#[inline(always)]
#[tactic(auto, using(crate::proofs::Fields::found_fields))]
pub(crate) fn take_i32(reader: &mut Reader<'_>) -> Result<i32, Unread>
    ensures { IfOk result (λ whole. IsField i32_in reader.old whole reader.new) }
{
    let whole = take_i64(reader)?;
    if i32::MIN as i64 <= whole && whole <= i32::MAX as i64 {
        Ok(whole as i32)
    } else {
        Err(Unread::Other)
    }
}

/// A whole number from 0 to 2^32 - 1.
#[inline(never)]
#[tactic(auto, using(crate::proofs::Fields::found_fields))]
pub(crate) fn take_u32(reader: &mut Reader<'_>) -> Result<u32, Unread>
    ensures { IfOk result (λ whole. IsField u32_in reader.old whole reader.new) }
{
    match reader.next() {
        Some(Token::Number(text)) => match unsigned_whole(text) {
            Some(whole) if whole <= u32::MAX as u64 => Ok(whole as u32),
            _ => Err(Unread::Other),
        },
        _ => Err(Unread::Other),
    }
}

/// A whole number from 0 to 2^32 - 1, or null, which is no number.
#[inline(never)]
#[tactic(auto, using(crate::proofs::Fields::found_fields))]
pub(crate) fn take_id(reader: &mut Reader<'_>) -> Result<Option<u32>, Unread>
    ensures { IfOk result (λ id. IsField id_in reader.old id reader.new) }
{
    match reader.next() {
        Some(Token::Null) => Ok(None),
        Some(Token::Number(text)) => match unsigned_whole(text) {
            Some(whole) if whole <= u32::MAX as u64 => Ok(Some(whole as u32)),
            _ => Err(Unread::Other),
        },
        _ => Err(Unread::Other),
    }
}

/// A truth value.
#[inline(never)]
#[tactic(auto, using(crate::proofs::Fields::found_fields))]
pub(crate) fn take_truth(reader: &mut Reader<'_>) -> Result<bool, Unread>
    ensures { IfOk result (λ truth. IsField as_bool reader.old truth reader.new) }
{
    match reader.next() {
        Some(Token::Bool(truth)) => Ok(truth),
        _ => Err(Unread::Other),
    }
}

/// A text.
#[inline(never)]
#[tactic(auto, using(crate::proofs::Fields::found_fields))]
pub(crate) fn take_text(alloc: Global, reader: &mut Reader<'_>) -> Result<Text, Unread>
    ensures { IfOk result (λ text. IsField as_str reader.old text reader.new) }
{
    match reader.next() {
        Some(Token::String(text)) => Ok(Text::from_text(alloc, text)?),
        _ => Err(Unread::Other),
    }
}

/// A text, or null, which is no name.
#[inline(never)]
#[tactic(auto, using(crate::proofs::Fields::found_fields))]
pub(crate) fn take_name(alloc: Global, reader: &mut Reader<'_>) -> Result<Option<Text>, Unread>
    ensures { IfOk result (λ name. IsField name_in reader.old name reader.new) }
{
    match reader.next() {
        Some(Token::Null) => Ok(None),
        Some(Token::String(text)) => Ok(Some(Text::from_text(alloc, text)?)),
        _ => Err(Unread::Other),
    }
}

/// The name of a kind of function.
#[inline(never)]
#[tactic(auto, using(crate::proofs::Fields::found_fields))]
pub(crate) fn take_kind(reader: &mut Reader<'_>) -> Result<Function, Unread>
    ensures { IfOk result (λ kind. IsField kind_in reader.old kind reader.new) }
{
    match reader.next() {
        Some(Token::String(name)) => match kind_named(name) {
            Some(kind) => Ok(kind),
            None => Err(Unread::Other),
        },
        _ => Err(Unread::Other),
    }
}

/// Where an end of a reference lies, by four places.
pub(crate) fn take_corner(reader: &mut Reader<'_>) -> Result<Corner, Unread>
    ensures { IfOk result (λ corner. IsCorner reader.old corner reader.new) }
{
    let absolute_row = take_truth(reader)?;
    let absolute_column = take_truth(reader)?;
    let row = take_i32(reader)?;
    let column = take_i32(reader)?;
    Ok(Corner::new(absolute_row, absolute_column, row, column))
}

/// The bracket that opens an array, and the tag that is its first element.
#[inline(never)]
pub(crate) fn take_tag(reader: &mut Reader<'_>) -> Result<Tag, Unread>
    ensures { IfOk result (λ tag. (name : List ℕ) × (reader.old ≡ begin_array ∷ string name ∷ reader.new) × (tag_named name ≡ Some tag)) }
{
    let Some(Token::BeginArray) = reader.next() else {
        return Err(Unread::Other);
    };
    match reader.next() {
        Some(Token::String(name)) => match tag_named(name) {
            Some(tag) => Ok(tag),
            None => Err(Unread::Other),
        },
        _ => Err(Unread::Other),
    }
}
