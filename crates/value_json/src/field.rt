//! What one place of an array may hold. Place 0 is the first.
ghost use Rattle.std.specs.Prelude.{◌≡◌, ◌==◌, if◌then◌else◌, map, length, option_map, slice_get, Some, None};
ghost use Rattle.serde_json.specs.View.{view};
ghost use Rattle.value_json.specs.Reading.{Finds, FindsBy, Gives};
ghost use Rattle.value_json.specs.Fields.{places_in, u32_in, u32_at, id_at, i32_at, i64_at, truth_at, text_at, name_at};

use crate::error::FormError;
use serde_json::Value;
use std::alloc::Global;
use value_core::Text;

/// The elements of a value that is an array.
#[tactic(auto, unfolding(crate::specs::Fields::places_in), using(crate::proofs::Seen::elements))]
pub fn read_array(value: &Value) -> Result<&[Value], FormError>
    ensures { FindsBy (λ items. map view items.now) result (places_in (view value.now)) }
{
    match value.as_array() {
        Some(items) => Ok(items.as_slice()),
        None => Err(FormError::NotOfForm),
    }
}

/// What stands at a place.
pub fn read_item(items: &[Value], place: usize) -> Result<&Value, FormError>
    ensures { FindsBy (λ value. view value.now) result (slice_get (map view items.now) place) }
{
    if place < items.len() {
        Ok(&items[place])
    } else {
        Err(FormError::NotOfForm)
    }
}

#[tactic(auto, unfolding(crate::specs::Fields::u32_in))]
fn u32_in(value: &Value) -> Option<u32>
    ensures { result ≡ u32_in (view value.now) }
{
    match value.as_u64() {
        Some(whole) if whole <= u32::MAX as u64 => Some(whole as u32),
        _ => None,
    }
}

/// Refuses an array that has fewer or more elements.
pub fn check_length(items: &[Value], count: usize) -> Result<(), FormError>
    ensures { Finds result (if length items.now == count then Some tt else None) }
{
    if items.len() == count {
        Ok(())
    } else {
        Err(FormError::NotOfForm)
    }
}

/// A whole number from 0 to 2^32 - 1.
#[tactic(auto, unfolding(crate::specs::Fields::u32_at))]
pub fn read_u32(items: &[Value], place: usize) -> Result<u32, FormError>
    ensures { Finds result (u32_at place (map view items.now)) }
{
    let value = read_item(items, place)?;
    match u32_in(value) {
        Some(whole) => Ok(whole),
        None => Err(FormError::NotOfForm),
    }
}

/// A whole number from 0 to 2^32 - 1, or null, which is no number.
#[tactic(auto, unfolding(crate::specs::Fields::id_at))]
pub fn read_id(items: &[Value], place: usize) -> Result<Option<u32>, FormError>
    ensures { Finds result (id_at place (map view items.now)) }
{
    let value = read_item(items, place)?;
    if value.is_null() {
        return Ok(None);
    }
    match u32_in(value) {
        Some(whole) => Ok(Some(whole)),
        None => Err(FormError::NotOfForm),
    }
}

/// A whole number from -2^63 to 2^63 - 1.
#[tactic(auto, unfolding(crate::specs::Fields::i64_at))]
pub fn read_i64(items: &[Value], place: usize) -> Result<i64, FormError>
    ensures { Finds result (i64_at place (map view items.now)) }
{
    let value = read_item(items, place)?;
    match value.as_i64() {
        Some(whole) => Ok(whole),
        None => Err(FormError::NotOfForm),
    }
}

/// A whole number from -2^31 to 2^31 - 1.
#[tactic(auto, unfolding(crate::specs::Fields::i32_at))]
pub fn read_i32(items: &[Value], place: usize) -> Result<i32, FormError>
    ensures { Finds result (i32_at place (map view items.now)) }
{
    let whole = read_i64(items, place)?;
    if i32::MIN as i64 <= whole && whole <= i32::MAX as i64 {
        Ok(whole as i32)
    } else {
        Err(FormError::NotOfForm)
    }
}

/// A truth value.
#[tactic(auto, unfolding(crate::specs::Fields::truth_at))]
pub fn read_truth(items: &[Value], place: usize) -> Result<bool, FormError>
    ensures { Finds result (truth_at place (map view items.now)) }
{
    let value = read_item(items, place)?;
    match value.as_bool() {
        Some(truth) => Ok(truth),
        None => Err(FormError::NotOfForm),
    }
}

/// A text, borrowed.
#[tactic(auto, unfolding(crate::specs::Fields::text_at))]
pub fn read_text(items: &[Value], place: usize) -> Result<&str, FormError>
    ensures { FindsBy (λ text. text.now) result (text_at place (map view items.now)) }
{
    let value = read_item(items, place)?;
    match value.as_str() {
        Some(text) => Ok(text),
        None => Err(FormError::NotOfForm),
    }
}

/// A text, as one of its own.
pub fn read_own_text(alloc: Global, items: &[Value], place: usize) -> Result<Text, FormError>
    ensures { Gives result (text_at place (map view items.now)) }
{
    let text = read_text(items, place)?;
    Ok(Text::from_text(alloc, text)?)
}

/// A text, or null, which is no name.
#[tactic(auto, unfolding(crate::specs::Fields::name_at))]
pub fn read_name(alloc: Global, items: &[Value], place: usize) -> Result<Option<Text>, FormError>
    ensures { Gives result (name_at place (map view items.now)) }
{
    let value = read_item(items, place)?;
    if value.is_null() {
        return Ok(None);
    }
    match value.as_str() {
        Some(name) => Ok(Some(Text::from_text(alloc, name)?)),
        None => Err(FormError::NotOfForm),
    }
}
