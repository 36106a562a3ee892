//! What stands at a key of an object.
ghost use Rattle.std.specs.Prelude.{◌≡◌};
ghost use Rattle.serde_json.specs.Find.{as_bool, as_str};
ghost use Rattle.serde_json.specs.View.{view};
ghost use Rattle.value_json.specs.Fields.{u32_in};
ghost use Rattle.value_json.specs.Reading.{Finds, FindsBy};
ghost use Rattle.unit_json.specs.Field.{at_key, i32_in};

use serde_json::Value;
use value_json::{FormError, member};

/// A text, borrowed.
pub(crate) fn text_at<'v>(object: &'v Value, key: &str) -> Result<&'v str, FormError>
    ensures { FindsBy (λ text. text.now) result (at_key as_str key.now (view object.now)) }
{
    match member(object, key)?.as_str() {
        Some(text) => Ok(text),
        None => Err(FormError::NotOfForm),
    }
}

/// A truth value.
pub(crate) fn truth_at(object: &Value, key: &str) -> Result<bool, FormError>
    ensures { Finds result (at_key as_bool key.now (view object.now)) }
{
    match member(object, key)?.as_bool() {
        Some(truth) => Ok(truth),
        None => Err(FormError::NotOfForm),
    }
}

/// A whole number from 0 to 2^32 - 1.
#[tactic(auto, unfolding(value_json::specs::Fields::u32_in))]
pub(crate) fn u32_at(object: &Value, key: &str) -> Result<u32, FormError>
    ensures { Finds result (at_key u32_in key.now (view object.now)) }
{
    match member(object, key)?.as_u64() {
        Some(whole) if whole <= u32::MAX as u64 => Ok(whole as u32),
        _ => Err(FormError::NotOfForm),
    }
}

/// A whole number from -2^31 to 2^31 - 1.
pub(crate) fn i32_at(object: &Value, key: &str) -> Result<i32, FormError>
    ensures { Finds result (at_key i32_in key.now (view object.now)) }
{
    match member(object, key)?.as_i64() {
        Some(whole) if i32::MIN as i64 <= whole && whole <= i32::MAX as i64 => Ok(whole as i32),
        _ => Err(FormError::NotOfForm),
    }
}
