//! What an object holds.
ghost use Rattle.std.specs.Prelude.{◌≡◌, map, string_bytes};
ghost use Rattle.std.specs.BTreeMap.{keys};
ghost use Rattle.std.specs.List.{list_all, list_any};
ghost use Rattle.std.specs.Str.{bytes_eq};
ghost use Rattle.serde_json.specs.Find.{get};
ghost use Rattle.serde_json.specs.View.{view};
ghost use Rattle.value_json.specs.Reading.{Finds, FindsBy};
ghost use Rattle.value_json.specs.Objects.{has_only, is_known};

use crate::error::FormError;
use serde_json::{Map, Value};

/// Refuses what is no object, and an object with another key than these.
#[tactic(auto, unfolding(crate::specs::Objects::has_only), using(crate::proofs::Seen::members))]
pub fn check_keys(value: &Value, known: &[&str]) -> Result<(), FormError>
    ensures { Finds result (has_only (map (λ name. name.now) known.now) (view value.now)) }
{
    match value.as_object() {
        Some(members) if are_known(members, known) => Ok(()),
        _ => Err(FormError::NotOfForm),
    }
}

fn are_known(members: &Map<String, Value>, known: &[&str]) -> bool
    ensures { result ≡ list_all (λ key. is_known (map (λ name. name.now) known.now) (string_bytes key)) (keys members.now) }
{
    members.keys().all(|key| is_known(known, key.as_str()))
}

#[tactic(auto, using(crate::proofs::Seen::names))]
fn is_known(known: &[&str], key: &str) -> bool
    ensures { result ≡ is_known (map (λ name. name.now) known.now) key.now }
{
    is_among(known, key)
}

// Apart from `is_known`, since the prover follows the chain over borrowed names.
fn is_among(names: &[&str], key: &str) -> bool
    ensures { result ≡ list_any (λ name. bytes_eq name.now key.now) names.now }
{
    names.iter().any(|name| *name == key)
}

/// What stands at a key.
pub fn member<'v>(value: &'v Value, key: &str) -> Result<&'v Value, FormError>
    ensures { FindsBy (λ found. view found.now) result (get key.now (view value.now)) }
{
    match value.get(key) {
        Some(found) => Ok(found),
        None => Err(FormError::NotOfForm),
    }
}
