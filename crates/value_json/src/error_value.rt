//! Error values by their names.
ghost use Rattle.std.specs.Prelude.{◌≡◌, map};
ghost use Rattle.serde_json.specs.View.{view};
ghost use Rattle.value_json.specs.Reading.{Finds};
ghost use Rattle.value_json.specs.ErrorValues.{error_named, error_at};

use crate::error::FormError;
use crate::field::read_text;
use serde_json::Value;
use value_core::Error;

/// All error values.
pub static ERRORS: [Error; 12] = [
    Error::REF,
    Error::NAME,
    Error::VALUE,
    Error::DIV,
    Error::NA,
    Error::NUM,
    Error::ERROR,
    Error::NIMPL,
    Error::SPILL,
    Error::CALC,
    Error::CIRC,
    Error::NULL,
];

/// The error value that is written so.
pub fn error_named(name: &str) -> Option<Error>
    ensures { result ≡ error_named name.now }
{
    ERRORS.iter().copied().find(|error| error.name() == name)
}

/// The error value whose name stands at a place.
#[tactic(auto, unfolding(crate::specs::ErrorValues::error_at))]
pub fn read_error(items: &[Value], place: usize) -> Result<Error, FormError>
    ensures { Finds result (error_at place (map view items.now)) }
{
    match error_named(read_text(items, place)?) {
        Some(error) => Ok(error),
        None => Err(FormError::NotOfForm),
    }
}
