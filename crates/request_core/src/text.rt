//! The JSON value that bytes are.
ghost use Rattle.std.specs.Prelude.{◌≡◌};
ghost use Rattle.std.specs.List.{list_all};
ghost use Rattle.serde_json.specs.View.{view};
ghost use Rattle.value_json.specs.Reading.{GivesBy};
ghost use Rattle.request_core.specs.Text.{is_blank, data_of};

use serde_json::Value;
use std::alloc::Global;
use value_json::FormError;

/// The JSON value that the bytes of a text are. Of equal keys the last one counts.
pub(crate) fn parse(alloc: Global, bytes: &[u8]) -> Result<Value, FormError>
    ensures { GivesBy view result (data_of bytes.now) }
{
    // The reader would hold as much again, and walk the blanks twice.
    if are_blank(bytes) {
        return Err(FormError::NotOfForm);
    }
    match Value::from_slice(alloc, bytes) {
        Ok(value) => Ok(value),
        Err(error) => {
            if error.is_memory() {
                Err(FormError::Memory)
            } else {
                Err(FormError::NotOfForm)
            }
        }
    }
}

fn are_blank(bytes: &[u8]) -> bool
    ensures { result ≡ list_all is_blank bytes.now }
{
    bytes.iter().all(|byte| is_blank(*byte))
}

fn is_blank(byte: u8) -> bool
    ensures { result ≡ is_blank byte }
{
    byte == b' ' || byte == b'\t' || byte == b'\n' || byte == b'\r'
}
