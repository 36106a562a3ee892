ghost use Rattle.std.specs.Prelude.{◌≡◌};

use std::alloc::{AllocError, AllocFailed};
use std::error::Error;
use std::fmt;

/// Why nothing was read.
#[derive(Clone, Copy, Debug, PartialEq, Eq)]
pub enum FormError {
    /// An allocation failed, and nothing is known of the JSON.
    Memory,
    /// It is no JSON, or of another form than the one that was asked for.
    NotOfForm,
}

impl fmt::Display for FormError {
    fn fmt<W: fmt::Write>(&self, f: &mut fmt::Formatter<W>) -> fmt::Result {
        match self {
            FormError::Memory => write!(f, "memory ran out"),
            FormError::NotOfForm => write!(f, "not of the form"),
        }
    }
}

impl Error for FormError {}

impl From<AllocError> for FormError {
    ghost use Rattle.value_json.specs.declared.error.FormError.TheVariants.{Memory};
    ghost use Rattle.std.specs.Prelude.{◌≡◌};

    ghost from_gives = { λ _ error. error ≡ Memory };

    fn from(_error: AllocError) -> FormError {
        FormError::Memory
    }
}

impl From<value_core::Memory> for FormError {
    ghost use Rattle.value_json.specs.declared.error.FormError.TheVariants.{Memory};
    ghost use Rattle.std.specs.Prelude.{◌≡◌};

    ghost from_gives = { λ _ error. error ≡ Memory };

    fn from(_error: value_core::Memory) -> FormError {
        FormError::Memory
    }
}

impl<T: Drop> From<AllocFailed<T>> for FormError {
    ghost use Rattle.value_json.specs.declared.error.FormError.TheVariants.{Memory};
    ghost use Rattle.std.specs.Prelude.{◌≡◌};

    ghost from_gives = { λ _ error. error ≡ Memory };

    fn from(_error: AllocFailed<T>) -> FormError {
        FormError::Memory
    }
}
