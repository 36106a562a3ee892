use std::alloc::{AllocError, AllocFailed};
use value_json::FormError;

/// Why nothing was read straight.
#[derive(Clone, Copy, Debug, PartialEq, Eq)]
pub enum Unread {
    /// An allocation failed.
    Memory,
    /// The text is none that is read straight. It may be of the form or not.
    Other,
}

impl From<AllocError> for Unread {
    fn from(_error: AllocError) -> Unread {
        Unread::Memory
    }
}

impl From<value_core::Memory> for Unread {
    fn from(_error: value_core::Memory) -> Unread {
        Unread::Memory
    }
}

impl<T: Drop> From<AllocFailed<T>> for Unread {
    fn from(_error: AllocFailed<T>) -> Unread {
        Unread::Memory
    }
}

impl From<FormError> for Unread {
    fn from(error: FormError) -> Unread {
        match error {
            FormError::Memory => Unread::Memory,
            FormError::NotOfForm => Unread::Other,
        }
    }
}
