use std::error::Error;
use std::fmt;

/// A device refused a call. Nothing else is said.
#[derive(Clone, Copy, Debug, PartialEq, Eq)]
pub struct Failed;

impl fmt::Display for Failed {
    fn fmt<W: fmt::Write>(&self, f: &mut fmt::Formatter<W>) -> fmt::Result {
        write!(f, "the device refused a call")
    }
}

impl Error for Failed {}
