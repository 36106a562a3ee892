ghost use Rattle.std.specs.Prelude.{◌≡◌};
ghost use Rattle.value_core.specs.ErrorName.{error_name};

use std::fmt;

/// The error values.
#[derive(Clone, Copy, Debug, PartialEq, Eq)]
pub enum Error {
    REF,
    NAME,
    VALUE,
    DIV,
    NA,
    NUM,
    ERROR,
    NIMPL,
    SPILL,
    CALC,
    CIRC,
    NULL,
}

impl Error {
    /// The text of the error value, as `#REF!`.
    pub fn name(self) -> &'static str
        ensures { result.now ≡ error_name self }
    {
        match self {
            Error::REF => "#REF!",
            Error::NAME => "#NAME?",
            Error::VALUE => "#VALUE!",
            Error::DIV => "#DIV/0!",
            Error::NA => "#N/A",
            Error::NUM => "#NUM!",
            Error::ERROR => "#ERROR!",
            Error::NIMPL => "#NIMPL!",
            Error::SPILL => "#SPILL!",
            Error::CALC => "#CALC!",
            Error::CIRC => "#CIRC!",
            Error::NULL => "#NULL!",
        }
    }
}

impl fmt::Display for Error {
    ghost use Rattle.std.specs.Prelude.{Some};
    ghost use Rattle.value_core.specs.ErrorName.{error_name};

    ghost output = { λ error. Some (error_name error) };

    fn fmt<W: fmt::Write>(&self, f: &mut fmt::Formatter<W>) -> fmt::Result {
        f.write_str(self.name())
    }
}
