ghost use Rattle.std.specs.Prelude.{◌≡◌};
ghost use Rattle.answer_core.specs.Status.{code_of};

use eval_core::Place;

/// How a run ended.
#[derive(Clone, Copy, Debug, PartialEq, Eq)]
pub enum Status {
    /// The answer was written.
    Done,
    /// The words are none of the commands.
    Usage,
    /// The input is no request.
    BadJson,
    /// The request's formula isn't valid in its cell: the first bad place.
    BadRequest(Place),
    /// The input has more than 16777216 bytes.
    TooLong,
    /// The source refused a call.
    ReadFault,
    /// The sink refused a call.
    WriteFault,
    /// Memory ran out.
    Memory,
}

impl Status {
    /// The exit status of a program that ended so.
    pub fn code(&self) -> u8
        ensures { result ≡ code_of self.now }
    {
        match self {
            Status::Done => 0,
            Status::Usage => 2,
            Status::BadJson => 3,
            Status::BadRequest(_) => 4,
            Status::TooLong => 5,
            Status::ReadFault => 6,
            Status::WriteFault => 7,
            Status::Memory => 8,
        }
    }
}
