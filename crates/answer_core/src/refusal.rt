ghost use Rattle.std.specs.Prelude.{◌≡◌, ◌≤◌, length};
ghost use Rattle.answer_core.specs.Refusal.{status_of, line_of, words_of};

use crate::status::Status;
use arrayvec::ArrayString;
use device_core::ReadError;
use eval_core::{Fault, Place};
use itoa::Buffer;
use request_core::FormError;
use tree_core::Memory;

/// Why nothing that was asked for is sent.
#[derive(Clone, Copy, Debug)]
pub enum Refusal {
    /// The words are none of the commands.
    Usage,
    /// The source refused a call.
    ReadFault,
    /// The input has more than 16777216 bytes.
    TooLong,
    /// The input is no request, or no formula.
    BadJson,
    /// The request's formula isn't valid in its cell: the first bad place.
    BadRequest(Place),
    /// Memory ran out.
    Memory,
}

impl Refusal {
    /// The status of a run that ends with this refusal.
    pub fn status(self) -> Status
        ensures { result ≡ status_of self }
    {
        match self {
            Refusal::Usage => Status::Usage,
            Refusal::ReadFault => Status::ReadFault,
            Refusal::TooLong => Status::TooLong,
            Refusal::BadJson => Status::BadJson,
            Refusal::BadRequest(place) => Status::BadRequest(place),
            Refusal::Memory => Status::Memory,
        }
    }

    /// The line that is written, with its newline. It takes no memory.
    pub fn line(self) -> ArrayString<64>
        ensures { result.bytes ≡ line_of self }
    {
        let mut line = ArrayString::new();
        line.push_str(self.words());
        if let Refusal::BadRequest(Place::Node(number)) = self {
            let mut digits = Buffer::new();
            line.push_str(digits.format(number));
        }
        line.push_str("\n");
        line
    }

    fn words(self) -> &'static str
        ensures words { result.now ≡ words_of self }
        ensures few { length result.now ≤ 44 }
    {
        match self {
            Refusal::Usage => "usage: answer, cell ROW COLUMN or generate N",
            Refusal::ReadFault => "read fault",
            Refusal::TooLong => "too long",
            Refusal::BadJson => "bad json",
            Refusal::BadRequest(Place::Cell) => "bad request at cell",
            Refusal::BadRequest(Place::Node(_)) => "bad request at node ",
            Refusal::Memory => "memory",
        }
    }
}

impl From<ReadError> for Refusal {
    ghost use Rattle.answer_core.specs.Refusal.{read_refusal};

    ghost from_gives = { λ error refusal. refusal ≡ read_refusal error };

    fn from(error: ReadError) -> Refusal {
        match error {
            ReadError::Memory => Refusal::Memory,
            ReadError::Fault => Refusal::ReadFault,
            ReadError::TooLong => Refusal::TooLong,
        }
    }
}

impl From<FormError> for Refusal {
    ghost use Rattle.answer_core.specs.Refusal.{form_refusal};

    ghost from_gives = { λ error refusal. refusal ≡ form_refusal error };

    fn from(error: FormError) -> Refusal {
        match error {
            FormError::Memory => Refusal::Memory,
            FormError::NotOfForm => Refusal::BadJson,
        }
    }
}

impl From<Fault> for Refusal {
    ghost use Rattle.answer_core.specs.Refusal.{fault_refusal};

    ghost from_gives = { λ fault refusal. refusal ≡ fault_refusal fault };

    fn from(fault: Fault) -> Refusal {
        match fault {
            Fault::BadRequest(place) => Refusal::BadRequest(place),
            Fault::Memory => Refusal::Memory,
        }
    }
}

impl From<Memory> for Refusal {
    ghost use Rattle.answer_core.specs.declared.refusal.Refusal.TheVariants as refusals;

    ghost from_gives = { λ _ refusal. refusal ≡ refusals.Memory };

    fn from(_error: Memory) -> Refusal {
        Refusal::Memory
    }
}
