ghost use Rattle.std.specs.Prelude.{◌≡◌, ◌+◌, ◌≤◌, vec_len, IfOk, OnOk};
ghost use Rattle.device_core.specs.Flow.{Consumes, ConsumesAtMost, ConsumesCount, IsAtEnd};
ghost use Rattle.device_core.specs.Reads.{CountsReadFaults};

use crate::failed::Failed;
use crate::source::Source;
use std::alloc::{AllocError, Global};
use std::error::Error;
use std::fmt;

/// The most bytes that are read in full: 16 MiB.
pub const LIMIT: usize = 16_777_216;

// How many bytes a call asks for.
const PIECE: usize = 4096;

/// Why a source was not read to its end.
#[derive(Clone, Copy, Debug, PartialEq, Eq)]
pub enum ReadError {
    /// Memory ran out.
    Memory,
    /// The source refused a call.
    Fault,
    /// The source has more than `LIMIT` bytes.
    TooLong,
}

impl fmt::Display for ReadError {
    fn fmt<W: fmt::Write>(&self, f: &mut fmt::Formatter<W>) -> fmt::Result {
        match self {
            ReadError::Memory => write!(f, "memory ran out"),
            ReadError::Fault => write!(f, "the source refused a call"),
            ReadError::TooLong => write!(f, "the source has more than {LIMIT} bytes"),
        }
    }
}

impl Error for ReadError {}

impl From<AllocError> for ReadError {
    ghost use Rattle.device_core.specs.declared.read.ReadError.TheVariants.{Memory};

    ghost from_gives = { λ _ e. e ≡ Memory };

    fn from(_error: AllocError) -> ReadError {
        ReadError::Memory
    }
}

impl From<Failed> for ReadError {
    ghost use Rattle.device_core.specs.declared.read.ReadError.TheVariants.{Fault};

    ghost from_gives = { λ _ e. e ≡ Fault };

    fn from(_failed: Failed) -> ReadError {
        ReadError::Fault
    }
}

/// All bytes of a source, up to its end. It never reads past byte `LIMIT + 1`, and every turn but the last reads at least
/// one byte.
pub fn read_to_end<S: Source>(alloc: Global, source: &mut S) -> Result<Vec<u8>, ReadError>
    ensures done { IfOk result (λ bytes.
        Consumes (S.unread source.old) (S.unread source.new) bytes.items) }
    ensures end { OnOk result (IsAtEnd (S.unread source.new)) }
    ensures limit { IfOk result (λ bytes. vec_len bytes ≤ LIMIT) }

    // What was read before each error: one byte too many, at most the limit, or some bytes.
    ensures too_long { result ≡ Err ReadError.TooLong
        → ConsumesCount (S.unread source.old) (S.unread source.new) (LIMIT + 1) }
    ensures fault { result ≡ Err ReadError.Fault
        → ConsumesAtMost (S.unread source.old) (S.unread source.new) LIMIT }
    ensures memory { result ≡ Err ReadError.Memory
        → ConsumesAtMost (S.unread source.old) (S.unread source.new) (LIMIT + 1) }

    ensures counted { CountsReadFaults (S.faults source.old) (S.faults source.new) result }
{
    let mut bytes = Vec::new(alloc);
    let mut piece = [0; PIECE];
    while bytes.len() <= LIMIT {
        let room = PIECE.min(LIMIT + 1 - bytes.len());
        let count = source.take(&mut piece[..room])?;
        if count == 0 {
            return Ok(bytes);
        }
        bytes.extend_from_slice(&piece[..count])?;
    }
    Err(ReadError::TooLong)
}
