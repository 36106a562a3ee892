ghost use Rattle.std.specs.Prelude.{◌≡◌};

use std::alloc::AllocFailed;
use value_core::{Error, Memory};

/// Why a call ends before its value: a check that fails, with its error, or want of memory.
#[derive(Clone, Copy, Debug)]
pub enum Stop {
    Wrong(Error),
    Memory,
}

impl From<Memory> for Stop {
    ghost use Rattle.argument_core.specs.declared.stop.Stop.TheVariants as stops;

    ghost from_gives = { λ _ stop. stop ≡ stops.Memory };

    fn from(_memory: Memory) -> Stop {
        Stop::Memory
    }
}

impl From<Error> for Stop {
    ghost use Rattle.argument_core.specs.declared.stop.Stop.TheVariants as stops;

    ghost from_gives = { λ error stop. stop ≡ stops.Wrong error };

    fn from(error: Error) -> Stop {
        Stop::Wrong(error)
    }
}

impl<T: Drop> From<AllocFailed<T>> for Stop {
    ghost use Rattle.argument_core.specs.declared.stop.Stop.TheVariants as stops;

    ghost from_gives = { λ _ stop. stop ≡ stops.Memory };

    fn from(_error: AllocFailed<T>) -> Stop {
        Stop::Memory
    }
}
