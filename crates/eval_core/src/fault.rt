ghost use Rattle.std.specs.Prelude.{◌≡◌};

use validity_core::Place;
use value_core::Memory;

/// Why a formula has no answer: it is bad at a place, or memory ran out.
#[derive(Clone, Copy, Debug, thiserror::Error)]
pub enum Fault {
    #[error("bad request")]
    BadRequest(Place),
    #[error("memory")]
    Memory,
}

impl From<Memory> for Fault {
    ghost use Rattle.eval_core.specs.declared.fault.Fault.TheVariants as faults;

    ghost from_gives = { λ _ fault. fault ≡ faults.Memory };

    fn from(_memory: Memory) -> Fault {
        Fault::Memory
    }
}
