ghost use Rattle.std.specs.Prelude.{◌≡◌, ℕ, ◌<◌, ◌≤◌, List, [], length, take, Option, IfOk, OnErr};
ghost use Rattle.device_core.specs.Faults.{CountsFaults};
ghost use Rattle.device_core.specs.Flow.{Adds};

use crate::failed::Failed;

/// Where bytes go, a piece at a time.
pub trait Sink {
    // All the bytes that were written, where the sink tells them.
    ghost written: { Self → Option (List ℕ) };

    // How many faults there were. The count stops at 2 ^ 64 - 1.
    ghost faults: { Self → ℕ };

    /// Takes the first bytes of `piece`, and answers how many: at least one of a piece that isn't empty. A failure takes
    /// no byte.
    fn give(&mut self, piece: &[u8]) -> Result<usize, Failed>
        ensures bound { IfOk result (λ n. n ≤ length piece.now) }
        ensures progress { IfOk result (λ n. 0 < length piece.now → 0 < n) }
        ensures added { IfOk result (λ n. Adds (written self.old) (written self.new) (take n piece.now)) }
        ensures kept { OnErr result (Adds (written self.old) (written self.new) []) }
        ensures counted { CountsFaults (faults self.old) (faults self.new) result };
}
