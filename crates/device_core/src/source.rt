ghost use Rattle.std.specs.Prelude.{◌≡◌, ℕ, ◌<◌, ◌≤◌, List, [], length, take, Option, IfOk, OnErr};
ghost use Rattle.device_core.specs.Faults.{CountsFaults};
ghost use Rattle.device_core.specs.Flow.{Consumes, IsAtEnd};

use crate::failed::Failed;

/// Where bytes come from, a piece at a time.
pub trait Source {
    // The bytes that are still to come, where the source tells them.
    ghost unread: { Self → Option (List ℕ) };

    // How many faults there were. The count stops at 2 ^ 64 - 1.
    ghost faults: { Self → ℕ };

    /// Puts the next bytes into the first places of `into`, and answers how many. None into a slice that isn't empty
    /// means the end of input. A failure takes no byte.
    fn take(&mut self, into: &mut [u8]) -> Result<usize, Failed>
        ensures bound { IfOk result (λ n. n ≤ length into.new) }
        ensures given { IfOk result (λ n. Consumes (unread self.old) (unread self.new) (take n into.new)) }
        ensures end { result ≡ Ok 0 → 0 < length into.old → IsAtEnd (unread self.new) }
        ensures kept { OnErr result (Consumes (unread self.old) (unread self.new) []) }
        ensures counted { CountsFaults (faults self.old) (faults self.new) result };
}
