ghost use Rattle.std.specs.Prelude.{◌≡◌, ℕ, ◌+◌, ◌-◌, ◌^◌, ◌≤◌, length, min, None, IfOk, OnErr};
ghost use Rattle.device_core.specs.Faults.{CountsFaults};

use crate::failed::Failed;
use crate::source::Source;
use std::io::Read;
use std::marker::Model;

/// A source over one of std's readers, as standard input is. What the system gives is trusted: it tells no bytes. A
/// contract sees the count of faults.
#[derive(Drop)]
pub struct StdSource<R> {
    reader: R,
    faults: u64,
}

impl<R> Model for StdSource<R> {
    ghost use Rattle.std.specs.Prelude.{ℕ};

    ghost Value = { ℕ };

    ghost view = { λ source. source.faults };
}

impl<R: Read> StdSource<R> {
    /// A source over this reader, with no fault so far.
    pub fn new(reader: R) -> StdSource<R>
        ensures { result ≡ 0 }
    {
        StdSource { reader, faults: 0 }
    }
}

impl<R: Read> Source for StdSource<R> {
    ghost unread = { λ _. None };

    ghost faults = { λ source. source };

    /// Reads once. Each error of the reader is a fault.
    fn take(&mut self, into: &mut [u8]) -> Result<usize, Failed>
        ensures bound { IfOk result (λ n. n ≤ length into.new) }
        ensures counted { CountsFaults self.old self.new result }
        ensures one_fault { OnErr result (self.new ≡ min (self.old + 1) (2 ^ 64 - 1)) }
    {
        match self.reader.read(into) {
            Ok(count) => Ok(count),
            Err(_error) => {
                self.faults = self.faults.saturating_add(1);
                Err(Failed)
            }
        }
    }
}
