ghost use Rattle.std.specs.Prelude.{◌≡◌, ◌<◌, ◌≤◌, [], ◌++◌, length, take, drop, min, Some, IfOk, OnErr};
ghost use Rattle.device_core.specs.Faults.{CountsFaults};
ghost use Rattle.device_core.specs.Flow.{Consumes, IsAtEnd};

use crate::failed::Failed;
use crate::source::Source;
use std::marker::Model;

/// A source of bytes that lie elsewhere, which never fails. A contract sees the bytes left.
#[derive(Drop)]
pub struct SliceSource<'a> {
    unread: &'a [u8],
}

impl<'a> Model for SliceSource<'a> {
    ghost use Rattle.std.specs.Prelude.{ℕ, List};

    ghost Value = { List ℕ };

    ghost view = { λ source. source.unread.now };
}

impl<'a> SliceSource<'a> {
    /// A source of these bytes.
    pub fn new(bytes: &'a [u8]) -> SliceSource<'a>
        ensures { result ≡ bytes.now }
    {
        SliceSource { unread: bytes }
    }
}

impl<'a> Source for SliceSource<'a> {
    ghost unread = { λ source. Some source };

    ghost faults = { λ _. 0 };

    fn take(&mut self, into: &mut [u8]) -> Result<usize, Failed>
        ensures bound { IfOk result (λ n. n ≤ length into.new) }
        ensures given { IfOk result (λ n. Consumes (Some self.old) (Some self.new) (take n into.new)) }
        ensures end { result ≡ Ok 0 → 0 < length into.old → IsAtEnd (Some self.new) }
        ensures kept { OnErr result (Consumes (Some self.old) (Some self.new) []) }
        ensures counted { CountsFaults 0 0 result }

        // It never fails, and gives all that the slice has place for.
        ensures count { result ≡ Ok (min (length self.old) (length into.old)) }
        ensures copied { IfOk result (λ n. into.new ≡ take n self.old ++ drop n into.old) }
        ensures left { IfOk result (λ n. self.new ≡ drop n self.old) }
    {
        let count = self.unread.len().min(into.len());
        let (given, left) = self.unread.split_at(count);
        into[..count].copy_from_slice(given);
        self.unread = left;
        Ok(count)
    }
}
