ghost use Rattle.std.specs.Prelude.{◌≡◌, ℕ, ◌<◌, ◌≤◌, ◌↔◌, [], ◌++◌, length, take, drop, min, Some, IfOk, IsErr, OnErr};
ghost use Rattle.device_core.specs.Calls.{at_start, after_ok, after_fault, NextFails};
ghost use Rattle.device_core.specs.Faults.{CountsFaults};
ghost use Rattle.device_core.specs.Flow.{Consumes, IsAtEnd};

use crate::failed::Failed;
use crate::schedule::Schedule;
use crate::source::Source;
use crate::unread::Unread;
use std::marker::Model;

/// A source in memory that gives at most so many bytes a call and fails at the calls that it is told. A contract sees the
/// bytes left, that number, and the calls.
#[derive(Drop)]
pub struct MemorySource {
    unread: Unread,
    most: usize,
    schedule: Schedule,
}

impl Model for MemorySource {
    ghost use Rattle.std.specs.Prelude.{◌<◌};
    ghost use Rattle.device_core.specs.Memory.{SourceState};

    ghost Value = { SourceState };

    ghost view = { λ source. record { left = source.unread; most = source.most; calls = source.schedule } };

    ghost invariant = { λ source. 0 < source.most };
}

impl MemorySource {
    /// A source of these bytes. `failing` has the numbers of the calls that fail, the first call being 1.
    pub fn new(bytes: Vec<u8>, most: usize, failing: Vec<usize>) -> MemorySource
        requires { 0 < most }
        ensures { result ≡ record { left = bytes.items; most = most; calls = at_start failing.items } }
    {
        MemorySource {
            unread: Unread::new(bytes),
            most,
            schedule: Schedule::new(failing),
        }
    }
}

impl Source for MemorySource {
    ghost unread = { λ source. Some source.left };

    ghost faults = { λ source. source.calls.faults };

    fn take(&mut self, into: &mut [u8]) -> Result<usize, Failed>
        ensures bound { IfOk result (λ n. n ≤ length into.new) }
        ensures given { IfOk result (λ n. Consumes (Some self.old.left) (Some self.new.left) (take n into.new)) }
        ensures end { result ≡ Ok 0 → 0 < length into.old → IsAtEnd (Some self.new.left) }
        ensures kept { OnErr result (Consumes (Some self.old.left) (Some self.new.left) []) }
        ensures counted { CountsFaults self.old.calls.faults self.new.calls.faults result }

        // Exactly which calls fail, how many bytes a call gives, and what is then left.
        ensures fails { IsErr result ↔ NextFails self.old.calls }
        ensures count { IfOk result (λ n. n ≡ min (min (length self.old.left) self.old.most) (length into.old)) }
        ensures copied { IfOk result (λ n. into.new ≡ take n self.old.left ++ drop n into.old) }
        ensures left { IfOk result (λ n. self.new ≡ record self.old {
          left = drop n self.old.left;
          calls = after_ok self.old.calls;
        }) }
        ensures failed { OnErr result (self.new ≡ record self.old { calls = after_fault self.old.calls }) }
        ensures untouched { OnErr result (into.new ≡ into.old) }
    {
        self.schedule.call()?;
        Ok(self.unread.give(into, self.most))
    }
}
