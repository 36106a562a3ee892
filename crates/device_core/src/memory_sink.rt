ghost use Rattle.std.specs.Prelude.{◌≡◌, ℕ, ◌<◌, ◌≤◌, ◌↔◌, [], length, take, min, IfOk, IsErr, OnErr};
ghost use Rattle.device_core.specs.Calls.{at_start, after_ok, after_fault, NextFails};
ghost use Rattle.device_core.specs.Faults.{CountsFaults};
ghost use Rattle.device_core.specs.Flow.{Adds};
ghost use Rattle.device_core.specs.Store.{empty_store, stored, told};

use crate::failed::Failed;
use crate::room::Room;
use crate::schedule::Schedule;
use crate::sink::Sink;
use std::alloc::{AllocError, Global};
use std::marker::Model;

/// A sink in memory that takes at most so many bytes a call and fails at the calls that it is told. It keeps the first
/// bytes that come, as many as it has room for; once one more has come, it tells its bytes no more. A contract sees what
/// is stored, the most bytes of a call, and the calls.
#[derive(Drop)]
pub struct MemorySink {
    room: Room,
    most: usize,
    schedule: Schedule,
}

impl Model for MemorySink {
    ghost use Rattle.std.specs.Prelude.{◌<◌};
    ghost use Rattle.device_core.specs.Memory.{SinkState};

    ghost Value = { SinkState };

    ghost view = { λ sink. record { store = sink.room; most = sink.most; calls = sink.schedule } };

    ghost invariant = { λ sink. 0 < sink.most };
}

impl MemorySink {
    /// An empty sink with room for `room` bytes, which is made here. `failing` has the numbers of the calls that fail, the
    /// first call being 1.
    pub fn new(
        alloc: Global,
        room: usize,
        most: usize,
        failing: Vec<usize>,
    ) -> Result<MemorySink, AllocError>
        requires { 0 < most }
        ensures { IfOk result (λ sink. sink ≡ record {
          store = empty_store room;
          most = most;
          calls = at_start failing.items;
        }) }
    {
        let room = Room::new(alloc, room)?;
        Ok(MemorySink {
            room,
            most,
            schedule: Schedule::new(failing),
        })
    }

    /// The bytes that it keeps: the first that came.
    pub fn written(&self) -> &[u8]
        ensures { result.now ≡ self.now.store.kept }
    {
        self.room.kept()
    }
}

impl Sink for MemorySink {
    ghost written = { λ sink. told sink.store };

    ghost faults = { λ sink. sink.calls.faults };

    fn give(&mut self, piece: &[u8]) -> Result<usize, Failed>
        ensures bound { IfOk result (λ n. n ≤ length piece.now) }
        ensures progress { IfOk result (λ n. 0 < length piece.now → 0 < n) }
        ensures added { IfOk result (λ n. Adds (told self.old.store) (told self.new.store) (take n piece.now)) }
        ensures kept { OnErr result (Adds (told self.old.store) (told self.new.store) []) }
        ensures counted { CountsFaults self.old.calls.faults self.new.calls.faults result }

        // Exactly which calls fail, how many bytes a call takes, and what is then stored.
        ensures fails { IsErr result ↔ NextFails self.old.calls }
        ensures count { IfOk result (λ n. n ≡ min self.old.most (length piece.now)) }
        ensures stored { IfOk result (λ n. self.new ≡ record self.old {
          store = stored self.old.store (take n piece.now);
          calls = after_ok self.old.calls;
        }) }
        ensures failed { OnErr result (self.new ≡ record self.old { calls = after_fault self.old.calls }) }
    {
        self.schedule.call()?;
        let count = piece.len().min(self.most);
        self.room.put(&piece[..count]);
        Ok(count)
    }
}
