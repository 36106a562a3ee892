ghost use Rattle.std.specs.Prelude.{◌≡◌, ◌<◌, ◌≤◌, [], length, take, IfOk, OnErr};
ghost use Rattle.device_core.specs.Faults.{CountsFaults};
ghost use Rattle.device_core.specs.Flow.{Adds};
ghost use Rattle.device_core.specs.Store.{empty_store, stored, told};

use crate::failed::Failed;
use crate::room::Room;
use crate::sink::Sink;
use std::alloc::{AllocError, Global};
use std::marker::Model;

/// A sink in memory that never fails and takes each piece whole. It keeps the first bytes that come, as many as it has room
/// for; once one more has come, it tells its bytes no more. A contract sees what is stored.
#[derive(Drop)]
pub struct SureSink {
    room: Room,
}

impl Model for SureSink {
    ghost use Rattle.device_core.specs.Store.{Store};

    ghost Value = { Store };

    ghost view = { λ sink. sink.room };
}

impl SureSink {
    /// An empty sink with room for `room` bytes, which is made here.
    pub fn new(alloc: Global, room: usize) -> Result<SureSink, AllocError>
        ensures { IfOk result (λ sink. sink ≡ empty_store room) }
    {
        let room = Room::new(alloc, room)?;
        Ok(SureSink { room })
    }

    /// The bytes that it keeps: the first that came.
    pub fn written(&self) -> &[u8]
        ensures { result.now ≡ self.now.kept }
    {
        self.room.kept()
    }
}

impl Sink for SureSink {
    ghost written = { told };

    ghost faults = { λ _. 0 };

    fn give(&mut self, piece: &[u8]) -> Result<usize, Failed>
        ensures bound { IfOk result (λ n. n ≤ length piece.now) }
        ensures progress { IfOk result (λ n. 0 < length piece.now → 0 < n) }
        ensures added { IfOk result (λ n. Adds (told self.old) (told self.new) (take n piece.now)) }
        ensures kept { OnErr result (Adds (told self.old) (told self.new) []) }
        ensures counted { CountsFaults 0 0 result }

        // It never fails, and takes the whole piece.
        ensures whole { result ≡ Ok (length piece.now) }
        ensures stored { self.new ≡ stored self.old piece.now }
    {
        self.room.put(piece);
        Ok(piece.len())
    }
}
