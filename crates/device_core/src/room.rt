ghost use Rattle.std.specs.Prelude.{◌≡◌, IfOk};
ghost use Rattle.device_core.specs.Store.{empty_store, stored};

use std::alloc::{AllocError, Global};
use std::marker::Model;

/// A room of fixed size for a sink's bytes. It keeps the first that come, and drops those past its size.
#[derive(Drop)]
pub struct Room {
    kept: Vec<u8>,
    size: usize,
    overrun: bool,
}

impl Model for Room {
    ghost use Rattle.std.specs.Prelude.{◌≤◌, vec_len, vec_capacity};
    ghost use Rattle.device_core.specs.Store.{Store};

    ghost Value = { Store };

    ghost view = { λ room. record { kept = room.kept.items; size = room.size; overrun = room.overrun } };

    ghost invariant = { λ room. (vec_len room.kept ≤ room.size) × (room.size ≤ vec_capacity room.kept) };
}

impl Room {
    /// An empty room of this many bytes.
    pub fn new(alloc: Global, size: usize) -> Result<Room, AllocError>
        ensures { IfOk result (λ room. room ≡ empty_store size) }
    {
        let kept = Vec::with_capacity(alloc, size)?;
        Ok(Room {
            kept,
            size,
            overrun: false,
        })
    }

    /// The bytes that are kept.
    pub fn kept(&self) -> &[u8]
        ensures { result.now ≡ self.now.kept }
    {
        &self.kept
    }

    /// Takes these bytes in, which needs no memory.
    pub fn put(&mut self, bytes: &[u8])
        ensures { self.new ≡ stored self.old bytes.now }
    {
        let count = bytes.len().min(self.size - self.kept.len());
        self.kept.extend_from_slice(&bytes[..count]).unwrap();
        if count < bytes.len() {
            self.overrun = true;
        }
    }
}
