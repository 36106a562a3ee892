ghost use Rattle.std.specs.Prelude.{◌≡◌, ◌++◌, length, take, drop, min};

use std::marker::Model;

/// The bytes that a source in memory has still to give. A contract sees them as a list.
#[derive(Drop)]
pub struct Unread {
    bytes: Vec<u8>,
    at: usize,
}

impl Model for Unread {
    ghost use Rattle.std.specs.Prelude.{ℕ, ◌≤◌, List, drop, vec_len};

    ghost Value = { List ℕ };

    ghost view = { λ unread. drop unread.at unread.bytes.items };

    ghost invariant = { λ unread. unread.at ≤ vec_len unread.bytes };
}

impl Unread {
    /// All these bytes are still to be given.
    pub fn new(bytes: Vec<u8>) -> Unread
        ensures { result ≡ bytes.items }
    {
        Unread { bytes, at: 0 }
    }

    /// Gives the next bytes, at most `most`, and answers how many.
    pub fn give(&mut self, into: &mut [u8], most: usize) -> usize
        ensures count { result ≡ min (min (length self.old) most) (length into.old) }
        ensures copied { into.new ≡ take result self.old ++ drop result into.old }
        ensures given { self.old ≡ take result into.new ++ self.new }
        ensures left { self.new ≡ drop result self.old }
    {
        let rest = &self.bytes[self.at..];
        let count = rest.len().min(most).min(into.len());
        into[..count].copy_from_slice(&rest[..count]);
        self.at += count;
        count
    }
}
