// Bytes in room that is reserved once.
ghost use Rattle.std.specs.Prelude.{◌≡◌, ◌≤◌, ◌++◌, ◌-◌, [], length, take, min, vec_capacity, IfOk, IsTrue, ◌↔◌};

use std::alloc::{AllocError, Global};

/// Bytes that grow up to the room reserved for them, and take no more memory.
#[derive(Drop)]
pub struct Buffer {
    pub bytes: Vec<u8>,
    pub room: usize,
    pub ghost reserved: { room ≤ vec_capacity bytes },
    pub ghost in_room: { length bytes.items ≤ room },
}

impl Buffer {
    /// No bytes yet, with this room.
    pub fn new(alloc: Global, room: usize) -> Result<Self, AllocError>
        ensures empty { IfOk result (λ buffer. buffer.bytes.items ≡ []) }
        ensures room { IfOk result (λ buffer. buffer.room ≡ room) }
    {
        Ok(Buffer {
            bytes: Vec::with_capacity(alloc, room)?,
            room,
        })
    }

    /// Appends what there is room for, and says how many bytes.
    pub fn append(&mut self, piece: &[u8]) -> usize
        ensures count { result ≡ min (length piece.now) (self.old.room - length self.old.bytes.items) }
        ensures bytes { self.new.bytes.items ≡ self.old.bytes.items ++ take result piece.now }
        ensures room { self.new.room ≡ self.old.room }
    {
        let count = piece.len().min(self.room - self.bytes.len());
        match self.bytes.extend_from_slice(&piece[..count]) {
            Ok(()) => count,
            Err(AllocError) => unreachable!(),
        }
    }

    /// Whether there is no room left.
    pub fn is_full(&self) -> bool
        ensures { IsTrue result ↔ (length self.now.bytes.items ≡ self.now.room) }
    {
        self.bytes.len() == self.room
    }
}
