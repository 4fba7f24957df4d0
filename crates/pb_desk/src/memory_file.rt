// The files that a desk in memory makes.
ghost use Rattle.std.specs.Prelude.{◌≡◌, ◌≤◌, [], true, false, IsTrue, ◌↔◌, length, IfOk};

use crate::buffer::Buffer;
use std::alloc::{AllocError, Global};

/// The longest name that a file may be made under.
pub const NAME_ROOM: usize = 255;

/// A file to write, made or not yet.
#[derive(Drop)]
pub struct MemoryFile {
    pub is_made: bool,
    pub is_open: bool,
    pub name: Buffer,
    pub bytes: Buffer,
    pub ghost blank: { is_made ≡ false → (name.bytes.items ≡ []) × (bytes.bytes.items ≡ []) },
    pub ghost open_is_made: { is_open ≡ true → is_made ≡ true },
}

impl MemoryFile {
    /// A file that is not made yet, with room for its name and its bytes.
    pub fn new(alloc: Global, room: usize) -> Result<Self, AllocError>
        ensures not_made { IfOk result (λ memory_file. memory_file.is_made ≡ false) }
        ensures closed { IfOk result (λ memory_file. memory_file.is_open ≡ false) }
        ensures name_room { IfOk result (λ memory_file. memory_file.name.room ≡ 255) }
        ensures room { IfOk result (λ memory_file. memory_file.bytes.room ≡ room) }
    {
        Ok(MemoryFile {
            is_made: false,
            is_open: false,
            name: Buffer::new(alloc, NAME_ROOM)?,
            bytes: Buffer::new(alloc, room)?,
        })
    }

    /// Makes the file, with nothing in it yet.
    pub fn make(&mut self, name: &str)
        requires room { self.old.name.room ≡ 255 }
        requires short { length name.now ≤ 255 }
        requires blank { self.old.name.bytes.items ≡ [] }
        ensures made { self.new.is_made ≡ true }
        ensures open { self.new.is_open ≡ true }
        ensures name { self.new.name.bytes.items ≡ name.now }
        ensures name_room { self.new.name.room ≡ 255 }
        ensures bytes { self.new.bytes ≡ self.old.bytes }
    {
        self.is_made = true;
        self.is_open = true;
        self.name.append(name.as_bytes());
    }

    /// Whether it was made under this name.
    pub fn has_name(&self, name: &str) -> bool
        ensures { IsTrue result ↔ ((self.now.is_made ≡ true) × (self.now.name.bytes.items ≡ name.now)) }
    {
        self.is_made && self.name.bytes.as_slice() == name.as_bytes()
    }
}
