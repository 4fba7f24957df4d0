//! Desks in memory with a text to read.

ghost use Rattle.std.specs.Prelude.{◌≤◌, IfOk};
ghost use Rattle.pb_desk.specs.Desk.{IsClosed};

use pb_base::{Bytes, Ids, NoMemory, Seq, Text};
use pb_desk::{Desk, MemoryDesk, Named};
use std::alloc::Global;

/// A file of this name and these bytes.
pub fn named(alloc: Global, name: &str, bytes: &[u8]) -> Result<Named, NoMemory> {
    let name = Text::from_string(name.to_string(alloc)?);
    let bytes = Bytes::from_vec(bytes.to_vec(alloc)?);
    Ok(Named { name, bytes })
}

/// A desk with the file `in` of these bytes, whose call of this number fails; of number 0 there is none. A call moves at most
/// `piece` bytes; each file and what is said have `room` bytes.
pub fn desk_with(
    alloc: Global,
    bytes: &[u8],
    fails: u64,
    piece: usize,
    room: usize,
) -> Result<MemoryDesk, NoMemory>
    requires { 1 ≤ piece }
    ensures { IfOk result (λ desk. IsClosed (⟦<MemoryDesk as Desk>⟧.state desk)) }
{
    let fails = Ids::from_vec(vec![in alloc; fails]?);
    let files = Seq::from_vec(vec![in alloc; named(alloc, "in", bytes)?]?);
    MemoryDesk::new(alloc, files, fails, piece, room)
}
