// The files that a desk in memory has to read.
ghost use Rattle.std.specs.Prelude.{◌≡◌, ◌<◌, ◌+◌, ◌^◌, length, Some, None, MatchOption};
ghost use Rattle.pb_desk.specs.Memory.{shelf_of, bytes_at, left_of};

use pb_base::{Bytes, Seq, Text};

/// A file to read.
#[derive(Drop)]
pub struct Named {
    pub name: Text,
    pub bytes: Bytes,
}

/// The files to read. Of two with one name the first counts.
pub type Shelf = Seq<Named>;

/// Which file a slot reads, and from where on.
#[derive(Clone, Copy)]
pub struct Reading {
    pub file: usize,
    pub place: usize,
}

/// The place of the first file of the name.
pub fn find(shelf: &[Named], name: &str) -> Option<usize>
    ensures { MatchOption result (shelf_of shelf.now name.now ≡ None) (λ i. shelf_of shelf.now name.now ≡ Some (bytes_at shelf.now i)) }
{
    for (i, file) in shelf.iter().enumerate() {
        if file.name.as_str() == name {
            return Some(i);
        }
    }
    None
}

/// What is left of a file from a place on.
pub fn rest_of(shelf: &[Named], reading: Reading) -> &[u8]
    ensures left { result.now ≡ left_of shelf.now (Some reading) }
    ensures fits { reading.place + length result.now < 2 ^ 64 }
{
    match shelf.get(reading.file) {
        Some(file) if reading.place < file.bytes.len() => &file.bytes.as_slice()[reading.place..],
        _ => &[],
    }
}
