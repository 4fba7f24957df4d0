// What a file is known by.

/// A file of the system, whatever its names: its device, and its number there (inode).
#[derive(Clone, Copy)]
pub struct FileId {
    pub device: u64,
    pub number: u64,
}
