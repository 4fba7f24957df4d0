// What the desk asks of the system.
ghost use Rattle.std.specs.Prelude.{◌≡◌, ◌≤◌, ◌<◌, List, length, take, IfOk};
ghost use Rattle.std.specs.declared.option.Option.{Option};
ghost use Rattle.pb_files.specs.declared.file_id.FileId.{FileId};
ghost use Rattle.pb_files.specs.Calls.{Call, answered, with_call};
ghost use Rattle.pb_files.specs.Calls.Call.{open_file as opens, create as creates, truncate as truncates, read as reads, write as writes, sync as syncs, say as says};
ghost use Rattle.pb_files.specs.Replay.{Shelf};

use crate::FileId;
use pb_base::Failed;

/// A system of files and words. Each call keeps what was asked and what was answered, where calls are kept.
pub trait System {
    /// The calls so far, the newest first, where they are kept.
    ghost calls: { Self → Option (List Call) };

    /// What each name held at the start, as far as theorems suppose. No answer has to be what these files give.
    ghost files: { Self → Shelf };

    /// Which file standard output is, if it is one.
    ghost output: { Self → Option FileId };

    /// Returns the identity of standard output; `None` if it is closed, a terminal or another device.
    fn output(&self) -> Option<FileId>
        // The file is the one that standard output is, if it is one.
        ensures told { result ≡ output self.now };

    /// Opens a file to read in a slot. It says which file that is, if the system tells.
    fn open(&mut self, slot: u8, name: &str) -> Result<Option<FileId>, Failed>
        requires { slot < 5 }
        // The call and its answer are added to the log of calls, if one is kept.
        ensures asked { calls self.new ≡ with_call (opens slot name.now (answered (λ id. id) result)) (calls self.old) }
        // The files that are supposed stay.
        ensures files { files self.new ≡ files self.old };

    /// Opens a file to write in a slot, as it is, or makes one. It says which file that is, if the system tells.
    fn create(&mut self, slot: u8, name: &str) -> Result<Option<FileId>, Failed>
        requires { slot < 2 }
        // The call and its answer are added to the log of calls, if one is kept.
        ensures asked { calls self.new ≡ with_call (creates slot name.now (answered (λ id. id) result)) (calls self.old) }
        // The files that are supposed stay.
        ensures files { files self.new ≡ files self.old };

    /// Takes all bytes out of the file in a slot to write.
    fn truncate(&mut self, slot: u8) -> Result<(), Failed>
        requires { slot < 2 }
        // The call and its answer are added to the log of calls, if one is kept.
        ensures asked { calls self.new ≡ with_call (truncates slot (answered (λ u. tt) result)) (calls self.old) }
        // The files that are supposed stay.
        ensures files { files self.new ≡ files self.old };

    /// Reads the next bytes of the file in a slot into the room. None into some room is the end.
    fn read(&mut self, slot: u8, room: &mut [u8]) -> Result<usize, Failed>
        requires { slot < 5 }
        // The call and its answer are added to the log of calls, if one is kept.
        ensures asked { calls self.new ≡ with_call (reads slot (length room.old) (answered (λ count. take count room.new) result)) (calls self.old) }
        // The number of bytes is at most the room's.
        ensures count { IfOk result (λ count. count ≤ length room.new) }
        // The files that are supposed stay.
        ensures files { files self.new ≡ files self.old };

    /// Appends a first part of the piece to the file in a slot to write.
    fn write(&mut self, slot: u8, piece: &[u8]) -> Result<usize, Failed>
        requires { slot < 2 }
        // The call and its answer are added to the log of calls, if one is kept.
        ensures asked { calls self.new ≡ with_call (writes slot piece.now (answered (λ count. count) result)) (calls self.old) }
        // The number of bytes is at most the piece's.
        ensures count { IfOk result (λ count. count ≤ length piece.now) }
        // The files that are supposed stay.
        ensures files { files self.new ≡ files self.old };

    /// Waits until the disk has the bytes of the file in a slot to write. Of the name of a new file, which stands in its folder, nothing
    /// is said.
    fn sync(&mut self, slot: u8) -> Result<(), Failed>
        requires { slot < 2 }
        // The call and its answer are added to the log of calls, if one is kept.
        ensures asked { calls self.new ≡ with_call (syncs slot (answered (λ u. tt) result)) (calls self.old) }
        // The files that are supposed stay.
        ensures files { files self.new ≡ files self.old };

    /// Prints a first part of the piece.
    fn say(&mut self, piece: &[u8]) -> Result<usize, Failed>
        // The call and its answer are added to the log of calls, if one is kept.
        ensures asked { calls self.new ≡ with_call (says piece.now (answered (λ count. count) result)) (calls self.old) }
        // The number of bytes is at most the piece's.
        ensures count { IfOk result (λ count. count ≤ length piece.now) }
        // The files that are supposed stay.
        ensures files { files self.new ≡ files self.old };
}
