// The trait, and what each call promises.
ghost use Rattle.std.specs.Prelude.{◌≡◌, ◌≤◌, ◌<◌, ◌==◌, ℕ, length, take, false, IsTrue, IsSome, IsNone, IfSome, IfOk, OnOk, OnErr};
ghost use Rattle.pb_desk.specs.View.{put, opened, taken, created, wrote, closed, spoke};
ghost use Rattle.pb_desk.specs.Desk.{DeskState, Reads, Reaches, FailsToRead, FailsToWrite, same, IsSteady, IfTold, IfKept, IsTold, Gives, TakesSome, is_last, HasName, HasSlot, IsTaken, LacksRoom, FitsRoom, written, words};

use pb_base::Failed;

// A piece of at most so many bytes is smaller than a whole one.
const LAST: usize = 65_472;

/// True if a piece of which so many bytes were taken ends its file.
pub fn is_file_end(piece: &[u8], count: usize) -> bool
    // It does iff it is smaller than a whole one and was taken whole.
    ensures { result ≡ is_last piece.now count }
{
    piece.len() <= LAST && count == piece.len()
}

/// Files to read in slots 0 to 4, files to write in slots 0 and 1, and a place to speak.
pub trait Desk {
    /// What the desk shows, how often reading and writing have failed, of which slots the end was met, of which files the last piece was
    /// written, and whether it has kept to what it tells.
    ghost state: { Self → DeskState };

    /// Opens a file to read.
    fn open(&mut self, slot: u8, name: &str) -> Result<(), Failed>
        requires kind { slot < 5 }
        requires free { (state self.old).view.reading slot ≡ false }
        // On success the slot is open at the begin of the file, and no count changed.
        ensures ok { OnOk result (Reads (opened slot name.now) (state self.old) (state self.new)) }
        // On success the end of the slot was not met, and those of other slots are as they were.
        ensures begun { OnOk result ((state self.new).ended ≡ put (state self.old).ended slot false) }
        // On failure the count of failed reads rose by one, or has reached 2^64 - 1, and nothing else changed.
        ensures failed { OnErr result (FailsToRead same (state self.old) (state self.new)) }
        // A visible desk that keeps to what it tells has a file that it opens.
        ensures found { OnOk result (IfKept (state self.old) (state self.new) (λ t. IsSome (t.shelf name.now))) }
        // On a steady desk it fails only if there is no such file.
        ensures steady { IsSteady (state self.old) → OnErr result (IsTold (state self.old) (λ t. IsNone (t.shelf name.now))) }
        // On failure the ends that were met are as they were.
        ensures no_end { OnErr result ((state self.new).ended ≡ (state self.old).ended) };

    /// Reads the next bytes into the room, which is for a whole piece. None are the end, behind which nothing is asked for.
    fn read(&mut self, slot: u8, room: &mut [u8]) -> Result<usize, Failed>
        requires kind { slot < 5 }
        requires open { IsTrue ((state self.old).view.reading slot) }
        requires not_ended { (state self.old).ended slot ≡ false }
        requires whole { 65536 ≤ length room.old }
        // On success so many bytes were read from the slot, and no count of failed calls changed.
        ensures ok { IfOk result (λ count. Reads (taken slot count) (state self.old) (state self.new)) }
        // On failure the count of failed reads rose by one, or has reached 2^64 - 1, and nothing else changed.
        ensures failed { OnErr result (FailsToRead same (state self.old) (state self.new)) }
        // The number of bytes is at most the room's.
        ensures count { IfOk result (λ count. count ≤ length room.new) }
        // On a visible desk that keeps to what it tells the bytes are the next ones, and there are none, for some room, only at the end.
        ensures bytes { IfOk result (λ count. IfKept (state self.old) (state self.new) (λ t. Gives (t.left slot) count room.new)) }
        // On a steady desk no read fails.
        ensures steady { IsSteady (state self.old) → OnErr result ⊥ }
        // On success the end of the slot was met iff no byte was read, and those of other slots are as they were.
        ensures ended { IfOk result (λ count. (state self.new).ended ≡ put (state self.old).ended slot (count == 0)) }
        // On failure the ends that were met are as they were.
        ensures no_end { OnErr result ((state self.new).ended ≡ (state self.old).ended) };

    /// Makes an empty file to write.
    fn create(&mut self, slot: u8, name: &str) -> Result<(), Failed>
        requires kind { slot < 2 }
        requires free { (state self.old).view.writing slot ≡ false }
        // On success an empty file of this name is open in the slot, and no count changed.
        ensures ok { OnOk result (Reaches (created slot name.now) (state self.old) (state self.new)) }
        // On success the last piece of the file was not written, and of other files it is as it was.
        ensures begun { OnOk result ((state self.new).finished ≡ put (state self.old).finished slot false) }
        // On failure the count of failed writes rose by one, or has reached 2^64 - 1, and nothing else changed.
        ensures failed { OnErr result (FailsToWrite same (state self.old) (state self.new)) }
        // A steady desk makes no name twice.
        ensures fresh { IsSteady (state self.old) → OnOk result (IfTold (state self.old) (λ t. HasName name.now t.made → ⊥)) }
        // On a steady desk it fails only if the name or the slot was used, or the name has more than 255 bytes.
        ensures steady { IsSteady (state self.old) → OnErr result (IsTold (state self.old) (λ t. IsTaken slot name.now t.made)) };

    /// Appends a first part of the piece. A piece of at most 65,472 bytes that is taken whole is the last one of its file, behind which
    /// nothing is written.
    fn write(&mut self, slot: u8, piece: &[u8]) -> Result<usize, Failed>
        requires kind { slot < 2 }
        requires open { IsTrue ((state self.old).view.writing slot) }
        requires not_finished { (state self.old).finished slot ≡ false }
        // On success a first part of the piece was appended, and no count changed.
        ensures ok { IfOk result (λ count. Reaches (wrote slot (take count piece.now)) (state self.old) (state self.new)) }
        // On failure the count of failed writes rose by one, or has reached 2^64 - 1, and nothing else changed.
        ensures failed { OnErr result (FailsToWrite same (state self.old) (state self.new)) }
        // Of a piece with bytes at least one was written.
        ensures count { IfOk result (TakesSome piece.now) }
        // On a steady desk it fails only if there is no room for a byte.
        ensures steady { IsSteady (state self.old) → OnErr result (LacksRoom (written slot) 1 (state self.old)) }
        // On success the last piece of the file was written iff the piece is smaller than a whole one and was taken whole; of other files it
        // is as it was.
        ensures finished { IfOk result (λ count. (state self.new).finished ≡ put (state self.old).finished slot (is_last piece.now count)) }
        // On failure the files whose last pieces were written are as they were.
        ensures unfinished { OnErr result ((state self.new).finished ≡ (state self.old).finished) };

    /// Ends a file.
    fn close(&mut self, slot: u8) -> Result<(), Failed>
        requires kind { slot < 2 }
        requires open { IsTrue ((state self.old).view.writing slot) }
        // On success the file is closed, and no count changed.
        ensures ok { OnOk result (Reaches (closed slot) (state self.old) (state self.new)) }
        // On failure the count of failed writes rose by one, or has reached 2^64 - 1, and nothing else changed.
        ensures failed { OnErr result (FailsToWrite same (state self.old) (state self.new)) }
        // On a steady desk no close fails.
        ensures steady { IsSteady (state self.old) → OnErr result ⊥ };

    /// Says a first part of the piece.
    fn say(&mut self, piece: &[u8]) -> Result<usize, Failed>
        // On success a first part of the piece was printed, and no count changed.
        ensures ok { IfOk result (λ count. Reaches (spoke (take count piece.now)) (state self.old) (state self.new)) }
        // On failure the count of failed writes rose by one, or has reached 2^64 - 1, and nothing else changed.
        ensures failed { OnErr result (FailsToWrite same (state self.old) (state self.new)) }
        // Of a piece with bytes at least one was printed.
        ensures count { IfOk result (TakesSome piece.now) }
        // On a steady desk it fails only if there is no room for a byte.
        ensures steady { IsSteady (state self.old) → OnErr result (LacksRoom words 1 (state self.old)) };

    /// On a visible desk an open slot to write has a file.
    ghost open_has_file: { (desk : Self) (slot : ℕ) → IsTrue ((state desk).view.writing slot) → IfTold (state desk) (λ t. HasSlot slot t.made) };

    /// A steady desk is visible.
    ghost steady_tells: { (desk : Self) → IsSteady (state desk) → IsSome (state desk).view.told };

    /// A steady desk keeps to what it tells.
    ghost steady_keeps: { (desk : Self) → IsSteady (state desk) → IsTrue (state desk).keeps };

    /// A steady desk has a known room.
    ghost steady_has_room: { (desk : Self) → IsSteady (state desk) → IsSome (state desk).view.room };

    /// On a visible desk whose room is known, what was made and printed fits it.
    ghost fits_room: { (desk : Self) → IfSome (state desk).view.room (λ most. IfTold (state desk) (FitsRoom most)) };
}
