// The desk of a system.
ghost use Rattle.std.specs.Prelude.{◌≡◌, ℕ, replicate, None, true};
ghost use Rattle.std.specs.Option.{option_map, option_map_or, ForSome};
ghost use Rattle.pb_desk.specs.Desk.{DeskState, IsClosed};
ghost use Rattle.pb_files.specs.Asked.{marked, Asked};
ghost use Rattle.pb_files.specs.Pieces.{is_finished, is_over, moves_pieces, IsByPieces};
ghost use Rattle.pb_files.specs.Replay.{answers_as, has_slot, made_of, told_of};

use crate::known::is_known;
use crate::{FileId, System};
use pb_base::{Failed, FaultCount};
use pb_desk::{Desk, is_file_end};

/// The state of a desk over a system, and the log of the calls that it made.
pub trait Asks {
    ghost shown: { Self → DeskState };

    ghost asked: { Self → Asked };

    /// The desk tells what its calls show over the files that are supposed.
    ghost shows: { (desk : Self) → (shown desk).view.told ≡ option_map (told_of (asked desk).files) (asked desk).calls };

    /// The desk keeps to what it tells iff each answer was what the supposed files give.
    ghost answers: { (desk : Self) → (shown desk).keeps ≡ option_map_or (answers_as (asked desk).files) (asked desk).calls true };

    /// The desk reads and writes by whole pieces: its calls of a system that moves each piece whole are few.
    ghost by_pieces: { (desk : Self) → ForSome (asked desk).calls (IsByPieces (asked desk).files) };
}

/// The files and words of a system, each of whose answers is the system's. As a desk it tells what the system's calls show, where they
/// are kept, over the files that are supposed; it keeps to that as long as each answer is what those files give. It never makes, and so
/// never empties, what standard output is, nor a file that a slot has, or had last: in a run, which uses each slot at most once, no file
/// that it opened or made.
#[derive(Drop)]
pub struct RealDesk<S: System + Drop> {
    system: S,
    reading: [bool; 5],
    writing: [bool; 2],
    known: [Option<FileId>; 7],
    output: Option<FileId>,
    read_faults: FaultCount,
    write_faults: FaultCount,
    over: [bool; 5],
    finished: [bool; 2],
    ghost moves: { ForSome (S.calls system) (λ calls. moves_pieces calls ≡ true) },
    ghost at_ends: { (slot : ℕ) → marked reading slot ≡ true → ForSome (S.calls system) (λ calls. is_over slot calls ≡ marked over slot) },
    ghost at_lasts: { (slot : ℕ) → marked writing slot ≡ true → ForSome (S.calls system) (λ calls. is_finished slot calls ≡ marked finished slot) },
    ghost has_file: { (slot : ℕ) → marked writing slot ≡ true → ForSome (S.calls system) (λ calls. has_slot slot (made_of calls) ≡ true) },
}

impl<S: System + Drop> Asks for RealDesk<S> {
    ghost use Rattle.std.specs.Prelude.{refl};
    ghost use Rattle.pb_files.specs.Asked.{replayed};
    ghost use Rattle.pb_files.specs.inner.PieceLaws.{all_by_pieces};

    ghost shown = { λ desk. replayed (S.files desk.system) (S.calls desk.system) desk.reading desk.writing desk.read_faults desk.write_faults desk.over desk.finished };

    ghost asked = { λ desk. record { files = S.files desk.system; calls = S.calls desk.system; known = desk.known; output = desk.output } };

    ghost shows = { λ desk. refl };

    ghost answers = { λ desk. refl };

    ghost by_pieces = { λ desk. all_by_pieces (S.files desk.system) (S.calls desk.system) desk.moves };
}

impl<S: System + Drop> RealDesk<S> {
    /// Makes the desk of a system, with nothing open and no fault counted. Of files it knows standard output alone. The calls that the
    /// system recorded before went by whole pieces.
    pub fn new(system: S) -> Self
        requires pieces { ForSome (S.calls system) (λ calls. moves_pieces calls ≡ true) }
        // Nothing is open.
        ensures closed { IsClosed (⟦<RealDesk<S> as Desk>⟧.state result) }
        // The desk shows what the calls up to now show over the files that are supposed, and is not visible where no calls are kept.
        ensures tells { (⟦<RealDesk<S> as Desk>⟧.state result).view.told ≡ option_map (told_of (S.files system)) (S.calls system) }
        // No read has failed.
        ensures no_reads { (⟦<RealDesk<S> as Desk>⟧.state result).read_faults ≡ 0 }
        // No write has failed.
        ensures no_writes { (⟦<RealDesk<S> as Desk>⟧.state result).write_faults ≡ 0 }
        // The files that are supposed are the system's.
        ensures files { (⟦<RealDesk<S> as Asks>⟧.asked result).files ≡ S.files system }
        // The log of calls is the system's.
        ensures asks { (⟦<RealDesk<S> as Asks>⟧.asked result).calls ≡ S.calls system }
        // What standard output is, is what the system says.
        ensures output { (⟦<RealDesk<S> as Asks>⟧.asked result).output ≡ S.output system }
        // Besides that the desk knows no file.
        ensures knows_none { (⟦<RealDesk<S> as Asks>⟧.asked result).known ≡ replicate 7 None }
    {
        let output = system.output();
        RealDesk {
            system,
            reading: [false; 5],
            writing: [false; 2],
            known: [None; 7],
            output,
            read_faults: FaultCount::new(),
            write_faults: FaultCount::new(),
            over: [false; 5],
            finished: [false; 2],
        }
    }
}

// Each call has the trait's clauses, and two or three of its own, which say what the system was asked, and that the answer
// is the system's.
impl<S: System + Drop> Desk for RealDesk<S> {
    ghost use Rattle.std.specs.Prelude.{◌≡◌, ◌≤◌, ◌<◌, ◌⊎◌, ◌==◌, length, take, false, IsTrue, IsSome, IsNone, IfOk, OnOk, OnErr, Some, None};
    ghost use Rattle.pb_desk.specs.View.{put, opened, taken, created, wrote, closed, spoke};
    ghost use Rattle.pb_desk.specs.Desk.{Reads, Reaches, FailsToRead, FailsToWrite, same, IsSteady, IfTold, IfKept, IsTold, Gives, TakesSome, is_last, HasName, IsTaken, LacksRoom, written, words};
    ghost use Rattle.pb_files.specs.Calls.Call.{open_file as opens, read as reads, write as writes, sync as syncs, say as says};
    ghost use Rattle.pb_files.specs.Asked.{after, Opens, Makes, Refuses};
    ghost use Rattle.pb_files.specs.inner.ReplayLaws.{open_files};

    ghost state = { ⟦<RealDesk<S> as Asks>⟧.shown };

    // Opens the file for reading, and notes its identity.
    fn open(&mut self, slot: u8, name: &str) -> Result<(), Failed>
        requires kind { slot < 5 }
        requires free { (⟦<RealDesk<S> as Asks>⟧.shown self.old).view.reading slot ≡ false }
        ensures ok { OnOk result (Reads (opened slot name.now) (⟦<RealDesk<S> as Asks>⟧.shown self.old) (⟦<RealDesk<S> as Asks>⟧.shown self.new)) }
        ensures begun { OnOk result ((⟦<RealDesk<S> as Asks>⟧.shown self.new).ended ≡ put (⟦<RealDesk<S> as Asks>⟧.shown self.old).ended slot false) }
        ensures failed { OnErr result (FailsToRead same (⟦<RealDesk<S> as Asks>⟧.shown self.old) (⟦<RealDesk<S> as Asks>⟧.shown self.new)) }
        ensures found { OnOk result (IfKept (⟦<RealDesk<S> as Asks>⟧.shown self.old) (⟦<RealDesk<S> as Asks>⟧.shown self.new) (λ t. IsSome (t.shelf name.now))) }
        ensures steady { IsSteady (⟦<RealDesk<S> as Asks>⟧.shown self.old) → OnErr result (IsTold (⟦<RealDesk<S> as Asks>⟧.shown self.old) (λ t. IsNone (t.shelf name.now))) }
        ensures no_end { OnErr result ((⟦<RealDesk<S> as Asks>⟧.shown self.new).ended ≡ (⟦<RealDesk<S> as Asks>⟧.shown self.old).ended) }
        // On success the system was called once, and opened this name in the slot.
        ensures opens { let asked = ⟦<RealDesk<S> as Asks>⟧.asked in OnOk result (Opens slot name.now (asked self.old) (asked self.new)) }
        // The call fails iff the system gave no file.
        ensures refused { let asked = ⟦<RealDesk<S> as Asks>⟧.asked in OnErr result (asked self.new ≡ after (opens slot name.now None) (asked self.old)) }
    {
        match self.system.open(slot, name) {
            Ok(id) => {
                self.known[slot as usize] = id;
                self.reading[slot as usize] = true;
                self.over[slot as usize] = false;
                Ok(())
            }
            Err(Failed) => Err(self.read_faults.rise()),
        }
    }

    // Reads into the room; no byte into some room is the end of the file.
    fn read(&mut self, slot: u8, room: &mut [u8]) -> Result<usize, Failed>
        requires kind { slot < 5 }
        requires open { IsTrue ((⟦<RealDesk<S> as Asks>⟧.shown self.old).view.reading slot) }
        requires not_ended { (⟦<RealDesk<S> as Asks>⟧.shown self.old).ended slot ≡ false }
        requires whole { 65536 ≤ length room.old }
        ensures ok { IfOk result (λ count. Reads (taken slot count) (⟦<RealDesk<S> as Asks>⟧.shown self.old) (⟦<RealDesk<S> as Asks>⟧.shown self.new)) }
        ensures failed { OnErr result (FailsToRead same (⟦<RealDesk<S> as Asks>⟧.shown self.old) (⟦<RealDesk<S> as Asks>⟧.shown self.new)) }
        ensures count { IfOk result (λ count. count ≤ length room.new) }
        ensures bytes { IfOk result (λ count. IfKept (⟦<RealDesk<S> as Asks>⟧.shown self.old) (⟦<RealDesk<S> as Asks>⟧.shown self.new) (λ t. Gives (t.left slot) count room.new)) }
        ensures steady { IsSteady (⟦<RealDesk<S> as Asks>⟧.shown self.old) → OnErr result ⊥ }
        ensures ended { IfOk result (λ count. (⟦<RealDesk<S> as Asks>⟧.shown self.new).ended ≡ put (⟦<RealDesk<S> as Asks>⟧.shown self.old).ended slot (count == 0)) }
        ensures no_end { OnErr result ((⟦<RealDesk<S> as Asks>⟧.shown self.new).ended ≡ (⟦<RealDesk<S> as Asks>⟧.shown self.old).ended) }
        // On success the system was called once, for this slot's file and so many bytes, and gave these; so the end is answered only if
        // the system said it.
        ensures given { let asked = ⟦<RealDesk<S> as Asks>⟧.asked in IfOk result (λ count. asked self.new ≡ after (reads slot (length room.old) (Some (take count room.new))) (asked self.old)) }
        // The call fails iff the system's read failed.
        ensures refused { let asked = ⟦<RealDesk<S> as Asks>⟧.asked in OnErr result (asked self.new ≡ after (reads slot (length room.old) None) (asked self.old)) }
    {
        match self.system.read(slot, room) {
            Ok(count) => {
                self.over[slot as usize] = count == 0;
                Ok(count)
            }
            Err(Failed) => Err(self.read_faults.rise()),
        }
    }

    // Opens the file and empties it, unless it is standard output or a file that a slot has or had last.
    fn create(&mut self, slot: u8, name: &str) -> Result<(), Failed>
        requires kind { slot < 2 }
        requires free { (⟦<RealDesk<S> as Asks>⟧.shown self.old).view.writing slot ≡ false }
        ensures ok { OnOk result (Reaches (created slot name.now) (⟦<RealDesk<S> as Asks>⟧.shown self.old) (⟦<RealDesk<S> as Asks>⟧.shown self.new)) }
        ensures begun { OnOk result ((⟦<RealDesk<S> as Asks>⟧.shown self.new).finished ≡ put (⟦<RealDesk<S> as Asks>⟧.shown self.old).finished slot false) }
        ensures failed { OnErr result (FailsToWrite same (⟦<RealDesk<S> as Asks>⟧.shown self.old) (⟦<RealDesk<S> as Asks>⟧.shown self.new)) }
        ensures fresh { IsSteady (⟦<RealDesk<S> as Asks>⟧.shown self.old) → OnOk result (IfTold (⟦<RealDesk<S> as Asks>⟧.shown self.old) (λ t. HasName name.now t.made → ⊥)) }
        ensures steady { IsSteady (⟦<RealDesk<S> as Asks>⟧.shown self.old) → OnErr result (IsTold (⟦<RealDesk<S> as Asks>⟧.shown self.old) (λ t. IsTaken slot name.now t.made)) }
        // On success the system opened this name as it was, and then emptied the file. As far as the system says,
        // it is neither standard output nor a file last opened or made in a slot.
        ensures makes { let asked = ⟦<RealDesk<S> as Asks>⟧.asked in OnOk result (Makes slot name.now (asked self.old) (asked self.new)) }
        // The call fails iff the system gave no file, or did not empty it, or the file is one of those; in the last case it was not
        // emptied.
        ensures refused { let asked = ⟦<RealDesk<S> as Asks>⟧.asked in OnErr result (Refuses slot name.now (asked self.old) (asked self.new)) }
    {
        let Ok(id) = self.system.create(slot, name) else {
            return Err(self.write_faults.rise());
        };
        if is_known(&[self.output], id) {
            return Err(self.write_faults.rise());
        }
        if is_known(&self.known, id) {
            return Err(self.write_faults.rise());
        }
        let Ok(()) = self.system.truncate(slot) else {
            return Err(self.write_faults.rise());
        };
        self.known[5 + slot as usize] = id;
        self.writing[slot as usize] = true;
        self.finished[slot as usize] = false;
        Ok(())
    }

    // Writes a first part of the piece; no byte of a piece with some is a fault.
    fn write(&mut self, slot: u8, piece: &[u8]) -> Result<usize, Failed>
        requires kind { slot < 2 }
        requires open { IsTrue ((⟦<RealDesk<S> as Asks>⟧.shown self.old).view.writing slot) }
        requires not_finished { (⟦<RealDesk<S> as Asks>⟧.shown self.old).finished slot ≡ false }
        ensures ok { IfOk result (λ count. Reaches (wrote slot (take count piece.now)) (⟦<RealDesk<S> as Asks>⟧.shown self.old) (⟦<RealDesk<S> as Asks>⟧.shown self.new)) }
        ensures failed { OnErr result (FailsToWrite same (⟦<RealDesk<S> as Asks>⟧.shown self.old) (⟦<RealDesk<S> as Asks>⟧.shown self.new)) }
        ensures count { IfOk result (TakesSome piece.now) }
        ensures steady { IsSteady (⟦<RealDesk<S> as Asks>⟧.shown self.old) → OnErr result (LacksRoom (written slot) 1 (⟦<RealDesk<S> as Asks>⟧.shown self.old)) }
        ensures finished { IfOk result (λ count. (⟦<RealDesk<S> as Asks>⟧.shown self.new).finished ≡ put (⟦<RealDesk<S> as Asks>⟧.shown self.old).finished slot (is_last piece.now count)) }
        ensures unfinished { OnErr result ((⟦<RealDesk<S> as Asks>⟧.shown self.new).finished ≡ (⟦<RealDesk<S> as Asks>⟧.shown self.old).finished) }
        // On success the system was called once, with this slot's file and the piece, and took so many bytes.
        ensures took { let asked = ⟦<RealDesk<S> as Asks>⟧.asked in IfOk result (λ count. asked self.new ≡ after (writes slot piece.now (Some count)) (asked self.old)) }
        // The call fails iff the system's write failed, or took no byte of a piece that has some.
        ensures refused { let asked = ⟦<RealDesk<S> as Asks>⟧.asked in OnErr result ((asked self.new ≡ after (writes slot piece.now None) (asked self.old))
            ⊎ ((0 < length piece.now) × (asked self.new ≡ after (writes slot piece.now (Some 0)) (asked self.old)))) }
    {
        match self.system.write(slot, piece) {
            Ok(0) if !piece.is_empty() => Err(self.write_faults.rise()),
            Ok(count) => {
                self.finished[slot as usize] = is_file_end(piece, count);
                Ok(count)
            }
            Err(Failed) => Err(self.write_faults.rise()),
        }
    }

    // Syncs the slot's file, and frees the slot.
    fn close(&mut self, slot: u8) -> Result<(), Failed>
        requires kind { slot < 2 }
        requires open { IsTrue ((⟦<RealDesk<S> as Asks>⟧.shown self.old).view.writing slot) }
        ensures ok { OnOk result (Reaches (closed slot) (⟦<RealDesk<S> as Asks>⟧.shown self.old) (⟦<RealDesk<S> as Asks>⟧.shown self.new)) }
        ensures failed { OnErr result (FailsToWrite same (⟦<RealDesk<S> as Asks>⟧.shown self.old) (⟦<RealDesk<S> as Asks>⟧.shown self.new)) }
        ensures steady { IsSteady (⟦<RealDesk<S> as Asks>⟧.shown self.old) → OnErr result ⊥ }
        // On success the system had synced the slot's file.
        ensures synced { let asked = ⟦<RealDesk<S> as Asks>⟧.asked in OnOk result (asked self.new ≡ after (syncs slot (Some tt)) (asked self.old)) }
        // The call fails iff the system did not sync the file.
        ensures refused { let asked = ⟦<RealDesk<S> as Asks>⟧.asked in OnErr result (asked self.new ≡ after (syncs slot None) (asked self.old)) }
    {
        match self.system.sync(slot) {
            Ok(()) => {
                self.writing[slot as usize] = false;
                Ok(())
            }
            // The slot stays open, as after every call that fails.
            Err(Failed) => Err(self.write_faults.rise()),
        }
    }

    // Prints a first part of the piece; no byte of a piece with some is a fault.
    fn say(&mut self, piece: &[u8]) -> Result<usize, Failed>
        ensures ok { IfOk result (λ count. Reaches (spoke (take count piece.now)) (⟦<RealDesk<S> as Asks>⟧.shown self.old) (⟦<RealDesk<S> as Asks>⟧.shown self.new)) }
        ensures failed { OnErr result (FailsToWrite same (⟦<RealDesk<S> as Asks>⟧.shown self.old) (⟦<RealDesk<S> as Asks>⟧.shown self.new)) }
        ensures count { IfOk result (TakesSome piece.now) }
        ensures steady { IsSteady (⟦<RealDesk<S> as Asks>⟧.shown self.old) → OnErr result (LacksRoom words 1 (⟦<RealDesk<S> as Asks>⟧.shown self.old)) }
        // On success the system was called once, with the piece, and took so many bytes.
        ensures took { let asked = ⟦<RealDesk<S> as Asks>⟧.asked in IfOk result (λ count. asked self.new ≡ after (says piece.now (Some count)) (asked self.old)) }
        // The call fails iff the system's call failed, or took no byte of a piece that has some.
        ensures refused { let asked = ⟦<RealDesk<S> as Asks>⟧.asked in OnErr result ((asked self.new ≡ after (says piece.now None) (asked self.old))
            ⊎ ((0 < length piece.now) × (asked self.new ≡ after (says piece.now (Some 0)) (asked self.old)))) }
    {
        match self.system.say(piece) {
            Ok(0) if !piece.is_empty() => Err(self.write_faults.rise()),
            Ok(count) => Ok(count),
            Err(Failed) => Err(self.write_faults.rise()),
        }
    }

    ghost open_has_file = { λ desk slot is_open. open_files (S.files desk.system) (S.calls desk.system) desk.writing slot desk.has_file is_open };

    ghost steady_tells = { λ desk steady. Prim.cc };

    ghost steady_keeps = { λ desk steady. Prim.cc };

    ghost steady_has_room = { λ desk steady. Prim.cc };

    ghost fits_room = { λ desk. tt };
}
