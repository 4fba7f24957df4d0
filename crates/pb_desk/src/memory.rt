// A desk in memory, whose calls fail where a plan says so.
//
// A read, a write and what is said move at least one byte if one fits, and at most `piece`: a caller that is right over every desk
// needs no more. That as much is moved as may be, so that a run makes the fewest calls, is shown by tests that count them.
ghost use Rattle.std.specs.Prelude.{◌≡◌, ◌≤◌};

use crate::Desk;
use crate::buffer::Buffer;
use crate::desk::is_file_end;
use crate::fault_plan::FaultPlan;
use crate::memory_file::{MemoryFile, NAME_ROOM};
use crate::shelf::{Reading, Shelf, find, rest_of};
use pb_base::{Failed, FaultCount, Ids, NoMemory};
use std::alloc::Global;

/// A desk in memory. It tells everything, and is steady where no call is to fail. Its two files to write and what it
/// says have the same room; no call takes memory.
pub struct MemoryDesk {
    shelf: Shelf,
    reading: [Option<Reading>; 5],
    zero: MemoryFile,
    one: MemoryFile,
    one_is_newest: bool,
    said: Buffer,
    fault_plan: FaultPlan,
    piece: usize,
    room: usize,
    read_faults: FaultCount,
    write_faults: FaultCount,
    over: [bool; 5],
    finished: [bool; 2],
    ghost some_piece: { 1 ≤ piece },
    ghost rooms: { (zero.bytes.room ≡ room) × (one.bytes.room ≡ room) × (said.room ≡ room) },
    ghost names: { (zero.name.room ≡ 255) × (one.name.room ≡ 255) },
}

// Written out: one call in the proof of a function that owns it.
impl Drop for MemoryDesk {
    fn drop(self) {
        let MemoryDesk {
            shelf: _,
            reading: _,
            zero: _,
            one: _,
            one_is_newest: _,
            said: _,
            fault_plan: _,
            piece: _,
            room: _,
            read_faults: _,
            write_faults: _,
            over: _,
            finished: _,
        } = self;
    }
}

#[tactic(auto, unfolding(crate::specs::MemoryState::state_of, crate::specs::MemoryState::plan_of))]
impl MemoryDesk {
    ghost use Rattle.std.specs.Prelude.{◌≡◌, ◌≤◌, ◌<◌, ◌↔◌, [], Some, IfOk, IfSome, IsSome, IsNone};
    ghost use Rattle.pb_desk.specs.Memory.{shelf_of};
    ghost use Rattle.pb_desk.specs.MemoryState.{plan_of};
    ghost use Rattle.pb_desk.specs.View.{bytes_in};
    ghost use Rattle.pb_desk.specs.Desk.{IsTold, IsSteady, IsClosed, IsFreshWith, HasSlot};

    /// A desk with these files to read. The calls with a number in `fails` fail, counted from 1 over all calls; a read,
    /// a write or a say moves at most `piece` bytes, which is at least 1; each file and what is said have `room` bytes,
    /// which are taken here.
    pub fn new(
        alloc: Global,
        shelf: Shelf,
        fails: Ids,
        piece: usize,
        room: usize,
    ) -> Result<Self, NoMemory>
        requires { 1 ≤ piece }
        // Nothing is open.
        ensures closed { IfOk result (λ desk. IsClosed (⟦<MemoryDesk as Desk>⟧.state desk)) }
        // The desk has the shelf's files, nothing was made or printed, and no call has failed.
        ensures fresh { IfOk result (λ desk. IsFreshWith (shelf_of shelf) (⟦<MemoryDesk as Desk>⟧.state desk)) }
        // Each file and what is printed have this room.
        ensures room { IfOk result (λ desk. (⟦<MemoryDesk as Desk>⟧.state desk).view.room ≡ Some room) }
        // The desk is steady iff no call is to fail.
        ensures steady { IfOk result (λ desk. IsSteady (⟦<MemoryDesk as Desk>⟧.state desk) ↔ (fails ≡ [])) }
        // The calls that are to fail, and how many bytes a call moves, are the given ones.
        ensures plan { IfOk result (λ desk. plan_of desk ≡ record { fails = fails; calls = 0; piece = piece }) }
    {
        Ok(MemoryDesk {
            shelf,
            reading: [None; 5],
            zero: MemoryFile::new(alloc, room)?,
            one: MemoryFile::new(alloc, room)?,
            one_is_newest: false,
            said: Buffer::new(alloc, room)?,
            fault_plan: FaultPlan { fails, calls: 0 },
            piece,
            room,
            read_faults: FaultCount::new(),
            write_faults: FaultCount::new(),
            over: [false; 5],
            finished: [false; 2],
        })
    }

    /// The bytes of the file that was made in a slot.
    pub fn made(&self, slot: u8) -> Option<&[u8]>
        requires { slot < 2 }
        // The bytes are those of the newest file in the slot.
        ensures bytes { IfSome result (λ bytes. IsTold (⟦<MemoryDesk as Desk>⟧.state self.now) (λ t. bytes.now ≡ bytes_in slot t.made)) }
        // If there are any, a file was made in the slot.
        ensures some { IsSome result → IsTold (⟦<MemoryDesk as Desk>⟧.state self.now) (λ t. HasSlot slot t.made) }
        // If there are none, no file was made in it.
        ensures none { IsNone result → IsTold (⟦<MemoryDesk as Desk>⟧.state self.now) (λ t. HasSlot slot t.made → ⊥) }
    {
        let memory_file = self.memory_file(slot);
        if memory_file.is_made {
            Some(&memory_file.bytes.bytes)
        } else {
            None
        }
    }

    /// What was said.
    pub fn said(&self) -> &[u8]
        // The bytes are all that was printed.
        ensures { IsTold (⟦<MemoryDesk as Desk>⟧.state self.now) (λ t. result.now ≡ t.said) }
    {
        &self.said.bytes
    }

    // The file of a slot.
    fn memory_file(&self, slot: u8) -> &MemoryFile
        requires { slot < 2 }
        ensures zero { slot ≡ 0 → result.now ≡ self.now.zero }
        ensures one { slot ≡ 1 → result.now ≡ self.now.one }
    {
        if slot == 0 { &self.zero } else { &self.one }
    }
}

// Each call has the trait's clauses, and three or four of its own: it counts, it fails exactly where it is to fail or has
// a cause, and it moves at most a piece.
#[tactic(auto, unfolding(crate::specs::MemoryState::state_of, crate::specs::MemoryState::plan_of))]
impl Desk for MemoryDesk {
    ghost use Rattle.std.specs.Prelude.{◌≡◌, ◌≤◌, ◌<◌, ◌↔◌, ◌⊎◌, ◌==◌, length, take, drop, false, IsTrue, IsSome, IsNone, IsErr, IfOk, OnOk, OnErr};
    ghost use Rattle.pb_desk.specs.View.{put, opened, taken, created, wrote, closed, spoke};
    ghost use Rattle.pb_desk.specs.Desk.{Reads, Reaches, FailsToRead, FailsToWrite, same, IsSteady, IfTold, IfKept, IsTold, Gives, TakesSome, is_last, HasName, IsTaken, LacksRoom, written, words};
    ghost use Rattle.pb_desk.specs.Memory.{counted, is_failing};
    ghost use Rattle.pb_desk.specs.MemoryState.{state_of, plan_of};
    ghost use Rattle.pb_desk.specs.inner.MemoryLaws.{memory_has_file, memory_tells, memory_keeps, memory_has_room, memory_fits};

    ghost state = { state_of };

    fn open(&mut self, slot: u8, name: &str) -> Result<(), Failed>
        requires kind { slot < 5 }
        requires free { (state_of self.old).view.reading slot ≡ false }
        ensures ok { OnOk result (Reads (opened slot name.now) (state_of self.old) (state_of self.new)) }
        ensures begun { OnOk result ((state_of self.new).ended ≡ put (state_of self.old).ended slot false) }
        ensures failed { OnErr result (FailsToRead same (state_of self.old) (state_of self.new)) }
        ensures found { OnOk result (IfKept (state_of self.old) (state_of self.new) (λ t. IsSome (t.shelf name.now))) }
        ensures steady { IsSteady (state_of self.old) → OnErr result (IsTold (state_of self.old) (λ t. IsNone (t.shelf name.now))) }
        ensures no_end { OnErr result ((state_of self.new).ended ≡ (state_of self.old).ended) }
        // Each call counts itself.
        ensures counted { plan_of self.new ≡ counted (plan_of self.old) }
        // It fails iff the plan says so or there is no such file.
        ensures fails { IsErr result ↔ (IsTrue (is_failing (plan_of self.old)) ⊎ IsTold (state_of self.old) (λ t. IsNone (t.shelf name.now))) }
    {
        if !self.fault_plan.is_failing()
            && let Some(file) = find(self.shelf.as_slice(), name)
        {
            self.reading[slot as usize] = Some(Reading { file, place: 0 });
            self.over[slot as usize] = false;
            return Ok(());
        }
        Err(self.read_faults.rise())
    }

    fn read(&mut self, slot: u8, room: &mut [u8]) -> Result<usize, Failed>
        requires kind { slot < 5 }
        requires open { IsTrue ((state_of self.old).view.reading slot) }
        requires not_ended { (state_of self.old).ended slot ≡ false }
        ensures ok { IfOk result (λ count. Reads (taken slot count) (state_of self.old) (state_of self.new)) }
        ensures failed { OnErr result (FailsToRead same (state_of self.old) (state_of self.new)) }
        ensures count { IfOk result (λ count. count ≤ length room.new) }
        ensures bytes { IfOk result (λ count. IfKept (state_of self.old) (state_of self.new) (λ t. Gives (t.left slot) count room.new)) }
        ensures steady { IsSteady (state_of self.old) → OnErr result ⊥ }
        ensures ended { IfOk result (λ count. (state_of self.new).ended ≡ put (state_of self.old).ended slot (count == 0)) }
        ensures no_end { OnErr result ((state_of self.new).ended ≡ (state_of self.old).ended) }
        ensures counted { plan_of self.new ≡ counted (plan_of self.old) }
        // It fails iff the plan says so.
        ensures fails { IsErr result ↔ IsTrue (is_failing (plan_of self.old)) }
        // It moves at most as many bytes as a call may.
        ensures moved { IfOk result (λ count. count ≤ (plan_of self.old).piece) }
        ensures behind { IfOk result (λ count. drop count room.new ≡ drop count room.old) }
        ensures untouched { OnErr result (room.new ≡ room.old) }
    {
        if self.fault_plan.is_failing() {
            return Err(self.read_faults.rise());
        }
        let Some(reading) = self.reading[slot as usize] else {
            unreachable!();
        };
        let rest = rest_of(self.shelf.as_slice(), reading);
        let count = room.len().min(rest.len()).min(self.piece);
        room[..count].copy_from_slice(&rest[..count]);
        self.reading[slot as usize] = Some(Reading {
            file: reading.file,
            place: reading.place + count,
        });
        self.over[slot as usize] = count == 0;
        Ok(count)
    }

    fn create(&mut self, slot: u8, name: &str) -> Result<(), Failed>
        requires kind { slot < 2 }
        requires free { (state_of self.old).view.writing slot ≡ false }
        ensures ok { OnOk result (Reaches (created slot name.now) (state_of self.old) (state_of self.new)) }
        ensures begun { OnOk result ((state_of self.new).finished ≡ put (state_of self.old).finished slot false) }
        ensures failed { OnErr result (FailsToWrite same (state_of self.old) (state_of self.new)) }
        ensures fresh { IsSteady (state_of self.old) → OnOk result (IfTold (state_of self.old) (λ t. HasName name.now t.made → ⊥)) }
        ensures steady { IsSteady (state_of self.old) → OnErr result (IsTold (state_of self.old) (λ t. IsTaken slot name.now t.made)) }
        ensures counted { plan_of self.new ≡ counted (plan_of self.old) }
        // It fails iff the plan says so, the name or the slot was used, or the name has more than 255 bytes.
        ensures fails { IsErr result ↔ (IsTrue (is_failing (plan_of self.old)) ⊎ IsTold (state_of self.old) (λ t. IsTaken slot name.now t.made)) }
    {
        let is_taken = self.zero.has_name(name)
            || self.one.has_name(name)
            || self.memory_file(slot).is_made;
        if self.fault_plan.is_failing() || is_taken || name.len() > NAME_ROOM {
            return Err(self.write_faults.rise());
        }
        self.finished[slot as usize] = false;
        if slot == 0 {
            self.zero.make(name);
            self.one_is_newest = false;
        } else {
            self.one.make(name);
            self.one_is_newest = true;
        }
        Ok(())
    }

    fn write(&mut self, slot: u8, piece: &[u8]) -> Result<usize, Failed>
        requires kind { slot < 2 }
        requires open { IsTrue ((state_of self.old).view.writing slot) }
        requires not_finished { (state_of self.old).finished slot ≡ false }
        ensures ok { IfOk result (λ count. Reaches (wrote slot (take count piece.now)) (state_of self.old) (state_of self.new)) }
        ensures failed { OnErr result (FailsToWrite same (state_of self.old) (state_of self.new)) }
        ensures count { IfOk result (TakesSome piece.now) }
        ensures steady { IsSteady (state_of self.old) → OnErr result (LacksRoom (written slot) 1 (state_of self.old)) }
        ensures finished { IfOk result (λ count. (state_of self.new).finished ≡ put (state_of self.old).finished slot (is_last piece.now count)) }
        ensures unfinished { OnErr result ((state_of self.new).finished ≡ (state_of self.old).finished) }
        ensures counted { plan_of self.new ≡ counted (plan_of self.old) }
        // It fails iff the plan says so or there is no room for a byte.
        ensures fails { IsErr result ↔ (IsTrue (is_failing (plan_of self.old)) ⊎ LacksRoom (written slot) 1 (state_of self.old)) }
        // It moves at most as many bytes as a call may.
        ensures moved { IfOk result (λ count. count ≤ (plan_of self.old).piece) }
    {
        let is_full = self.memory_file(slot).bytes.is_full();
        if self.fault_plan.is_failing() || is_full {
            return Err(self.write_faults.rise());
        }
        let part = &piece[..piece.len().min(self.piece)];
        if slot == 0 {
            let count = self.zero.bytes.append(part);
            self.finished[0] = is_file_end(piece, count);
            Ok(count)
        } else {
            let count = self.one.bytes.append(part);
            self.finished[1] = is_file_end(piece, count);
            Ok(count)
        }
    }

    fn close(&mut self, slot: u8) -> Result<(), Failed>
        requires kind { slot < 2 }
        requires open { IsTrue ((state_of self.old).view.writing slot) }
        ensures ok { OnOk result (Reaches (closed slot) (state_of self.old) (state_of self.new)) }
        ensures failed { OnErr result (FailsToWrite same (state_of self.old) (state_of self.new)) }
        ensures steady { IsSteady (state_of self.old) → OnErr result ⊥ }
        ensures counted { plan_of self.new ≡ counted (plan_of self.old) }
        // It fails iff the plan says so.
        ensures fails { IsErr result ↔ IsTrue (is_failing (plan_of self.old)) }
    {
        if self.fault_plan.is_failing() {
            return Err(self.write_faults.rise());
        }
        if slot == 0 {
            self.zero.is_open = false;
        } else {
            self.one.is_open = false;
        }
        Ok(())
    }

    fn say(&mut self, piece: &[u8]) -> Result<usize, Failed>
        ensures ok { IfOk result (λ count. Reaches (spoke (take count piece.now)) (state_of self.old) (state_of self.new)) }
        ensures failed { OnErr result (FailsToWrite same (state_of self.old) (state_of self.new)) }
        ensures count { IfOk result (TakesSome piece.now) }
        ensures steady { IsSteady (state_of self.old) → OnErr result (LacksRoom words 1 (state_of self.old)) }
        ensures counted { plan_of self.new ≡ counted (plan_of self.old) }
        // It fails iff the plan says so or there is no room for a byte.
        ensures fails { IsErr result ↔ (IsTrue (is_failing (plan_of self.old)) ⊎ LacksRoom words 1 (state_of self.old)) }
        // It moves at most as many bytes as a call may.
        ensures moved { IfOk result (λ count. count ≤ (plan_of self.old).piece) }
    {
        if self.fault_plan.is_failing() || self.said.is_full() {
            return Err(self.write_faults.rise());
        }
        Ok(self.said.append(&piece[..piece.len().min(self.piece)]))
    }

    ghost open_has_file = { λ desk slot is_open. memory_has_file desk slot is_open };

    ghost steady_tells = { λ desk steady. memory_tells desk };

    ghost steady_keeps = { λ desk steady. memory_keeps desk };

    ghost steady_has_room = { λ desk steady. memory_has_room desk };

    ghost fits_room = { λ desk. memory_fits desk };
}
