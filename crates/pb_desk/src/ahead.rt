// Bytes that were taken from a slot before they are needed.
ghost use Rattle.std.specs.Prelude.{◌≡◌, ◌≤◌, ◌<◌, ◌++◌, ◌==◌, [], false, length, drop, IfOk, OnOk, OnErr, IsTrue};
ghost use Rattle.pb_desk.specs.View.{put};
ghost use Rattle.pb_desk.specs.Desk.{Advances, FailsToRead, IfKept, IsSteady, same};
ghost use Rattle.pb_desk.specs.LineReading.{nothing_held};

use crate::Desk;
use crate::whole::make_room;
use pb_base::Failed;
use std::alloc::{AllocError, Global};
use std::marker::Model;

/// Bytes that were taken from a slot, in room of 64 KiB, and whether its end was met.
#[derive(Drop)]
pub struct ReadBuffer {
    room: Vec<u8>,
    start: usize,
    end: usize,
    is_over: bool,
}

impl Model for ReadBuffer {
    ghost use Rattle.std.specs.Prelude.{take, drop, ◌-◌, ◌≤◌, ◌<◌, length};
    ghost use Rattle.pb_desk.specs.LineReading.{Held};

    ghost Value = { Held };

    ghost view = { λ a. record { bytes = take (a.end - a.start) (drop a.start a.room.items); over = a.is_over } };

    ghost invariant = { λ a. (a.start ≤ a.end) × (a.end ≤ length a.room.items) × (65536 ≤ length a.room.items) };
}

impl ReadBuffer {
    /// Nothing was taken yet.
    pub fn new(alloc: Global) -> Result<Self, AllocError>
        ensures { IfOk result (λ ahead. ahead ≡ nothing_held) }
    {
        Ok(ReadBuffer {
            room: make_room(alloc)?,
            start: 0,
            end: 0,
            is_over: false,
        })
    }

    /// What was taken and not let go.
    pub fn bytes(&self) -> &[u8]
        ensures { result.now ≡ self.now.bytes }
    {
        &self.room[self.start..self.end]
    }

    /// Whether the end of the slot's text was met.
    pub fn is_over(&self) -> bool
        ensures { result ≡ self.now.over }
    {
        self.is_over
    }

    /// Lets go of the first bytes.
    pub fn skip(&mut self, count: usize)
        requires { count ≤ length self.old.bytes }
        ensures { self.new ≡ record { bytes = drop count self.old.bytes; over = self.old.over } }
    {
        self.start += count;
    }

    /// Takes the next bytes. None are the end, and then there is nothing more to ask for.
    pub fn fill<D: Desk>(&mut self, desk: &mut D, slot: u8) -> Result<(), Failed>
        requires empty { self.old.bytes ≡ [] }
        requires not_over { self.old.over ≡ false }
        requires kind { slot < 5 }
        requires open { IsTrue ((D.state desk.old).view.reading slot) }
        requires not_ended { (D.state desk.old).ended slot ≡ false }
        ensures taken { OnOk result (Advances slot (length self.new.bytes) (D.state desk.old) (D.state desk.new)) }
        ensures bytes { OnOk result (IfKept (D.state desk.old) (D.state desk.new) (λ t. t.left slot ≡ self.new.bytes ++ drop (length self.new.bytes) (t.left slot))) }
        ensures end { OnOk result (self.new.bytes ≡ [] → IfKept (D.state desk.old) (D.state desk.new) (λ t. t.left slot ≡ [])) }
        ensures over { OnOk result (self.new.over ≡ (length self.new.bytes == 0)) }
        ensures ended { OnOk result ((D.state desk.new).ended ≡ put (D.state desk.old).ended slot self.new.over) }
        ensures failed { OnErr result (FailsToRead same (D.state desk.old) (D.state desk.new)) }
        ensures steady { IsSteady (D.state desk.old) → OnErr result ⊥ }
    {
        let count = desk.read(slot, self.room.as_mut_slice())?;
        self.start = 0;
        self.end = count;
        self.is_over = count == 0;
        Ok(())
    }
}
