// Line after line of a text.
//
// A reader remembers that it met the end of its slot. If a last line has no LF, the end was met while that line was read, and the
// reader does not read again: at a terminal one ^D is enough, and what is typed after it is left alone. Contracts see this as a part
// of what a reader holds (`Held`): after the end nothing is to come for this reader, whatever the slot has yet (`before_end`). So no
// loop above has to show that nothing remains.
//
// Limits on lines are below 2^63, so that the number of a refused line fits.
ghost use Rattle.std.specs.Prelude.{◌≡◌, ◌≢◌, ◌≤◌, ◌<◌, ◌^◌, [], IsTrue, Some, None, Ok, Err, IfOk, IfErr, OnOk};
ghost use Rattle.pb_desk.specs.Desk.{IsSteady};
ghost use Rattle.pb_desk.specs.LineReaders.{Reader, GivesLine, StopsAt, fault_at};
ghost use Rattle.pb_desk.specs.LineReading.{Knows, nothing_held};

use crate::Desk;
use crate::ahead::ReadBuffer;
use crate::limits::{LineLimits, Remaining};
use crate::line::{Found, read_line};
use crate::piece::Stop;
use pb_base::{LimitKind, NoMemory};
use std::alloc::Global;
use std::marker::Model;
use thiserror::Error;

/// Why a line was not read.
#[derive(Clone, Copy, Debug, Error)]
pub enum LineFault {
    /// A read failed, and the desk counted that.
    #[error("a read failed")]
    Failed,
    /// The line of this number passes a limit, as its first.
    #[error("line {line}: limit {which}")]
    Limit { which: LimitKind, line: u64 },
    /// An allocation was refused.
    #[error("out of memory")]
    NoMemory,
}

/// Reads a text line by line, within limits. After a fault it answers the same again.
pub struct LineReader {
    slot: u8,
    limits: LineLimits,
    ahead: ReadBuffer,
    at: u64,
    number: u64,
    line: Vec<u8>,
    fault: Option<LineFault>,
}

// Written out: one call in the proof of a function that owns it.
impl Drop for LineReader {
    fn drop(self) {
        let LineReader {
            slot: _,
            limits: _,
            ahead: _,
            at: _,
            number: _,
            line: _,
            fault: _,
        } = self;
    }
}

impl Model for LineReader {
    ghost use Rattle.std.specs.Prelude.{◌≤◌, ◌<◌, ◌^◌};
    ghost use Rattle.pb_desk.specs.LineReaders.{Reader, IsReader};

    ghost Value = { Reader };

    ghost view = { λ r. record { slot = r.slot; limits = r.limits; ahead = r.ahead; at = r.at; number = r.number; line = r.line.items; fault = r.fault } };

    ghost invariant = { λ r. IsReader r.slot r.limits r.at r.number };
}

// The fault at a line, from why it was not read.
fn fault_at(stop: Stop, line: u64) -> LineFault
    ensures { result ≡ fault_at line stop }
{
    match stop {
        Stop::Failed => LineFault::Failed,
        Stop::Limit(which) => LineFault::Limit { which, line },
        Stop::NoMemory => LineFault::NoMemory,
    }
}

impl LineReader {
    /// Reads what a slot has left. The slot is opened before the first line is read.
    pub fn new(alloc: Global, slot: u8, limits: LineLimits) -> Result<LineReader, NoMemory>
        requires slot { slot < 5 }
        requires lines { limits.lines < 2 ^ 63 }
        ensures { IfOk result (λ reader. reader ≡ record { slot = slot; limits = limits; ahead = nothing_held; at = 0; number = 0; line = []; fault = None }) }
    {
        Ok(LineReader {
            slot,
            limits,
            ahead: ReadBuffer::new(alloc)?,
            at: 0,
            number: 0,
            line: Vec::new(alloc),
            fault: None,
        })
    }

    /// The last line that was read, without its LF.
    pub fn line(&self) -> &[u8]
        ensures { result.now ≡ self.now.line }
    {
        self.line.as_slice()
    }

    /// How many lines were read.
    pub fn number(&self) -> u64
        ensures { result ≡ self.now.number }
    {
        self.number
    }

    /// Reads the next line, of an open slot from which nothing else reads. False at the end of the text.
    pub fn next_line<D: Desk>(&mut self, desk: &mut D) -> Result<bool, LineFault>
        requires open { IsTrue ((D.state desk.old).view.reading self.old.slot) }
        requires knows { self.old.fault ≡ None → Knows self.old.slot self.old.ahead (D.state desk.old) }
        // After a fault the answer is that fault, and the desk is left alone.
        ensures again { (f : LineFault) → self.old.fault ≡ Some f → (result ≡ Err f) × (self.new ≡ self.old) × (D.state desk.new ≡ D.state desk.old) }
        // On a visible desk the line is the first of the rest, also one without LF at the end, and what follows it is the new rest; false
        // is answered only at the end.
        ensures line { self.old.fault ≡ None → IfOk result (λ more. GivesLine more self.old self.new (D.state desk.old) (D.state desk.new)) }
        // On a visible desk a limit is answered iff this line is the first to pass it, at the first byte that does. A failed read is
        // answered only if the count rose, and what was read of the line holds no LF and passes no limit.
        ensures stopped { self.old.fault ≡ None → IfErr result (λ fault. StopsAt fault self.old self.new (D.state desk.old) (D.state desk.new)) }
        // What was read is within the limit of the text.
        ensures in_text { OnOk result (self.new.at ≤ self.new.limits.text) }
        // The lines are within their limit.
        ensures in_lines { OnOk result (self.new.number ≤ self.new.limits.lines) }
        // On a steady desk no read fails.
        ensures steady { IsSteady (D.state desk.old) → self.old.fault ≡ None → result ≢ Err LineFault.Failed }
    {
        if let Some(fault) = self.fault {
            return Err(fault);
        }
        self.line.clear();
        let left = Remaining {
            text: self.limits.text - self.at,
            line: self.limits.line,
            is_last: self.limits.lines <= self.number,
        };
        match read_line(desk, self.slot, &mut self.ahead, &mut self.line, &left) {
            Ok(Found::Nothing) => Ok(false),
            Ok(Found::Last) => {
                self.at += self.line.len() as u64;
                self.number += 1;
                Ok(true)
            }
            Ok(Found::Ended) => {
                self.at += self.line.len() as u64 + 1;
                self.number += 1;
                Ok(true)
            }
            Err(stop) => {
                let fault = fault_at(stop, self.number + 1);
                self.fault = Some(fault);
                Err(fault)
            }
        }
    }
}
