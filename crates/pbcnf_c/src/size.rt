//! How large an encoding is, and how a call that makes one ends.
ghost use Rattle.std.specs.Prelude.{◌≡◌, length};
ghost use Rattle.pbcnf_c.specs.Rooms.{Fills};
ghost use Rattle.pbcnf_c.specs.Sizes.{no_size, size_of};

use crate::room::fill;
use pb_encode::Summary;
use pb_suite::Outcome;

/// The size of an encoding.
#[repr(C)]
#[derive(Clone, Copy)]
pub struct PbcnfSize {
    /// All variables, those of the problem first.
    pub vars: u32,
    /// The variables of the problem.
    pub original: u32,
    pub clauses: u64,
    /// The bytes or integers that are put, or for which there is no room.
    pub length: u64,
}

/// The end of a call that makes an encoding, and the size that it reports.
#[derive(Drop)]
pub struct Ending {
    pub outcome: Outcome,
    pub size: PbcnfSize,
}

// Returns the size that is reported if nothing is made: 0 for all.
fn no_size() -> PbcnfSize
    ensures { result ≡ no_size }
{
    PbcnfSize {
        vars: 0,
        original: 0,
        clauses: 0,
        length: 0,
    }
}

// Returns the size that is reported for a summary and so many bytes, integers or rows.
fn size_of(summary: &Summary, length: usize) -> PbcnfSize
    ensures { result ≡ size_of summary.now length }
{
    PbcnfSize {
        vars: summary.vars,
        original: summary.original,
        clauses: summary.clauses,
        length: length as u64,
    }
}

/// Ends a call that makes nothing.
pub fn stopped(outcome: Outcome) -> Ending
    ensures outcome { result.outcome ≡ outcome }
    ensures size { result.size ≡ no_size }
{
    Ending {
        outcome,
        size: no_size(),
    }
}

/// Ends a call by copying what was made into the room, if it fits; the size is reported anyway.
pub fn delivered<T: Copy>(items: &[T], summary: &Summary, room: &mut [T]) -> Ending
    ensures room { Fills items.now room.old room.new result.outcome }
    ensures size { result.size ≡ size_of summary.now (length items.now) }
{
    let size = size_of(summary, items.len());
    Ending {
        outcome: fill(items, room),
        size,
    }
}
