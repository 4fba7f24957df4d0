// Steps that are written to a slot of a desk in memory.
ghost use Rattle.std.specs.Prelude.{◌≡◌, false, IsTrue};
ghost use Rattle.pb_desk.specs.Desk.{IsClosed};

use super::checking::desk_with;
use crate::samples::at_most;
use pb_amo::Pairwise;
use pb_base::Ids;
use pb_desk::Desk;
use pb_dimacs::{StepWriter, WriteBuffer, finish};
use pb_family::{Derive, StepSink, are_below, are_ones};
use pb_norm::AtMost;
use std::alloc::Global;

// Writes the derivation of pairs of variables below 4, and returns the next id.
fn derive_pairs<D: Desk>(
    alloc: Global,
    desk: &mut D,
    of: &AtMost,
    outbox: &mut WriteBuffer,
    line: &mut Vec<u8>,
) -> Option<u64>
    requires open { IsTrue ((D.state desk.old).view.writing 1) }
    requires not_finished { (D.state desk.old).finished 1 ≡ false }
{
    if of.bound() != 1 || !are_ones(of.terms()) || !are_below(of.terms(), 4) {
        return None;
    }
    let next;
    let handed = {
        let mut writer = StepWriter::new(alloc, desk, 1, outbox, line, 7);
        let handed = Pairwise::over(of).derive(alloc, 4, 6, &mut writer);
        next = writer.next_id();
        handed
    };
    finish(desk, 1, outbox, handed).ok()?;
    Some(next)
}

// The same to a new file.
fn write_new<D: Desk>(alloc: Global, desk: &mut D, of: &AtMost) -> Option<u64>
    requires { IsClosed (D.state desk.old) }
{
    desk.create(1, "out").ok()?;
    let mut outbox = WriteBuffer::new(alloc).ok()?;
    let mut line = Vec::new(alloc);
    derive_pairs(alloc, desk, of, &mut outbox, &mut line)
}

// The same of what a statement leaves.
fn write_pairs<D: Desk>(alloc: Global, desk: &mut D, opb: &str) -> Option<u64>
    requires { IsClosed (D.state desk.old) }
{
    let of = at_most(alloc, opb)?;
    write_new(alloc, desk, &of)
}

// True if that is written as this text, and the next id is this one.
fn is_written(alloc: Global, opb: &str, next: u64, text: &str) -> Option<bool> {
    let mut desk = desk_with(alloc, "", "", Ids::new(alloc))?;
    let found = write_pairs(alloc, &mut desk, opb)?;
    Some(found == next && desk.made(1) == Some(text.as_bytes()))
}

#[test]
fn steps_are_written(rt: HostRuntime) {
    let text = "rup +1 ~x1 +1 ~x2 >= 1 ; 6\nout 7\nrup +1 ~x1 +1 ~x3 >= 1 ; 6\nout 8\n\
rup +1 ~x2 +1 ~x3 >= 1 ; 6\nout 9\n";
    let written = is_written(rt.alloc(), "-1 x1 -1 x2 -1 x3 >= -1 ;", 10, text);
    assert!(rt; written == Some(true));
}
