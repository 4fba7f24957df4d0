// Texts that are written to a desk in memory.
ghost use Rattle.std.specs.Prelude.{◌≡◌};
ghost use Rattle.pb_desk.specs.Desk.{IsClosed};

use super::propagation::lit_at;
use crate::cases::assert_found;
use crate::samples::desks::desk_with;
use pb_desk::{Desk, MemoryDesk};
use pb_dimacs::{ClauseWriter, HardWriter, WriteBuffer, finish};
use pb_family::{ClauseSink, SinkResult};
use std::alloc::Global;

// Hands over a text of three clauses.
fn hand_plain<'a, D: Desk>(writer: &mut ClauseWriter<'a, D>) -> SinkResult
    ensures { let seen = ⟦<ClauseWriter<'a, D> as ClauseSink>⟧.state in (seen writer.new).rest ≡ (seen writer.old).rest }
{
    writer.header(12, 3)?;
    writer.clause(&[lit_at(1, true), lit_at(12, true)])?;
    writer.clause(&[])?;
    Ok(writer.clause(&[lit_at(2, false)])?)
}

// Writes it to a new file.
fn write_plain<D: Desk>(desk: &mut D, outbox: &mut WriteBuffer) -> SinkResult
    requires { IsClosed (D.state desk.old) }
{
    desk.create(1, "out")?;
    let handed = {
        let mut writer = ClauseWriter::new(desk, 1, outbox);
        hand_plain(&mut writer)
    };
    finish(desk, 1, outbox, handed)
}

// Hands over a text of two hard clauses and a soft literal.
fn hand_weighted<'a, D: Desk>(writer: &mut HardWriter<'a, D>) -> SinkResult
    ensures { let seen = ⟦<HardWriter<'a, D> as ClauseSink>⟧.state in (seen writer.new).rest ≡ (seen writer.old).rest }
{
    writer.offset(-1)?;
    writer.clause(&[lit_at(1, true), lit_at(12, true)])?;
    writer.clause(&[])?;
    Ok(writer.soft(1 << 99, lit_at(1, false))?)
}

// Writes it to a new file.
fn write_weighted<D: Desk>(desk: &mut D, outbox: &mut WriteBuffer) -> SinkResult
    requires { IsClosed (D.state desk.old) }
{
    desk.create(1, "out")?;
    let handed = {
        let mut writer = HardWriter::new(desk, 1, outbox);
        hand_weighted(&mut writer)
    };
    finish(desk, 1, outbox, handed)
}

fn write<D: Desk>(alloc: Global, desk: &mut D, weighted: bool) -> Option<()>
    requires { IsClosed (D.state desk.old) }
{
    let mut outbox = WriteBuffer::new(alloc).ok()?;
    if weighted {
        write_weighted(desk, &mut outbox).ok()
    } else {
        write_plain(desk, &mut outbox).ok()
    }
}

// What is written to a desk.
fn written_to(alloc: Global, desk: &mut MemoryDesk, weighted: bool) -> Option<String>
    requires { IsClosed (⟦<MemoryDesk as Desk>⟧.state desk.old) }
{
    write(alloc, desk, weighted)?;
    let text = str::from_utf8(desk.made(1)?).ok()?;
    text.to_string(alloc).ok()
}

fn written(alloc: Global, weighted: bool) -> Option<String> {
    let mut desk = desk_with(alloc, b"", 0, 5, 64).ok()?;
    written_to(alloc, &mut desk, weighted)
}

#[test]
fn texts_are_written(rt: HostRuntime) {
    let found = written(rt.alloc(), false);
    assert_found(&rt, found, "p cnf 12 3\n1 12 0\n0\n-2 0\n", "a CNF");
    let found = written(rt.alloc(), true);
    let expected = "c offset -1\nh 1 12 0\nh 0\n633825300114114700748351602688 -1 0\n";
    assert_found(&rt, found, expected, "a weighted CNF");
}
