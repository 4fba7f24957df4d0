// The line reader over a desk in memory, with small limits.
ghost use Rattle.std.specs.Prelude.{◌≡◌, IsTrue, None};
ghost use Rattle.pb_desk.specs.Desk.{IsClosed};
ghost use Rattle.pb_desk.specs.LineReading.{Knows};

use crate::cases::assert_found;
use crate::samples::desks::desk_with;
use pb_desk::{Desk, LineLimits, LineReader};
use std::alloc::Global;

const AMPLE: LineLimits = LineLimits {
    text: 100,
    line: 100,
    lines: 100,
};

// The next line after its number, or `end`, or the fault.
fn next_text<D: Desk>(alloc: Global, reader: &mut LineReader, desk: &mut D) -> Option<String>
    requires open { IsTrue ((D.state desk.old).view.reading reader.old.slot) }
    requires knows { reader.old.fault ≡ None → Knows reader.old.slot reader.old.ahead (D.state desk.old) }
    ensures open { IsTrue ((D.state desk.new).view.reading reader.new.slot) }
    ensures knows { reader.new.fault ≡ None → Knows reader.new.slot reader.new.ahead (D.state desk.new) }
{
    match reader.next_line(desk) {
        Ok(true) => {
            let line = str::from_utf8(reader.line()).ok()?;
            format!(in alloc; "{} {line}", reader.number()).ok()
        }
        Ok(false) => "end".to_string(alloc).ok(),
        Err(fault) => format!(in alloc; "{fault}").ok(),
    }
}

// Adds what a reader answers to one call.
fn push_next<D: Desk>(
    alloc: Global,
    reader: &mut LineReader,
    desk: &mut D,
    text: &mut String,
) -> Option<()>
    requires open { IsTrue ((D.state desk.old).view.reading reader.old.slot) }
    requires knows { reader.old.fault ≡ None → Knows reader.old.slot reader.old.ahead (D.state desk.old) }
    ensures open { IsTrue ((D.state desk.new).view.reading reader.new.slot) }
    ensures knows { reader.new.fault ≡ None → Knows reader.new.slot reader.new.ahead (D.state desk.new) }
{
    let next = next_text(alloc, reader, desk)?;
    text.push_str(next.as_str()).ok()?;
    text.push('|').ok()
}

// What it answers to four calls.
fn four<D: Desk>(alloc: Global, reader: &mut LineReader, desk: &mut D) -> Option<String>
    requires open { IsTrue ((D.state desk.old).view.reading reader.old.slot) }
    requires knows { reader.old.fault ≡ None → Knows reader.old.slot reader.old.ahead (D.state desk.old) }
{
    let mut text = String::new(alloc);
    push_next(alloc, reader, desk, &mut text)?;
    push_next(alloc, reader, desk, &mut text)?;
    push_next(alloc, reader, desk, &mut text)?;
    push_next(alloc, reader, desk, &mut text)?;
    Some(text)
}

// The same of a new reader.
fn answers<D: Desk>(alloc: Global, desk: &mut D, limits: LineLimits) -> Option<String>
    requires { IsClosed (D.state desk.old) }
{
    if limits.lines > 100 {
        return None;
    }
    desk.open(0, "in").ok()?;
    let mut reader = LineReader::new(alloc, 0, limits).ok()?;
    four(alloc, &mut reader, desk)
}

// The same over a text that comes so many bytes at a time, where the call of this number fails.
fn read(alloc: Global, text: &str, fails: u64, piece: usize, limits: LineLimits) -> Option<String> {
    if piece == 0 {
        return None;
    }
    let mut desk = desk_with(alloc, text.as_bytes(), fails, piece, 16).ok()?;
    answers(alloc, &mut desk, limits)
}

// Texts, the call that fails, bytes in a call, limits, and what is answered to four calls.
const CASES: &[(&str, u64, usize, LineLimits, &str)] = &[
    ("ab\n\nc", 0, 1, AMPLE, "1 ab|2 |3 c|end|"),
    ("ab\n\nc", 0, 3, AMPLE, "1 ab|2 |3 c|end|"),
    ("ab\n\nc", 0, 4096, AMPLE, "1 ab|2 |3 c|end|"),
    // A line that ends the text is the last.
    (
        "ab\n",
        0,
        1,
        LineLimits {
            text: 3,
            line: 2,
            lines: 1,
        },
        "1 ab|end|end|end|",
    ),
    // A limit is answered again.
    (
        "ab\nc\n",
        0,
        4096,
        LineLimits { text: 4, ..AMPLE },
        "1 ab|line 2: limit text|line 2: limit text|line 2: limit text|",
    ),
    (
        "ab\nc\n",
        0,
        4096,
        LineLimits { line: 1, ..AMPLE },
        "line 1: limit line|line 1: limit line|line 1: limit line|line 1: limit line|",
    ),
    (
        "ab\nc\n",
        0,
        4096,
        LineLimits {
            line: 2,
            lines: 1,
            ..AMPLE
        },
        "1 ab|line 2: limit lines|line 2: limit lines|line 2: limit lines|",
    ),
    // So is a failed read, here the second.
    (
        "ab\nc\n",
        3,
        3,
        AMPLE,
        "1 ab|a read failed|a read failed|a read failed|",
    ),
];

#[test]
fn lines_come_in_turn(rt: HostRuntime) {
    for &(text, fails, piece, limits, expected) in CASES {
        let found = read(rt.alloc(), text, fails, piece, limits);
        assert_found(&rt, found, expected, text);
    }
}
