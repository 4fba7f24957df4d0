ghost use Rattle.std.specs.Prelude.{◌≡◌, false};
ghost use Rattle.pb_desk.specs.Desk.{IsClosed};

use crate::cases::assert_found;
use crate::samples::desks::desk_with;
use pb_base::{Bytes, Failed};
use pb_desk::{Desk, MemoryDesk, TextFault, read_whole, say_all, write_all};
use std::alloc::{Alloc, Global};
use std::test::Fail;

// Writes a text, and says it.
fn put<D: Desk>(desk: &mut D, to: &str, text: &[u8]) -> Result<(), Failed>
    requires { (D.state desk.old).view.writing 1 ≡ false }
{
    desk.create(1, to)?;
    write_all(desk, 1, text)?;
    desk.close(1)?;
    say_all(desk, text)
}

// Reads `from`, writes it to `to`, and says it.
fn copy<D: Desk>(
    alloc: Global,
    desk: &mut D,
    from: &str,
    to: &str,
    limit: u64,
) -> Result<Bytes, TextFault>
    requires { IsClosed (D.state desk.old) }
{
    desk.open(0, from)?;
    let text = read_whole(alloc, desk, 0, limit)?;
    put(desk, to, text.as_slice())?;
    Ok(text)
}

const TEXT: &str = "+1 x1;\n";

// True if a copy of the text ended well.
fn is_copied<D: Desk>(alloc: Global, desk: &mut D, limit: u64) -> bool
    requires { IsClosed (D.state desk.old) }
{
    match copy(alloc, desk, "in", "out", limit) {
        Ok(text) => text.as_slice() == TEXT.as_bytes(),
        Err(_) => false,
    }
}

// The same, what was made in slot 1 and what was said.
fn copied_on(alloc: Global, desk: &mut MemoryDesk, limit: u64) -> Option<String>
    requires { IsClosed (⟦<MemoryDesk as Desk>⟧.state desk.old) }
{
    let end = is_copied(alloc, desk, limit);
    let made = str::from_utf8(desk.made(1).unwrap_or(b"nothing")).ok()?;
    let said = str::from_utf8(desk.said()).ok()?;
    format!(in alloc; "{end} {made:?} {said:?}").ok()
}

// The same on a desk of its own, whose call of this number fails.
fn copied(alloc: Global, fails: u64, piece: usize, room: usize, limit: u64) -> Option<String> {
    if piece == 0 {
        return None;
    }
    let mut desk = desk_with(alloc, TEXT.as_bytes(), fails, piece, room).ok()?;
    copied_on(alloc, &mut desk, limit)
}

// The call that fails, bytes in a call, bytes of room, the most bytes to read, and what is left.
const CASES: &[(u64, usize, usize, u64, &str)] = &[
    // Whole; too long by a byte; with too little room for the file.
    (0, 2, 16, 7, r#"true "+1 x1;\n" "+1 x1;\n""#),
    (0, 2, 16, 6, r#"false "nothing" """#),
    (0, 4096, 4, 7, r#"false "+1 x" """#),
    // Where no call fails, and where each fails in turn: opened, read to the end in two calls, created, written, closed, said, and
    // one more.
    (0, 100, 16, 7, r#"true "+1 x1;\n" "+1 x1;\n""#),
    (1, 100, 16, 7, r#"false "nothing" """#),
    (2, 100, 16, 7, r#"false "nothing" """#),
    (3, 100, 16, 7, r#"false "nothing" """#),
    (4, 100, 16, 7, r#"false "nothing" """#),
    (5, 100, 16, 7, r#"false "" """#),
    (6, 100, 16, 7, r#"false "+1 x1;\n" """#),
    (7, 100, 16, 7, r#"false "+1 x1;\n" """#),
    (8, 100, 16, 7, r#"true "+1 x1;\n" "+1 x1;\n""#),
];

#[test]
fn a_text_is_read_written_and_said(rt: HostRuntime) {
    for &(fails, piece, room, limit, expected) in CASES {
        let found = copied(rt.alloc(), fails, piece, room, limit);
        assert_found(&rt, found, expected, TEXT);
    }
}

// True if a name is made once, and opened where it is there alone.
fn uses_names_once<D: Desk>(desk: &mut D) -> bool
    requires { IsClosed (D.state desk.old) }
{
    let Ok(()) = desk.create(0, "out") else {
        return false;
    };
    let Err(Failed) = desk.create(1, "out") else {
        return false;
    };
    let Err(Failed) = desk.open(3, "out") else {
        return false;
    };
    desk.open(3, "in").is_ok()
}

#[test]
fn a_name_is_used_once(rt: HostRuntime) -> Result<(), Fail> {
    let mut desk = desk_with(rt.alloc(), TEXT.as_bytes(), 0, 1, 1)?;
    let once = uses_names_once(&mut desk);
    assert!(rt; once);
    Ok(())
}
