// The desk of the system, over one that answers by a list, and over real files.
ghost use Rattle.std.specs.Prelude.{◌≡◌, ◌≤◌, length, false, IsTrue, IfOk};
ghost use Rattle.pb_desk.specs.Desk.{IsClosed};

use pb_base::Failed;
use pb_desk::Desk;
use pb_files::{FileId, Host, RealDesk, System};
use std::fs;

// How many bytes a whole piece has.
const PIECE: usize = 65_536;

// A system that answers by a list: a number, or that it fails. It fails where the list has ended.
#[derive(Drop)]
struct Scripted<'a> {
    answers: &'a [Option<usize>],
    at: usize,
    output: Option<FileId>,
}

// The file of this number.
fn file_of(number: u64) -> Option<FileId> {
    Some(FileId { device: 1, number })
}

impl<'a> Scripted<'a> {
    fn next(&mut self) -> Result<usize, Failed> {
        let answer = self.answers.get(self.at).copied().flatten();
        self.at = self.at.saturating_add(1);
        answer.ok_or(Failed)
    }

    // The file of the number that is next.
    fn next_file(&mut self) -> Result<Option<FileId>, Failed> {
        Ok(file_of(self.next()? as u64))
    }

    // At most so many bytes.
    fn next_count(&mut self, most: usize) -> Result<usize, Failed>
        ensures { IfOk result (λ count. count ≤ most) }
    {
        match self.next() {
            Ok(count) => Ok(count.min(most)),
            Err(Failed) => Err(Failed),
        }
    }
}

impl<'a> System for Scripted<'a> {
    ghost use Rattle.std.specs.Prelude.{None};

    ghost calls = { λ system. None };

    ghost files = { λ system name. None };

    ghost output = { λ system. system.output };

    fn output(&self) -> Option<FileId> {
        self.output
    }

    fn open(&mut self, _slot: u8, _name: &str) -> Result<Option<FileId>, Failed> {
        self.next_file()
    }

    fn create(&mut self, _slot: u8, _name: &str) -> Result<Option<FileId>, Failed> {
        self.next_file()
    }

    fn truncate(&mut self, _slot: u8) -> Result<(), Failed> {
        self.next().and(Ok(()))
    }

    fn read(&mut self, _slot: u8, room: &mut [u8]) -> Result<usize, Failed> {
        self.next_count(room.len())
    }

    fn write(&mut self, _slot: u8, piece: &[u8]) -> Result<usize, Failed> {
        self.next_count(piece.len())
    }

    fn sync(&mut self, _slot: u8) -> Result<(), Failed> {
        self.next().and(Ok(()))
    }

    fn say(&mut self, piece: &[u8]) -> Result<usize, Failed> {
        self.next_count(piece.len())
    }
}

// What four calls of a desk answer: a count of bytes, 0 where there are none to count, or that they fail.
type Answers = [Option<usize>; 4];

// Reads the next bytes of slot 0 into the room. After the end there are none, and nothing is asked for.
fn read_next<D: Desk>(desk: &mut D, room: &mut [u8], is_over: &mut bool) -> Option<usize>
    requires open { IsTrue ((D.state desk.old).view.reading 0) }
    requires knows { (D.state desk.old).ended 0 ≡ is_over.old }
    requires whole { PIECE ≤ length room.old }
    ensures open { IsTrue ((D.state desk.new).view.reading 0) }
    ensures knows { (D.state desk.new).ended 0 ≡ is_over.new }
    ensures writing { (D.state desk.new).view.writing ≡ (D.state desk.old).view.writing }
    ensures whole { PIECE ≤ length room.new }
{
    if *is_over {
        return Some(0);
    }
    let count = desk.read(0, room).ok()?;
    *is_over = count == 0;
    Some(count)
}

// Reads a file three times, and makes one.
fn reads<D: Desk>(desk: &mut D, from: &str, to: &str) -> Result<Answers, Failed>
    requires { IsClosed (D.state desk.old) }
{
    let mut room = [0u8; PIECE];
    let mut is_over = false;
    desk.open(0, from)?;
    let first = read_next(desk, &mut room, &mut is_over);
    let second = read_next(desk, &mut room, &mut is_over);
    let third = read_next(desk, &mut room, &mut is_over);
    let made = desk.create(0, to).ok().and(Some(0));
    Ok([first, second, third, made])
}

// Writes a whole piece to slot 1.
fn write_next<D: Desk>(desk: &mut D, piece: &[u8]) -> Option<usize>
    requires open { IsTrue ((D.state desk.old).view.writing 1) }
    requires not_finished { (D.state desk.old).finished 1 ≡ false }
    requires whole { PIECE ≤ length piece.now }
    ensures open { IsTrue ((D.state desk.new).view.writing 1) }
    ensures not_finished { (D.state desk.new).finished 1 ≡ false }
{
    desk.write(1, piece).ok()
}

// Makes a file, writes a whole piece to it three times, and closes it.
fn writes<D: Desk>(desk: &mut D, to: &str) -> Result<Answers, Failed>
    requires { IsClosed (D.state desk.old) }
{
    let piece = [b' '; PIECE];
    desk.create(1, to)?;
    let first = write_next(desk, &piece);
    let second = write_next(desk, &piece);
    let third = write_next(desk, &piece);
    let closed = desk.close(1).ok().and(Some(0));
    Ok([first, second, third, closed])
}

// Says five bytes four times.
fn says<D: Desk>(desk: &mut D) -> Answers {
    let first = desk.say(b"+1 x1").ok();
    let second = desk.say(b"+1 x1").ok();
    let third = desk.say(b"+1 x1").ok();
    let fourth = desk.say(b"+1 x1").ok();
    [first, second, third, fourth]
}

// What a desk is asked.
#[derive(Drop)]
enum Asked {
    Reads,
    Writes,
    Says,
}

fn answers<D: Desk>(desk: &mut D, asked: &Asked, from: &str, to: &str) -> Result<Answers, Failed>
    requires { IsClosed (D.state desk.old) }
{
    match asked {
        Asked::Reads => reads(desk, from, to),
        Asked::Writes => writes(desk, to),
        Asked::Says => Ok(says(desk)),
    }
}

// What the desk of a system answers that does so by this list, and whose standard output is its ninth file.
fn by_list(list: &[Option<usize>], asked: &Asked) -> Result<Answers, Failed> {
    let system = Scripted {
        answers: list,
        at: 0,
        output: file_of(9),
    };
    answers(&mut RealDesk::new(system), asked, "in", "out")
}

// What a desk is asked, what its system answers, and what it answers then.
const CASES: &[(Asked, &[Option<usize>], Answers)] = &[
    // The file that was opened is not made, nor what standard output is; another one is, and emptied.
    (
        Asked::Reads,
        &[Some(7), Some(3), None, Some(0), Some(7), Some(0)],
        [Some(3), None, Some(0), None],
    ),
    (
        Asked::Reads,
        &[Some(7), Some(3), None, Some(0), Some(9), Some(0)],
        [Some(3), None, Some(0), None],
    ),
    (
        Asked::Reads,
        &[Some(7), Some(3), None, Some(0), Some(8), Some(0)],
        [Some(3), None, Some(0), Some(0)],
    ),
    // Made and emptied; then a part is written, none, and a write fails.
    (
        Asked::Writes,
        &[Some(7), Some(0), Some(2), Some(0), None, Some(0)],
        [Some(2), None, None, Some(0)],
    ),
    (
        Asked::Writes,
        &[Some(7), Some(0), Some(2), Some(0), None, None],
        [Some(2), None, None, None],
    ),
    (
        Asked::Says,
        &[Some(2), Some(0), None],
        [Some(2), None, None, None],
    ),
];

#[test]
fn each_answer_is_the_systems(rt: HostRuntime) {
    for (asked, list, expected) in CASES {
        let found = by_list(list, asked).ok();
        assert_eq!(rt; found, Some(*expected));
    }
}

// What the desk of the system that the test runs on answers.
fn by_system(rt: &HostRuntime, asked: &Asked, from: &str, to: &str) -> Result<Answers, Failed> {
    let system = Host::new(rt);
    answers(&mut RealDesk::new(system), asked, from, to)
}

// True if all bytes are blanks.
fn are_blanks(bytes: &[u8]) -> bool {
    for byte in bytes {
        if *byte != b' ' {
            return false;
        }
    }
    true
}

// True if a file holds three whole pieces of blanks.
fn holds_pieces(rt: &HostRuntime, name: &str) -> bool {
    match fs::read_to_string(rt, name) {
        Ok(kept) => kept.as_str().len() == 3 * PIECE && are_blanks(kept.as_str().as_bytes()),
        Err(_) => false,
    }
}

// True if a file is made that has two names.
fn is_laid(rt: &HostRuntime, name: &str, linked: &str) -> bool {
    fs::write(rt, name, "* what was there before\n").is_ok()
        && fs::hard_link(rt, name, linked).is_ok()
}

// True if both names are taken away.
fn is_cleared(rt: &HostRuntime, name: &str, linked: &str) -> bool {
    fs::remove_file(rt, name).is_ok() && fs::remove_file(rt, linked).is_ok()
}

#[test]
fn the_system_keeps_a_file(rt: HostRuntime) {
    let (name, dotted, linked) = (
        "pb_files_out.tmp",
        "./pb_files_out.tmp",
        "pb_files_link.tmp",
    );
    let laid = is_laid(&rt, name, linked);
    let written = by_system(&rt, &Asked::Writes, name, name);
    // By another name it keeps its bytes.
    let over_dotted = by_system(&rt, &Asked::Reads, name, dotted);
    let over_linked = by_system(&rt, &Asked::Reads, name, linked);
    let kept = holds_pieces(&rt, name);
    let cleared = is_cleared(&rt, name, linked);
    let absent = by_system(&rt, &Asked::Reads, name, name);
    assert!(rt; laid && kept && cleared);
    let found = [
        written.ok(),
        over_dotted.ok(),
        over_linked.ok(),
        absent.ok(),
    ];
    let expected = [
        Some([Some(PIECE), Some(PIECE), Some(PIECE), Some(0)]),
        Some([Some(PIECE), Some(PIECE), Some(PIECE), None]),
        Some([Some(PIECE), Some(PIECE), Some(PIECE), None]),
        None,
    ];
    assert_eq!(rt; found, expected);
}
