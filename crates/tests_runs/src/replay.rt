//! Whether what files are supposed to hold gives each answer of a record, as the theorem on a run over files supposes.
ghost use Rattle.std.specs.Prelude.{◌≡◌, ◌&&◌, ◌∷◌, map, take, drop, length, Some, None, MatchOption};
ghost use Rattle.pb_desk.specs.Memory.{shelf_of};
ghost use Rattle.pb_files.specs.Replay.{answers_as, is_next, left_of};
ghost use Rattle.tests_runs.specs.Records.{call_of};

use crate::recorder::Kept;
use pb_desk::Named;

// What the first file of the name holds.
fn text_of<'a>(files: &'a [Named], name: &str) -> Option<&'a [u8]>
    ensures { MatchOption result (shelf_of files.now name.now ≡ None) (λ text. shelf_of files.now name.now ≡ Some text.now) }
{
    match files {
        [file, ..] if file.name.as_str() == name => Some(file.bytes.as_slice()),
        [_, others @ ..] => text_of(others, name),
        [] => None,
    }
}

// The bytes without the first so many.
fn skip(bytes: &[u8], count: usize) -> &[u8]
    ensures { result.now ≡ drop count bytes.now }
{
    bytes.get(count..).unwrap_or(&[])
}

// The first so many bytes.
fn first(bytes: &[u8], count: usize) -> &[u8]
    ensures { result.now ≡ take count bytes.now }
{
    bytes.get(..count).unwrap_or(bytes)
}

// The bytes are the next of those that are left, and there are none, for some room, only at the end.
fn is_next(room: usize, left: &[u8], bytes: &[u8]) -> bool
    ensures { result ≡ is_next room left.now bytes.now }
{
    bytes == first(left, bytes.len()) && (!bytes.is_empty() || room == 0 || left.is_empty())
}

// What a slot has left after the calls, the newest first.
fn left_of<'a>(files: &'a [Named], calls: &[Kept], slot: u8) -> &'a [u8]
    ensures { result.now ≡ left_of (shelf_of files.now) (map call_of calls.now) slot }
{
    match calls {
        [Kept::Open(place, name, Ok(_)), ..] if *place == slot => {
            text_of(files, name.as_str()).unwrap_or(&[])
        }
        [Kept::Read(place, _, room, Ok(count)), earlier @ ..] if *place == slot => {
            let bytes = first(room.as_slice(), *count);
            skip(left_of(files, earlier, slot), bytes.len())
        }
        [_, earlier @ ..] => left_of(files, earlier, slot),
        [] => &[],
    }
}

// The call is answered as the files give, after the earlier calls.
fn is_given(files: &[Named], call: &Kept, earlier: &[Kept]) -> bool
    ensures { answers_as (shelf_of files.now) (call_of call.now ∷ map call_of earlier.now) ≡ result && answers_as (shelf_of files.now) (map call_of earlier.now) }
{
    match call {
        Kept::Open(_, name, Ok(_)) => text_of(files, name.as_str()).is_some(),
        Kept::Read(slot, length, room, Ok(count)) => {
            let bytes = first(room.as_slice(), *count);
            is_next(*length, left_of(files, earlier, *slot), bytes)
        }
        _ => true,
    }
}

/// Each call of a record, the newest first, is answered as these files give.
pub fn are_given(files: &[Named], record: &[Kept]) -> bool
    ensures { result ≡ answers_as (shelf_of files.now) (map call_of record.now) }
{
    match record {
        [call, earlier @ ..] => is_given(files, call, earlier) && are_given(files, earlier),
        [] => true,
    }
}
