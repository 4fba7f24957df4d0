//! Memory of the caller's.
ghost use Rattle.std.specs.Prelude.{◌≡◌, ◌≤◌, ◌++◌, length, drop};
ghost use Rattle.pbcnf_c.specs.Rooms.{Fills};

use pb_suite::Outcome;

// Copies items to the front of memory that has room for them.
fn put<T: Copy>(items: &[T], room: &mut [T])
    requires { length items.now ≤ length room.old }
    ensures { room.new ≡ items.now ++ drop (length items.now) room.old }
{
    room[..items.len()].copy_from_slice(items);
}

/// Copies items to the front of memory, if it has room for them; else the outcome is that of a room that is too small.
pub fn fill<T: Copy>(items: &[T], room: &mut [T]) -> Outcome
    ensures { Fills items.now room.old room.new result }
{
    if room.len() < items.len() {
        return Outcome::WriteFault;
    }
    put(items, room);
    Outcome::Done
}
