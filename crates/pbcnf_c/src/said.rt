//! How a call that puts words ends.
ghost use Rattle.std.specs.Prelude.{◌≡◌, length};
ghost use Rattle.pbcnf_c.specs.Rooms.{Fills};

use crate::room::fill;
use pb_suite::Outcome;

/// The end of a call that copies bytes into the room, and how many bytes it copied or would need.
#[derive(Drop)]
pub struct Said {
    pub outcome: Outcome,
    pub length: u64,
}

/// Ends a call that copies nothing.
pub fn silent(outcome: Outcome) -> Said
    ensures outcome { result.outcome ≡ outcome }
    ensures length { result.length ≡ 0 }
{
    Said { outcome, length: 0 }
}

/// Ends a call by copying words into the room, if they fit.
pub fn spoken(words: &[u8], room: &mut [u8]) -> Said
    ensures room { Fills words.now room.old room.new result.outcome }
    ensures length { result.length ≡ length words.now }
{
    Said {
        outcome: fill(words, room),
        length: words.len() as u64,
    }
}
