// The bytes of a line that are there, up to its end.
ghost use Rattle.std.specs.Prelude.{◌≡◌, ◌≤◌, ◌<◌, ◌+◌, ◌-◌, if◌then◌else◌, length, drop, Some, None, IfOk, IfErr};
ghost use Rattle.pb_desk.specs.Limits.{limit_of_piece};
ghost use Rattle.pb_desk.specs.inner.PieceReading.{InLine, IsPiece, TakesPiece, StopsPiece};

use crate::ahead::ReadBuffer;
use crate::limits::{Remaining, limit_of_piece};
use memchr::memchr;
use pb_base::LimitKind;
use std::alloc::AllocError;

/// Why a line was not read.
#[derive(Clone, Copy)]
pub enum Stop {
    Failed,
    Limit(LimitKind),
    NoMemory,
}

// Bytes without LF, and whether LF follows.
#[derive(Clone, Copy)]
struct Piece<'a> {
    bytes: &'a [u8],
    is_ended: bool,
}

// The bytes up to the first LF.
fn first_piece(bytes: &[u8]) -> Piece<'_>
    ensures { IsPiece bytes.now result.bytes.now result.is_ended }
{
    match memchr(b'\n', bytes) {
        Some(end) => Piece {
            bytes: &bytes[..end],
            is_ended: true,
        },
        None => Piece {
            bytes,
            is_ended: false,
        },
    }
}

// The limit that a line passes with so many bytes more, which may be followed by its end.
fn limit_of_more(left: &Remaining, line: &[u8], count: usize, is_ended: bool) -> Option<LimitKind>
    ensures { result ≡ limit_of_piece (left.now.text - length line.now) left.now.is_last (left.now.line - length line.now) count is_ended }
{
    let now = Remaining {
        text: left.text.saturating_sub(line.len() as u64),
        line: left.line.saturating_sub(line.len() as u64),
        is_last: left.is_last,
    };
    limit_of_piece(&now, count as u64, is_ended)
}

// Lets go of a piece, and of the LF that may follow it.
fn skip_piece(ahead: &mut ReadBuffer, count: usize, is_ended: bool)
    requires { (if is_ended then count + 1 else count) ≤ length ahead.old.bytes }
    ensures { ahead.new ≡ record { bytes = drop (if is_ended then count + 1 else count) ahead.old.bytes; over = ahead.old.over } }
{
    ahead.skip(count);
    if is_ended {
        ahead.skip(1);
    }
}

/// Moves the bytes that are ahead to the line, up to its end, and says whether its end was there.
pub fn take_piece(
    ahead: &mut ReadBuffer,
    line: &mut Vec<u8>,
    left: &Remaining,
) -> Result<bool, Stop>
    requires { InLine left.now line.old.items }
    ensures taken { IfOk result (λ is_ended. TakesPiece left.now is_ended ahead.old.bytes ahead.new.bytes line.old.items line.new.items) }
    ensures stopped { IfErr result (StopsPiece left.now ahead.old.bytes line.old.items) }
    ensures over { ahead.new.over ≡ ahead.old.over }
{
    let piece = first_piece(ahead.bytes());
    let count = piece.bytes.len();
    let is_ended = piece.is_ended;
    if let Some(which) = limit_of_more(left, line.as_slice(), count, is_ended) {
        return Err(Stop::Limit(which));
    }
    let Ok(()) = line.extend_from_slice(piece.bytes) else {
        return Err(Stop::NoMemory);
    };
    skip_piece(ahead, count, is_ended);
    Ok(is_ended)
}
