// One line, from a desk in pieces.
ghost use Rattle.std.specs.Prelude.{◌≡◌, ◌≢◌, ◌<◌, [], true, false, IsTrue, IfOk, IfErr, OnErr, Err};
ghost use Rattle.pb_desk.specs.Desk.{IsSteady, FailsToRead, same};
ghost use Rattle.pb_desk.specs.LineReading.{Knows, TakesAhead};
ghost use Rattle.pb_desk.specs.inner.PieceReading.{Finds, Fits, StopsLine, Refills, found_at_end};

use crate::Desk;
use crate::ahead::ReadBuffer;
use crate::limits::Remaining;
use crate::piece::{Stop, take_piece};
use pb_base::Failed;

/// What stands at the start of a line: nothing, a last line without LF, or one that ends with LF.
#[derive(Clone, Copy)]
pub enum Found {
    Nothing,
    Last,
    Ended,
}

impl From<Failed> for Stop {
    ghost use Rattle.std.specs.Prelude.{◌≡◌};
    ghost use Rattle.pb_desk.specs.declared.piece.Stop.TheVariants as stop;

    ghost from_gives = { λ _ e. e ≡ stop.Failed };

    fn from(_: Failed) -> Self {
        Stop::Failed
    }
}

// Takes more from the slot, if nothing is ahead. False at the end of the text, which is met once.
fn refill<D: Desk>(desk: &mut D, slot: u8, ahead: &mut ReadBuffer) -> Result<bool, Failed>
    requires kind { slot < 5 }
    requires open { IsTrue ((D.state desk.old).view.reading slot) }
    requires knows { Knows slot ahead.old (D.state desk.old) }
    ensures filled { IfOk result (λ some. Refills slot some ahead.old ahead.new (D.state desk.old) (D.state desk.new)) }
    ensures failed { OnErr result (FailsToRead same (D.state desk.old) (D.state desk.new)) }
    ensures none { OnErr result (ahead.old.bytes ≡ []) }
    ensures not_over { OnErr result (ahead.old.over ≡ false) }
    ensures steady { IsSteady (D.state desk.old) → OnErr result ⊥ }
{
    if !ahead.bytes().is_empty() {
        return Ok(true);
    }
    if ahead.is_over() {
        return Ok(false);
    }
    ahead.fill(desk, slot)?;
    Ok(!ahead.bytes().is_empty())
}

// What stands at the end of the text.
fn at_end(line: &[u8]) -> Found
    ensures { result ≡ found_at_end line.now }
{
    if line.is_empty() {
        Found::Nothing
    } else {
        Found::Last
    }
}

/// Reads the rest of a line behind the bytes that it has, of which there are none at first.
pub fn read_line<D: Desk>(
    desk: &mut D,
    slot: u8,
    ahead: &mut ReadBuffer,
    line: &mut Vec<u8>,
    left: &Remaining,
) -> Result<Found, Stop>
    requires kind { slot < 5 }
    requires open { IsTrue ((D.state desk.old).view.reading slot) }
    requires knows { Knows slot ahead.old (D.state desk.old) }
    requires empty { line.old.items ≡ [] }
    ensures found { IfOk result (λ found. TakesAhead slot ahead.old ahead.new (D.state desk.old) (D.state desk.new) (Finds left.now found line.new.items)) }
    ensures fits { IfOk result (λ found. Fits left.now found line.new.items) }
    ensures stopped { IfErr result (StopsLine left.now slot ahead.old ahead.new (D.state desk.old) (D.state desk.new)) }
    ensures steady { IsSteady (D.state desk.old) → result ≢ Err Stop.Failed }
{
    'pieces: loop {
        if !refill(desk, slot, ahead)? {
            return Ok(at_end(line.as_slice()));
        }
        match take_piece(ahead, line, left) {
            Ok(true) => return Ok(Found::Ended),
            Ok(false) => {}
            Err(stop) => return Err(stop),
        }
    }
}
