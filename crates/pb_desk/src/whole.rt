// Calls over a desk that go on until all is done.
ghost use Rattle.std.specs.Prelude.{◌≡◌, ◌≤◌, ◌<◌, ◌≢◌, ℕ, length, true, false, IsTrue, IfOk, OnOk, OnErr};
ghost use Rattle.pb_desk.specs.View.{put, wrote, spoke, taken};
ghost use Rattle.pb_desk.specs.Desk.{Reaches, IsSteady, IfKept, LacksRoom, written, words, StopsIn, Advances, FailsToRead};

use crate::Desk;
use pb_base::{Bytes, Failed};
use std::alloc::{AllocError, Global};
use thiserror::Error;

// How many bytes are asked for at once.
const PIECE: usize = 65_536;

/// The room for a piece of a text.
pub fn make_room(alloc: Global) -> Result<Vec<u8>, AllocError>
    ensures { IfOk result (λ room. PIECE ≤ length room.items) }
{
    vec![in alloc; 0u8; PIECE]
}

/// Why a text was not read whole.
#[derive(Clone, Copy, Debug, Error)]
pub enum TextFault {
    /// A read failed, and the desk counted that.
    #[error("a read failed")]
    Failed,
    /// More bytes than the limit were taken.
    #[error("the text is too long")]
    TooLong,
    /// An allocation was refused.
    #[error("out of memory")]
    NoMemory,
}

impl From<Failed> for TextFault {
    ghost use Rattle.pb_desk.specs.declared.whole.TextFault.TheVariants as fault;

    ghost from_gives = { λ _ e. e ≡ fault.Failed };

    fn from(_: Failed) -> Self {
        TextFault::Failed
    }
}

impl From<AllocError> for TextFault {
    ghost use Rattle.pb_desk.specs.declared.whole.TextFault.TheVariants as fault;

    ghost from_gives = { λ _ e. e ≡ fault.NoMemory };

    fn from(_: AllocError) -> Self {
        TextFault::NoMemory
    }
}

// Reads all that a slot has left, by pieces of a room's length.
fn read_pieces<D: Desk>(
    alloc: Global,
    desk: &mut D,
    slot: u8,
    limit: u64,
    room: &mut [u8],
) -> Result<Bytes, TextFault>
    requires kind { slot < 5 }
    requires open { IsTrue ((D.state desk.old).view.reading slot) }
    requires not_ended { (D.state desk.old).ended slot ≡ false }
    requires whole_piece { PIECE ≤ length room.old }
    ensures taken { IfOk result (λ text. Advances slot (length text) (D.state desk.old) (D.state desk.new)) }
    ensures whole { IfOk result (λ text. IfKept (D.state desk.old) (D.state desk.new) (λ t. text ≡ t.left slot)) }
    ensures in_limit { IfOk result (λ text. length text ≤ limit) }
    ensures too_long { result ≡ Err TextFault.TooLong → (count : ℕ) × (limit < count) × Advances slot count (D.state desk.old) (D.state desk.new) }
    ensures failed { result ≡ Err TextFault.Failed → (count : ℕ) × (count ≤ limit) × FailsToRead (taken slot count) (D.state desk.old) (D.state desk.new) }
    ensures no_memory { result ≡ Err TextFault.NoMemory → (count : ℕ) × (count ≤ limit) × Advances slot count (D.state desk.old) (D.state desk.new) }
    ensures steady { IsSteady (D.state desk.old) → result ≢ Err TextFault.Failed }
    ensures ended { OnOk result ((D.state desk.new).ended ≡ put (D.state desk.old).ended slot true) }
    ensures before_end { OnErr result ((D.state desk.new).ended ≡ (D.state desk.old).ended) }
{
    let mut text = Vec::new(alloc);
    loop {
        let count = desk.read(slot, room)?;
        if count == 0 {
            return Ok(Bytes::from_vec(text));
        }
        if count as u64 > limit - text.len() as u64 {
            return Err(TextFault::TooLong);
        }
        text.extend_from_slice(&room[..count])?;
    }
}

/// Reads all that a slot has left, of at most `limit` bytes. It asks for nothing more once more than those were taken, nor
/// once its end was met.
pub fn read_whole<D: Desk>(
    alloc: Global,
    desk: &mut D,
    slot: u8,
    limit: u64,
) -> Result<Bytes, TextFault>
    requires kind { slot < 5 }
    requires open { IsTrue ((D.state desk.old).view.reading slot) }
    requires not_ended { (D.state desk.old).ended slot ≡ false }
    // On success as many bytes were read from the slot as the text has.
    ensures taken { IfOk result (λ text. Advances slot (length text) (D.state desk.old) (D.state desk.new)) }
    // On a visible desk that keeps to what it tells the text is all that the slot had.
    ensures whole { IfOk result (λ text. IfKept (D.state desk.old) (D.state desk.new) (λ t. text ≡ t.left slot)) }
    // The text is within the limit.
    ensures in_limit { IfOk result (λ text. length text ≤ limit) }
    // `TooLong` is answered only after more bytes than the limit.
    ensures too_long { result ≡ Err TextFault.TooLong → (count : ℕ) × (limit < count) × Advances slot count (D.state desk.old) (D.state desk.new) }
    // A failed read is answered only if the count of failed reads rose, after bytes within the limit.
    ensures failed { result ≡ Err TextFault.Failed → (count : ℕ) × (count ≤ limit) × FailsToRead (taken slot count) (D.state desk.old) (D.state desk.new) }
    // `NoMemory` comes after bytes within the limit, and no call failed.
    ensures no_memory { result ≡ Err TextFault.NoMemory → (count : ℕ) × (count ≤ limit) × Advances slot count (D.state desk.old) (D.state desk.new) }
    // On a steady desk no read fails.
    ensures steady { IsSteady (D.state desk.old) → result ≢ Err TextFault.Failed }
    // On success the end of the slot was met.
    ensures ended { OnOk result ((D.state desk.new).ended ≡ put (D.state desk.old).ended slot true) }
    // On failure no end was met.
    ensures before_end { OnErr result ((D.state desk.new).ended ≡ (D.state desk.old).ended) }
{
    let mut room = make_room(alloc)?;
    read_pieces(alloc, desk, slot, limit, &mut room)
}

/// Appends all the bytes, or a first part where a write fails. They are the last ones of their file, if they are fewer than a whole piece.
pub fn write_all<D: Desk>(desk: &mut D, slot: u8, bytes: &[u8]) -> Result<(), Failed>
    requires kind { slot < 2 }
    requires open { IsTrue ((D.state desk.old).view.writing slot) }
    requires not_finished { (D.state desk.old).finished slot ≡ false }
    // On success all bytes were appended.
    ensures ok { OnOk result (Reaches (wrote slot bytes.now) (D.state desk.old) (D.state desk.new)) }
    // On failure a first part was, and the count of failed writes rose.
    ensures failed { OnErr result (StopsIn bytes.now (wrote slot) (D.state desk.old) (D.state desk.new)) }
    // On a steady desk it fails only if there is no room for all.
    ensures steady { IsSteady (D.state desk.old) → OnErr result (LacksRoom (written slot) (length bytes.now) (D.state desk.old)) }
{
    let mut at = 0;
    while at < bytes.len() {
        at += desk.write(slot, &bytes[at..])?;
    }
    Ok(())
}

/// Says all the bytes, or a first part where that fails.
pub fn say_all<D: Desk>(desk: &mut D, bytes: &[u8]) -> Result<(), Failed>
    // On success all bytes were printed.
    ensures ok { OnOk result (Reaches (spoke bytes.now) (D.state desk.old) (D.state desk.new)) }
    // On failure a first part was, and the count of failed writes rose.
    ensures failed { OnErr result (StopsIn bytes.now spoke (D.state desk.old) (D.state desk.new)) }
    // On a steady desk it fails only if there is no room for all.
    ensures steady { IsSteady (D.state desk.old) → OnErr result (LacksRoom words (length bytes.now) (D.state desk.old)) }
{
    let mut at = 0;
    while at < bytes.len() {
        at += desk.say(&bytes[at..])?;
    }
    Ok(())
}
