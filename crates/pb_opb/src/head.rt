//! The token at the front of a text, where it is one of those that most texts consist of: it is read as it is found.
//!
//! An integer or index of few digits, a relation or a `;` is known by its first byte and read in place, if a white byte or a `;` ends
//! it. Any other token is cut as `pb_base` cuts tokens, so this way promises nothing if it answers none. Lines and columns are
//! counted from the begin of the text, only once there is a fault.
ghost use Rattle.std.specs.Prelude.{◌≡◌, ◌∷◌, ◌≤◌, IfSome, length};
ghost use Rattle.pb_base.specs.inner.Scans.{BeginsToken};
ghost use Rattle.pb_opb.specs.reader.Heads.{AreDigits, IsHead, behind_x, ends_word, token_at};

use crate::gap::is_white;
use pb_base::{Relation, tokens};

/// A token of few digits, read.
#[derive(Clone, Copy)]
pub enum Short {
    /// An integer from 0 on.
    Integer(u64),
    /// The opposite of an integer.
    Opposite(u64),
    /// The literal of an index from 1 to 2^31 - 1, and whether it is no negation.
    Literal(u32, bool),
    Relation(Relation),
    Semicolon,
}

/// The token at the front of a text, and the text after it.
#[derive(Clone, Copy)]
pub struct Head<'a> {
    pub short: Short,
    pub rest: &'a [u8],
}

/// The number of the digits at the front of a text, and the text after them.
#[derive(Clone, Copy)]
pub struct Digits<'a> {
    pub value: u64,
    pub rest: &'a [u8],
}

// One digit more of a number below this makes one of 64 bits.
const FULL: u64 = 1_000_000_000_000_000_000;

// True if the byte ends the word before it: a white byte, or `;`.
fn ends_word(b: u8) -> bool
    ensures { result ≡ ends_word b }
{
    is_white(b) || b == b';'
}

// Reads the digits at the front, if they fit into 64 bits and a word ends after them.
fn few_digits(bytes: &[u8]) -> Option<Digits<'_>>
    ensures { IfSome result (AreDigits bytes.now) }
{
    let mut value = 0u64;
    for (i, b) in bytes.iter().enumerate() {
        if !b.is_ascii_digit() {
            if i == 0 || !ends_word(*b) {
                return None;
            }
            return Some(Digits {
                value,
                rest: &bytes[i..],
            });
        }
        if value >= FULL {
            return None;
        }
        value = value * 10 + u64::from(*b - b'0');
    }
    None
}

// Reads an integer without a sign.
fn unsigned(bytes: &[u8]) -> Option<Head<'_>>
    ensures { IfSome result (IsHead bytes.now) }
{
    match few_digits(bytes) {
        Some(digits) => Some(Head {
            short: Short::Integer(digits.value),
            rest: digits.rest,
        }),
        None => None,
    }
}

// Reads an integer after its `+`.
fn positive(bytes: &[u8]) -> Option<Head<'_>>
    ensures { IfSome result (IsHead (43 ∷ bytes.now)) }
{
    match few_digits(bytes) {
        Some(digits) => Some(Head {
            short: Short::Integer(digits.value),
            rest: digits.rest,
        }),
        None => None,
    }
}

// Reads an integer after its `-`.
fn negative(bytes: &[u8]) -> Option<Head<'_>>
    ensures { IfSome result (IsHead (45 ∷ bytes.now)) }
{
    match few_digits(bytes) {
        Some(digits) => Some(Head {
            short: Short::Opposite(digits.value),
            rest: digits.rest,
        }),
        None => None,
    }
}

// Reads an index after an `x`, or after `~x`.
fn index(positive: bool, bytes: &[u8]) -> Option<Head<'_>>
    ensures { IfSome result (IsHead (behind_x positive bytes.now)) }
{
    match few_digits(bytes) {
        Some(digits) if digits.value > 0 && digits.value < 1 << 31 => Some(Head {
            short: Short::Literal(digits.value as u32, positive),
            rest: digits.rest,
        }),
        _ => None,
    }
}

/// Reads the token at the front by its first byte, if it is in the usual form; `None` for any other, which is read as a word. Usual are a
/// relation, a `;`, and an integer or the literal of an index in few digits, after which a white byte or a `;` comes.
pub fn head_of(text: &[u8]) -> Option<Head<'_>>
    ensures { IfSome result (IsHead text.now) }
{
    match text {
        [b'x', bytes @ ..] => index(true, bytes),
        [b'~', b'x', bytes @ ..] => index(false, bytes),
        [b'+', bytes @ ..] => positive(bytes),
        [b'-', bytes @ ..] => negative(bytes),
        [b';', rest @ ..] => Some(Head {
            short: Short::Semicolon,
            rest,
        }),
        [b'>', b'=', rest @ ..] => Some(Head {
            short: Short::Relation(Relation::AtLeast),
            rest,
        }),
        [b'<', b'=', rest @ ..] => Some(Head {
            short: Short::Relation(Relation::AtMost),
            rest,
        }),
        [b'=', rest @ ..] => Some(Head {
            short: Short::Relation(Relation::Equal),
            rest,
        }),
        _ => unsigned(text),
    }
}

/// Returns the token at the front, whatever it is.
pub fn first_token(text: &[u8]) -> &[u8]
    requires some { 1 ≤ length text.now }
    requires front { BeginsToken text.now }
    ensures { result.now ≡ token_at text.now }
{
    let mut tokens = tokens(text);
    match tokens.next() {
        Some(token) => token.text,
        None => text,
    }
}
