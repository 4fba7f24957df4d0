//! The gaps between the tokens of a text.
ghost use Rattle.std.specs.Prelude.{◌≡◌, ◌<◌, IfSome, IfNone, length};
ghost use Rattle.pb_base.specs.Tokens.{is_white};
ghost use Rattle.pb_base.specs.inner.Scans.{BeginsToken};
ghost use Rattle.pb_opb.specs.reader.Heads.{Skips};

use crate::first_line::first_line;

/// True if the byte is a space, a tab, a CR or an LF.
pub fn is_white(b: u8) -> bool
    ensures { result ≡ is_white b }
{
    matches!(b, b' ' | b'\t' | b'\r' | b'\n')
}

// Returns the text after the white byte or the comment at the front, if one is there.
fn past_one(text: &[u8]) -> Option<&[u8]>
    ensures skips { IfSome result (λ left. Skips text.now left.now) }
    ensures less { IfSome result (λ left. length left.now < length text.now) }
    ensures front { IfNone result (BeginsToken text.now) }
{
    let [b, rest @ ..] = text else {
        return None;
    };
    if is_white(*b) {
        return Some(rest);
    }
    if *b == b'*' {
        let (_, left) = rest.split_at(first_line(rest).len());
        return Some(left);
    }
    None
}

/// Returns the text after the white bytes and comments at the front.
pub fn past_gap(text: &[u8]) -> &[u8]
    ensures skips { Skips text.now result.now }
    ensures front { BeginsToken result.now }
{
    let mut left = text;
    while let Some(rest) = past_one(left) {
        left = rest;
    }
    left
}
