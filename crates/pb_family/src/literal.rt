//! The text of a literal, and of a short clause, written from its end.
ghost use Rattle.std.specs.Prelude.{◌≡◌, ◌≤◌, ◌+◌, ◌++◌, drop, codes, length};
ghost use Rattle.pb_family.specs.ClauseText.{clause_text, literal_text};

use itoa::write_digits;
use pb_base::Lit;

/// A sign, ten digits and a blank.
pub const LITERAL: usize = 12;

/// Writes a literal and a blank at the end of the room, so that one append takes them, and says where they begin.
pub fn write_literal(lit: &Lit, text: &mut [u8; LITERAL]) -> usize
    ensures within { result ≤ LITERAL }
    ensures written { drop result text.new ≡ literal_text lit.now ++ codes " " }
{
    write_before(lit, text, LITERAL)
}

/// A clause of so many literals is short.
pub const SHORT: usize = 5;

/// As many literals and blanks, `0` and LF.
pub const SHORT_TEXT: usize = 62;

// Writes a literal and a blank before what stands from the end on, and says where they begin.
fn write_before(lit: &Lit, text: &mut [u8], end: usize) -> usize
    requires low { LITERAL ≤ end }
    requires high { end ≤ length text.old }
    ensures within { result ≤ end }
    ensures room { end ≤ result + LITERAL }
    ensures written { drop result text.new ≡ (literal_text lit.now ++ codes " ") ++ drop end text.old }
{
    text[end - 1] = b' ';
    let digits = write_digits(u64::from(lit.index()), text, end - 1);
    if lit.positive {
        return digits;
    }
    text[digits - 1] = b'-';
    digits - 1
}

/// Writes the line of a short clause at the end of the room, so that one append takes it, and says where it begins.
pub fn write_clause(clause: &[Lit], text: &mut [u8; SHORT_TEXT]) -> usize
    requires { length clause.now ≤ SHORT }
    ensures within { result ≤ SHORT_TEXT }
    ensures written { drop result text.new ≡ clause_text clause.now }
{
    text[SHORT_TEXT - 1] = b'\n';
    text[SHORT_TEXT - 2] = b'0';
    let mut start = SHORT_TEXT - 2;
    let mut left = clause.len();
    while left > 0 {
        start = write_before(&clause[left - 1], text, start);
        left -= 1;
    }
    start
}
