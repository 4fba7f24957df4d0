//! Integers as they mostly stand in a CNF text, behind one blank or at the front of a line: read as they are passed over. Any other word is
//! left to the reader of words.
ghost use Rattle.std.specs.Prelude.{ℕ, ◌≡◌, ◌≤◌, ◌+◌, drop, length, IfSome, IsTrue};
ghost use Rattle.pb_base.specs.Words.{words_from};
ghost use Rattle.pb_dimacs.specs.inner.Fronts.{BeginsByte, IsIntegerAt};

use pb_steps::number_at;

// Whether the first byte is this one.
fn begins_with(bytes: &[u8], byte: u8) -> bool
    ensures { IsTrue result → BeginsByte byte bytes.now }
{
    !bytes.is_empty() && bytes[0] == byte
}

/// The integer that the first bytes spell, where it is short and has no plus, and how many these are.
pub(crate) fn integer_at(bytes: &[u8]) -> Option<(i128, usize)>
    ensures { IfSome result (λ r. IsIntegerAt bytes.now r.0 r.1) }
{
    if begins_with(bytes, b'-') {
        let (number, count) = number_at(&bytes[1..])?;
        return Some((-i128::from(number), count + 1));
    }
    let (number, count) = number_at(bytes)?;
    Some((i128::from(number), count))
}

/// How many bytes stand before the first word, where that is one blank; else no byte is passed over.
pub(crate) fn gap_at(bytes: &[u8]) -> usize
    ensures within { result ≤ length bytes.now }
    ensures same { (at : ℕ) → words_from (at + 1) bytes.now ≡ words_from (at + result + 1) (drop result bytes.now) }
{
    if begins_with(bytes, b' ') { 1 } else { 0 }
}
