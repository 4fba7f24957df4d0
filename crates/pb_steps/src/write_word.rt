//! Words, each appended at once with the blank before it.
ghost use Rattle.std.specs.Prelude.{◌≡◌, ◌≤◌, ◌<◌, ◌+◌, ◌++◌, ◌∷◌, OnOk, OnErr, decimal, drop};
ghost use Rattle.std.specs.Fmt.{signed_decimal};
ghost use Rattle.pb_steps.specs.StepText.{variable_word, literal_word, coefficient_word};
ghost use Rattle.pb_steps.specs.inner.Appending.{KeepsFront};

use itoa::{Buffer, write_digits};
use pb_base::{Lit, Var};
use std::alloc::AllocError;

// The digits of a number of 64 bits, two signs, a blank, and one more.
const WORD: usize = 24;

// Writes a number at the end of the room, and says where it begins.
fn write_number(n: u64, text: &mut [u8; WORD]) -> usize
    ensures from { 4 ≤ result }
    ensures within { result ≤ WORD }
    ensures written { drop result text.new ≡ decimal n }
{
    write_digits(n, text, WORD)
}

// Writes a byte before those that begin at a place.
fn write_before(byte: u8, start: usize, text: &mut [u8; WORD]) -> usize
    requires from { 1 ≤ start }
    requires within { start ≤ WORD }
    ensures before { result + 1 ≡ start }
    ensures written { drop result text.new ≡ byte ∷ drop start text.old }
{
    text[start - 1] = byte;
    start - 1
}

/// Appends bytes.
pub fn push_text(out: &mut Vec<u8>, text: &[u8]) -> Result<(), AllocError>
    ensures ok { OnOk result (out.new.items ≡ out.old.items ++ text.now) }
    ensures kept { OnErr result (KeepsFront out.old.items out.new.items) }
{
    out.extend_from_slice(text)
}

/// Appends a blank and a number.
pub fn push_number(out: &mut Vec<u8>, n: u64) -> Result<(), AllocError>
    ensures ok { OnOk result (out.new.items ≡ out.old.items ++ 32 ∷ decimal n) }
    ensures kept { OnErr result (KeepsFront out.old.items out.new.items) }
{
    let mut text = [b' '; WORD];
    let number = write_number(n, &mut text);
    let start = write_before(b' ', number, &mut text);
    push_text(out, &text[start..])
}

// Appends a blank, a byte and a number.
fn push_marked(out: &mut Vec<u8>, mark: u8, n: u64) -> Result<(), AllocError>
    ensures ok { OnOk result (out.new.items ≡ out.old.items ++ 32 ∷ mark ∷ decimal n) }
    ensures kept { OnErr result (KeepsFront out.old.items out.new.items) }
{
    let mut text = [b' '; WORD];
    let number = write_number(n, &mut text);
    let word = write_before(mark, number, &mut text);
    let start = write_before(b' ', word, &mut text);
    push_text(out, &text[start..])
}

// Appends a blank, two bytes and a number.
fn push_twice_marked(out: &mut Vec<u8>, first: u8, mark: u8, n: u64) -> Result<(), AllocError>
    ensures ok { OnOk result (out.new.items ≡ out.old.items ++ 32 ∷ first ∷ mark ∷ decimal n) }
    ensures kept { OnErr result (KeepsFront out.old.items out.new.items) }
{
    let mut text = [b' '; WORD];
    let number = write_number(n, &mut text);
    let tail = write_before(mark, number, &mut text);
    let word = write_before(first, tail, &mut text);
    let start = write_before(b' ', word, &mut text);
    push_text(out, &text[start..])
}

// Appends certain bytes, and an integer of any size behind them.
fn push_wide(out: &mut Vec<u8>, before: &[u8], n: i128) -> Result<(), AllocError>
    ensures ok { OnOk result (out.new.items ≡ out.old.items ++ before.now ++ signed_decimal n) }
    ensures kept { OnErr result (KeepsFront out.old.items out.new.items) }
{
    push_text(out, before)?;
    push_text(out, Buffer::new().format(n).as_bytes())
}

/// Appends a blank and an integer.
pub fn push_integer(out: &mut Vec<u8>, n: i128) -> Result<(), AllocError>
    ensures ok { OnOk result (out.new.items ≡ out.old.items ++ 32 ∷ signed_decimal n) }
    ensures kept { OnErr result (KeepsFront out.old.items out.new.items) }
{
    let size = n.unsigned_abs();
    if size >= 1 << 64 {
        return push_wide(out, b" ", n);
    }
    if n < 0 {
        return push_marked(out, b'-', size as u64);
    }
    push_number(out, size as u64)
}

/// Appends a blank and a coefficient with its sign.
pub fn push_coefficient(out: &mut Vec<u8>, n: i128) -> Result<(), AllocError>
    ensures ok { OnOk result (out.new.items ≡ out.old.items ++ 32 ∷ coefficient_word n) }
    ensures kept { OnErr result (KeepsFront out.old.items out.new.items) }
{
    if n <= 0 {
        return push_integer(out, n);
    }
    let size = n.unsigned_abs();
    if size >= 1 << 64 {
        return push_wide(out, b" +", n);
    }
    push_marked(out, b'+', size as u64)
}

/// Appends a blank and a variable.
pub fn push_variable(out: &mut Vec<u8>, var: Var) -> Result<(), AllocError>
    ensures ok { OnOk result (out.new.items ≡ out.old.items ++ 32 ∷ variable_word var) }
    ensures kept { OnErr result (KeepsFront out.old.items out.new.items) }
{
    push_marked(out, b'x', u64::from(var.index()))
}

/// Appends a blank and a literal.
pub fn push_literal(out: &mut Vec<u8>, lit: Lit) -> Result<(), AllocError>
    ensures ok { OnOk result (out.new.items ≡ out.old.items ++ 32 ∷ literal_word lit) }
    ensures kept { OnErr result (KeepsFront out.old.items out.new.items) }
{
    if lit.positive {
        return push_variable(out, lit.var);
    }
    push_twice_marked(out, b'~', b'x', u64::from(lit.index()))
}
