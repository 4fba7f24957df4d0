//! Words of a line that stand behind one blank each, as they are mostly written: read as they are passed over.
ghost use Rattle.std.specs.Prelude.{◌≡◌, ◌≤◌, ◌<◌, ◌^◌, [], ◌∷◌, drop, false, length, take, unsigned_abs, IsTrue, IfSome};
ghost use Rattle.std.specs.Str.Parse.{AllDigits, digits_value};
ghost use Rattle.pb_base.specs.Tokens.{is_white};
ghost use Rattle.pb_base.specs.Words.{goes_on};
ghost use Rattle.pb_steps.specs.Sayable.{IsId, IsTerm, IsVariable};
ghost use Rattle.pb_steps.specs.StepGrammar.{term_symbols};
ghost use Rattle.pb_steps.specs.StepGrammar.StepSymbol.{coefficient, integer, key, literal, number, variable};
ghost use Rattle.pb_steps.specs.Fronts.{IsNumberAt, IsShort};

use pb_base::{Lit, Term, Var};

// A digit more fits behind what is less.
const SHORT: u64 = 1 << 60;

const LONG: u128 = 1 << 124;

// What digits at the front spell, as far as it is short, and how many they are.
fn digits_at(bytes: &[u8]) -> (u64, usize)
    ensures within { result.1 ≤ length bytes.now }
    ensures digits { AllDigits 10 (take result.1 bytes.now) }
    ensures value { result.0 ≡ digits_value 10 (take result.1 bytes.now) }
{
    let mut value = 0u64;
    let mut count = 0usize;
    'digits: while count < bytes.len() && value < SHORT && bytes[count].is_ascii_digit() {
        value = value * 10 + u64::from(bytes[count] - b'0');
        count += 1;
    }
    (value, count)
}

// The same with the digits behind so many that are known.
fn more_digits(bytes: &[u8], known: u64, digits: usize) -> (u128, usize)
    requires within { digits ≤ length bytes.now }
    requires digits { AllDigits 10 (take digits bytes.now) }
    requires value { known ≡ digits_value 10 (take digits bytes.now) }
    ensures within { result.1 ≤ length bytes.now }
    ensures digits { AllDigits 10 (take result.1 bytes.now) }
    ensures value { result.0 ≡ digits_value 10 (take result.1 bytes.now) }
{
    let mut value = u128::from(known);
    let mut count = digits;
    'digits: while count < bytes.len() && value < LONG && bytes[count].is_ascii_digit() {
        value = value * 10 + u128::from(bytes[count] - b'0');
        count += 1;
    }
    (value, count)
}

/// Whether a word ends behind so many bytes, with the line or before a blank.
pub(crate) fn ends_at(bytes: &[u8], count: usize) -> bool
    ensures { IsTrue result → goes_on (drop count bytes.now) ≡ false }
{
    match bytes.get(count) {
        Some(byte) => *byte == b' ',
        None => true,
    }
}

/// The number that the first bytes spell, where it is short, and how many these are.
pub fn number_at(bytes: &[u8]) -> Option<(u64, usize)>
    ensures { IfSome result (λ r. IsNumberAt bytes.now r.0 r.1) }
{
    let (value, count) = digits_at(bytes);
    if count == 0 || !ends_at(bytes, count) {
        return None;
    }
    Some((value, count))
}

/// The same of a number that may be long, as the factor is by which `pol` divides what is cut to its degree.
pub(crate) fn long_number_at(bytes: &[u8]) -> Option<(u128, usize)>
    ensures { IfSome result (λ r. IsNumberAt bytes.now r.0 r.1) }
{
    let (short, digits) = digits_at(bytes);
    let (value, count) = more_digits(bytes, short, digits);
    if count == 0 || !ends_at(bytes, count) {
        return None;
    }
    Some((value, count))
}

/// A number as an id, where it is one.
pub(crate) fn id_of(number: u128) -> Option<u64>
    ensures same { IfSome result (λ id. id ≡ number) }
    ensures id { IfSome result IsId }
{
    if number == 0 || number >= 1 << 63 {
        return None;
    }
    Some(number as u64)
}

/// An id behind a blank, and how many bytes both take.
pub(crate) fn id_at(left: &[u8]) -> Option<(u64, usize)>
    ensures short { IfSome result (λ r. IsShort left.now (number r.0 ∷ []) r.1) }
    ensures id { IfSome result (λ r. IsId r.0) }
{
    let [b' ', word @ ..] = left else { return None };
    let (number, count) = number_at(word)?;
    let id = id_of(u128::from(number))?;
    Some((id, count + 1))
}

/// An integer without a sign behind a blank.
pub(crate) fn integer_at(left: &[u8]) -> Option<(i128, usize)>
    ensures short { IfSome result (λ r. IsShort left.now (integer r.0 ∷ []) r.1) }
    ensures small { IfSome result (λ r. unsigned_abs r.0 < 2 ^ 126) }
{
    let [b' ', word @ ..] = left else { return None };
    let (number, count) = number_at(word)?;
    Some((i128::from(number), count + 1))
}

// A coefficient with its sign behind a blank.
fn coefficient_at(left: &[u8]) -> Option<(i128, usize)>
    ensures short { IfSome result (λ r. IsShort left.now (coefficient r.0 ∷ []) r.1) }
    ensures small { IfSome result (λ r. unsigned_abs r.0 < 2 ^ 126) }
{
    let [b' ', sign, word @ ..] = left else {
        return None
    };
    let (number, count) = number_at(word)?;
    match *sign {
        b'+' => Some((i128::from(number), count + 2)),
        b'-' => Some((-i128::from(number), count + 2)),
        _ => None,
    }
}

// A variable by the digits of its number at the front.
fn var_at(word: &[u8]) -> Option<(Var, usize)>
    ensures number { IfSome result (λ r. IsNumberAt word.now r.0 r.1) }
    ensures named { IfSome result (λ r. IsVariable r.0) }
{
    let (number, count) = number_at(word)?;
    if number == 0 || number >= 1 << 31 {
        return None;
    }
    Some((Var::new(number as u32), count))
}

/// A variable behind a blank.
pub(crate) fn variable_at(left: &[u8]) -> Option<(Var, usize)>
    ensures short { IfSome result (λ r. IsShort left.now (variable r.0 ∷ []) r.1) }
    ensures named { IfSome result (λ r. IsVariable r.0) }
{
    let [b' ', b'x', word @ ..] = left else {
        return None
    };
    let (var, count) = var_at(word)?;
    Some((var, count + 2))
}

// A negated literal behind a blank.
fn negated_at(left: &[u8]) -> Option<(Lit, usize)>
    ensures short { IfSome result (λ r. IsShort left.now (literal r.0 ∷ []) r.1) }
    ensures named { IfSome result (λ r. IsVariable r.0.var) }
{
    let [b' ', b'~', b'x', word @ ..] = left else {
        return None
    };
    let (var, count) = var_at(word)?;
    let positive = false;
    Some((Lit { var, positive }, count + 3))
}

// A plain one.
fn plain_at(left: &[u8]) -> Option<(Lit, usize)>
    ensures short { IfSome result (λ r. IsShort left.now (literal r.0 ∷ []) r.1) }
    ensures named { IfSome result (λ r. IsVariable r.0.var) }
{
    let [b' ', b'x', word @ ..] = left else {
        return None
    };
    let (var, count) = var_at(word)?;
    let positive = true;
    Some((Lit { var, positive }, count + 2))
}

/// A literal behind a blank.
pub(crate) fn literal_at(left: &[u8]) -> Option<(Lit, usize)>
    ensures short { IfSome result (λ r. IsShort left.now (literal r.0 ∷ []) r.1) }
    ensures named { IfSome result (λ r. IsVariable r.0.var) }
{
    match left {
        [_, b'~', ..] => negated_at(left),
        _ => plain_at(left),
    }
}

/// A term.
pub(crate) fn term_at(left: &[u8]) -> Option<(Term, usize)>
    ensures short { IfSome result (λ r. IsShort left.now (term_symbols r.0) r.1) }
    ensures term { IfSome result (λ r. IsTerm r.0) }
{
    let (coef, first) = coefficient_at(left)?;
    let (lit, second) = literal_at(&left[first..])?;
    Some((Term { coef, lit }, first + second))
}

/// Whether a word of one byte stands behind a blank.
pub fn mark_at(left: &[u8], mark: u8) -> bool
    requires { is_white mark ≡ false }
    ensures { IsTrue result → IsShort left.now (key (mark ∷ []) ∷ []) 2 }
{
    match left {
        [b' ', byte, ..] => *byte == mark && ends_at(left, 2),
        _ => false,
    }
}

/// Whether a word of two bytes stands behind a blank.
pub(crate) fn pair_at(left: &[u8], first: u8, second: u8) -> bool
    requires first { is_white first ≡ false }
    requires second { is_white second ≡ false }
    ensures { IsTrue result → IsShort left.now (key (first ∷ second ∷ []) ∷ []) 3 }
{
    match left {
        [b' ', b, c, ..] => *b == first && *c == second && ends_at(left, 3),
        _ => false,
    }
}
