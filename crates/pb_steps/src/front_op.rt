//! The first operation of what is left of a line, where each word stands behind one blank.
ghost use Rattle.std.specs.Prelude.{◌≡◌, pos, IfSome};
ghost use Rattle.pb_steps.specs.Fronts.{IsShort};
ghost use Rattle.pb_steps.specs.Sayable.{IsFactor, IsOp};
ghost use Rattle.pb_steps.specs.StepGrammar.{op_symbols};

use crate::op::PolOp;
use crate::short::{id_of, literal_at, long_number_at, mark_at};

// A literal that is weakened or pushed.
fn literal_op_at(left: &[u8]) -> Option<(PolOp, usize)>
    ensures short { IfSome result (λ r. IsShort left.now (op_symbols r.0) r.1) }
    ensures op { IfSome result (λ r. IsOp r.0) }
{
    let (lit, count) = literal_at(left)?;
    if mark_at(&left[count..], b'w') {
        return Some((PolOp::Weaken(lit.var), count + 2));
    }
    Some((PolOp::Axiom(lit), count))
}

// A number as a factor, where it is one.
fn factor_of(number: u128) -> Option<i128>
    ensures same { IfSome result (λ factor. factor ≡ pos number) }
    ensures factor { IfSome result IsFactor }
{
    if number == 0 || number >= 1 << 126 {
        return None;
    }
    Some(number as i128)
}

// A factor by its mark, or an id that is pushed.
fn number_op_at(left: &[u8]) -> Option<(PolOp, usize)>
    ensures short { IfSome result (λ r. IsShort left.now (op_symbols r.0) r.1) }
    ensures op { IfSome result (λ r. IsOp r.0) }
{
    let [b' ', word @ ..] = left else { return None };
    let (value, count) = long_number_at(word)?;
    if mark_at(&left[count + 1..], b'*') {
        let factor = factor_of(value)?;
        return Some((PolOp::Mul(factor), count + 3));
    }
    if mark_at(&left[count + 1..], b'd') {
        let factor = factor_of(value)?;
        return Some((PolOp::Div(factor), count + 3));
    }
    let id = id_of(value)?;
    Some((PolOp::Push(id), count + 1))
}

/// An operation.
pub(crate) fn op_at(left: &[u8]) -> Option<(PolOp, usize)>
    ensures short { IfSome result (λ r. IsShort left.now (op_symbols r.0) r.1) }
    ensures op { IfSome result (λ r. IsOp r.0) }
{
    match left {
        [_, b'+', ..] => {
            if mark_at(left, b'+') {
                Some((PolOp::Add, 2))
            } else {
                None
            }
        }
        [_, b's', ..] => {
            if mark_at(left, b's') {
                Some((PolOp::Saturate, 2))
            } else {
                None
            }
        }
        [_, b'x' | b'~', ..] => literal_op_at(left),
        _ => number_op_at(left),
    }
}
