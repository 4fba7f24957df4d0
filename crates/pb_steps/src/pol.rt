//! The operations of a `pol` line.
ghost use Rattle.std.specs.Prelude.{◌≡◌, ℕ, false, Some, None, Ok, pos, IfOk, IfErr};
ghost use Rattle.pb_base.specs.Numbers.{limited};
ghost use Rattle.pb_base.specs.Pieces.{chunk};
ghost use Rattle.pb_steps.specs.LineSteps.{number_op, literal_op, op_by, op_of, ops_from, IsFaultOf};
ghost use Rattle.pb_steps.specs.inner.Ahead.{ahead_text};

use crate::fault::StepFault;
use crate::op::PolOp;
use crate::step::PolOps;
use crate::word::{literal_in, number_between, token_fault};
use pb_base::{Expected, Number, Word, Words, read_digits};
use std::alloc::Global;

// A factor, or an id that is pushed, by the word behind it; and whether that is taken too.
fn number_op(number: Number, column: u64, next: &[u8]) -> Result<(PolOp, bool), StepFault>
    ensures { (n : ℕ) → number ≡ limited (Some (pos n)) → result ≡ number_op column n next.now }
{
    if next == b"*".as_slice() {
        let factor = number_between(number, column, 1, 1 << 126, Expected::Factor)?;
        return Ok((PolOp::Mul(factor as i128), true));
    }
    if next == b"d".as_slice() {
        let factor = number_between(number, column, 1, 1 << 126, Expected::Factor)?;
        return Ok((PolOp::Div(factor as i128), true));
    }
    let id = number_between(number, column, 1, 1 << 63, Expected::Operand)?;
    Ok((PolOp::Push(id as u64), false))
}

// The operation that a word is, by the word behind it; and whether it takes that too.
fn op_of(word: &Word<'_>, next: &[u8]) -> Result<(PolOp, bool), StepFault>
    ensures { result ≡ op_of (chunk word.now) next.now }
{
    match read_digits(word.text) {
        Number::NotANumber => plain_op(word, next),
        number => number_op(number, word.column, next),
    }
}

// The same of a word that is no number.
fn plain_op(word: &Word<'_>, next: &[u8]) -> Result<(PolOp, bool), StepFault>
    ensures { result ≡ op_by None (chunk word.now) next.now }
{
    match word.text {
        b"+" => Ok((PolOp::Add, false)),
        b"s" => Ok((PolOp::Saturate, false)),
        _ => literal_op(word, next),
    }
}

// A literal that is weakened or pushed.
fn literal_op(word: &Word<'_>, next: &[u8]) -> Result<(PolOp, bool), StepFault>
    ensures { result ≡ literal_op (chunk word.now) next.now }
{
    let lit = literal_in(word, Expected::Operand)?;
    if next == b"w".as_slice() {
        return Ok((PolOp::Weaken(lit.var), true));
    }
    Ok((PolOp::Axiom(lit), false))
}

// The text of a word, if there is one.
fn text_of<'a>(word: &Option<Word<'a>>) -> &'a [u8]
    ensures { result.now ≡ ahead_text word.now }
{
    match word {
        Some(word) => word.text,
        None => b"",
    }
}

/// The operations that words are.
pub fn read_ops(alloc: Global, words: Words<'_>) -> Result<PolOps, StepFault>
    ensures ok { IfOk result (λ ops. ops_from false words.entry ≡ Ok ops) }
    ensures err { IfErr result (IsFaultOf (ops_from false words.entry)) }
{
    let mut words = words;
    let mut ops = PolOps::new(alloc);
    let mut ahead = words.next();
    'ops: while let Some(word) = ahead {
        ahead = words.next();
        let (op, takes) = op_of(&word, text_of(&ahead))?;
        ops.push(op)?;
        if takes {
            ahead = words.next();
        }
    }
    Ok(ops)
}
