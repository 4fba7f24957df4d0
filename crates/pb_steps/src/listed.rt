//! What a line lists one after another, as it is read and written.
ghost use Rattle.std.specs.Prelude.{◌≡◌, ◌≤◌, ◌++◌, ◌∷◌, [], List, length, map, IfOk, IfSome, OnOk, OnErr};
ghost use Rattle.std.specs.List.{flat_map, AllByRecursion};
ghost use Rattle.pb_steps.specs.Fronts.{IsShort, Spells};
ghost use Rattle.pb_steps.specs.Sayable.{IsId, IsOp, IsTerm};
ghost use Rattle.pb_steps.specs.StepGrammar.{StepSymbol, op_symbols, set_symbols, term_symbols};
ghost use Rattle.pb_steps.specs.StepGrammar.StepSymbol.{number};
ghost use Rattle.pb_steps.specs.StepText.{with_blanks};
ghost use Rattle.pb_steps.specs.inner.Appending.{KeepsFront};

use crate::front_op::op_at;
use crate::op::{PolOp, Set};
use crate::short::{id_at, term_at};
use crate::write_item::{push_op, push_set, push_term};
use crate::write_word::push_number;
use pb_base::{Ids, Seq, Term};
use std::alloc::{AllocError, Global};

// For how many words room is taken at once.
const MOST: usize = 1 << 12;

/// What some words of a line stand for.
pub(crate) trait Listed: Drop {
    ghost symbols: { Self → List StepSymbol };

    /// Appends its words, each behind a blank.
    fn push(&self, out: &mut Vec<u8>) -> Result<(), AllocError>
        ensures ok { OnOk result (out.new.items ≡ out.old.items ++ with_blanks (symbols self.now)) }
        ensures kept { OnErr result (KeepsFront out.old.items out.new.items) };
}

/// What is read where each word stands behind one blank.
pub(crate) trait Fronted: Listed {
    ghost IsFine: { Self → Type 0 };

    /// The first one, and how many bytes its words take.
    fn front(left: &[u8]) -> Option<(Self, usize)>
        ensures short { IfSome result (λ r. IsShort left.now (Self.symbols r.0) r.1) }
        ensures fine { IfSome result (λ r. IsFine r.0) };
}

impl Listed for u64 {
    ghost symbols = { λ id. number id ∷ [] };

    fn push(&self, out: &mut Vec<u8>) -> Result<(), AllocError> {
        push_number(out, *self)
    }
}

impl Fronted for u64 {
    ghost IsFine = { IsId };

    fn front(left: &[u8]) -> Option<(u64, usize)> {
        id_at(left)
    }
}

impl Listed for Term {
    ghost symbols = { term_symbols };

    fn push(&self, out: &mut Vec<u8>) -> Result<(), AllocError> {
        push_term(out, self)
    }
}

impl Fronted for Term {
    ghost IsFine = { IsTerm };

    fn front(left: &[u8]) -> Option<(Term, usize)> {
        term_at(left)
    }
}

impl Listed for PolOp {
    ghost symbols = { op_symbols };

    fn push(&self, out: &mut Vec<u8>) -> Result<(), AllocError> {
        push_op(out, self)
    }
}

impl Fronted for PolOp {
    ghost IsFine = { IsOp };

    fn front(left: &[u8]) -> Option<(PolOp, usize)> {
        op_at(left)
    }
}

impl Listed for Set {
    ghost symbols = { set_symbols };

    fn push(&self, out: &mut Vec<u8>) -> Result<(), AllocError> {
        push_set(out, self)
    }
}

/// Appends the words of each.
pub(crate) fn push_all<T: Listed>(out: &mut Vec<u8>, items: &[T]) -> Result<(), AllocError>
    ensures ok { OnOk result (out.new.items ≡ out.old.items ++ with_blanks (flat_map T.symbols items.now)) }
    ensures kept { OnErr result (KeepsFront out.old.items out.new.items) }
{
    for item in items {
        item.push(out)?;
    }
    Ok(())
}

// How much room is made for what these bytes list before any of it is read: a word is four bytes with its blank or more, most are. It
// is a guess, which costs no look at a byte, and bounded, so that what stands in a line takes no room before it is read.
fn room_in(left: &[u8]) -> usize {
    (left.len() / 4).min(MOST)
}

// Those at the front, and how many bytes they take.
pub(crate) fn items_at<T: Fronted>(
    alloc: Global,
    left: &[u8],
) -> Result<(Seq<T>, usize), AllocError>
    ensures within { IfOk result (λ r. r.1 ≤ length left.now) }
    ensures spells { IfOk result (λ r. Spells left.now (flat_map T.symbols r.0) r.1) }
    ensures each { IfOk result (λ r. AllByRecursion T.IsFine r.0) }
{
    let mut items = Vec::with_capacity(alloc, room_in(left))?;
    let mut at = 0usize;
    'items: while let Some((item, count)) = T::front(&left[at..]) {
        items.push(item)?;
        at += count;
    }
    Ok((Seq::from_vec(items), at))
}

/// The ids at the front, each behind one blank, and how many bytes these words take.
pub fn ids_at(alloc: Global, left: &[u8]) -> Result<(Ids, usize), AllocError>
    ensures within { IfOk result (λ r. r.1 ≤ length left.now) }
    ensures spells { IfOk result (λ r. Spells left.now (map number r.0) r.1) }
    ensures ids { IfOk result (λ r. AllByRecursion IsId r.0) }
{
    items_at(alloc, left)
}
