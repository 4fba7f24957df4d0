//! The parts of a `rup` or `red` line.
ghost use Rattle.std.specs.Prelude.{◌≡◌, ◌<◌, ℕ, length, Ok, Err, IfOk, IfErr};
ghost use Rattle.pb_base.specs.declared.expected.Expected.TheVariants as expected;
ghost use Rattle.pb_base.specs.Pieces.{chunk};
ghost use Rattle.pb_steps.specs.LineWords.{and_then, integer_in};
ghost use Rattle.pb_steps.specs.LineSteps.{IsFaultOf, term_in, terms_in, right_in, ids_in, sets_in, arrow_in, with_item, with_first_term};
ghost use Rattle.pb_steps.specs.inner.Reading.{with_items, with_terms};

use crate::fault::StepFault;
use crate::op::Set;
use crate::past::take;
use crate::step::Sets;
use crate::word::{bit_in, id_in, integer_in, literal_in, token_fault, variable_in};
use pb_base::{Expected, Ids, Term, Terms, Word, Words};
use std::alloc::Global;

// A term, by its coefficient and the word behind that.
fn read_term(word: &Word<'_>, words: &mut Words<'_>, end: u64) -> Result<Term, StepFault>
    ensures ok { IfOk result (λ t. and_then (λ coef. term_in end coef words.old) (integer_in expected.Term (chunk word.now)) ≡ with_first_term t (terms_in end words.new)) }
    ensures err { IfErr result (λ fault. and_then (λ coef. term_in end coef words.old) (integer_in expected.Term (chunk word.now)) ≡ Err fault) }
    ensures fewer { IfOk result (λ _. length words.new < length words.old) }
{
    let coef = integer_in(word, Expected::Term)?;
    let Some(name) = words.next() else {
        return Err(token_fault(end, Expected::Literal));
    };
    let lit = literal_in(&name, Expected::Literal)?;
    Ok(Term { coef, lit })
}

// Adds the terms before a `>=`, and takes that.
fn add_terms(terms: &mut Terms, words: &mut Words<'_>, end: u64) -> Result<(), StepFault>
    ensures ok { IfOk result (λ _. with_terms terms.old (terms_in end words.old) ≡ Ok (terms.new, words.new)) }
    ensures err { IfErr result (IsFaultOf (terms_in end words.old)) }
{
    'terms: while let Some(word) = words.next() {
        if word.text == b">=".as_slice() {
            return Ok(());
        }
        terms.push(read_term(&word, words, end)?)?;
    }
    Err(token_fault(end, Expected::Term))
}

/// The terms before a `>=`, and takes that.
pub fn read_terms(alloc: Global, words: &mut Words<'_>, end: u64) -> Result<Terms, StepFault>
    ensures ok { IfOk result (λ terms. terms_in end words.old ≡ Ok (terms, words.new)) }
    ensures err { IfErr result (IsFaultOf (terms_in end words.old)) }
{
    let mut terms = Terms::new(alloc);
    add_terms(&mut terms, words, end)?;
    Ok(terms)
}

/// The right side and its `;`.
pub fn read_right(words: &mut Words<'_>, end: u64) -> Result<i128, StepFault>
    ensures ok { IfOk result (λ right. right_in end words.old ≡ Ok (right, words.new)) }
    ensures err { IfErr result (λ fault. right_in end words.old ≡ Err fault) }
{
    let Some(word) = words.next() else {
        return Err(token_fault(end, Expected::Integer));
    };
    let right = integer_in(&word, Expected::Integer)?;
    take(words, end, b";", Expected::Semicolon)?;
    Ok(right)
}

fn add_ids(ids: &mut Ids, words: Words<'_>) -> Result<(), StepFault>
    ensures ok { IfOk result (λ _. with_items ids.old (ids_in words.entry) ≡ Ok ids.new) }
    ensures err { IfErr result (IsFaultOf (ids_in words.entry)) }
{
    for word in words {
        ids.push(id_in(&word, Expected::Id)?)?;
    }
    Ok(())
}

/// The ids that words are.
pub fn read_ids(alloc: Global, words: Words<'_>) -> Result<Ids, StepFault>
    ensures ok { IfOk result (λ ids. ids_in words.entry ≡ Ok ids) }
    ensures err { IfErr result (IsFaultOf (ids_in words.entry)) }
{
    let mut ids = Ids::new(alloc);
    add_ids(&mut ids, words)?;
    Ok(ids)
}

// The value behind a variable.
fn read_value(words: &mut Words<'_>, end: u64) -> Result<bool, StepFault>
    ensures ok { (v : ℕ) → IfOk result (λ value. arrow_in end v words.old ≡ with_item (record { var = v; value = value }) (sets_in end v words.new)) }
    ensures err { (v : ℕ) → IfErr result (λ fault. arrow_in end v words.old ≡ Err fault) }
    ensures fewer { IfOk result (λ _. length words.new < length words.old) }
{
    let Some(arrow) = words.next() else {
        return Err(token_fault(end, Expected::Arrow));
    };
    if arrow.text != b"->".as_slice() {
        return Err(token_fault(arrow.column, Expected::Arrow));
    }
    let Some(value) = words.next() else {
        return Err(token_fault(end, Expected::Bit));
    };
    bit_in(&value)
}

/// The variables that words set, and their values.
pub fn read_sets(alloc: Global, words: Words<'_>, end: u64) -> Result<Sets, StepFault>
    ensures ok { IfOk result (λ sets. sets_in end 0 words.entry ≡ Ok sets) }
    ensures err { IfErr result (IsFaultOf (sets_in end 0 words.entry)) }
{
    let mut words = words;
    let mut sets = Sets::new(alloc);
    let mut above = 0;
    'sets: while let Some(word) = words.next() {
        let var = variable_in(&word, above)?;
        let value = read_value(&mut words, end)?;
        sets.push(Set { var, value })?;
        above = var.index();
    }
    Ok(sets)
}
