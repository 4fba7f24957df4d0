//! What a line says.
//!
//! Words, ids and limits are those of derivations, from `pb_steps`, whose fault of a line becomes one of LRAT where the checker reads
//! the line. `4 d 0` deletes nothing and is accepted. `00` ends hints, and `-0` and `+0` end literals alone.
ghost use Rattle.std.specs.Prelude.{◌≡◌, ℕ, List, [], ◌∷◌, ◌<◌, ◌^◌, Ok, Err, IfOk, IfErr};
ghost use Rattle.pb_base.specs.Pieces.{chunk};
ghost use Rattle.pb_dimacs.specs.CnfReading.{opens_comment};
ghost use Rattle.pb_steps.specs.LineWords.{and_then};
ghost use Rattle.pb_steps.specs.LineSteps.{ends_here, IsFaultOf};
ghost use Rattle.pb_lrat.specs.LratLines.{ids_of, clause_of, addition_of, behind_id, said_of};

use crate::quick::quick_line;
use crate::said::Said;
use crate::word::{hint_in, literal_in};
use pb_base::{Clause, Expected, Ids, Word, Words, words};
use pb_steps::{StepFault, id_in, token_fault};
use std::alloc::Global;

// Returns the ids, if no word follows them.
fn end_ids(words: &mut Words<'_>, ids: Ids) -> Result<Ids, StepFault>
    ensures ok { IfOk result (λ made. (made ≡ ids) × (ends_here {A = List ℕ} Expected.LratEnd [] words.old ≡ Ok [])) }
    ensures err { IfErr result (λ fault. ends_here {A = List ℕ} Expected.LratEnd [] words.old ≡ Err fault) }
{
    match words.next() {
        None => Ok(ids),
        Some(word) => Err(token_fault(word.column, Expected::LratEnd)),
    }
}

/// Reads words as ids, up to a 0 that ends the line.
fn read_ids(alloc: Global, words: Words<'_>, end: u64) -> Result<Ids, StepFault>
    ensures ok { IfOk result (λ ids. ids_of end words.entry ≡ Ok ids) }
    ensures err { IfErr result (IsFaultOf (ids_of end words.entry)) }
{
    let mut words = words;
    let mut ids = Ids::new(alloc);
    'ids: while let Some(word) = words.next() {
        let Some(id) = hint_in(&word)? else {
            return end_ids(&mut words, ids);
        };
        ids.push(id)?;
    }
    Err(token_fault(end, Expected::LratHint))
}

/// Reads words as literals, up to a 0, which is read too.
fn read_clause(
    alloc: Global,
    vars: u32,
    first: Word<'_>,
    words: &mut Words<'_>,
    end: u64,
) -> Result<Clause, StepFault>
    requires vars { vars < 2 ^ 31 }
    ensures ok { IfOk result (λ clause. clause_of vars end (chunk first.entry ∷ words.old) ≡ Ok (clause, words.new)) }
    ensures err { IfErr result (IsFaultOf (clause_of vars end (chunk first.entry ∷ words.old))) }
{
    let mut clause = Clause::new(alloc);
    let mut next = literal_in(&first, vars)?;
    'literals: while let Some(lit) = next {
        clause.push(lit)?;
        let Some(word) = words.next() else {
            return Err(token_fault(end, Expected::LratLiteral));
        };
        next = literal_in(&word, vars)?;
    }
    Ok(clause)
}

// Reads a line that adds a clause: its literals and a 0, hints and a 0.
fn read_addition(
    alloc: Global,
    vars: u32,
    id: u64,
    first: Word<'_>,
    words: Words<'_>,
    end: u64,
) -> Result<Said, StepFault>
    requires vars { vars < 2 ^ 31 }
    ensures ok { IfOk result (λ said. addition_of vars end id (chunk first.entry ∷ words.entry) ≡ Ok said) }
    ensures err { IfErr result (IsFaultOf (addition_of vars end id (chunk first.entry ∷ words.entry))) }
{
    let mut words = words;
    let clause = read_clause(alloc, vars, first, &mut words, end)?;
    let hints = read_ids(alloc, words, end)?;
    Ok(Said::Adds { id, clause, hints })
}

// Reads a line that deletes clauses: their ids and a 0.
fn read_deletion(alloc: Global, words: Words<'_>, end: u64) -> Result<Said, StepFault>
    ensures ok { IfOk result (λ said. and_then (λ ids. Ok (Said.Deletes ids)) (ids_of end words.entry) ≡ Ok said) }
    ensures err { IfErr result (IsFaultOf (and_then (λ ids. Ok (Said.Deletes ids)) (ids_of end words.entry))) }
{
    Ok(Said::Deletes(read_ids(alloc, words, end)?))
}

// Reads what follows the line's id.
fn read_behind(
    alloc: Global,
    vars: u32,
    id: u64,
    words: Words<'_>,
    end: u64,
) -> Result<Said, StepFault>
    requires vars { vars < 2 ^ 31 }
    ensures ok { IfOk result (λ said. behind_id vars end id words.entry ≡ Ok said) }
    ensures err { IfErr result (IsFaultOf (behind_id vars end id words.entry)) }
{
    let mut words = words;
    let Some(word) = words.next() else {
        return Err(token_fault(end, Expected::LratLiteral));
    };
    if word.text == b"d".as_slice() {
        return read_deletion(alloc, words, end);
    }
    read_addition(alloc, vars, id, word, words, end)
}

// True if the line begins with `c`.
fn opens_comment(text: &[u8]) -> bool
    ensures { result ≡ opens_comment text.now }
{
    matches!(text, [b'c', ..])
}

// Reads a line by its words, over the first `vars` variables.
fn read_words(alloc: Global, vars: u32, line: &[u8]) -> Result<Said, StepFault>
    requires vars { vars < 2 ^ 31 }
    ensures ok { IfOk result (λ said. said_of vars line.now ≡ Ok said) }
    ensures err { IfErr result (IsFaultOf (said_of vars line.now)) }
{
    let mut words = words(line);
    let Some(word) = words.next() else {
        return Ok(Said::Nothing);
    };
    if opens_comment(word.text) {
        return Ok(Said::Nothing);
    }
    let id = id_in(&word, Expected::LratId)?;
    read_behind(alloc, vars, id, words, line.len() as u64 + 1)
}

/// Reads a line over the first `vars` variables, in one pass if it is in the usual layout.
pub(crate) fn read_line(alloc: Global, vars: u32, line: &[u8]) -> Result<Said, StepFault>
    requires vars { vars < 2 ^ 31 }
    ensures ok { IfOk result (λ said. said_of vars line.now ≡ Ok said) }
    ensures err { IfErr result (IsFaultOf (said_of vars line.now)) }
{
    if let Some(said) = quick_line(alloc, vars, line)? {
        return Ok(said);
    }
    read_words(alloc, vars, line)
}
