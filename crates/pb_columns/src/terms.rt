//! Terms in columns.
ghost use Rattle.std.specs.Prelude.{◌≡◌, ◌≤◌, ◌<◌, ◌+◌, ◌*◌, ◌^◌, ◌↔◌, All, IfOk, IsTrue, length};
ghost use Rattle.pb_columns.specs.Columns.{coefficient_at, AreTermsOf, HasWords, IsBelow};

use crate::literals::literal_of;
use crate::number::{signed, wide};
use pb_base::{NoMemory, Term, TermColumn};
use std::alloc::Global;

/// True if there is one word, or two, for each literal.
pub(crate) fn has_words(words: &[u64], count: usize) -> bool
    ensures { IsTrue result ↔ HasWords words.now count }
{
    let words = words.len();
    words == count || (words % 2 == 0 && words / 2 == count)
}

// Returns the coefficient of the literal at this position, from 0.
fn coefficient_at(words: &[u64], count: usize, place: usize) -> i128
    requires words { HasWords words.now count }
    requires within { place < count }
    ensures { result ≡ coefficient_at words.now count place }
{
    if words.len() == count {
        signed(words[place])
    } else {
        wide(words[2 * place], words[2 * place + 1])
    }
}

/// Returns the terms of coefficients and literals.
pub(crate) fn terms_of(
    alloc: Global,
    words: &[u64],
    literals: &[i32],
    first: u32,
) -> Result<TermColumn, NoMemory>
    requires words { HasWords words.now (length literals.now) }
    requires below { All (IsBelow first) literals.now }
    requires high { first ≤ 2 ^ 31 }
    ensures { IfOk result (AreTermsOf words.now literals.now first (length literals.now)) }
{
    let mut terms = TermColumn::new(alloc);
    for place in 0..literals.len() {
        terms.push(&Term {
            coef: coefficient_at(words, literals.len(), place),
            lit: literal_of(literals[place]),
        })?;
    }
    Ok(terms)
}
