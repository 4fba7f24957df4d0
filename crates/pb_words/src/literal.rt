// Literals in words.
ghost use Rattle.std.specs.Prelude.{◌≡◌, IfOk, IsErrOf, None, Some, map};
ghost use Rattle.pb_words.specs.LitWords.{lit_in, lits_in};

use crate::fault::WordsFault;
use pb_base::{Lit, LitWord, Lits, read_literal};
use std::alloc::Global;

/// Reads a word as a literal of a variable up to 2^31 - 1, as `x3` or `~x3`.
pub fn lit_in(word: &[u8]) -> Option<Lit>
    ensures { result ≡ lit_in word.now }
{
    match read_literal(word) {
        LitWord::Within(lit) => Some(lit),
        LitWord::TooGreat | LitWord::NotALiteral => None,
    }
}

/// Reads words as literals; `Usage` if one of them is none.
pub fn lits_in(alloc: Global, words: &[&str]) -> Result<Lits, WordsFault>
    ensures asked { IfOk result (λ lits. lits_in (map (λ word. word.now) words.now) ≡ Some lits) }
    ensures usage { IsErrOf result WordsFault.Usage → lits_in (map (λ word. word.now) words.now) ≡ None }
{
    let mut lits = Lits::new(alloc);
    for word in words {
        let Some(lit) = lit_in(word.as_bytes()) else {
            return Err(WordsFault::Usage);
        };
        lits.push(lit)?;
    }
    Ok(lits)
}
