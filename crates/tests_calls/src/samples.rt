//! Constraints that tests are made of, and texts that show them.
pub mod desks;
pub mod families;

use pb_base::{Lit, LitWord, Raw, Term, read_literal, words};
use pb_norm::{AtMost, Half, Linear, Linears, Rest, load, normalize, reduce};
use pb_opb::read_opb;
use std::alloc::Global;

/// The literals of a text, as in `x1 ~x2`.
pub fn lits(alloc: Global, text: &str) -> Option<Vec<Lit>> {
    let mut made = Vec::new(alloc);
    for word in words(text.as_bytes()) {
        match read_literal(word.text) {
            LitWord::Within(lit) => made.push(lit).ok()?,
            _ => return None,
        }
    }
    Some(made)
}

/// The constraints of an OPB text.
pub fn loaded(alloc: Global, text: &str) -> Option<Linears> {
    let problem = read_opb(alloc, text.as_bytes()).ok()?;
    load(alloc, &problem).ok()
}

/// The lower half of the first statement of an OPB text.
pub fn linear(alloc: Global, text: &str) -> Option<Linear> {
    let problem = read_opb(alloc, text.as_bytes()).ok()?;
    let mut first = Raw::empty(alloc);
    match problem.statements.iter().next_into(&mut first) {
        Ok(true) => normalize(alloc, &first, Half::Lower).ok(),
        _ => None,
    }
}

fn bounded(rest: Rest) -> Option<AtMost> {
    match rest {
        Rest::One(sum) => Some(sum),
        Rest::Card(sum) => Some(sum),
        Rest::General(sum) => Some(sum),
        Rest::Empty => None,
        Rest::Nothing => None,
        Rest::Clause(_) => None,
    }
}

/// The bounded sum that is left of a statement without its units.
pub fn at_most(alloc: Global, text: &str) -> Option<AtMost> {
    let constraint = linear(alloc, text)?;
    let reduced = reduce(alloc, &constraint).ok()?;
    bounded(reduced.rest)
}

/// A literal, as `x1` or `~x1`.
pub fn lit_text(alloc: Global, lit: Lit) -> Option<String> {
    let sign = if lit.positive { "" } else { "~" };
    format!(in alloc; "{}x{}", sign, lit.index()).ok()
}

/// Literals, each with a blank before it.
pub fn lits_text(alloc: Global, lits: &[Lit]) -> Option<String> {
    let mut text = String::new(alloc);
    for lit in lits {
        let more = lit_text(alloc, *lit)?;
        text.push(' ').ok()?;
        text.push_str(more.as_str()).ok()?;
    }
    Some(text)
}

/// A constraint by its terms and its degree, as `3 x1 2 ~x2 >= 3`.
pub fn constraint_text(alloc: Global, terms: &[Term], degree: u128) -> Option<String> {
    let mut text = String::new(alloc);
    for term in terms {
        let lit = lit_text(alloc, term.lit)?;
        let more = format!(in alloc; "{} {} ", term.weight(), lit.as_str()).ok()?;
        text.push_str(more.as_str()).ok()?;
    }
    let more = format!(in alloc; ">= {}", degree).ok()?;
    text.push_str(more.as_str()).ok()?;
    Some(text)
}

/// A constraint, as `3 x1 2 ~x2 >= 3`.
pub fn linear_text(alloc: Global, constraint: &Linear) -> Option<String> {
    constraint_text(alloc, constraint.terms(), constraint.degree())
}
