// Rounds over all constraints, with each slack computed anew, are the definition's program: the engine finds the same.
use super::propagation::{Holds, reached, told};
use crate::samples::{lits, loaded};
use pb_base::{Lit, Term};
use pb_norm::Linear;
use std::alloc::Global;

fn value(values: &[Option<bool>], lit: Lit) -> Option<bool> {
    match values.get(lit.index() as usize) {
        Some(Some(value)) => Some(*value == lit.positive),
        _ => None,
    }
}

fn room(terms: &[Term], values: &[Option<bool>]) -> u128 {
    let mut sum: u128 = 0;
    for term in terms {
        if value(values, term.lit) != Some(false) {
            sum = sum.saturating_add(term.weight());
        }
    }
    sum
}

fn join(values: &mut [Option<bool>], lit: Lit) {
    if value(values, lit).is_none()
        && let Some(value) = values.get_mut(lit.index() as usize)
    {
        *value = Some(lit.positive);
    }
}

// Has what a constraint needs hold, or says that its room is too little.
fn visit(constraint: &Linear, values: &mut [Option<bool>]) -> bool {
    let room = room(constraint.terms(), values);
    let degree = constraint.degree();
    if room < degree {
        return false;
    }
    for term in constraint.terms() {
        if term.weight() > room - degree {
            join(values, term.lit);
        }
    }
    true
}

// Goes over the constraints so many times, or says that a room is too little.
fn visit_all(constraints: &[Linear], values: &mut [Option<bool>], rounds: u32) -> bool {
    for _ in 0..rounds {
        for constraint in constraints {
            if !visit(constraint, values) {
                return false;
            }
        }
    }
    true
}

impl Holds for [Option<bool>; 7] {
    fn has(&self, lit: Lit) -> bool {
        value(self, lit) == Some(true)
    }
}

// What is reached in rounds, one more than there are variables, from literals of six variables.
fn rounds_over(alloc: Global, constraints: &[Linear], given: &[Lit]) -> Option<String> {
    let mut values = [None; 7];
    for lit in given {
        join(&mut values, *lit);
    }
    if !visit_all(constraints, &mut values, 7) {
        return "conflict".to_string(alloc).ok();
    }
    told(alloc, &values, 6)
}

fn rounds(alloc: Global, text: &str, given: &str) -> Option<String> {
    let given = lits(alloc, given)?;
    let constraints = loaded(alloc, text)?;
    rounds_over(alloc, constraints.as_slice(), &given)
}

// The next number of a linear congruential sequence.
fn draw(state: &mut u32) -> u32 {
    *state = state.wrapping_mul(1664525).wrapping_add(1013904223);
    *state / 65536
}

// Adds a literal of one of six variables.
fn draw_lit(alloc: Global, state: &mut u32, text: &mut String) -> Option<()> {
    let index = 1 + draw(state) % 6;
    let sign = if draw(state) % 2 == 0 { "" } else { "~" };
    let lit = format!(in alloc; "{sign}x{index} ").ok()?;
    text.push_str(lit.as_str()).ok()
}

// Adds three such literals after these coefficients, and the end of a statement.
fn draw_statement(
    alloc: Global,
    state: &mut u32,
    coefs: [&str; 3],
    end: &str,
    text: &mut String,
) -> Option<()> {
    for coef in coefs {
        text.push_str(coef).ok()?;
        draw_lit(alloc, state, text)?;
    }
    text.push_str(end).ok()
}

// A few clauses and weighted constraints.
fn draw_system(alloc: Global, state: &mut u32) -> Option<String> {
    let mut text = String::new(alloc);
    for _ in 0..3 {
        draw_statement(alloc, state, ["1 ", "1 ", "1 "], ">= 1 ;\n", &mut text)?;
        draw_statement(alloc, state, ["3 ", "2 ", "1 "], ">= 3 ;\n", &mut text)?;
    }
    Some(text)
}

// True if the engine and the rounds find the same of a system.
fn agree_on(alloc: Global, text: &str, given: &str) -> Option<bool> {
    let found = reached(alloc, 6, text, given)?;
    let wanted = rounds(alloc, text, given)?;
    Some(found.as_str() == wanted.as_str())
}

// True if they do so of the next system.
fn agree_on_next(alloc: Global, state: &mut u32) -> Option<bool> {
    let text = draw_system(alloc, state)?;
    let mut given = String::new(alloc);
    draw_lit(alloc, state, &mut given)?;
    agree_on(alloc, text.as_str(), given.as_str())
}

// True if they do so for so many systems.
fn agree(alloc: Global, count: u32) -> bool {
    let mut state: u32 = 1;
    for _ in 0..count {
        if agree_on_next(alloc, &mut state) != Some(true) {
            return false;
        }
    }
    true
}

#[test]
fn rounds_find_the_same(rt: HostRuntime) {
    let agree = agree(rt.alloc(), 200);
    assert!(rt; agree);
}
