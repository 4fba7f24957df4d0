// Normal forms, what is left of them, and where they hold.
use crate::cases::{assert_found, assert_page};
use crate::samples::{linear, linear_text, lits, lits_text, loaded};
use pb_base::Clause;
use pb_family::are_below;
use pb_norm::{Reduced, Rest, clause_form, reduce, value};
use std::alloc::Global;

// A constraint's normal form.
fn normal(alloc: Global, text: &str) -> Option<String> {
    let constraint = linear(alloc, text)?.copy(alloc).ok()?;
    linear_text(alloc, &constraint)
}

// Terms in any order have one form.
const NORMAL: &str = "\
3 x1 -2 x2 0 x3 4 ~x4 >= 1 ; => 3 x1 2 ~x2 4 ~x4 >= 3
4 ~x4 1 x1 -2 x2 2 x1 >= 1 ; => 3 x1 2 ~x2 4 ~x4 >= 3";

// True if a constraint over three variables holds under values of these.
fn holds(alloc: Global, text: &str, model: &[bool; 3]) -> Option<bool> {
    let constraint = linear(alloc, text)?;
    if !are_below(constraint.terms(), 4) {
        return None;
    }
    Some(value(&constraint, model))
}

// The units of a constraint, and the clause that is left.
fn reduced_text(alloc: Global, reduced: &Reduced) -> Option<String> {
    let units = lits_text(alloc, reduced.units.as_slice())?;
    let Rest::Clause(lits) = &reduced.rest else {
        return None;
    };
    let clause = lits_text(alloc, lits.as_slice())?;
    format!(in alloc; "{};{}", units.as_str(), clause.as_str()).ok()
}

// The same of a text.
fn units_and_clause(alloc: Global, text: &str) -> Option<String> {
    let constraint = linear(alloc, text)?;
    reduced_text(alloc, &reduce(alloc, &constraint).ok()?)
}

const FORCED: &str = "5 x1 3 x2 2 x3 >= 6 ; =>  x1; x2 x3";

// The constraints of a text, each after a bar.
fn loaded_text(alloc: Global, text: &str) -> Option<String> {
    let constraints = loaded(alloc, text)?;
    let mut lines = String::new(alloc);
    for constraint in constraints.as_slice() {
        let line = linear_text(alloc, constraint)?;
        lines.push_str("| ").ok()?;
        lines.push_str(line.as_str()).ok()?;
    }
    Some(lines)
}

// Both halves.
const LOADED: &str = "-4 x3 3 ~x2 1 x1 = -2 ; => | 1 x1 3 ~x2 4 ~x3 >= 2| 1 ~x1 3 x2 4 x3 >= 6";

// The constraint of a clause.
fn clause_text(alloc: Global, text: &str) -> Option<String> {
    let clause = Clause::from_vec(lits(alloc, text)?);
    let constraint = clause_form(alloc, &clause).ok()?;
    linear_text(alloc, &constraint)
}

// Each literal is named once.
const CLAUSE: &str = "x5 ~x4 x5 => 1 ~x4 1 x5 >= 1";

#[test]
fn constraints(rt: HostRuntime) {
    assert_page(&rt, normal, "\n", NORMAL);
    assert_page(&rt, units_and_clause, "\n", FORCED);
    assert_page(&rt, loaded_text, "\n", LOADED);
    assert_page(&rt, clause_text, "\n", CLAUSE);
    let text = "5 x1 3 x2 2 x3 >= 6 ;";
    let both = holds(rt.alloc(), text, &[true, false, true]);
    let light = holds(rt.alloc(), text, &[false, true, true]);
    assert!(rt; both == Some(true) && light == Some(false));
}
