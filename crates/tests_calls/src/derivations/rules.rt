// Steps that are applied one by one, by hand from the rules.
ghost use Rattle.std.specs.Prelude.{◌≡◌};
ghost use Rattle.pb_base.specs.Problems.{IsWithinLimits};
ghost use Rattle.pb_norm.specs.Products.{loaded_of};
ghost use Rattle.pb_steps.specs.Steps.{IsRule, IsSpelled};

use crate::cases::assert_found;
use crate::samples::lits;
use pb_base::{Clause, Problem, Var};
use pb_database::Database;
use pb_norm::{Linears, load};
use pb_opb::read_opb;
use pb_rules::{Applied, RuleFault, apply};
use pb_steps::{Step, read_step};
use std::alloc::Global;

// Loaded constraints, beside fresh variables up to a number.
fn database_with(alloc: Global, problem: &Problem, loaded: &Linears, vars: u32) -> Option<Database>
    requires within { IsWithinLimits problem.now }
    requires loaded { loaded.now ≡ loaded_of problem.now }
{
    if problem.originals() > vars {
        return None;
    }
    Database::new(alloc, problem.originals(), vars, loaded.as_slice()).ok()
}

// The constraints of a text, beside fresh variables up to a number.
fn database_of(alloc: Global, opb: &str, vars: u32) -> Option<Database> {
    let problem = read_opb(alloc, opb.as_bytes()).ok()?;
    let loaded = load(alloc, &problem).ok()?;
    database_with(alloc, &problem, &loaded, vars)
}

// What is answered, or why the step is not allowed.
fn answer(alloc: Global, db: &mut Database, step: &Step, next: Option<&Clause>) -> Option<String>
    requires rule { IsRule step.now }
    requires spelled { IsSpelled step.now }
{
    match apply(db, step, next) {
        Ok(Applied::Id(id)) => format!(in alloc; "Id({id})").ok(),
        Ok(Applied::Done) => "Done".to_string(alloc).ok(),
        Err(RuleFault::Denied(denied)) => format!(in alloc; "{denied:?}").ok(),
        Err(RuleFault::NoMemory) => None,
    }
}

// The same of a line, where no clause is left if its text is empty.
fn line_answer(alloc: Global, db: &mut Database, line: &str, clause: &str) -> Option<String> {
    let step = read_step(alloc, line.as_bytes()).ok()?;
    let next = Clause::from_vec(lits(alloc, clause)?);
    let next = if next.len() > 0 { Some(&next) } else { None };
    match &step {
        Step::Blank | Step::Head | Step::Loaded { .. } | Step::End => None,
        _ => answer(alloc, db, &step, next),
    }
}

// Adds a line.
fn push_line(text: &mut String, line: Option<String>) -> Option<()> {
    text.push_str(line?.as_str()).ok()?;
    text.push('\n').ok()
}

// The answers to lines, one after another, each of which may have the next clause after `beside`.
fn answers(alloc: Global, db: &mut Database, lines: &str) -> Option<String> {
    let mut text = String::new(alloc);
    for step in lines.lines() {
        let (line, clause) = step.split_once(" beside ").unwrap_or((step, ""));
        let found = line_answer(alloc, db, line, clause);
        push_line(&mut text, found)?;
    }
    Some(text)
}

// One weighted constraint and a fresh variable, and what is answered to each of some lines.
fn answers_of(alloc: Global, lines: &str) -> Option<String> {
    let mut db = database_of(alloc, "+5 x1 +3 x2 +2 x3 >= 6 ;", 4)?;
    answers(alloc, &mut db, lines)
}

const STEPS: &str = "\
rup +1 x1 >= 1 ; 1
rup +1 x2 >= 1 ; 1
pol 1 x1 w s
pol 1 +
pol 1 7 +
red +1 ~x4 +1 x2 >= 1 ; x4 -> 0
red +1 x4 +1 ~x2 >= 1 ; x4 -> 1
red +1 x4 >= 1 ; x4 -> 1
red +1 x1 >= 1 ; x1 -> 1
out 2 beside x1
out 3 beside x1
out 3 beside x2 x3
out 3
del 1 1
del 1 2
del 1 4
rup >= 0 ; 1
rup +1 x5 >= 0 ;";

const ANSWERS: &str = "\
Id(2)
NotPropagated
Id(3)
Stack
UnknownId { id: 7 }
Id(4)
Id(5)
Obligation { id: 4 }
SetsOriginal { var: Var { index: 1 } }
Done
NotImplied { id: 3 }
Done
NoClause
UnknownId { id: 1 }
OutDeleted { id: 2 }
Done
UnknownId { id: 1 }
UnknownVar { var: Var { index: 5 } }
";

// More constraints are named than are shown in rounds.
const LONG_STEPS: &str = "\
rup +1 x1 >= 1 ; 1 1 1 1 1 1 1 1 1
rup +1 x2 >= 1 ; 2 1 2 1 2 1 2 1 2
rup +3 x2 +2 x3 >= 1 ; 2 2 2 2 2 2 2 2 1
rup +1 x1 >= 1 ; 2 2 2 2 2 2 2 2 7";

fn push_id(alloc: Global, id: Option<u64>, text: &mut String) -> Option<()> {
    let found = format!(in alloc; "{id:?} ").ok()?;
    text.push_str(found.as_str()).ok()
}

// For each literal the least id, from a number on, of a constraint that has its variable.
fn first_ids(alloc: Global, db: &Database, names: &str, from: u64) -> Option<String> {
    let lits = lits(alloc, names)?;
    let mut text = String::new(alloc);
    for lit in &lits {
        push_id(alloc, db.naming(lit.var, from), &mut text)?;
    }
    Some(text)
}

// The same, once the first constraint is taken away.
fn ids_without_the_first(
    alloc: Global,
    db: &mut Database,
    names: &str,
    from: u64,
) -> Option<String> {
    answers(alloc, db, "del 1")?;
    first_ids(alloc, db, names, from)
}

// The same of three constraints, of which the first is taken away.
fn first_ids_of(alloc: Global, names: &str, from: u64) -> Option<String> {
    let opb = "+1 x1 +1 x2 >= 1 ; +2 ~x2 +1 x3 >= 2 ; +1 ~x3 +1 x2 >= 1 ;";
    let mut db = database_of(alloc, opb, 4)?;
    ids_without_the_first(alloc, &mut db, names, from)
}

// The least ids of constraints with x2, from each of three numbers on.
fn ids_of_the_second(alloc: Global, db: &Database) -> Option<String> {
    let mut text = String::new(alloc);
    for from in [1, 2, 4] {
        push_id(alloc, db.naming(Var::new(2), from), &mut text)?;
    }
    Some(text)
}

// The same of a constraint, after a literal of it and what is left without that.
fn ids_of_derived(alloc: Global) -> Option<String> {
    let mut db = database_of(alloc, "+5 x1 +3 x2 +2 x3 >= 6 ;", 3)?;
    answers(alloc, &mut db, "rup +1 x1 >= 1 ; 1\npol 1 x1 w s")?;
    ids_of_the_second(alloc, &db)
}

#[test]
fn steps_are_allowed_or_denied(rt: HostRuntime) {
    let found = answers_of(rt.alloc(), STEPS);
    assert_found(&rt, found, ANSWERS, "steps");
    let found = answers_of(rt.alloc(), LONG_STEPS);
    let expected = "Id(2)\nNotPropagated\nId(3)\nUnknownId { id: 7 }\n";
    assert_found(&rt, found, expected, "long steps");
}

#[test]
fn constraints_are_found_by_variables(rt: HostRuntime) {
    let all = first_ids_of(rt.alloc(), "x1 x2 x3 x4", 1);
    assert_found(&rt, all, "None Some(2) Some(2) None ", "all");
    let later = first_ids_of(rt.alloc(), "x2 x3", 3);
    assert_found(&rt, later, "Some(3) Some(3) ", "those from 3 on");
    let derived = ids_of_derived(rt.alloc());
    assert_found(&rt, derived, "Some(1) Some(3) None ", "what was derived");
}
