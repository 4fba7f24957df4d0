//! What given literals reach over clauses.
//!
//! Each given literal is needed once, by variable, and two opposite ones are a conflict. The form of a clause has its literals so,
//! and the degree 0 if a variable occurs both ways. So the given literals are sorted by `clause_form`, whose contract says all that
//! is needed.
ghost use Rattle.std.specs.Prelude.{◌≡◌, ◌≤◌, ◌<◌, ◌+◌, ◌^◌, ◌++◌, [], All, IfOk, IfSome, OnOk};
ghost use Rattle.std.specs.Option.{MatchOption};
ghost use Rattle.pb_norm.specs.ClausePropagation.{ClauseConflict};
ghost use Rattle.pb_norm.specs.Propagation.{Conflict};
ghost use Rattle.pb_unit.specs.Reached.{AreReached};
ghost use Rattle.pb_unit.specs.Reaching.{held_to, value_at, AreAscending, AreAssumed, AreReachedOver, AreSorted, FitsTables, HaveOpposites, OfClauses};

use crate::constraints::Constraints;
use crate::engine::{Engine, Outcome};
use crate::highest::greatest;
use crate::numbering::{Names, lit_at, named_lits, numbered_forms, numbered_lits};
use crate::rounds::Rounds;
use pb_base::{Lit, Lits, NoMemory};
use pb_norm::{clause_form, lits_of};
use std::alloc::{AllocError, Global};
use std::mem;

// The literals, each once, variables ascending, as the form of a clause has them; none where two are opposite.
fn sorted_literals(alloc: Global, lits: &Lits) -> Result<Option<Vec<Lit>>, NoMemory>
    ensures { IfOk result (λ found. MatchOption found (HaveOpposites lits.now) (λ v. AreSorted lits.now v.items)) }
{
    let form = clause_form(alloc, lits)?;
    if form.degree() == 0 {
        return Ok(None);
    }
    Ok(Some(lits_of(alloc, form.terms())?))
}

// Assumes the literals.
fn assume_all(engine: &mut Engine, lits: &[Lit])
    requires ascending { AreAscending lits.now }
    requires within { All (λ l. l.var ≤ engine.old.vars) lits.now }
    requires start { AreAssumed [] engine.old }
    ensures places { engine.new.places ≡ engine.old.places }
    ensures assumed { AreAssumed lits.now engine.new }
{
    for lit in lits {
        let _ = engine.assume(*lit);
    }
}

// What an engine reaches over constraints of the variables up to `vars`: the literals that hold, or none where that is a conflict.
fn held_by_engine(
    alloc: Global,
    vars: u32,
    forms: Constraints,
    given: &[Lit],
) -> Result<Option<Rounds>, NoMemory>
    requires tables { FitsTables forms given.now vars }
    requires ascending { AreAscending given.now }
    ensures { IfOk result (λ found. MatchOption found (Conflict forms given.now) (λ held. AreReachedOver forms given.now (held_to held.lits vars))) }
{
    let mut engine = Engine::over(alloc, vars, forms)?;
    assume_all(&mut engine, given);
    match engine.propagate() {
        Outcome::Conflict { .. } => Ok(None),
        Outcome::Fixed => Ok(Some(engine.into_held())),
    }
}

// The same, without an engine where a few passes over the constraints do: to make its index takes longer than that.
fn held_over(
    alloc: Global,
    vars: u32,
    forms: Constraints,
    given: &[Lit],
) -> Result<Option<Rounds>, NoMemory>
    requires tables { FitsTables forms given.now vars }
    requires ascending { AreAscending given.now }
    ensures { IfOk result (λ found. MatchOption found (Conflict forms given.now) (λ held. AreReachedOver forms given.now (held_to held.lits vars))) }
{
    let mut rounds = Rounds::new(alloc, vars)?;
    match rounds.settle(&forms, given) {
        Some(Outcome::Conflict { .. }) => Ok(None),
        Some(Outcome::Fixed) => Ok(Some(rounds)),
        None => {
            mem::drop(rounds);
            held_by_engine(alloc, vars, forms, given)
        }
    }
}

// Adds the literal of a variable that holds, if one does.
fn push_value(held: &Rounds, index: u32, out: &mut Vec<Lit>) -> Result<(), AllocError>
    requires low { 1 ≤ index }
    requires high { index < 2 ^ 31 }
    ensures { OnOk result (out.new.items ≡ out.old.items ++ value_at held.now.lits index) }
{
    if held.holds(lit_at(index, true)) {
        out.push(lit_at(index, true))?;
        return Ok(());
    }
    if held.holds(lit_at(index, false)) {
        out.push(lit_at(index, false))?;
    }
    Ok(())
}

// Adds the literals that hold, by variable.
fn push_held(held: &Rounds, vars: u32, out: &mut Vec<Lit>) -> Result<(), AllocError>
    requires { vars < 2 ^ 31 }
    ensures { OnOk result (out.new.items ≡ out.old.items ++ held_to held.now.lits vars) }
{
    for index in 1..vars + 1 {
        push_value(held, index, out)?;
    }
    Ok(())
}

// The literals that hold, by variable.
fn all_held(alloc: Global, held: &Rounds, vars: u32) -> Result<Vec<Lit>, AllocError>
    requires { vars < 2 ^ 31 }
    ensures { IfOk result (λ v. v.items ≡ held_to held.now.lits vars) }
{
    let mut out = Vec::new(alloc);
    push_held(held, vars, &mut out)?;
    Ok(out)
}

// What is reached over constraints of the variables up to `vars`, by variable; none where that is a conflict. Tables have
// an entry for each of them.
fn reached_within(
    alloc: Global,
    vars: u32,
    forms: Constraints,
    given: &[Lit],
) -> Result<Option<Vec<Lit>>, NoMemory>
    requires tables { FitsTables forms given.now vars }
    requires ascending { AreAscending given.now }
    ensures { IfOk result (λ found. MatchOption found (Conflict forms given.now) (λ v. AreReachedOver forms given.now v.items)) }
{
    match held_over(alloc, vars, forms, given)? {
        None => Ok(None),
        Some(held) => Ok(Some(all_held(alloc, &held, vars)?)),
    }
}

// The same over the places of the variables among those that occur.
fn reached_by_places(
    alloc: Global,
    forms: &Constraints,
    given: &[Lit],
) -> Result<Option<Vec<Lit>>, NoMemory>
    requires ascending { AreAscending given.now }
    ensures { IfOk result (λ found. MatchOption found (Conflict forms.now given.now) (λ v. AreReachedOver forms.now given.now v.items)) }
{
    let names = Names::of(alloc, forms, given)?;
    let lits = numbered_lits(alloc, &names, given)?;
    let numbered = numbered_forms(alloc, &names, forms)?;
    match reached_within(alloc, names.len() as u32, numbered, &lits)? {
        None => Ok(None),
        Some(found) => Ok(Some(named_lits(alloc, &names, &found)?)),
    }
}

/// The greatest variable of constraints and of literals, or a number that is no less, where tables up to it have no more entries
/// than there are literals in all; else none, and it is for the variables to be numbered anew.
pub fn modest_greatest(forms: &Constraints, given: &[Lit]) -> Option<u32>
    // If a number is answered, each variable is at most it, and tables up to it have no more entries than there are literals.
    ensures { IfSome result (FitsTables forms.now given.now) }
{
    let most = forms.greatest(greatest(given));
    if most as usize > forms.clause_lits().saturating_add(given.len()) {
        return None;
    }
    Some(most)
}

// The same over the variables as they are, or by their places where that takes less room.
fn reached_over(
    alloc: Global,
    forms: Constraints,
    given: &[Lit],
) -> Result<Option<Vec<Lit>>, NoMemory>
    requires ascending { AreAscending given.now }
    ensures { IfOk result (λ found. MatchOption found (Conflict forms given.now) (λ v. AreReachedOver forms given.now v.items)) }
{
    match modest_greatest(&forms, given) {
        Some(most) => reached_within(alloc, most, forms, given),
        None => reached_by_places(alloc, &forms, given),
    }
}

/// The literals that unit propagation over clauses reaches from given ones, variables ascending, the given ones included; none
/// where that is a conflict. The clauses are given by their forms. Memory and time go by the number of literals, not by
/// the numbers of variables.
pub fn reached_literals(
    alloc: Global,
    forms: Constraints,
    lits: &Lits,
) -> Result<Option<Vec<Lit>>, NoMemory>
    // The answer is none iff the clauses and the given literals have a conflict; else the literals that propagation reaches, ascending.
    ensures { OfClauses forms (λ cs. IfOk result (λ found. MatchOption found (ClauseConflict cs lits.now) (λ v. AreReached cs lits.now v.items))) }
{
    let Some(sorted) = sorted_literals(alloc, lits)? else {
        return Ok(None);
    };
    reached_over(alloc, forms, sorted.as_slice())
}
