//! Constraints in little memory.
ghost use Rattle.std.specs.Prelude.{◌≡◌, ◌==◌, ◌<◌, true, IsTrue, IfOk, IfSome, map, length};
ghost use Rattle.std.specs.List.{list_all, list_any};
ghost use Rattle.pb_base.specs.Literals.{is_among};
ghost use Rattle.pb_norm.specs.ClauseForm.{clause_form};
ghost use Rattle.pb_norm.specs.Constraints.{IsLinear, weights};
ghost use Rattle.pb_norm.specs.inner.Kept.{on_weight};
ghost use Rattle.pb_steps.specs.Operations.{implies};
ghost use Rattle.pb_database.specs.Naming.{is_of};
ghost use Rattle.pb_database.specs.inner.Indexed.{LosesId};
ghost use Rattle.pb_database.specs.inner.Packing.{constraint_in};
ghost use Rattle.pb_database.specs.inner.Units.{unit, unit_term, clause_of};

use crate::index::{self, Named};
use crate::short_lit::ShortLit;
use crate::short_sum::ShortSum;
use pb_base::{Clause, Lit, NoMemory, Term, Var};
use pb_norm::{Linear, clause_form};
use pb_operations::implies;
use std::alloc::{AllocError, Global};
use std::marker::Model;

/// The stored form of a constraint: a clause of two, three or four literals, which take four bytes each, or another sum, in memory of its
/// own: of terms of eight bytes if its numbers take 32 bits, or as it came.
#[derive(Drop)]
pub(crate) enum Form {
    Two([ShortLit; 2]),
    Three([ShortLit; 3]),
    Four([ShortLit; 4]),
    Sum(Box<ShortSum>),
    Other(Box<Linear>),
}

/// A constraint in little memory of its own, so that an id takes little.
#[derive(Drop)]
pub struct Packed {
    form: Box<Form>,
}

impl Model for Packed {
    ghost use Rattle.pb_norm.specs.Constraints.{Constraint, IsLinear};

    ghost Value = { Constraint };

    ghost use Rattle.pb_database.specs.inner.Packing.{constraint_in};

    ghost view = { λ p. constraint_in p.form.value };

    ghost invariant = { λ p. IsLinear (constraint_in p.form.value) };
}

// True only if all coefficients are 1.
fn are_units(terms: &[Term]) -> bool
    ensures { IsTrue result → weights terms.now ≡ map (λ t. unit t.lit) terms.now }
{
    for term in terms {
        if term.weight() != 1 {
            return false;
        }
    }
    true
}

// True if some term is of the variable.
fn has_var(terms: &[Term], var: Var) -> bool
    ensures { result ≡ list_any (on_weight (is_of var)) terms.now }
{
    terms.iter().any(|term| term.lit.var == var)
}

// True if some literal is of the variable.
fn has_lit(lits: &[ShortLit], var: Var) -> bool
    ensures { result ≡ list_any (λ l. l.var == var) lits.now }
{
    lits.iter().any(|lit| lit.get().var == var)
}

// True if the literal is among the others.
fn is_among(lits: &[Lit], lit: &Lit) -> bool
    ensures { result ≡ is_among lits.now lit.now }
{
    lits.contains(lit)
}

// True if each literal is among the others.
fn are_among(lits: &[ShortLit], others: &[Lit]) -> bool
    ensures { result ≡ list_all (is_among others.now) lits.now }
{
    lits.iter().all(|lit| is_among(others, &lit.get()))
}

// Removes an id from the lists of the fresh variables of literals, where it is among the newest, and returns in how many it stays.
fn leave_lits(lists: &mut Vec<Named>, original: u32, lits: &[ShortLit], id: u64) -> usize
    requires { 0 < length lists.old.items }
    ensures { LosesId id lists.old.items lists.new.items }
{
    index::leave(lists, original, lits, id, |lit| lit.get().index())
}

// Returns the terms of literals, each with the coefficient 1.
fn units(alloc: Global, lits: &[ShortLit]) -> Result<Vec<Term>, AllocError>
    ensures { IfOk result (λ v. v.items ≡ map unit_term lits.now) }
{
    lits.iter()
        .map(|lit| Term::weighing(1, lit.get()))
        .collect(alloc)
}

// Returns the constraint of a clause.
fn clause(alloc: Global, lits: &[ShortLit]) -> Result<Linear, NoMemory>
    requires { IsLinear (clause_of lits.now) }
    ensures { IfOk result (λ c. c ≡ clause_of lits.now) }
{
    let terms = units(alloc, lits)?;
    Ok(Linear::from_parts(terms, 1))
}

// Returns the stored form of terms with the coefficient 1, if they are two, three or four.
fn short(terms: &[Term]) -> Option<Form>
    ensures { IfSome result (λ form. constraint_in form ≡ clause_of (map (λ t. t.lit) terms.now)) }
{
    match terms {
        [a, b] => Some(Form::Two([ShortLit::of(&a.lit), ShortLit::of(&b.lit)])),
        [a, b, c] => Some(Form::Three([
            ShortLit::of(&a.lit),
            ShortLit::of(&b.lit),
            ShortLit::of(&c.lit),
        ])),
        [a, b, c, d] => Some(Form::Four([
            ShortLit::of(&a.lit),
            ShortLit::of(&b.lit),
            ShortLit::of(&c.lit),
            ShortLit::of(&d.lit),
        ])),
        _ => None,
    }
}

// Returns the stored form of a constraint that is a clause of few literals, and None of any other.
fn short_form(constraint: &Linear) -> Option<Form>
    ensures { IfSome result (λ form. constraint_in form ≡ constraint.now) }
{
    let terms = constraint.terms();
    if constraint.degree() != 1 || !are_units(terms) {
        return None;
    }
    short(terms)
}

// Returns the stored form of a constraint that is no clause of few literals.
fn long_form(alloc: Global, constraint: Linear) -> Result<Form, NoMemory>
    ensures { IfOk result (λ form. constraint_in form ≡ constraint) }
{
    match ShortSum::of(alloc, &constraint)? {
        Some(sum) => {
            let alone = Box::new(alloc, sum)?;
            Ok(Form::Sum(alone))
        }
        None => {
            let alone = Box::new(alloc, constraint)?;
            Ok(Form::Other(alone))
        }
    }
}

// Returns the stored form of a constraint.
fn form_of(alloc: Global, constraint: Linear) -> Result<Form, NoMemory>
    ensures { IfOk result (λ form. constraint_in form ≡ constraint) }
{
    match short_form(&constraint) {
        Some(form) => Ok(form),
        None => long_form(alloc, constraint),
    }
}

impl Packed {
    /// Stores a constraint in little memory.
    pub(crate) fn new(alloc: Global, constraint: Linear) -> Result<Packed, NoMemory>
        ensures { IfOk result (λ packed. packed ≡ constraint) }
    {
        let _ = constraint.degree();
        let made = form_of(alloc, constraint)?;
        let form = Box::new(alloc, made)?;
        Ok(Packed { form })
    }

    /// Returns the constraint, written out.
    pub fn read(&self, alloc: Global) -> Result<Linear, NoMemory>
        ensures { IfOk result (λ c. c ≡ self.now) }
    {
        match &*self.form {
            Form::Two(lits) => clause(alloc, lits),
            Form::Three(lits) => clause(alloc, lits),
            Form::Four(lits) => clause(alloc, lits),
            Form::Sum(sum) => sum.read(alloc),
            Form::Other(alone) => alone.copy(alloc),
        }
    }

    /// True if the constraint has the variable.
    pub(crate) fn names(&self, var: Var) -> bool
        ensures { result ≡ list_any (is_of var) self.now.terms }
    {
        match &*self.form {
            Form::Two(lits) => has_lit(lits, var),
            Form::Three(lits) => has_lit(lits, var),
            Form::Four(lits) => has_lit(lits, var),
            Form::Sum(sum) => sum.has_var(var),
            Form::Other(alone) => has_var(alone.terms(), var),
        }
    }

    /// True only if the constraint is a clause of few literals, each of which is among the others.
    fn is_part_of(&self, others: &[Lit]) -> bool
        ensures { IsTrue result → implies self.now (clause_form others.now) ≡ true }
    {
        match &*self.form {
            Form::Two(lits) => are_among(lits, others),
            Form::Three(lits) => are_among(lits, others),
            Form::Four(lits) => are_among(lits, others),
            Form::Sum(_) => false,
            Form::Other(_) => false,
        }
    }

    /// True if the constraint implies a clause term by term. If its literals are among the clause's, as of each clause that an encoding
    /// puts out, nothing is built to see it.
    pub fn gives(&self, alloc: Global, clause: &Clause) -> Result<bool, NoMemory>
        ensures { IfOk result (λ given. given ≡ implies self.now (clause_form clause.now)) }
    {
        if self.is_part_of(clause.as_slice()) {
            return Ok(true);
        }
        let form = clause_form(alloc, clause)?;
        let constraint = self.read(alloc)?;
        Ok(implies(&constraint, &form))
    }

    /// Removes an id from the lists of the constraint's fresh variables, where it is among the newest, and returns in how many it stays.
    pub(crate) fn unlist(&self, lists: &mut Vec<Named>, original: u32, id: u64) -> usize
        requires { 0 < length lists.old.items }
        ensures { LosesId id lists.old.items lists.new.items }
    {
        match &*self.form {
            Form::Two(lits) => leave_lits(lists, original, lits, id),
            Form::Three(lits) => leave_lits(lists, original, lits, id),
            Form::Four(lits) => leave_lits(lists, original, lits, id),
            Form::Sum(sum) => index::leave(
                lists,
                original,
                sum.terms(),
                id,
                |term| term.var().index(),
            ),
            Form::Other(alone) => index::leave(
                lists,
                original,
                alone.terms(),
                id,
                |term| term.lit.index(),
            ),
        }
    }
}
