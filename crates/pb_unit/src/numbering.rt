//! Variables by their ranks among those that occur, so that tables over them are no longer than the text.
//!
//! If the greatest variable is at most the number of literals, of constraints and given, tables are over the variables as they are.
//! Else each variable is replaced by its rank among those that occur, and the answer is translated back. Ranks ascend with the
//! variables, so terms stay in normal form, and the answer ascends too. That propagation reaches the same over other numbers is a
//! lemma over plain lists. A given literal whose variable no clause has is reached, and nothing follows from it.
ghost use Rattle.std.specs.Prelude.{◌≡◌, ◌≤◌, ◌<◌, ◌+◌, ◌^◌, ◌++◌, ◌∷◌, [], ℕ, length, map, All, Contains, IfOk, OnOk};
ghost use Rattle.pb_norm.specs.Constraints.{constraint_of, weights, AreUnsigned, IsLinear};
ghost use Rattle.pb_unit.specs.Reaching.{IsUpTo, OfConstraint, OfLit};
ghost use Rattle.pb_unit.specs.Reads.{lit_count};
ghost use Rattle.pb_unit.specs.Renaming.{all_vars, form_vars, lit_vars, name_at, number_in, renamed, renamed_lit, term_vars, AreNamed, AreNames, IsName};

use crate::constraints::Constraints;
use pb_base::{Lit, NoMemory, Term, Var};
use pb_norm::Linear;
use std::alloc::{AllocError, Global};
use std::marker::Model;

// Adds the variable of a literal.
fn push_var(lit: &Lit, out: &mut Vec<u32>) -> Result<(), AllocError>
    requires { All IsName out.old.items }
    ensures var { OnOk result (out.new.items ≡ out.old.items ++ lit.now.var ∷ []) }
    ensures names { OnOk result (All IsName out.new.items) }
{
    out.push(lit.index())?;
    Ok(())
}

// Adds the variables of terms.
fn push_term_vars(terms: &[Term], out: &mut Vec<u32>) -> Result<(), AllocError>
    requires { All IsName out.old.items }
    ensures vars { OnOk result (out.new.items ≡ out.old.items ++ term_vars (weights terms.now)) }
    ensures names { OnOk result (All IsName out.new.items) }
{
    for term in terms {
        push_var(&term.lit, out)?;
    }
    Ok(())
}

// Adds the variables of constraints.
fn push_form_vars(alloc: Global, forms: &Constraints, out: &mut Vec<u32>) -> Result<(), NoMemory>
    requires { All IsName out.old.items }
    ensures vars { OnOk result (out.new.items ≡ out.old.items ++ form_vars forms.now) }
    ensures names { OnOk result (All IsName out.new.items) }
{
    let mut terms = Vec::new(alloc);
    for place in 0..forms.len() {
        let _ = forms.read(place, &mut terms)?;
        push_term_vars(&terms, out)?;
    }
    Ok(())
}

// Adds the variables of literals.
fn push_lit_vars(lits: &[Lit], out: &mut Vec<u32>) -> Result<(), AllocError>
    requires { All IsName out.old.items }
    ensures vars { OnOk result (out.new.items ≡ out.old.items ++ lit_vars lits.now) }
    ensures names { OnOk result (All IsName out.new.items) }
{
    for lit in lits {
        push_var(lit, out)?;
    }
    Ok(())
}

// The variable of each literal of constraints, and of other literals.
fn vars_of(alloc: Global, forms: &Constraints, lits: &[Lit]) -> Result<Vec<u32>, NoMemory>
    ensures vars { IfOk result (λ v. v.items ≡ all_vars forms.now lits.now) }
    ensures names { IfOk result (λ v. All IsName v.items) }
{
    let mut vars = Vec::new(alloc);
    push_form_vars(alloc, forms, &mut vars)?;
    push_lit_vars(lits, &mut vars)?;
    Ok(vars)
}

/// The literal of a variable.
pub(crate) fn lit_at(index: u32, positive: bool) -> Lit
    requires low { 1 ≤ index }
    requires high { index < 2 ^ 31 }
    ensures { result ≡ record { var = index; positive = positive } }
{
    Lit {
        var: Var::new(index),
        positive,
    }
}

/// Variables, each once, ascending.
#[derive(Drop)]
pub(crate) struct Names {
    vars: Vec<u32>,
}

impl Model for Names {
    ghost use Rattle.std.specs.Prelude.{List, ℕ};
    ghost use Rattle.pb_unit.specs.Renaming.{AreNames};

    ghost Value = { List ℕ };

    ghost view = { λ n. n.vars.items };

    ghost invariant = { λ n. AreNames n.vars.items };
}

impl Names {
    /// The variables of constraints and of literals.
    pub(crate) fn of(alloc: Global, forms: &Constraints, lits: &[Lit]) -> Result<Names, NoMemory>
        ensures named { IfOk result (λ names. AreNamed names forms.now lits.now) }
        ensures few { IfOk result (λ names. length names ≤ lit_count forms.now + length lits.now) }
    {
        let mut vars = vars_of(alloc, forms, lits)?;
        vars.sort_unstable();
        vars.dedup();
        Ok(Names { vars })
    }

    /// How many there are: fewer than 2^31.
    pub(crate) fn len(&self) -> usize
        ensures value { result ≡ length self.now }
        ensures names { AreNames self.now }
    {
        self.vars.len()
    }

    // The literal over the place of its variable, from 1 on.
    fn numbered_literal(&self, lit: Lit) -> Lit
        requires { Contains self.now lit.var }
        ensures { result ≡ renamed_lit (number_in self.now) lit }
    {
        let Ok(place) = self.vars.binary_search(&lit.index()) else {
            unreachable!();
        };
        lit_at(place as u32 + 1, lit.positive)
    }

    // The literal of the variable at a place.
    fn original_literal(&self, lit: Lit) -> Lit
        requires { IsUpTo (length self.now) lit.var }
        ensures { result ≡ renamed_lit (name_at self.now) lit }
    {
        lit_at(self.vars[lit.index() as usize - 1], lit.positive)
    }
}

// Terms over the places of their variables.
fn numbered_terms(alloc: Global, names: &Names, terms: &[Term]) -> Result<Vec<Term>, AllocError>
    requires { All (λ t. Contains names.now t.lit.var) terms.now }
    ensures { IfOk result (λ v. v.items ≡ map (λ t. record { coef = t.coef; lit = renamed_lit (number_in names.now) t.lit }) terms.now) }
{
    let mut made = Vec::new(alloc);
    for term in terms {
        made.push(Term {
            coef: term.coef,
            lit: names.numbered_literal(term.lit),
        })?;
    }
    Ok(made)
}

impl Names {
    // A constraint over the places of its variables.
    fn numbered_form(&self, alloc: Global, terms: &[Term], degree: u128) -> Result<Linear, NoMemory>
        requires unsigned { AreUnsigned terms.now }
        requires linear { IsLinear (constraint_of terms.now degree) }
        requires known { OfConstraint (Contains self.now) (constraint_of terms.now degree) }
        ensures { IfOk result (λ c. c ≡ renamed (number_in self.now) (constraint_of terms.now degree)) }
    {
        let _ = self.len();
        let terms = numbered_terms(alloc, self, terms)?;
        Ok(Linear::from_parts(terms, degree))
    }
}

// Adds constraints over the places of their variables.
fn push_numbered(
    alloc: Global,
    names: &Names,
    forms: &Constraints,
    made: &mut Constraints,
) -> Result<(), NoMemory>
    requires { All (OfConstraint (Contains names.now)) forms.now }
    ensures { OnOk result (made.new ≡ made.old ++ map (renamed (number_in names.now)) forms.now) }
{
    let mut terms = Vec::new(alloc);
    for place in 0..forms.len() {
        let degree = forms.read(place, &mut terms)?;
        let form = names.numbered_form(alloc, &terms, degree)?;
        made.push(&form)?;
    }
    Ok(())
}

/// Constraints over the places of their variables.
pub(crate) fn numbered_forms(
    alloc: Global,
    names: &Names,
    forms: &Constraints,
) -> Result<Constraints, NoMemory>
    requires { All (OfConstraint (Contains names.now)) forms.now }
    ensures { IfOk result (λ made. made ≡ map (renamed (number_in names.now)) forms.now) }
{
    let mut made = Constraints::new(alloc);
    push_numbered(alloc, names, forms, &mut made)?;
    Ok(made)
}

/// Literals over the places of their variables.
pub(crate) fn numbered_lits(
    alloc: Global,
    names: &Names,
    lits: &[Lit],
) -> Result<Vec<Lit>, AllocError>
    requires { All (OfLit (Contains names.now)) lits.now }
    ensures { IfOk result (λ v. v.items ≡ map (renamed_lit (number_in names.now)) lits.now) }
{
    let mut made = Vec::new(alloc);
    for lit in lits {
        made.push(names.numbered_literal(*lit))?;
    }
    Ok(made)
}

/// The literals of the variables at their places.
pub(crate) fn named_lits(alloc: Global, names: &Names, lits: &[Lit]) -> Result<Vec<Lit>, AllocError>
    requires { All (OfLit (IsUpTo (length names.now))) lits.now }
    ensures { IfOk result (λ v. v.items ≡ map (renamed_lit (name_at names.now)) lits.now) }
{
    let mut made = Vec::new(alloc);
    for lit in lits {
        made.push(names.original_literal(*lit))?;
    }
    Ok(made)
}
