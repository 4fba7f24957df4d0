//! Steps that give a fresh variable its reification.
ghost use Rattle.std.specs.Prelude.{◌≡◌, ◌<◌, ◌+◌, ◌^◌, All, [], ◌∷◌, pos, map, IfOk};
ghost use Rattle.pb_norm.specs.Constraints.{weight, weighted, weights};
ghost use Rattle.pb_norm.specs.inner.Kept.{on_term};
ghost use Rattle.pb_steps.specs.declared.step.Step.TheVariants.{Rup};
ghost use Rattle.pb_derive.specs.Reifications.{redundant};
ghost use Rattle.pb_family.specs.Derivations.{meant};
ghost use Rattle.pb_family.specs.StepSinks.{HandsSteps};
ghost use Rattle.pb_family.specs.inner.Parts.{headed, reification_of, second_line, turned};

use crate::sink::SinkResult;
use crate::step_sink::{StepSink, derive_steps};
use pb_base::{Ids, Lit, Term, Terms, Var};
use pb_norm::weight_of;
use pb_steps::{Set, Sets, Step};
use std::alloc::{AllocError, Global};

// A term, whose literal is negated where that is asked for.
fn turned(term: &Term, flip: bool) -> Term
    requires fits { (weighted term.now).coef < 2 ^ 127 }
    ensures { result ≡ on_term (turned flip) term.now }
{
    let lit = if flip { term.lit.not() } else { term.lit };
    Term::weighing(term.weight(), lit)
}

// A term before others, whose literals are negated where that is asked for.
fn with_head(alloc: Global, head: Term, terms: &[Term], flip: bool) -> Result<Vec<Term>, AllocError>
    requires fits { All (λ t. (weighted t).coef < 2 ^ 127) terms.now }
    ensures { IfOk result (λ v. v.items ≡ head ∷ map (on_term (turned flip)) terms.now) }
{
    let mut all = Vec::with_capacity(alloc, terms.len() + 1)?;
    all.push(head)?;
    for term in terms {
        all.push(turned(term, flip))?;
    }
    Ok(all)
}

// That a variable has a value, or the terms, negated where that value is true, reach a number. As the variable is fresh, it may
// have the value.
fn redundant_step(
    alloc: Global,
    terms: &[Term],
    right: u128,
    var: Var,
    value: bool,
) -> Result<Step, AllocError>
    requires light { weight (weights terms.now) < 2 ^ 124 }
    requires fits { right < 2 ^ 127 }
    ensures { IfOk result (λ step. step ≡ redundant (headed var value right (weights terms.now)) var value) }
{
    let lit = Lit {
        var,
        positive: value,
    };
    let all = with_head(alloc, Term::weighing(right, lit), terms, value)?;
    let sets = vec![in alloc; Set { var, value }]?;
    Ok(Step::Red {
        terms: Terms::from_vec(all),
        right: right as i128,
        sets: Sets::from_vec(sets),
    })
}

// A line that says nothing, by a constraint.
fn empty_step(alloc: Global, id: u64) -> Result<Step, AllocError>
    ensures { IfOk result (λ step. step ≡ Rup [] (pos 0) (id ∷ [])) }
{
    let ids = vec![in alloc; id]?;
    Ok(Step::Rup {
        terms: Terms::new(alloc),
        right: 0,
        ids: Ids::from_vec(ids),
    })
}

// The terms do not reach a number where the variable is false; where they never do, a line that says nothing.
fn reverse_step(
    alloc: Global,
    var: Var,
    terms: &[Term],
    least: u128,
    id: u64,
) -> Result<Step, AllocError>
    requires light { weight (weights terms.now) + least < 2 ^ 124 }
    ensures { IfOk result (λ step. step ≡ second_line id (reification_of var (weights terms.now) least)) }
{
    let whole = weight_of(terms);
    if whole < least {
        return empty_step(alloc, id);
    }
    let spare = whole + 1 - least;
    redundant_step(alloc, terms, spare, var, true)
}

/// Hands over that a variable is true exactly where terms reach a number.
pub fn derive_reification<T: StepSink>(
    alloc: Global,
    var: Var,
    terms: &[Term],
    least: u128,
    sink: &mut T,
) -> SinkResult
    requires light { weight (weights terms.now) + least < 2 ^ 124 }
    requires few { (T.state sink.old).next + 1 < 2 ^ 62 }
    // The two lines were emitted by which the variable is true iff the terms reach the number, or a first part until the sink failed or
    // memory ran out.
    ensures { HandsSteps (meant (T.state sink.old).next var (weights terms.now) least) result (T.state sink.old) (T.state sink.new) }
{
    let id = sink.next_id();
    let forward = redundant_step(alloc, terms, least, var, false)?;
    let reverse = reverse_step(alloc, var, terms, least, id)?;
    derive_steps(&forward, &reverse, sink)
}
