//! Steps that give a clause, or add constraints.
//!
//! `derive_propagated` is for short clauses: it finds a literal that is repeated by a look at the others.
ghost use Rattle.std.specs.Prelude.{◌≡◌, ◌≤◌, ◌<◌, ◌+◌, ◌^◌, [], ◌∷◌, ◌++◌, pos, length, map, IfOk, OnOk};
ghost use Rattle.pb_norm.specs.BoundedSums.{vars_of};
ghost use Rattle.pb_norm.specs.ClauseForm.{one_of, distinct};
ghost use Rattle.pb_norm.specs.Constraints.{weights};
ghost use Rattle.pb_steps.specs.declared.op.PolOp.TheVariants.{Div, Push, Weaken};
ghost use Rattle.pb_steps.specs.declared.step.Step.{Step};
ghost use Rattle.pb_steps.specs.declared.step.Step.TheVariants.{Out, Pol};
ghost use Rattle.pb_derive.specs.Justifications.{adding, widest};
ghost use Rattle.pb_derive.specs.Rups.{by_rup};
ghost use Rattle.pb_family.specs.Derivations.{closed, claimed, propagated};
ghost use Rattle.pb_family.specs.Listed.{listed};
ghost use Rattle.pb_family.specs.StepSinks.{HandsSteps};

use crate::sink::SinkResult;
use crate::step_sink::{StepSink, derive_steps};
use pb_base::{Ids, Lit, Term, Terms};
use pb_steps::{PolOp, PolOps, Step};
use std::alloc::{AllocError, Global};

// Above all numbers of a constraint that has room, so that division by it leaves 1 of each.
const WIDEST: i128 = 85070591730234615865843651857942052863;

// The sum of constraints.
fn sum_of(alloc: Global, ids: &[u64]) -> Result<Vec<PolOp>, AllocError>
    requires some { 1 ≤ length ids.now }
    ensures { IfOk result (λ ops. ops.items ≡ adding ids.now) }
{
    let mut ops = vec![in alloc; PolOp::Push(ids[0])]?;
    for id in &ids[1..] {
        ops.extend_from_slice(&[PolOp::Push(*id), PolOp::Add])?;
    }
    Ok(ops)
}

// Adds that the variables of terms are weakened away, and that one of each literal is left.
fn push_closing(ops: &mut Vec<PolOp>, weakened: &[Term]) -> Result<(), AllocError>
    ensures { OnOk result (ops.new.items ≡ ops.old.items ++ (map Weaken (vars_of (weights weakened.now)) ++ Div (pos widest) ∷ [])) }
{
    for term in weakened {
        ops.push(PolOp::Weaken(term.lit.var))?;
    }
    ops.extend_from_slice(&[PolOp::Div(WIDEST)])
}

// A clause, by constraints without the variables of some terms.
fn closing_step(alloc: Global, ids: &[u64], weakened: &[Term]) -> Result<Step, AllocError>
    requires some { 1 ≤ length ids.now }
    ensures { IfOk result (λ step. step ≡ Pol (closed ids.now (vars_of (weights weakened.now)))) }
{
    let mut ops = sum_of(alloc, ids)?;
    push_closing(&mut ops, weakened)?;
    Ok(Step::Pol(PolOps::from_vec(ops)))
}

// Each literal once, with the coefficient 1.
fn each_once(alloc: Global, clause: &[Lit]) -> Result<Vec<Term>, AllocError>
    ensures { IfOk result (λ v. v.items ≡ map one_of (distinct clause.now)) }
{
    let mut terms = Vec::new(alloc);
    for place in 0..clause.len() {
        let lit = clause[place];
        if !clause[place + 1..].contains(&lit) {
            terms.push(Term { coef: 1, lit })?;
        }
    }
    Ok(terms)
}

// A clause, by propagation from constraints.
fn propagated_step(alloc: Global, ids: &[u64], clause: &[Lit]) -> Result<Step, AllocError>
    ensures { IfOk result (λ step. step ≡ (by_rup ids.now clause.now).step) }
{
    let terms = each_once(alloc, clause)?;
    let mut used = Vec::new(alloc);
    used.extend_from_slice(ids)?;
    Ok(Step::Rup {
        terms: Terms::from_vec(terms),
        right: 1,
        ids: Ids::from_vec(used),
    })
}

/// Hands over the sum of the constraints with some ids.
pub fn derive_sum<T: StepSink>(alloc: Global, ids: &[u64], sink: &mut T) -> SinkResult
    requires some { 1 ≤ length ids.now }
    requires few { (T.state sink.old).next < 2 ^ 62 }
    // The line that adds the constraints was emitted, or a first part until the sink failed or memory ran out.
    ensures { HandsSteps (Pol (adding ids.now) ∷ []) result (T.state sink.old) (T.state sink.new) }
{
    let ops = sum_of(alloc, ids)?;
    sink.step(&Step::Pol(PolOps::from_vec(ops)))
}

// Hands over a clause's step, if memory sufficed for it, and puts the clause out.
fn derive_and_put_out<T: StepSink>(made: Result<Step, AllocError>, sink: &mut T) -> SinkResult
    requires few { (T.state sink.old).next + 1 < 2 ^ 62 }
    ensures { (shown : Step) → IfOk made (λ step. step ≡ shown) → HandsSteps (shown ∷ Out (T.state sink.old).next ∷ []) result (T.state sink.old) (T.state sink.new) }
{
    let step = made?;
    let id = sink.next_id();
    derive_steps(&step, &Step::Out { id }, sink)
}

/// Hands over that a clause follows from the constraints with some ids, without the variables of some terms, and puts it out.
pub fn derive_claim<T: StepSink>(
    alloc: Global,
    ids: &[u64],
    weakened: &[Term],
    sink: &mut T,
) -> SinkResult
    requires some { 1 ≤ length ids.now }
    requires few { (T.state sink.old).next + 1 < 2 ^ 62 }
    // The clause's derivation by added constraints and its `out` were emitted, or a first part until the sink failed or memory ran out.
    ensures { HandsSteps (claimed (T.state sink.old).next ids.now (vars_of (weights weakened.now))) result (T.state sink.old) (T.state sink.new) }
{
    derive_and_put_out(closing_step(alloc, ids, weakened), sink)
}

/// Hands over that a clause follows from the constraints with up to three ids, without the variables of some terms, and puts it out.
pub fn derive_by<T: StepSink>(
    alloc: Global,
    first: Option<u64>,
    second: Option<u64>,
    last: u64,
    weakened: &[Term],
    sink: &mut T,
) -> SinkResult
    requires { (T.state sink.old).next + 1 < 2 ^ 62 }
    // The clause's derivation by up to three added constraints and its `out` were emitted, or a first part until the sink failed or
    // memory ran out.
    ensures { HandsSteps (claimed (T.state sink.old).next (listed first ++ (listed second ++ last ∷ [])) (vars_of (weights weakened.now))) result (T.state sink.old) (T.state sink.new) }
{
    match first {
        Some(one) => match second {
            Some(other) => derive_claim(alloc, &[one, other, last], weakened, sink),
            None => derive_claim(alloc, &[one, last], weakened, sink),
        },
        None => match second {
            Some(other) => derive_claim(alloc, &[other, last], weakened, sink),
            None => derive_claim(alloc, &[last], weakened, sink),
        },
    }
}

/// Hands over that a short clause follows by propagation from the constraints with some ids, and puts it out.
pub fn derive_propagated<T: StepSink>(
    alloc: Global,
    ids: &[u64],
    clause: &[Lit],
    sink: &mut T,
) -> SinkResult
    requires few { (T.state sink.old).next + 1 < 2 ^ 62 }
    // The clause's derivation by propagation from the ids and its `out` were emitted, or a first part until the sink failed or memory ran
    // out.
    ensures { HandsSteps (propagated (T.state sink.old).next ids.now clause.now) result (T.state sink.old) (T.state sink.new) }
{
    derive_and_put_out(propagated_step(alloc, ids, clause), sink)
}
