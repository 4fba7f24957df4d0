//! Planning an encoding.
//!
//! A plan and the families of at most one borrow what they encode; families that build something own it.
ghost use Rattle.std.specs.Prelude.{◌≡◌, ◌<◌, ◌^◌, IfOk};
ghost use Rattle.pb_norm.specs.Constraints.{weight};
ghost use Rattle.pb_norm.specs.Classes.{RestIs};
ghost use Rattle.pb_norm.specs.Reduction.{rest_of};
ghost use Rattle.pb_choice.specs.Choice.{IsSentToAdder};
ghost use Rattle.pb_choice.specs.inner.Known.{IsKnown};
ghost use Rattle.pb_choice.specs.Residual.{rest_terms, IsLeft};

use crate::choosing::{adder_left, residual_of};
use crate::known::Known;
use crate::lent::Lent;
use crate::plans::Plan;
use crate::residual::Residual;
use crate::treatment::Treatment;
use pb_base::{NoMemory, Options};
use pb_norm::{Linear, Reduced, Rest, reduce};
use std::alloc::Global;

// Chooses the encoding of a residual constraint, and builds only what is not known already.
fn left_of<'a>(
    alloc: Global,
    options: &Options,
    rest: Rest,
    known: Known<'a>,
) -> Result<Residual<'a>, NoMemory>
    requires class { RestIs rest }
    requires light { weight (rest_terms rest) < 2 ^ 100 }
    requires known { IsKnown options.now rest known }
    ensures { IfOk result (IsLeft options.now rest) }
{
    match known {
        Known::Nothing => residual_of(alloc, options, rest),
        Known::Adder => adder_left(alloc, options, rest),
        Known::Kept(chosen) => Ok(Residual::Sum(Lent::kept(chosen))),
    }
}

/// Plans the encoding of a constraint of which something may be known.
pub fn plan_by<'a>(
    alloc: Global,
    constraint: &'a Linear,
    options: &Options,
    known: Known<'a>,
) -> Result<Plan<'a>, NoMemory>
    requires light { weight constraint.now.terms < 2 ^ 100 }
    requires known { IsKnown options.now (rest_of constraint.now) known }
    ensures constraint { IfOk result (λ plan. plan.constraint.now ≡ constraint.now) }
    ensures options { IfOk result (λ plan. plan.options ≡ options.now) }
{
    let Reduced { units, rest } = reduce(alloc, constraint)?;
    let left = left_of(alloc, options, rest, known)?;
    Ok(Plan {
        constraint,
        options: *options,
        units,
        left,
    })
}

/// Plans the encoding of a constraint. What the family needs is built here, once.
pub fn plan<'a>(
    alloc: Global,
    constraint: &'a Linear,
    options: &Options,
) -> Result<Plan<'a>, NoMemory>
    requires light { weight constraint.now.terms < 2 ^ 100 }
    // The plan is of this constraint.
    ensures constraint { IfOk result (λ plan. plan.constraint.now ≡ constraint.now) }
    // It is by these options.
    ensures options { IfOk result (λ plan. plan.options ≡ options.now) }
{
    plan_by(alloc, constraint, options, Known::Nothing)
}

/// Plans the encoding of a constraint that goes to the adder by an earlier plan, without building the family that passed the budget.
pub fn plan_adder<'a>(
    alloc: Global,
    constraint: &'a Linear,
    options: &Options,
) -> Result<Plan<'a>, NoMemory>
    requires light { weight constraint.now.terms < 2 ^ 100 }
    requires adder { IsSentToAdder options.now constraint.now }
    // The plan is of this constraint.
    ensures constraint { IfOk result (λ plan. plan.constraint.now ≡ constraint.now) }
    // It is by these options.
    ensures options { IfOk result (λ plan. plan.options ≡ options.now) }
{
    plan_by(alloc, constraint, options, Known::Adder)
}
