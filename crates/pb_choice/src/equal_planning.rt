//! Planning the encoding of an equality.
ghost use Rattle.std.specs.Prelude.{◌≡◌, ◌<◌, ◌^◌, true, false, pos, length, IfOk};
ghost use Rattle.std.specs.Option.{MatchOption};
ghost use Rattle.pb_norm.specs.Constraints.{IsLinear, weight};
ghost use Rattle.pb_norm.specs.Reduction.{first_coef, lits_of, rest_of};
ghost use Rattle.pb_totalizer.specs.ExactSum.{exact_sum};
ghost use Rattle.pb_choice.specs.Choice.{IsSentToAdder};
ghost use Rattle.pb_choice.specs.Equals.{is_joining, is_joint, literals_asked};
ghost use Rattle.pb_choice.specs.EqualPlans.{HasPartsOf, IsEqualPlan};
ghost use Rattle.pb_choice.specs.inner.Known.{IsKnown};

use crate::asking::{asks_for_number, number_asked};
use crate::equal::EqualPlan;
use crate::known::Known;
use crate::planning::plan_by;
use pb_base::{EqualMode, Lits, NoMemory, Options};
use pb_family::Built;
use pb_norm::{Linear, first_coef, lits_of};
use pb_totalizer::Exact;
use std::alloc::{AllocError, Global};

// True if equalities may be encoded as one by these options.
fn is_joining(mode: EqualMode) -> bool
    ensures { result ≡ is_joining mode }
{
    match mode {
        EqualMode::Split => false,
        EqualMode::Joint => true,
    }
}

// Returns the literals of a constraint, without their coefficients.
fn lits_under(alloc: Global, lower: &Linear) -> Result<Lits, AllocError>
    ensures linear { IsLinear lower.now }
    ensures few { length lower.now.terms < 2 ^ 31 }
    ensures lits { IfOk result (λ lits. lits ≡ lits_of lower.now.terms) }
{
    let lits = lits_of(alloc, lower.terms())?;
    Ok(Lits::from_vec(lits))
}

// Builds the totalizer of an equality with this lower half; `None` if the equality is encoded half by half.
fn exact_of(alloc: Global, lower: &Linear, options: &Options) -> Result<Option<Exact>, NoMemory>
    ensures { IfOk result (λ found. MatchOption found (is_joint options.now lower.now ≡ false) (λ exact. (is_joint options.now lower.now ≡ true) × (exact_sum exact ≡ literals_asked lower.now))) }
{
    if !is_joining(options.equal) {
        return Ok(None);
    }
    if !asks_for_number(lower) {
        return Ok(None);
    }
    let lits = lits_under(alloc, lower)?;
    let number = number_asked(lower) as u32;
    match Exact::build(alloc, &lits, number, options.budget)? {
        Built::Fits(exact) => Ok(Some(exact)),
        Built::Over => Ok(None),
    }
}

// Returns the coefficient of the first literal; for an equality that counts, that of all.
fn coef_of(lower: &Linear) -> i128
    requires light { weight lower.now.terms < 2 ^ 100 }
    ensures { result ≡ pos (first_coef lower.now.terms) }
{
    first_coef(lower.terms()) as i128
}

// Plans the encoding of an equality half by half, both with the same prior knowledge.
fn plan_halves<'a>(
    alloc: Global,
    lower: &'a Linear,
    upper: &'a Linear,
    options: &Options,
    known: Known<'a>,
) -> Result<EqualPlan<'a>, NoMemory>
    requires lower_light { weight lower.now.terms < 2 ^ 100 }
    requires upper_light { weight upper.now.terms < 2 ^ 100 }
    requires split { is_joint options.now lower.now ≡ false }
    requires lower_known { IsKnown options.now (rest_of lower.now) known }
    requires upper_known { IsKnown options.now (rest_of upper.now) known }
    ensures choice { IfOk result (IsEqualPlan options.now lower.now upper.now) }
    ensures parts { IfOk result (HasPartsOf options.now lower.now upper.now) }
{
    let one = plan_by(alloc, lower, options, known)?;
    let other = plan_by(alloc, upper, options, known)?;
    Ok(EqualPlan::Split(one, other))
}

/// Plans the encoding of an equality, given its two halves: as one, or half by half. What the families need is built here, once.
pub fn plan_equal<'a>(
    alloc: Global,
    lower: &'a Linear,
    upper: &'a Linear,
    options: &Options,
) -> Result<EqualPlan<'a>, NoMemory>
    requires lower_light { weight lower.now.terms < 2 ^ 100 }
    requires upper_light { weight upper.now.terms < 2 ^ 100 }
    // The plan is one of both halves together iff the equality asks for a number of literals, equalities may be joined and its fresh
    // variables are within the budget; else it is the plans of both halves.
    ensures choice { IfOk result (IsEqualPlan options.now lower.now upper.now) }
    // Its numbers, clauses and steps are those of the equality.
    ensures parts { IfOk result (HasPartsOf options.now lower.now upper.now) }
{
    match exact_of(alloc, lower, options)? {
        Some(exact) => {
            let a = coef_of(lower);
            Ok(EqualPlan::Joint { exact, a })
        }
        None => plan_halves(alloc, lower, upper, options, Known::Nothing),
    }
}

/// Plans the encoding of an equality half by half if both halves are known to go to the adder, without building any other family first.
pub fn plan_adders<'a>(
    alloc: Global,
    lower: &'a Linear,
    upper: &'a Linear,
    options: &Options,
) -> Result<EqualPlan<'a>, NoMemory>
    requires lower_light { weight lower.now.terms < 2 ^ 100 }
    requires upper_light { weight upper.now.terms < 2 ^ 100 }
    requires split { is_joint options.now lower.now ≡ false }
    requires lower_adder { IsSentToAdder options.now lower.now }
    requires upper_adder { IsSentToAdder options.now upper.now }
    ensures choice { IfOk result (IsEqualPlan options.now lower.now upper.now) }
    ensures parts { IfOk result (HasPartsOf options.now lower.now upper.now) }
{
    plan_halves(alloc, lower, upper, options, Known::Adder)
}
