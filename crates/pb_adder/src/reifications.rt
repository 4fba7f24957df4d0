//! What the fresh variables of adders mean.
ghost use Rattle.std.specs.Prelude.{◌≡◌, ◌≤◌, ◌<◌, ◌+◌, ◌-◌, ◌*◌, ◌^◌, ◌∷◌, [], All, length, take};
ghost use Rattle.std.specs.List.{flat_map};
ghost use Rattle.pb_norm.specs.Constraints.{weight, weighted, weights};
ghost use Rattle.pb_family.specs.HandedJustifications.{HandsReifications};
ghost use Rattle.pb_adder.specs.GateReifications.{gate_reifications, twice_off};
ghost use Rattle.pb_adder.specs.Gates.{gate_needs};

use crate::gate::{Gate, GateLits};
use pb_base::{Lit, Term, Var};
use pb_family::{SinkResult, StepSink, derive_reification};
use std::alloc::Global;

/// A carry that is off, which counts twice.
fn twice_off(carry: Var) -> Term
    ensures { weighted result ≡ twice_off carry }
{
    let lit = Lit {
        var: carry,
        positive: false,
    };
    Term { coef: 2, lit }
}

/// A bit of an adder, which counts once.
fn once(lit: Lit) -> Term
    ensures { weighted result ≡ record { coef = 1; lit = lit } }
{
    Term { coef: 1, lit }
}

/// Hands over that a carry is true where two of the bits are, and a sum where three of all are, which are the bits and then the
/// carry that is off.
fn derive_meanings<T: StepSink>(
    alloc: Global,
    carry: Var,
    sum: Var,
    all: &[Term],
    sink: &mut T,
) -> SinkResult
    requires some { 1 ≤ length all.now }
    requires bits_light { weight (weights (take (length all.now - 1) all.now)) + 2 < 2 ^ 124 }
    requires all_light { weight (weights all.now) + 3 < 2 ^ 124 }
    requires few { (T.state sink.old).next + 3 < 2 ^ 62 }
    ensures { HandsReifications (record { var = carry; sum = weights (take (length all.now - 1) all.now); least = 2 } ∷ record { var = sum; sum = weights all.now; least = 3 } ∷ []) result (T.state sink.old) (T.state sink.new) }
{
    derive_reification(alloc, carry, &all[..all.len() - 1], 2, sink)?;
    derive_reification(alloc, sum, all, 3, sink)
}

/// Hands over what the two fresh variables of an adder mean.
fn derive_gate_reifications<T: StepSink>(
    alloc: Global,
    gate: &Gate,
    first: u32,
    sink: &mut T,
) -> SinkResult
    requires low { 1 ≤ first }
    requires fits { first + gate_needs gate.now ≤ 2 ^ 31 }
    requires few { (T.state sink.old).next + 3 < 2 ^ 62 }
    ensures { HandsReifications (gate_reifications first gate.now) result (T.state sink.old) (T.state sink.new) }
{
    match &gate.lits(first) {
        GateLits::Three(x) => {
            let carry = x.carry.var;
            let all = [once(x.a), once(x.b), once(x.c), twice_off(carry)];
            derive_meanings(alloc, carry, x.sum.var, &all, sink)
        },
        GateLits::Two(x) => {
            let carry = x.carry.var;
            let all = [once(x.a), once(x.b), twice_off(carry)];
            derive_meanings(alloc, carry, x.sum.var, &all, sink)
        },
    }
}

/// Hands over what the fresh variables of adders mean.
pub fn derive_reifications<T: StepSink>(
    alloc: Global,
    gates: &[Gate],
    first: u32,
    sink: &mut T,
) -> SinkResult
    requires low { 1 ≤ first }
    requires fits { All (λ g. first + gate_needs g ≤ 2 ^ 31) gates.now }
    requires few { (T.state sink.old).next + 4 * length gates.now < 2 ^ 62 }
    ensures { HandsReifications (flat_map (gate_reifications first) gates.now) result (T.state sink.old) (T.state sink.new) }
{
    for gate in gates {
        derive_gate_reifications(alloc, gate, first, sink)?;
    }
    Ok(())
}
