//! The clauses of adders and of a comparator, each of which follows by propagation.
ghost use Rattle.std.specs.Prelude.{◌≤◌, ◌<◌, ◌+◌, ◌*◌, ◌^◌, ◌++◌, All, map, length};
ghost use Rattle.pb_derive.specs.Rups.{by_rup};
ghost use Rattle.pb_adder.specs.AdderSteps.{gate_claims, gate_ids, row_claims};
ghost use Rattle.pb_adder.specs.Comparator.{comparator, end_needs};
ghost use Rattle.pb_adder.specs.Gates.{gate_clauses, gate_needs};
ghost use Rattle.pb_adder.specs.inner.Rows.{rows_in};
ghost use Rattle.pb_family.specs.HandedJustifications.{HandsClaims};

use crate::comparator::row_at;
use crate::emit::{full_carries, full_sums, half_threes, half_twos};
use crate::gate::{Gate, GateLits, Wire};
use crate::row::Row;
use pb_base::Lit;
use pb_family::{SinkResult, StepSink, derive_propagated};
use std::alloc::Global;

/// Hands over that clauses of one length follow from constraints, and the clauses.
fn derive_each<const N: usize, T: StepSink>(
    alloc: Global,
    ids: &[u64],
    clauses: &[[Lit; N]],
    sink: &mut T,
) -> SinkResult
    requires few { (T.state sink.old).next + length clauses.now < 2 ^ 62 }
    ensures { HandsClaims (map (by_rup ids.now) clauses.now) result (T.state sink.old) (T.state sink.new) }
{
    for clause in clauses {
        derive_propagated(alloc, ids, clause, sink)?;
    }
    Ok(())
}

/// The same for clauses of one length, and then for those of another.
fn derive_both<const N: usize, const M: usize, T: StepSink>(
    alloc: Global,
    ids: &[u64],
    long: &[[Lit; N]],
    short: &[[Lit; M]],
    sink: &mut T,
) -> SinkResult
    requires few { (T.state sink.old).next + length (long.now ++ short.now) < 2 ^ 62 }
    ensures { HandsClaims (map (by_rup ids.now) (long.now ++ short.now)) result (T.state sink.old) (T.state sink.new) }
{
    derive_each(alloc, ids, long, sink)?;
    derive_each(alloc, ids, short, sink)
}

/// Hands over the clauses of an adder, whose constraints have four ids, from `id` on.
fn derive_gate<T: StepSink>(
    alloc: Global,
    gate: &Gate,
    first: u32,
    id: u64,
    sink: &mut T,
) -> SinkResult
    requires low { 1 ≤ first }
    requires fits { first + gate_needs gate.now ≤ 2 ^ 31 }
    requires given { id + 3 < 2 ^ 62 }
    requires few { (T.state sink.old).next + 14 < 2 ^ 62 }
    ensures { HandsClaims (map (by_rup (gate_ids id)) (gate_clauses first gate.now)) result (T.state sink.old) (T.state sink.new) }
{
    let ids = [id, id + 1, id + 2, id + 3];
    match &gate.lits(first) {
        GateLits::Three(x) => {
            let sums = full_sums(x);
            let carries = full_carries(x);
            derive_both(alloc, &ids, &sums, &carries, sink)
        },
        GateLits::Two(x) => {
            let threes = half_threes(x);
            let twos = half_twos(x);
            derive_both(alloc, &ids, &threes, &twos, sink)
        },
    }
}

/// Hands over the clauses of adders, whose constraints have four ids each, from `id` on.
pub fn derive_gates<T: StepSink>(
    alloc: Global,
    gates: &[Gate],
    first: u32,
    id: u64,
    sink: &mut T,
) -> SinkResult
    requires low { 1 ≤ first }
    requires fits { All (λ g. first + gate_needs g ≤ 2 ^ 31) gates.now }
    requires given { id + 4 * length gates.now < 2 ^ 62 }
    requires few { (T.state sink.old).next + 14 * length gates.now < 2 ^ 62 }
    ensures { HandsClaims (gate_claims first id gates.now) result (T.state sink.old) (T.state sink.new) }
{
    let mut id = id;
    for gate in gates {
        derive_gate(alloc, gate, first, id, sink)?;
        id += 4;
    }
    Ok(())
}

/// Hands over a clause that follows from the constraint with an id, if there is one.
fn derive_row<T: StepSink>(alloc: Global, row: Option<Row>, id: u64, sink: &mut T) -> SinkResult
    requires room { (T.state sink.old).next + 1 < 2 ^ 62 }
    ensures { HandsClaims (row_claims id (rows_in row)) result (T.state sink.old) (T.state sink.new) }
{
    match row {
        Some(row) => derive_propagated(alloc, &[id], row.as_slice(), sink),
        None => Ok(()),
    }
}

/// Hands over that the number with these bits is at most the bound, from the constraint with an id.
pub fn derive_rows<T: StepSink>(
    alloc: Global,
    bound: u128,
    ends: &[Option<Wire>],
    first: u32,
    id: u64,
    sink: &mut T,
) -> SinkResult
    requires low { 1 ≤ first }
    requires few { length ends.now ≤ 128 }
    requires fits { All (λ e. first + end_needs e ≤ 2 ^ 31) ends.now }
    requires room { (T.state sink.old).next + 128 < 2 ^ 62 }
    ensures { HandsClaims (row_claims id (comparator first bound ends.now)) result (T.state sink.old) (T.state sink.new) }
{
    let mut bound = bound;
    let mut rest = ends;
    while let Some((end, above)) = rest.split_first() {
        derive_row(alloc, row_at(bound, end, above, first), id, sink)?;
        bound /= 2;
        rest = above;
    }
    Ok(())
}
