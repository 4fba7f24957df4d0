//! The derivation of the clauses of a table of bounds.
ghost use Rattle.std.specs.Prelude.{◌≤◌, ◌<◌, ◌+◌, ◌*◌, ◌^◌, [], ◌∷◌, length, map};
ghost use Rattle.std.specs.List.{range_with_len};
ghost use Rattle.pb_norm.specs.Constraints.{AllPositive, weight, weights};
ghost use Rattle.pb_family.specs.StepSinks.{HandsSteps};
ghost use Rattle.pb_family.specs.HandedJustifications.{HandsJustifications};
ghost use Rattle.pb_tree.specs.Tree.{tree_of};
ghost use Rattle.pb_tree.specs.Scheme.{values, fresh_of, clause_count_of};
ghost use Rattle.pb_gentot.specs.Generalized.{generalized};
ghost use Rattle.pb_gentot.specs.inner.KeptTables.{rise_at, rises_of, steps_by};

use crate::handing::derive_nodes;
use crate::node_ids::{Handed, Source};
use crate::whole::Whole;
use pb_base::Term;
use pb_family::{SinkResult, StepSink, derive_claim};
use pb_tree::{TreeClaims, derive_along};
use std::alloc::Global;

/// That what reaches the value behind a place reaches the one there.
fn derive_rise<T: StepSink>(alloc: Global, id: u64, place: usize, sink: &mut T) -> SinkResult
    requires ids { id + 2 * place + 2 < 2 ^ 62 }
    requires few { (T.state sink.old).next + 1 < 2 ^ 62 }
    ensures { HandsJustifications (rise_at id place ∷ []) result (T.state sink.old) (T.state sink.new) }
{
    let own = id + 2 * place as u64;
    derive_claim(alloc, &[own + 2, own + 1], &[], sink)
}

/// That for each of the places.
fn derive_rises<T: StepSink>(alloc: Global, id: u64, count: usize, sink: &mut T) -> SinkResult
    requires ids { id + 2 * count < 2 ^ 62 }
    requires few { (T.state sink.old).next + count < 2 ^ 62 }
    ensures { HandsJustifications (map (rise_at id) (range_with_len 0 count)) result (T.state sink.old) (T.state sink.new) }
{
    for place in 0..count {
        derive_rise(alloc, id, place, sink)?;
    }
    Ok(())
}

/// That for all neighbours of a part.
fn derive_neighbours<T: StepSink>(alloc: Global, root: &Handed, sink: &mut T) -> SinkResult
    requires { (T.state sink.old).next + length (rises_of root.now.source (length root.now.values.items)) < 2 ^ 62 }
    ensures { HandsJustifications (rises_of root.now.source (length root.now.values.items)) result (T.state sink.old) (T.state sink.new) }
{
    match root.source {
        Source::Leaf => Ok(()),
        Source::Fresh(id) => {
            let count = root.values.len().saturating_sub(1);
            derive_rises(alloc, id, count, sink)
        }
    }
}

/// The clauses of some terms, with those between neighbours.
#[derive(Clone, Copy)]
struct Rows<'a> {
    whole: &'a Whole<'a>,
}

impl<'a> TreeClaims<Whole<'a>> for Rows<'a> {
    ghost use Rattle.pb_gentot.specs.inner.KeptTables.{justifications_by};

    ghost sum = { λ d. d.whole.now };

    ghost given = { λ d id. justifications_by d.whole.now.bound d.whole.now.terms.now 0 id };

    fn sum(&self) -> &Whole<'a> {
        self.whole
    }

    fn claim<T: StepSink>(&self, alloc: Global, id: u64, sink: &mut T) -> SinkResult {
        let root = derive_nodes(alloc, self.whole, id, sink)?;
        derive_neighbours(alloc, &root, sink)
    }
}

/// Hands over the whole derivation.
pub fn derive_table<T: StepSink>(
    alloc: Global,
    terms: &[Term],
    bound: u128,
    first: u32,
    sink: &mut T,
) -> SinkResult
    requires positive { AllPositive (weights terms.now) }
    requires small { bound < 2 ^ 100 }
    requires light { weight (weights terms.now) < 2 ^ 100 }
    requires low { 1 ≤ first }
    requires fits { first + fresh_of (generalized bound) (tree_of (weights terms.now)) ≤ 2 ^ 31 }
    requires modest { clause_count_of (generalized bound) (tree_of (weights terms.now)) + length (values (generalized bound) (tree_of (weights terms.now))) ≤ 2 ^ 60 }
    requires few { (T.state sink.old).next ≤ 2 ^ 61 }
    ensures { HandsSteps (steps_by bound terms.now first (T.state sink.old).next) result (T.state sink.old) (T.state sink.new) }
{
    if terms.is_empty() {
        return Ok(());
    }
    let whole = Whole {
        terms,
        bound,
        first,
    };
    derive_along(alloc, &Rows { whole: &whole }, sink)
}
