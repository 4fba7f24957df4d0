//! The steps that derive the clauses of an adder network and its comparator.
use crate::adder::Adder;
use crate::claims::{derive_gates, derive_rows};
use crate::sums::{Summands, derive_last_deletion, derive_sums};
use pb_family::{SinkResult, StepSink};
use std::alloc::Global;

impl Adder {
    ghost use Rattle.std.specs.Prelude.{◌≡◌, ◌≤◌, ◌<◌, ◌+◌, ◌*◌, ◌^◌, length};
    ghost use Rattle.pb_norm.specs.Constraints.{weights};
    ghost use Rattle.pb_family.specs.StepSinks.{HandsFrom};
    ghost use Rattle.pb_family.specs.HandedJustifications.{HandsClaims};
    ghost use Rattle.pb_adder.specs.AdderSteps.{adder_claims, proving_steps};
    ghost use Rattle.pb_adder.specs.Counts.{adder_fresh};
    ghost use Rattle.pb_adder.specs.Network.{network_gates};

    /// The clauses, where the reifications' constraints have the ids from `base` on, and the last sum has the id `last`.
    fn derive_clauses<T: StepSink>(
        &self,
        alloc: Global,
        first: u32,
        base: u64,
        last: u64,
        sink: &mut T,
    ) -> SinkResult
        requires low { 1 ≤ first }
        requires fits { first + adder_fresh (weights self.now.terms) ≤ 2 ^ 31 }
        requires given { base ≤ 2 ^ 61 }
        requires few { (T.state sink.old).next ≤ 2 ^ 61 + 5 * length (network_gates (weights self.now.terms)) }
        ensures { HandsClaims (adder_claims (weights self.now.terms) self.now.bound first base last) result (T.state sink.old) (T.state sink.new) }
    {
        derive_gates(alloc, self.network.gates.as_slice(), first, base, sink)?;
        derive_rows(
            alloc,
            self.bound,
            self.network.ends.as_slice(),
            first,
            last,
            sink,
        )
    }

    /// The sums and the clauses, where `id` is the constraint's.
    pub(crate) fn derive_proof<T: StepSink>(
        &self,
        alloc: Global,
        first: u32,
        id: u64,
        base: u64,
        sink: &mut T,
    ) -> SinkResult
        requires low { 1 ≤ first }
        requires fits { first + adder_fresh (weights self.now.terms) ≤ 2 ^ 31 }
        requires known { id < base }
        requires given { base ≤ 2 ^ 61 }
        requires next { (T.state sink.old).next ≡ base + 4 * length (network_gates (weights self.now.terms)) }
        ensures { HandsFrom (proving_steps (weights self.now.terms) self.now.bound first id base) result (T.state sink.old) (T.state sink.new) }
    {
        let heights = self.network.heights.as_slice();
        let summands = Summands {
            levels: heights,
            id: base,
        };
        let last = derive_sums(alloc, summands, id, sink)?;
        self.derive_clauses(alloc, first, base, last, sink)?;
        derive_last_deletion(alloc, heights, last, sink)
    }
}
