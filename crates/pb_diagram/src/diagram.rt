//! A bounded sum with any coefficients, by an interval diagram.
ghost use Rattle.std.specs.Prelude.{◌≡◌, ◌<◌, ◌^◌, IfOk};
ghost use Rattle.pb_norm.specs.Constraints.{weight, weights};
ghost use Rattle.pb_norm.specs.BoundedSums.{IsProper, sum_within};
ghost use Rattle.pb_diagram.specs.Clauses.{diagram_clauses, diagram_fresh, diagram_size, node_count};
ghost use Rattle.pb_diagram.specs.Levels.{levels_of};

use crate::counts::{count_clauses, count_nodes};
use crate::derivation::{Derivation, negated_terms};
use crate::emission::emit_whole;
use crate::guarded::Guarded;
use crate::known::Known;
use crate::level::Level;
use crate::nodes::{are_narrow, list_nodes};
use crate::search::known_levels;
use crate::shape::Shape;
use pb_base::{NoMemory, Term};
use pb_family::{Built, ClauseSink, Derive, Family, SinkResult, StepSink, Strong, sink_result};
use pb_norm::AtMost;
use std::alloc::{AllocError, Global};

/// The interval diagram of a sum (Abío and others 2012). A residue is what the terms from a level on may add up to, and each
/// level has a node, which is a fresh variable, for each interval of residues that come to the same. Where a node is true, so is
/// its false child, with the same residue, and where the level's literal is true as well, so is its true child, with the
/// coefficient less.
#[derive(Drop)]
pub struct Diagram {
    terms: Vec<Term>,
    bound: u128,
    levels: Vec<Level>,
    fresh: u64,
    clauses: u64,
    ghost proper: { IsProper (sum_within terms.items bound) },
    ghost light: { weight (weights terms.items) < 2 ^ 100 },
    ghost nodes: { levels.items ≡ levels_of (sum_within terms.items bound) },
    ghost fresh_is: { fresh ≡ diagram_fresh (sum_within terms.items bound) },
    ghost clauses_is: { clauses ≡ diagram_size (sum_within terms.items bound) },
}

/// The levels, with the nodes of each in order.
fn list_levels(alloc: Global, known: Vec<Known>) -> Result<Vec<Level>, AllocError>
    ensures { IfOk result (λ ls. ls.items ≡ known.items) }
{
    let mut levels = Vec::new(alloc);
    for level in known {
        levels.push(Level::from_vec(level.into_intervals(alloc)?))?;
    }
    Ok(levels)
}

impl Diagram {
    ghost use Rattle.std.specs.Prelude.{◌≡◌, ◌<◌, ◌≤◌, ◌+◌, ◌^◌, ℕ, IfOk};
    ghost use Rattle.pb_norm.specs.Constraints.{weight};
    ghost use Rattle.pb_family.specs.Budgets.{IsOverExactly, IfFits};
    ghost use Rattle.pb_family.specs.StepSinks.{HandsSteps};
    ghost use Rattle.pb_diagram.specs.DiagramSteps.{diagram_steps};

    /// The diagram of a sum, if it has no more nodes than the budget. The search ends at the first node over the budget, which
    /// bounds the memory and time that it takes; no clause says so.
    pub fn build(alloc: Global, of: &AtMost, budget: u64) -> Result<Built<Diagram>, NoMemory>
        requires light { weight of.now.terms < 2 ^ 100 }
        requires modest { budget < 2 ^ 31 }
        // The budget is passed iff the nodes are more.
        ensures over { IfOk result (λ built. IsOverExactly (diagram_fresh of.now) budget built) }
        // The family is of this sum.
        ensures constraint { IfOk result (λ built. IfFits (λ t. ⟦<Diagram as Family>⟧.constraint t ≡ of.now) built) }
        // The number of fresh variables is the defined one.
        ensures fresh { IfOk result (λ built. IfFits (λ t. ⟦<Diagram as Family>⟧.fresh_count t ≡ diagram_fresh of.now) built) }
        // The number of clauses is the defined one.
        ensures clauses { IfOk result (λ built. IfFits (λ t. ⟦<Diagram as Family>⟧.clause_count t ≡ diagram_size of.now) built) }
        // The clauses are those of the interval diagram.
        ensures list { IfOk result (λ built. IfFits (λ t. (first : ℕ) → ⟦<Diagram as Family>⟧.clause_list t first ≡ diagram_clauses of.now first) built) }
    {
        match known_levels(alloc, of, budget)? {
            Some(known) => Ok(Built::Fits(Diagram::of_nodes(alloc, of, known)?)),
            None => Ok(Built::Over),
        }
    }

    /// The diagram of a sum, by all its nodes.
    fn of_nodes(alloc: Global, of: &AtMost, known: Vec<Known>) -> Result<Diagram, AllocError>
        requires light { weight of.now.terms < 2 ^ 100 }
        requires all { known.items ≡ levels_of of.now }
        requires few { node_count (levels_of of.now) < 2 ^ 31 }
        ensures { IfOk result (λ t. sum_within t.terms.items t.bound ≡ of.now) }
    {
        let levels = list_levels(alloc, known)?;
        let terms = Vec::from_slice(alloc, of.terms())?;
        let bound = of.bound();
        let fresh = count_nodes(levels.as_slice());
        let clauses = count_clauses(Shape {
            terms: terms.as_slice(),
            bound,
            levels: levels.as_slice(),
            fresh,
        });
        Ok(Diagram {
            terms,
            bound,
            levels,
            fresh,
            clauses,
        })
    }

    /// Hands over the derivation with each node over its sum.
    fn derive_plainly<T: StepSink>(
        &self,
        alloc: Global,
        first: u32,
        id: u64,
        sink: &mut T,
    ) -> SinkResult
        requires low { 1 ≤ first }
        requires fits { first + diagram_fresh (sum_within self.now.terms.items self.now.bound) ≤ 2 ^ 31 }
        requires few { (T.state sink.old).next ≤ 2 ^ 61 }
        ensures { HandsSteps (diagram_steps (sum_within self.now.terms.items self.now.bound) first id (T.state sink.old).next) result (T.state sink.old) (T.state sink.new) }
    {
        let negated = negated_terms(alloc, self.terms.as_slice())?;
        let derivation = Derivation {
            shape: self.shape(),
            negated: negated.as_slice(),
            first,
            own: id,
            base: sink.next_id(),
        };
        derivation.derive(alloc, sink)
    }

    /// Its terms and levels.
    fn shape(&self) -> Shape<'_>
        requires { self.now.fresh < 2 ^ 31 }
        ensures terms { result.terms.now ≡ self.now.terms.items }
        ensures bound { result.bound ≡ self.now.bound }
    {
        Shape {
            terms: self.terms.as_slice(),
            bound: self.bound,
            levels: self.levels.as_slice(),
            fresh: self.fresh,
        }
    }
}

impl Family for Diagram {
    ghost use Rattle.pb_norm.specs.BoundedSums.{sum_within};
    ghost use Rattle.pb_diagram.specs.Clauses.{diagram_clauses, diagram_fresh, diagram_size};
    ghost use Rattle.pb_diagram.specs.laws.DiagramLaws.{diagram_sound, diagram_extends, diagram_counts, diagram_names};

    ghost constraint = { λ f. sum_within f.terms.items f.bound };

    ghost fresh_count = { λ f. diagram_fresh (sum_within f.terms.items f.bound) };

    ghost clause_count = { λ f. diagram_size (sum_within f.terms.items f.bound) };

    ghost clause_list = { λ f first. diagram_clauses (sum_within f.terms.items f.bound) first };

    ghost TakesNoMemory = { λ _. Unit {0} };

    fn fresh(&self) -> u64 {
        self.fresh
    }

    fn clauses(&self) -> u64 {
        self.clauses
    }

    fn emit<S: ClauseSink>(&self, _alloc: Global, first: u32, sink: &mut S) -> SinkResult {
        sink_result(emit_whole(self.shape(), first, sink))
    }

    ghost sound = { λ f first below a model. diagram_sound (sum_within f.terms.items f.bound) f.proper first a model };

    ghost extends = { λ f first below a holds. diagram_extends (sum_within f.terms.items f.bound) f.proper first below a holds };

    ghost counts = { λ f first. diagram_counts (sum_within f.terms.items f.bound) first };

    ghost names = { λ f first. diagram_names (sum_within f.terms.items f.bound) f.proper first };
}

impl Strong for Diagram {
    ghost use Rattle.pb_norm.specs.BoundedSums.{sum_within};
    ghost use Rattle.pb_diagram.specs.laws.DiagramLaws.{diagram_propagates};

    ghost propagates = { λ f first below. diagram_propagates (sum_within f.terms.items f.bound) f.proper first };
}

impl Derive for Diagram {
    ghost use Rattle.pb_norm.specs.BoundedSums.{sum_within};
    ghost use Rattle.pb_diagram.specs.DiagramDerivation.{derivation_steps};
    ghost use Rattle.pb_diagram.specs.laws.DerivationLaws.{derivation_derives, derivation_lines, derivation_sayable, derivation_short};

    ghost step_list = { λ f. derivation_steps (sum_within f.terms.items f.bound) };

    fn derive<T: StepSink>(&self, alloc: Global, first: u32, id: u64, sink: &mut T) -> SinkResult {
        let shape = self.shape();
        if shape.terms.len() < 20 {
            return self.derive_plainly(alloc, first, id, sink);
        }
        let nodes = list_nodes(alloc, shape)?;
        let levels = nodes.as_slice();
        let most = 255u64.min(shape.terms.len() as u64);
        if !are_narrow(most, levels) {
            return self.derive_plainly(alloc, first, id, sink);
        }
        let base = sink.next_id();
        let guarded = Guarded {
            terms: shape.terms,
            levels,
            fresh: self.fresh,
            first,
            own: id,
            base,
        };
        guarded.derive(alloc, sink)
    }

    ghost derives = { λ f first id db below ready. derivation_derives (sum_within f.terms.items f.bound) f.proper f.light first below id db ready };

    ghost few_steps = { λ f first id next. derivation_lines (sum_within f.terms.items f.bound) f.proper first id next };

    ghost sayable = { λ f first id next original start. derivation_sayable (sum_within f.terms.items f.bound) f.proper f.light first id next original start };

    ghost short = { λ f first id next original start. derivation_short (sum_within f.terms.items f.bound) f.proper f.light first id next original start };
}
