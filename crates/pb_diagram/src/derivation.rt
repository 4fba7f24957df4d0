//! The steps that derive the clauses of a diagram.
ghost use Rattle.std.specs.Prelude.{◌≡◌, ◌≤◌, ◌<◌, ◌+◌, ◌^◌, ◌*◌, All, IfOk, length, map};
ghost use Rattle.pb_derive.specs.Reifications.{reification_steps};
ghost use Rattle.pb_family.specs.StepSinks.{HandsSteps};
ghost use Rattle.pb_norm.specs.Constraints.{weight, weighted, weights};
ghost use Rattle.pb_norm.specs.BoundedSums.{sum_within};
ghost use Rattle.pb_norm.specs.Reduction.{opposite};
ghost use Rattle.pb_norm.specs.inner.Kept.{on_term};
ghost use Rattle.pb_diagram.specs.Clauses.{diagram_fresh};
ghost use Rattle.pb_diagram.specs.DiagramSteps.{level_reifications};

use crate::claims::Claims;
use crate::interval::Interval;
use crate::level::nodes_after;
use crate::shape::Shape;
use pb_base::Term;
use pb_family::{
    SinkResult, StepSink, derive_claim, derive_deletions, derive_reification, fresh_at,
};
use pb_norm::weight_of;
use std::alloc::{AllocError, Global};

/// The terms with their literals negated.
pub fn negated_terms(alloc: Global, terms: &[Term]) -> Result<Vec<Term>, AllocError>
    requires fits { All (λ t. (weighted t).coef < 2 ^ 127) terms.now }
    ensures { IfOk result (λ v. v.items ≡ map (on_term opposite) terms.now) }
{
    let mut negated = Vec::with_capacity(alloc, terms.len())?;
    for term in terms {
        negated.push(Term::weighing(term.weight(), term.lit.not()))?;
    }
    Ok(negated)
}

/// The nodes of a level, and the terms from there on with their literals negated.
#[derive(Clone, Copy)]
struct Sides<'a> {
    negated: &'a [Term],
    nodes: &'a [Interval],
    ghost light: { weight (weights negated.now) < 2 ^ 100 },
    ghost within: { All (λ g. g.top ≤ weight (weights negated.now)) nodes.now },
}

/// What the nodes of a level mean.
fn define_level<T: StepSink>(alloc: Global, sides: Sides, first: u32, sink: &mut T) -> SinkResult
    requires low { 1 ≤ first }
    requires high { first + length sides.nodes.now ≤ 2 ^ 31 }
    requires few { (T.state sink.old).next + 2 * length sides.nodes.now < 2 ^ 62 }
    ensures { HandsSteps (reification_steps (T.state sink.old).next (level_reifications first (map opposite (weights sides.entry.negated.now)) sides.entry.nodes.now)) result (T.state sink.old) (T.state sink.new) }
{
    let whole = weight_of(sides.negated);
    let nodes = sides.nodes;
    for place in 0..nodes.len() {
        let var = fresh_at(first, place).var;
        let least = whole + 1 - nodes[place].top;
        derive_reification(alloc, var, sides.negated, least, sink)?;
    }
    Ok(())
}

/// A diagram with its terms negated. Its nodes have the variables from `first` on and their constraints the ids from `base` on,
/// two each; the sum's constraint has the id `own`.
#[derive(Clone, Copy)]
pub struct Derivation<'a> {
    pub shape: Shape<'a>,
    pub negated: &'a [Term],
    pub first: u32,
    pub own: u64,
    pub base: u64,
    ghost turned: { weights negated.now ≡ map opposite (weights shape.terms.now) },
    ghost low: { 1 ≤ first },
    ghost fits: { first + diagram_fresh (sum_within shape.terms.now shape.bound) ≤ 2 ^ 31 },
    ghost modest: { base ≤ 2 ^ 61 },
}

impl Derivation<'_> {
    ghost use Rattle.std.specs.Prelude.{◌≡◌, ◌≤◌, ◌+◌, ◌^◌};
    ghost use Rattle.pb_derive.specs.Reifications.{reification_steps};
    ghost use Rattle.pb_family.specs.StepSinks.{HandsSteps};
    ghost use Rattle.pb_family.specs.HandedJustifications.{HandsJustifications};
    ghost use Rattle.pb_norm.specs.Constraints.{weights};
    ghost use Rattle.pb_diagram.specs.DiagramSteps.{justifications_over, diagram_steps};
    ghost use Rattle.pb_diagram.specs.inner.Layers.{shape_reifications, shape_sum};

    /// What all nodes mean.
    fn define_nodes<T: StepSink>(&self, alloc: Global, sink: &mut T) -> SinkResult
        requires few { (T.state sink.old).next ≤ 2 ^ 61 }
        ensures { HandsSteps (reification_steps (T.state sink.old).next (shape_reifications self.now.shape self.now.first)) result (T.state sink.old) (T.state sink.new) }
    {
        let mut start = self.first;
        for i in 0..self.shape.terms.len() {
            let sides = Sides {
                negated: &self.negated[i..],
                nodes: nodes_after(self.shape.levels, i),
            };
            define_level(alloc, sides, start, sink)?;
            start += sides.nodes.len() as u32;
        }
        Ok(())
    }

    /// Why all clauses hold.
    fn derive_clauses<T: StepSink>(&self, alloc: Global, sink: &mut T) -> SinkResult
        requires few { (T.state sink.old).next ≤ 2 ^ 61 + 2 ^ 32 }
        ensures { HandsJustifications (justifications_over (weights self.now.shape.terms.now) self.now.shape.levels.now 0 self.now.base self.now.own) result (T.state sink.old) (T.state sink.new) }
    {
        let terms = self.shape.terms;
        let mut whole = weight_of(terms);
        let mut id = self.base;
        for i in 0..terms.len() {
            let layer = self.shape.layer(i, whole);
            let after = id + 2 * layer.nodes.len() as u64;
            let claims = Claims { layer, id, after };
            claims.derive_level(alloc, sink)?;
            whole = layer.whole;
            id = after;
        }
        derive_claim(alloc, &[self.base + 1, self.own], &[], sink)
    }

    /// All of it.
    pub fn derive<T: StepSink>(&self, alloc: Global, sink: &mut T) -> SinkResult
        requires { self.now.base ≡ (T.state sink.old).next }
        ensures { HandsSteps (diagram_steps (shape_sum self.now.shape) self.now.first self.now.own (T.state sink.old).next) result (T.state sink.old) (T.state sink.new) }
    {
        self.define_nodes(alloc, sink)?;
        self.derive_clauses(alloc, sink)?;
        derive_deletions(alloc, self.base, 2, self.shape.fresh, sink)
    }
}
