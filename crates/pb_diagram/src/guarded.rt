//! The derivation of a diagram's clauses by guards.
ghost use Rattle.std.specs.Prelude.{◌≡◌, ◌≤◌, ◌<◌, ◌+◌, ◌^◌, ◌==◌, [], ◌∷◌, All, IfOk, length, if◌then◌else◌};
ghost use Rattle.pb_norm.specs.Constraints.{weight, weighted, weights};
ghost use Rattle.pb_steps.specs.declared.op.PolOp.TheVariants.{Axiom, Weaken};
ghost use Rattle.pb_family.specs.Fresh.{positive_of};
ghost use Rattle.pb_diagram.specs.GuardedSteps.{all_terms, count_nodes};
ghost use Rattle.pb_diagram.specs.inner.OneProof.{levels-prop};
ghost use Rattle.pb_diagram.specs.inner.Parts.{nodes_from};
ghost use Rattle.pb_diagram.specs.laws.NodesOver.{AreLevels};

use crate::lines::{push_literals, push_ops};
use crate::node::{Node, Nodes};
use crate::parts::{Kind, Part};
use crate::stage::hand_line;
use crate::tier::Tier;
use pb_base::{Lit, Term, Var};
use pb_family::{SinkResult, StepSink, derive_deletions, derive_pieces};
use pb_steps::PolOp;
use std::alloc::{AllocError, Global};

/// A diagram's terms and nodes with their children, how many nodes these are, their first variable, the id of the sum's constraint, and
/// the first id of the derivation.
#[derive(Clone, Copy)]
pub struct Guarded<'a> {
    pub terms: &'a [Term],
    pub levels: &'a [Nodes],
    pub fresh: u64,
    pub first: u32,
    pub own: u64,
    pub base: u64,
    ghost shape: { AreLevels (weights terms.now) levels.now } by { levels-prop (weights terms.now) levels.now },
    ghost root: { length (nodes_from levels.now 0) ≡ 1 },
    ghost light: { weight (weights terms.now) < 2 ^ 100 },
    ghost count: { fresh ≡ count_nodes levels.now },
    ghost low: { 1 ≤ first },
    ghost fits: { first + fresh ≤ 2 ^ 31 },
    ghost modest: { base ≤ 2 ^ 61 },
}

/// The levels below the root, the last one first; how many of them are not before the first one without nodes; the first id of the first
/// one's order, and the next id behind all orders.
#[derive(Drop)]
pub struct Ladder<'a> {
    pub tiers: Vec<Tier<'a>>,
    pub empty: usize,
    pub order: u64,
    pub end: u64,
}

// The nodes of a level, of which there are none after the last.
fn nodes_from(levels: &[Nodes], place: usize) -> &[Node]
    ensures { result.now ≡ nodes_from levels.now place }
{
    if place < levels.len() {
        levels[place].as_slice()
    } else {
        &[]
    }
}

// On how many levels no sum is said, behind one with these nodes, which all are then if it has none.
fn empty_after(nodes: &[Node], before: usize, all: usize) -> usize
    ensures { result ≡ (if length nodes.now == 0 then all else before) }
{
    if nodes.is_empty() { all } else { before }
}

// The operations by which terms are at least 0, where a variable is named that no other step has named.
fn terms_line(alloc: Global, var: Var, terms: &[Term]) -> Result<Vec<PolOp>, AllocError>
    requires fits { All (λ t. (weighted t).coef < 2 ^ 127) terms.now }
    ensures { IfOk result (λ ops. ops.items ≡ Axiom (positive_of var) ∷ Weaken var ∷ all_terms (weights terms.now)) }
{
    let lit = Lit {
        var,
        positive: true,
    };
    let mut ops = Vec::new(alloc);
    push_ops(&mut ops, &[PolOp::Axiom(lit), PolOp::Weaken(var)])?;
    for term in terms {
        push_literals(&mut ops, term.weight(), term.lit)?;
    }
    Ok(ops)
}

impl<'a> Guarded<'a> {
    ghost use Rattle.std.specs.Prelude.{◌≡◌, ◌≤◌, ◌<◌, ◌+◌, ◌*◌, ◌^◌, [], ◌∷◌, drop, length, map, reverse, IfOk};
    ghost use Rattle.pb_derive.specs.Claims.{claim_steps};
    ghost use Rattle.pb_family.specs.Derivations.{ids_in_turn, in_turn};
    ghost use Rattle.pb_family.specs.StepSinks.{HandsFrom, HandsSteps};
    ghost use Rattle.pb_diagram.specs.GuardedSteps.{guarded_by, sums_steps};
    ghost use Rattle.pb_diagram.specs.declared.parts.Kind.TheVariants.{Clauses};
    ghost use Rattle.pb_diagram.specs.inner.Ladders.{IsLadderOf, claims_in, core_in, held_of, lower, lower_terms, ordered_in, orders_of, root_in, rung_at, sums_of, terms_of};
    ghost use Rattle.pb_diagram.specs.inner.Parts.{count_of, ids_of, nodes_from, part, piece_of};
    ghost use Rattle.pb_diagram.specs.inner.Tiers.{rung_in};

    /// The first id of the orders.
    fn orders(&self) -> u64
        ensures { result ≡ orders_of self.now }
    {
        let below = self.fresh - 1;
        self.base + 2 * below
    }

    // A level, by the next variable behind its own and the ids of its nodes' constraints and of the next level's order.
    fn tier(&self, place: usize, after: u32, counts: u64, order: u64) -> Tier<'a>
        requires within { place < length self.now.terms.now }
        requires low { length (nodes_from self.now.levels.now place) < after }
        requires high { after + length (nodes_from self.now.levels.now (place + 1)) ≤ 2 ^ 31 }
        requires counts { counts + 2 * length (nodes_from self.now.levels.now place) < 2 ^ 62 }
        requires order { order + length (nodes_from self.now.levels.now (place + 1)) < 2 ^ 62 }
        ensures { rung_in result ≡ rung_at (terms_of self.now) self.now.levels.now place after counts order }
    {
        let terms = self.terms;
        let term = &terms[place];
        let lit = &term.lit;
        let coef = term.weight();
        let nodes = nodes_from(self.levels, place);
        let next = nodes_from(self.levels, place + 1);
        let count = nodes.len() as u32;
        Tier {
            lit,
            coef,
            nodes,
            next,
            var: after - count,
            after,
            counts,
            order,
        }
    }

    // The levels below the root.
    fn ladder(&self, alloc: Global) -> Result<Ladder<'a>, AllocError>
        ensures { IfOk result (λ l. IsLadderOf self.now l) }
    {
        let mut tiers = Vec::new(alloc);
        let mut empty = 0;
        let mut after = self.first + self.fresh as u32;
        let mut counts = self.base;
        let mut order = self.orders();
        let mut end = order;
        for k in 1..self.terms.len() {
            let tier = self.tier(self.terms.len() - k, after, counts, order);
            let nodes = tier.nodes;
            after = tier.var;
            tiers.push(tier)?;
            empty = empty_after(nodes, empty, k);
            let count = nodes.len() as u64;
            order = end;
            end += count.saturating_sub(1);
            counts += 2 * count;
        }
        Ok(Ladder {
            tiers,
            empty,
            order,
            end,
        })
    }

    // What is said of a level.
    fn part(&self, kind: Kind, tier: &Tier<'a>) -> Part<'a>
        ensures { result ≡ part kind self.now.first tier.now }
    {
        let guard = Var::new(self.first);
        Part {
            tier: *tier,
            kind,
            guard,
        }
    }

    // Hands over what is said of levels, in their order.
    fn derive_levels<T: StepSink>(
        &self,
        alloc: Global,
        kind: Kind,
        tiers: &[Tier<'a>],
        sink: &mut T,
    ) -> SinkResult
        requires few { (T.state sink.old).next + ids_in_turn count_of ids_of (map (part kind self.now.first) tiers.now) < 2 ^ 62 }
        ensures hands { HandsFrom (λ next. in_turn count_of ids_of piece_of next (map (part kind self.now.first) tiers.now)) result (T.state sink.old) (T.state sink.new) }
        ensures next { IfOk result (λ _. (T.state sink.new).next ≡ (T.state sink.old).next + ids_in_turn count_of ids_of (map (part kind self.now.first) tiers.now)) }
    {
        for tier in tiers {
            let one = self.part(kind, tier);
            derive_pieces(alloc, &one, sink)?;
        }
        Ok(())
    }

    // Hands over the clauses of levels, from the last one of them to the first.
    fn derive_back<T: StepSink>(
        &self,
        alloc: Global,
        tiers: &[Tier<'a>],
        sink: &mut T,
    ) -> SinkResult
        requires few { (T.state sink.old).next + ids_in_turn count_of ids_of (reverse (map (part Clauses self.now.first) tiers.now)) < 2 ^ 62 }
        ensures hands { HandsFrom (λ next. in_turn count_of ids_of piece_of next (reverse (map (part Clauses self.now.first) tiers.now))) result (T.state sink.old) (T.state sink.new) }
        ensures next { IfOk result (λ _. (T.state sink.new).next ≡ (T.state sink.old).next + ids_in_turn count_of ids_of (reverse (map (part Clauses self.now.first) tiers.now))) }
    {
        for k in 0..tiers.len() {
            let tier = &tiers[tiers.len() - 1 - k];
            let one = self.part(Kind::Clauses, tier);
            derive_pieces(alloc, &one, sink)?;
        }
        Ok(())
    }

    // Hands over the levels' sums.
    fn derive_sums<T: StepSink>(
        &self,
        alloc: Global,
        ladder: &Ladder<'a>,
        sink: &mut T,
    ) -> SinkResult
        requires is { IsLadderOf self.now ladder.now }
        requires next { (T.state sink.old).next ≡ sums_of self.now }
        ensures hands { HandsSteps (sums_steps self.now.first self.now.base (orders_of self.now) (self.now.first + 1) (lower_terms self.now) (lower self.now) (sums_of self.now)) result (T.state sink.old) (T.state sink.new) }
        ensures next { IfOk result (λ _. (T.state sink.new).next ≡ held_of self.now + 1) }
    {
        let tiers = ladder.tiers.as_slice();
        let from = self.terms.len() - ladder.empty;
        let behind = &self.terms[from..];
        let guard = Var::new(self.first);
        hand_line(terms_line(alloc, guard, behind), sink)?;
        let above = &tiers[ladder.empty..];
        self.derive_levels(alloc, Kind::Climb, above, sink)
    }

    // Hands over all clauses, by the root's level.
    fn derive_clauses<T: StepSink>(
        &self,
        alloc: Global,
        ladder: &Ladder<'a>,
        root: &Tier<'a>,
        sink: &mut T,
    ) -> SinkResult
        requires is { IsLadderOf self.now ladder.now }
        requires root { rung_in root.now ≡ rung_at (terms_of self.now) self.now.levels.now 0 (self.now.first + 1) (held_of self.now + 1) ladder.now.order }
        requires next { (T.state sink.old).next ≡ held_of self.now + 3 }
        ensures { HandsFrom (λ next. claim_steps next (claims_in self.now)) result (T.state sink.old) (T.state sink.new) }
    {
        root.derive_clauses(alloc, sink)?;
        self.derive_back(alloc, ladder.tiers.as_slice(), sink)?;
        let before = root.counts - 1;
        root.derive_root(alloc, self.own, before, sink)
    }

    // Hands over the root's reification and all clauses, by the next level's sum.
    fn derive_root<T: StepSink>(
        &self,
        alloc: Global,
        ladder: &Ladder<'a>,
        sink: &mut T,
    ) -> SinkResult
        requires is { IsLadderOf self.now ladder.now }
        requires next { (T.state sink.old).next ≡ held_of self.now + 1 }
        ensures { HandsSteps (root_in self.now) result (T.state sink.old) (T.state sink.new) }
    {
        let next = sink.next_id();
        let before = next - 1;
        let after = self.first + 1;
        let root = self.tier(0, after, next, ladder.order);
        root.derive_node(alloc, 0, sink)?;
        self.derive_clauses(alloc, ladder, &root, sink)?;
        derive_deletions(alloc, before, 3, 1, sink)
    }

    // Hands over the sums and the clauses.
    fn derive_core<T: StepSink>(
        &self,
        alloc: Global,
        ladder: &Ladder<'a>,
        sink: &mut T,
    ) -> SinkResult
        requires is { IsLadderOf self.now ladder.now }
        requires next { (T.state sink.old).next ≡ sums_of self.now }
        ensures { HandsSteps (core_in self.now) result (T.state sink.old) (T.state sink.new) }
    {
        self.derive_sums(alloc, ladder, sink)?;
        self.derive_root(alloc, ladder, sink)
    }

    // Hands over the orders, the sums and the clauses.
    fn derive_ordered<T: StepSink>(
        &self,
        alloc: Global,
        ladder: &Ladder<'a>,
        sink: &mut T,
    ) -> SinkResult
        requires is { IsLadderOf self.now ladder.now }
        requires next { (T.state sink.old).next ≡ orders_of self.now }
        ensures { HandsSteps (ordered_in self.now) result (T.state sink.old) (T.state sink.new) }
    {
        self.derive_levels(alloc, Kind::Order, ladder.tiers.as_slice(), sink)?;
        self.derive_core(alloc, ladder, sink)?;
        let orders = self.orders();
        let count = ladder.end - orders;
        derive_deletions(alloc, orders, 1, count, sink)
    }

    /// Hands over all of it.
    pub fn derive<T: StepSink>(&self, alloc: Global, sink: &mut T) -> SinkResult
        requires { self.now.base ≡ (T.state sink.old).next }
        ensures { HandsSteps (guarded_by (terms_of self.now) self.now.levels.now self.now.first self.now.own (T.state sink.old).next) result (T.state sink.old) (T.state sink.new) }
    {
        let ladder = self.ladder(alloc)?;
        self.derive_levels(alloc, Kind::Nodes, ladder.tiers.as_slice(), sink)?;
        self.derive_ordered(alloc, &ladder, sink)?;
        let below = self.fresh - 1;
        derive_deletions(alloc, self.base, 2, below, sink)
    }
}
