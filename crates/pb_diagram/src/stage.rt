//! The steps of a level, by the next one.
ghost use Rattle.std.specs.Prelude.{◌≡◌, ◌≤◌, ◌<◌, ◌+◌, ◌^◌, ◌++◌, [], ◌∷◌, List, OnOk, IfOk, length};
ghost use Rattle.pb_norm.specs.Constraints.{weights};
ghost use Rattle.pb_steps.specs.declared.op.PolOp.{PolOp};
ghost use Rattle.pb_steps.specs.declared.step.Step.TheVariants.{Out, Pol};
ghost use Rattle.pb_family.specs.StepSinks.{HandsSteps};
ghost use Rattle.pb_diagram.specs.Guards.{last_top, rises};
ghost use Rattle.pb_diagram.specs.inner.Parts.{signed};
ghost use Rattle.pb_diagram.specs.laws.StepSums.{AreUp};

use crate::lines::{push_ops, times};
use crate::node::Node;
use crate::tier::{Tier, last_top};
use pb_base::{Lit, Term, Var};
use pb_family::{
    SinkResult, StepSink, derive_deletion, derive_reification, derive_steps, fresh_at,
};
use pb_steps::{PolOp, PolOps, Step};
use std::alloc::{AllocError, Global};

/// Hands over the line of some operations, if memory sufficed for them.
pub fn hand_line<T: StepSink>(made: Result<Vec<PolOp>, AllocError>, sink: &mut T) -> SinkResult
    requires few { (T.state sink.old).next < 2 ^ 62 }
    ensures { (shown : List PolOp) → IfOk made (λ ops. ops.items ≡ shown) → HandsSteps (Pol shown ∷ []) result (T.state sink.old) (T.state sink.new) }
{
    let ops = made?;
    sink.step(&Step::Pol(PolOps::from_vec(ops)))
}

/// The same, and puts out what the line adds.
pub fn hand_clause<T: StepSink>(made: Result<Vec<PolOp>, AllocError>, sink: &mut T) -> SinkResult
    requires few { (T.state sink.old).next + 1 < 2 ^ 62 }
    ensures { (shown : List PolOp) → IfOk made (λ ops. ops.items ≡ shown) → HandsSteps (Pol shown ∷ Out (T.state sink.old).next ∷ []) result (T.state sink.old) (T.state sink.new) }
{
    let ops = made?;
    let id = sink.next_id();
    derive_steps(&Step::Pol(PolOps::from_vec(ops)), &Step::Out { id }, sink)
}

/// Adds what each node adds to those before it.
fn push_rises(
    terms: &mut Vec<Term>,
    nodes: &[Node],
    first: u32,
    positive: bool,
) -> Result<(), AllocError>
    requires low { 1 ≤ first }
    requires high { first + length nodes.now ≤ 2 ^ 31 }
    requires up { AreUp 0 nodes.now }
    requires ends { last_top nodes.now ≤ 2 ^ 100 }
    ensures { OnOk result (weights terms.new.items ≡ weights terms.old.items ++ rises (signed positive) first 0 nodes.now) }
{
    let mut low = 0;
    for place in 0..nodes.len() {
        let top = nodes[place].top;
        let var = fresh_at(first, place).var;
        let weight = top.saturating_sub(low);
        terms.push(Term::weighing(weight, Lit { var, positive }))?;
        low = top;
    }
    Ok(())
}

impl Tier<'_> {
    ghost use Rattle.std.specs.Prelude.{◌≡◌, ◌≤◌, ◌<◌, ◌+◌, ◌*◌, ◌^◌, ◌++◌, [], ◌∷◌, pos, length, Some, IfOk, OnOk};
    ghost use Rattle.pb_norm.specs.Constraints.{weights};
    ghost use Rattle.pb_steps.specs.declared.op.PolOp.TheVariants.{Div, Push, Weaken};
    ghost use Rattle.pb_steps.specs.declared.step.Step.TheVariants.{Out, Pol};
    ghost use Rattle.pb_derive.specs.Claims.{claim_steps};
    ghost use Rattle.pb_derive.specs.Reifications.{reification_steps};
    ghost use Rattle.pb_family.specs.Derivations.{meant};
    ghost use Rattle.pb_family.specs.StepSinks.{HandsFrom, HandsSteps};
    ghost use Rattle.pb_diagram.specs.Guards.{child_least, child_reification, child_terms, guard_width, order_ops};
    ghost use Rattle.pb_diagram.specs.GuardedSteps.{level_claims, root_goal, spared_off, spared_on};
    ghost use Rattle.pb_diagram.specs.inner.Parts.{climb_ops, climb_piece, guard_of, off_ids, off_steps, on_steps, root_width};
    ghost use Rattle.pb_diagram.specs.inner.Tiers.{node_at, rung_in, split_ops};
    ghost use Rattle.pb_diagram.specs.laws.GuardSplit.{IsIn};

    // Hands over what a variable over two children means.
    fn derive_over<T: StepSink>(
        &self,
        alloc: Global,
        var: Var,
        off: Option<u64>,
        on: Option<u64>,
        sink: &mut T,
    ) -> SinkResult
        requires off { IsIn (length self.now.next.now) off }
        requires on { IsIn (length self.now.next.now) on }
        requires few { (T.state sink.old).next + 1 < 2 ^ 62 }
        ensures { HandsFrom (λ next. meant next var (child_terms self.now.lit.now self.now.after off on) (child_least off)) result (T.state sink.old) (T.state sink.new) }
    {
        let own = Term {
            coef: 1,
            lit: self.lit.not(),
        };
        match off {
            None => match on {
                None => derive_reification(alloc, var, &[own], 1, sink),
                Some(true_child) => {
                    let one = Term {
                        coef: 1,
                        lit: self.child(true_child),
                    };
                    derive_reification(alloc, var, &[own, one], 1, sink)
                }
            },
            Some(false_child) => self.derive_inner(alloc, var, false_child, on, sink),
        }
    }

    // The same of one with a false child.
    fn derive_inner<T: StepSink>(
        &self,
        alloc: Global,
        var: Var,
        off: u64,
        on: Option<u64>,
        sink: &mut T,
    ) -> SinkResult
        requires off { off < length self.now.next.now }
        requires on { IsIn (length self.now.next.now) on }
        requires few { (T.state sink.old).next + 1 < 2 ^ 62 }
        ensures { HandsFrom (λ next. meant next var (child_terms self.now.lit.now self.now.after (Some off) on) 3) result (T.state sink.old) (T.state sink.new) }
    {
        let own = Term {
            coef: 1,
            lit: self.lit.not(),
        };
        let two = Term {
            coef: 2,
            lit: self.child(off),
        };
        match on {
            None => derive_reification(alloc, var, &[two, own], 3, sink),
            Some(true_child) => {
                if off == true_child {
                    let three = Term {
                        coef: 3,
                        lit: self.child(off),
                    };
                    return derive_reification(alloc, var, &[three, own], 3, sink);
                }
                let one = Term {
                    coef: 1,
                    lit: self.child(true_child),
                };
                derive_reification(alloc, var, &[two, own, one], 3, sink)
            }
        }
    }

    /// Hands over what a node means.
    pub fn derive_node<T: StepSink>(&self, alloc: Global, place: usize, sink: &mut T) -> SinkResult
        requires within { place < length self.now.nodes.now }
        requires few { (T.state sink.old).next + 1 < 2 ^ 62 }
        ensures { HandsFrom (λ next. reification_steps next (child_reification self.now.lit.now self.now.after (self.now.var + place) (node_at self.now.nodes.now place) ∷ [])) result (T.state sink.old) (T.state sink.new) }
    {
        let node = self.nodes[place];
        let var = self.node(place).var;
        self.derive_over(alloc, var, node.off, node.on, sink)
    }

    // The operations of the order at a place.
    fn order_at(&self, alloc: Global, place: usize) -> Result<Vec<PolOp>, AllocError>
        requires within { place + 1 < length self.now.nodes.now }
        ensures { IfOk result (λ ops. ops.items ≡ order_ops self.now.order self.now.after (self.now.counts + 2 * place) (self.now.counts + 2 * place + 3) (node_at self.now.nodes.now place) (node_at self.now.nodes.now (place + 1))) }
    {
        let mut ops = Vec::new(alloc);
        self.push_order(&mut ops, place)?;
        Ok(ops)
    }

    /// Hands over that the node behind a place is true where the one at it is.
    pub fn derive_order<T: StepSink>(&self, alloc: Global, place: usize, sink: &mut T) -> SinkResult
        requires within { place + 1 < length self.now.nodes.now }
        requires few { (T.state sink.old).next < 2 ^ 62 }
        ensures { HandsSteps (Pol (order_ops self.now.order self.now.after (self.now.counts + 2 * place) (self.now.counts + 2 * place + 3) (node_at self.now.nodes.now place) (node_at self.now.nodes.now (place + 1))) ∷ []) result (T.state sink.old) (T.state sink.new) }
    {
        hand_line(self.order_at(alloc, place), sink)
    }

    // Adds the terms of the guard: the literal and the next level's false nodes, and this level's true ones.
    fn push_guard(&self, terms: &mut Vec<Term>) -> Result<(), AllocError>
        ensures { OnOk result (weights terms.new.items ≡ weights terms.old.items ++ (guard_of 0 (rung_in self.now)).sum) }
    {
        terms.push(Term::weighing(self.own(), *self.lit))?;
        push_rises(terms, self.next, self.after, false)?;
        push_rises(terms, self.nodes, self.var, true)
    }

    // Hands over what the guard means.
    fn derive_guard<T: StepSink>(&self, alloc: Global, guard: Var, sink: &mut T) -> SinkResult
        requires few { (T.state sink.old).next + 1 < 2 ^ 62 }
        ensures { HandsFrom (λ next. reification_steps next (guard_of guard (rung_in self.now) ∷ [])) result (T.state sink.old) (T.state sink.new) }
    {
        let mut terms = Vec::new(alloc);
        self.push_guard(&mut terms)?;
        let least = last_top(self.nodes);
        derive_reification(alloc, guard, terms.as_slice(), least, sink)
    }

    // The operations by which the guard is true, by the id of its second constraint.
    fn guarded(&self, alloc: Global, reverse: u64) -> Result<Vec<PolOp>, AllocError>
        ensures { IfOk result (λ ops. ops.items ≡ split_ops (rung_in self.now) (Push reverse ∷ []) (guard_width (rung_in self.now))) }
    {
        let mut ops = Vec::new(alloc);
        self.push_split(&mut ops, &[PolOp::Push(reverse)], self.guard_width())?;
        Ok(ops)
    }

    // The operations of the level's sum, by the guard's first constraint, that it is true, and the next level's sum.
    fn climbed(
        &self,
        alloc: Global,
        forward: u64,
        guarded: u64,
        before: u64,
    ) -> Result<Vec<PolOp>, AllocError>
        ensures { IfOk result (λ ops. ops.items ≡ climb_ops (rung_in self.now) forward guarded before) }
    {
        let factor = times(last_top(self.nodes));
        let start = [
            PolOp::Push(forward),
            PolOp::Push(guarded),
            factor,
            PolOp::Add,
        ];
        let mut ops = Vec::new(alloc);
        push_ops(&mut ops, &start)?;
        self.push_more(&mut ops)?;
        push_ops(&mut ops, &[PolOp::Push(before), PolOp::Add])?;
        Ok(ops)
    }

    /// Hands over the level's sum, by a guard and the next level's sum, which has the last id; that and the guard go.
    pub fn derive_climb<T: StepSink>(&self, alloc: Global, guard: Var, sink: &mut T) -> SinkResult
        requires few { (T.state sink.old).next + 4 < 2 ^ 62 }
        ensures { HandsFrom (climb_piece guard (rung_in self.now)) result (T.state sink.old) (T.state sink.new) }
    {
        let next = sink.next_id();
        let before = next.saturating_sub(1);
        self.derive_guard(alloc, guard, sink)?;
        hand_line(self.guarded(alloc, next + 1), sink)?;
        hand_line(self.climbed(alloc, next, next + 2, before), sink)?;
        derive_deletion(alloc, before, 4, sink)
    }

    // Weakens a true child away that is another than the false one.
    fn push_spared_on(
        &self,
        ops: &mut Vec<PolOp>,
        off: u64,
        on: Option<u64>,
    ) -> Result<(), AllocError>
        requires { IsIn (length self.now.next.now) on }
        ensures { OnOk result (ops.new.items ≡ ops.old.items ++ spared_on self.now.after (Some off) on) }
    {
        match on {
            None => Ok(()),
            Some(child) => {
                if off == child {
                    return Ok(());
                }
                push_ops(ops, &[PolOp::Weaken(self.child(child).var)])
            }
        }
    }

    // Weakens a false child away that is another than the true one.
    fn push_spared_off(
        &self,
        ops: &mut Vec<PolOp>,
        off: Option<u64>,
        on: Option<u64>,
    ) -> Result<(), AllocError>
        requires { IsIn (length self.now.next.now) off }
        ensures { OnOk result (ops.new.items ≡ ops.old.items ++ spared_off self.now.after off on) }
    {
        match off {
            None => Ok(()),
            Some(child) => {
                if Some(child) == on {
                    return Ok(());
                }
                push_ops(ops, &[PolOp::Weaken(self.child(child).var)])
            }
        }
    }

    // The operations by which a node's false child is true with it, by the id of its first constraint.
    fn off_clause(
        &self,
        alloc: Global,
        forward: u64,
        off: u64,
        on: Option<u64>,
    ) -> Result<Vec<PolOp>, AllocError>
        requires { IsIn (length self.now.next.now) on }
        ensures { IfOk result (λ ops. ops.items ≡ Push forward ∷ Weaken self.now.lit.now.var ∷ spared_on self.now.after (Some off) on ++ Div (pos 3) ∷ []) }
    {
        let mut ops = Vec::new(alloc);
        push_ops(
            &mut ops,
            &[PolOp::Push(forward), PolOp::Weaken(self.lit.var)],
        )?;
        self.push_spared_on(&mut ops, off, on)?;
        push_ops(&mut ops, &[PolOp::Div(3)])?;
        Ok(ops)
    }

    // And those by which its true child is true with it and the literal, or these are not both true.
    fn on_clause(
        &self,
        alloc: Global,
        forward: u64,
        off: Option<u64>,
        on: Option<u64>,
    ) -> Result<Vec<PolOp>, AllocError>
        requires { IsIn (length self.now.next.now) off }
        ensures { IfOk result (λ ops. ops.items ≡ Push forward ∷ spared_off self.now.after off on ++ Div (pos 3) ∷ []) }
    {
        let mut ops = Vec::new(alloc);
        push_ops(&mut ops, &[PolOp::Push(forward)])?;
        self.push_spared_off(&mut ops, off, on)?;
        push_ops(&mut ops, &[PolOp::Div(3)])?;
        Ok(ops)
    }

    // Hands over that a node's false child is true with it, if there is one, by the id of its first constraint.
    fn derive_off<T: StepSink>(
        &self,
        alloc: Global,
        forward: u64,
        off: Option<u64>,
        on: Option<u64>,
        sink: &mut T,
    ) -> SinkResult
        requires on { IsIn (length self.now.next.now) on }
        requires few { (T.state sink.old).next + off_ids off < 2 ^ 62 }
        ensures { HandsFrom (off_steps self.now.lit.now self.now.after forward off on) result (T.state sink.old) (T.state sink.new) }
    {
        match off {
            None => Ok(()),
            Some(child) => hand_clause(self.off_clause(alloc, forward, child, on), sink),
        }
    }

    // Hands over the first clause of the node at a place, if there is one.
    fn derive_off_at<T: StepSink>(&self, alloc: Global, place: usize, sink: &mut T) -> SinkResult
        requires within { place < length self.now.nodes.now }
        requires few { (T.state sink.old).next + off_ids (node_at self.now.nodes.now place).off < 2 ^ 62 }
        ensures { HandsFrom (off_steps self.now.lit.now self.now.after (self.now.counts + 2 * place) (node_at self.now.nodes.now place).off (node_at self.now.nodes.now place).on) result (T.state sink.old) (T.state sink.new) }
    {
        let node = self.nodes[place];
        self.derive_off(alloc, self.forward(place), node.off, node.on, sink)
    }

    // Hands over the other one.
    fn derive_on_at<T: StepSink>(&self, alloc: Global, place: usize, sink: &mut T) -> SinkResult
        requires within { place < length self.now.nodes.now }
        requires few { (T.state sink.old).next + 1 < 2 ^ 62 }
        ensures { HandsFrom (on_steps self.now.after (self.now.counts + 2 * place) (node_at self.now.nodes.now place).off (node_at self.now.nodes.now place).on) result (T.state sink.old) (T.state sink.new) }
    {
        let node = self.nodes[place];
        hand_clause(
            self.on_clause(alloc, self.forward(place), node.off, node.on),
            sink,
        )
    }

    /// Hands over the clauses of the level.
    pub fn derive_clauses<T: StepSink>(&self, alloc: Global, sink: &mut T) -> SinkResult
        requires few { (T.state sink.old).next + length (level_claims self.now.lit.now self.now.after self.now.var self.now.counts self.now.nodes.now) < 2 ^ 62 }
        ensures { HandsFrom (λ next. claim_steps next (level_claims self.now.lit.now self.now.after self.now.var self.now.counts self.now.nodes.now)) result (T.state sink.old) (T.state sink.new) }
    {
        for place in 0..self.nodes.len() {
            self.derive_off_at(alloc, place, sink)?;
            self.derive_on_at(alloc, place, sink)?;
        }
        Ok(())
    }

    // The operations by which the root is true, by the sum's constraint and the next level's sum.
    fn rooted(&self, alloc: Global, own: u64, before: u64) -> Result<Vec<PolOp>, AllocError>
        ensures { IfOk result (λ ops. ops.items ≡ split_ops (rung_in self.now) (root_goal (rung_in self.now) own before) (root_width (rung_in self.now))) }
    {
        let mut goal = Vec::new(alloc);
        push_ops(
            &mut goal,
            &[PolOp::Push(own), PolOp::Push(before), PolOp::Add],
        )?;
        self.push_more(&mut goal)?;
        let below = last_top(self.next);
        let end = last_top(self.nodes);
        let widest = self.coef + below + end + 1;
        let mut ops = Vec::new(alloc);
        self.push_split(&mut ops, goal.as_slice(), widest)?;
        Ok(ops)
    }

    /// Hands over that the root is true, and puts it out.
    pub fn derive_root<T: StepSink>(
        &self,
        alloc: Global,
        own: u64,
        before: u64,
        sink: &mut T,
    ) -> SinkResult
        requires few { (T.state sink.old).next + 1 < 2 ^ 62 }
        ensures { HandsSteps (Pol (split_ops (rung_in self.now) (root_goal (rung_in self.now) own before) (root_width (rung_in self.now))) ∷ Out (T.state sink.old).next ∷ []) result (T.state sink.old) (T.state sink.new) }
    {
        hand_clause(self.rooted(alloc, own, before), sink)
    }
}
