//! The operations of the lines of a level.
ghost use Rattle.std.specs.Prelude.{◌≡◌, ◌≤◌, ◌<◌, ◌+◌, ◌^◌, ◌++◌, [], ◌∷◌, OnOk, pos};
ghost use Rattle.pb_steps.specs.declared.op.PolOp.TheVariants.{Axiom, Div, Mul};
ghost use Rattle.pb_diagram.specs.Guards.{and_literal, path, plus_path, plus_times};
ghost use Rattle.pb_diagram.specs.inner.Tiers.{times_end};

use crate::side::{Reach, Side, reach_at};
use crate::tier::{Tier, last_top};
use pb_base::Lit;
use pb_steps::PolOp;
use std::alloc::AllocError;

/// Multiplies by a number.
pub fn times(count: u128) -> PolOp
    requires fits { count < 2 ^ 127 }
    ensures { result ≡ Mul (pos count) }
{
    PolOp::Mul(count as i128)
}

/// Divides by a number.
fn over(count: u128) -> PolOp
    requires fits { count < 2 ^ 127 }
    ensures { result ≡ Div (pos count) }
{
    PolOp::Div(count as i128)
}

/// More operations.
pub fn push_ops(ops: &mut Vec<PolOp>, more: &[PolOp]) -> Result<(), AllocError>
    ensures { OnOk result (ops.new.items ≡ ops.old.items ++ more.now) }
{
    ops.extend_from_slice(more)
}

/// Adds what other operations leave so many times.
fn push_times(ops: &mut Vec<PolOp>, count: u128) -> Result<(), AllocError>
    requires fits { count < 2 ^ 127 }
    ensures { OnOk result (ops.new.items ≡ ops.old.items ++ times_end count) }
{
    if count <= 1 {
        return push_ops(ops, &[PolOp::Add]);
    }
    push_ops(ops, &[times(count), PolOp::Add])
}

/// Adds a literal.
fn push_literal(ops: &mut Vec<PolOp>, lit: Lit) -> Result<(), AllocError>
    ensures { OnOk result (ops.new.items ≡ ops.old.items ++ and_literal lit) }
{
    push_ops(ops, &[PolOp::Axiom(lit), PolOp::Add])
}

/// Adds a literal so many times, if at all.
pub fn push_literals(ops: &mut Vec<PolOp>, count: u128, lit: Lit) -> Result<(), AllocError>
    requires fits { count < 2 ^ 127 }
    ensures { OnOk result (ops.new.items ≡ ops.old.items ++ plus_times count (Axiom lit ∷ [])) }
{
    if count == 0 {
        return Ok(());
    }
    push_ops(ops, &[PolOp::Axiom(lit)])?;
    push_times(ops, count)
}

/// From a place of the next level to a later one, by its order.
fn push_path(ops: &mut Vec<PolOp>, order: u64, from: u64, to: u64) -> Result<(), AllocError>
    requires some { from < to }
    requires fits { order + to < 2 ^ 63 }
    ensures { OnOk result (ops.new.items ≡ ops.old.items ++ path order from to) }
{
    push_ops(ops, &[PolOp::Push(order + from)])?;
    for place in from + 1..to {
        push_ops(ops, &[PolOp::Push(order + place), PolOp::Add])?;
    }
    Ok(())
}

/// Adds it so many times, if it is of some steps.
fn push_paths(
    ops: &mut Vec<PolOp>,
    count: u128,
    order: u64,
    from: u64,
    to: u64,
) -> Result<(), AllocError>
    requires some { 1 ≤ count }
    requires many { count < 2 ^ 127 }
    requires fits { order + to < 2 ^ 63 }
    ensures { OnOk result (ops.new.items ≡ ops.old.items ++ plus_path count order from to) }
{
    if to <= from {
        return Ok(());
    }
    push_path(ops, order, from, to)?;
    push_times(ops, count)
}

impl Tier<'_> {
    ghost use Rattle.std.specs.Prelude.{◌≡◌, ◌≤◌, ◌<◌, ◌+◌, ◌-◌, ◌*◌, ◌^◌, ◌++◌, [], ◌∷◌, OnOk, length, max, min};
    ghost use Rattle.pb_steps.specs.declared.op.PolOp.TheVariants.{Axiom};
    ghost use Rattle.pb_family.specs.Fresh.{positive_of};
    ghost use Rattle.pb_diagram.specs.Guards.{between, guard_width, if_false_ops, if_true_ops, off_ops, off_path, off_sums, on_ops, on_path, on_sums, order_ops, own_of, place_ops, place_sums, plus_times, reach_by, spare_on};
    ghost use Rattle.pb_diagram.specs.inner.Tiers.{child_on, node_at, rung_in, split_ops};
    ghost use Rattle.pb_diagram.specs.laws.GuardSplit.{IsIn};
    ghost use Rattle.pb_diagram.specs.laws.LevelShape.{IsLevel};

    // From the false child of a node to that of the next node.
    fn push_off_path(
        &self,
        ops: &mut Vec<PolOp>,
        one: Option<u64>,
        other: Option<u64>,
    ) -> Result<(), AllocError>
        requires one { IsIn (length self.now.next.now) one }
        requires other { IsIn (length self.now.next.now) other }
        ensures { OnOk result (ops.new.items ≡ ops.old.items ++ off_path self.now.order self.now.after one other) }
    {
        match one {
            None => Ok(()),
            Some(from) => match other {
                None => push_literals(ops, 2, self.child(from).not()),
                Some(to) => push_paths(ops, 2, self.order, from, to),
            },
        }
    }

    // From the true child of a node to that of the next node.
    fn push_on_path(
        &self,
        ops: &mut Vec<PolOp>,
        one: Option<u64>,
        other: Option<u64>,
    ) -> Result<(), AllocError>
        requires one { IsIn (length self.now.next.now) one }
        requires other { IsIn (length self.now.next.now) other }
        ensures { OnOk result (ops.new.items ≡ ops.old.items ++ on_path self.now.order self.now.after one other) }
    {
        match other {
            None => Ok(()),
            Some(to) => match one {
                None => push_literal(ops, self.child(to)),
                Some(from) => push_paths(ops, 1, self.order, from, to),
            },
        }
    }

    /// That the node behind a place is true where the node at it is.
    pub fn push_order(&self, ops: &mut Vec<PolOp>, place: usize) -> Result<(), AllocError>
        requires level { IsLevel self.now.coef self.now.nodes.now self.now.next.now }
        requires within { place + 1 < length self.now.nodes.now }
        ensures { OnOk result (ops.new.items ≡ ops.old.items ++ order_ops self.now.order self.now.after (self.now.counts + 2 * place) (self.now.counts + 2 * place + 3) (node_at self.now.nodes.now place) (node_at self.now.nodes.now (place + 1))) }
    {
        let one = self.nodes[place];
        let other = self.nodes[place + 1];
        let start = [
            PolOp::Push(self.forward(place)),
            PolOp::Push(self.reverse(place + 1)),
            PolOp::Add,
        ];
        push_ops(ops, &start)?;
        self.push_off_path(ops, one.off, other.off)?;
        self.push_on_path(ops, one.on, other.on)?;
        push_ops(ops, &[PolOp::Div(3)])
    }

    // That the other child is true, where it is another one.
    fn push_spare(
        &self,
        ops: &mut Vec<PolOp>,
        off: Option<u64>,
        on: Option<u64>,
    ) -> Result<(), AllocError>
        requires { IsIn (length self.now.next.now) on }
        ensures { OnOk result (ops.new.items ≡ ops.old.items ++ spare_on self.now.after off on) }
    {
        match on {
            None => Ok(()),
            Some(child) => {
                if off == Some(child) {
                    return Ok(());
                }
                push_literal(ops, self.child(child))
            }
        }
    }

    // Where the literal is false: if a node's false child is true, so is the node.
    fn push_off_node(&self, ops: &mut Vec<PolOp>, place: usize) -> Result<(), AllocError>
        requires level { IsLevel self.now.coef self.now.nodes.now self.now.next.now }
        requires within { place < length self.now.nodes.now }
        ensures { OnOk result (ops.new.items ≡ ops.old.items ++ off_ops self.now.after (self.now.counts + 2 * place + 1) (node_at self.now.nodes.now place)) }
    {
        let node = self.nodes[place];
        push_ops(ops, &[PolOp::Push(self.reverse(place))])?;
        self.push_spare(ops, node.off, node.on)?;
        push_ops(ops, &[PolOp::Div(3)])
    }

    // From the true child to the false one.
    fn push_between(
        &self,
        ops: &mut Vec<PolOp>,
        off: Option<u64>,
        on: Option<u64>,
    ) -> Result<(), AllocError>
        requires { IsIn (length self.now.next.now) off }
        ensures { OnOk result (ops.new.items ≡ ops.old.items ++ between self.now.order off on) }
    {
        match off {
            None => Ok(()),
            Some(to) => match on {
                None => Ok(()),
                Some(from) => push_paths(ops, 2, self.order, from, to),
            },
        }
    }

    // Where it is true: if a node's true child is true, so is the node, since the false child is then.
    fn push_on_node(&self, ops: &mut Vec<PolOp>, place: usize) -> Result<(), AllocError>
        requires level { IsLevel self.now.coef self.now.nodes.now self.now.next.now }
        requires within { place < length self.now.nodes.now }
        ensures { OnOk result (ops.new.items ≡ ops.old.items ++ on_ops self.now.lit.now self.now.order (self.now.counts + 2 * place + 1) (node_at self.now.nodes.now place)) }
    {
        let node = self.nodes[place];
        push_ops(ops, &[PolOp::Push(self.reverse(place))])?;
        self.push_between(ops, node.off, node.on)?;
        push_literal(ops, self.lit.not())?;
        push_ops(ops, &[PolOp::Div(3)])
    }

    // A node so many times, where the literal is false.
    fn push_off_part(
        &self,
        ops: &mut Vec<PolOp>,
        place: usize,
        count: u128,
    ) -> Result<(), AllocError>
        requires level { IsLevel self.now.coef self.now.nodes.now self.now.next.now }
        requires within { place < length self.now.nodes.now }
        requires fits { count < 2 ^ 127 }
        ensures { OnOk result (ops.new.items ≡ ops.old.items ++ plus_times count (off_ops self.now.after (self.now.counts + 2 * place + 1) (node_at self.now.nodes.now place))) }
    {
        if count == 0 {
            return Ok(());
        }
        self.push_off_node(ops, place)?;
        push_times(ops, count)
    }

    // And where it is true.
    fn push_on_part(
        &self,
        ops: &mut Vec<PolOp>,
        place: usize,
        count: u128,
    ) -> Result<(), AllocError>
        requires level { IsLevel self.now.coef self.now.nodes.now self.now.next.now }
        requires within { place < length self.now.nodes.now }
        requires fits { count < 2 ^ 127 }
        ensures { OnOk result (ops.new.items ≡ ops.old.items ++ plus_times count (on_ops self.now.lit.now self.now.order (self.now.counts + 2 * place + 1) (node_at self.now.nodes.now place))) }
    {
        if count == 0 {
            return Ok(());
        }
        self.push_on_node(ops, place)?;
        push_times(ops, count)
    }

    // The nodes where the literal is false.
    fn push_off_sums(&self, ops: &mut Vec<PolOp>) -> Result<(), AllocError>
        requires level { IsLevel self.now.coef self.now.nodes.now self.now.next.now }
        ensures { OnOk result (ops.new.items ≡ ops.old.items ++ off_sums self.now.after self.now.counts 0 self.now.nodes.now) }
    {
        let mut low = 0;
        for place in 0..self.nodes.len() {
            let top = self.nodes[place].top;
            self.push_off_part(ops, place, top.saturating_sub(low))?;
            low = top;
        }
        Ok(())
    }

    // A node that reaches from one number to another, where the literal is true, which alone reaches `own`.
    fn push_on_step(
        &self,
        ops: &mut Vec<PolOp>,
        own: u128,
        place: usize,
        low: u128,
        top: u128,
    ) -> Result<(), AllocError>
        requires level { IsLevel self.now.coef self.now.nodes.now self.now.next.now }
        requires within { place < length self.now.nodes.now }
        requires fits { top < 2 ^ 127 }
        ensures { OnOk result (ops.new.items ≡ ops.old.items ++ (plus_times (min top own - low) (Axiom (positive_of (self.now.var + place)) ∷ []) ++ plus_times (top - max own low) (on_ops self.now.lit.now self.now.order (self.now.counts + 2 * place + 1) (node_at self.now.nodes.now place)))) }
    {
        push_literals(ops, top.min(own).saturating_sub(low), self.node(place))?;
        self.push_on_part(ops, place, top.saturating_sub(own.max(low)))
    }

    // And where it is true, which alone reaches a number.
    fn push_on_sums(&self, ops: &mut Vec<PolOp>, own: u128) -> Result<(), AllocError>
        requires level { IsLevel self.now.coef self.now.nodes.now self.now.next.now }
        ensures { OnOk result (ops.new.items ≡ ops.old.items ++ on_sums self.now.lit.now self.now.order own self.now.var self.now.counts 0 self.now.nodes.now) }
    {
        let mut low = 0;
        for place in 0..self.nodes.len() {
            let top = self.nodes[place].top;
            self.push_on_step(ops, own, place, low, top)?;
            low = top;
        }
        Ok(())
    }

    // The order at a place of the next level, and at its last one that the node may be false.
    fn push_place(&self, ops: &mut Vec<PolOp>, place: usize) -> Result<(), AllocError>
        requires within { place < length self.now.next.now }
        ensures { OnOk result (ops.new.items ≡ ops.old.items ++ place_ops self.now.order self.now.after (length self.now.next.now - 1) place) }
    {
        if place == self.next.len() - 1 {
            return push_ops(ops, &[PolOp::Axiom(self.child(place as u64).not())]);
        }
        push_ops(ops, &[PolOp::Push(self.order + place as u64)])
    }

    // The same so many times.
    fn push_place_part(
        &self,
        ops: &mut Vec<PolOp>,
        place: usize,
        count: u128,
    ) -> Result<(), AllocError>
        requires within { place < length self.now.next.now }
        requires fits { count < 2 ^ 127 }
        ensures { OnOk result (ops.new.items ≡ ops.old.items ++ plus_times count (place_ops self.now.order self.now.after (length self.now.next.now - 1) place)) }
    {
        if count == 0 {
            return Ok(());
        }
        self.push_place(ops, place)?;
        push_times(ops, count)
    }

    // What the places of the next level are above the nodes whose child, of the two, is at most at them, less a number.
    fn push_places(&self, ops: &mut Vec<PolOp>, side: Side, less: u128) -> Result<(), AllocError>
        requires level { IsLevel self.now.coef self.now.nodes.now self.now.next.now }
        ensures { OnOk result (ops.new.items ≡ ops.old.items ++ place_sums (λ j. reach_by (child_on side) self.now.nodes.now j - less) self.now.order self.now.after (length self.now.next.now - 1) 0 self.now.next.now) }
    {
        let mut reach = Reach { seen: 0, top: 0 };
        for place in 0..self.next.len() {
            reach = reach_at(side, self.nodes, reach, place as u64);
            let above = self.next[place]
                .top
                .saturating_sub(reach.top.saturating_sub(less));
            self.push_place_part(ops, place, above)?;
        }
        Ok(())
    }

    // Where the goal does not hold, the literal is true.
    fn push_if_false(
        &self,
        ops: &mut Vec<PolOp>,
        goal: &[PolOp],
        widest: u128,
    ) -> Result<(), AllocError>
        requires level { IsLevel self.now.coef self.now.nodes.now self.now.next.now }
        requires fits { widest < 2 ^ 126 }
        ensures { OnOk result (ops.new.items ≡ ops.old.items ++ if_false_ops (rung_in self.now) goal.now widest) }
    {
        push_ops(ops, goal)?;
        self.push_off_sums(ops)?;
        self.push_places(ops, Side::Off, 0)?;
        push_literal(ops, *self.lit)?;
        push_ops(ops, &[over(widest)])
    }

    // And it is false.
    fn push_if_true(
        &self,
        ops: &mut Vec<PolOp>,
        goal: &[PolOp],
        widest: u128,
    ) -> Result<(), AllocError>
        requires level { IsLevel self.now.coef self.now.nodes.now self.now.next.now }
        requires fits { widest < 2 ^ 126 }
        ensures { OnOk result (ops.new.items ≡ ops.old.items ++ if_true_ops (rung_in self.now) goal.now widest) }
    {
        let own = self.own();
        push_ops(ops, goal)?;
        self.push_on_sums(ops, own)?;
        self.push_places(ops, Side::On, own)?;
        push_ops(ops, &[over(widest)])
    }

    /// That the goal holds.
    pub fn push_split(
        &self,
        ops: &mut Vec<PolOp>,
        goal: &[PolOp],
        widest: u128,
    ) -> Result<(), AllocError>
        requires level { IsLevel self.now.coef self.now.nodes.now self.now.next.now }
        requires fits { widest < 2 ^ 126 }
        ensures { OnOk result (ops.new.items ≡ ops.old.items ++ split_ops (rung_in self.now) goal.now widest) }
    {
        self.push_if_false(ops, goal, widest)?;
        self.push_if_true(ops, goal, widest)?;
        push_ops(ops, &[PolOp::Add, PolOp::Div(2)])
    }

    /// What the literal weighs more than the nodes ask.
    pub fn push_more(&self, ops: &mut Vec<PolOp>) -> Result<(), AllocError>
        ensures { OnOk result (ops.new.items ≡ ops.old.items ++ plus_times (self.now.coef - own_of (rung_in self.now)) (Axiom self.now.lit.now ∷ [])) }
    {
        push_literals(ops, self.coef - self.own(), *self.lit)
    }

    /// Above each coefficient of what is left of the guard's second constraint.
    pub fn guard_width(&self) -> u128
        ensures { result ≡ guard_width (rung_in self.now) }
    {
        self.own() + last_top(self.next) + last_top(self.nodes) + 1
    }
}
