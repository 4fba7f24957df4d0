//! The steps along the tree of a totalizer, phase by phase.
ghost use Rattle.std.specs.Prelude.{◌≡◌, ◌≤◌, ◌<◌, ◌+◌, ◌*◌, ◌^◌, length, min, suc, IfOk};
ghost use Rattle.pb_norm.specs.Constraints.{weights};
ghost use Rattle.pb_family.specs.StepSinks.{HandsFrom};
ghost use Rattle.pb_tree.specs.Tree.{tree_of};
ghost use Rattle.pb_tree.specs.Walks.{Suits, fresh_over};
ghost use Rattle.pb_totalizer.specs.Totalizer.{totalizer};
ghost use Rattle.pb_totalizer.specs.inner.Phases.{joint_ids_in, joint_in, phase_ids, phase_steps};
ghost use Rattle.pb_totalizer.specs.inner.Sides.{IsSide, side_count};

use crate::fresh_row::FreshRow;
use crate::joint::Joint;
use crate::joint_clauses::derive_clauses;
use crate::joint_meanings::derive_meanings;
use crate::joint_sum::derive_sum;
use crate::phase::Phase;
use crate::side::Side;
use crate::whole::Whole;
use pb_base::Term;
use pb_family::{SinkResult, StepSink};
use pb_tree::{Placed, halves};
use std::alloc::Global;

/// A phase along the tree of a totalizer, whose variables' constraints have the ids from `id` on.
#[derive(Clone, Copy)]
pub struct Along<'a> {
    pub whole: &'a Whole<'a>,
    pub id: u64,
    pub phase: Phase,
    ghost ids: { id + 2 * fresh_over (totalizer whole.now.bound) whole.now.terms.now < 2 ^ 62 },
}

// The node over two parts, before whose own outputs so many fresh variables stand.
fn joint_of(of: &Along, left: Side, right: Side, next: u64) -> Joint
    requires left { side_count left ≤ of.now.whole.now.bound + 1 }
    requires right { side_count right ≤ of.now.whole.now.bound + 1 }
    requires fits { next + min (side_count left + side_count right) (of.now.whole.now.bound + 1) ≤ fresh_over (totalizer of.now.whole.now.bound) of.now.whole.now.terms.now }
    ensures left { result.left ≡ left }
    ensures right { result.right ≡ right }
    ensures cap { result.cap ≡ of.now.whole.now.bound + 1 }
    ensures first { result.row.first ≡ of.now.whole.now.first + next }
    ensures id { result.row.id ≡ of.now.id + 2 * next }
    ensures last { suc result.row.last ≡ min (side_count left + side_count right) (of.now.whole.now.bound + 1) }
{
    let cap = of.whole.bound + 1;
    let inputs = left.count() + right.count();
    let row = FreshRow {
        first: of.whole.first + next as u32,
        id: of.id + 2 * next,
        inputs,
        last: inputs.min(cap) - 1,
    };
    Joint {
        left,
        right,
        row,
        cap,
    }
}

// Hands over the steps of a node in a phase, where the last lines of its parts have ids.
fn derive_node<T: StepSink>(
    alloc: Global,
    phase: Phase,
    node: &Joint,
    left: u64,
    right: u64,
    sink: &mut T,
) -> SinkResult
    requires room { (T.state sink.old).next + joint_ids_in phase node.now < 2 ^ 62 }
    ensures { HandsFrom (joint_in phase node.now left right) result (T.state sink.old) (T.state sink.new) }
{
    match phase {
        Phase::Meanings => derive_meanings(alloc, node, sink),
        Phase::Sums => derive_sum(alloc, node, left, right, sink),
        Phase::Clauses => derive_clauses(alloc, node, sink),
    }
}

/// Hands over the steps along the tree of some terms, before which so many fresh variables stand, and gives the outputs.
pub fn derive_along_tree<T: StepSink>(
    alloc: Global,
    of: &Along,
    terms: &[Term],
    before: u64,
    sink: &mut T,
) -> SinkResult<Placed<Side>>
    requires some { 1 ≤ length terms.now }
    requires suits { Suits (totalizer of.now.whole.now.bound) (fresh_over (totalizer of.now.whole.now.bound) of.now.whole.now.terms.now) terms.now before }
    requires given { 1 ≤ (T.state sink.old).next }
    requires room { (T.state sink.old).next + phase_ids of.now.phase of.now.whole.now.bound (tree_of (weights terms.now)) < 2 ^ 62 }
    ensures hands { HandsFrom (phase_steps of.now.phase of.now.whole.now.bound (tree_of (weights terms.now)) (of.now.whole.now.first + before) (of.now.id + 2 * before)) result (T.state sink.old) (T.state sink.new) }
    ensures next { IfOk result (λ placed. placed.next ≡ before + fresh_over (totalizer of.now.whole.now.bound) terms.now) }
    ensures side { IfOk result (λ placed. IsSide of.now.whole.now.bound (tree_of (weights terms.now)) (of.now.whole.now.first + before) (of.now.id + 2 * before) placed.part) }
{
    if terms.len() == 1 {
        return Ok(Placed {
            part: Side::Leaf(terms[0].lit),
            next: before,
        });
    }
    let (lefts, rights) = halves(terms);
    let left = derive_along_tree(alloc, of, lefts, before, sink)?;
    let one = sink.next_id() - 1;
    let right = derive_along_tree(alloc, of, rights, left.next, sink)?;
    let other = sink.next_id() - 1;
    let node = joint_of(of, left.part, right.part, right.next);
    derive_node(alloc, of.phase, &node, one, other, sink)?;
    Ok(Placed {
        part: Side::Node(node.row),
        next: right.next + (1 + node.row.last),
    })
}
