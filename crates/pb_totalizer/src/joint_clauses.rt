//! The clauses of a node of a totalizer, by the outputs of its parts.
ghost use Rattle.std.specs.Prelude.{◌≤◌, ◌<◌, ◌+◌, ◌^◌, ℕ, ◌∷◌, [], length};
ghost use Rattle.pb_derive.specs.Claims.{claim_steps};
ghost use Rattle.pb_family.specs.StepSinks.{HandsFrom};
ghost use Rattle.pb_totalizer.specs.inner.Joints.{joint_claim, joint_claims, joint_ids, joint_row, joint_steps, narrow_ids, narrow_steps};
ghost use Rattle.pb_totalizer.specs.inner.Numbers.{AreSummed};
ghost use Rattle.pb_totalizer.specs.inner.Sides.{side_count};

use crate::joint::Joint;
use crate::large_clauses::derive_by_blocks;
use crate::numbers::{Counts, numbers};
use crate::polarity::Direction;
use pb_family::{Pieces, SinkResult, StepSink, derive_deletion, derive_line, derive_pieces, over};
use pb_steps::{PolOp, Step};
use std::alloc::Global;

// A node, and the id of each part's line for a clause with none of its outputs.
#[derive(Clone, Copy)]
struct Claiming {
    pub node: Joint,
    pub lefts: u64,
    pub rights: u64,
    ghost left_room: { lefts + side_count node.left < 2 ^ 62 },
    ghost right_room: { rights + side_count node.right < 2 ^ 62 },
}

// Hands over that where i of the left are true and j of the right, i + j are.
fn derive_claim<T: StepSink>(
    alloc: Global,
    of: &Claiming,
    i: u64,
    j: u64,
    sink: &mut T,
) -> SinkResult
    requires pair { AreSummed (side_count of.now.node.left) (side_count of.now.node.right) of.now.node.cap i j }
    requires few { (T.state sink.old).next + 1 < 2 ^ 62 }
    ensures { HandsFrom (λ next. claim_steps next (joint_claim of.now.node of.now.lefts of.now.rights i j ∷ [])) result (T.state sink.old) (T.state sink.new) }
{
    let id = sink.next_id();
    let ops = [
        PolOp::Push(of.node.row.id + 2 * (i + j - 1) + 1),
        PolOp::Push(of.lefts + i),
        PolOp::Add,
        PolOp::Push(of.rights + j),
        PolOp::Add,
        over(of.node.row.inputs),
    ];
    derive_line(alloc, &ops, sink)?;
    sink.step(&Step::Out { id })
}

// The clauses of one number of the left, which goes with so many of the right from one on.
#[derive(Clone, Copy)]
struct ClaimRow<'a> {
    of: &'a Claiming,
    i: u64,
    low: u64,
    count: u64,
    ghost together: { (k : ℕ) → k < count → AreSummed (side_count of.now.node.left) (side_count of.now.node.right) of.now.node.cap i (low + k) },
    ghost few: { count ≤ 2 ^ 32 },
}

impl<'a> Pieces for ClaimRow<'a> {
    ghost use Rattle.std.specs.Prelude.{◌+◌, ◌∷◌, [], refl};
    ghost use Rattle.pb_derive.specs.Claims.{claim_steps};
    ghost use Rattle.pb_totalizer.specs.inner.Joints.{joint_claim};

    ghost piece_count = { λ r. r.count };

    ghost piece_ids = { λ r. 1 };

    ghost piece = { λ r next k. claim_steps next (joint_claim r.of.now.node r.of.now.lefts r.of.now.rights r.i (r.low + k) ∷ []) };

    fn count(&self) -> usize {
        self.count as usize
    }

    fn derive_one<T: StepSink>(&self, alloc: Global, number: usize, sink: &mut T) -> SinkResult {
        derive_claim(alloc, self.of, self.i, self.low + number as u64, sink)
    }

    ghost takes = { λ r next k. refl };
}

// Hands over the clauses of one number of the left.
fn derive_claim_row<T: StepSink>(alloc: Global, of: &Claiming, i: u64, sink: &mut T) -> SinkResult
    requires within { i ≤ side_count of.now.node.left }
    requires room { (T.state sink.old).next + length (joint_row of.now.node of.now.lefts of.now.rights i) < 2 ^ 62 }
    ensures { HandsFrom (λ next. claim_steps next (joint_row of.now.node of.now.lefts of.now.rights i)) result (T.state sink.old) (T.state sink.new) }
{
    let counts = Counts {
        left: of.node.left.count(),
        right: of.node.right.count(),
        own: 1 + of.node.row.last,
        cap: of.node.cap,
    };
    let (low, count) = numbers(Direction::Up, &counts, i);
    let row = ClaimRow { of, i, low, count };
    derive_pieces(alloc, &row, sink)
}

// Hands over the clauses.
fn derive_claims<T: StepSink>(alloc: Global, of: &Claiming, sink: &mut T) -> SinkResult
    requires room { (T.state sink.old).next + length (joint_claims of.now.node of.now.lefts of.now.rights) < 2 ^ 62 }
    ensures { HandsFrom (λ next. claim_steps next (joint_claims of.now.node of.now.lefts of.now.rights)) result (T.state sink.old) (T.state sink.new) }
{
    for i in 0..of.node.left.count() + 1 {
        derive_claim_row(alloc, of, i, sink)?;
    }
    Ok(())
}

// Hands over the lines about all outputs of both parts, the clauses, and the deletion of those lines.
fn derive_by_outputs<T: StepSink>(alloc: Global, node: &Joint, sink: &mut T) -> SinkResult
    requires room { (T.state sink.old).next + narrow_ids node.now < 2 ^ 62 }
    ensures { HandsFrom (narrow_steps node.now) result (T.state sink.old) (T.state sink.new) }
{
    let next = sink.next_id();
    node.left.derive_lines(alloc, sink)?;
    let middle = sink.next_id();
    node.right.derive_lines(alloc, sink)?;
    let end = sink.next_id();
    let of = Claiming {
        node: *node,
        lefts: node.left.others(next),
        rights: node.right.others(middle),
    };
    derive_claims(alloc, &of, sink)?;
    derive_deletion(alloc, next, end - next, sink)
}

/// Hands over the clauses with all lines that they follow by, over all outputs of both parts or over blocks of them.
pub fn derive_clauses<T: StepSink>(alloc: Global, node: &Joint, sink: &mut T) -> SinkResult
    requires room { (T.state sink.old).next + joint_ids node.now < 2 ^ 62 }
    ensures { HandsFrom (joint_steps node.now) result (T.state sink.old) (T.state sink.new) }
{
    if 32 < node.left.count().min(node.right.count()) {
        derive_by_blocks(alloc, node, sink)
    } else {
        derive_by_outputs(alloc, node, sink)
    }
}
