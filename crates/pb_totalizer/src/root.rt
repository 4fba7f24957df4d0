//! The clause of a totalizer's root, and the lines that it follows from.
ghost use Rattle.std.specs.Prelude.{◌≡◌, ◌≤◌, ◌<◌, ◌+◌, ◌*◌, ◌^◌, [], ◌∷◌, IfOk};
ghost use Rattle.pb_norm.specs.Constraints.{weights};
ghost use Rattle.pb_derive.specs.Claims.{claim_steps};
ghost use Rattle.pb_family.specs.StepSinks.{HandsFrom};
ghost use Rattle.pb_tree.specs.Tree.{tree_of};
ghost use Rattle.pb_tree.specs.Walks.{fresh_over};
ghost use Rattle.pb_totalizer.specs.TotalizerSteps.{nodes_in};
ghost use Rattle.pb_totalizer.specs.Totalizer.{totalizer};
ghost use Rattle.pb_totalizer.specs.inner.Roots.{IsRoot, root_given, root_sums};

use crate::along::{Along, derive_along_tree};
use crate::phase::Phase;
use crate::side::{Side, push_giving};
use crate::whole::Whole;
use pb_family::{SinkResult, StepSink, derive_steps, over};
use pb_steps::{PolOp, PolOps, Step};
use pb_tree::halves;
use std::alloc::{AllocError, Global};

/// The two parts of the root, with the ids of the lines by which no fewer of their leaves are true than of their outputs, the bound,
/// and the ids of the first constraint of the root's last output and of the sum's own constraint.
#[derive(Clone, Copy)]
pub struct Root {
    pub left: Side,
    pub left_sum: u64,
    pub right: Side,
    pub right_sum: u64,
    pub bound: u64,
    pub output: u64,
    pub own: u64,
}

// The line by which no more leaves are true than the bound.
fn root_step(alloc: Global, root: &Root) -> Result<Step, AllocError>
    requires { root.now.bound < 2 ^ 62 }
    ensures { IfOk result (λ step. step ≡ (root_given root.now).step) }
{
    let mut ops = vec![in alloc; PolOp::Push(root.output)]?;
    push_giving(&mut ops, &root.left, root.left_sum)?;
    push_giving(&mut ops, &root.right, root.right_sum)?;
    ops.extend_from_slice(&[PolOp::Push(root.own), PolOp::Add, over(root.bound + 1)])?;
    Ok(Step::Pol(PolOps::from_vec(ops)))
}

/// Hands over that no more leaves are true than the bound.
pub fn derive_root<T: StepSink>(alloc: Global, root: &Root, sink: &mut T) -> SinkResult
    requires small { root.now.bound < 2 ^ 62 }
    requires few { (T.state sink.old).next + 1 < 2 ^ 62 }
    ensures { HandsFrom (λ next. claim_steps next (root_given root.now ∷ [])) result (T.state sink.old) (T.state sink.new) }
{
    let step = root_step(alloc, root)?;
    let id = sink.next_id();
    derive_steps(&step, &Step::Out { id }, sink)
}

/// Hands over that of both parts of the root no fewer leaves are true than outputs, where the variables' constraints have the ids from
/// `id` on, and the sum's own one has the id `own`.
pub fn derive_sums<T: StepSink>(
    alloc: Global,
    whole: &Whole,
    id: u64,
    own: u64,
    sink: &mut T,
) -> SinkResult<Root>
    requires ids { id + 2 * fresh_over (totalizer whole.now.bound) whole.now.terms.now < 2 ^ 62 }
    requires given { 1 ≤ (T.state sink.old).next }
    requires room { (T.state sink.old).next + nodes_in (tree_of (weights whole.now.terms.now)) < 2 ^ 62 }
    ensures hands { HandsFrom (root_sums whole.now.bound (tree_of (weights whole.now.terms.now)) id) result (T.state sink.old) (T.state sink.new) }
    ensures root { IfOk result (λ root. IsRoot whole.now.bound (tree_of (weights whole.now.terms.now)) id own (T.state sink.old).next root) }
{
    let along = Along {
        whole,
        id,
        phase: Phase::Sums,
    };
    let (lefts, rights) = halves(whole.terms);
    let left = derive_along_tree(alloc, &along, lefts, 0, sink)?;
    let left_sum = sink.next_id() - 1;
    let right = derive_along_tree(alloc, &along, rights, left.next, sink)?;
    let right_sum = sink.next_id() - 1;
    let output = id + 2 * right.next + 2 * whole.bound;
    Ok(Root {
        left: left.part,
        left_sum,
        right: right.part,
        right_sum,
        bound: whole.bound,
        output,
        own,
    })
}
