//! What adders say, added up block by block: the running sum.
//!
//! A running sum is as long as all bits that wait, so a step for each adder would take time in the square of the inputs. Instead a
//! block of up to 2^16 adders is one `pol` line, in which their constraints are added as a balanced tree: a term is added at most 16
//! times before the running sum is touched, so n inputs take about n log n. A block's line has up to 11 MB, far below the 2^28 bytes
//! of the limit, and a tree of height 16 needs 18 entries of the stack. A block may go on past the end of a level, since each adder
//! is taken as often as its own level says.
//!
//! Each running sum is deleted once the next is there, and the last once the comparator's clauses are put out. So there is never more
//! than one, besides the constraint. What a sum says is stated by its value under all assignments: no list of its terms is ever
//! written, and inputs that cancel need no word.
ghost use Rattle.std.specs.Prelude.{◌≡◌, ◌≤◌, ◌<◌, ◌+◌, ◌*◌, ◌^◌, ◌∷◌, ◌++◌, [], All, length, IfOk, cond, pos};
ghost use Rattle.pb_derive.specs.Deletions.{deletion_steps};
ghost use Rattle.pb_steps.specs.declared.step.Step.TheVariants.{Pol};
ghost use Rattle.pb_family.specs.StepSinks.{HandsSteps};
ghost use Rattle.pb_adder.specs.AdderSteps.{blocks, last_deletion, last_sum, line_ops, sum_ops, sum_steps, tree_ops};

use pb_family::{SinkResult, StepSink, derive_deletion};
use pb_steps::{PolOp, PolOps, Step};
use std::alloc::{AllocError, Global};

/// A block has up to 2 to the power of this many adders, so that its line is short enough to be held in memory, and its
/// trees are not high.
const HEIGHT: u32 = 16;

const BLOCK: usize = 1 << HEIGHT;

/// The levels of adders, whose constraints have four ids each, from `id` on.
#[derive(Clone, Copy)]
pub struct Summands<'a> {
    pub levels: &'a [u32],
    pub id: u64,
    ghost low: { All (λ l. l < 126) levels.now },
    ghost fits: { id + 4 * length levels.now < 2 ^ 62 },
}

impl<'a> Summands<'a> {
    ghost use Rattle.std.specs.Prelude.{◌≡◌, ◌≤◌, ◌<◌, ◌+◌, ◌*◌, ◌^◌, ◌∷◌, drop, length, take};
    ghost use Rattle.pb_adder.specs.AdderSteps.{blocks};

    /// Those before a place, and the others.
    fn split_at(self, place: usize) -> (Self, Self)
        requires { place ≤ length self.levels.now }
        ensures front { result.0.levels.now ≡ take place self.entry.levels.now }
        ensures back { result.1.levels.now ≡ drop place self.entry.levels.now }
        ensures id { result.0.id ≡ self.entry.id }
        ensures later { result.1.id ≡ self.entry.id + 4 * place }
    {
        let (front, back) = self.levels.split_at(place);
        let id = self.id + 4 * place as u64;
        let first = Summands {
            levels: front,
            id: self.id,
        };
        let later = Summands { levels: back, id };
        (first, later)
    }

    /// Those of the first block, and the others.
    fn first_block(self) -> (Self, Self)
        requires { 0 < length self.levels.now }
        ensures split { blocks self.entry.levels.now ≡ result.0.levels.now ∷ blocks result.1.levels.now }
        ensures some { 1 ≤ length result.0.levels.now }
        ensures few { length result.0.levels.now ≤ 2 ^ 16 }
        ensures size { length result.0.levels.now + length result.1.levels.now ≡ length self.entry.levels.now }
        ensures id { result.0.id ≡ self.entry.id }
        ensures later { result.1.id ≡ self.entry.id + 4 * length result.0.levels.now }
    {
        self.split_at(BLOCK.min(self.levels.len()))
    }
}

/// How often an adder at a level counts.
fn times_at(level: u32) -> i128
    requires low { level < 126 }
    ensures { result ≡ pos (2 ^ level) }
{
    1 << level
}

/// Adds what an adder at a level says, whose constraints have four ids, from `id` on.
fn push_line(ops: &mut Vec<PolOp>, level: u32, id: u64) -> Result<(), AllocError>
    requires low { level < 126 }
    requires fits { id < 2 ^ 62 }
    ensures { IfOk result (λ _. ops.new.items ≡ ops.old.items ++ line_ops level id) }
{
    ops.extend_from_slice(&[
        PolOp::Push(id),
        PolOp::Mul(2),
        PolOp::Push(id + 2),
        PolOp::Add,
        PolOp::Div(3),
        PolOp::Mul(times_at(level)),
    ])
}

/// Adds the sum of what up to 2^height adders say, halves before the whole, so that few terms are added often.
fn push_tree(ops: &mut Vec<PolOp>, height: u32, of: Summands) -> Result<(), AllocError>
    requires some { 1 ≤ length of.levels.now }
    requires high { height ≤ 16 }
    requires few { length of.levels.now ≤ 2 ^ height }
    ensures { IfOk result (λ _. ops.new.items ≡ ops.old.items ++ tree_ops height of.entry.id of.entry.levels.now) }
{
    if height == 0 {
        return push_line(ops, of.levels[0], of.id);
    }
    let half: usize = 1 << (height - 1);
    if of.levels.len() <= half {
        return push_tree(ops, height - 1, of);
    }
    let (lefts, rights) = of.split_at(half);
    push_tree(ops, height - 1, lefts)?;
    push_tree(ops, height - 1, rights)?;
    ops.extend_from_slice(&[PolOp::Add])
}

/// The step of a block.
fn sum_step(alloc: Global, block: Summands, running: u64) -> Result<Step, AllocError>
    requires some { 1 ≤ length block.levels.now }
    requires few { length block.levels.now ≤ 2 ^ 16 }
    ensures { IfOk result (λ step. step ≡ Pol (sum_ops block.entry.id block.entry.levels.now running)) }
{
    let mut ops = Vec::new(alloc);
    push_tree(&mut ops, HEIGHT, block)?;
    ops.extend_from_slice(&[PolOp::Push(running), PolOp::Add])?;
    Ok(Step::Pol(PolOps::from_vec(ops)))
}

/// Hands over the sum of a block.
fn derive_sum<T: StepSink>(alloc: Global, block: Summands, running: u64, sink: &mut T) -> SinkResult
    requires some { 1 ≤ length block.levels.now }
    requires few { length block.levels.now ≤ 2 ^ 16 }
    requires room { (T.state sink.old).next + 1 < 2 ^ 62 }
    ensures { HandsSteps (Pol (sum_ops block.entry.id block.entry.levels.now running) ∷ []) result (T.state sink.old) (T.state sink.new) }
{
    let step = sum_step(alloc, block, running)?;
    sink.step(&step)
}

/// Hands over the sum of a block, and that the one before it goes, if it is a later block.
fn derive_next_sum<T: StepSink>(
    alloc: Global,
    block: Summands,
    running: u64,
    is_later: bool,
    sink: &mut T,
) -> SinkResult
    requires some { 1 ≤ length block.levels.now }
    requires few { length block.levels.now ≤ 2 ^ 16 }
    requires given { running < 2 ^ 62 }
    requires room { (T.state sink.old).next + 1 < 2 ^ 62 }
    ensures { HandsSteps (Pol (sum_ops block.entry.id block.entry.levels.now running) ∷ cond is_later (deletion_steps 1 running 1) []) result (T.state sink.old) (T.state sink.new) }
{
    derive_sum(alloc, block, running, sink)?;
    if is_later {
        derive_deletion(alloc, running, 1, sink)
    } else {
        Ok(())
    }
}

/// Hands over the sums of adders, block by block, from the constraint with the id `running` on, which stays. Each further sum
/// goes behind the next one. Gives the id of the last one.
pub fn derive_sums<T: StepSink>(
    alloc: Global,
    of: Summands,
    running: u64,
    sink: &mut T,
) -> SinkResult<u64>
    requires given { running < 2 ^ 62 }
    requires room { (T.state sink.old).next + length of.levels.now < 2 ^ 62 }
    ensures steps { HandsSteps (sum_steps of.entry.id running (T.state sink.old).next (blocks of.entry.levels.now)) result (T.state sink.old) (T.state sink.new) }
    ensures last { IfOk result (λ last. last ≡ last_sum running (T.state sink.old).next (blocks of.entry.levels.now)) }
{
    let mut running = running;
    let mut is_later = false;
    let mut rest = of;
    while rest.levels.len() > 0 {
        let (block, others) = rest.first_block();
        let next = sink.next_id();
        derive_next_sum(alloc, block, running, is_later, sink)?;
        running = next;
        is_later = true;
        rest = others;
    }
    Ok(running)
}

/// Hands over that the last sum goes, where there is an adder.
pub fn derive_last_deletion<T: StepSink>(
    alloc: Global,
    levels: &[u32],
    last: u64,
    sink: &mut T,
) -> SinkResult
    requires given { last < 2 ^ 63 }
    requires few { (T.state sink.old).next < 2 ^ 62 }
    ensures { HandsSteps (last_deletion last levels.now) result (T.state sink.old) (T.state sink.new) }
{
    match levels.split_first() {
        Some(_) => derive_deletion(alloc, last, 1, sink),
        None => Ok(()),
    }
}
