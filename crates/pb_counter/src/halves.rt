//! The rows of a counter behind the first, by halves.
ghost use Rattle.std.specs.Prelude.{◌≡◌, ◌≤◌, ◌<◌, ◌+◌, ◌*◌, ◌^◌, [], ◌∷◌, ◌++◌, map, length, suc, IfOk, OnOk};
ghost use Rattle.pb_norm.specs.BoundedSums.{vars_of};
ghost use Rattle.pb_norm.specs.Constraints.{weights};
ghost use Rattle.pb_norm.specs.Reduction.{lits_of};
ghost use Rattle.pb_steps.specs.declared.op.PolOp.TheVariants.{Push, Weaken};
ghost use Rattle.pb_steps.specs.declared.step.Step.TheVariants.{Del};
ghost use Rattle.pb_family.specs.Fresh.{literal_at};
ghost use Rattle.pb_family.specs.StepSinks.{HandsFrom, HandsSteps};
ghost use Rattle.pb_counter.specs.CounterHalves.{both_line, narrow_line, rows_end, rows_steps};
ghost use Rattle.pb_counter.specs.CounterRows.{row_steps};
ghost use Rattle.pb_counter.specs.inner.Ends.{Ends, row_ends};

use crate::row::Row;
use crate::row_parts::{derive_row, row_ids};
use pb_base::Term;
use pb_family::{SinkFault, SinkResult, StepSink, derive_deleted, derive_line};
use pb_steps::{PolOp, PolOps, Step};
use std::alloc::{AllocError, Global};

/// Literals, each of which has a row; the first variable and the last place of the row before them, and the ids of that row's order and of
/// the total of the literals.
#[derive(Clone, Copy)]
pub struct Rows<'a> {
    pub terms: &'a [Term],
    pub first: u32,
    pub last: u64,
    pub order: u64,
    pub whole: u64,
}

/// The ids of the last row's order, and of the sum of all rows.
#[derive(Clone, Copy)]
pub struct RowsEnd {
    pub order: u64,
    pub climb: u64,
}

// The operations that take some literals out of a total.
fn narrow_ops(alloc: Global, whole: u64, terms: &[Term]) -> Result<Vec<PolOp>, AllocError>
    ensures { IfOk result (λ ops. ops.items ≡ Push whole ∷ map (λ t. Weaken t.lit.var) terms.now) }
{
    let mut ops = vec![in alloc; PolOp::Push(whole)]?;
    for term in terms {
        ops.push(PolOp::Weaken(term.lit.var))?;
    }
    Ok(ops)
}

// The step of a total without some literals.
fn narrow_step(alloc: Global, whole: u64, terms: &[Term]) -> Result<Step, AllocError>
    ensures { IfOk result (λ step. step ≡ narrow_line whole (lits_of (weights terms.now))) }
{
    let ops = narrow_ops(alloc, whole, terms)?;
    Ok(Step::Pol(PolOps::from_vec(ops)))
}

/// Hands over a total without some literals.
pub fn derive_narrow<T: StepSink>(
    alloc: Global,
    whole: u64,
    terms: &[Term],
    sink: &mut T,
) -> SinkResult
    requires few { (T.state sink.old).next < 2 ^ 62 }
    ensures { HandsSteps (narrow_line whole (lits_of (weights terms.now)) ∷ []) result (T.state sink.old) (T.state sink.new) }
{
    let step = narrow_step(alloc, whole, terms)?;
    sink.step(&step)
}

/// Hands over the sum of two constraints.
pub fn derive_both<T: StepSink>(alloc: Global, one: u64, other: u64, sink: &mut T) -> SinkResult
    requires few { (T.state sink.old).next < 2 ^ 62 }
    ensures { HandsSteps (both_line one other ∷ []) result (T.state sink.old) (T.state sink.new) }
{
    derive_line(
        alloc,
        &[PolOp::Push(one), PolOp::Push(other), PolOp::Add],
        sink,
    )
}

// The ids in a list.
fn ids_of(alloc: Global, ids: &[u64]) -> Result<Vec<u64>, AllocError>
    ensures { IfOk result (λ v. v.items ≡ ids.now) }
{
    let mut all = Vec::new(alloc);
    all.extend_from_slice(ids)?;
    Ok(all)
}

/// Hands over that some constraints go.
pub fn derive_gone<T: StepSink>(alloc: Global, ids: &[u64], sink: &mut T) -> SinkResult
    requires few { (T.state sink.old).next < 2 ^ 62 }
    ensures { HandsSteps (Del ids.now ∷ []) result (T.state sink.old) (T.state sink.new) }
{
    let all = ids_of(alloc, ids)?;
    derive_deleted(all, sink)
}

/// Hands over the sum of what was said of two halves, and that four constraints go.
fn derive_joined<T: StepSink>(
    alloc: Global,
    narrowed: u64,
    one: u64,
    middle: u64,
    other: u64,
    sink: &mut T,
) -> SinkResult
    requires few { (T.state sink.old).next + 1 < 2 ^ 62 }
    ensures { HandsSteps (both_line one other ∷ Del (narrowed ∷ one ∷ middle ∷ other ∷ []) ∷ []) result (T.state sink.old) (T.state sink.new) }
{
    derive_both(alloc, one, other, sink)?;
    derive_gone(alloc, &[narrowed, one, middle, other], sink)
}

/// Hands over the row of a single literal.
fn derive_one_row<T: StepSink>(
    alloc: Global,
    rows: Rows,
    sink: &mut T,
) -> Result<RowsEnd, SinkFault>
    requires some { 1 ≤ length rows.terms.now }
    requires low { 1 ≤ rows.first }
    requires fits { rows.first + 2 * (1 + rows.last) ≤ 2 ^ 31 }
    requires order { rows.order + 2 * rows.last < (T.state sink.old).next }
    requires room { (T.state sink.old).next + (8 * rows.last + 10) < 2 ^ 62 }
    ensures hands { HandsFrom (row_steps (literal_at (lits_of (weights rows.entry.terms.now)) 0) rows.entry.first rows.entry.last rows.entry.order rows.entry.whole) result (T.state sink.old) (T.state sink.new) }
    ensures ends { IfOk result (λ e. Ends (row_ends rows.entry.last (T.state sink.old).next) e.order e.climb (T.state sink.new).next) }
{
    let last = rows.last;
    let ids = row_ids(last, sink.next_id());
    let row = Row {
        lit: rows.terms[0].lit,
        first: rows.first,
        last,
        order: rows.order,
        fronts: rows.order + last,
        whole: rows.whole,
        ids,
    };
    derive_row(alloc, row, sink)?;
    Ok(RowsEnd {
        order: ids.order,
        climb: ids.parts + last,
    })
}

// Where the variables of later rows start.
fn first_after(first: u32, rows: usize, last: u64) -> u32
    requires some { 1 ≤ rows }
    requires fits { first + rows * suc last < 2 ^ 31 }
    ensures { result ≡ first + rows * suc last }
{
    first + rows as u32 * (1 + last) as u32
}

/// Hands over rows of up to 2^height literals: of the first half by what is left of the total without the second, and of the second half by
/// the total and the sum of the first.
pub fn derive_rows<T: StepSink>(
    alloc: Global,
    height: u32,
    rows: Rows,
    sink: &mut T,
) -> Result<RowsEnd, SinkFault>
    requires some { 1 ≤ length rows.terms.now }
    requires high { height ≤ 31 }
    requires few { length rows.terms.now ≤ 2 ^ height }
    requires low { 1 ≤ rows.first }
    requires fits { rows.first + (length rows.terms.now + 1) * suc rows.last ≤ 2 ^ 31 }
    requires order { rows.order + 2 * rows.last < (T.state sink.old).next }
    requires room { (T.state sink.old).next + (8 * rows.last + 10) * length rows.terms.now < 2 ^ 62 }
    ensures hands { HandsFrom (rows_steps height (lits_of (weights rows.entry.terms.now)) rows.entry.first rows.entry.last rows.entry.order rows.entry.whole) result (T.state sink.old) (T.state sink.new) }
    ensures ends { IfOk result (λ e. Ends (rows_end height (length rows.entry.terms.now) rows.entry.last (T.state sink.old).next) e.order e.climb (T.state sink.new).next) }
{
    if height == 0 {
        return derive_one_row(alloc, rows, sink);
    }
    let half: usize = 1 << (height - 1);
    if rows.terms.len() <= half {
        return derive_rows(alloc, height - 1, rows, sink);
    }
    let narrowed = sink.next_id();
    derive_narrow(alloc, rows.whole, &rows.terms[half..], sink)?;
    let front = Rows {
        terms: &rows.terms[..half],
        first: rows.first,
        last: rows.last,
        order: rows.order,
        whole: narrowed,
    };
    let one = derive_rows(alloc, height - 1, front, sink)?;
    let middle = sink.next_id();
    derive_both(alloc, rows.whole, one.climb, sink)?;
    let back = Rows {
        terms: &rows.terms[half..],
        first: first_after(rows.first, half, rows.last),
        last: rows.last,
        order: one.order,
        whole: middle,
    };
    let other = derive_rows(alloc, height - 1, back, sink)?;
    let climb = sink.next_id();
    derive_joined(alloc, narrowed, one.climb, middle, other.climb, sink)?;
    Ok(RowsEnd {
        order: other.order,
        climb,
    })
}
