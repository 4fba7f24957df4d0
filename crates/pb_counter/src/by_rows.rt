//! The whole derivation of a counter, row by row.
ghost use Rattle.std.specs.Prelude.{◌≡◌, ◌≤◌, ◌<◌, ◌+◌, ◌-◌, ◌*◌, ◌^◌, drop, length, suc, IfOk};
ghost use Rattle.pb_norm.specs.Constraints.{weights};
ghost use Rattle.pb_norm.specs.Reduction.{lits_of};
ghost use Rattle.pb_family.specs.Fresh.{literal_at};
ghost use Rattle.pb_family.specs.StepSinks.{HandsFrom};
ghost use Rattle.pb_counter.specs.CounterHalves.{all_steps, first_steps, other_steps};

use crate::first_parts::derive_first_row;
use crate::first_row::FirstRow;
use crate::further::derive_further;
use crate::halves::Rows;
use crate::last::derive_last;
use pb_base::{Lit, Term};
use pb_family::{SinkResult, StepSink};
use std::alloc::Global;

/// Hands over the first row.
fn derive_start<T: StepSink>(
    alloc: Global,
    lit: Lit,
    first: u32,
    last: u64,
    id: u64,
    sink: &mut T,
) -> SinkResult
    requires low { 1 ≤ first }
    requires fits { first + suc last ≤ 2 ^ 31 }
    requires room { (T.state sink.old).next + 8 * last + 8 < 2 ^ 62 }
    ensures hands { HandsFrom (first_steps lit first last id) result (T.state sink.old) (T.state sink.new) }
    ensures next { IfOk result (λ _. (T.state sink.new).next ≡ (T.state sink.old).next + (5 * last + 5)) }
{
    let counts = sink.next_id();
    let starts = counts + 2 * (1 + last);
    let order = starts + (1 + last);
    let row = FirstRow {
        lit,
        first,
        last,
        id,
        counts,
        starts,
        order,
        fronts: order + last,
    };
    derive_first_row(alloc, row, sink)
}

/// Hands over what comes behind it, by the other literals.
fn derive_others<T: StepSink>(alloc: Global, rows: Rows, sink: &mut T) -> SinkResult
    requires some { 1 ≤ length rows.terms.now }
    requires few { length rows.terms.now ≤ 2 ^ 31 }
    requires low { 1 ≤ rows.first }
    requires fits { rows.first + length rows.terms.now * suc rows.last ≤ 2 ^ 31 }
    requires order { rows.order + 2 * rows.last + 1 < (T.state sink.old).next }
    requires room { (T.state sink.old).next + 1 + (8 * rows.last + 10) * length rows.terms.now < 2 ^ 62 }
    ensures { HandsFrom (other_steps (lits_of (weights rows.entry.terms.now)) rows.entry.first rows.entry.last rows.entry.order rows.entry.whole) result (T.state sink.old) (T.state sink.new) }
{
    let count = rows.terms.len() - 1;
    if count == 0 {
        return derive_last(
            alloc,
            rows.last,
            rows.order,
            rows.whole,
            &[rows.whole],
            sink,
        );
    }
    let before = Rows {
        terms: &rows.terms[..count],
        first: rows.first,
        last: rows.last,
        order: rows.order,
        whole: rows.whole,
    };
    derive_further(alloc, before, &rows.terms[count..], sink)
}

/// Hands over the whole derivation.
pub fn derive_by_rows<T: StepSink>(
    alloc: Global,
    terms: &[Term],
    first: u32,
    last: u64,
    id: u64,
    sink: &mut T,
) -> SinkResult
    requires two { 2 ≤ length terms.now }
    requires few { length terms.now ≤ 2 ^ 31 }
    requires low { 1 ≤ first }
    requires fits { first + (length terms.now - 1) * suc last ≤ 2 ^ 31 }
    requires room { (T.state sink.old).next + (8 * last + 10) * (length terms.now + 1) < 2 ^ 62 }
    ensures { HandsFrom (all_steps (literal_at (lits_of (weights terms.now)) 0) (drop 1 (lits_of (weights terms.now))) last first id) result (T.state sink.old) (T.state sink.new) }
{
    let next = sink.next_id();
    derive_start(alloc, terms[0].lit, first, last, id, sink)?;
    let rows = Rows {
        terms: &terms[1..],
        first,
        last,
        order: next + 3 * (1 + last),
        whole: next + 5 * last + 4,
    };
    derive_others(alloc, rows, sink)
}
