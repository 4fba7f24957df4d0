//! What comes behind the first row of a counter.
ghost use Rattle.std.specs.Prelude.{◌≡◌, ◌≤◌, ◌<◌, ◌+◌, ◌*◌, ◌^◌, length, suc};
ghost use Rattle.pb_norm.specs.Constraints.{weights};
ghost use Rattle.pb_norm.specs.Reduction.{lits_of};
ghost use Rattle.pb_family.specs.Fresh.{literal_at};
ghost use Rattle.pb_family.specs.StepSinks.{HandsFrom};
ghost use Rattle.pb_counter.specs.CounterHalves.{further_steps};

use crate::halves::{Rows, derive_both, derive_narrow, derive_rows};
use crate::last::derive_last;
use pb_base::Term;
use pb_family::{SinkResult, StepSink};
use std::alloc::Global;

/// Hands over the rows of some literals, of which the total is that of all that are left, and the last clause, which is of the one after them.
pub fn derive_further<T: StepSink>(
    alloc: Global,
    rows: Rows,
    after: &[Term],
    sink: &mut T,
) -> SinkResult
    requires some { 1 ≤ length rows.terms.now }
    requires few { length rows.terms.now ≤ 2 ^ 31 }
    requires one { length after.now ≡ 1 }
    requires low { 1 ≤ rows.first }
    requires fits { rows.first + (length rows.terms.now + 1) * suc rows.last ≤ 2 ^ 31 }
    requires order { rows.order + 2 * rows.last < (T.state sink.old).next }
    requires room { (T.state sink.old).next + 1 + (8 * rows.last + 10) * length rows.terms.now < 2 ^ 62 }
    ensures { HandsFrom (further_steps (lits_of (weights rows.entry.terms.now)) (literal_at (lits_of (weights after.now)) 0) rows.entry.first rows.entry.last rows.entry.order rows.entry.whole) result (T.state sink.old) (T.state sink.new) }
{
    let narrowed = sink.next_id();
    derive_narrow(alloc, rows.whole, after, sink)?;
    let before = Rows {
        terms: rows.terms,
        first: rows.first,
        last: rows.last,
        order: rows.order,
        whole: narrowed,
    };
    let end = derive_rows(alloc, 31, before, sink)?;
    let middle = sink.next_id();
    derive_both(alloc, rows.whole, end.climb, sink)?;
    let held = [rows.whole, narrowed, end.climb, middle];
    derive_last(alloc, rows.last, end.order, middle, &held, sink)
}
