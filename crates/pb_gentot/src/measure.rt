//! How large a generalized totalizer is, before it is written.
ghost use Rattle.std.specs.Prelude.{◌≡◌, ◌≤◌, ◌<◌, ◌+◌, ◌*◌, ◌^◌, All, length, IfOk};
ghost use Rattle.pb_norm.specs.Constraints.{weights};
ghost use Rattle.pb_tree.specs.Tree.{tree_of};
ghost use Rattle.pb_gentot.specs.inner.Measured.{IsMeasured, IsNodeMeasured, clauses_with};

use crate::leaf::leaf_values;
use crate::sets::join_values;
use pb_base::Term;
use pb_tree::halves;
use std::alloc::{AllocError, Global};

/// The values of a part, and its numbers.
#[derive(Drop)]
pub struct Part {
    pub values: Vec<u128>,
    pub fresh: u64,
    pub clauses: u64,
}

/// How many clauses a node has over parts with so many values.
fn node_clauses(left: u64, right: u64) -> u64
    requires left_small { left < 2 ^ 32 }
    requires right_small { right < 2 ^ 32 }
    ensures { result ≡ left * right + left + right }
{
    left * right + left + right
}

/// The values and numbers of a node over two parts, if it has no more values than there is room for.
fn measure_node(
    alloc: Global,
    left: &Part,
    right: &Part,
    bound: u128,
    room: u64,
) -> Result<Option<Part>, AllocError>
    requires left_within { All (λ u. u ≤ bound + 1) left.now.values.items }
    requires right_within { All (λ v. v ≤ bound + 1) right.now.values.items }
    requires small { bound < 2 ^ 100 }
    requires modest { left.now.fresh + right.now.fresh + room < 2 ^ 24 }
    requires left_few { length left.now.values.items < 2 ^ 32 }
    requires right_few { length right.now.values.items < 2 ^ 32 }
    requires fit { clauses_with left.now right.now < 2 ^ 64 }
    ensures { IfOk result (IsNodeMeasured bound room left.now right.now) }
{
    let lefts = left.values.as_slice();
    let rights = right.values.as_slice();
    let found = join_values(alloc, lefts, rights, bound + 1, room as usize)?;
    let values = match found {
        Some(values) => values,
        None => return Ok(None),
    };
    let count = values.len() as u64;
    let own = node_clauses(left.values.len() as u64, right.values.len() as u64);
    Ok(Some(Part {
        values,
        fresh: left.fresh + right.fresh + count,
        clauses: left.clauses + right.clauses + own,
    }))
}

/// The values and numbers of some terms, if they have no more fresh variables than the budget.
pub fn measure(
    alloc: Global,
    terms: &[Term],
    bound: u128,
    budget: u64,
) -> Result<Option<Part>, AllocError>
    requires some { 1 ≤ length terms.now }
    requires few { length terms.now < 2 ^ 31 }
    requires small { bound < 2 ^ 100 }
    requires modest { budget < 2 ^ 24 }
    ensures { IfOk result (λ made. IsMeasured bound budget (tree_of (weights terms.now)) made) }
{
    if terms.len() == 1 {
        let values = leaf_values(alloc, terms, bound)?;
        return Ok(Some(Part {
            values,
            fresh: 0,
            clauses: 0,
        }));
    }
    let (lefts, rights) = halves(terms);
    let left = match measure(alloc, lefts, bound, budget)? {
        Some(part) => part,
        None => return Ok(None),
    };
    let right = match measure(alloc, rights, bound, budget - left.fresh)? {
        Some(part) => part,
        None => return Ok(None),
    };
    let room = budget - left.fresh - right.fresh;
    measure_node(alloc, &left, &right, bound, room)
}
