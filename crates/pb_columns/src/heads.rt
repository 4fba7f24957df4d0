//! The heads of sums: the number of terms, the relation and the right side.
ghost use Rattle.std.specs.Prelude.{◌≡◌, ◌≤◌, ◌∷◌, ◌++◌, [], ◌^◌, All, IfErr, IfOk, OnOk, Some, map};
ghost use Rattle.pb_columns.specs.Columns.{head_of, head_with, HasMoreHead, IsShort, StopsHeads, StopsSum};

use crate::fault::ColumnFault;
use crate::number::wide;
use crate::sum::{PbcnfSum, most_terms, relation_of};
use pb_base::{Head, Heads, LimitKind, NoMemory, Relation};
use std::alloc::Global;

// Returns the head of a sum's statement: the number of terms, the relation and the right side.
fn head_with(sum: &PbcnfSum, relation: Relation) -> Head
    requires { sum.now.terms ≤ 2 ^ 20 }
    ensures { result ≡ head_with sum.now relation }
{
    Head {
        terms: sum.terms as u32,
        relation,
        right: wide(sum.right_low, sum.right_high),
    }
}

// Adds the head of the sum at this position, from 1, or blames the sum.
fn push_head(heads: &mut Heads, sum: &PbcnfSum, at: u64) -> Result<(), ColumnFault>
    ensures ok { OnOk result (HasMoreHead sum.now heads.old heads.new) }
    ensures stopped { IfErr result (StopsSum sum.now at) }
{
    let Some(relation) = relation_of(sum.relation) else {
        return Err(ColumnFault::Unfit { at });
    };
    if sum.terms > most_terms(sum.condition) {
        return Err(ColumnFault::Limit {
            which: LimitKind::Terms,
            at,
        });
    }
    match heads.push(head_with(sum, relation)) {
        Ok(()) => Ok(()),
        Err(NoMemory) => Err(ColumnFault::NoMemory),
    }
}

/// Returns the heads of sums, or the fault of the first that has none.
pub(crate) fn heads_of(alloc: Global, sums: &[PbcnfSum]) -> Result<Heads, ColumnFault>
    ensures heads { IfOk result (λ heads. map Some heads ≡ map head_of sums.now) }
    ensures short { IfOk result (λ heads. All IsShort sums.now) }
    ensures stopped { IfErr result (StopsHeads sums.now) }
{
    let mut heads = Heads::new(alloc);
    for place in 0..sums.len() {
        push_head(&mut heads, &sums[place], place as u64 + 1)?;
    }
    Ok(heads)
}
