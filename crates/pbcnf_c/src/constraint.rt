//! One constraint: a column of one sum, which has all terms.
ghost use Rattle.std.specs.Prelude.{◌≡◌, length};
ghost use Rattle.pbcnf_c.specs.Constraints.{one_sum, ConstrainsOneInto, OneDerivesInto};

use crate::constraints::{constrain_into, derive_all_into};
use crate::options::PbcnfOptions;
use crate::size::Ending;
use pb_columns::{Columns, PbcnfSum};
use std::alloc::Global;

/// The relation and the right side of a sum, and the first fresh variable.
#[repr(C)]
#[derive(Clone, Copy)]
pub struct PbcnfSide {
    /// 0 at least, 1 at most, 2 equal.
    pub relation: u32,
    /// The first fresh variable, from 1 to 2^31.
    pub first: u32,
    /// The right side in two's complement of 128 bits.
    pub right_low: u64,
    pub right_high: u64,
}

/// A constraint in numbers.
#[derive(Drop)]
pub struct Asked<'a> {
    /// One word for each literal, or two, the low one first.
    pub words: &'a [u64],
    pub literals: &'a [i32],
    pub side: &'a PbcnfSide,
}

// Returns the sum of a side without a condition, over so many terms.
fn one_sum(side: &PbcnfSide, terms: usize) -> PbcnfSum
    ensures { result ≡ one_sum side.now terms }
{
    PbcnfSum {
        relation: side.relation,
        condition: 0,
        terms: terms as u64,
        right_low: side.right_low,
        right_high: side.right_high,
    }
}

/// Copies the integers of the clauses of a constraint into the room.
pub fn constrain_one_into(
    alloc: Global,
    asked: &Asked<'_>,
    chosen: &PbcnfOptions,
    integers: &mut [i32],
) -> Ending
    ensures { ConstrainsOneInto chosen.now asked.now.words.now asked.now.literals.now asked.now.side.now integers.old integers.new result.size result.outcome }
{
    let sums = [one_sum(asked.side, asked.literals.len())];
    let columns = Columns {
        words: asked.words,
        literals: asked.literals,
        sums: &sums,
        first: asked.side.first,
    };
    let blamed = constrain_into(alloc, &columns, chosen, integers);
    blamed.ending
}

/// Copies the derivation of the clauses of a constraint into the room.
pub fn derive_one_into(
    alloc: Global,
    asked: &Asked<'_>,
    chosen: &PbcnfOptions,
    proof: &mut [u8],
) -> Ending
    ensures { OneDerivesInto chosen.now asked.now.words.now asked.now.literals.now asked.now.side.now proof.old proof.new result.size result.outcome }
{
    let sums = [one_sum(asked.side, asked.literals.len())];
    let columns = Columns {
        words: asked.words,
        literals: asked.literals,
        sums: &sums,
        first: asked.side.first,
    };
    let blamed = derive_all_into(alloc, &columns, chosen, proof);
    blamed.ending
}
