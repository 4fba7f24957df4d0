//! A sum but for its terms.
ghost use Rattle.std.specs.Prelude.{◌≡◌, ◌≤◌, ◌^◌};
ghost use Rattle.pb_columns.specs.Columns.{relation_of};
ghost use Rattle.pb_columns.specs.Conditions.{most_terms, weight_limit};

use pb_base::Relation;

/// A sum but for its terms, which are the next ones in the column of terms.
#[repr(C)]
#[derive(Clone, Copy)]
pub struct PbcnfSum {
    /// 0 at least, 1 at most, 2 equal.
    pub relation: u32,
    /// 0, or the number of the literal under which alone the constraint is asked.
    pub condition: i32,
    /// How many terms it has.
    pub terms: u64,
    /// The right side in two's complement of 128 bits.
    pub right_low: u64,
    pub right_high: u64,
}

/// Returns the relation of a number: 0 at least, 1 at most, 2 equal; `None` above.
pub(crate) fn relation_of(word: u32) -> Option<Relation>
    ensures { result ≡ relation_of word }
{
    match word {
        0 => Some(Relation::AtLeast),
        1 => Some(Relation::AtMost),
        2 => Some(Relation::Equal),
        _ => None,
    }
}

/// Returns the greatest number of terms of a sum: 2^20, and one less under a condition, which takes a term. 0 is no condition.
pub(crate) fn most_terms(condition: i32) -> u64
    ensures value { result ≡ most_terms condition }
    ensures few { result ≤ 2 ^ 20 }
{
    if condition == 0 { 0x10_0000 } else { 0xf_ffff }
}

/// Returns the limit that the numbers of a statement have to add up to less than: 2^99 under a condition, else 2^100.
pub(crate) fn weight_limit(condition: i32) -> u128
    ensures value { result ≡ weight_limit condition }
    ensures small { result ≤ 2 ^ 100 }
{
    if condition == 0 { 1 << 100 } else { 1 << 99 }
}
