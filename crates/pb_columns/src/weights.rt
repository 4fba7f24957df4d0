//! Whether the numbers of statements are too great.
ghost use Rattle.std.specs.Prelude.{◌≡◌, ◌+◌, ◌-◌, ◌^◌, ◌↔◌, IsTrue, length, min};
ghost use Rattle.std.specs.Int.RustNames.{unsigned_abs};
ghost use Rattle.pb_base.specs.Problems.{magnitude};
ghost use Rattle.pb_base.specs.Statements.{raw_of};
ghost use Rattle.pb_columns.specs.Columns.{FindsHeavy, IsLight};

use crate::sum::{PbcnfSum, weight_limit};
use pb_base::{Statement, Statements, TermsLeft};

// Returns the absolute values of the numbers of a statement, added up, but at most 2^128 - 1.
fn size(terms: TermsLeft<'_>, right: i128) -> u128
    ensures { result ≡ min (magnitude terms.entry + unsigned_abs right) (2 ^ 128 - 1) }
{
    let mut sum = right.unsigned_abs();
    for term in terms {
        sum = sum.saturating_add(term.weight());
    }
    sum
}

// True if the numbers of a statement add up to less than the limit under the condition of a number.
fn is_light(statement: Statement<'_>, condition: i32) -> bool
    ensures { IsTrue result ↔ IsLight condition (raw_of statement.entry) }
{
    size(statement.terms, statement.right) < weight_limit(condition)
}

/// Returns the position, from 1, of the first statement whose numbers add up to the limit or more.
pub(crate) fn first_heavy(sums: &[PbcnfSum], statements: &Statements) -> Option<u64>
    requires { length statements.now ≡ length sums.now }
    ensures { FindsHeavy sums.now statements.now result }
{
    let mut place: usize = 0;
    for statement in statements.iter() {
        if !is_light(statement, sums[place].condition) {
            return Some(place as u64 + 1);
        }
        place += 1;
    }
    None
}
