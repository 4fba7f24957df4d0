//! How far a right side is beyond what a sum can be.
ghost use Rattle.std.specs.Prelude.{◌≡◌, ◌<◌, ◌^◌};
ghost use Rattle.pb_base.specs.Problems.{magnitude, StaysBelow};
ghost use Rattle.pb_columns.specs.Conditions.{greatest, least, negative_part, positive_part, shift_down, shift_up};

use pb_base::{Raw, Term};

// Returns the number if it is negative, and else 0.
fn negative_part(number: i128) -> i128
    ensures { result ≡ negative_part number }
{
    if number < 0 { number } else { 0 }
}

// Returns the number if it is positive, and else 0.
fn positive_part(number: i128) -> i128
    ensures { result ≡ positive_part number }
{
    if number < 0 { 0 } else { number }
}

// Returns a lower bound of the sum: its negative coefficients, added up.
fn least(terms: &[Term]) -> i128
    requires { magnitude terms.now < 2 ^ 100 }
    ensures { result ≡ least terms.now }
{
    let mut sum: i128 = 0;
    for term in terms {
        sum += negative_part(term.coef);
    }
    sum
}

// Returns an upper bound of the sum: its positive coefficients, added up.
fn greatest(terms: &[Term]) -> i128
    requires { magnitude terms.now < 2 ^ 100 }
    ensures { result ≡ greatest terms.now }
{
    let mut sum: i128 = 0;
    for term in terms {
        sum += positive_part(term.coef);
    }
    sum
}

/// Returns how far the right side is above the least value of the sum, or 0: the coefficient of the negated condition in the lower half.
pub(crate) fn shift_up(statement: &Raw) -> i128
    requires { StaysBelow (2 ^ 100) statement.now }
    ensures { result ≡ shift_up statement.now.terms statement.now.right }
{
    positive_part(statement.right - least(statement.terms.as_slice()))
}

/// Returns how far the right side is below the greatest value of the sum, as a number that is not positive, or 0: the coefficient of the
/// negated condition in the upper half.
pub(crate) fn shift_down(statement: &Raw) -> i128
    requires { StaysBelow (2 ^ 100) statement.now }
    ensures { result ≡ shift_down statement.now.terms statement.now.right }
{
    negative_part(statement.right - greatest(statement.terms.as_slice()))
}
