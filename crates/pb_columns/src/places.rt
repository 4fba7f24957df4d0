//! Which sum a term is of.
ghost use Rattle.std.specs.Prelude.{◌≡◌, ◌<◌, length, sum_by};
ghost use Rattle.pb_columns.specs.Columns.{terms_asked, FindsOutside, IsPlaceOf};

use crate::literals::is_below;
use crate::sum::PbcnfSum;

/// Returns the number of terms of all sums together.
pub(crate) fn terms_asked(sums: &[PbcnfSum]) -> u128
    ensures { result ≡ terms_asked sums.now }
{
    let mut count = 0;
    for sum in sums {
        count += u128::from(sum.terms);
    }
    count
}

/// Returns the position, from 0, of the first literal whose variable is not below the first fresh one.
pub(crate) fn first_outside(numbers: &[i32], first: u32) -> Option<usize>
    ensures { FindsOutside first numbers.now result }
{
    for place in 0..numbers.len() {
        if !is_below(numbers[place], first) {
            return Some(place);
        }
    }
    None
}

/// Returns the number, from 1, of the sum that has the term at this position, from 0.
pub(crate) fn sum_at(sums: &[PbcnfSum], place: usize) -> u64
    requires { place < terms_asked sums.now }
    ensures { IsPlaceOf sums.now place result }
{
    let mut left = place as u64;
    for at in 0..sums.len() {
        let terms = sums[at].terms;
        if left < terms {
            return at as u64 + 1;
        }
        left -= terms;
    }
    0
}
