//! Literals by their numbers.
ghost use Rattle.std.specs.Prelude.{◌≡◌, ◌≤◌, ◌<◌, ◌^◌, ◌↔◌, IsTrue};
ghost use Rattle.std.specs.Int.RustNames.{unsigned_abs};
ghost use Rattle.pb_dimacs.specs.CnfReading.{literal_number};
ghost use Rattle.pb_columns.specs.Columns.{IsBelow};

use pb_base::{Lit, Var};

/// True if the number is that of a literal whose variable is below the first fresh one.
pub(crate) fn is_below(number: i32, first: u32) -> bool
    ensures { IsTrue result ↔ IsBelow first number }
{
    let var = number.unsigned_abs();
    1 <= var && var < first
}

/// Returns the literal of a number: negated if the number is negative.
pub(crate) fn literal_of(number: i32) -> Lit
    requires low { 1 ≤ unsigned_abs number }
    requires high { unsigned_abs number < 2 ^ 31 }
    ensures number { literal_number result ≡ number }
    ensures var { result.var ≡ unsigned_abs number }
{
    Lit {
        var: Var::new(number.unsigned_abs()),
        positive: number > 0,
    }
}
