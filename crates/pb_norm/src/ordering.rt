//! The terms of a constraint in another order.
ghost use Rattle.std.specs.Prelude.{◌≡◌};
ghost use Rattle.pb_norm.specs.Constraints.{weights};
ghost use Rattle.pb_norm.specs.Reduction.{by_weight};

use crate::at_most::sort_by_weight;
use crate::linear::Linear;
use pb_base::Terms;

/// The terms of a constraint by their coefficients downwards, then by their variables.
pub fn by_weight(constraint: Linear) -> Terms
    // The terms are the constraint's, by coefficients downwards and then by variables.
    ensures { weights result ≡ by_weight constraint.terms }
{
    let mut terms = constraint.into_terms();
    sort_by_weight(&mut terms);
    Terms::from_vec(terms)
}
