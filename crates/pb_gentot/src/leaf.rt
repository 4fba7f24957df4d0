//! The values of a leaf.
ghost use Rattle.std.specs.Prelude.{◌≡◌, ◌<◌, ◌^◌, length, IfOk};
ghost use Rattle.pb_norm.specs.Constraints.{weights};
ghost use Rattle.pb_tree.specs.Tree.{tree_of};
ghost use Rattle.pb_tree.specs.Scheme.{values};
ghost use Rattle.pb_gentot.specs.Generalized.{generalized};

use pb_base::Term;
use std::alloc::{AllocError, Global};

/// The one value of a leaf.
pub fn leaf_values(alloc: Global, terms: &[Term], bound: u128) -> Result<Vec<u128>, AllocError>
    requires one { length terms.now ≡ 1 }
    requires small { bound < 2 ^ 100 }
    ensures { IfOk result (λ made. made.items ≡ values (generalized bound) (tree_of (weights terms.now))) }
{
    let cap = bound + 1;
    let value = terms[0].weight().min(cap);
    let mut values = Vec::new(alloc);
    values.push(value)?;
    Ok(values)
}
