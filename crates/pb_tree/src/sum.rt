//! Sums along whose tree of halves each part has values.
ghost use Rattle.std.specs.Prelude.{◌≡◌, ◌<◌, ℕ, List, length, slice_index, IfOk};
ghost use Rattle.pb_base.specs.declared.literal.Term.{Term};
ghost use Rattle.pb_norm.specs.Constraints.{weights};
ghost use Rattle.pb_tree.specs.Scheme.{Scheme, values};
ghost use Rattle.pb_tree.specs.Tree.{tree_of};
ghost use Rattle.pb_tree.specs.Walks.{AreParts, IsTreeSum, Suits, fresh_over};

use crate::walk::Parts;
use pb_base::Term;
use std::alloc::{AllocError, Global};

/// A sum with the first of its fresh variables, which gives the values of each part of its tree.
pub trait TreeSum {
    /// The values of a part.
    type Values: Drop;

    /// The scheme of the tree.
    ghost scheme: { Self → Scheme };

    /// The terms.
    ghost all: { Self → List Term };

    /// The first fresh variable.
    ghost start: { Self → ℕ };

    /// The values as a list.
    ghost list: { Self.Values → List ℕ };

    /// The terms.
    fn terms(&self) -> &[Term]
        ensures { result.now ≡ all self.now };

    /// The first fresh variable.
    fn first(&self) -> u32
        ensures { result ≡ start self.now };

    /// The values of a leaf.
    fn leaf_values(&self, alloc: Global, terms: &[Term]) -> Result<Self::Values, AllocError>
        requires { length terms.now ≡ 1 }
        ensures { IfOk result (λ made. list made ≡ values (scheme self.now) (tree_of (weights terms.now))) };

    /// The values of a node, by those of its parts.
    fn node_values(
        &self,
        alloc: Global,
        parts: &Parts<Self::Values>,
    ) -> Result<Self::Values, AllocError>
        requires suits { Suits (scheme self.now) (fresh_over (scheme self.now) (all self.now)) parts.now.terms.now parts.now.before }
        requires parts { AreParts (scheme self.now) parts.now.terms.now parts.now.lefts.now parts.now.rights.now parts.now.before parts.now.next }
        requires left { list parts.now.left.now ≡ values (scheme self.now) (tree_of (weights parts.now.lefts.now)) }
        requires right { list parts.now.right.now ≡ values (scheme self.now) (tree_of (weights parts.now.rights.now)) }
        ensures { IfOk result (λ made. list made ≡ values (scheme self.now) (tree_of (weights parts.now.terms.now))) };

    /// How many values there are.
    fn count(&self, values: &Self::Values) -> u64
        ensures { result ≡ length (list values.now) };

    /// The value at a place.
    fn value(&self, values: &Self::Values, place: u64) -> u128
        requires { place < length (list values.now) }
        ensures { result ≡ slice_index (list values.now) place };

    /// The terms have a tree, and the numbers of all parts are within their limits.
    ghost holds: { (f : Self) → IsTreeSum (scheme f) (all f) (start f) };
}
