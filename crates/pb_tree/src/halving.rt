//! The halves of some terms, which are the parts of a node.
ghost use Rattle.std.specs.Prelude.{◌≤◌, length};
ghost use Rattle.pb_tree.specs.Halves.{Halves};

use pb_base::Term;

/// The two halves of some terms, the first no longer than the second (as in Bailleux and Boufkhad 2003).
pub fn halves(terms: &[Term]) -> (&[Term], &[Term])
    requires { 2 ≤ length terms.now }
    // The slices are the two halves of the terms, whose trees are the parts of the terms' tree.
    ensures { Halves terms.now result.0.now result.1.now }
{
    terms.split_at(terms.len() / 2)
}
