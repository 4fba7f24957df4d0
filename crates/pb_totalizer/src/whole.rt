//! The terms of a totalizer, with its fresh variables.
ghost use Rattle.pb_totalizer.specs.inner.Wholes.{IsWhole};

use pb_base::Term;
use pb_tree::{Parts, TreeSum};
use std::alloc::{AllocError, Global};

/// The terms of a totalizer, each of which counts 1, their bound, and the first of the fresh variables.
#[derive(Clone, Copy)]
pub struct Whole<'a> {
    pub terms: &'a [Term],
    pub bound: u64,
    pub first: u32,
    ghost whole: { IsWhole terms.now bound first },
}

impl<'a> TreeSum for Whole<'a> {
    ghost use Rattle.std.specs.List.{range_with_len};
    ghost use Rattle.pb_totalizer.specs.Totalizer.{totalizer};
    ghost use Rattle.pb_totalizer.specs.laws.WholeSums.{whole_sum};

    // How many values there are, which count from 1.
    type Values = u64;

    ghost scheme = { λ w. totalizer w.bound };

    ghost all = { λ w. w.terms.now };

    ghost start = { λ w. w.first };

    ghost list = { λ count. range_with_len 1 count };

    fn terms(&self) -> &[Term] {
        self.terms
    }

    fn first(&self) -> u32 {
        self.first
    }

    fn leaf_values(&self, _alloc: Global, _terms: &[Term]) -> Result<u64, AllocError> {
        Ok(1)
    }

    fn node_values(&self, _alloc: Global, parts: &Parts<u64>) -> Result<u64, AllocError> {
        Ok((*parts.left + *parts.right).min(self.bound + 1))
    }

    fn count(&self, values: &u64) -> u64 {
        *values
    }

    fn value(&self, _values: &u64, place: u64) -> u128 {
        place as u128 + 1
    }

    ghost holds = { λ w. whole_sum w.whole };
}
