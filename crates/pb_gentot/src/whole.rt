//! The terms of a generalized totalizer, with its fresh variables.
ghost use Rattle.pb_gentot.specs.inner.Wholes.{IsWhole};

use crate::leaf::leaf_values;
use crate::sets::values_over;
use pb_base::Term;
use pb_tree::{Parts, TreeSum};
use std::alloc::{AllocError, Global};

/// The terms of a generalized totalizer, their bound, and the first of the fresh variables.
#[derive(Clone, Copy)]
pub struct Whole<'a> {
    pub terms: &'a [Term],
    pub bound: u128,
    pub first: u32,
    ghost whole: { IsWhole terms.now bound first },
}

impl<'a> TreeSum for Whole<'a> {
    ghost use Rattle.pb_gentot.specs.Generalized.{generalized};
    ghost use Rattle.pb_gentot.specs.laws.WholeSums.{whole_sum};

    type Values = Vec<u128>;

    ghost scheme = { λ w. generalized w.bound };

    ghost all = { λ w. w.terms.now };

    ghost start = { λ w. w.first };

    ghost list = { λ values. values.items };

    fn terms(&self) -> &[Term] {
        self.terms
    }

    fn first(&self) -> u32 {
        self.first
    }

    fn leaf_values(&self, alloc: Global, terms: &[Term]) -> Result<Vec<u128>, AllocError> {
        leaf_values(alloc, terms, self.bound)
    }

    fn node_values(
        &self,
        alloc: Global,
        parts: &Parts<Vec<u128>>,
    ) -> Result<Vec<u128>, AllocError> {
        let cap = self.bound + 1;
        values_over(alloc, parts.left.as_slice(), parts.right.as_slice(), cap)
    }

    fn count(&self, values: &Vec<u128>) -> u64 {
        values.len() as u64
    }

    fn value(&self, values: &Vec<u128>, place: u64) -> u128 {
        values[place as usize]
    }

    ghost holds = { λ w. whole_sum w.whole };
}
