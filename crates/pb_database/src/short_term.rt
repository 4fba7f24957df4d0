//! Terms in eight bytes.
ghost use Rattle.std.specs.Prelude.{◌≡◌, IfSome};
ghost use Rattle.pb_norm.specs.Constraints.{weighted, term_of};

use crate::short_lit::ShortLit;
use pb_base::{Term, Var};
use std::marker::Model;

/// A term whose coefficient takes 32 bits.
#[derive(Drop)]
pub(crate) struct ShortTerm {
    coef: u32,
    lit: ShortLit,
}

impl Model for ShortTerm {
    ghost use Rattle.pb_norm.specs.Constraints.{Weighted};

    ghost Value = { Weighted };

    ghost view = { λ t. record { coef = t.coef; lit = t.lit } };
}

impl ShortTerm {
    /// Packs a term into eight bytes, if its coefficient takes 32 bits.
    pub(crate) fn of(term: &Term) -> Option<ShortTerm>
        ensures { IfSome result (λ t. t ≡ weighted term.now) }
    {
        let coef = term.weight();
        if coef > u32::MAX as u128 {
            return None;
        }
        Some(ShortTerm {
            coef: coef as u32,
            lit: ShortLit::of(&term.lit),
        })
    }

    /// Returns the term.
    pub(crate) fn get(&self) -> Term
        ensures { result ≡ term_of self.now }
    {
        Term::weighing(self.coef as u128, self.lit.get())
    }

    /// Returns the variable of the term's literal.
    pub(crate) fn var(&self) -> Var
        ensures { result ≡ self.now.lit.var }
    {
        self.lit.get().var
    }
}
