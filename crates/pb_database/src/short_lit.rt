//! Literals in four bytes.
ghost use Rattle.std.specs.Prelude.{◌≡◌};

use pb_base::{Lit, Var};
use std::marker::Model;

/// A literal: twice the number of its variable, and one more where it is positive.
#[derive(Drop)]
pub(crate) struct ShortLit {
    code: u32,
}

impl Model for ShortLit {
    ghost use Rattle.std.specs.Prelude.{◌≤◌};
    ghost use Rattle.pb_base.specs.declared.literal.Lit.{Lit};
    ghost use Rattle.pb_database.specs.inner.ShortLits.{lit_of};

    ghost Value = { Lit };

    ghost view = { λ l. lit_of l.code };

    ghost invariant = { λ l. 2 ≤ l.code };
}

impl ShortLit {
    /// Packs a literal into four bytes.
    pub(crate) fn of(lit: &Lit) -> ShortLit
        ensures { result ≡ lit.now }
    {
        let low = if lit.positive { 1 } else { 0 };
        ShortLit {
            code: lit.index() * 2 + low,
        }
    }

    /// Returns the literal.
    pub(crate) fn get(&self) -> Lit
        ensures { result ≡ self.now }
    {
        Lit {
            var: Var::new(self.code / 2),
            positive: self.code % 2 == 1,
        }
    }
}
