//! The literals of a ladder and its fresh variables, and the clause at each place.
ghost use Rattle.std.specs.Prelude.{◌≤◌, ◌<◌, ◌+◌, ◌^◌, length};

use crate::rung::{Place, place_at};
use pb_base::{Failed, Lit, Term};
use pb_family::{ClauseSink, NumberedClauses, emit_all, fresh_at};

/// A fresh variable for each literal but the last.
#[derive(Clone, Copy)]
pub struct Rungs<'a> {
    pub terms: &'a [Term],
    pub first: u32,
    ghost three: { 3 ≤ length terms.now },
    ghost few: { length terms.now < 2 ^ 31 },
    ghost low: { 1 ≤ first },
    ghost fits: { first + length terms.now ≤ 2 ^ 31 + 1 },
}

impl Rungs<'_> {
    ghost use Rattle.std.specs.Prelude.{◌≡◌, ◌<◌, ◌+◌, ◌-◌, ◌*◌, [], ◌∷◌, length};
    ghost use Rattle.pb_base.specs.Literals.{negated};
    ghost use Rattle.pb_norm.specs.Constraints.{weights};
    ghost use Rattle.pb_norm.specs.Reduction.{lits_of};
    ghost use Rattle.pb_family.specs.Fresh.{fresh_at, literal_at};
    ghost use Rattle.pb_family.specs.Handing.{Hands};
    ghost use Rattle.pb_amo.specs.Ladder.{ladder_clauses};
    ghost use Rattle.pb_amo.specs.LadderSteps.{clause_at};
    ghost use Rattle.pb_amo.specs.inner.LadderOrder.{place_at};

    /// The fresh variable that says that some literal after a place is true.
    fn bit(&self, place: usize) -> Lit
        requires { place + 1 < length self.now.terms.now }
        ensures { result ≡ fresh_at self.now.first place }
    {
        fresh_at(self.first, place)
    }

    /// The negation of the literal at a place.
    fn not_at(&self, place: usize) -> Lit
        requires { place < length self.now.terms.now }
        ensures { result ≡ negated (literal_at (lits_of (weights self.now.terms.now)) place) }
    {
        self.terms[place].lit.not()
    }

    /// The two literals of the clause with a number.
    pub fn pair(&self, number: usize) -> (Lit, Lit)
        requires { number < 3 * length self.now.terms.now - 4 }
        ensures { (result.0 ∷ result.1 ∷ []) ≡ clause_at (lits_of (weights self.now.terms.now)) self.now.first (place_at (length self.now.terms.now) number) }
    {
        match place_at(self.terms.len(), number) {
            Place::Link(k) => (self.bit(k + 1).not(), self.bit(k)),
            Place::NoneAfter(k) => (self.not_at(k), self.bit(k).not()),
            Place::SomeAfter(k) => (self.not_at(k + 1), self.bit(k)),
        }
    }

    /// Hands over all the clauses.
    pub fn emit<S: ClauseSink>(&self, sink: &mut S) -> Result<(), Failed>
        ensures { Hands (ladder_clauses (lits_of (weights self.now.terms.now)) self.now.first) result (S.state sink.old) (S.state sink.new) }
    {
        emit_all(self, sink)
    }
}

impl NumberedClauses for Rungs<'_> {
    ghost use Rattle.std.specs.Prelude.{◌-◌, ◌*◌, length};
    ghost use Rattle.pb_norm.specs.Constraints.{weights};
    ghost use Rattle.pb_norm.specs.Reduction.{lits_of};
    ghost use Rattle.pb_amo.specs.LadderSteps.{clause_at};
    ghost use Rattle.pb_amo.specs.inner.LadderOrder.{place_at};

    ghost clause_count = { λ r. 3 * length r.terms.now - 4 };

    ghost clause = { λ r k. clause_at (lits_of (weights r.terms.now)) r.first (place_at (length r.terms.now) k) };

    fn clauses(&self) -> usize {
        3 * self.terms.len() - 4
    }

    fn emit_one<S: ClauseSink>(&self, number: usize, sink: &mut S) -> Result<(), Failed> {
        let (one, two) = self.pair(number);
        sink.clause(&[one, two])
    }
}
