//! The literals of a counter and its fresh variables, and the clause at each place.
ghost use Rattle.std.specs.Prelude.{◌≤◌, ◌<◌, ◌+◌, ◌-◌, ◌*◌, ◌^◌, length};

use crate::place::{Place, place_at};
use pb_base::{Failed, Lit, Term};
use pb_family::{ClauseSink, NumberedClauses, emit_all, fresh_at};

/// Rows of fresh variables, one row for each literal but the last.
#[derive(Clone, Copy)]
pub struct Grid<'a> {
    pub terms: &'a [Term],
    pub width: usize,
    pub first: u32,
    ghost some: { 1 ≤ width },
    ghost two: { 2 ≤ length terms.now },
    ghost short: { length terms.now < 2 ^ 31 },
    ghost low: { 1 ≤ first },
    ghost high: { first + (length terms.now - 1) * width ≤ 2 ^ 31 },
}

impl Grid<'_> {
    ghost use Rattle.std.specs.Prelude.{◌≡◌, ◌≤◌, ◌<◌, ◌+◌, ◌*◌, length};
    ghost use Rattle.pb_base.specs.Literals.{negated};
    ghost use Rattle.pb_norm.specs.Constraints.{weights};
    ghost use Rattle.pb_norm.specs.Reduction.{lits_of};
    ghost use Rattle.pb_family.specs.Fresh.{literal_at};
    ghost use Rattle.pb_family.specs.Handing.{Hands};
    ghost use Rattle.pb_counter.specs.Counter.{count_bit, clause_at, counter_clauses, counter_size};
    ghost use Rattle.pb_counter.specs.inner.Order.{IsPlace, place_at};

    /// The place with a number.
    pub fn place(&self, number: usize) -> Place
        requires { number < counter_size (length self.now.terms.now) self.now.width }
        ensures is { result ≡ place_at (length self.now.terms.now) self.now.width number }
        ensures within { IsPlace (length self.now.terms.now) self.now.width result }
    {
        place_at(self.terms.len(), self.width, number)
    }

    /// The fresh variable that says that more than `place` literals are true up to the one of its row.
    fn bit(&self, row: usize, place: usize) -> Lit
        requires row { row + 1 < length self.now.terms.now }
        requires place { place < self.now.width }
        ensures { result ≡ count_bit self.now.first self.now.width row place }
    {
        fresh_at(self.first, row * self.width + place)
    }

    /// The negation of the literal at a place.
    fn not_at(&self, place: usize) -> Lit
        requires { place < length self.now.terms.now }
        ensures { result ≡ negated (literal_at (lits_of (weights self.now.terms.now)) place) }
    {
        self.terms[place].lit.not()
    }

    /// Hands over all the clauses.
    pub fn emit<S: ClauseSink>(&self, sink: &mut S) -> Result<(), Failed>
        ensures { Hands (counter_clauses (lits_of (weights self.now.terms.now)) self.now.width self.now.first) result (S.state sink.old) (S.state sink.new) }
    {
        emit_all(self, sink)
    }
}

impl NumberedClauses for Grid<'_> {
    ghost use Rattle.std.specs.Prelude.{length};
    ghost use Rattle.pb_norm.specs.Constraints.{weights};
    ghost use Rattle.pb_norm.specs.Reduction.{lits_of};
    ghost use Rattle.pb_counter.specs.Counter.{clause_at, counter_size};
    ghost use Rattle.pb_counter.specs.inner.Order.{place_at};

    ghost clause_count = { λ g. counter_size (length g.terms.now) g.width };

    ghost clause = { λ g k. clause_at (lits_of (weights g.terms.now)) g.width g.first (place_at (length g.terms.now) g.width k) };

    fn clauses(&self) -> usize {
        self.width + (self.terms.len() - 2) * (2 * self.width + 1) + 1
    }

    fn emit_one<S: ClauseSink>(&self, number: usize, sink: &mut S) -> Result<(), Failed> {
        match self.place(number) {
            Place::Start => sink.clause(&[self.not_at(0), self.bit(0, 0)]),
            Place::Below(j) => sink.clause(&[self.bit(0, j).not()]),
            Place::One(i) => sink.clause(&[self.not_at(i + 1), self.bit(i + 1, 0)]),
            Place::Keep(i, j) => sink.clause(&[self.bit(i, j).not(), self.bit(i + 1, j)]),
            Place::More(i, j) => sink.clause(&[
                self.not_at(i + 1),
                self.bit(i, j).not(),
                self.bit(i + 1, j + 1),
            ]),
            Place::Stop(i) => sink.clause(&[self.not_at(i + 1), self.bit(i, self.width - 1).not()]),
        }
    }
}
