//! Terms in little room.
ghost use Rattle.std.specs.Prelude.{[], ◌∷◌, ◌++◌, ◌≡◌, ◌≤◌, ◌<◌, OnOk, OnErr, length, map, take, drop};
ghost use Rattle.std.specs.Iterator.{YieldsFirstBy, item_count};
ghost use Rattle.pb_base.specs.inner.Packing.{term_in, AreTermsKept};

use crate::fault::NoMemory;
use crate::literal::Term;
use crate::packed::{PackedLit, PackedTerm, pack, unpack};
use std::alloc::Global;
use std::marker::Model;

/// Terms in order: eight bytes each, and sixteen more where 31 bits cannot hold the coefficient.
pub struct TermColumn {
    terms: Vec<PackedTerm>,
    wide: Vec<i128>,
}

// Written out: one call in the proof of a function that owns it.
impl Drop for TermColumn {
    fn drop(self) {
        let TermColumn { terms: _, wide: _ } = self;
    }
}

impl Model for TermColumn {
    ghost use Rattle.std.specs.Prelude.{List, map};
    ghost use Rattle.pb_base.specs.declared.literal.Term.{Term};
    ghost use Rattle.pb_base.specs.inner.Packing.{term_in, AreTermsKept};

    ghost Value = { List Term };

    ghost view = { λ c. map (term_in c.wide.items) c.terms.items };

    ghost invariant = { λ c. AreTermsKept c.wide.items c.terms.items };
}

// Adds a term at the end, if there is memory.
fn push_term(terms: &mut Vec<PackedTerm>, wide: &mut Vec<i128>, term: &Term) -> Result<(), NoMemory>
    requires { AreTermsKept wide.old.items terms.old.items }
    ensures kept { AreTermsKept wide.new.items terms.new.items }
    ensures ok { OnOk result (map (term_in wide.new.items) terms.new.items ≡ map (term_in wide.old.items) terms.old.items ++ term.now ∷ []) }
    ensures err { OnErr result (map (term_in wide.new.items) terms.new.items ≡ map (term_in wide.old.items) terms.old.items) }
{
    let coef = pack(wide, term.coef)?;
    terms.push(PackedTerm {
        coef,
        lit: PackedLit::new(&term.lit),
    })?;
    Ok(())
}

impl TermColumn {
    /// No term.
    pub fn new(alloc: Global) -> TermColumn
        ensures { result ≡ [] }
    {
        TermColumn {
            terms: Vec::new(alloc),
            wide: Vec::new(alloc),
        }
    }

    /// How many terms there are.
    pub fn len(&self) -> usize
        ensures { result ≡ length self.now }
    {
        self.terms.len()
    }

    /// Adds a term at the end.
    pub fn push(&mut self, term: &Term) -> Result<(), NoMemory>
        ensures ok { OnOk result (self.new ≡ self.old ++ term.now ∷ []) }
        ensures err { OnErr result (self.new ≡ self.old) }
    {
        push_term(&mut self.terms, &mut self.wide, term)
    }

    /// Leaves the first so many terms alone.
    pub fn truncate(&mut self, count: usize)
        ensures { self.new ≡ take count self.old }
    {
        self.terms.truncate(count);
    }

    /// The terms, one after another.
    pub fn iter(&self) -> TermsLeft<'_>
        ensures { result ≡ self.now }
    {
        TermsLeft {
            terms: self.terms.as_slice(),
            wide: self.wide.as_slice(),
        }
    }
}

/// The terms that are left of some.
#[derive(Drop)]
pub struct TermsLeft<'a> {
    terms: &'a [PackedTerm],
    wide: &'a [i128],
}

impl<'a> Model for TermsLeft<'a> {
    ghost use Rattle.std.specs.Prelude.{List, map};
    ghost use Rattle.pb_base.specs.declared.literal.Term.{Term};
    ghost use Rattle.pb_base.specs.inner.Packing.{term_in};

    ghost Value = { List Term };

    ghost view = { λ t. map (term_in t.wide.now) t.terms.now };
}

impl<'a> TermsLeft<'a> {
    /// The first so many of them, which are taken.
    pub fn take_front(&mut self, count: usize) -> TermsLeft<'a>
        requires { count ≤ length self.old }
        ensures front { result ≡ take count self.old }
        ensures rest { self.new ≡ drop count self.old }
    {
        let (terms, behind) = self.terms.split_at(count);
        self.terms = behind;
        TermsLeft {
            terms,
            wide: self.wide,
        }
    }
}

impl<'a> Iterator for TermsLeft<'a> {
    type Item = Term;

    ghost next_gives = { YieldsFirstBy (λ t. t) (λ t. t) };

    ghost remaining = { item_count (λ t. t) };

    fn next(&mut self) -> Option<Term> {
        let (first, rest) = self.terms.split_first()?;
        self.terms = rest;
        Some(Term {
            coef: unpack(self.wide, first.coef),
            lit: first.lit.lit(),
        })
    }
}
