//! What is left of a constraint once its units are taken.

use crate::chosen::Chosen;
use crate::derivation::derive_reduced;
use crate::emission::emit_one;
use crate::lent::Lent;
use crate::reducing::{Origin, reducing_step};
use crate::treatment::Treatment;
use pb_base::{Lits, NoMemory};
use pb_family::{ClauseSink, Family, SinkResult, StepSink, derive_propagated};
use std::alloc::Global;

/// A residual constraint, with the family that was chosen for it.
pub enum Residual<'a> {
    /// Nothing.
    Nothing,
    /// The empty clause.
    Empty,
    /// A clause.
    Clause(Lits),
    /// A sum that is to stay within its bound.
    Sum(Lent<'a>),
}

// Written out: one call in the proof of a function that owns it.
impl Drop for Residual<'_> {
    fn drop(self) {
        match self {
            Residual::Nothing | Residual::Empty => {}
            Residual::Clause(_) => {}
            Residual::Sum(_) => {}
        }
    }
}

impl<'a> Residual<'a> {
    ghost use Rattle.std.specs.Prelude.{◌≡◌, IfOk};
    ghost use Rattle.pb_choice.specs.declared.residual.Residual.TheVariants.{Sum};

    /// Stores a sum with the family that was built for it.
    pub fn own(alloc: Global, chosen: Chosen) -> Result<Residual<'a>, NoMemory>
        ensures { IfOk result (λ left. left ≡ Sum chosen) }
    {
        let chosen = Box::new(alloc, chosen)?;
        Ok(Residual::Sum(Lent::own(chosen)))
    }
}

impl Residual<'_> {
    ghost use Rattle.std.specs.Prelude.{◌≡◌, ◌≤◌, ◌+◌, ◌<◌, ◌^◌, IfSome};
    ghost use Rattle.pb_choice.specs.declared.residual.Residual.TheVariants.{Sum};
    ghost use Rattle.pb_family.specs.Families.{VarsBelow};
    ghost use Rattle.pb_family.specs.Handing.{HandsIfMemory};
    ghost use Rattle.pb_family.specs.StepSinks.{HandsFrom};
    ghost use Rattle.pb_choice.specs.Reducing.{reduction};
    ghost use Rattle.pb_choice.specs.Residual.{left_clauses, left_count, left_fresh, left_steps, left_terms, left_treatment};

    /// Returns the treatment of the residual constraint.
    pub fn treatment(&self) -> Treatment
        ensures { result ≡ left_treatment self.now }
    {
        match self {
            Residual::Nothing => Treatment::Nothing,
            Residual::Empty => Treatment::Empty,
            Residual::Clause(_) => Treatment::Clause,
            Residual::Sum(lent) => lent.chosen().treatment(),
        }
    }

    /// Returns the family, if one was built for this plan.
    pub fn into_own(self) -> Option<Box<Chosen>>
        ensures { IfSome result (λ chosen. self.entry ≡ Sum chosen.value) }
    {
        match self {
            Residual::Sum(lent) => lent.into_own(),
            _ => None,
        }
    }

    /// Returns the number of fresh variables: 0 for a clause or less.
    pub fn fresh(&self) -> u64
        ensures { result ≡ left_fresh self.now }
    {
        match self {
            Residual::Nothing | Residual::Empty | Residual::Clause(_) => 0,
            Residual::Sum(lent) => lent.chosen().fresh(),
        }
    }

    /// Returns the number of clauses: 0 if nothing is left, 1 for a clause or the empty one.
    pub fn clauses(&self) -> u64
        ensures { result ≡ left_count self.now }
    {
        match self {
            Residual::Nothing => 0,
            Residual::Empty | Residual::Clause(_) => 1,
            Residual::Sum(lent) => lent.chosen().clauses(),
        }
    }

    /// Emits the clauses of the residual constraint, with the fresh variables from `first` on.
    pub fn emit<S: ClauseSink>(&self, alloc: Global, first: u32, sink: &mut S) -> SinkResult
        requires original { VarsBelow first (left_terms self.now) }
        requires low { 1 ≤ first }
        requires fits { first + left_fresh self.now ≤ 2 ^ 31 }
        ensures { HandsIfMemory (left_clauses self.now first) result (S.state sink.old) (S.state sink.new) }
    {
        match self {
            Residual::Nothing => Ok(()),
            Residual::Empty => emit_one(&[], sink),
            Residual::Clause(lits) => emit_one(lits.as_slice(), sink),
            Residual::Sum(lent) => lent.chosen().emit(alloc, first, sink),
        }
    }

    /// Emits the steps that derive the clauses of the residual constraint, with the fresh variables from `first` on.
    pub fn derive<T: StepSink>(
        &self,
        alloc: Global,
        origin: &Origin<'_>,
        first: u32,
        sink: &mut T,
    ) -> SinkResult
        requires original { VarsBelow first (left_terms self.now) }
        requires low { 1 ≤ first }
        requires fits { first + left_fresh self.now ≤ 2 ^ 31 }
        requires few { (T.state sink.old).next < 2 ^ 61 }
        requires given { 1 ≤ (T.state sink.old).next }
        ensures { HandsFrom (left_steps (reduction origin.now.id origin.now.units.now origin.now.constraint.now) self.now first origin.now.id) result (T.state sink.old) (T.state sink.new) }
    {
        match self {
            Residual::Nothing => Ok(()),
            Residual::Empty => derive_propagated(alloc, &[origin.id], &[], sink),
            Residual::Clause(lits) => {
                derive_propagated(alloc, &[origin.id], lits.as_slice(), sink)
            }
            Residual::Sum(lent) => {
                let step = reducing_step(alloc, origin)?;
                derive_reduced(alloc, lent.chosen(), &step, first, sink)
            }
        }
    }
}
