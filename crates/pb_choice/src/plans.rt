//! How one constraint is encoded.
//!
//! A plan keeps its sum together with what was built of it. The sum was there while the family was built, so the most memory held
//! stays the same, and what a plan promises is said over the sum and the treatment alone, and names nothing inside a family.
ghost use Rattle.std.specs.Prelude.{◌≡◌, ◌≤◌, ◌<◌, ◌+◌, ◌^◌, IfSome};
ghost use Rattle.pb_norm.specs.Reduction.{rest_of, units_of};
ghost use Rattle.pb_family.specs.Families.{VarsBelow};
ghost use Rattle.pb_family.specs.Handing.{HandsIfMemory};
ghost use Rattle.pb_family.specs.StepSinks.{HandsFrom};
ghost use Rattle.pb_choice.specs.Choice.{treatment_of};
ghost use Rattle.pb_choice.specs.Clauses.{constraint_clauses, constraint_count, constraint_fresh};
ghost use Rattle.pb_choice.specs.ConstraintSteps.{constraint_steps};
ghost use Rattle.pb_choice.specs.declared.residual.Residual.TheVariants.{Sum};
ghost use Rattle.pb_choice.specs.Residual.{IsLeft};

use crate::chosen::Chosen;
use crate::derivation::derive_units;
use crate::emission::emit_units;
use crate::reducing::Origin;
use crate::residual::Residual;
use crate::treatment::Treatment;
use pb_base::{Lits, Options};
use pb_family::{ClauseSink, SinkResult, StepSink};
use pb_norm::Linear;
use std::alloc::Global;

/// The numbers of fresh variables and clauses of an encoding.
#[derive(Clone, Copy, Debug)]
pub struct Counts {
    pub fresh: u64,
    pub clauses: u64,
}

/// The encoding of a constraint under some options.
pub struct Plan<'a> {
    pub constraint: &'a Linear,
    pub options: Options,
    pub(crate) units: Lits,
    pub(crate) left: Residual<'a>,
    ghost units_are: { units ≡ units_of constraint.now },
    ghost left_is: { IsLeft options (rest_of constraint.now) left },
}

// Written out: a derived drop would stand in the proof of each function that owns a plan, at each way out, with all families.
// So it is one call there.
impl Drop for Plan<'_> {
    fn drop(self) {
        let Plan {
            constraint: _,
            options: _,
            units: _,
            left: _,
        } = self;
    }
}

impl Plan<'_> {
    /// Returns the numbers of fresh variables and clauses of the encoding; nothing is built for that.
    pub fn counts(&self) -> Counts
        // The number of fresh variables is the defined one.
        ensures fresh { result.fresh ≡ constraint_fresh self.now.options self.now.constraint.now }
        // The number of clauses is the defined one.
        ensures clauses { result.clauses ≡ constraint_count self.now.options self.now.constraint.now }
        ensures few_fresh { result.fresh < 2 ^ 63 }
        ensures few_clauses { result.clauses < 2 ^ 63 }
    {
        let _ = self.constraint.len();
        let units = self.units.len() as u64;
        Counts {
            fresh: self.left.fresh(),
            clauses: units + self.left.clauses(),
        }
    }

    /// Returns the treatment of the residual constraint, which says how it is encoded.
    pub fn treatment(&self) -> Treatment
        // The treatment is the defined one: by class, options and the budget, past which a cardinality or general constraint is sent to
        // the adder.
        ensures { result ≡ treatment_of self.now.options (rest_of self.now.constraint.now) }
    {
        self.left.treatment()
    }

    /// Returns the family that was built for the residual constraint, if one was.
    pub(crate) fn into_own(self) -> Option<Box<Chosen>>
        ensures { IfSome result (λ chosen. IsLeft self.entry.options (rest_of self.entry.constraint.now) (Sum chosen.value)) }
    {
        let Plan {
            constraint: _,
            options: _,
            units: _,
            left,
        } = self;
        left.into_own()
    }

    /// Emits the clauses: the units, and then those of the residual constraint, with the fresh variables from `first` on.
    pub fn emit<S: ClauseSink>(&self, alloc: Global, first: u32, sink: &mut S) -> SinkResult
        requires original { VarsBelow first self.now.constraint.now.terms }
        requires low { 1 ≤ first }
        requires fits { first + constraint_fresh self.now.options self.now.constraint.now ≤ 2 ^ 31 }
        // Exactly the constraint's clauses were emitted, in order, or a first part of their text until the sink failed or memory ran out.
        ensures { HandsIfMemory (constraint_clauses self.now.options self.now.constraint.now first) result (S.state sink.old) (S.state sink.new) }
    {
        emit_units(&self.units, sink)?;
        self.left.emit(alloc, first, sink)
    }

    /// Emits the steps that derive the plan's clauses from the constraint, which has the id: those of the units, and then those of the
    /// residual constraint.
    pub fn derive<T: StepSink>(
        &self,
        alloc: Global,
        first: u32,
        id: u64,
        sink: &mut T,
    ) -> SinkResult
        requires original { VarsBelow first self.now.constraint.now.terms }
        requires low { 1 ≤ first }
        requires fits { first + constraint_fresh self.now.options self.now.constraint.now ≤ 2 ^ 31 }
        requires given { 1 ≤ id }
        requires known { id < (T.state sink.old).next }
        requires few { (T.state sink.old).next + 2 ^ 31 ≤ 2 ^ 61 }
        // Exactly the steps that derive the clauses from the constraint were emitted, or the first ones until the sink failed or memory
        // ran out.
        ensures { HandsFrom (constraint_steps self.now.options self.now.constraint.now first id) result (T.state sink.old) (T.state sink.new) }
    {
        // Brings in that its terms are few.
        let _ = self.constraint.len();
        let origin = Origin {
            constraint: self.constraint,
            units: &self.units,
            id,
        };
        derive_units(alloc, &self.units, id, sink)?;
        self.left.derive(alloc, &origin, first, sink)
    }
}
