//! Families that are kept from one plan of a constraint to the next.
ghost use Rattle.std.specs.Prelude.{◌≡◌, ◌<◌, ◌^◌, IfOk, IfSome};
ghost use Rattle.pb_norm.specs.Constraints.{weight};
ghost use Rattle.pb_choice.specs.Kept.{IsKeptOf};

use crate::chosen::Chosen;
use crate::known::Known;
use crate::planning::plan_by;
use crate::plans::Plan;
use crate::treatment::Treatment;
use pb_base::{NoMemory, Options};
use pb_family::Family;
use pb_norm::Linear;
use std::alloc::Global;
use std::marker::Model;

/// A family that was built for a constraint, kept for whoever plans it again.
#[derive(Drop)]
pub struct Kept {
    chosen: Box<Chosen>,
}

impl Model for Kept {
    ghost use Rattle.pb_choice.specs.declared.chosen.Chosen.{Chosen};

    ghost Value = { Chosen };

    ghost view = { λ k. k.chosen.value };
}

impl Kept {
    /// Returns the number of fresh variables of the stored family.
    pub fn fresh(&self) -> u64 {
        self.chosen.fresh()
    }
}

impl Plan<'_> {
    /// Returns the diagram that was built, if one was: it took a search, which whoever plans the constraint again need not make.
    pub fn into_kept(self) -> Option<Kept>
        // A diagram that is given is the one that these options and this constraint have.
        ensures { IfSome result (IsKeptOf self.entry.options self.entry.constraint.now) }
    {
        match self.treatment() {
            Treatment::Diagram => {}
            _ => return None,
        }
        match self.into_own() {
            Some(chosen) => Some(Kept { chosen }),
            None => None,
        }
    }
}

/// Plans the encoding of a constraint of which a family is kept.
pub fn plan_kept<'a>(
    alloc: Global,
    constraint: &'a Linear,
    options: &Options,
    kept: &'a Kept,
) -> Result<Plan<'a>, NoMemory>
    requires light { weight constraint.now.terms < 2 ^ 100 }
    requires kept { IsKeptOf options.now constraint.now kept.now }
    // The plan is of this constraint.
    ensures constraint { IfOk result (λ plan. plan.constraint.now ≡ constraint.now) }
    // The plan is by these options.
    ensures options { IfOk result (λ plan. plan.options ≡ options.now) }
{
    plan_by(alloc, constraint, options, Known::Kept(&kept.chosen))
}
