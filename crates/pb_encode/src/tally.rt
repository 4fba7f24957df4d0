//! Counts of what is encoded.
ghost use Rattle.std.specs.Prelude.{◌≡◌, ◌<◌, ◌≤◌, ◌^◌, [], ◌∷◌, List, length};
ghost use Rattle.pb_base.specs.declared.literal.Lit.{Lit as LitOf};
ghost use Rattle.pb_norm.specs.Constraints.{Constraint};
ghost use Rattle.pb_base.specs.declared.options.Options.{Options};
ghost use Rattle.pb_choice.specs.EqualPlans.{HasPartsOf, IsEqualPlan};
ghost use Rattle.pb_encode.specs.declared.groups.Group.{Group};
ghost use Rattle.pb_encode.specs.Groups.{size_total};
ghost use Rattle.pb_encode.specs.declared.groups.Group.TheVariants.{Alone, Paired};
ghost use Rattle.pb_encode.specs.inner.GroupPlans.{IsGroupPlan};
ghost use Rattle.pb_encode.specs.inner.Plain.{ones_of};
ghost use Rattle.pb_encode.specs.Summaries.{place_of, treated, treatments_of};

use crate::group_plan::GroupPlan;
use crate::summary::Treatments;
use pb_choice::{EqualPlan, Plan, Treatment};

/// The numbers of fresh variables, of clauses, and of constraints by treatment. Treatments come in the order of the summary, the
/// equalities that are encoded as one last. A count stops at the greatest value of its type.
#[derive(Drop)]
pub struct Tally {
    pub fresh: u64,
    pub clauses: u64,
    pub treated: [u64; 12],
}

// Returns the position of a treatment in the summary, from 0 to 11.
fn place_of(treatment: Treatment) -> usize
    ensures place { result ≡ place_of treatment }
    ensures within { result < 12 }
{
    treatment as usize
}

impl Tally {
    ghost use Rattle.pb_encode.specs.inner.Tallies.{AddsJoint, Counts, IsTally};

    /// Makes the tally of no constraint.
    pub fn new() -> Self
        ensures { (o : Options) → IsTally o [] result }
    {
        Tally {
            fresh: 0,
            clauses: 0,
            treated: [0; 12],
        }
    }

    // Counts one more constraint.
    fn add(&mut self, plan: &Plan)
        ensures { Counts plan.now.options self.old self.new (Alone plan.now.constraint.now ∷ []) }
    {
        let counts = plan.counts();
        self.fresh = self.fresh.saturating_add(counts.fresh);
        self.clauses = self.clauses.saturating_add(counts.clauses);
        let place = place_of(plan.treatment());
        self.treated[place] = self.treated[place].saturating_add(1);
    }

    /// Counts one more constraint, which is a clause.
    pub fn add_clause(&mut self)
        ensures { (o : Options) (ls : List LitOf) → 2 ≤ length ls → Counts o self.old self.new (Alone (ones_of ls) ∷ []) }
    {
        self.clauses = self.clauses.saturating_add(1);
        let place = place_of(Treatment::Clause);
        self.treated[place] = self.treated[place].saturating_add(1);
    }

    // Counts the two halves of an equality that is encoded as one.
    fn add_joint(&mut self, fresh: u64, clauses: u64)
        ensures { AddsJoint fresh clauses self.old self.new }
    {
        self.fresh = self.fresh.saturating_add(fresh);
        self.clauses = self.clauses.saturating_add(clauses);
        self.treated[11] = self.treated[11].saturating_add(2);
    }

    // Counts the two halves of one more equality.
    fn add_equal(&mut self, plan: &EqualPlan<'_>)
        ensures { (o : Options) (c d : Constraint) → IsEqualPlan o c d plan.now → HasPartsOf o c d plan.now → Counts o self.old self.new (Paired c d ∷ []) }
    {
        match plan {
            EqualPlan::Joint { exact: _, a: _ } => {
                let counts = plan.counts();
                self.add_joint(counts.fresh, counts.clauses);
            }
            EqualPlan::Split(lower, upper) => {
                self.add(lower);
                self.add(upper);
            }
        }
    }

    /// Counts the constraints of one more group.
    pub fn add_group(&mut self, plan: &GroupPlan<'_>)
        ensures { (o : Options) (g : Group) → IsGroupPlan o g plan.now → Counts o self.old self.new (g ∷ []) }
    {
        match plan {
            GroupPlan::Alone(plan) => self.add(plan),
            GroupPlan::Paired(plan) => self.add_equal(plan),
        }
    }

    // Returns the number of constraints with the treatment at a position of the summary.
    fn treated_at(&self, place: usize) -> u64
        requires { place < 12 }
        ensures { (o : Options) (gs : List Group) → size_total gs < 2 ^ 64 → IsTally o gs self.now → result ≡ treated o place gs }
    {
        self.treated[place]
    }

    /// Returns the counts of the treatments, as the summary has them.
    pub fn treatments(&self) -> Treatments
        ensures { (o : Options) (gs : List Group) → size_total gs < 2 ^ 64 → IsTally o gs self.now → result ≡ treatments_of o gs }
    {
        Treatments {
            nothing: self.treated_at(0),
            empty: self.treated_at(1),
            clause: self.treated_at(2),
            pairwise: self.treated_at(3),
            ladder: self.treated_at(4),
            product: self.treated_at(5),
            counter: self.treated_at(6),
            totalizer: self.treated_at(7),
            diagram: self.treated_at(8),
            tree: self.treated_at(9),
            adder: self.treated_at(10),
            joint: self.treated_at(11),
        }
    }
}
