//! Advice from planning the groups of a problem once, for those who plan them again.
ghost use Rattle.std.specs.Prelude.{◌≡◌, ◌∷◌, ◌+◌, ◌<◌, ◌^◌, List, IfSome, IsTrue, OnOk, drop};
ghost use Rattle.pb_norm.specs.Constraints.{Constraint};
ghost use Rattle.pb_base.specs.declared.options.Options.{Options};
ghost use Rattle.pb_choice.specs.Choice.{IsSentToAdder};
ghost use Rattle.pb_choice.specs.EqualPlans.{IsEqualPlan, IsPlanOf};
ghost use Rattle.pb_encode.specs.declared.groups.Group.{Group};
ghost use Rattle.pb_encode.specs.declared.groups.Group.TheVariants.{Alone, Paired};
ghost use Rattle.pb_encode.specs.inner.GroupPlans.{IsGroupPlan};
ghost use Rattle.pb_encode.specs.inner.Hints.{AreHintsOf, IsAdderGroup, IsBlank, IsToldOf, StayHints};

use crate::group_plan::GroupPlan;
use pb_choice::{EqualPlan, Kept, Plan, Treatment};
use std::alloc::{AllocError, Global};

/// Advice on a group from an earlier plan of it, so that nothing expensive is built twice.
#[derive(Drop)]
pub enum Tells {
    /// The group goes to the adder: its other family passed the budget, or was not built.
    Adder,
    /// The diagram of its constraint, which took a search.
    Diagram(Kept),
}

/// Advice on one group, with the group's position among all groups, from 0.
#[derive(Drop)]
pub struct Hint {
    pub place: usize,
    pub tells: Tells,
}

// The most nodes of diagrams that are kept, of 32 bytes each.
const MOST_NODES: u64 = 1 << 20;

/// The advice that was noted so far on a walk over the groups, and how many groups were passed.
#[derive(Drop)]
pub struct Hints {
    list: Vec<Hint>,
    noted: usize,
    // How many nodes may still be kept, which bounds the memory that they take; no clause says so.
    room: u64,
}

// True only if the constraint goes to the adder.
fn is_adder(plan: &Plan<'_>) -> bool
    ensures { IsTrue result → IsSentToAdder plan.now.options plan.now.constraint.now }
{
    match plan.treatment() {
        Treatment::Adder => true,
        _ => false,
    }
}

// True only if the equality is encoded half by half, and both halves go to the adder.
fn are_halves_adders(plan: &EqualPlan<'_>) -> bool
    ensures { (o : Options) (c d : Constraint) → IsEqualPlan o c d plan.now → IsTrue result → IsAdderGroup o (Paired c d) }
{
    match plan {
        EqualPlan::Joint { exact: _, a: _ } => false,
        EqualPlan::Split(lower, upper) => is_adder(lower) && is_adder(upper),
    }
}

// True only if all constraints of a group go to the adder.
fn are_adders(plan: &GroupPlan<'_>) -> bool
    ensures { (o : Options) (g : Group) → IsGroupPlan o g plan.now → IsTrue result → IsAdderGroup o g }
{
    match plan {
        GroupPlan::Alone(plan) => is_adder(plan),
        GroupPlan::Paired(plan) => are_halves_adders(plan),
    }
}

// Returns the diagram of a single constraint as advice, if it has at most `room` fresh variables.
fn diagram_of(plan: Plan<'_>, room: u64) -> Option<Tells>
    ensures { (o : Options) (c : Constraint) → IsPlanOf o c plan.entry → IfSome result (IsToldOf o (Alone c)) }
{
    if plan.counts().fresh > room {
        return None;
    }
    match plan.into_kept() {
        Some(kept) => Some(Tells::Diagram(kept)),
        None => None,
    }
}

// Returns the advice to note on a group, if there is any; a diagram only if it has at most `room` fresh variables.
fn tells_of(plan: GroupPlan<'_>, room: u64) -> Option<Tells>
    ensures { (o : Options) (g : Group) → IsGroupPlan o g plan.entry → IfSome result (IsToldOf o g) }
{
    if are_adders(&plan) {
        return Some(Tells::Adder);
    }
    match plan.into_alone() {
        Some(plan) => diagram_of(plan, room),
        None => None,
    }
}

// Returns how many nodes the advice stores: one for each fresh variable of a diagram, and none of the adder.
fn nodes_of(tells: &Tells) -> u64 {
    match tells {
        Tells::Adder => 0,
        Tells::Diagram(kept) => kept.fresh(),
    }
}

impl Hints {
    /// Makes a list without advice, before the first group.
    pub fn new(alloc: Global) -> Self
        ensures { IsBlank result }
    {
        Hints {
            list: Vec::new(alloc),
            noted: 0,
            room: MOST_NODES,
        }
    }

    // Adds the advice on the next group, if there is any.
    fn push(&mut self, told: Option<Tells>) -> Result<(), AllocError>
        ensures stays { self.new.noted ≡ self.old.noted }
        ensures told { (o : Options) (gs rest : List Group) (g : Group) → drop self.old.noted gs ≡ g ∷ rest → IfSome told (IsToldOf o g) → OnOk result (StayHints o gs self.old self.new) }
    {
        let Some(tells) = told else {
            return Ok(());
        };
        self.room = self.room.saturating_sub(nodes_of(&tells));
        self.list.push(Hint {
            place: self.noted,
            tells,
        })?;
        Ok(())
    }

    /// Notes the advice on the next group, taken from its plan.
    pub fn note(&mut self, plan: GroupPlan<'_>) -> Result<(), AllocError>
        requires few { self.old.noted < 2 ^ 63 }
        ensures next { OnOk result (self.new.noted ≡ self.old.noted + 1) }
        ensures told { (o : Options) (gs rest : List Group) (g : Group) → drop self.old.noted gs ≡ g ∷ rest → IsGroupPlan o g plan.entry → OnOk result (StayHints o gs self.old self.new) }
    {
        self.push(tells_of(plan, self.room))?;
        self.noted += 1;
        Ok(())
    }

    /// Passes the next group, on which there is no advice.
    pub fn pass(&mut self)
        requires few { self.old.noted < 2 ^ 63 }
        ensures next { self.new.noted ≡ self.old.noted + 1 }
        ensures same { self.new.list ≡ self.old.list }
    {
        self.noted += 1;
    }

    /// Returns all advice that was noted, in the order of the groups.
    pub fn as_slice(&self) -> &[Hint]
        ensures { result.now ≡ self.now.list.items }
    {
        self.list.as_slice()
    }
}

// Splits off the advice on the group at a position, if the first of the remaining hints has that position. Returns it with the hints
// after it; else `None` with all hints.
fn taken<'a>(hints: &'a [Hint], place: usize) -> (Option<&'a Tells>, &'a [Hint])
    ensures told { (o : Options) (gs rest : List Group) (g : Group) → drop place gs ≡ g ∷ rest → AreHintsOf o gs hints.now → IfSome result.0 (λ tells. IsToldOf o g tells.now) }
    ensures left { (o : Options) (gs : List Group) → AreHintsOf o gs hints.now → AreHintsOf o gs result.1.now }
{
    match hints.split_first() {
        Some((hint, rest)) => {
            if hint.place == place {
                (Some(&hint.tells), rest)
            } else {
                (None, hints)
            }
        }
        None => (None, hints),
    }
}

/// The advice on the groups that are still to come.
#[derive(Drop)]
pub struct HintsLeft<'a> {
    hints: &'a [Hint],
    place: usize,
}

impl<'a> HintsLeft<'a> {
    /// Starts before the first group.
    pub fn of(hints: &'a [Hint]) -> Self
        ensures hints { result.hints.now ≡ hints.now }
        ensures first { result.place ≡ 0 }
    {
        HintsLeft { hints, place: 0 }
    }

    /// Returns the advice on the next group, if there is any, and passes that group.
    pub fn next(&mut self) -> Option<&'a Tells>
        requires few { self.old.place < 2 ^ 63 }
        ensures next { self.new.place ≡ self.old.place + 1 }
        ensures told { (o : Options) (gs rest : List Group) (g : Group) → drop self.old.place gs ≡ g ∷ rest → AreHintsOf o gs self.old.hints.now → IfSome result (λ t. IsToldOf o g t.now) }
        ensures left { (o : Options) (gs : List Group) → AreHintsOf o gs self.old.hints.now → AreHintsOf o gs self.new.hints.now }
    {
        let (told, rest) = taken(self.hints, self.place);
        self.hints = rest;
        self.place += 1;
        told
    }
}
