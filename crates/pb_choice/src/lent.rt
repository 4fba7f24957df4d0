//! A family that a plan has, or uses of another.
ghost use Rattle.std.specs.Prelude.{◌≡◌, IfSome};

use crate::chosen::Chosen;
use std::marker::Model;

/// A family that is owned, or borrowed from a store. It is boxed, so that the plan of a clause, which most constraints are, stays small.
pub enum Owner<'a> {
    Own(Box<Chosen>),
    Kept(&'a Chosen),
}

// Written out: one call in the proof of a function that owns it.
impl Drop for Owner<'_> {
    fn drop(self) {
        match self {
            Owner::Own(_) => {}
            Owner::Kept(_) => {}
        }
    }
}

impl Owner<'_> {
    ghost use Rattle.pb_choice.specs.inner.Lent.{chosen_in};

    // Returns the family if it is owned, and `None` if it is borrowed.
    fn into_own(self) -> Option<Box<Chosen>>
        ensures { IfSome result (λ chosen. chosen.value ≡ chosen_in self.entry) }
    {
        match self {
            Owner::Own(chosen) => Some(chosen),
            Owner::Kept(_) => None,
        }
    }
}

/// A family that was built for this plan, or one that was kept of an earlier one.
#[derive(Drop)]
pub struct Lent<'a> {
    owner: Owner<'a>,
}

impl<'a> Model for Lent<'a> {
    ghost use Rattle.pb_choice.specs.declared.chosen.Chosen.{Chosen};
    ghost use Rattle.pb_choice.specs.inner.Lent.{chosen_in};

    ghost Value = { Chosen };

    ghost view = { λ l. chosen_in l.owner };
}

impl<'a> Lent<'a> {
    /// Takes over a family that was built for this plan.
    pub fn own(chosen: Box<Chosen>) -> Lent<'a>
        ensures { result ≡ chosen.value }
    {
        Lent {
            owner: Owner::Own(chosen),
        }
    }

    /// Borrows a family that was stored by an earlier plan.
    pub fn kept(chosen: &'a Chosen) -> Lent<'a>
        ensures { result ≡ chosen.now }
    {
        Lent {
            owner: Owner::Kept(chosen),
        }
    }

    /// Returns the family, owned or borrowed.
    pub fn chosen(&self) -> &Chosen
        ensures { result.now ≡ self.now }
    {
        match &self.owner {
            Owner::Own(chosen) => chosen,
            Owner::Kept(chosen) => chosen,
        }
    }

    /// Returns the family if it was built for this plan, and `None` if it is borrowed.
    pub fn into_own(self) -> Option<Box<Chosen>>
        ensures { IfSome result (λ chosen. chosen.value ≡ self.entry) }
    {
        self.owner.into_own()
    }
}
