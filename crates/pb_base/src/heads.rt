//! What statements have beside their terms, in little room.
ghost use Rattle.std.specs.Prelude.{[], ◌∷◌, ◌++◌, ◌≡◌, OnOk, OnErr, length, map};
ghost use Rattle.std.specs.Iterator.{YieldsFirstBy, item_count};
ghost use Rattle.pb_base.specs.inner.Packing.{head_in, AreHeadsKept};

use crate::fault::NoMemory;
use crate::packed::{pack, unpack};
use crate::problem::Relation;
use std::alloc::Global;
use std::marker::Model;

/// What a statement has beside its terms.
#[derive(Clone, Copy)]
pub struct Head {
    /// How many terms it has.
    pub terms: u32,
    pub relation: Relation,
    pub right: i128,
}

/// A head in twelve bytes, with the code of the right side.
#[derive(Drop)]
pub(crate) struct PackedHead {
    pub terms: u32,
    pub right: u32,
    pub relation: Relation,
}

/// Heads of statements in order: twelve bytes each, and sixteen more where 31 bits cannot hold the right side.
pub struct Heads {
    heads: Vec<PackedHead>,
    wide: Vec<i128>,
}

// Written out: one call in the proof of a function that owns it.
impl Drop for Heads {
    fn drop(self) {
        let Heads { heads: _, wide: _ } = self;
    }
}

impl Model for Heads {
    ghost use Rattle.std.specs.Prelude.{List, map};
    ghost use Rattle.pb_base.specs.declared.heads.Head.{Head};
    ghost use Rattle.pb_base.specs.inner.Packing.{head_in, AreHeadsKept};

    ghost Value = { List Head };

    ghost view = { λ h. map (head_in h.wide.items) h.heads.items };

    ghost invariant = { λ h. AreHeadsKept h.wide.items h.heads.items };
}

// Adds a head at the end, if there is memory.
fn push_head(heads: &mut Vec<PackedHead>, wide: &mut Vec<i128>, head: Head) -> Result<(), NoMemory>
    requires { AreHeadsKept wide.old.items heads.old.items }
    ensures kept { AreHeadsKept wide.new.items heads.new.items }
    ensures ok { OnOk result (map (head_in wide.new.items) heads.new.items ≡ map (head_in wide.old.items) heads.old.items ++ head ∷ []) }
    ensures err { OnErr result (map (head_in wide.new.items) heads.new.items ≡ map (head_in wide.old.items) heads.old.items) }
{
    let right = pack(wide, head.right)?;
    heads.push(PackedHead {
        terms: head.terms,
        right,
        relation: head.relation,
    })?;
    Ok(())
}

impl Heads {
    /// No head.
    pub fn new(alloc: Global) -> Heads
        ensures { result ≡ [] }
    {
        Heads {
            heads: Vec::new(alloc),
            wide: Vec::new(alloc),
        }
    }

    /// How many heads there are.
    pub fn len(&self) -> usize
        ensures { result ≡ length self.now }
    {
        self.heads.len()
    }

    /// Adds a head at the end.
    pub fn push(&mut self, head: Head) -> Result<(), NoMemory>
        ensures ok { OnOk result (self.new ≡ self.old ++ head ∷ []) }
        ensures err { OnErr result (self.new ≡ self.old) }
    {
        push_head(&mut self.heads, &mut self.wide, head)
    }

    /// The heads, one after another.
    pub fn iter(&self) -> HeadsLeft<'_>
        ensures { result ≡ self.now }
    {
        HeadsLeft {
            heads: self.heads.as_slice(),
            wide: self.wide.as_slice(),
        }
    }
}

/// The heads that are left of some.
#[derive(Drop)]
pub struct HeadsLeft<'a> {
    heads: &'a [PackedHead],
    wide: &'a [i128],
}

impl<'a> Model for HeadsLeft<'a> {
    ghost use Rattle.std.specs.Prelude.{List, map};
    ghost use Rattle.pb_base.specs.declared.heads.Head.{Head};
    ghost use Rattle.pb_base.specs.inner.Packing.{head_in};

    ghost Value = { List Head };

    ghost view = { λ h. map (head_in h.wide.now) h.heads.now };
}

impl<'a> Iterator for HeadsLeft<'a> {
    type Item = Head;

    ghost next_gives = { YieldsFirstBy (λ h. h) (λ h. h) };

    ghost remaining = { item_count (λ h. h) };

    fn next(&mut self) -> Option<Head> {
        let (first, rest) = self.heads.split_first()?;
        self.heads = rest;
        Some(Head {
            terms: first.terms,
            relation: first.relation,
            right: unpack(self.wide, first.right),
        })
    }
}
