//! The names of a text's variables.
ghost use Rattle.std.specs.Prelude.{[], ◌∷◌, ◌++◌, ◌≡◌, ◌<◌, ◌^◌, OnOk, IfOk, map, length};
ghost use Rattle.std.specs.List.{position_or_len};
ghost use Rattle.std.specs.Str.{bytes_eq};
ghost use Rattle.pb_base.specs.Firsts.{with_item};
ghost use Rattle.pb_named.specs.NamedProblems.{size};
ghost use Rattle.pb_named.specs.inner.Numbering.{noted, place_in, StartsWith, Gives, IsKnown};

use crate::named::{Name, NamedLit, Parts};
use crate::places::{Places, push_place};
use indexmap::IndexSet;
use pb_base::{Bytes, Lit, Names, NoMemory, Seq, Var};
use std::alloc::Global;
use std::marker::Model;

/// How many variables are named by numbers, and the free names of the others, in first-seen order.
pub struct Table<'a> {
    numbered: u32,
    names: IndexSet<&'a [u8]>,
}

// Written out: one call in the proof of a function that owns it.
impl Drop for Table<'_> {
    fn drop(self) {
        let Table {
            numbered: _,
            names: _,
        } = self;
    }
}

impl<'a> Model for Table<'a> {
    ghost use Rattle.std.specs.Prelude.{◌<◌, ◌^◌, map};
    ghost use Rattle.pb_named.specs.NamedProblems.{Table as TableOf};

    ghost Value = { TableOf };

    ghost view = { λ t. record { numbered = t.numbered; names = map (λ n. n.now) t.names.keys } };

    ghost invariant = { λ t. t.numbered < 2 ^ 31 };
}

// One free name more, and its place.
fn note_free<'a>(names: &mut IndexSet<&'a [u8]>, text: &'a [u8]) -> Result<usize, NoMemory>
    ensures noted { OnOk result (map (λ n. n.now) names.new.keys ≡ with_item bytes_eq (map (λ n. n.now) names.old.keys) text.now) }
    ensures place { IfOk result (λ p. p ≡ position_or_len (bytes_eq text.now) (with_item bytes_eq (map (λ n. n.now) names.old.keys) text.now)) }
{
    match names.insert_full(text) {
        Ok((place, _)) => Ok(place),
        Err(_) => Err(NoMemory),
    }
}

// The free names, as lists of bytes.
fn names_in(alloc: Global, names: &[&[u8]]) -> Result<Names, NoMemory>
    ensures { IfOk result (λ ns. ns ≡ map (λ n. n.now) names.now) }
{
    let mut list = Names::new(alloc);
    for name in names {
        list.push(Bytes::from_vec(name.to_vec(alloc)?))?;
    }
    Ok(list)
}

impl<'a> Table<'a> {
    ghost use Rattle.pb_named.specs.NamedProblems.{var_of, lit_of};

    /// No name, where a number of variables is told.
    pub fn new(alloc: Global, told: u32) -> Self
        requires { told < 2 ^ 31 }
        ensures { result ≡ record { numbered = told; names = [] } }
    {
        Table {
            numbered: told,
            names: IndexSet::new(alloc),
        }
    }

    /// One name more. The place of a free one is added to the places.
    pub fn note(&mut self, places: &mut Seq<u32>, name: &Name<'a>) -> Result<(), NoMemory>
        ensures noted { OnOk result (self.new ≡ noted self.old name.now) }
        ensures places { OnOk result (places.new ≡ places.old ++ place_in (noted self.old name.now) name.now) }
    {
        match name.parts() {
            Parts::Index(number) => {
                self.numbered = self.numbered.max(number);
                Ok(())
            }
            Parts::Free(text) => {
                let place = note_free(&mut self.names, text)?;
                push_place(places, place)
            }
        }
    }

    /// How many variables are named by numbers.
    pub fn numbered_count(&self) -> u32
        ensures value { result ≡ self.now.numbered }
        ensures bound { result < 2 ^ 31 }
    {
        self.numbered
    }

    /// How many variables have free names.
    pub fn free(&self) -> usize
        ensures { result ≡ length self.now.names }
    {
        self.names.len()
    }

    /// How many variables have a name.
    pub fn size(&self) -> u32
        requires { size self.now < 2 ^ 31 }
        ensures { result ≡ size self.now }
    {
        self.numbered + self.names.len() as u32
    }

    /// The free names.
    pub fn names(&self, alloc: Global) -> Result<Names, NoMemory>
        ensures { IfOk result (λ ns. ns ≡ self.now.names) }
    {
        names_in(alloc, self.names.as_slice())
    }

    /// The variable of a name. The place of a free one is the next of the places.
    pub fn var_of(&self, name: &Name<'_>, places: &mut Places<'_>) -> Var
        requires places { StartsWith (place_in self.now) places.old (name.now ∷ []) }
        requires known { IsKnown self.now name.now }
        requires few { size self.now < 2 ^ 31 }
        ensures var { result ≡ var_of self.now name.now }
        ensures places { Gives (place_in self.now) places.old (name.now ∷ []) places.new }
    {
        match name.parts() {
            Parts::Index(number) => Var::new(number),
            Parts::Free(_) => Var::new(self.numbered + 1 + places.next()),
        }
    }

    /// The literal in numbers. The place of a free name is the next of the places.
    pub fn lit_of(&self, lit: &NamedLit<'_>, places: &mut Places<'_>) -> Lit
        requires places { StartsWith (place_in self.now) places.old (lit.now.name ∷ []) }
        requires known { IsKnown self.now lit.now.name }
        requires few { size self.now < 2 ^ 31 }
        ensures lit { result ≡ lit_of self.now lit.now }
        ensures places { Gives (place_in self.now) places.old (lit.now.name ∷ []) places.new }
    {
        Lit {
            var: self.var_of(&lit.name, places),
            positive: lit.positive,
        }
    }
}
