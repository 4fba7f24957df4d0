//! Products of literals.
ghost use Rattle.std.specs.Prelude.{◌≡◌, ◌<◌, OnOk, IfOk, length, map};
ghost use Rattle.std.specs.List.{position_or_len};
ghost use Rattle.pb_base.specs.Firsts.{with_item};
ghost use Rattle.pb_named.specs.Products.{begins_with, is_opposed, factor_of, same_product};

use indexmap::IndexSet;
use pb_base::{Lit, Lits, NoMemory, Products};
use std::alloc::Global;
use std::marker::Model;

/// What the product of some literals comes to.
#[derive(Drop)]
pub enum Factor {
    /// 0, since two of them are opposite.
    Nought,
    /// One literal.
    Single(Lit),
    /// The product of several, each once and in order.
    Product(Lits),
}

// Whether the first literal is of the variable.
fn begins_with(lits: &[Lit], index: u32) -> bool
    ensures { result ≡ begins_with lits.now index }
{
    match lits {
        [first, ..] => first.index() == index,
        _ => false,
    }
}

// Whether some variable stands both ways in a list in order.
fn is_opposed(lits: &[Lit]) -> bool
    ensures { result ≡ is_opposed lits.now }
{
    let mut rest = lits;
    while let Some((lit, behind)) = rest.split_first() {
        if begins_with(behind, lit.index()) {
            return true;
        }
        rest = behind;
    }
    false
}

/// What the product of some literals comes to.
pub fn factor_of(lits: Lits) -> Factor
    ensures { result ≡ factor_of lits }
{
    let mut set = lits.into_vec();
    set.sort_unstable();
    set.dedup();
    if set.as_slice().len() == 1 {
        return Factor::Single(set[0]);
    }
    if is_opposed(set.as_slice()) {
        Factor::Nought
    } else {
        Factor::Product(Lits::from_vec(set))
    }
}

/// Products, each once, in first-seen order.
pub struct ProductTable {
    sets: IndexSet<Vec<Lit>>,
}

// Written out: one call in the proof of a function that owns it.
impl Drop for ProductTable {
    fn drop(self) {
        let ProductTable { sets: _ } = self;
    }
}

impl Model for ProductTable {
    ghost use Rattle.std.specs.Prelude.{List, map};
    ghost use Rattle.pb_base.specs.declared.literal.Lit.{Lit};

    ghost Value = { List (List Lit) };

    ghost view = { λ t. map (λ set. set.items) t.sets.keys };
}

// The products, as lists of literals.
fn products_in(alloc: Global, sets: &[Vec<Lit>]) -> Result<Products, NoMemory>
    ensures { IfOk result (λ ps. ps ≡ map (λ set. set.items) sets.now) }
{
    let mut list = Products::new(alloc);
    for set in sets {
        list.push(Lits::from_vec(set.as_slice().to_vec(alloc)?))?;
    }
    Ok(list)
}

// One set more, and its place.
fn note_set(sets: &mut IndexSet<Vec<Lit>>, set: Vec<Lit>) -> Result<usize, NoMemory>
    ensures noted { OnOk result (map (λ s. s.items) sets.new.keys ≡ with_item same_product (map (λ s. s.items) sets.old.keys) set.items) }
    ensures place { IfOk result (λ p. p ≡ position_or_len (same_product set.items) (with_item same_product (map (λ s. s.items) sets.old.keys) set.items)) }
    ensures within { IfOk result (λ p. p < length sets.new.keys) }
{
    let (place, _) = sets.insert_full(set)?;
    Ok(place)
}

impl ProductTable {
    ghost use Rattle.std.specs.Prelude.{[]};

    /// No product.
    pub fn new(alloc: Global) -> Self
        ensures { result ≡ [] }
    {
        ProductTable {
            sets: IndexSet::new(alloc),
        }
    }

    /// One product more, and its place.
    pub fn note(&mut self, set: Lits) -> Result<usize, NoMemory>
        ensures noted { OnOk result (self.new ≡ with_item same_product self.old set) }
        ensures place { IfOk result (λ p. p ≡ position_or_len (same_product set) (with_item same_product self.old set)) }
        ensures within { IfOk result (λ p. p < length self.new) }
    {
        note_set(&mut self.sets, set.into_vec())
    }

    /// How many products there are.
    pub fn len(&self) -> usize
        ensures { result ≡ length self.now }
    {
        self.sets.len()
    }

    /// The products.
    pub fn products(&self, alloc: Global) -> Result<Products, NoMemory>
        ensures { IfOk result (λ ps. ps ≡ self.now) }
    {
        products_in(alloc, self.sets.as_slice())
    }
}
