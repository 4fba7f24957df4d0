//! For each fresh variable, ids of the constraints that have it, and perhaps others.
//!
//! A substitution sets fresh variables alone. So the constraints that it changes are found here, put in order, each once; the first
//! that is not implied is then the one with the least id. Original variables have no list, since most terms of a derivation have one.
//!
//! The only invariant is that each live constraint is listed for its fresh variables. The id of a deleted one is taken out if it is
//! among the newest eight of a list. Others are passed over, and swept once they are more than all ids that were listed after the
//! last sweep. `naming` reads one list for a fresh variable, and walks all live constraints for an original one.
//!
//! If a database has far more variables than terms, there are 2^18 lists, and variables share one by their remainder.
ghost use Rattle.std.specs.Prelude.{◌≡◌, ◌<◌, ◌+◌, ◌%◌, ◌++◌, ◌∷◌, [], ℕ, All, Contains, IfOk, IfSome, OnOk, OnErr, length, filter, is_some, slice_index_or};
ghost use Rattle.std.specs.Bool.{OnTrue};
ghost use Rattle.pb_norm.specs.Constraints.{weights};
ghost use Rattle.pb_database.specs.inner.Slots.{slot_of};
ghost use Rattle.pb_database.specs.inner.Indexed.{ids_at, ids_of, KeepsIds, LosesId, IsIndexed};

use crate::slots::{self, Slot};
use pb_base::{NoMemory, Term, Var};
use pb_unit::newest_that;
use std::alloc::Global;
use std::marker::Model;

/// The ids that are listed for a variable, in the order in which they came. They take four bytes each: there is no memory for more slots
/// than that.
#[derive(Drop)]
pub(crate) struct Named {
    items: Vec<u32>,
}

impl Model for Named {
    ghost use Rattle.std.specs.Prelude.{List, ℕ};

    ghost Value = { List ℕ };

    ghost view = { λ n. n.items.items };
}

// True if the id is older than the eight newest: ids come ascending, so one look at the eighth newest decides. No contract depends on it.
fn is_older(items: &[u32], id: u32) -> bool {
    items.len() > 8 && items[items.len() - 8] > id
}

// Returns the index of an id among the newest, if it is one of them.
fn newest_at(items: &[u32], id: u32) -> Option<usize>
    ensures below { IfSome result (λ i. i < length items.now) }
    ensures at { IfSome result (λ i. (d : ℕ) → slice_index_or items.now i d ≡ id) }
{
    if is_older(items, id) {
        return None;
    }
    newest_that(items, |item| *item == id)
}

// Gives memory back if ids take less than a quarter of it: while a sum is derived, a variable has far more constraints than after it. No
// contract depends on it.
fn fit(items: &mut Vec<u32>)
    ensures { items.new.items ≡ items.old.items }
{
    let len = items.len();
    let room = items.capacity();
    if room >= 8 && len <= room / 4 {
        items.shrink_to(len * 2);
    }
}

impl Named {
    // Appends an id, if there is memory.
    fn push(&mut self, id: u64) -> Result<(), NoMemory>
        ensures ok { OnOk result (self.new ≡ self.old ++ id ∷ []) }
        ensures err { OnErr result (self.new ≡ self.old) }
    {
        if id > u32::MAX as u64 {
            return Err(NoMemory);
        }
        self.items.push(id as u32)?;
        Ok(())
    }

    // Removes an id that is among the newest, and returns whether it was.
    fn take(&mut self, id: u64) -> bool
        ensures { (k : ℕ) → (k ≡ id → ⊥) → Contains self.old k → Contains self.new k }
    {
        if id > u32::MAX as u64 {
            return false;
        }
        match newest_at(&self.items, id as u32) {
            Some(index) => {
                self.items.remove(index);
                fit(&mut self.items);
                true
            }
            None => false,
        }
    }

    // Drops ids whose constraints are not live.
    fn sweep(&mut self, slots: &[Slot])
        ensures { self.new ≡ filter (λ id. is_some (slot_of slots.now id).constraint) self.old }
    {
        self.items.retain(|id| slots::stands(slots, *id as u64));
        fit(&mut self.items);
    }

    // Returns the ids in the order in which they came.
    fn as_slice(&self) -> &[u32]
        ensures { result.now ≡ self.now }
    {
        self.items.as_slice()
    }
}

/// Makes empty lists, one for each of so many variables.
pub(crate) fn empty(alloc: Global, vars: u32) -> Result<Vec<Named>, NoMemory>
    ensures size { IfOk result (λ v. length v.items ≡ vars + 1) }
{
    let size = vars as usize + 1;
    let mut lists = Vec::with_capacity(alloc, size)?;
    for _place in 0..size {
        lists.push(Named {
            items: Vec::new(alloc),
        })?;
    }
    Ok(lists)
}

// Returns the index of the list for a variable; variables share lists if there are fewer of these.
fn number_in(count: usize, var: u32) -> usize
    requires { 0 < count }
    ensures value { result ≡ var % count }
    ensures below { result < count }
{
    let var = var as usize;
    if var < count { var } else { var % count }
}

// Appends an id to the list of a number, if there is memory, and returns whether there was.
fn append(lists: &mut Vec<Named>, number: usize, id: u64) -> bool
    requires { number < length lists.old.items }
    ensures kept { KeepsIds lists.old.items lists.new.items }
    ensures added { OnTrue result (Contains (ids_at lists.new.items number) id) }
{
    match lists[number].push(id) {
        Ok(()) => true,
        Err(_) => false,
    }
}

// Lists an id for a variable, if it is fresh. False if memory runs out.
fn enter_one(lists: &mut Vec<Named>, original: u32, var: u32, id: u64) -> bool
    requires { 0 < length lists.old.items }
    ensures kept { KeepsIds lists.old.items lists.new.items }
    ensures added { OnTrue result (original < var → Contains (ids_of lists.new.items var) id) }
{
    if var <= original {
        return true;
    }
    append(lists, number_in(lists.len(), var), id)
}

/// Lists an id for each fresh variable of terms. False if memory runs out.
pub(crate) fn enter(lists: &mut Vec<Named>, original: u32, terms: &[Term], id: u64) -> bool
    requires { 0 < length lists.old.items }
    ensures kept { KeepsIds lists.old.items lists.new.items }
    ensures added { OnTrue result (All (λ t. original < t.lit.var → Contains (ids_of lists.new.items t.lit.var) id) (weights terms.now)) }
{
    for term in terms {
        if !enter_one(lists, original, term.lit.index(), id) {
            return false;
        }
    }
    true
}

// Removes an id from the list of a number, if it is among the newest there, and returns whether it was.
fn take_one(lists: &mut Vec<Named>, number: usize, id: u64) -> bool
    ensures { LosesId id lists.old.items lists.new.items }
{
    if number >= lists.len() {
        return false;
    }
    lists[number].take(id)
}

// Removes an id from the list of a variable, if that is fresh and the id among the newest. True if the id stays listed.
fn leave_one(lists: &mut Vec<Named>, original: u32, var: u32, id: u64) -> bool
    requires { 0 < length lists.old.items }
    ensures { LosesId id lists.old.items lists.new.items }
{
    if var <= original {
        return false;
    }
    let number = number_in(lists.len(), var);
    !take_one(lists, number, id)
}

/// Removes an id from the lists of the fresh variables of items, where it is among the newest, and returns in how many it stays.
pub(crate) fn leave<T, F: Fn(&T) -> u32>(
    lists: &mut Vec<Named>,
    original: u32,
    items: &[T],
    id: u64,
    var_of: F,
) -> usize
    requires callable { F.IsAlwaysCallable var_of }
    requires some { 0 < length lists.old.items }
    ensures { LosesId id lists.old.items lists.new.items }
{
    let mut left: usize = 0;
    for item in items {
        if leave_one(lists, original, var_of(item), id) {
            left = left.saturating_add(1);
        }
    }
    left
}

// Drops ids whose constraints are not live from all lists.
fn sweep(lists: &mut [Named], slots: &[Slot])
    ensures { (v : ℕ) → ids_at lists.new v ≡ filter (λ id. is_some (slot_of slots.now id).constraint) (ids_at lists.old v) }
{
    for var in 0..lists.len() {
        lists[var].sweep(slots);
    }
}

/// Returns the number of lists, and of the ids in them, added up: the work of a sweep.
pub(crate) fn len(lists: &[Named]) -> usize {
    let mut count = lists.len();
    for ids in lists {
        count = count.saturating_add(ids.items.len());
    }
    count
}

/// Drops ids whose constraints are not live from all lists, if that is worth it.
pub(crate) fn sweep_if(due: bool, lists: &mut Vec<Named>, slots: &[Slot])
    ensures { (original : ℕ) → IsIndexed original slots.now lists.old.items → IsIndexed original slots.now lists.new.items }
{
    if due {
        sweep(lists, slots);
    }
}

/// Returns the ids that are listed for a variable.
pub(crate) fn ids_of(lists: &[Named], var: Var) -> &[u32]
    requires { 0 < length lists.now }
    ensures { result.now ≡ ids_of lists.now var }
{
    match lists.get(number_in(lists.len(), var.index())) {
        Some(ids) => ids.as_slice(),
        None => &[],
    }
}
